//! The answer to a text.
ghost use Rattle.std.specs.Prelude.{◌≡◌, length, IfOk, string_bytes};
ghost use Rattle.meaning.specs.Tokens.{tokens, gap};
ghost use Rattle.checker.specs.Listing.{Reports, total_line};

use super::listing::listing;
use super::options::Detail;
use std::alloc::{AllocError, Global};
use tokens::Lexemes;

/// What is said of the text: its tokens where that is asked, and how many there are.
pub fn report(heap: Global, text: &[u8], detail: Detail) -> Result<Vec<u8>, AllocError>
    ensures { IfOk result (λ v. Reports detail text.now v.items) }
{
    let mut answer = match detail {
        Detail::Count => Vec::new(heap),
        Detail::Tokens => listing(heap, text)?,
    };
    let total = total(heap, count(text))?;
    answer.extend_from_slice(total.as_bytes())?;
    Ok(answer)
}

// How many tokens the text has.
fn count(text: &[u8]) -> usize
    ensures { result ≡ length (tokens gap text.now) }
{
    Lexemes::new(text).count()
}

// The last line of the answer.
fn total(heap: Global, count: usize) -> Result<String, AllocError>
    ensures { IfOk result (λ s. string_bytes s ≡ total_line count) }
{
    if count == 1 {
        format!(in heap; "{count} token\n")
    } else {
        format!(in heap; "{count} tokens\n")
    }
}
