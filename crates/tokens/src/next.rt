//! The first token of a text.
ghost use Rattle.std.specs.Prelude.{◌≡◌, ◌<◌, ◌≤◌, [], length, MatchOption, slice_index};
ghost use Rattle.std.specs.List.{prefix_len};
ghost use Rattle.meaning.specs.Tokens.{is_letter, tokens, gap};
ghost use Rattle.tokens.specs.Cutting.{Begins, CommentEnds, CommentOpen, Joined, Leads, Next, Starts, Unjoined};

use super::bytes::{is_blank, is_letter, joined};
use super::token::{Lexeme, Sign, Token};

/// The first token of the text, and the rest of the text behind it; `None` where the text has no token.
pub fn next_token(text: &[u8]) -> Option<Lexeme<'_>>
    ensures { Next text.now result }
{
    let skipped = token_start(text)?;
    let (token, rest) = leading_token(&text[skipped..]);
    Some(Lexeme {
        skipped,
        token,
        rest,
    })
}

// Where the first token begins, past blanks and comments.
fn token_start(text: &[u8]) -> Option<usize>
    ensures { MatchOption result (tokens gap text.now ≡ []) (Starts text.now) }
{
    // By place, here and in a comment: over the rest of the text short tokens take a quarter more time.
    let mut at = 0;
    while at < text.len() {
        let byte = text[at];
        if is_blank(byte) {
            at += 1;
        } else if byte == b'#' {
            at = comment_end(text, at + 1)?;
        } else {
            return Some(at);
        }
    }
    None
}

// Behind the LF that ends the comment in which `from` stands; `None` where the text ends first.
fn comment_end(text: &[u8], from: usize) -> Option<usize>
    requires { from ≤ length text.now }
    ensures { MatchOption result (CommentOpen text.now from) (CommentEnds text.now from) }
{
    let mut at = from;
    while at < text.len() {
        let passed = text[at];
        at += 1;
        if passed == b'\n' {
            return Some(at);
        }
    }
    None
}

// The token that the text begins with, and the rest.
fn leading_token(text: &[u8]) -> (Token<'_>, &[u8])
    requires { (0 < length text.now) × (Begins (slice_index text.now 0)) }
    ensures { Leads text.now result.0 result.1.now }
{
    let letters = word_length(text);
    if letters > 0 {
        let (word, rest) = text.split_at(letters);
        return (Token::Word(word), rest);
    }
    match leading_sign(text) {
        Some(sign) => (Token::Sign(sign), &text[2..]),
        None => (Token::Byte(text[0]), &text[1..]),
    }
}

// The sign that the first two bytes make, if they make one.
fn leading_sign(text: &[u8]) -> Option<Sign>
    ensures { MatchOption result (Unjoined text.now) (Joined text.now) }
{
    match text {
        [first, second, ..] => joined(*first, *second),
        _ => None,
    }
}

// How many letters the text begins with.
fn word_length(text: &[u8]) -> usize
    ensures { result ≡ prefix_len is_letter text.now }
{
    text.iter().take_while(|byte| is_letter(**byte)).count()
}
