//! The tokens of a text, each on a line of its own.
ghost use Rattle.std.specs.Prelude.{◌≡◌, [], ◌++◌, IfOk, OnOk};
ghost use Rattle.checker.specs.Listing.{Lists, described, described_byte, token_line};

use std::alloc::{AllocError, Global};
use tokens::{Position, Token, next_token};

/// A line for each token: where it begins, of which kind it is, and its bytes.
pub fn listing(heap: Global, text: &[u8]) -> Result<Vec<u8>, AllocError>
    ensures { IfOk result (λ v. Lists [] text.now v.items) }
{
    let mut lines = Vec::new(heap);
    let mut position = Position::START;
    let mut rest = text;
    // No `for` over `Lexemes`: what stands before a token and the token are parts of the text that was left.
    while let Some(lexeme) = next_token(rest) {
        let start = position.past(&rest[..lexeme.skipped]);
        add_line(&mut lines, start, lexeme.token)?;
        let used = rest.len() - lexeme.rest.len();
        position = position.past(&rest[..used]);
        rest = lexeme.rest;
    }
    Ok(lines)
}

// Adds the line of one token.
fn add_line(lines: &mut Vec<u8>, start: Position, token: Token<'_>) -> Result<(), AllocError>
    ensures { OnOk result (lines.new.items ≡ lines.old.items ++ token_line start.line start.column token.entry) }
{
    let Position { line, column } = start;
    let heap = *lines.allocator();
    let place = format!(in heap; "{line}:{column} ")?;
    lines.extend_from_slice(place.as_bytes())?;
    describe(lines, token)?;
    lines.push(b'\n')?;
    Ok(())
}

// Adds the kind of a token and its bytes.
fn describe(lines: &mut Vec<u8>, token: Token<'_>) -> Result<(), AllocError>
    ensures { OnOk result (lines.new.items ≡ lines.old.items ++ described token.entry) }
{
    match token {
        Token::Word(word) => add(lines, b"word ", word),
        Token::Sign(sign) => add(lines, b"sign ", sign.bytes()),
        Token::Byte(byte) => describe_byte(lines, byte),
    }
}

// Adds a byte that stands alone; one that cannot be shown by its number.
fn describe_byte(lines: &mut Vec<u8>, byte: u8) -> Result<(), AllocError>
    ensures { OnOk result (lines.new.items ≡ lines.old.items ++ described_byte byte) }
{
    if byte.is_ascii_graphic() {
        return add(lines, b"sign ", &[byte]);
    }
    let heap = *lines.allocator();
    let number = format!(in heap; "{byte}")?;
    add(lines, b"byte ", number.as_bytes())
}

// Adds a kind and what is of that kind.
fn add(lines: &mut Vec<u8>, kind: &[u8], bytes: &[u8]) -> Result<(), AllocError>
    ensures { OnOk result (lines.new.items ≡ lines.old.items ++ (kind.now ++ bytes.now)) }
{
    lines.extend_from_slice(kind)?;
    lines.extend_from_slice(bytes)?;
    Ok(())
}
