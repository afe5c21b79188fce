//! The kinds of bytes that a text is cut by.
ghost use Rattle.std.specs.Prelude.{◌≡◌};
ghost use Rattle.meaning.specs.Tokens.{is_letter, is_blank};
ghost use Rattle.tokens.specs.Cutting.{Makes};

use super::token::Sign;

/// The bytes that a name has at most.
pub const LONGEST_NAME: usize = 32;

/// Is the byte a letter, a digit or `_`?
pub fn is_letter(byte: u8) -> bool
    ensures { result ≡ is_letter byte }
{
    byte.is_ascii_alphanumeric() || byte == b'_'
}

/// Does the byte only part tokens: a blank, LF, CR or a tab?
pub fn is_blank(byte: u8) -> bool
    ensures { result ≡ is_blank byte }
{
    // No `matches!`, which is compiled to three jumps where this is one test of bits.
    byte == b' ' || byte == b'\n' || byte == b'\r' || byte == b'\t'
}

/// The sign that two bytes make, if they make one.
pub fn joined(first: u8, second: u8) -> Option<Sign>
    ensures { Makes first second result }
{
    match (first, second) {
        (b'-', b'>') => Some(Sign::Arrow),
        (b':', b':') => Some(Sign::DoubleColon),
        (b'=', b'=') => Some(Sign::Equal),
        (b'!', b'=') => Some(Sign::Unequal),
        (b'<', b'=') => Some(Sign::AtMost),
        _ => None,
    }
}
