//! What a text is cut into.
ghost use Rattle.std.specs.Prelude.{◌≡◌};
ghost use Rattle.tokens.specs.Cutting.{sign_bytes};

/// A sign of two bytes.
#[derive(Clone, Copy, PartialEq, Eq, Debug)]
pub enum Sign {
    /// `->`
    Arrow,
    /// `::`
    DoubleColon,
    /// `==`
    Equal,
    /// `!=`
    Unequal,
    /// `<=`
    AtMost,
}

impl Sign {
    /// The two bytes of the sign.
    pub fn bytes(self) -> &'static [u8]
        ensures { result.now ≡ sign_bytes self }
    {
        match self {
            Sign::Arrow => b"->",
            Sign::DoubleColon => b"::",
            Sign::Equal => b"==",
            Sign::Unequal => b"!=",
            Sign::AtMost => b"<=",
        }
    }
}

/// The smallest part of a text that means something.
#[derive(Clone, Copy, Debug)]
pub enum Token<'a> {
    /// Letters, digits and `_`, borrowed from the text.
    Word(&'a [u8]),
    /// A sign of two bytes.
    Sign(Sign),
    /// Any other byte, alone.
    Byte(u8),
}

/// A token where it stands: how many bytes were skipped before it, and what follows it.
#[derive(Clone, Copy, Debug)]
pub struct Lexeme<'a> {
    pub skipped: usize,
    pub token: Token<'a>,
    pub rest: &'a [u8],
}
