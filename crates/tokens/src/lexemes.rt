//! The tokens of a text, one after another.
ghost use Rattle.std.specs.Prelude.{◌≡◌};
ghost use Rattle.tokens.specs.Lexemes.{CutsNext, bytes_left, text_left};

use super::next::next_token;
use super::token::Lexeme;
use std::iter::FusedIterator;

/// An iterator over the tokens of a text, each where it stands.
#[derive(Clone, Debug, Drop)]
pub struct Lexemes<'a> {
    rest: &'a [u8],
}

impl<'a> Lexemes<'a> {
    /// The tokens of this text, from the first on.
    pub fn new(text: &'a [u8]) -> Lexemes<'a>
        ensures { text_left result ≡ text.now }
    {
        Lexemes { rest: text }
    }
}

impl<'a> Iterator for Lexemes<'a> {
    type Item = Lexeme<'a>;

    ghost next_gives = { CutsNext };

    ghost remaining = { bytes_left };

    fn next(&mut self) -> Option<Lexeme<'a>> {
        let lexeme = next_token(self.rest)?;
        self.rest = lexeme.rest;
        Some(lexeme)
    }
}

impl<'a> FusedIterator for Lexemes<'a> {}
