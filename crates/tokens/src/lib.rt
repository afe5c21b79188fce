//! Cuts a text into tokens, one at a time, and says on which line and column a byte stands.

#![tactic(auto)]

mod bytes;
mod lexemes;
mod next;
mod position;
mod token;

pub use bytes::{LONGEST_NAME, is_letter};
pub use lexemes::Lexemes;
pub use next::next_token;
pub use position::Position;
pub use token::{Lexeme, Sign, Token};
