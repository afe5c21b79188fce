//! What a token is to the grammar, and whether a statement binds.

#![tactic(auto)]

mod class;
mod classify;
mod keyword;
mod look_ahead;
mod numeral;

pub use class::{Bracket, Class, Separator, Starter};
pub use classify::class_of;
pub use look_ahead::binds;
pub use numeral::number;
