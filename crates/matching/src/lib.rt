//! Patterns against values, clauses against a message, and the mailbox from which a receive takes its message.

#![tactic(auto)]

mod clause;
mod mailbox;
mod pattern;
mod receive;

pub use clause::{Chosen, Clauses};
pub use mailbox::{Mailbox, NO_MESSAGES};
pub use pattern::fits;
pub use receive::Taken;
