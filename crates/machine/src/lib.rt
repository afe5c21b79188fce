//! One turn of one worker: what its state is in cells, and what it leads to.

#![tactic(auto)]

mod atoms;
mod binding;
mod evaluation;
mod frames;
mod operators;
mod performing;
mod receiving;
mod resuming;
mod state;
mod turning;
mod unwinding;

pub use binding::{bind, choose_clause};
pub use evaluation::begin_body;
pub use frames::{Continuation, Frame, make_frame, read_frame};
pub use operators::{as_number, operate};
pub use receiving::{Next, Waited, take_message};
pub use state::{Control, Outcome, Refusal, Site, Worker};
pub use unwinding::{tag, unwind};
