//! How programs stand in cells: shared by the reader, which makes them, and the machine, which runs them.

#![tactic(auto)]

ghost use Rattle.code.specs.Reading.{ReadsFine};

mod chain;
mod clauses;
mod environment;
mod instruction;
mod kinds;
mod operation;
mod program;

pub use chain::turn;
pub use clauses::{Clause, Pattern};
pub use environment::look_up;
pub use instruction::{Instruction, first_statement};
pub use kinds::{BIND, CASE, CLAUSES, OPERAND, STATEMENT, UNTIL, VALUES};
pub use operation::{Builtin, Far, Operation, Operator, UnknownNumber};
pub use program::Program;

/// All functions of a program that was read have trees of their own.
pub fn reads_fine()
    ensures { ReadsFine }
{}
