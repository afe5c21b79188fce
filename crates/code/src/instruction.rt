//! What a slot of the code says: an expression's outermost part, and what a body begins with.

ghost use Rattle.std.specs.Prelude.{◌≡◌};
ghost use Rattle.code.specs.Instruction.{instruction_at, start_at};

use crate::kinds::{
    BUILTIN, CASE, CATCH, FAR, MAKE_TUPLE, OPERAND, RECEIVE, STATEMENT, UNTIL, VARIABLE,
};
use store::{Cells, Slot};
use values::{NIL, NUMBER};

/// The outermost part of an expression.
#[derive(Clone, Copy, Debug, PartialEq, Eq)]
pub enum Instruction {
    /// A number, an atom or nil: the slot itself is that of the value.
    Constant,
    /// A variable, by its index in the environment.
    Variable(u32),
    /// An operation: the slot begins the chain of its operands.
    Apply,
    /// A case on this expression.
    Case(Slot),
    Receive,
    /// A receive with a time, which is this expression.
    ReceiveUntil(Slot),
    /// A catch of this body.
    Catch(Slot),
    Unknown,
}

impl Instruction {
    /// The outermost part of the expression that the slot begins.
    pub fn read(code: &[u32], slot: Slot) -> Instruction
        ensures { result ≡ instruction_at code.now slot }
    {
        match slot.kind {
            NUMBER..=NIL => Instruction::Constant,
            VARIABLE => Instruction::Variable(slot.low),
            MAKE_TUPLE..=BUILTIN | OPERAND..=FAR => Instruction::Apply,
            CASE => Instruction::Case(code.left(slot)),
            RECEIVE => Instruction::Receive,
            UNTIL => Instruction::ReceiveUntil(code.left(code.right(slot))),
            CATCH => Instruction::Catch(code.left(slot)),
            _ => Instruction::Unknown,
        }
    }
}

/// The expression of the statement that the body begins with; none where the body is an expression alone.
pub fn first_statement(code: &[u32], body: Slot) -> Option<Slot>
    ensures { result ≡ start_at code.now body }
{
    match body.kind {
        STATEMENT => Some(code.left(code.right(body))),
        _ => None,
    }
}
