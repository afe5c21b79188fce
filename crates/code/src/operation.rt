//! What is done with operands: the end of their chain.

ghost use Rattle.std.specs.Prelude.{◌≡◌};
ghost use Rattle.code.specs.Operation.{builtin_numbered, far_of, operation_at, operator_numbered};

use crate::kinds::{BUILTIN, CALL, FAR, MAKE_PAIR, MAKE_TUPLE, OPERATOR, SPAWN};
use store::{Cells, Slot};
use values::Atom;

/// `+ - * / % == != < <=`
#[derive(Clone, Copy, Debug, PartialEq, Eq)]
pub enum Operator {
    Plus,
    Minus,
    Times,
    Divide,
    Modulo,
    Equal,
    Unequal,
    Less,
    AtMost,
}

/// The built-in functions.
#[derive(Clone, Copy, Debug, PartialEq, Eq)]
pub enum Builtin {
    Send,
    Itself,
    Link,
    Exit,
    Trap,
    Show,
    Register,
    Whereis,
    Swap,
}

/// A function of another module, by the numbers of its name and its module, and how many arguments it gets.
#[derive(Clone, Copy, Debug, PartialEq, Eq)]
pub struct Far {
    pub owner: Atom,
    pub function: Atom,
    pub count: u32,
}

/// An operation on operands; a call and a spawn have the function's name and how many arguments it gets.
#[derive(Clone, Copy, Debug, PartialEq, Eq)]
pub enum Operation {
    MakeTuple,
    MakePair,
    Call(Atom, u32),
    Spawn(Atom, u32),
    FarCall(Far),
    FarSpawn(Far),
    Operate(Operator),
    BuiltIn(Builtin),
    Unknown,
}

/// A number that no operator and no built-in function has.
#[derive(Clone, Copy, Debug, PartialEq, Eq)]
pub struct UnknownNumber;

impl TryFrom<u32> for Operator {
    type Error = UnknownNumber;

    ghost try_from_gives = { λ number r. r ≡ operator_numbered number };

    fn try_from(number: u32) -> Result<Operator, UnknownNumber> {
        match number {
            0 => Ok(Operator::Plus),
            1 => Ok(Operator::Minus),
            2 => Ok(Operator::Times),
            3 => Ok(Operator::Divide),
            4 => Ok(Operator::Modulo),
            5 => Ok(Operator::Equal),
            6 => Ok(Operator::Unequal),
            7 => Ok(Operator::Less),
            8 => Ok(Operator::AtMost),
            _ => Err(UnknownNumber),
        }
    }
}

impl TryFrom<u32> for Builtin {
    type Error = UnknownNumber;

    ghost try_from_gives = { λ number r. r ≡ builtin_numbered number };

    fn try_from(number: u32) -> Result<Builtin, UnknownNumber> {
        match number {
            0 => Ok(Builtin::Send),
            1 => Ok(Builtin::Itself),
            2 => Ok(Builtin::Link),
            3 => Ok(Builtin::Exit),
            4 => Ok(Builtin::Trap),
            5 => Ok(Builtin::Show),
            6 => Ok(Builtin::Register),
            7 => Ok(Builtin::Whereis),
            8 => Ok(Builtin::Swap),
            _ => Err(UnknownNumber),
        }
    }
}

impl Operation {
    /// The operation in which a chain of operands ends.
    pub fn read(code: &[u32], slot: Slot) -> Operation
        ensures { result ≡ operation_at code.now slot }
    {
        match slot.kind {
            MAKE_TUPLE => Operation::MakeTuple,
            MAKE_PAIR => Operation::MakePair,
            CALL => Operation::Call(Atom(slot.low), slot.high),
            SPAWN => Operation::Spawn(Atom(slot.low), slot.high),
            OPERATOR => Operator::try_from(slot.low).map_or(Operation::Unknown, Operation::Operate),
            BUILTIN => Builtin::try_from(slot.low).map_or(Operation::Unknown, Operation::BuiltIn),
            FAR => read_far(code.left(slot), code.right(slot)),
            _ => Operation::Unknown,
        }
    }
}

/// A call or a spawn of another module's function.
fn read_far(call: Slot, owner: Slot) -> Operation
    ensures { result ≡ far_of call owner call.kind }
{
    let function = Far {
        owner: Atom(owner.low),
        function: Atom(call.low),
        count: call.high,
    };
    match call.kind {
        CALL => Operation::FarCall(function),
        SPAWN => Operation::FarSpawn(function),
        _ => Operation::Unknown,
    }
}
