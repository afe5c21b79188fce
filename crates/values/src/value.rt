//! The outermost part of a value, from a slot and to a slot.

ghost use Rattle.values.specs.Shape.{Stands, Views};

use store::Slot;

// Kinds stay numbers: they are words of lent memory, and any number may stand in a slot.
/// The kind of a number's slot, a leaf with its 64 bits.
pub const NUMBER: u32 = 0;

/// The kind of an atom's slot, a leaf with its number in the table of names.
pub const ATOM: u32 = 1;

/// The kind of the empty list's slot, a leaf.
pub const NIL: u32 = 2;

/// The kind of a worker's slot, a leaf with the 64 bits of its number.
pub const WORKER: u32 = 3;

/// The kind of the empty tuple's slot, a leaf.
pub const EMPTY_TUPLE: u32 = 4;

/// The kind of a pair's slot, a node of the head and the tail.
pub const PAIR: u32 = 16;

/// The kind of the slot of a tuple that has elements, a node of the first and the tuple of the others.
pub const TUPLE: u32 = 17;

/// The slot of the empty list.
pub const EMPTY_LIST: Slot = Slot {
    kind: NIL,
    low: 0,
    high: 0,
};

/// The slot of the tuple without elements.
pub const NO_ELEMENTS: Slot = Slot {
    kind: EMPTY_TUPLE,
    low: 0,
    high: 0,
};

/// An atom: the number of its name in a table of names.
#[derive(Clone, Copy, Debug, PartialEq, Eq)]
pub struct Atom(pub u32);

/// A worker, by its number.
#[derive(Clone, Copy, Debug, PartialEq, Eq)]
pub struct WorkerId(pub u64);

/// A value's outermost part; that of a tuple with elements and of a pair is a node, whose cell has the parts.
#[derive(Clone, Copy, Debug, PartialEq, Eq)]
pub enum Value {
    Number(i64),
    Atom(Atom),
    Worker(WorkerId),
    Nil,
    EmptyTuple,
    Tuple(Slot),
    Pair(Slot),
    /// A slot of a kind that no value has.
    Unknown(Slot),
}

/// The outermost part of the value that a slot holds.
impl From<Slot> for Value {
    ghost from_gives = { Views };

    fn from(slot: Slot) -> Value {
        match slot.kind {
            NUMBER => Value::Number(slot.number().cast_signed()),
            ATOM => Value::Atom(Atom(slot.low)),
            NIL => Value::Nil,
            WORKER => Value::Worker(WorkerId(slot.number())),
            EMPTY_TUPLE => Value::EmptyTuple,
            PAIR => Value::Pair(slot),
            TUPLE => Value::Tuple(slot),
            _ => Value::Unknown(slot),
        }
    }
}

/// The slot that holds a value.
impl From<Value> for Slot {
    ghost from_gives = { Stands };

    fn from(value: Value) -> Slot {
        match value {
            Value::Number(n) => Slot::numbered(NUMBER, n.cast_unsigned()),
            Value::Atom(Atom(low)) => Slot {
                kind: ATOM,
                low,
                high: 0,
            },
            Value::Worker(WorkerId(n)) => Slot::numbered(WORKER, n),
            Value::Nil => EMPTY_LIST,
            Value::EmptyTuple => NO_ELEMENTS,
            Value::Tuple(slot) | Value::Pair(slot) | Value::Unknown(slot) => slot,
        }
    }
}
