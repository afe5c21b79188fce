//! The walk through a value's tree that gives its text piece by piece, with a stack in lent words.

ghost use Rattle.std.specs.Prelude.{◌≡◌, Some, None};

use crate::piece::{Piece, ROOM};
use crate::value::{EMPTY_TUPLE, PAIR, TUPLE, Value};
use store::{Cell, Cells, Full, Slot, Stack};

/// Why a value is not printed: its text is longer than the room, or it is nested deeper than the scratch has cells.
#[derive(Clone, Copy, Debug, PartialEq, Eq)]
pub enum Unprinted {
    TooLong,
    TooDeep,
}

impl From<Full> for Unprinted {
    ghost use Rattle.values.specs.declared.walk.Unprinted.TheVariants.{TooDeep};

    ghost from_gives = { λ _ why. why ≡ TooDeep };

    fn from(_full: Full) -> Self {
        Self::TooDeep
    }
}

/// Where a walk stands: what is written next, and how many pairs close after it.
#[derive(Clone, Copy, Debug, PartialEq, Eq)]
pub struct Cursor {
    pub next: Option<Slot>,
    pub closing: usize,
}

/// A walk: the words that it reads, the nodes that wait, and where it is.
#[derive(Drop)]
pub struct Walk<'a, 's> {
    pub words: &'a [u32],
    pub stack: Stack<'s>,
    pub cursor: Cursor,
}

impl Walk<'_, '_> {
    ghost use Rattle.values.specs.Walk.{Keeps, Opened, Steps};

    /// The next piece of the text, or none at its end.
    pub fn advance(&mut self) -> Result<Option<Piece>, Unprinted>
        ensures { Steps self.old self.new result }
    {
        match self.cursor.next {
            Some(slot) => self.begin(slot),
            None => self.resume(),
        }
    }

    /// The first piece of the value that is next.
    fn begin(&mut self, slot: Slot) -> Result<Option<Piece>, Unprinted>
        requires { self.old.cursor.next ≡ Some slot }
        ensures { Steps self.old self.new result }
    {
        self.cursor.next = None;
        match Value::from(slot) {
            Value::Number(n) => Ok(Some(Piece::Number(n))),
            Value::Atom(atom) => Ok(Some(Piece::Atom(atom))),
            Value::Worker(worker) => Ok(Some(Piece::Worker(worker))),
            Value::Nil => Ok(Some(Piece::Signs(b'[', b']'))),
            Value::EmptyTuple => Ok(Some(Piece::Signs(b'{', b'}'))),
            Value::Pair(node) => {
                let closing = self.cursor.closing.checked_add(1);
                let closing = closing.ok_or(Unprinted::TooLong)?;
                self.open(node, Slot::numbered(PAIR, closing as u64), b'[')
            }
            Value::Tuple(node) => {
                let mark = Slot::numbered(TUPLE, self.cursor.closing as u64);
                self.open(node, mark, b'{')
            }
            Value::Unknown(_) => Err(Unprinted::TooDeep),
        }
    }

    /// The next piece after a value: brackets that close, or what waits.
    fn resume(&mut self) -> Result<Option<Piece>, Unprinted>
        requires { self.old.cursor.next ≡ None }
        ensures { Steps self.old self.new result }
    {
        if self.cursor.closing > 0 {
            let count = self.cursor.closing.min(ROOM);
            self.cursor.closing -= count;
            return Ok(Some(Piece::Closing(count)));
        }
        self.pop()
    }

    /// The next piece after the left part of a node, if one waits: its mark says whether a tail or more elements wait.
    fn pop(&mut self) -> Result<Option<Piece>, Unprinted>
        requires next { self.old.cursor.next ≡ None }
        requires closing { self.old.cursor.closing ≡ 0 }
        ensures { Steps self.old self.new result }
    {
        let Some(Cell { left, right }) = self.stack.pop() else {
            return Ok(None);
        };
        let closing = right.number() as usize;
        if right.kind == PAIR {
            self.cursor.next = Some(left);
            self.cursor.closing = closing;
            return Ok(Some(Piece::Sign(b'|')));
        }
        if left.kind == EMPTY_TUPLE {
            self.cursor.closing = closing;
            return Ok(Some(Piece::Signs(b',', b'}')));
        }
        self.open(left, right, b',')
    }

    /// Goes on with the left slot of a node, and lets the right one wait with its mark.
    fn open(&mut self, node: Slot, mark: Slot, sign: u8) -> Result<Option<Piece>, Unprinted>
        ensures keeps { Keeps self.old self.new }
        ensures opened { Opened self.old self.new node mark sign result }
    {
        let parts = self.words.both(node);
        self.stack.push(Cell {
            left: parts.right,
            right: mark,
        })?;
        self.cursor = Cursor {
            next: Some(parts.left),
            closing: 0,
        };
        Ok(Some(Piece::Sign(sign)))
    }
}
