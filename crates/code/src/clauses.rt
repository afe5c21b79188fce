//! Patterns and clauses as code sees them: what a slot of each stands for.

ghost use Rattle.code.specs.Clauses.{PatternIs, Views};

use crate::kinds::{ANY, BIND, CLAUSES};
use store::{Cells, FIRST_NODE, Slot};

/// The outermost part of a pattern; a node matches a node of its kind whose parts its parts match.
#[derive(Clone, Copy, Debug, PartialEq, Eq)]
pub enum Pattern {
    Any,
    Bind,
    Leaf(Slot),
    Node(Slot),
}

/// The slots of a clause's pattern and body, and of the clauses behind it.
#[derive(Clone, Copy, Debug, PartialEq, Eq)]
pub struct Clause {
    pub pattern: Slot,
    pub body: Slot,
    pub rest: Slot,
}

/// The outermost part of the pattern in the slot.
impl From<Slot> for Pattern {
    ghost from_gives = { PatternIs };

    fn from(slot: Slot) -> Pattern {
        match slot.kind {
            ANY => Pattern::Any,
            BIND => Pattern::Bind,
            kind if kind < FIRST_NODE => Pattern::Leaf(slot),
            _ => Pattern::Node(slot),
        }
    }
}

impl Clause {
    /// The first of the clauses in the slot, if there is one.
    pub fn first(code: &[u32], slot: Slot) -> Option<Clause>
        ensures { Views code.now slot result }
    {
        if slot.kind != CLAUSES {
            return None;
        }
        let cell = code.both(slot);
        let clause = code.both(cell.left);
        Some(Clause {
            pattern: clause.left,
            body: clause.right,
            rest: cell.right,
        })
    }
}
