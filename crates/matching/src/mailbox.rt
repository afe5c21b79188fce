//! A mailbox in three chains of messages, so that a message is added by one cell and none is looked at twice in vain.

ghost use Rattle.std.specs.Prelude.{MatchResult};
ghost use Rattle.store.specs.Heap.{stored, Lacks, Grows};
ghost use Rattle.code.specs.Turning.{TurnLacks};
ghost use Rattle.matching.specs.Mailboxes.{Empty, Pushed, Rewound};

use code::{VALUES, turn};
use store::{Full, Heap, Slot};
use values::EMPTY_LIST;

/// Messages in order: `seen` from its end, which the clauses at hand do not match; `front`; and `back` from its end.
#[derive(Clone, Copy, Debug, PartialEq, Eq)]
pub struct Mailbox {
    pub seen: Slot,
    pub front: Slot,
    pub back: Slot,
}

/// No messages.
pub const NO_MESSAGES: Slot = EMPTY_LIST;

impl Mailbox {
    /// A mailbox without messages.
    pub fn new() -> Mailbox
        ensures { Empty result }
    {
        Mailbox {
            seen: NO_MESSAGES,
            front: NO_MESSAGES,
            back: NO_MESSAGES,
        }
    }

    /// The mailbox with a message more, at its end; refuses where no cell is left.
    pub fn push(self, heap: &mut Heap<'_>, message: Slot) -> Result<Mailbox, Full>
        ensures grows { Grows (stored heap.old) (stored heap.new) }
        ensures cases { MatchResult result
            (λ new. Pushed (stored heap.old) (stored heap.new) self message new)
            (λ _. Lacks (stored heap.old) (stored heap.new)) }
    {
        let back = heap.put(VALUES, message, self.back)?;
        Ok(Mailbox { back, ..self })
    }

    /// The mailbox with all messages to be looked at again, by other clauses; refuses where there is no cell for each that
    /// was seen.
    pub fn rewind(self, heap: &mut Heap<'_>) -> Result<Mailbox, Full>
        ensures grows { Grows (stored heap.old) (stored heap.new) }
        ensures cases { MatchResult result
            (λ new. Rewound (stored heap.old) (stored heap.new) self new)
            (λ _. TurnLacks (stored heap.old) self.seen) }
    {
        let front = turn(heap, VALUES, self.seen, self.front)?;
        Ok(Mailbox {
            seen: NO_MESSAGES,
            front,
            ..self
        })
    }
}
