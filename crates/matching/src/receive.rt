//! The first message of a mailbox that some clause matches.

ghost use Rattle.std.specs.Prelude.{◌≡◌, MatchResult};
ghost use Rattle.store.specs.Heap.{stored, Grows};
ghost use Rattle.matching.specs.Receives.{LookLacks, Looks, TakeLacks, Takes};

use crate::clause::{Chosen, Clauses};
use crate::mailbox::{Mailbox, NO_MESSAGES};
use code::{VALUES, turn};
use store::{Cells, Full, Heap, Slot};

/// What the clause chose that matched a message, and the mailbox without that message; where no clause matches one, the
/// mailbox with all messages seen.
#[derive(Clone, Copy, Debug, PartialEq, Eq)]
pub struct Taken {
    pub chosen: Option<Chosen>,
    pub mailbox: Mailbox,
}

/// The same in one chain: the messages before the one that matched, the last one first, and those behind it.
#[derive(Clone, Copy, Debug, PartialEq, Eq)]
pub struct Looked {
    pub chosen: Option<Chosen>,
    pub seen: Slot,
    pub rest: Slot,
}

impl Looked {
    /// What was taken, where these messages are in the back.
    fn with_back(self, back: Slot) -> Taken
        ensures { result ≡ record { chosen = self.chosen; mailbox = record { seen = self.seen; front = self.rest; back = back } } }
    {
        Taken {
            chosen: self.chosen,
            mailbox: Mailbox {
                seen: self.seen,
                front: self.rest,
                back,
            },
        }
    }
}

impl Clauses<'_> {
    /// Takes the first message that some clause matches, and leaves the others in order; what was seen is not looked at
    /// again. Refuses where there is no cell for each message in front, two for each in the back, and one for each name that
    /// the pattern of some clause binds.
    pub fn take_first(self, heap: &mut Heap<'_>, mailbox: Mailbox) -> Result<Taken, Full>
        ensures grows { Grows (stored heap.old) (stored heap.new) }
        ensures cases { MatchResult result
            (λ taken. Takes self.entry.code.now (stored heap.old) (stored heap.new)
            self.entry.first mailbox self.entry.env taken)
            (λ _. TakeLacks self.entry.code.now (stored heap.old)
            self.entry.first mailbox self.entry.env) }
    {
        let in_front = self.look_through(heap, mailbox.seen, mailbox.front)?;
        if in_front.chosen.is_some() {
            return Ok(in_front.with_back(mailbox.back));
        }
        let front = turn(heap, VALUES, mailbox.back, NO_MESSAGES)?;
        let in_back = self.look_through(heap, in_front.seen, front)?;
        Ok(in_back.with_back(NO_MESSAGES))
    }

    /// Looks at messages one after another, and puts those that no clause matches to those seen.
    fn look_through(self, heap: &mut Heap<'_>, seen: Slot, messages: Slot) -> Result<Looked, Full>
        ensures grows { Grows (stored heap.old) (stored heap.new) }
        ensures cases { MatchResult result
            (λ looked. Looks self.entry.code.now (stored heap.old) (stored heap.new)
            self.entry.first self.entry.env seen messages looked)
            (λ _. LookLacks self.entry.code.now (stored heap.old)
            self.entry.first self.entry.env seen messages) }
    {
        let mut seen = seen;
        let mut rest = messages;
        'messages: while rest.kind == VALUES {
            let cell = heap.both(rest);
            rest = cell.right;
            let chosen = self.choose(heap, cell.left)?;
            if chosen.is_some() {
                return Ok(Looked { chosen, seen, rest });
            }
            seen = heap.put(VALUES, cell.left, seen)?;
        }
        Ok(Looked {
            chosen: None,
            seen,
            rest,
        })
    }
}
