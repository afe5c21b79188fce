//! The first clause that matches a value.

ghost use Rattle.std.specs.Prelude.{◌≡◌, MatchResult};
ghost use Rattle.store.specs.Heap.{stored, Grows};
ghost use Rattle.matching.specs.Choices.{ChoiceLacks, Chooses, Wakes};

use crate::pattern::fits;
use code::Clause;
use store::{Full, Heap, Slot};

/// The clauses at hand, in the code's cells, and what names are bound to where they stand.
#[derive(Clone, Copy)]
pub struct Clauses<'a> {
    pub code: &'a [u32],
    pub first: Slot,
    pub env: Slot,
}

/// The body of a clause that matched, and the environment with what its pattern bound.
#[derive(Clone, Copy, Debug, PartialEq, Eq)]
pub struct Chosen {
    pub body: Slot,
    pub env: Slot,
}

impl Clauses<'_> {
    /// The first clause that matches the value, if one does; refuses where there is no cell for each name that the pattern
    /// of some clause binds. If none matches, no cell is taken.
    pub fn choose(self, heap: &mut Heap<'_>, value: Slot) -> Result<Option<Chosen>, Full>
        ensures grows { Grows (stored heap.old) (stored heap.new) }
        ensures cases { MatchResult result
            (λ found. Chooses self.entry.code.now (stored heap.old) (stored heap.new)
            self.entry.first value self.entry.env found)
            (λ _. ChoiceLacks self.entry.code.now (stored heap.old) (stored heap.new)
            self.entry.first value self.entry.env) }
    {
        let mut rest = self.first;
        // Clauses are an edge of the code's cells, which is at most one longer than the words.
        'clauses: for _ in 0..=self.code.len() {
            let Some(clause) = Clause::first(self.code, rest) else {
                return Ok(None);
            };
            if let Some(env) = fits(self.code, heap, clause.pattern, value, self.env)? {
                return Ok(Some(Chosen {
                    body: clause.body,
                    env,
                }));
            }
            rest = clause.rest;
        }
        Ok(None)
    }

    /// Whether some clause matches the message; takes no cell in the end, and refuses as `choose` does.
    pub fn wakes(self, heap: &mut Heap<'_>, message: Slot) -> Result<bool, Full>
        ensures grows { Grows (stored heap.old) (stored heap.new) }
        ensures spared { heap.new.used ≡ heap.old.used }
        ensures cases { MatchResult result
            (λ answer. Wakes self.entry.code.now (stored heap.old)
            self.entry.first message self.entry.env answer)
            (λ _. ChoiceLacks self.entry.code.now (stored heap.old) (stored heap.new)
            self.entry.first message self.entry.env) }
    {
        let used = heap.used;
        let found = self.choose(heap, message)?;
        heap.used = used;
        Ok(found.is_some())
    }
}
