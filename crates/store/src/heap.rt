//! The store as one value: memory and how many cells of it are in use.

ghost use Rattle.std.specs.Prelude.{◌≡◌, length, MatchResult};
ghost use Rattle.store.specs.Heap.{stored, Lacks, Put};

use crate::cells::Cells;
use crate::slot::{Cell, Full, Place, Slot, write_cell};

/// Lent words, of which the first `used` cells are in use; no method changes a cell. No `Vec` or `Box`, since the memory is
/// lent and nothing else may be allocated.
#[derive(Drop)]
pub struct Heap<'a> {
    pub words: &'a mut [u32],
    pub used: usize,
}

impl Heap<'_> {
    /// Makes a cell of two slots and gives the slot of its node; refuses where no cell is left.
    pub fn put(&mut self, kind: u32, left: Slot, right: Slot) -> Result<Slot, Full>
        ensures long { length self.new.words.now ≡ length self.old.words.now }
        ensures same_reference { self.new.words.ghost_name ≡ self.old.words.ghost_name }
        ensures cases { MatchResult result
            (λ s. Put (stored self.old) (stored self.new) kind left right s)
            (λ _. Lacks (stored self.old) (stored self.new)) }
    {
        let place = Place(self.used);
        write_cell(self.words, place, Cell { left, right })?;
        self.used += 1;
        Ok(place.slot(kind))
    }
}

impl Cells for Heap<'_> {
    ghost words = { λ h. h.words.now };

    fn words(&self) -> &[u32] {
        self.words
    }
}
