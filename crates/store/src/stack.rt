//! Cells that wait in lent words, one on the other.

ghost use Rattle.std.specs.Prelude.{◌≡◌, ◌+◌, ◌*◌, ◌<◌, ◌≤◌, [], ◌∷◌, length, MatchOption, MatchResult};
ghost use Rattle.store.specs.Stack.{waiting};

use crate::slot::{Cell, Full, Place, read_cell, write_cell};

/// Lent words, whose first `depth` cells wait, the last of them on top; no `Vec`, since nothing may be allocated.
#[derive(Drop)]
pub struct Stack<'a> {
    pub words: &'a mut [u32],
    pub depth: usize,
}

impl<'a> Stack<'a> {
    /// A stack on which nothing waits; it has room for one cell in every six words.
    pub fn new(words: &'a mut [u32]) -> Stack<'a>
        ensures none { waiting result ≡ [] }
        ensures words { result.words.now ≡ words.old }
        ensures same_reference { result.words.ghost_name ≡ words.entry.ghost_name }
    {
        Stack { words, depth: 0 }
    }
}

impl Stack<'_> {
    /// Puts a cell on top; refuses where the words have ended.
    pub fn push(&mut self, cell: Cell) -> Result<(), Full>
        ensures long { length self.new.words.now ≡ length self.old.words.now }
        ensures cases { MatchResult result
            (λ _. (6 * (length (waiting self.old) + 1) ≤ length self.old.words.now)
            × (waiting self.new ≡ cell ∷ waiting self.old))
            (λ _. (length self.old.words.now < 6 * (length (waiting self.old) + 1))
            × (waiting self.new ≡ waiting self.old)) }
    {
        write_cell(self.words, Place(self.depth), cell)?;
        self.depth += 1;
        Ok(())
    }

    /// Takes the cell on top, if any waits.
    pub fn pop(&mut self) -> Option<Cell>
        ensures words { self.new.words ≡ self.old.words }
        ensures cases { MatchOption result
            ((waiting self.old ≡ []) × (waiting self.new ≡ []))
            (λ cell. waiting self.old ≡ cell ∷ waiting self.new) }
    {
        let below = self.depth.checked_sub(1)?;
        self.depth = below;
        Some(read_cell(self.words(), Place(below)))
    }

    fn words(&self) -> &[u32]
        ensures { result.now ≡ self.now.words.now }
    {
        self.words
    }
}
