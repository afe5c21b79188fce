//! What is read of cells, alike for the words of a program and for a heap.

ghost use Rattle.std.specs.Prelude.{◌≡◌, ℕ, true, List, Ok, MatchResult};
ghost use Rattle.store.specs.Compare.{Answers, TooLarge};
ghost use Rattle.store.specs.Heap.{left_of, right_of, BothOf};

use crate::comparer::equal;
use crate::slot::{Cell, Full, Slot, read_cell};

/// Words that hold cells.
pub trait Cells {
    ghost words: { Self → List ℕ };

    /// The words.
    fn words(&self) -> &[u32]
        ensures { result.now ≡ words self.now };

    /// The left slot of the cell that `node` refers to.
    fn left(&self, node: Slot) -> Slot
        ensures { result ≡ left_of (words self.now) node }
    {
        self.both(node).left
    }

    /// The right slot of the cell that `node` refers to.
    fn right(&self, node: Slot) -> Slot
        ensures { result ≡ right_of (words self.now) node }
    {
        self.both(node).right
    }

    /// Both slots of the cell that `node` refers to, by one test.
    fn both(&self, node: Slot) -> Cell
        ensures { BothOf (words self.now) node result }
    {
        read_cell(self.words(), node.place())
    }

    /// Whether `a` and `b` denote the same tree; refuses only where the first has more cells than `scratch` or `budget`.
    ///
    /// At most `budget` cells are looked at, and none where two slots are alike.
    fn equal(&self, a: Slot, b: Slot, scratch: &mut [u32], budget: usize) -> Result<bool, Full>
        ensures cases { MatchResult result
            (λ answer. Answers (words self.now) a b answer)
            (λ _. TooLarge (words self.now) a b scratch.old budget) }
        ensures alike { a ≡ b → result ≡ Ok true }
    {
        equal(self.words(), a, b, scratch, budget)
    }
}

impl Cells for &[u32] {
    ghost words = { λ s. s.now };

    fn words(&self) -> &[u32] {
        self
    }
}
