//! How the store is used, and what it does on examples: long lists, sharing, and refusals at the very edge.

#![tactic(auto)]

ghost use Rattle.std.specs.Prelude.{◌≡◌, ◌+◌, ◌*◌, ◌<◌, length, MatchResult};
ghost use Rattle.store.specs.Heap.{stored, Den};
ghost use Rattle.store.specs.Tree.{spine, Tree};
ghost use Rattle.store_tests.specs.Triple.{Short, Triple};

use store::{Cells, FIRST_NODE, Full, Heap, Slot};

#[cfg(test)]
mod tests;

/// The kind of the nodes that the examples make.
pub const PAIR: u32 = FIRST_NODE;

/// A pair of the first slot and a pair of the others; refuses where no two cells are left.
pub fn triple(heap: &mut Heap<'_>, a: Slot, b: Slot, c: Slot) -> Result<Slot, Full>
    ensures long { length heap.new.words.now ≡ length heap.old.words.now }
    ensures cases { MatchResult result
        (λ s. Triple (stored heap.old) (stored heap.new) a b c s)
        (λ _. Short (stored heap.old) 2) }
{
    let rest = heap.put(PAIR, b, c)?;
    heap.put(PAIR, a, rest)
}

/// The length of a list, which ends where a leaf stands in place of a node.
pub fn spine_of(heap: &Heap<'_>, list: Slot) -> usize
    ensures { (t : Tree) → Den (stored heap.now) list t → result ≡ spine t }
{
    let mut rest = list;
    for steps in 0..heap.used {
        if rest.kind < FIRST_NODE {
            return steps;
        }
        rest = heap.right(rest);
    }
    heap.used
}
