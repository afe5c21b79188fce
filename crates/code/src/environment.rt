//! What names are bound to.

ghost use Rattle.code.specs.Environment.{LooksUp};

use store::{Cells, Heap, Slot};

/// The value of the name of that index.
pub fn look_up(heap: &Heap<'_>, env: Slot, index: u32) -> Slot
    ensures { LooksUp heap.now.words.now env index result }
{
    let mut rest = env;
    'names: for _ in 0..index {
        rest = heap.right(rest);
    }
    heap.left(rest)
}
