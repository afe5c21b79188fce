//! The number of a word: its bucket is walked through.

ghost use Rattle.std.specs.Prelude.{◌≡◌};
ghost use Rattle.names.specs.Table.{Finds, Walked, table};
ghost use Rattle.store.specs.Heap.{stored};

use crate::hash::hash;
use crate::table::NameTable;
use store::{Cells, FIRST_NODE, Heap, Slot, read_slot};
use values::Atom;

impl NameTable<'_, '_> {
    /// The number of the word in the table, or `None` where the table lacks it.
    pub fn number_of(self, buckets: &[u32], heap: &Heap<'_>, word: &[u8]) -> Option<Atom>
        ensures { Finds self.entry.text.now self.entry.spans.now self.entry.count
            buckets.now (stored heap.now) word.now result }
    {
        self.walk(heap, read_slot(buckets, hash(word)), word)
    }

    /// The first number of the chain whose name is the word.
    fn walk(self, heap: &Heap<'_>, head: Slot, word: &[u8]) -> Option<Atom>
        ensures { Walked (table self.entry.text.now self.entry.spans.now self.entry.count)
            (stored heap.now) head word.now result }
    {
        let mut at = head;
        for _step in 0..heap.used {
            if at.kind < FIRST_NODE {
                return None;
            }
            let cell = heap.both(at);
            let atom = Atom(cell.left.low);
            if self.bytes(atom) == word {
                return Some(atom);
            }
            at = cell.right;
        }
        None
    }
}
