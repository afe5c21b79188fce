//! Chains of values: what names are bound to, operands so far, and messages.

ghost use Rattle.std.specs.Prelude.{MatchResult};
ghost use Rattle.store.specs.Heap.{stored, Grows};
ghost use Rattle.code.specs.Turning.{TurnLacks, Turned};

use crate::kinds::VALUES;
use store::{Cells, Full, Heap, Slot};

/// The values of `chain`, the last one first, each in a node of that kind, before `onto`; refuses where there is no cell for
/// each.
pub fn turn(heap: &mut Heap<'_>, kind: u32, chain: Slot, onto: Slot) -> Result<Slot, Full>
    ensures grows { Grows (stored heap.old) (stored heap.new) }
    ensures cases { MatchResult result
        (λ s. Turned kind (stored heap.old) (stored heap.new) chain onto s)
        (λ _. TurnLacks (stored heap.old) chain) }
{
    let mut rest = chain;
    let mut done = onto;
    // No iterator over the chain: it would borrow the heap that the loop writes to.
    'values: while rest.kind == VALUES {
        let cell = heap.both(rest);
        done = heap.put(kind, cell.left, done)?;
        rest = cell.right;
    }
    Ok(done)
}
