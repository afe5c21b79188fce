//! An error on its way outward, and the pair that a catch gives.

ghost use Rattle.std.specs.Prelude.{◌≡◌, ◌+◌, ◌*◌, ◌<◌, length, MatchResult};
ghost use Rattle.store.specs.Heap.{stored, Grows};
ghost use Rattle.machine.specs.Steps.{Tagged, UnwindSim};

use crate::atoms::ERROR;
use crate::frames::{Frame, read_frame};
use crate::state::{Control, Outcome, Refusal};
use store::{Full, Heap, Slot};
use values::{NO_ELEMENTS, TUPLE};

/// An error goes outward by one frame, to the catch that gives it, or to the worker's end.
pub fn unwind(heap: &mut Heap<'_>, reason: Slot, frames: Slot) -> Result<Outcome, Refusal>
    ensures grows { Grows (stored heap.old) (stored heap.new) }
    ensures sim { UnwindSim (stored heap.old) (stored heap.new) reason frames result }
{
    match read_frame(heap, frames) {
        Frame::Operands(frame, _) | Frame::Bind(frame) | Frame::Case(frame) | Frame::Until(frame) =>
            Ok(Outcome::GoesOn(Control::Fail(reason), frame.below)),
        Frame::Catch(below) => {
            let pair = tag(heap, ERROR, reason)?;
            Ok(Outcome::GoesOn(Control::Give(pair), below))
        }
        Frame::Bottom => Ok(Outcome::Ended(reason)),
    }
}

/// The tuple of an atom and a value.
pub fn tag(heap: &mut Heap<'_>, atom: Slot, value: Slot) -> Result<Slot, Full>
    ensures grows { Grows (stored heap.old) (stored heap.new) }
    ensures cases { MatchResult result
        (λ s. Tagged (stored heap.old) (stored heap.new) atom value s)
        (λ _. length heap.old.words.now < 6 * (heap.old.used + 2)) }
{
    let second = heap.put(TUPLE, value, NO_ELEMENTS)?;
    heap.put(TUPLE, atom, second)
}
