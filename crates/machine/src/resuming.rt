//! A value comes back to the frame that waits for it.

ghost use Rattle.store.specs.Heap.{stored, Grows};
ghost use Rattle.machine.specs.Resuming.{OperandSim, TimeSim};
ghost use Rattle.machine.specs.Turning.{ResumeSim};

use crate::atoms::{NORMAL, OK, TYPE};
use crate::binding::{bind, choose_clause};
use crate::frames::{Continuation, Frame, read_frame};
use crate::operators::as_number;
use crate::state::{Control, Outcome, Refusal, Worker};
use crate::unwinding::tag;
use code::VALUES;
use store::{Cells, Heap, Slot};

impl Worker<'_> {
    /// A value comes back to the innermost frame; with no frame left the worker ends.
    pub fn resume(
        self,
        heap: &mut Heap<'_>,
        scratch: &mut [u32],
        value: Slot,
        frames: Slot,
    ) -> Result<Outcome, Refusal>
        ensures grows { Grows (stored heap.old) (stored heap.new) }
        ensures sim { ResumeSim self.entry.program.code.now self.entry.program.functions.now
            (stored heap.old) (stored heap.new) scratch.old self.entry.me.0 value frames result }
    {
        let code = self.program.code;
        match read_frame(heap, frames) {
            Frame::Operands(frame, so_far) => {
                self.add_operand(heap, scratch, value, frame, so_far)
            }
            Frame::Bind(frame) => bind(code, heap, value, frame),
            Frame::Case(frame) => choose_clause(code, heap, value, frame),
            Frame::Until(frame) => Ok(wait_for(value, frame)),
            Frame::Catch(below) => {
                let pair = tag(heap, OK, value)?;
                Ok(Outcome::GoesOn(Control::Give(pair), below))
            }
            Frame::Bottom => Ok(Outcome::Ended(NORMAL)),
        }
    }

    /// One operand more is there; the frame is at its node in the code, and the next one is behind it.
    fn add_operand(
        self,
        heap: &mut Heap<'_>,
        scratch: &mut [u32],
        value: Slot,
        frame: Continuation,
        so_far: Slot,
    ) -> Result<Outcome, Refusal>
        ensures grows { Grows (stored heap.old) (stored heap.new) }
        ensures sim { OperandSim self.entry.program.code.now self.entry.program.functions.now
            (stored heap.old) (stored heap.new) scratch.old self.entry.me.0 value frame.at frame.site so_far frame.below result }
    {
        let all = heap.put(VALUES, value, so_far)?;
        let rest = self.program.code.right(frame.at);
        self.operands(heap, scratch, rest, all, frame.site, frame.below)
    }
}

/// The time of a receive is there: it waits for so long, unless that is no number of 0 or more.
fn wait_for(value: Slot, frame: Continuation) -> Outcome
    ensures { TimeSim value frame.at frame.site frame.below result }
{
    match as_number(value) {
        Some(time) if 0 <= time => Outcome::WaitsFor(frame, time.cast_unsigned()),
        _ => Outcome::GoesOn(Control::Fail(TYPE), frame.below),
    }
}
