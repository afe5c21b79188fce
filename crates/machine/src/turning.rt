//! One turn of one worker.

ghost use Rattle.store.specs.Heap.{stored, Grows};
ghost use Rattle.machine.specs.Turning.{TurnSim};

use crate::evaluation::begin_body;
use crate::state::{Control, Outcome, Refusal, Worker};
use crate::unwinding::unwind;
use store::{Heap, Slot};

impl Worker<'_> {
    /// One turn of a worker that does not wait for a message; one that waits stays as it is.
    pub fn turn(
        self,
        heap: &mut Heap<'_>,
        scratch: &mut [u32],
        control: Control,
        frames: Slot,
    ) -> Result<Outcome, Refusal>
        ensures grows { Grows (stored heap.old) (stored heap.new) }
        ensures sim { TurnSim self.entry.program.code.now self.entry.program.functions.now
            (stored heap.old) (stored heap.new) scratch.old self.entry.me.0 control frames result }
    {
        match control {
            Control::Eval(expression, site) => {
                self.evaluate(heap, scratch, expression, site, frames)
            }
            Control::Give(value) => self.resume(heap, scratch, value, frames),
            Control::Enter(body, site) => begin_body(self.program.code, heap, body, site, frames),
            Control::Fail(reason) => unwind(heap, reason, frames),
            Control::Wait(_, _) => Ok(Outcome::GoesOn(control, frames)),
        }
    }
}
