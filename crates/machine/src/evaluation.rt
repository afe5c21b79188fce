//! Taking up an expression: its value, its operands one after another, or what waits for a part of it; and beginning a body.

ghost use Rattle.store.specs.Heap.{stored, Grows};
ghost use Rattle.machine.specs.Steps.{BeginSim, EvaluateSim, OperandsSim};

use crate::atoms::UNDEF;
use crate::frames::{
    BIND_FRAME, CASE_FRAME, CATCH_FRAME, OPERANDS_FRAME, PART, UNTIL_FRAME, make_frame,
};
use crate::state::{Control, Outcome, Refusal, Site, Worker};
use code::{Instruction, OPERAND, first_statement, look_up};
use store::{Cells, Heap, Slot};
use values::EMPTY_LIST;

/// No operands so far, and what stands in a frame that has nothing to keep.
pub const NOTHING: Slot = EMPTY_LIST;

impl Worker<'_> {
    /// An expression is taken up; refuses where the heap has not three cells left.
    pub fn evaluate(
        self,
        heap: &mut Heap<'_>,
        scratch: &mut [u32],
        expression: Slot,
        site: Site,
        frames: Slot,
    ) -> Result<Outcome, Refusal>
        ensures grows { Grows (stored heap.old) (stored heap.new) }
        ensures sim { EvaluateSim self.entry.program.code.now self.entry.program.functions.now
            (stored heap.old) (stored heap.new) scratch.old self.entry.me.0 expression site frames result }
    {
        match Instruction::read(self.program.code, expression) {
            Instruction::Constant => Ok(Outcome::GoesOn(Control::Give(expression), frames)),
            Instruction::Variable(index) => {
                let value = look_up(heap, site.env, index);
                Ok(Outcome::GoesOn(Control::Give(value), frames))
            }
            Instruction::Apply => self.operands(heap, scratch, expression, NOTHING, site, frames),
            // Two arms for two kinds of frames: a function of both would save two lines and need a contract.
            Instruction::Case(value) => {
                let waits = make_frame(heap, CASE_FRAME, expression, site, frames)?;
                Ok(Outcome::GoesOn(Control::Eval(value, site), waits))
            }
            Instruction::Receive => Ok(Outcome::GoesOn(Control::Wait(expression, site), frames)),
            Instruction::ReceiveUntil(time) => {
                let waits = make_frame(heap, UNTIL_FRAME, expression, site, frames)?;
                Ok(Outcome::GoesOn(Control::Eval(time, site), waits))
            }
            Instruction::Catch(body) => {
                let waits = heap.put(CATCH_FRAME, NOTHING, frames)?;
                Ok(Outcome::GoesOn(Control::Enter(body, site), waits))
            }
            Instruction::Unknown => Ok(Outcome::GoesOn(Control::Fail(UNDEF), frames)),
        }
    }

    /// The next operand is taken up, or all are there and the operation is done.
    pub fn operands(
        self,
        heap: &mut Heap<'_>,
        scratch: &mut [u32],
        chain: Slot,
        so_far: Slot,
        site: Site,
        frames: Slot,
    ) -> Result<Outcome, Refusal>
        ensures grows { Grows (stored heap.old) (stored heap.new) }
        ensures sim { OperandsSim self.entry.program.code.now self.entry.program.functions.now
            (stored heap.old) (stored heap.new) scratch.old self.entry.me.0 chain so_far site frames result }
    {
        if chain.kind != OPERAND {
            return self.perform(heap, scratch, chain, so_far, site.section, frames);
        }
        let values = heap.put(PART, site.env, so_far)?;
        let part = Site {
            env: values,
            ..site
        };
        let waits = make_frame(heap, OPERANDS_FRAME, chain, part, frames)?;
        Ok(Outcome::GoesOn(Control::Eval(self.program.code.left(chain), site), waits))
    }
}

/// A body begins: with its first statement's expression, behind which the rest waits, or with its last expression.
pub fn begin_body(
    code: &[u32],
    heap: &mut Heap<'_>,
    body: Slot,
    site: Site,
    frames: Slot,
) -> Result<Outcome, Refusal>
    ensures grows { Grows (stored heap.old) (stored heap.new) }
    ensures sim { BeginSim code.now (stored heap.old) (stored heap.new) body site frames result }
{
    match first_statement(code, body) {
        Some(value) => {
            let waits = make_frame(heap, BIND_FRAME, body, site, frames)?;
            Ok(Outcome::GoesOn(Control::Eval(value, site), waits))
        }
        None => Ok(Outcome::GoesOn(Control::Eval(body, site), frames)),
    }
}
