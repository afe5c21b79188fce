//! An operation is done on its operands, of which the last one comes first.

ghost use Rattle.std.specs.Prelude.{◌+◌, ◌*◌, ◌<◌, length, MatchResult};
ghost use Rattle.store.specs.Heap.{stored, Grows};
ghost use Rattle.machine.specs.Operators.{Paired};
ghost use Rattle.machine.specs.Performing.{AskSim, EnterSim, PerformSim};

use crate::atoms::UNDEF;
use crate::operators::operate;
use crate::state::{Control, Outcome, Refusal, Site, Worker};
use code::{Builtin, Operation, Program, VALUES, turn};
use store::{Cells, Full, Heap, Slot};
use values::{Atom, NO_ELEMENTS, PAIR, TUPLE, Value, WorkerId};

impl Worker<'_> {
    /// What an operation leads to; refuses where the heap has not a cell for each operand and one more, or where the first of
    /// two operands to compare is too large for the scratch words.
    pub fn perform(
        self,
        heap: &mut Heap<'_>,
        scratch: &mut [u32],
        operation: Slot,
        operands: Slot,
        section: u32,
        frames: Slot,
    ) -> Result<Outcome, Refusal>
        ensures grows { Grows (stored heap.old) (stored heap.new) }
        ensures sim { PerformSim self.entry.program.code.now self.entry.program.functions.now
            (stored heap.old) (stored heap.new) scratch.old self.entry.me.0 operation operands section frames result }
    {
        match Operation::read(self.program.code, operation) {
            Operation::MakeTuple => {
                let tuple = turn(heap, TUPLE, operands, NO_ELEMENTS)?;
                Ok(Outcome::GoesOn(Control::Give(tuple), frames))
            }
            Operation::MakePair => {
                let pair = make_pair(heap, operands)?;
                Ok(Outcome::GoesOn(Control::Give(pair), frames))
            }
            // Two arms: with what differs given as a closure, the check lost the closure's result.
            Operation::Call(name, count) => {
                match enter_function(self.program, section, name, count, operands) {
                    Some(body) => Ok(Outcome::GoesOn(body, frames)),
                    None => Ok(Outcome::GoesOn(Control::Fail(UNDEF), frames)),
                }
            }
            Operation::Spawn(name, count) => {
                match enter_function(self.program, section, name, count, operands) {
                    Some(body) => Ok(Outcome::Spawns(body, frames)),
                    None => Ok(Outcome::GoesOn(Control::Fail(UNDEF), frames)),
                }
            }
            Operation::FarCall(function) => Ok(Outcome::Calls(function, operands, frames)),
            Operation::FarSpawn(function) => Ok(Outcome::SpawnsFar(function, operands, frames)),
            Operation::Operate(operator) => {
                let control = operate(heap, operator, operands, scratch)?;
                Ok(Outcome::GoesOn(control, frames))
            }
            Operation::BuiltIn(builtin) => Ok(ask(heap, self.me, builtin, operands, frames)),
            Operation::Unknown => Ok(Outcome::GoesOn(Control::Fail(UNDEF), frames)),
        }
    }
}

/// The pair of the two operands.
fn make_pair(heap: &mut Heap<'_>, operands: Slot) -> Result<Slot, Full>
    ensures grows { Grows (stored heap.old) (stored heap.new) }
    ensures cases { MatchResult result
        (λ s. Paired (stored heap.old) (stored heap.new) operands s)
        (λ _. length heap.old.words.now < 6 * (heap.old.used + 1)) }
{
    let second = heap.left(operands);
    let rest = heap.right(operands);
    let first = heap.left(rest);
    heap.put(PAIR, first, second)
}

/// The body of a function of the section at work, if it has one of that name and count; the operands are its environment.
fn enter_function(
    program: Program<'_>,
    section: u32,
    name: Atom,
    count: u32,
    operands: Slot,
) -> Option<Control>
    ensures { EnterSim program.entry.code.now program.entry.functions.now
        section name.0 count operands result }
{
    let body = program.find(section, name, count)?;
    let site = Site {
        env: operands,
        section,
    };
    Some(Control::Enter(body, site))
}

/// A built-in function: the worker itself and its own exit are answered here, the others are asked for.
fn ask(heap: &Heap<'_>, me: WorkerId, builtin: Builtin, operands: Slot, frames: Slot) -> Outcome
    ensures { AskSim (stored heap.now) me.0 builtin operands frames result }
{
    match builtin {
        Builtin::Itself => Outcome::GoesOn(Control::Give(Slot::from(Value::Worker(me))), frames),
        Builtin::Exit if heap.right(operands).kind != VALUES => {
            Outcome::GoesOn(Control::Fail(heap.left(operands)), frames)
        }
        _ => Outcome::Asks(builtin, operands, frames),
    }
}
