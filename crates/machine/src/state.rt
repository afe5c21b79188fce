//! A worker's state as a value, and what a turn of it leads to.

ghost use Rattle.std.specs.Prelude.{◌≡◌};
ghost use Rattle.machine.specs.declared.state.Refusal.TheVariants.{Full as NoRoom};

use crate::frames::Continuation;
use code::{Builtin, Far, Program};
use store::{Full, Slot};
use values::WorkerId;

/// The worker at work, and the program that it runs: what a turn only reads. What it writes is passed beside it, since
/// contracts on one struct of both would have to say each time that the rest stays.
#[derive(Clone, Copy)]
pub struct Worker<'a> {
    pub program: Program<'a>,
    pub me: WorkerId,
}

/// Where code is at work: what its names are bound to, and the section of the program.
#[derive(Clone, Copy, Debug, PartialEq, Eq)]
pub struct Site {
    pub env: Slot,
    pub section: u32,
}

/// What a worker does next. Slots of code refer to the code's cells, those of values to the heap's.
#[derive(Clone, Copy, Debug, PartialEq, Eq)]
pub enum Control {
    /// An expression is taken up.
    Eval(Slot, Site),
    /// A value comes back to the innermost frame.
    Give(Slot),
    /// A body begins.
    Enter(Slot, Site),
    /// An error goes outward.
    Fail(Slot),
    /// A receive, with a time or without, waits for a message; the slot is that of the receive.
    Wait(Slot, Site),
}

/// What a turn leads to. What changes more than this worker is asked for, and done by the scheduler; the slot of frames in a
/// request is what waits for its value.
#[derive(Clone, Copy)]
pub enum Outcome {
    /// The worker goes on with this control and these frames.
    GoesOn(Control, Slot),
    /// The worker is no more, with this reason.
    Ended(Slot),
    /// A worker is to be spawned that begins with this control.
    Spawns(Control, Slot),
    /// A built-in function is to be done on these arguments, the last one first.
    Asks(Builtin, Slot, Slot),
    /// The function of another module's current version is to be called on these arguments, the last one first, or spawned.
    Calls(Far, Slot, Slot),
    SpawnsFar(Far, Slot, Slot),
    /// The receive waits from now on for so long.
    WaitsFor(Continuation, u64),
}

/// Why a turn was not taken: the heap has no cell left, or the scratch words are too few to compare a value.
#[derive(Clone, Copy, Debug, PartialEq, Eq)]
pub enum Refusal {
    Full,
    TooLarge,
}

impl From<Full> for Refusal {
    ghost from_gives = { λ _ refusal. refusal ≡ NoRoom };

    fn from(_full: Full) -> Refusal {
        Refusal::Full
    }
}
