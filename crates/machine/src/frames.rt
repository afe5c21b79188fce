//! Frames in cells: what waits for a value.

ghost use Rattle.std.specs.Prelude.{◌≡◌, ◌+◌, ◌*◌, ◌<◌, length, MatchResult};
ghost use Rattle.store.specs.Heap.{stored, Grows};
ghost use Rattle.machine.specs.Frames.{continuation_at, frame_at, Framing};

use crate::state::Site;
use code::{CASE, OPERAND, STATEMENT, UNTIL};
use store::{Cells, Full, Heap, Slot};

/// The kinds of frames' nodes and of their parts: numbers, since any word may stand in a slot that is read.
pub const PLACE: u32 = 5;

pub const OPERANDS_FRAME: u32 = 32;

pub const BIND_FRAME: u32 = 33;

pub const CASE_FRAME: u32 = 34;

pub const UNTIL_FRAME: u32 = 35;

pub const CATCH_FRAME: u32 = 36;

pub const PART: u32 = 37;

/// How a frame goes on: with a node of the code, at its site, and with the frames below.
#[derive(Clone, Copy, Debug, PartialEq, Eq)]
pub struct Continuation {
    pub at: Slot,
    pub site: Site,
    pub below: Slot,
}

/// The innermost frame; that of operands has those so far, the last one first.
#[derive(Clone, Copy, Debug, PartialEq, Eq)]
pub enum Frame {
    Operands(Continuation, Slot),
    Bind(Continuation),
    Case(Continuation),
    Until(Continuation),
    Catch(Slot),
    Bottom,
}

/// The innermost frame, or the bottom where there is none.
pub fn read_frame(heap: &Heap<'_>, frames: Slot) -> Frame
    ensures { result ≡ frame_at heap.now.words.now frames }
{
    let part = heap.left(frames);
    let below = heap.right(frames);
    let place = heap.left(part);
    let values = heap.right(part);
    match frames.kind {
        OPERANDS_FRAME => {
            let env = heap.left(values);
            Frame::Operands(goes_on(OPERAND, place, env, below), heap.right(values))
        }
        BIND_FRAME => Frame::Bind(goes_on(STATEMENT, place, values, below)),
        CASE_FRAME => Frame::Case(goes_on(CASE, place, values, below)),
        UNTIL_FRAME => Frame::Until(goes_on(UNTIL, place, values, below)),
        CATCH_FRAME => Frame::Catch(below),
        _ => Frame::Bottom,
    }
}

/// How a frame goes on that has this place, which is that of a node of that kind.
fn goes_on(kind: u32, place: Slot, env: Slot, below: Slot) -> Continuation
    ensures { result ≡ continuation_at kind place env below }
{
    let at = Slot {
        kind,
        low: place.low,
        high: 0,
    };
    let site = Site {
        env,
        section: place.high,
    };
    Continuation { at, site, below }
}

/// A frame of that kind that goes on with the node `at` of the code, at this site; a frame of operands has in place of the
/// environment a part with it and with the operands. No `Continuation` is asked for: it would be written out at each call.
pub fn make_frame(
    heap: &mut Heap<'_>,
    kind: u32,
    at: Slot,
    site: Site,
    below: Slot,
) -> Result<Slot, Full>
    ensures grows { Grows (stored heap.old) (stored heap.new) }
    ensures cases { MatchResult result
        (λ s. Framing (stored heap.old) (stored heap.new) kind at.low site.section site.env below s)
        (λ _. length heap.old.words.now < 6 * (heap.old.used + 2)) }
{
    let place = Slot {
        kind: PLACE,
        low: at.low,
        high: site.section,
    };
    let part = heap.put(PART, place, site.env)?;
    heap.put(kind, part, below)
}
