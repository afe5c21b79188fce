//! A value comes back to `p = e` or to a case: a pattern decides.

ghost use Rattle.store.specs.Heap.{stored, Grows};
ghost use Rattle.machine.specs.Binding.{BindSim, CaseSim};

use crate::atoms::{CLAUSE, MATCH};
use crate::frames::Continuation;
use crate::state::{Control, Outcome, Refusal, Site};
use matching::{Clauses, fits};
use store::{Cells, Heap, Slot};

/// The value of a statement is there: its pattern is matched, and the rest of the body begins with what it binds.
pub fn bind(
    code: &[u32],
    heap: &mut Heap<'_>,
    value: Slot,
    frame: Continuation,
) -> Result<Outcome, Refusal>
    ensures grows { Grows (stored heap.old) (stored heap.new) }
    ensures sim { BindSim code.now (stored heap.old) (stored heap.new) value frame.at frame.site frame.below result }
{
    let Continuation { at, site, below } = frame;
    let pattern = code.left(at);
    let rest = code.right(code.right(at));
    match fits(code, heap, pattern, value, site.env)? {
        Some(env) => Ok(Outcome::GoesOn(Control::Enter(rest, Site { env, ..site }), below)),
        None => Ok(Outcome::GoesOn(Control::Fail(MATCH), below)),
    }
}

/// The value of a case is there: the body of the first clause that matches it begins.
pub fn choose_clause(
    code: &[u32],
    heap: &mut Heap<'_>,
    value: Slot,
    frame: Continuation,
) -> Result<Outcome, Refusal>
    ensures grows { Grows (stored heap.old) (stored heap.new) }
    ensures sim { CaseSim code.now (stored heap.old) (stored heap.new) value frame.at frame.site frame.below result }
{
    let Continuation { at, site, below } = frame;
    let clauses = Clauses {
        code,
        first: code.right(at),
        env: site.env,
    };
    match clauses.choose(heap, value)? {
        Some(chosen) => {
            let site = Site {
                env: chosen.env,
                ..site
            };
            Ok(Outcome::GoesOn(Control::Enter(chosen.body, site), below))
        }
        None => Ok(Outcome::GoesOn(Control::Fail(CLAUSE), below)),
    }
}
