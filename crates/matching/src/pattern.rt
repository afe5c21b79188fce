//! Whether a pattern matches a value: a walk over two trees that are shaped alike.

ghost use Rattle.std.specs.Prelude.{MatchResult};
ghost use Rattle.store.specs.Heap.{stored, Grows};
ghost use Rattle.matching.specs.Fit.{FitLacks, FitTo};
ghost use Rattle.matching.specs.Matches.{MatchLacks, Matches};

use code::{Pattern, VALUES};
use store::{Cells, Full, Heap, Slot};

/// How deep a pattern nests to the left at most.
const DEPTH: u32 = 100;

/// The environment with what the pattern binds in the value, if it matches; refuses where there is no cell for each name
/// that the pattern binds. If it does not match, no cell is taken.
pub fn fits(
    code: &[u32],
    heap: &mut Heap<'_>,
    pattern: Slot,
    value: Slot,
    env: Slot,
) -> Result<Option<Slot>, Full>
    ensures grows { Grows (stored heap.old) (stored heap.new) }
    ensures cases { MatchResult result
        (λ found. Matches code.now (stored heap.old) (stored heap.new) pattern value env found)
        (λ _. MatchLacks code.now (stored heap.old) (stored heap.new) pattern value env) }
{
    let used = heap.used;
    let found = fits_within(code, heap, pattern, value, env, DEPTH);
    if found.ok().flatten().is_none() {
        heap.used = used;
    }
    found
}

/// The same, of a pattern that nests at most `depth` deep: a loop along the right edge, and a call for each left part.
fn fits_within(
    code: &[u32],
    heap: &mut Heap<'_>,
    pattern: Slot,
    value: Slot,
    env: Slot,
    depth: u32,
) -> Result<Option<Slot>, Full>
    ensures grows { Grows (stored heap.old) (stored heap.new) }
    ensures cases { MatchResult result
        (λ found. FitTo code.now (stored heap.old) (stored heap.new) depth pattern value env found)
        (λ _. FitLacks code.now (stored heap.old) depth pattern value env) }
{
    let mut pattern = pattern;
    let mut value = value;
    let mut env = env;
    let edge = heap.used;
    'parts: for step in 0..=edge {
        let node = match Pattern::from(pattern) {
            Pattern::Any => return Ok(Some(env)),
            Pattern::Bind => return Ok(Some(heap.put(VALUES, value, env)?)),
            Pattern::Leaf(leaf) => return Ok((leaf == value).then_some(env)),
            Pattern::Node(node) => node,
        };
        // A value's edge is no longer than the cells in use, and no pattern of a program nests deeper.
        if node.kind != value.kind || depth == 0 || step == edge {
            return Ok(None);
        }
        let parts = code.both(node);
        let values = heap.both(value);
        let Some(bound) = fits_within(code, heap, parts.left, values.left, env, depth - 1)? else {
            return Ok(None);
        };
        env = bound;
        pattern = parts.right;
        value = values.right;
    }
    Ok(None)
}
