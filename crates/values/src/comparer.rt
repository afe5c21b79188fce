//! Whether two slots hold the same value.

ghost use Rattle.std.specs.Result.{MatchResult};
ghost use Rattle.values.specs.Compare.{LargeValue, SameValue};

use store::{Cells, Full, Slot};

/// Whether `a` and `b` hold the same value; refuses only where the first takes more cells than `scratch` or `budget`.
pub fn same_value(
    words: &[u32],
    a: Slot,
    b: Slot,
    scratch: &mut [u32],
    budget: usize,
) -> Result<bool, Full>
    ensures { MatchResult result
        (λ answer. SameValue words.now a b answer)
        (λ _. LargeValue words.now a b scratch.old budget) }
{
    let same = words.equal(a, b, scratch, budget)?;
    Ok(same)
}
