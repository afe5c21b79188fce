//! Whether two slots denote the same tree, by a stack of pairs in lent words.

ghost use Rattle.std.specs.Prelude.{◌≡◌, true, Ok, MatchResult};
ghost use Rattle.store.specs.Compare.{Answers, Told, TooLarge};

use crate::cells::Cells;
use crate::slot::{Cell, FIRST_NODE, Full, Slot};
use crate::stack::Stack;

/// What two slots tell by themselves: their trees are the same, or differ, or are if the parts are.
#[derive(Clone, Copy)]
pub enum Compared {
    Same,
    Differ,
    Parts,
}

/// Whether `a` and `b` denote the same tree; refuses only where the first has more cells than `scratch` or `budget`.
///
/// At most `budget` cells are looked at, and none where two slots are alike.
pub fn equal(
    words: &[u32],
    a: Slot,
    b: Slot,
    scratch: &mut [u32],
    budget: usize,
) -> Result<bool, Full>
    ensures cases { MatchResult result
        (λ answer. Answers words.now a b answer)
        (λ _. TooLarge words.now a b scratch.old budget) }
    ensures alike { a ≡ b → result ≡ Ok true }
{
    let mut pair = Cell { left: a, right: b };
    let mut waiting = Stack::new(scratch);
    let mut left = budget;
    'pairs: loop {
        match compare(pair.left, pair.right) {
            Compared::Differ => return Ok(false),
            Compared::Same => match waiting.pop() {
                Some(next) => pair = next,
                None => return Ok(true),
            },
            Compared::Parts => {
                if left == 0 {
                    return Err(Full);
                }
                left -= 1;
                let one = words.both(pair.left);
                let two = words.both(pair.right);
                let rights = Cell {
                    left: one.right,
                    right: two.right,
                };
                if one.left == two.left {
                    pair = rights;
                } else {
                    waiting.push(rights)?;
                    pair = Cell {
                        left: one.left,
                        right: two.left,
                    };
                }
            }
        }
    }
}

/// What two slots tell by themselves.
fn compare(x: Slot, y: Slot) -> Compared
    ensures { Told x y result }
{
    if x == y {
        Compared::Same
    } else if x.kind == y.kind && x.kind >= FIRST_NODE {
        Compared::Parts
    } else {
        Compared::Differ
    }
}
