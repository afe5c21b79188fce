//! The collector: copies what the root slots denote into other memory, a cell for each reference to it.

ghost use Rattle.std.specs.Prelude.{◌≡◌, ◌*◌, ◌≤◌, length, MatchResult};
ghost use Rattle.store.specs.Collect.{Appended, Collected, Overfull};
ghost use Rattle.store.specs.Collect.{RootsCopied, RootsRedirected, ScanOverfull, Scanned};
ghost use Rattle.store.specs.Heap.{stored, Lacks, SameWords};

use crate::cells::Cells;
use crate::heap::Heap;
use crate::slot::{FIRST_NODE, Full, Place, Slot, load_slot, set_slot};

/// Copies what the root slots denote from `from` to `to`, lets the roots refer to the copies, and gives the number of
/// cells then in use; refuses where these do not fit, and then leaves the roots as they were.
pub fn collect(from: &[u32], to: &mut [u32], roots: &mut [u32]) -> Result<usize, Full>
    ensures { MatchResult result
        (λ used. Collected from.now to.new roots.old roots.new used)
        (λ _. Overfull from.now to.old roots.old roots.new) }
{
    let mut copies = Heap { words: to, used: 0 };
    collect_into(from, &mut copies, roots)?;
    Ok(copies.used)
}

/// Collects into a heap of no cells.
fn collect_into(from: &[u32], copies: &mut Heap<'_>, roots: &mut [u32]) -> Result<(), Full>
    requires { copies.old.used ≡ 0 }
    ensures same { SameWords copies.old copies.new }
    ensures cases { MatchResult result
        (λ _. Collected from.now copies.new.words.now roots.old roots.new copies.new.used)
        (λ _. Overfull from.now copies.old.words.now roots.old roots.new) }
{
    copy_roots(from, copies, roots)?;
    scan(from, copies)?;
    redirect_roots(roots);
    Ok(())
}

/// Copies the cells that the root slots refer to, in the order of the roots.
fn copy_roots(from: &[u32], copies: &mut Heap<'_>, roots: &[u32]) -> Result<(), Full>
    requires { copies.old.used ≡ 0 }
    ensures same { SameWords copies.old copies.new }
    ensures cases { MatchResult result
        (λ _. RootsCopied from.now (stored copies.new) roots.now)
        (λ _. Overfull from.now copies.old.words.now roots.now roots.now) }
{
    for i in 0..roots.len() / 3 {
        let root = load_slot(roots, i);
        if root.kind >= FIRST_NODE {
            copy_cell(from, copies, root)?;
        }
    }
    Ok(())
}

/// Copies what the cells of `copies` refer to in `from`, and lets them refer to the copies, until none refers to `from`.
fn scan(from: &[u32], copies: &mut Heap<'_>) -> Result<(), Full>
    requires { 6 * copies.old.used ≤ length copies.old.words.now }
    ensures same { SameWords copies.old copies.new }
    ensures cases { MatchResult result
        (λ _. Scanned from.now (stored copies.old) (stored copies.new))
        (λ _. ScanOverfull from.now (stored copies.old)) }
{
    let mut j: usize = 0;
    // No `for`, since each copy moves the end.
    while j < 2 * copies.used {
        let slot = load_slot(copies.words(), j);
        if slot.kind >= FIRST_NODE {
            let copy = copy_cell(from, copies, slot)?;
            set_slot(copies.words, j, copy);
        }
        j += 1;
    }
    Ok(())
}

/// Lets each root refer to where `copy_roots` has copied its cell.
fn redirect_roots(roots: &mut [u32])
    ensures { RootsRedirected roots.old roots.new }
{
    let mut next: usize = 0;
    for i in 0..roots.len() / 3 {
        let root = load_slot(roots, i);
        if root.kind >= FIRST_NODE {
            set_slot(roots, i, Place(next).slot(root.kind));
            next += 1;
        }
    }
}

/// Copies the cell that `node` refers to in `from`, and gives the slot that refers to the copy.
fn copy_cell(from: &[u32], copies: &mut Heap<'_>, node: Slot) -> Result<Slot, Full>
    requires { 16 ≤ node.kind }
    ensures same { SameWords copies.old copies.new }
    ensures cases { MatchResult result
        (λ copy. Appended from.now (stored copies.old) (stored copies.new) node copy)
        (λ _. Lacks (stored copies.old) (stored copies.new)) }
{
    let cell = from.both(node);
    copies.put(node.kind, cell.left, cell.right)
}
