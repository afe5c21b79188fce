//! The tests; a list of n elements is n nodes along a right edge, which ends in a leaf.

use crate::{PAIR, spine_of, triple};
use std::alloc::{AllocError, Global};
use std::test::Fail;
use store::{Cells, Full, Heap, Slot, collect, read_slot, write_slot};

/// So many words, all 0; the prover need not write them out where their number is a large literal.
fn zeros(alloc: Global, n: usize) -> Result<Vec<u32>, AllocError> {
    vec![in alloc; 0; n]
}

/// The kind of the leaves that the examples make: any number below that of the first node.
const NUMBER: u32 = 0;

fn number(n: u32) -> Slot {
    Slot {
        kind: NUMBER,
        low: n,
        high: 0,
    }
}

/// The list of the numbers below n, the last first, in front of `end`.
fn list(heap: &mut Heap<'_>, n: u32, end: Slot) -> Result<Slot, Full> {
    let mut all = end;
    for i in 0..n {
        all = heap.put(PAIR, number(i), all)?;
    }
    Ok(all)
}

/// A pair of itself, n deep: n cells that stand for 2^n - 1.
fn shared(heap: &mut Heap<'_>, n: u32) -> Result<Slot, Full> {
    let mut all = number(7);
    for _ in 0..n {
        all = heap.put(PAIR, all, all)?;
    }
    Ok(all)
}

#[test]
fn long_lists_are_compared(rt: HostRuntime) -> Result<(), Fail> {
    let mut words = zeros(rt.alloc(), 1_800_000)?;
    let mut heap = Heap {
        words: &mut words,
        used: 0,
    };
    let one = list(&mut heap, 100_000, number(1))?;
    let two = list(&mut heap, 100_000, number(1))?;
    let other = list(&mut heap, 100_000, number(2))?;
    assert_eq!(rt; heap.equal(one, two, &mut [], 100_000), Ok(true));
    assert_eq!(rt; heap.equal(one, other, &mut [], 100_000), Ok(false));
    assert_eq!(rt;
        heap.equal(one, two, &mut [], 99_999),
        Err(Full),
        "one step too few"
    );
    assert_eq!(rt;
        heap.equal(one, one, &mut [], 0),
        Ok(true),
        "slots that are alike"
    );
    Ok(())
}

#[test]
fn trees_wait_on_the_stack(rt: HostRuntime) -> Result<(), Fail> {
    let mut words = [0; 36];
    let mut heap = Heap {
        words: &mut words,
        used: 0,
    };
    let one = shared(&mut heap, 3)?;
    let two = shared(&mut heap, 3)?;
    assert_eq!(rt; heap.equal(one, two, &mut [0; 12], 7), Ok(true));
    assert_eq!(rt;
        heap.equal(one, two, &mut [0; 11], 7),
        Err(Full),
        "one word too few"
    );
    assert_eq!(rt;
        heap.equal(one, two, &mut [0; 12], 6),
        Err(Full),
        "one step too few"
    );
    Ok(())
}

#[test]
fn a_list_is_collected(rt: HostRuntime) -> Result<(), Fail> {
    let mut words = zeros(rt.alloc(), 600_000)?;
    let mut roots = [0; 6];
    let mut heap = Heap {
        words: &mut words,
        used: 0,
    };
    let all = list(&mut heap, 100_000, number(1))?;
    write_slot(&mut roots, 0, number(5))?;
    write_slot(&mut roots, 1, all)?;
    let mut other = zeros(rt.alloc(), 1_200_000)?;
    assert_eq!(rt; collect(&words, &mut other, &mut roots), Ok(100_000));
    assert_eq!(rt; read_slot(&roots, 0), number(5));
    let copy = read_slot(&roots, 1);
    let mut heap = Heap {
        words: &mut other,
        used: 100_000,
    };
    assert_eq!(rt; spine_of(&heap, copy), 100_000);
    let again = list(&mut heap, 100_000, number(1))?;
    assert_eq!(rt; heap.equal(copy, again, &mut [], 100_000), Ok(true));
    Ok(())
}

#[test]
fn sharing_is_undone(rt: HostRuntime) -> Result<(), Fail> {
    let mut words = [0; 120];
    let mut roots = [0; 3];
    let mut heap = Heap {
        words: &mut words,
        used: 0,
    };
    let all = shared(&mut heap, 20)?;
    write_slot(&mut roots, 0, all)?;
    let mut short = zeros(rt.alloc(), 6_291_449)?;
    assert_eq!(rt;
        collect(&words, &mut short, &mut roots),
        Err(Full),
        "one word too few"
    );
    assert_eq!(rt; read_slot(&roots, 0), all, "a refusal leaves the roots");
    let mut other = zeros(rt.alloc(), 6_291_450)?;
    assert_eq!(rt; collect(&words, &mut other, &mut roots), Ok(1_048_575));
    Ok(())
}

#[test]
fn the_last_cell_fits(rt: HostRuntime) -> Result<(), Fail> {
    let mut none = [0; 0];
    let mut heap = Heap {
        words: &mut none,
        used: 0,
    };
    assert_eq!(rt; heap.put(PAIR, number(1), number(2)), Err(Full));
    let mut two = [0; 17];
    let mut heap = Heap {
        words: &mut two,
        used: 0,
    };
    let all = triple(&mut heap, number(1), number(2), number(3))?;
    assert_eq!(rt; heap.put(PAIR, number(4), all), Err(Full));
    assert_eq!(rt; heap.used, 2);
    assert_eq!(rt; heap.left(heap.right(all)), number(2));
    Ok(())
}

#[test]
fn words_end_anywhere(rt: HostRuntime) {
    let mut words = [1, 2, 3, 4, 5];
    assert_eq!(rt;
        read_slot(&words, 0),
        Slot {
            kind: 1,
            low: 2,
            high: 3,
        }
    );
    assert_eq!(rt;
        read_slot(&words, 1),
        Slot {
            kind: 4,
            low: 5,
            high: 0,
        }
    );
    assert_eq!(rt; read_slot(&words, 2), Slot::ZERO);
    assert_eq!(rt; write_slot(&mut words, 1, number(9)), Err(Full));
    assert_eq!(rt; words[3], 4);
}
