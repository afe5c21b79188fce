//! The tests; the expected texts are written out by hand.

ghost use Rattle.std.specs.Prelude.{[], ◌∷◌, codes};

use std::test::Fail;
use store::{Full, Heap, Slot};
use values::{Atom, EMPTY_LIST, Names, PAIR, TUPLE, Text, Unprinted, Value, WorkerId, same_value};

/// The table of two names.
struct TwoNames;

impl Names for TwoNames {
    ghost table = { λ _. codes "ok" ∷ codes "error" ∷ [] };

    fn name(&self, atom: Atom) -> &[u8] {
        match atom.0 {
            0 => b"ok",
            1 => b"error",
            _ => b"",
        }
    }
}

fn number(n: i64) -> Slot {
    Slot::from(Value::Number(n))
}

fn text(words: &[u32], slot: Slot) -> Text<'_, TwoNames> {
    Text {
        words,
        slot,
        names: &TwoNames,
    }
}

/// The list of n times the value, in front of the empty list.
fn list(heap: &mut Heap<'_>, n: u32, value: Slot) -> Result<Slot, Full> {
    let mut all = EMPTY_LIST;
    for _ in 0..n {
        all = heap.put(PAIR, value, all)?;
    }
    Ok(all)
}

/// Pairs that stand at the head of one another, n deep.
fn nested(heap: &mut Heap<'_>, n: u32) -> Result<Slot, Full> {
    let mut all = EMPTY_LIST;
    for _ in 0..n {
        all = heap.put(PAIR, all, EMPTY_LIST)?;
    }
    Ok(all)
}

/// A pair of itself, n deep: its text has more than 2^n bytes. The store's tests have one too, as test crates share no code.
fn shared(heap: &mut Heap<'_>, n: u32) -> Result<Slot, Full> {
    let mut all = number(7);
    for _ in 0..n {
        all = heap.put(PAIR, all, all)?;
    }
    Ok(all)
}

#[test]
fn numbers_at_both_ends(rt: HostRuntime) {
    let mut out = [0; 40];
    let least = number(i64::MIN);
    assert_eq!(rt; text(&[], least).print(&mut [], &mut out, 0), Ok(20));
    assert_eq!(rt;
        text(&[], number(i64::MAX)).print(&mut [], &mut out, 20),
        Ok(39)
    );
    assert_eq!(rt; text(&[], number(0)).print(&mut [], &mut out, 39), Ok(40));
    assert!(rt; out == *b"-922337203685477580892233720368547758070");
}

#[test]
fn tuples_and_lists(rt: HostRuntime) -> Result<(), Fail> {
    let mut words = [0; 60];
    let mut scratch = [0; 18];
    let mut heap = Heap {
        words: &mut words,
        used: 0,
    };
    let ok = Slot::from(Value::Atom(Atom(0)));
    let error = Slot::from(Value::Atom(Atom(1)));
    let empty = Slot::from(Value::EmptyTuple);
    let worker = Slot::from(Value::Worker(WorkerId(3)));
    let last = heap.put(TUPLE, worker, empty)?;
    let inner = heap.put(TUPLE, empty, last)?;
    let improper = heap.put(PAIR, ok, inner)?;
    let two = heap.put(PAIR, error, EMPTY_LIST)?;
    let pair = heap.put(PAIR, improper, two)?;
    let outer = heap.put(TUPLE, pair, empty)?;
    let mut out = [0; 30];
    let end = text(heap.words, outer).print(&mut scratch, &mut out, 0);
    assert_eq!(rt; end, Ok(30));
    assert!(rt; out == *b"{[[ok|{{},<3>,}]|[error|[]]],}");
    Ok(())
}

#[test]
fn a_text_that_just_fits(rt: HostRuntime) -> Result<(), Fail> {
    let mut words = [0; 6];
    let mut heap = Heap {
        words: &mut words,
        used: 0,
    };
    let one = list(&mut heap, 1, Slot::from(Value::Atom(Atom(0))))?;
    let mut out = *b"....|......";
    assert_eq!(rt;
        text(heap.words, one).print(&mut [0; 6], &mut out, 4),
        Ok(11)
    );
    assert!(rt; out == *b"....[ok|[]]");
    let mut short = *b"..........";
    assert_eq!(rt;
        text(heap.words, one).print(&mut [0; 6], &mut short, 4),
        Err(Unprinted::TooLong),
        "one byte less"
    );
    assert_eq!(rt;
        text(heap.words, one).print(&mut [0; 5], &mut short, 0),
        Err(Unprinted::TooDeep),
        "one word less"
    );
    assert!(rt; short == *b"..........");
    Ok(())
}

#[test]
fn values_are_compared(rt: HostRuntime) -> Result<(), Fail> {
    let mut words = [0; 54];
    let mut heap = Heap {
        words: &mut words,
        used: 0,
    };
    let one = list(&mut heap, 3, number(-5))?;
    let two = list(&mut heap, 3, number(-5))?;
    let other = list(&mut heap, 3, Slot::from(Value::Worker(WorkerId(3))))?;
    assert_eq!(rt; same_value(heap.words, one, two, &mut [0; 6], 3), Ok(true));
    assert_eq!(rt;
        same_value(heap.words, one, other, &mut [0; 6], 3),
        Ok(false)
    );
    assert_eq!(rt;
        same_value(heap.words, one, two, &mut [0; 6], 2),
        Err(Full),
        "one step too few"
    );
    Ok(())
}

#[test]
fn a_long_list(rt: HostRuntime) -> Result<(), Fail> {
    let mut words = vec![in rt.alloc(); 0; 600_000]?;
    let mut out = vec![in rt.alloc(); 0; 400_002]?;
    let mut heap = Heap {
        words: &mut words,
        used: 0,
    };
    let all = list(&mut heap, 100_000, number(5))?;
    assert_eq!(rt;
        text(heap.words, all).print(&mut [0; 6], &mut out, 0),
        Ok(400_002)
    );
    assert!(rt; out[0] == b'[' && out[1] == b'5' && out[2] == b'|' && out[299_999] == b'|');
    assert!(rt;
        out[300_000] == b'[' && out[300_001] == b']' && out[300_002] == b']' && out[400_001] == b']'
    );
    Ok(())
}

#[test]
fn sharing_and_nesting_are_refused(rt: HostRuntime) -> Result<(), Fail> {
    let mut words = [0; 240];
    let mut heap = Heap {
        words: &mut words,
        used: 0,
    };
    let all = shared(&mut heap, 20)?;
    let deep = nested(&mut heap, 20)?;
    let mut out = [0; 100];
    let mut scratch = [0; 120];
    assert_eq!(rt;
        text(heap.words, all).print(&mut scratch, &mut out, 0),
        Err(Unprinted::TooLong)
    );
    assert_eq!(rt;
        text(heap.words, deep).print(&mut [0; 119], &mut out, 0),
        Err(Unprinted::TooDeep)
    );
    Ok(())
}
