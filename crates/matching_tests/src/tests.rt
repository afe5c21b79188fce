//! The tests. Code and values are made by hand, as cells of two stores.

use code::{BIND, CLAUSES};
use matching::{Chosen, Clauses, Mailbox, NO_MESSAGES, Taken, fits};
use std::test::Fail;
use store::{Cells, Full, Heap, Place, Slot};
use values::{NUMBER, PAIR};

/// The kind of a clause, which no decoder asks for.
const CLAUSE: u32 = 28;

/// A pattern that is a name.
const NAME: Slot = Slot {
    kind: BIND,
    low: 0,
    high: 0,
};

/// A pattern that is anything, without a name.
const ANYTHING: Slot = Slot {
    kind: 6,
    low: 0,
    high: 0,
};

fn number(n: u32) -> Slot {
    Slot {
        kind: NUMBER,
        low: n,
        high: 0,
    }
}

/// A clause alone, whose body is nothing.
fn clause(code: &mut Heap<'_>, pattern: Slot) -> Result<Slot, Full> {
    let first = code.put(CLAUSE, pattern, NO_MESSAGES)?;
    code.put(CLAUSES, first, NO_MESSAGES)
}

/// Clauses where no name is bound.
fn alone(code: &[u32], first: Slot) -> Clauses<'_> {
    Clauses {
        code,
        first,
        env: NO_MESSAGES,
    }
}

/// The mailbox with the numbers from `first` on as messages, so many of them.
fn filled(heap: &mut Heap<'_>, mailbox: Mailbox, first: u32, count: u32) -> Result<Mailbox, Full> {
    let mut mailbox = mailbox;
    for i in 0..count {
        mailbox = mailbox.push(heap, number(first.wrapping_add(i)))?;
    }
    Ok(mailbox)
}

/// What is received, where something is.
fn received(
    clauses: Clauses<'_>,
    heap: &mut Heap<'_>,
    mailbox: Mailbox,
) -> Result<(Chosen, Mailbox), Full> {
    let Taken { chosen, mailbox } = clauses.take_first(heap, mailbox)?;
    Ok((chosen.ok_or(Full)?, mailbox))
}

/// The mailbox, where nothing is received.
fn passed_over(
    clauses: Clauses<'_>,
    heap: &mut Heap<'_>,
    mailbox: Mailbox,
) -> Result<Mailbox, Full> {
    match clauses.take_first(heap, mailbox)? {
        Taken {
            chosen: None,
            mailbox,
        } => Ok(mailbox),
        _ => Err(Full),
    }
}

/// What the next messages bind, one after another, as the digits of a number.
fn digits(
    anything: Clauses<'_>,
    heap: &mut Heap<'_>,
    mailbox: Mailbox,
    count: u32,
) -> Result<u64, Full> {
    let mut mailbox = mailbox;
    let mut all: u64 = 0;
    for _ in 0..count {
        let (chosen, rest) = received(anything, heap, mailbox)?;
        all = all
            .wrapping_mul(10)
            .wrapping_add(u64::from(heap.left(chosen.env).low));
        mailbox = rest;
    }
    Ok(all)
}

#[test]
fn the_last_name_is_bound_first(rt: HostRuntime) -> Result<(), Fail> {
    let mut code_words = [0; 6];
    let mut words = [0; 18];
    let mut code = Heap {
        words: &mut code_words,
        used: 0,
    };
    let both = code.put(PAIR, NAME, NAME)?;
    let mut heap = Heap {
        words: &mut words,
        used: 0,
    };
    let value = heap.put(PAIR, number(1), number(2))?;
    let env = fits(&code_words, &mut heap, both, value, NO_MESSAGES)?.unwrap_or(NAME);
    assert_eq!(rt; heap.left(env), number(2));
    assert_eq!(rt; heap.left(heap.right(env)), number(1));
    assert_eq!(rt; heap.used, 3, "a cell for each name");
    Ok(())
}

#[test]
fn an_edge_is_followed_no_further_than_cells_are_in_use(rt: HostRuntime) -> Result<(), Fail> {
    let mut code_words = [0; 732];
    let mut words = [0; 360];
    let mut code = Heap {
        words: &mut code_words,
        used: 0,
    };
    let one = code.put(PAIR, NAME, ANYTHING)?;
    // As many nodes on the edge as cells will be in use, and then one whose left part has 2^60 leaves.
    let mut part = ANYTHING;
    for _ in 0..60 {
        part = code.put(PAIR, part, part)?;
    }
    let mut edge = code.put(PAIR, part, ANYTHING)?;
    for _ in 0..60 {
        edge = code.put(PAIR, ANYTHING, edge)?;
    }
    // A node whose cell is not in use, and then one that refers to itself: no program makes either.
    let value = Place(0).slot(PAIR);
    let mut empty = Heap {
        words: &mut [],
        used: 0,
    };
    assert_eq!(rt;
        fits(&code_words, &mut empty, one, value, NO_MESSAGES)?,
        None
    );
    let mut heap = Heap {
        words: &mut words,
        used: 0,
    };
    for _ in 0..60 {
        heap.put(PAIR, value, value)?;
    }
    assert_eq!(rt;
        fits(&code_words, &mut heap, edge, value, NO_MESSAGES)?,
        None
    );
    Ok(())
}

#[test]
fn messages_that_are_passed_over_stay_in_order(rt: HostRuntime) -> Result<(), Fail> {
    let mut code_words = [0; 24];
    let mut words = [0; 300];
    let mut code = Heap {
        words: &mut code_words,
        used: 0,
    };
    let three = clause(&mut code, number(3))?;
    let anything = clause(&mut code, NAME)?;
    let mut heap = Heap {
        words: &mut words,
        used: 0,
    };
    let mailbox = filled(&mut heap, Mailbox::new(), 1, 5)?;
    let (_, mailbox) = received(alone(&code_words, three), &mut heap, mailbox)?;
    let mailbox = mailbox.rewind(&mut heap)?;
    let mailbox = filled(&mut heap, mailbox, 6, 2)?;
    assert_eq!(rt;
        digits(alone(&code_words, anything), &mut heap, mailbox, 6)?,
        124_567
    );
    Ok(())
}

#[test]
fn what_was_seen_is_not_looked_at_again(rt: HostRuntime) -> Result<(), Fail> {
    let mut code_words = [0; 12];
    let mut words = vec![in rt.alloc(); 0; 18_018]?;
    let mut code = Heap {
        words: &mut code_words,
        used: 0,
    };
    let first = clause(&mut code, number(7))?;
    let seven = alone(&code_words, first);
    let mut heap = Heap {
        words: &mut words,
        used: 0,
    };
    let mailbox = filled(&mut heap, Mailbox::new(), 10, 1_000)?;
    let mailbox = passed_over(seven, &mut heap, mailbox)?;
    assert_eq!(rt; heap.used, 3_000, "two cells for each message");
    let mailbox = filled(&mut heap, mailbox, 8, 1)?;
    let mailbox = passed_over(seven, &mut heap, mailbox)?;
    assert_eq!(rt; heap.used, 3_003, "two cells for the new one only");
    assert_eq!(rt; heap.left(mailbox.seen), number(8));
    Ok(())
}
