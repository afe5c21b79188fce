//! The atoms that the machine makes itself: they have the first numbers of the table of names. They are numbers, since the
//! table, with its list of names, is a crate that this one does not stand on.

use store::Slot;
use values::ATOM;

macro_rules! atom {
    ($number:literal) => {
        Slot {
            kind: ATOM,
            low: $number,
            high: 0,
        }
    };
}

pub const TYPE: Slot = atom!(0);

pub const MATCH: Slot = atom!(1);

pub const CLAUSE: Slot = atom!(2);

pub const ZERO: Slot = atom!(3);

pub const BIG: Slot = atom!(4);

pub const UNDEF: Slot = atom!(5);

pub const NORMAL: Slot = atom!(6);

pub const OK: Slot = atom!(9);

pub const ERROR: Slot = atom!(10);

pub const TRUE: Slot = atom!(13);

pub const FALSE: Slot = atom!(14);
