//! Lent words as a store of immutable cells: no other crate touches them.

#![tactic(auto)]

mod cells;
mod collector;
mod comparer;
mod heap;
mod slot;
mod stack;

pub use cells::Cells;
pub use collector::collect;
pub use heap::Heap;
pub use slot::{Cell, FIRST_NODE, Full, Place, Slot, read_cell, read_slot, write_cell, write_slot};
pub use stack::Stack;
