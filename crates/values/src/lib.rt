//! Values of the language as trees of the store: their outermost parts, whether two are the same, and their text.

#![tactic(auto)]

mod comparer;
mod names;
mod piece;
mod printer;
mod space;
mod value;
mod walk;

pub use comparer::same_value;
pub use names::Names;
pub use printer::Text;
pub use space::{bindings_cells, chain_cells, value_cells};
pub use value::{
    ATOM, Atom, EMPTY_LIST, EMPTY_TUPLE, NIL, NO_ELEMENTS, NUMBER, PAIR, TUPLE, Value, WORKER,
    WorkerId,
};
pub use walk::Unprinted;
