//! The table of names of a text: each name and each atom stands by a number.

#![tactic(auto)]

mod collect;
mod hash;
mod laws;
mod lookup;
mod own;
mod table;
mod words;

pub use collect::collect_names;
pub use laws::{index_below, names_stand};
pub use own::own_atom;
pub use table::NameTable;
pub use words::{is_atom, is_name};
