//! What programs mean, and what is proved of every order of their moves.
//!
//! The definitions stand in `specs/`. A function here does nothing: its contract is a theorem about them, so that the
//! crate is accepted only with the theorem's proof.

#![tactic(auto)]

pub mod rounds;
pub mod theorems;
pub mod worked;
