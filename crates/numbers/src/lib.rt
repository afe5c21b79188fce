//! Whole numbers of 64 bits with a sign.
//!
//! Each operation looks at its operands before it is done, so that none wraps and none needs a wider type.

#![tactic(auto)]

mod division;
mod order;
mod product;
mod sum;
#[cfg(test)]
mod tests;

pub use division::{DivisionError, divide, modulo};
pub use order::{at_most, equal, less};
pub use product::multiply;
pub use sum::{add, subtract};
