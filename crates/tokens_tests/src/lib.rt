//! Small texts and their tokens.

#![tactic(auto)]

#[cfg(test)]
mod tests;
