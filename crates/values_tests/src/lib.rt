//! What values print on examples: the ends of numbers, nesting, long lists, sharing, and refusals at the very edge.

#![tactic(auto)]

#[cfg(test)]
mod tests;
