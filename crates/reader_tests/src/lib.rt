//! Tokens and their classes, numbers, and statements that bind.

#![tactic(auto)]

#[cfg(test)]
mod tests;
