//! What the table of names does on examples.

#![tactic(auto)]

#[cfg(test)]
mod tests;
