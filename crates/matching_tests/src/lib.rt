//! What matching does on examples: the order of bindings, and receives that pass messages over.

#![tactic(auto)]

#[cfg(test)]
mod tests;
