//! Tests of normal forms: words and sequences, by their trees.
#![tactic(auto)]

#[cfg(test)]
mod tests;
