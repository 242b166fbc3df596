//! Tests of the code table: images and lengths that were worked out by hand.
#![tactic(auto)]

#[cfg(test)]
mod tests;
