//! Tests of the linker: what modules are linked as, and each refusal with its names and numbers.
#![tactic(auto)]

#[cfg(test)]
mod tests;
