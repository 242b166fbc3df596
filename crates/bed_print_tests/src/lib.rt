//! Tests of the printer: texts of modules with what is printed of what is read from them.
#![tactic(auto)]

#[cfg(test)]
mod tests;
