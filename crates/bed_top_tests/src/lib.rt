//! Tests of the top call over files and a sink in memory that fail.
#![tactic(auto)]

#[cfg(test)]
mod faults;
