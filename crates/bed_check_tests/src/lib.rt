//! Tests of the checker: derivations, nodes and matches, each with the node and the premise that is
//! refused.
#![tactic(auto)]

#[cfg(test)]
mod declared;
#[cfg(test)]
mod derivations;
#[cfg(test)]
mod matches;
#[cfg(test)]
mod nodes;
#[cfg(test)]
mod starts;
#[cfg(test)]
mod trees;
