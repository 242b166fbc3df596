//! Derivations with their sizes.

use bed_deriv::Deriv;

/// A tree with its size.
#[derive(Drop)]
pub struct Measured {
    pub tree: Deriv,
    /// How many nodes it has.
    pub nodes: u32,
    /// How many of them stand one in another at most.
    pub nesting: u32,
}
