//! Constraints.

/// The constraint `value(from) <= value(to) + weight`, an edge from one node to another.
#[derive(Clone, Copy)]
pub struct Edge3 {
    pub from: u32,
    pub to: u32,
    pub weight: i64,
}
