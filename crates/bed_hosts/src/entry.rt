//! One call of a host.

/// The arguments of a call, and its answer.
#[derive(Drop)]
pub struct Entry {
    pub args: Vec<u32>,
    pub answer: u32,
}
