//! Why a node is no instance of its rule.

/// The first premise of a node that fails, or want of memory.
#[derive(Drop)]
pub enum Fault {
    /// The first premise: the number of arguments or of children.
    Count,
    /// The second: an argument out of range or of the wrong sort.
    Argument,
    /// The third: the rule's own condition.
    Condition,
    /// Want of memory.
    Memory,
}
