//! What a checker answers.

/// Why a derivation isn't accepted.
#[derive(Drop)]
pub enum Verdict {
    /// This node is the first, in preorder from 1, that is no instance of its rule.
    Reject {
        /// The number of the node.
        node: u32,
        /// Its first failing premise: 1 the number of arguments or children, 2 an argument out of range or
        /// of the wrong sort, 3 the rule's own condition.
        premise: u8,
    },
    /// Want of memory.
    Memory,
}
