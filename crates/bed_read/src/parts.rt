//! Trees of productions that are parts of other trees.
use bed_lang::{Assertion, Hint, List, Name, Op, Operand, Place, Rel, Seq, Word};

/// A word with what its first token tells.
#[derive(Drop)]
pub enum Piece {
    /// A name alone.
    Name(Name),
    /// Any other word, and the place of its first token.
    Word(u32, Word),
}

/// What follows the first word of a pure fact.
#[derive(Drop)]
pub enum Tail {
    /// A comparison with a word.
    Compared(Rel, Word),
    /// `in` or `notin` a sequence.
    Belongs(bool, Seq),
}

/// What is assigned to a local.
#[derive(Drop)]
pub enum Source {
    /// An operand.
    Operand(Operand),
    /// An operation on two operands.
    Compute(Op, Operand, Operand),
    /// A word of memory.
    Load(Place),
    /// A byte of memory.
    LoadByte(Place),
    /// The answer of a call.
    Call(Call),
}

/// A call, but for the local that takes its answer.
#[derive(Drop)]
pub struct Call {
    /// The place of the token `call`.
    pub place: u32,
    /// A label, or a local with the address of code.
    pub target: Operand,
    /// The name of the signature, where the target is a local.
    pub via: Option<Name>,
    pub args: List<Operand>,
    /// The hints after `using`.
    pub hints: List<Hint>,
    /// What holds after the call.
    pub after: Assertion,
}

/// What `find` and `walk` go over, and what they keep.
#[derive(Drop)]
pub struct Over {
    /// The local that holds the list.
    pub list: Name,
    /// The elements of the list.
    pub seq: Seq,
    /// The name of the elements already seen.
    pub seen: Name,
    /// The name of the elements from here on.
    pub rest: Name,
    /// What holds at each turn.
    pub keep: Assertion,
}
