//! The answers of the top call.
use bed_lang::{Text, Which};

/// What is wrong at a place of a text that is no module.
#[derive(Clone, Copy, Debug, PartialEq, Eq, Drop)]
pub enum SyntaxKind {
    /// A byte that begins no token.
    Byte,
    /// A token that can't stand there.
    Token,
    /// A word that begins with a digit and is no number.
    Number,
}

/// The rule of names that a module breaks.
#[derive(Clone, Copy, Debug, PartialEq, Eq, Drop)]
pub enum NameKind {
    /// A name isn't in scope.
    Unknown,
    /// A name is declared again.
    Twice,
    /// A term isn't of the sort that its place asks for.
    Sort,
    /// Another number of arguments.
    Arity,
    /// A function's body falls through.
    FallsOff,
    /// An `if` both of whose bodies fall through has no `join`.
    MissingJoin,
    /// A statement that can't be reached.
    Dead,
    /// Locals or a callee's frame need more words than there are.
    StackRoom { needs: u32, has: u32 },
}

/// The answer of the top call. `file` is the number of the module word, from 0; lines and columns
/// count from 1, columns in bytes.
#[derive(Drop)]
pub enum Status {
    /// The image was written.
    Done,
    /// The condition with this number, from 1, wasn't accepted: the function doesn't return the
    /// operand that its signature promises. `rejected` has the node and the premise at which a
    /// supplied derivation was rejected, where there was one.
    No {
        condition: u32,
        rejected: Option<(u32, u8)>,
    },
    /// The words are no command: the number, from 0, of the first word such that no command begins
    /// with the words up to it, or the number of words.
    Usage {
        word: u32,
    },
    /// A text isn't in the grammar, at this place.
    Syntax {
        file: u32,
        line: u32,
        column: u32,
        kind: SyntaxKind,
    },
    /// A module breaks a rule of names, at this place.
    Names {
        file: u32,
        line: u32,
        column: u32,
        kind: NameKind,
    },
    /// A counted quantity passes its limit.
    Limit {
        which: Which,
    },
    /// A file couldn't be read.
    ReadFault,
    /// A file couldn't be written, or, where `sink` is true, the printed line.
    WriteFault {
        sink: bool,
    },
    /// Want of memory.
    Memory,
    /// The command or option of this word, or the file of this name, needs what isn't built.
    NotBuilt {
        what: Text,
    },
}

impl Status {
    ghost use Rattle.std.specs.Prelude.{◌≡◌};
    ghost use Rattle.bed_top.specs.Codes.{code_of};

    /// The exit status of the program.
    pub fn code(&self) -> u8
        ensures { result ≡ code_of self.now }
    {
        match self {
            Status::Done => 0,
            Status::No { .. } => 1,
            Status::Usage { .. } => 2,
            Status::Syntax { .. } => 3,
            Status::Names { .. } => 4,
            Status::Limit { .. } => 6,
            Status::ReadFault => 7,
            Status::WriteFault { .. } => 8,
            Status::Memory => 9,
            Status::NotBuilt { .. } => 15,
        }
    }
}
