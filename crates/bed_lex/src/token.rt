//! Tokens, and the refusals of a text that has none.
use bed_lang::Name;
use std::alloc::AllocError;
use thiserror::Error;

/// The 58 reserved words, the 23 marks and the hole: `Kind::Word(i)` is the one at position i.
pub const WORDS: [&str; 82] = [
    "module",
    "signature",
    "reserving",
    "for",
    "pre",
    "post",
    "predicate",
    "import",
    "export",
    "function",
    "locals",
    "exists",
    "emp",
    "block",
    "code",
    "in",
    "notin",
    "nil",
    "cons",
    "app",
    "old",
    "result",
    "word",
    "seq",
    "if",
    "else",
    "join",
    "while",
    "invariant",
    "call",
    "via",
    "using",
    "after",
    "return",
    "byte",
    "and",
    "or",
    "xor",
    "find",
    "walk",
    "of",
    "as",
    "keep",
    "hint",
    "unfold",
    "at",
    "fold",
    "case",
    "append",
    "divide",
    "merge",
    "bytes",
    "cell",
    "uncell",
    "drop",
    "claim",
    "when",
    "give",
    ";",
    ",",
    ":",
    "(",
    ")",
    "{",
    "}",
    "[",
    "]",
    ".",
    "|",
    "|->",
    "|->b",
    "<-",
    "<",
    "<=",
    "=",
    "==",
    "!=",
    "+",
    "-",
    "*",
    "&",
    "_",
];

/// The marks, a longer one before a shorter one.
pub const MARKS: [&str; 23] = [
    "|->b", "|->", "<-", "<=", "==", "!=", ";", ",", ":", "(", ")", "{", "}", "[", "]", ".", "|",
    "<", "=", "+", "-", "*", "&",
];

/// What a token is.
#[derive(Drop)]
pub enum Kind {
    /// A name, with its place.
    Name(Name),
    /// A number from 0 to 4294967295.
    Number(u32),
    /// A reserved word, a mark or the hole, by its position in `WORDS`.
    Word(u8),
    /// A fresh variable `#0`, `#1` and so on, by its number. Module texts have none.
    Fresh(u32),
}

/// A token and the place of its first byte, in bytes from 0.
#[derive(Drop)]
pub struct Token {
    pub kind: Kind,
    pub at: u32,
}

/// Why a text has no tokens: the first place that stands in none.
#[derive(Debug, Drop, Error)]
pub enum LexError {
    /// A byte that begins no token, at its place.
    #[error("a byte at {at} that begins no token")]
    BadByte { at: u32 },
    /// A word that begins with a digit and is no number from 0 to 4294967295, at its first byte.
    #[error("a bad number at {at}")]
    Number { at: u32 },
    /// A name of more than 255 bytes, at its first byte.
    #[error("a name at {at} that is too long")]
    LongName { at: u32 },
    /// Want of memory.
    #[error("want of memory")]
    Memory,
}

impl From<AllocError> for LexError {
    ghost use Rattle.std.specs.Prelude.{◌≡◌};
    ghost use Rattle.bed_lex.specs.declared.token.LexError.TheVariants.{Memory};

    ghost from_gives = { λ _ e. e ≡ Memory };

    fn from(_: AllocError) -> LexError {
        LexError::Memory
    }
}
