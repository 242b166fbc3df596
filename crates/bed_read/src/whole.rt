//! Whole module texts.
ghost use Rattle.std.specs.Prelude.{◌≡◌, ℕ, ◌<◌, ◌^◌, length, IfOk, Ok, Err};
ghost use Rattle.bed_grammar.specs.Exact.{to_end, ReturnsUnless};
ghost use Rattle.bed_lang.specs.declared.module.Module.{Module};
ghost use Rattle.bed_read.specs.Written as grammar;
ghost use Rattle.bed_read.specs.Tables.{read};
ghost use Rattle.bed_read.specs.Reading.{GivesWhole, IsModule, KeepsCounts, ReadsModule, error_at, fault_error, first_error};
ghost use Rattle.bed_read.specs.declared.whole.ReadError.TheVariants.{Memory};

use crate::item::module;
use bed_grammar::Refusal;
use bed_lang::{Module, Which};
use bed_lex::{LexError, Scanned, Token, scan};
use std::alloc::{AllocError, Global};
use thiserror::Error;

/// Why a text is read as no module: the refusal with the least place, in bytes from 0.
#[derive(Debug, Drop, Error)]
pub enum ReadError {
    /// A byte that begins no token.
    #[error("a byte at {at} that begins no token")]
    BadByte { at: u32 },
    /// The first token such that no text of the grammar, limits set aside, begins with the tokens up to and including it;
    /// the length of the text where it ends too early.
    #[error("a token at {at} that can't stand there")]
    Unexpected { at: u32 },
    /// A word that begins with a digit and is no number from 0 to 4294967295.
    #[error("a bad number at {at}")]
    Number { at: u32 },
    /// The first token past a limit: the first of an item that is one too many, the number after `reserving`, or a name
    /// of more than 255 bytes.
    #[error("a limit is passed at {at}")]
    Limit { which: Which, at: u32 },
    /// Want of memory.
    #[error("want of memory")]
    Memory,
}

impl From<AllocError> for ReadError {
    ghost use Rattle.std.specs.Prelude.{◌≡◌};
    ghost use Rattle.bed_read.specs.declared.whole.ReadError.TheVariants.{Memory};

    ghost from_gives = { λ _ e. e ≡ Memory };

    fn from(_: AllocError) -> ReadError {
        ReadError::Memory
    }
}

/// The module that all of these tokens are.
#[tactic(auto, using(crate::proofs::Wholes::leftover, crate::proofs::Wholes::refused_whole))]
fn all<'a>(alloc: Global, tokens: &'a [Token]) -> Result<Module, Refusal<'a, Token, Which>>
    ensures { GivesWhole result (to_end (read grammar.Module tokens.now)) }
{
    let (module, rest) = module(alloc, tokens)?;
    match rest {
        [] => Ok(module),
        _ => Err(Refusal::At { rest, limit: None }),
    }
}

/// The refusal for the first place that stands in no token.
fn into_error(fault: LexError) -> ReadError
    ensures { result ≡ fault_error fault }
{
    match fault {
        LexError::BadByte { at } => ReadError::BadByte { at },
        LexError::Number { at } => ReadError::Number { at },
        LexError::LongName { at } => ReadError::Limit {
            which: Which::Name,
            at,
        },
        LexError::Memory => ReadError::Memory,
    }
}

/// The refusal at a place, for a limit or for none.
fn refusal_at(at: u32, limit: Option<Which>) -> ReadError
    ensures { result ≡ error_at at limit }
{
    match limit {
        Some(which) => ReadError::Limit { which, at },
        None => ReadError::Unexpected { at },
    }
}

/// The refusal with the least place: that of the first wrong token, else the fault, else that of the end.
fn refused(rest: &[Token], limit: Option<Which>, fault: Option<LexError>, end: u32) -> ReadError
    ensures { result ≡ first_error end rest.now limit fault }
{
    match rest {
        [token, ..] => refusal_at(token.at, limit),
        [] => match fault {
            Some(fault) => into_error(fault),
            None => refusal_at(end, limit),
        },
    }
}

/// The module of a text.
///
/// # Errors
/// The refusal with the least place, as `ReadError` says; at one place `Limit` before `Unexpected`. `Memory` for want of
/// memory.
pub fn read_module(alloc: Global, text: &[u8]) -> Result<Module, ReadError>
    requires { length text.now < 2 ^ 32 }
    // What is read is the module of the text; a refusal is at its place.
    ensures exact { ReadsModule text.now result }
    // What is read keeps the limits of declarations.
    ensures counts { IfOk result (λ m. KeepsCounts m) }
    // A text that has a module is read as it, unless memory runs out.
    ensures complete { (m : Module) → IsModule text.now m → ReturnsUnless Memory m result }
{
    let Scanned { tokens, fault } = scan(alloc, text)?;
    let end = text.len() as u32;
    match all(alloc, tokens.as_slice()) {
        Ok(module) => match fault {
            None => Ok(module),
            Some(fault) => Err(into_error(fault)),
        },
        Err(Refusal::Memory) => Err(ReadError::Memory),
        Err(Refusal::At { rest, limit }) => Err(refused(rest, limit, fault, end)),
    }
}
