//! The tokens of a proof text, one after another.
ghost use Rattle.std.specs.Prelude.{◌≡◌, ◌<◌, ◌^◌, length, IfOk};
ghost use Rattle.bed_proof_lex.specs.Tokens.{IsProofScan, OneProofScan, ProofTokenizes};

use crate::piece::{Piece, find_piece};
use bed_lang::List;
use bed_lex::{LexError, Scanned, Token};
use std::alloc::{AllocError, Global};

/// The tokens of a proof text, up to the first place that stands in none.
///
/// # Errors
/// `AllocError` for want of memory.
pub fn proof_scan(alloc: Global, text: &[u8]) -> Result<Scanned, AllocError>
    requires { length text.now < 2 ^ 32 }
    ensures { IfOk result (λ scanned. IsProofScan text.now scanned) }
{
    let mut tokens = List::new(alloc);
    let mut place = 0;
    loop {
        match find_piece(alloc, &text[place..], place as u32)? {
            Piece::Stop(fault) => return Ok(Scanned { tokens, fault }),
            Piece::Blank(size) => place += size,
            Piece::Token(token, size) => {
                tokens.push(token)?;
                place += size;
            }
        }
    }
}

/// All tokens of a proof text, in order: those of a module text, but that `#` with decimal digits is a fresh variable.
///
/// # Errors
/// The first place that stands in no token: `BadByte`, also at a `#` without a digit after it; `Number`, also at a `#`
/// whose word isn't decimal digits of value at most 4294967295; or `LongName`. `Memory` for want of memory.
pub fn proof_tokens(alloc: Global, text: &[u8]) -> Result<List<Token>, LexError>
    requires { length text.now < 2 ^ 32 }
    ensures { ProofTokenizes text.now result }
{
    let Scanned { tokens, fault } = proof_scan(alloc, text)?;
    match fault {
        None => Ok(tokens),
        Some(error) => Err(error),
    }
}

/// A text has one list of tokens and one first refusal, so `proof_scan` and `proof_tokens` give the only ones.
pub fn has_one_proof_scan(_text: &[u8])
    ensures { OneProofScan _text.now }
{}
