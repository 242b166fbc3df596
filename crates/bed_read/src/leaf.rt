//! Names, numbers and limits.
ghost use Rattle.std.specs.Prelude.{◌≡◌, IfOk, Some, None};
ghost use Rattle.std.specs.Option.{option_or};
ghost use Rattle.bed_grammar.specs.Gives.{Gives};
ghost use Rattle.bed_read.specs.Classes.{class};
ghost use Rattle.bed_read.specs.Trees.{number_of};
ghost use Rattle.bed_read.specs.Written.{Nam, Num, past};
ghost use Rattle.bed_read.specs.Tables.{read};

use crate::class::{LARGE_NUMBER, NAME, NUMBER};
use crate::token::{Read, looks_at, take};
use bed_lang::{List, Name, Which};
use bed_lex::{Kind, Token};
use std::alloc::{AllocError, Global};

/// The limit that the next item passes, where so many more are allowed.
pub(crate) fn limit_at(which: Which, left: u32) -> Option<Which>
    ensures { result ≡ past which left }
{
    if left == 0 { Some(which) } else { None }
}

/// The first of two limits.
pub(crate) fn either_limit(first: Option<Which>, second: Option<Which>) -> Option<Which>
    ensures { result ≡ option_or first second }
{
    match first {
        Some(which) => Some(which),
        None => second,
    }
}

/// The same name at a place.
pub(crate) fn name_at(alloc: Global, name: &Name, at: u32) -> Result<Name, AllocError>
    ensures { IfOk result (λ x. x ≡ record { bytes = name.now.bytes; at = at }) }
{
    Ok(Name {
        bytes: List::from_slice(alloc, name.bytes.as_slice())?,
        at,
    })
}

/// A name.
#[tactic(auto, using(crate::proofs::Certificate::by_rule))]
pub(crate) fn name(alloc: Global, tokens: &[Token], limit: Option<Which>) -> Read<'_, Name>
    ensures exact { Gives (λ x. (x.0, x.1.now)) result (read (Nam limit) tokens.now) }
    ensures within { IfOk result (λ _. limit ≡ None) }
{
    let (token, rest) = take(tokens, NAME, limit)?;
    match &token.kind {
        Kind::Name(name) => Ok((name_at(alloc, name, name.at)?, rest)),
        _ => unreachable!(),
    }
}

/// The value of a number.
pub(crate) fn value_of(token: &Token) -> u32
    ensures { result ≡ number_of token.now.kind }
{
    match &token.kind {
        Kind::Number(number) => *number,
        _ => 0,
    }
}

/// A number, with its place.
#[tactic(auto, using(crate::proofs::Certificate::by_rule))]
pub(crate) fn number(tokens: &[Token], limit: Option<Which>) -> Read<'_, (u32, u32)>
    ensures exact { Gives (λ x. (x.0, x.1.now)) result (read (Num limit) tokens.now) }
    ensures within { IfOk result (λ _. limit ≡ None) }
{
    if looks_at(tokens, NUMBER) {
        let (token, rest) = take(tokens, NUMBER, limit)?;
        Ok(((token.at, value_of(token)), rest))
    } else {
        let (token, rest) = take(tokens, LARGE_NUMBER, limit)?;
        Ok(((token.at, value_of(token)), rest))
    }
}
