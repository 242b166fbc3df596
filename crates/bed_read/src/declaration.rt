//! Declared names, with sorts and without.
ghost use Rattle.std.specs.Prelude.{◌≡◌, ◌∷◌, IfOk, None};
ghost use Rattle.bed_grammar.specs.Parsing.{outcome_map};
ghost use Rattle.bed_grammar.specs.Gives.{Gives};
ghost use Rattle.bed_read.specs.Written as grammar;
ghost use Rattle.bed_read.specs.Tables.{read};

use crate::class::{COLON, COMMA, FOR, LOCALS, NAME, SEQ, WORD};
use crate::leaf::{limit_at, name};
use crate::token::{Read, looks_at, take};
use bed_lang::{Bind, List, Name, Sort, Which};
use bed_lex::Token;
use std::alloc::Global;

/// `word` or `seq`.
#[tactic(auto, using(crate::proofs::Certificate::by_rule))]
fn sort(tokens: &[Token]) -> Read<'_, Sort>
    ensures { Gives (λ x. (x.0, x.1.now)) result (read grammar.Sort tokens.now) }
{
    if looks_at(tokens, WORD) {
        let (_, rest) = take(tokens, WORD, None)?;
        Ok((Sort::Word, rest))
    } else {
        let (_, rest) = take(tokens, SEQ, None)?;
        Ok((Sort::Seq, rest))
    }
}

/// A name with its sort.
#[tactic(auto, using(crate::proofs::Certificate::by_rule))]
fn bind(alloc: Global, tokens: &[Token], limit: Option<Which>) -> Read<'_, Bind>
    ensures exact { Gives (λ x. (x.0, x.1.now)) result (read (grammar.Bind limit) tokens.now) }
    ensures within { IfOk result (λ _. limit ≡ None) }
{
    let (name, rest) = name(alloc, tokens, limit)?;
    let (_, rest) = take(rest, COLON, None)?;
    let (sort, rest) = sort(rest)?;
    Ok((Bind { name, sort }, rest))
}

/// The names with sorts after the first, each with a comma before it.
#[tactic(auto, using(crate::proofs::Certificate::by_rule, bed_grammar::proofs::Reading::outcome_map_twice))]
fn more_binds(alloc: Global, first: Bind, tokens: &[Token], most: u32) -> Read<'_, List<Bind>>
    ensures { Gives (λ x. (x.0, x.1.now)) result (outcome_map (λ xs. first ∷ xs) (read (grammar.MoreBinds most) tokens.now)) }
{
    let mut out = List::new(alloc);
    out.push(first)?;
    let mut rest = tokens;
    let mut left = most;
    while looks_at(rest, COMMA) {
        let (_, after) = take(rest, COMMA, None)?;
        let (next, after) = bind(alloc, after, limit_at(Which::Params, left))?;
        out.push(next)?;
        rest = after;
        left -= 1;
    }
    Ok((out, rest))
}

/// Names with sorts, at least one.
#[tactic(auto, using(crate::proofs::Certificate::by_rule, crate::proofs::Certificate::gives_by, bed_grammar::proofs::Reading::outcome_map_twice))]
pub(crate) fn binds(alloc: Global, tokens: &[Token]) -> Read<'_, List<Bind>>
    ensures { Gives (λ x. (x.0, x.1.now)) result (read grammar.Binds tokens.now) }
{
    let (first, rest) = bind(alloc, tokens, None)?;
    more_binds(alloc, first, rest, 59)
}

/// Names with sorts, or none.
#[tactic(auto, using(crate::proofs::Certificate::by_rule))]
pub(crate) fn bind_list(alloc: Global, tokens: &[Token]) -> Read<'_, List<Bind>>
    ensures { Gives (λ x. (x.0, x.1.now)) result (read grammar.BindList tokens.now) }
{
    if looks_at(tokens, NAME) {
        binds(alloc, tokens)
    } else {
        Ok((List::new(alloc), tokens))
    }
}

/// `for` and names with sorts, or nothing.
#[tactic(auto, using(crate::proofs::Certificate::by_rule))]
pub(crate) fn for_binds(alloc: Global, tokens: &[Token]) -> Read<'_, List<Bind>>
    ensures { Gives (λ x. (x.0, x.1.now)) result (read grammar.For tokens.now) }
{
    if looks_at(tokens, FOR) {
        let (_, rest) = take(tokens, FOR, None)?;
        let (binds, rest) = binds(alloc, rest)?;
        Ok((binds, rest))
    } else {
        Ok((List::new(alloc), tokens))
    }
}

/// The names after the first, each with a comma before it.
#[tactic(auto, using(crate::proofs::Certificate::by_rule, bed_grammar::proofs::Reading::outcome_map_twice))]
fn more_names(
    alloc: Global,
    first: Name,
    tokens: &[Token],
    limit: Which,
    most: u32,
) -> Read<'_, List<Name>>
    ensures { Gives (λ x. (x.0, x.1.now)) result (outcome_map (λ xs. first ∷ xs) (read (grammar.Names limit most) tokens.now)) }
{
    let mut out = List::new(alloc);
    out.push(first)?;
    let mut rest = tokens;
    let mut left = most;
    while looks_at(rest, COMMA) {
        let (_, after) = take(rest, COMMA, None)?;
        let (next, after) = name(alloc, after, limit_at(limit, left))?;
        out.push(next)?;
        rest = after;
        left -= 1;
    }
    Ok((out, rest))
}

/// Parameters, or none.
#[tactic(auto, using(crate::proofs::Certificate::by_rule, crate::proofs::Certificate::gives_by, bed_grammar::proofs::Reading::outcome_map_twice))]
pub(crate) fn name_list(alloc: Global, tokens: &[Token]) -> Read<'_, List<Name>>
    ensures { Gives (λ x. (x.0, x.1.now)) result (read grammar.NameList tokens.now) }
{
    if looks_at(tokens, NAME) {
        let (first, rest) = name(alloc, tokens, None)?;
        more_names(alloc, first, rest, Which::Params, 59)
    } else {
        Ok((List::new(alloc), tokens))
    }
}

/// `locals` and names, or nothing.
#[tactic(auto, using(crate::proofs::Certificate::by_rule, crate::proofs::Certificate::gives_by, bed_grammar::proofs::Reading::outcome_map_twice))]
pub(crate) fn locals(alloc: Global, tokens: &[Token]) -> Read<'_, List<Name>>
    ensures { Gives (λ x. (x.0, x.1.now)) result (read grammar.Locals tokens.now) }
{
    if looks_at(tokens, LOCALS) {
        let (_, rest) = take(tokens, LOCALS, None)?;
        let (first, rest) = name(alloc, rest, None)?;
        more_names(alloc, first, rest, Which::Locals, 59)
    } else {
        Ok((List::new(alloc), tokens))
    }
}
