//! Operands, tests and places.
ghost use Rattle.std.specs.Prelude.{◌≡◌, ◌∷◌};
ghost use Rattle.bed_grammar.specs.Exact.{peek};
ghost use Rattle.bed_grammar.specs.Tables.{class_at, has};
ghost use Rattle.bed_grammar.specs.Parsing.{outcome_map};
ghost use Rattle.bed_grammar.specs.Gives.{Gives};
ghost use Rattle.bed_read.specs.Classes.{class};
ghost use Rattle.bed_read.specs.Written as grammar;
ghost use Rattle.bed_read.specs.Tables.{firsts, read};

use crate::class::{AMPERSAND, AND, COMMA, LARGE_NUMBER, MINUS, NAME, NUMBER, OR, PLUS, STAR, XOR};
use crate::fact::relation;
use crate::leaf::{name, number};
use crate::token::{Read, looks_at, looks_at_any, take};
use bed_lang::{List, Op, Operand, Place, Test};
use bed_lex::Token;
use std::alloc::Global;

/// An operand, with its place.
#[tactic(auto, using(crate::proofs::Certificate::by_rule))]
pub(crate) fn operand(alloc: Global, tokens: &[Token]) -> Read<'_, (u32, Operand)>
    ensures { Gives (λ x. (x.0, x.1.now)) result (read grammar.Operand tokens.now) }
{
    if looks_at_any(tokens, &[NUMBER, LARGE_NUMBER]) {
        let ((at, number), rest) = number(tokens, None)?;
        Ok(((at, Operand::Number(number)), rest))
    } else if looks_at(tokens, NAME) {
        let (name, rest) = name(alloc, tokens, None)?;
        Ok(((name.at, Operand::Local(name)), rest))
    } else {
        let (first, rest) = take(tokens, AMPERSAND, None)?;
        let (name, rest) = name(alloc, rest, None)?;
        Ok(((first.at, Operand::Label(name)), rest))
    }
}

/// Whether an operand begins here.
pub(crate) fn begins_operand(tokens: &[Token]) -> bool
    ensures { result ≡ has (firsts grammar.Operand) (class_at class (peek tokens.now)) }
{
    looks_at_any(tokens, &[NAME, NUMBER, LARGE_NUMBER, AMPERSAND])
}

/// Operands with commas between them, or none.
#[tactic(auto, using(crate::proofs::Certificate::by_rule, crate::proofs::Certificate::gives_by, bed_grammar::proofs::Reading::outcome_map_twice))]
pub(crate) fn operands(alloc: Global, tokens: &[Token]) -> Read<'_, List<Operand>>
    ensures { Gives (λ x. (x.0, x.1.now)) result (read grammar.Operands tokens.now) }
{
    if begins_operand(tokens) {
        let ((_, first), rest) = operand(alloc, tokens)?;
        more_operands(alloc, first, rest)
    } else {
        Ok((List::new(alloc), tokens))
    }
}

/// The operands after the first, each with a comma before it.
#[tactic(auto, using(crate::proofs::Certificate::by_rule, crate::proofs::Shorter::shorter_operand, bed_grammar::proofs::Reading::outcome_map_twice))]
fn more_operands(alloc: Global, first: Operand, tokens: &[Token]) -> Read<'_, List<Operand>>
    ensures { Gives (λ x. (x.0, x.1.now)) result (outcome_map (λ xs. first ∷ xs) (read grammar.MoreOperands tokens.now)) }
{
    let mut out = List::new(alloc);
    out.push(first)?;
    let mut rest = tokens;
    while looks_at(rest, COMMA) {
        let (_, after) = take(rest, COMMA, None)?;
        let (next, after) = operand(alloc, after)?;
        out.push(next.1)?;
        rest = after;
    }
    Ok((out, rest))
}

/// A test.
#[tactic(auto, using(crate::proofs::Certificate::by_rule))]
pub(crate) fn test(alloc: Global, tokens: &[Token]) -> Read<'_, Test>
    ensures { Gives (λ x. (x.0, x.1.now)) result (read grammar.Test tokens.now) }
{
    let ((at, left), rest) = operand(alloc, tokens)?;
    let (rel, rest) = relation(rest)?;
    let ((_, right), rest) = operand(alloc, rest)?;
    Ok((
        Test {
            at,
            rel,
            left,
            right,
        },
        rest,
    ))
}

/// A displacement: `+` and a number, or nothing for 0.
#[tactic(auto, using(crate::proofs::Certificate::by_rule))]
fn offset(tokens: &[Token]) -> Read<'_, u32>
    ensures { Gives (λ x. (x.0, x.1.now)) result (read grammar.Offset tokens.now) }
{
    if looks_at(tokens, PLUS) {
        let (_, rest) = take(tokens, PLUS, None)?;
        let ((_, number), rest) = number(rest, None)?;
        Ok((number, rest))
    } else {
        Ok((0, tokens))
    }
}

/// A place in memory.
#[tactic(auto, using(crate::proofs::Certificate::by_rule))]
pub(crate) fn place(alloc: Global, tokens: &[Token]) -> Read<'_, Place>
    ensures { Gives (λ x. (x.0, x.1.now)) result (read grammar.Place tokens.now) }
{
    let ((_, base), rest) = operand(alloc, tokens)?;
    let (disp, rest) = offset(rest)?;
    Ok((Place { base, disp }, rest))
}

/// An operation.
#[tactic(auto, using(crate::proofs::Certificate::by_rule))]
pub(crate) fn operation(tokens: &[Token]) -> Read<'_, Op>
    ensures { Gives (λ x. (x.0, x.1.now)) result (read grammar.Op tokens.now) }
{
    if looks_at(tokens, PLUS) {
        let (_, rest) = take(tokens, PLUS, None)?;
        Ok((Op::Add, rest))
    } else if looks_at(tokens, MINUS) {
        let (_, rest) = take(tokens, MINUS, None)?;
        Ok((Op::Sub, rest))
    } else if looks_at(tokens, STAR) {
        let (_, rest) = take(tokens, STAR, None)?;
        Ok((Op::Mul, rest))
    } else if looks_at(tokens, AND) {
        let (_, rest) = take(tokens, AND, None)?;
        Ok((Op::And, rest))
    } else if looks_at(tokens, OR) {
        let (_, rest) = take(tokens, OR, None)?;
        Ok((Op::Or, rest))
    } else {
        let (_, rest) = take(tokens, XOR, None)?;
        Ok((Op::Xor, rest))
    }
}

/// Whether an operation stands here.
pub(crate) fn begins_operation(tokens: &[Token]) -> bool
    ensures { result ≡ has (firsts grammar.Op) (class_at class (peek tokens.now)) }
{
    looks_at_any(tokens, &[AND, OR, XOR, PLUS, MINUS, STAR])
}
