//! What is assigned: operands, results of operations, loads and calls.
ghost use Rattle.std.specs.Prelude.{◌≡◌, None};
ghost use Rattle.bed_grammar.specs.Gives.{Gives, GivesBy};
ghost use Rattle.bed_grammar.specs.Grammar.{ref};
ghost use Rattle.bed_read.specs.Classes as classes;
ghost use Rattle.bed_read.specs.Written as grammar;
ghost use Rattle.bed_read.specs.Written.{◌▸◌};
ghost use Rattle.bed_read.specs.Tables.{read, read_part};

use crate::assertion::assertion;
use crate::class::{
    AFTER, AMPERSAND, BYTE, CALL, LEFT_BRACKET, LEFT_PAREN, RIGHT_BRACKET, RIGHT_PAREN, VIA,
};
use crate::hint::using_hints;
use crate::leaf::name;
use crate::operand::{begins_operation, operand, operands, operation, place};
use crate::parts::{Call, Source};
use crate::token::{Read, looks_at, take};
use bed_lang::{Assertion, Hint, List, Name, Operand, Place};
use bed_lex::Token;
use std::alloc::Global;

/// The target of a call, and the name of the signature of a target that is a local.
#[tactic(auto, using(crate::proofs::Certificate::by_rule))]
fn callee(alloc: Global, tokens: &[Token]) -> Read<'_, (Operand, Option<Name>)>
    ensures { Gives (λ x. (x.0, x.1.now)) result (read grammar.Callee tokens.now) }
{
    if looks_at(tokens, AMPERSAND) {
        let (_, rest) = take(tokens, AMPERSAND, None)?;
        let (name, rest) = name(alloc, rest, None)?;
        Ok(((Operand::Label(name), None), rest))
    } else {
        let (local, rest) = name(alloc, tokens, None)?;
        let (_, rest) = take(rest, VIA, None)?;
        let (signature, rest) = name(alloc, rest, None)?;
        Ok(((Operand::Local(local), Some(signature)), rest))
    }
}

/// `using` and hints, or nothing, and `after` and an assertion.
fn hints_and_after(alloc: Global, tokens: &[Token]) -> Read<'_, (List<Hint>, Assertion)>
    ensures { GivesBy (λ v. (v.0, v.1.1)) (λ x. (x.0, x.1.now)) result (read_part (ref grammar.Using ▸ grammar.sign classes.AFTER ▸ ref (grammar.Assertion None)) tokens.now) }
{
    let (hints, rest) = using_hints(alloc, tokens)?;
    let (_, rest) = take(rest, AFTER, None)?;
    let (after, rest) = assertion(alloc, rest, None)?;
    Ok(((hints, after), rest))
}

/// A call.
#[tactic(auto, using(crate::proofs::Certificate::by_rule))]
fn call(alloc: Global, tokens: &[Token]) -> Read<'_, Call>
    ensures { Gives (λ x. (x.0, x.1.now)) result (read grammar.Call tokens.now) }
{
    let (first, rest) = take(tokens, CALL, None)?;
    let place = first.at;
    let (callee, rest) = callee(alloc, rest)?;
    let (_, rest) = take(rest, LEFT_PAREN, None)?;
    let (args, rest) = operands(alloc, rest)?;
    let (_, rest) = take(rest, RIGHT_PAREN, None)?;
    let ((hints, after), rest) = hints_and_after(alloc, rest)?;
    let (target, via) = callee;
    let call = Call {
        place,
        target,
        via,
        args,
        hints,
        after,
    };
    Ok((call, rest))
}

/// A place in memory in square brackets.
fn bracketed_place(alloc: Global, tokens: &[Token]) -> Read<'_, Place>
    ensures { GivesBy (λ v. v.1.0) (λ x. (x.0, x.1.now)) result (read_part (grammar.sign classes.LEFT_BRACKET ▸ ref grammar.Place ▸ grammar.sign classes.RIGHT_BRACKET) tokens.now) }
{
    let (_, rest) = take(tokens, LEFT_BRACKET, None)?;
    let (place, rest) = place(alloc, rest)?;
    let (_, rest) = take(rest, RIGHT_BRACKET, None)?;
    Ok((place, rest))
}

/// What is assigned.
#[tactic(auto, using(crate::proofs::Certificate::by_rule))]
pub(crate) fn source(alloc: Global, tokens: &[Token]) -> Read<'_, Source>
    ensures { Gives (λ x. (x.0, x.1.now)) result (read grammar.Source tokens.now) }
{
    if looks_at(tokens, LEFT_BRACKET) {
        let (place, rest) = bracketed_place(alloc, tokens)?;
        Ok((Source::Load(place), rest))
    } else if looks_at(tokens, BYTE) {
        let (_, rest) = take(tokens, BYTE, None)?;
        let (place, rest) = bracketed_place(alloc, rest)?;
        Ok((Source::LoadByte(place), rest))
    } else if looks_at(tokens, CALL) {
        let (call, rest) = call(alloc, tokens)?;
        Ok((Source::Call(call), rest))
    } else {
        let ((_, left), rest) = operand(alloc, tokens)?;
        if begins_operation(rest) {
            let (op, rest) = operation(rest)?;
            let ((_, right), rest) = operand(alloc, rest)?;
            Ok((Source::Compute(op, left, right), rest))
        } else {
            Ok((Source::Operand(left), rest))
        }
    }
}
