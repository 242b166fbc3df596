//! Statements without bodies, and the parts of others.
ghost use Rattle.std.specs.Prelude.{◌≡◌, None};
ghost use Rattle.bed_grammar.specs.Gives.{Gives, GivesBy};
ghost use Rattle.bed_grammar.specs.Grammar.{ref};
ghost use Rattle.bed_read.specs.Classes as classes;
ghost use Rattle.bed_read.specs.Trees.{assigned};
ghost use Rattle.bed_read.specs.Written as grammar;
ghost use Rattle.bed_read.specs.Written.{◌▸◌};
ghost use Rattle.bed_read.specs.Tables.{read, read_part};

use crate::assertion::assertion;
use crate::class::{
    AS, ASSIGN, BYTE, COMMA, HINT, IN, JOIN, KEEP, LEFT_BRACKET, OF, RETURN, RIGHT_BRACKET,
    SEMICOLON,
};
use crate::hint::hint;
use crate::leaf::name;
use crate::operand::{operand, place};
use crate::parts::{Over, Source};
use crate::sequence::seq;
use crate::source::source;
use crate::token::{Read, looks_at, take};
use bed_lang::{Assertion, Join, Name, Operand, Stmt, StmtKind};
use bed_lex::Token;
use std::alloc::Global;

/// The assignment of a source to a local.
fn assign(into: Name, source: Source) -> StmtKind
    ensures { result ≡ assigned into source }
{
    match source {
        Source::Operand(operand) => StmtKind::Assign(into, operand),
        Source::Compute(op, left, right) => StmtKind::Compute(into, op, left, right),
        Source::Load(place) => StmtKind::Load(into, place),
        Source::LoadByte(place) => StmtKind::LoadByte(into, place),
        Source::Call(call) => StmtKind::Call {
            place: call.place,
            into,
            target: call.target,
            via: call.via,
            args: call.args,
            hints: call.hints,
            after: call.after,
        },
    }
}

/// `<-`, a source and `;`.
fn assigned_source(alloc: Global, tokens: &[Token]) -> Read<'_, Source>
    ensures { GivesBy (λ v. v.1.0) (λ x. (x.0, x.1.now)) result (read_part (grammar.sign classes.ASSIGN ▸ ref grammar.Source ▸ grammar.sign classes.SEMICOLON) tokens.now) }
{
    let (_, rest) = take(tokens, ASSIGN, None)?;
    let (source, rest) = source(alloc, rest)?;
    let (_, rest) = take(rest, SEMICOLON, None)?;
    Ok((source, rest))
}

/// An assignment to a local.
#[tactic(auto, using(crate::proofs::Certificate::by_rule))]
pub(crate) fn assignment(alloc: Global, tokens: &[Token]) -> Read<'_, Stmt>
    ensures { Gives (λ x. (x.0, x.1.now)) result (read grammar.Assignment tokens.now) }
{
    let (into, rest) = name(alloc, tokens, None)?;
    let at = into.at;
    let (source, rest) = assigned_source(alloc, rest)?;
    let kind = assign(into, source);
    Ok((Stmt { at, kind }, rest))
}

/// `]`, `<-`, an operand and `;`.
fn stored_value(alloc: Global, tokens: &[Token]) -> Read<'_, Operand>
    ensures { GivesBy (λ v. v.1.1.0.1) (λ x. (x.0, x.1.now)) result (read_part (grammar.sign classes.RIGHT_BRACKET ▸ grammar.sign classes.ASSIGN ▸ ref grammar.Operand ▸ grammar.sign classes.SEMICOLON) tokens.now) }
{
    let (_, rest) = take(tokens, RIGHT_BRACKET, None)?;
    let (_, rest) = take(rest, ASSIGN, None)?;
    let (value, rest) = operand(alloc, rest)?;
    let (_, rest) = take(rest, SEMICOLON, None)?;
    Ok((value.1, rest))
}

/// A store of a word.
#[tactic(auto, using(crate::proofs::Certificate::by_rule))]
pub(crate) fn store(alloc: Global, tokens: &[Token]) -> Read<'_, Stmt>
    ensures { Gives (λ x. (x.0, x.1.now)) result (read grammar.Store tokens.now) }
{
    let (first, rest) = take(tokens, LEFT_BRACKET, None)?;
    let at = first.at;
    let (place, rest) = place(alloc, rest)?;
    let (value, rest) = stored_value(alloc, rest)?;
    let kind = StmtKind::Store(place, value);
    Ok((Stmt { at, kind }, rest))
}

/// A store of a byte.
#[tactic(auto, using(crate::proofs::Certificate::by_rule))]
pub(crate) fn store_byte(alloc: Global, tokens: &[Token]) -> Read<'_, Stmt>
    ensures { Gives (λ x. (x.0, x.1.now)) result (read grammar.StoreByte tokens.now) }
{
    let (first, rest) = take(tokens, BYTE, None)?;
    let at = first.at;
    let (_, rest) = take(rest, LEFT_BRACKET, None)?;
    let (place, rest) = place(alloc, rest)?;
    let (value, rest) = stored_value(alloc, rest)?;
    let kind = StmtKind::StoreByte(place, value);
    Ok((Stmt { at, kind }, rest))
}

/// A `return`.
#[tactic(auto, using(crate::proofs::Certificate::by_rule))]
pub(crate) fn return_statement(alloc: Global, tokens: &[Token]) -> Read<'_, Stmt>
    ensures { Gives (λ x. (x.0, x.1.now)) result (read grammar.Return tokens.now) }
{
    let (first, rest) = take(tokens, RETURN, None)?;
    let at = first.at;
    let ((_, value), rest) = operand(alloc, rest)?;
    let (_, rest) = take(rest, SEMICOLON, None)?;
    let kind = StmtKind::Return(value);
    Ok((Stmt { at, kind }, rest))
}

/// A hint as a statement.
#[tactic(auto, using(crate::proofs::Certificate::by_rule))]
pub(crate) fn hint_statement(alloc: Global, tokens: &[Token]) -> Read<'_, Stmt>
    ensures { Gives (λ x. (x.0, x.1.now)) result (read grammar.HintStatement tokens.now) }
{
    let (first, rest) = take(tokens, HINT, None)?;
    let at = first.at;
    let (hint, rest) = hint(alloc, rest)?;
    let (_, rest) = take(rest, SEMICOLON, None)?;
    let kind = StmtKind::Hint(hint);
    Ok((Stmt { at, kind }, rest))
}

/// `join` and an assertion, or nothing.
#[tactic(auto, using(crate::proofs::Certificate::by_rule))]
pub(crate) fn join(alloc: Global, tokens: &[Token]) -> Read<'_, Option<Join>>
    ensures { Gives (λ x. (x.0, x.1.now)) result (read grammar.Join tokens.now) }
{
    if looks_at(tokens, JOIN) {
        let (first, rest) = take(tokens, JOIN, None)?;
        let place = first.at;
        let (assertion, rest) = assertion(alloc, rest, None)?;
        let (_, rest) = take(rest, SEMICOLON, None)?;
        Ok((Some(Join { place, assertion }), rest))
    } else {
        Ok((None, tokens))
    }
}

/// `keep` and an assertion, after the name of the elements from here on.
fn rest_and_keep(alloc: Global, tokens: &[Token]) -> Read<'_, (Name, Assertion)>
    ensures { GivesBy (λ v. (v.0, v.1.1)) (λ x. (x.0, x.1.now)) result (read_part (grammar.name ▸ grammar.sign classes.KEEP ▸ ref (grammar.Assertion None)) tokens.now) }
{
    let (name, rest) = name(alloc, tokens, None)?;
    let (_, rest) = take(rest, KEEP, None)?;
    let (keep, rest) = assertion(alloc, rest, None)?;
    Ok(((name, keep), rest))
}

/// `as`, the names of the elements before and from here on, `keep` and an assertion.
fn seen_and_rest(alloc: Global, tokens: &[Token]) -> Read<'_, (Name, (Name, Assertion))>
    ensures { GivesBy (λ v. (v.1.0, (v.1.1.1.0, v.1.1.1.1.1))) (λ x. (x.0, x.1.now)) result (read_part (grammar.sign classes.AS ▸ grammar.name ▸ grammar.sign classes.COMMA ▸ grammar.name ▸ grammar.sign classes.KEEP ▸ ref (grammar.Assertion None)) tokens.now) }
{
    let (_, rest) = take(tokens, AS, None)?;
    let (seen, rest) = name(alloc, rest, None)?;
    let (_, rest) = take(rest, COMMA, None)?;
    let (last, rest) = rest_and_keep(alloc, rest)?;
    Ok(((seen, last), rest))
}

/// What `find` and `walk` go over, and what they keep.
#[tactic(auto, using(crate::proofs::Certificate::by_rule))]
pub(crate) fn over(alloc: Global, tokens: &[Token]) -> Read<'_, Over>
    ensures { Gives (λ x. (x.0, x.1.now)) result (read grammar.Over tokens.now) }
{
    let (_, after) = take(tokens, IN, None)?;
    let (list, after) = name(alloc, after, None)?;
    let (_, after) = take(after, OF, None)?;
    let (seq, after) = seq(alloc, after, 64)?;
    let ((seen, (rest, keep)), after) = seen_and_rest(alloc, after)?;
    let over = Over {
        list,
        seq,
        seen,
        rest,
        keep,
    };
    Ok((over, after))
}
