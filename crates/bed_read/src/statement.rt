//! Statements and bodies.
ghost use Rattle.std.specs.Prelude.{◌≡◌, None};
ghost use Rattle.bed_grammar.specs.Exact.{peek};
ghost use Rattle.bed_grammar.specs.Tables.{class_at, has};
ghost use Rattle.bed_grammar.specs.Gives.{Gives, GivesBy};
ghost use Rattle.bed_grammar.specs.Grammar.{ref};
ghost use Rattle.bed_read.specs.Classes as classes;
ghost use Rattle.bed_read.specs.Classes.{class};
ghost use Rattle.bed_read.specs.Written as grammar;
ghost use Rattle.bed_read.specs.Written.{◌▸◌};
ghost use Rattle.bed_read.specs.Tables.{firsts, read, read_part};

use crate::assertion::assertion;
use crate::class::{
    BYTE, COMMA, ELSE, FIND, FOR, HINT, IF, INVARIANT, LEFT_BRACE, LEFT_BRACKET, NAME, RETURN,
    RIGHT_BRACE, WALK, WHILE,
};
use crate::leaf::{limit_at, name};
use crate::operand::{operand, test};
use crate::parts::Over;
use crate::simple::{assignment, hint_statement, join, over, return_statement, store, store_byte};
use crate::token::{Read, looks_at, looks_at_any, take};
use bed_lang::{Assertion, Join, List, Name, Operand, Stmt, StmtKind, Which};
use bed_lex::Token;
use std::alloc::Global;

/// A body that may hold so many more inside one another, itself counted, with the place of its closing brace.
#[cycle(statements)]
#[tactic(auto, using(crate::proofs::Certificate::by_rule))]
pub(crate) fn body(alloc: Global, tokens: &[Token], depth: u32) -> Read<'_, (List<Stmt>, u32)>
    ensures { Gives (λ x. (x.0, x.1.now)) result (read (grammar.Body depth) tokens.now) }
{
    let (_, rest) = take(tokens, LEFT_BRACE, limit_at(Which::Nesting, depth))?;
    let (statements, rest) = statements(alloc, rest, depth - 1)?;
    let (last, rest) = take(rest, RIGHT_BRACE, None)?;
    Ok(((statements, last.at), rest))
}

/// Whether a statement begins here.
fn begins_statement(tokens: &[Token]) -> bool
    ensures { result ≡ has (firsts (grammar.Statement 0)) (class_at class (peek tokens.now)) }
{
    looks_at_any(
        tokens,
        &[
            NAME,
            IF,
            WHILE,
            RETURN,
            BYTE,
            FIND,
            WALK,
            HINT,
            LEFT_BRACKET,
        ],
    )
}

/// Statements, as many as there are.
#[cycle(statements)]
#[tactic(auto, using(crate::proofs::Certificate::by_rule, crate::proofs::Shorter::shorter_statement, bed_grammar::proofs::Reading::outcome_map_twice))]
fn statements(alloc: Global, tokens: &[Token], depth: u32) -> Read<'_, List<Stmt>>
    ensures { Gives (λ x. (x.0, x.1.now)) result (read (grammar.Statements depth) tokens.now) }
{
    let mut out = List::new(alloc);
    let mut rest = tokens;
    while begins_statement(rest) {
        let (next, after) = statement(alloc, rest, depth)?;
        out.push(next)?;
        rest = after;
    }
    Ok((out, rest))
}

/// A statement.
#[cycle(statements)]
#[tactic(auto, using(crate::proofs::Certificate::by_rule))]
fn statement(alloc: Global, tokens: &[Token], depth: u32) -> Read<'_, Stmt>
    ensures { Gives (λ x. (x.0, x.1.now)) result (read (grammar.Statement depth) tokens.now) }
{
    if looks_at(tokens, NAME) {
        assignment(alloc, tokens)
    } else if looks_at(tokens, LEFT_BRACKET) {
        store(alloc, tokens)
    } else if looks_at(tokens, BYTE) {
        store_byte(alloc, tokens)
    } else if looks_at(tokens, IF) {
        if_statement(alloc, tokens, depth)
    } else if looks_at(tokens, WHILE) {
        while_statement(alloc, tokens, depth)
    } else if looks_at(tokens, RETURN) {
        return_statement(alloc, tokens)
    } else if looks_at(tokens, HINT) {
        hint_statement(alloc, tokens)
    } else if looks_at(tokens, FIND) {
        find_statement(alloc, tokens, depth)
    } else {
        walk_statement(alloc, tokens, depth)
    }
}

/// `else` and a body, or nothing for an empty body.
#[cycle(statements)]
#[tactic(auto, using(crate::proofs::Certificate::by_rule))]
fn else_body(alloc: Global, tokens: &[Token], depth: u32) -> Read<'_, List<Stmt>>
    ensures { Gives (λ x. (x.0, x.1.now)) result (read (grammar.Else depth) tokens.now) }
{
    if looks_at(tokens, ELSE) {
        let (_, rest) = take(tokens, ELSE, None)?;
        let ((statements, _), rest) = body(alloc, rest, depth)?;
        Ok((statements, rest))
    } else {
        Ok((List::new(alloc), tokens))
    }
}

/// `else` and a body, or nothing, and then a join, or nothing.
#[cycle(statements)]
fn else_and_join(
    alloc: Global,
    tokens: &[Token],
    depth: u32,
) -> Read<'_, (List<Stmt>, Option<Join>)>
    ensures { GivesBy (λ v. v) (λ x. (x.0, x.1.now)) result (read_part (ref (grammar.Else depth) ▸ ref grammar.Join) tokens.now) }
{
    let (no, rest) = else_body(alloc, tokens, depth)?;
    let (join, rest) = join(alloc, rest)?;
    Ok(((no, join), rest))
}

/// An `if`.
#[cycle(statements)]
#[tactic(auto, using(crate::proofs::Certificate::by_rule))]
fn if_statement(alloc: Global, tokens: &[Token], depth: u32) -> Read<'_, Stmt>
    ensures { Gives (λ x. (x.0, x.1.now)) result (read (grammar.If depth) tokens.now) }
{
    let (first, rest) = take(tokens, IF, None)?;
    let at = first.at;
    let (test, rest) = test(alloc, rest)?;
    let ((yes, _), rest) = body(alloc, rest, depth)?;
    let ((no, join), rest) = else_and_join(alloc, rest, depth)?;
    let kind = StmtKind::If {
        test,
        yes,
        no,
        join,
    };
    Ok((Stmt { at, kind }, rest))
}

/// An invariant and a body.
#[cycle(statements)]
fn invariant_and_body(
    alloc: Global,
    tokens: &[Token],
    depth: u32,
) -> Read<'_, (Assertion, List<Stmt>)>
    ensures { GivesBy (λ v. (v.0, v.1.0)) (λ x. (x.0, x.1.now)) result (read_part (ref (grammar.Assertion None) ▸ ref (grammar.Body depth)) tokens.now) }
{
    let (invariant, rest) = assertion(alloc, tokens, None)?;
    let ((body, _), rest) = body(alloc, rest, depth)?;
    Ok(((invariant, body), rest))
}

/// A `while`.
#[cycle(statements)]
#[tactic(auto, using(crate::proofs::Certificate::by_rule))]
fn while_statement(alloc: Global, tokens: &[Token], depth: u32) -> Read<'_, Stmt>
    ensures { Gives (λ x. (x.0, x.1.now)) result (read (grammar.While depth) tokens.now) }
{
    let (first, rest) = take(tokens, WHILE, None)?;
    let at = first.at;
    let (test, rest) = test(alloc, rest)?;
    let (second, rest) = take(rest, INVARIANT, None)?;
    let place = second.at;
    let ((invariant, body), rest) = invariant_and_body(alloc, rest, depth)?;
    let kind = StmtKind::While {
        test,
        place,
        invariant,
        body,
    };
    Ok((Stmt { at, kind }, rest))
}

/// What `find` and `walk` go over, and their body.
#[cycle(statements)]
fn over_and_body(alloc: Global, tokens: &[Token], depth: u32) -> Read<'_, (Over, List<Stmt>)>
    ensures { GivesBy (λ v. (v.0, v.1.0)) (λ x. (x.0, x.1.now)) result (read_part (ref grammar.Over ▸ ref (grammar.Body depth)) tokens.now) }
{
    let (over, rest) = over(alloc, tokens)?;
    let ((body, _), rest) = body(alloc, rest, depth)?;
    Ok(((over, body), rest))
}

/// `for` and what `find` looks for, and then as for `walk`.
#[cycle(statements)]
fn key_and_body(
    alloc: Global,
    tokens: &[Token],
    depth: u32,
) -> Read<'_, (Operand, (Over, List<Stmt>))>
    ensures { GivesBy (λ v. (v.1.0.1, (v.1.1.0, v.1.1.1.0))) (λ x. (x.0, x.1.now)) result (read_part (grammar.sign classes.FOR ▸ ref grammar.Operand ▸ ref grammar.Over ▸ ref (grammar.Body depth)) tokens.now) }
{
    let (_, rest) = take(tokens, FOR, None)?;
    let (key, rest) = operand(alloc, rest)?;
    let (turn, rest) = over_and_body(alloc, rest, depth)?;
    Ok(((key.1, turn), rest))
}

/// A `find` of these parts.
fn find_of(node: Name, value: Name, key: Operand, over: Over, body: List<Stmt>) -> StmtKind
    ensures { result ≡ StmtKind.Find node value key over.list over.seq over.seen over.rest over.keep body }
{
    StmtKind::Find {
        node,
        value,
        key,
        list: over.list,
        seq: over.seq,
        seen: over.seen,
        rest: over.rest,
        keep: over.keep,
        body,
    }
}

/// A `walk` of these parts.
fn walk_of(node: Name, value: Name, over: Over, body: List<Stmt>) -> StmtKind
    ensures { result ≡ StmtKind.Walk node value over.list over.seq over.seen over.rest over.keep body }
{
    StmtKind::Walk {
        node,
        value,
        list: over.list,
        seq: over.seq,
        seen: over.seen,
        rest: over.rest,
        keep: over.keep,
        body,
    }
}

/// A `find`.
#[cycle(statements)]
#[tactic(auto, using(crate::proofs::Certificate::by_rule))]
fn find_statement(alloc: Global, tokens: &[Token], depth: u32) -> Read<'_, Stmt>
    ensures { Gives (λ x. (x.0, x.1.now)) result (read (grammar.Find depth) tokens.now) }
{
    let (first, rest) = take(tokens, FIND, None)?;
    let at = first.at;
    let (node, rest) = name(alloc, rest, None)?;
    let (_, rest) = take(rest, COMMA, None)?;
    let (value, rest) = name(alloc, rest, None)?;
    let ((key, (over, body)), rest) = key_and_body(alloc, rest, depth)?;
    let kind = find_of(node, value, key, over, body);
    Ok((Stmt { at, kind }, rest))
}

/// A `walk`.
#[cycle(statements)]
#[tactic(auto, using(crate::proofs::Certificate::by_rule))]
fn walk_statement(alloc: Global, tokens: &[Token], depth: u32) -> Read<'_, Stmt>
    ensures { Gives (λ x. (x.0, x.1.now)) result (read (grammar.Walk depth) tokens.now) }
{
    let (first, rest) = take(tokens, WALK, None)?;
    let at = first.at;
    let (node, rest) = name(alloc, rest, None)?;
    let (_, rest) = take(rest, COMMA, None)?;
    let (value, rest) = name(alloc, rest, None)?;
    let ((over, body), rest) = over_and_body(alloc, rest, depth)?;
    let kind = walk_of(node, value, over, body);
    Ok((Stmt { at, kind }, rest))
}
