//! Hints.
ghost use Rattle.std.specs.Prelude.{◌≡◌, ◌∷◌};
ghost use Rattle.bed_grammar.specs.Exact.{peek};
ghost use Rattle.bed_grammar.specs.Tables.{class_at, has};
ghost use Rattle.bed_grammar.specs.Parsing.{outcome_map};
ghost use Rattle.bed_grammar.specs.Gives.{Gives, GivesBy};
ghost use Rattle.bed_grammar.specs.Grammar.{ref};
ghost use Rattle.bed_lang.specs.declared.module.Hint.TheVariants as hints;
ghost use Rattle.bed_read.specs.Classes as classes;
ghost use Rattle.bed_read.specs.Classes.{class};
ghost use Rattle.bed_read.specs.Written as grammar;
ghost use Rattle.bed_read.specs.Written.{◌▸◌};
ghost use Rattle.bed_read.specs.Tables.{firsts, read, read_part};

use crate::class::{
    APPEND, AT, BYTES, CASE, CELL, CLAIM, COMMA, DIVIDE, DROP, EQUAL, FOLD, GIVE, LEFT_PAREN,
    MERGE, RIGHT_PAREN, UNCELL, UNFOLD, USING, WHEN, WORD,
};
use crate::fact::pure;
use crate::leaf::{name, number};
use crate::sequence::{arg, hole_args};
use crate::token::{Read, looks_at, looks_at_any, take};
use crate::word::word;
use bed_lang::{Arg, Hint, List, Pure, Word};
use bed_lex::Token;
use std::alloc::Global;

/// `at` and a word, or nothing.
#[tactic(auto, using(crate::proofs::Certificate::by_rule))]
fn at_word(alloc: Global, tokens: &[Token]) -> Read<'_, Option<Word>>
    ensures { Gives (λ x. (x.0, x.1.now)) result (read grammar.At tokens.now) }
{
    if looks_at(tokens, AT) {
        let (_, rest) = take(tokens, AT, None)?;
        let (word, rest) = word(alloc, rest, 64)?;
        Ok((Some(word), rest))
    } else {
        Ok((None, tokens))
    }
}

/// `)`, `case` and a number.
fn case_number(tokens: &[Token]) -> Read<'_, u32>
    ensures { GivesBy (λ v. v.1.1.1) (λ x. (x.0, x.1.now)) result (read_part (grammar.sign classes.RIGHT_PAREN ▸ grammar.sign classes.CASE ▸ grammar.number) tokens.now) }
{
    let (_, rest) = take(tokens, RIGHT_PAREN, None)?;
    let (_, rest) = take(rest, CASE, None)?;
    let ((_, case), rest) = number(rest, None)?;
    Ok((case, rest))
}

/// `fold`.
fn fold_hint(alloc: Global, tokens: &[Token]) -> Read<'_, Hint>
    ensures { Gives (λ x. (x.0, x.1.now)) result (outcome_map (λ v. hints.Fold v.1.0 v.1.1.1.0 v.1.1.1.1.1.1.1)
        (read_part (grammar.sign classes.FOLD ▸ grammar.name ▸ grammar.sign classes.LEFT_PAREN ▸ ref (grammar.HoleArgs 64) ▸ grammar.sign classes.RIGHT_PAREN ▸ grammar.sign classes.CASE ▸ grammar.number) tokens.now)) }
{
    let (_, rest) = take(tokens, FOLD, None)?;
    let (name, rest) = name(alloc, rest, None)?;
    let (_, rest) = take(rest, LEFT_PAREN, None)?;
    let (args, rest) = hole_args(alloc, rest, 64)?;
    let (case, rest) = case_number(rest)?;
    Ok((Hint::Fold(name, args, case), rest))
}

/// `unfold` or `fold`.
#[tactic(auto, using(crate::proofs::Certificate::by_rule, crate::proofs::Certificate::gives_by, bed_grammar::proofs::Reading::outcome_map_twice))]
fn predicate_hint(alloc: Global, tokens: &[Token]) -> Read<'_, Hint>
    ensures { Gives (λ x. (x.0, x.1.now)) result (read grammar.PredicateHint tokens.now) }
{
    if looks_at(tokens, UNFOLD) {
        let (_, rest) = take(tokens, UNFOLD, None)?;
        let (name, rest) = name(alloc, rest, None)?;
        let (at, rest) = at_word(alloc, rest)?;
        Ok((Hint::Unfold(name, at), rest))
    } else {
        fold_hint(alloc, tokens)
    }
}

/// A token of this class, and then a word.
fn word_after(alloc: Global, tokens: &[Token], wanted: u32) -> Read<'_, Word>
    ensures { GivesBy (λ v. v.1) (λ x. (x.0, x.1.now)) result (read_part (grammar.sign wanted ▸ ref (grammar.Word 64)) tokens.now) }
{
    let (_, rest) = take(tokens, wanted, None)?;
    let (word, rest) = word(alloc, rest, 64)?;
    Ok((word, rest))
}

/// `append`, `divide` or `merge`.
#[tactic(auto, using(crate::proofs::Certificate::by_rule))]
fn block_hint(alloc: Global, tokens: &[Token]) -> Read<'_, Hint>
    ensures { Gives (λ x. (x.0, x.1.now)) result (read grammar.BlockHint tokens.now) }
{
    if looks_at(tokens, APPEND) {
        let (word, rest) = word_after(alloc, tokens, APPEND)?;
        Ok((Hint::Append(word), rest))
    } else if looks_at(tokens, DIVIDE) {
        let (_, rest) = take(tokens, DIVIDE, None)?;
        let (first, rest) = word(alloc, rest, 64)?;
        let (second, rest) = word_after(alloc, rest, COMMA)?;
        Ok((Hint::Divide(first, second), rest))
    } else {
        let (_, rest) = take(tokens, MERGE, None)?;
        let (first, rest) = word(alloc, rest, 64)?;
        let (second, rest) = word_after(alloc, rest, COMMA)?;
        Ok((Hint::Merge(first, second), rest))
    }
}

/// `bytes`, `word`, `cell`, `uncell` or `drop`.
#[tactic(auto, using(crate::proofs::Certificate::by_rule))]
fn cell_hint(alloc: Global, tokens: &[Token]) -> Read<'_, Hint>
    ensures { Gives (λ x. (x.0, x.1.now)) result (read grammar.CellHint tokens.now) }
{
    if looks_at(tokens, BYTES) {
        let (word, rest) = word_after(alloc, tokens, BYTES)?;
        Ok((Hint::Bytes(word), rest))
    } else if looks_at(tokens, WORD) {
        let (word, rest) = word_after(alloc, tokens, WORD)?;
        Ok((Hint::Word(word), rest))
    } else if looks_at(tokens, CELL) {
        let (word, rest) = word_after(alloc, tokens, CELL)?;
        Ok((Hint::Cell(word), rest))
    } else if looks_at(tokens, UNCELL) {
        let (word, rest) = word_after(alloc, tokens, UNCELL)?;
        Ok((Hint::Uncell(word), rest))
    } else {
        let (word, rest) = word_after(alloc, tokens, DROP)?;
        Ok((Hint::Drop(word), rest))
    }
}

/// A token of this class, and then a pure fact.
fn fact_after(alloc: Global, tokens: &[Token], wanted: u32) -> Read<'_, Pure>
    ensures { GivesBy (λ v. v.1) (λ x. (x.0, x.1.now)) result (read_part (grammar.sign wanted ▸ ref (grammar.Pure 64)) tokens.now) }
{
    let (_, rest) = take(tokens, wanted, None)?;
    let (fact, rest) = pure(alloc, rest, 64)?;
    Ok((fact, rest))
}

/// `=` and an argument.
fn given_arg(alloc: Global, tokens: &[Token]) -> Read<'_, Arg>
    ensures { GivesBy (λ v. v.1) (λ x. (x.0, x.1.now)) result (read_part (grammar.sign classes.EQUAL ▸ ref (grammar.Arg 64)) tokens.now) }
{
    let (_, rest) = take(tokens, EQUAL, None)?;
    let (arg, rest) = arg(alloc, rest, 64)?;
    Ok((arg, rest))
}

/// `claim`, `when` or `give`.
#[tactic(auto, using(crate::proofs::Certificate::by_rule))]
fn fact_hint(alloc: Global, tokens: &[Token]) -> Read<'_, Hint>
    ensures { Gives (λ x. (x.0, x.1.now)) result (read grammar.FactHint tokens.now) }
{
    if looks_at(tokens, CLAIM) {
        let (fact, rest) = fact_after(alloc, tokens, CLAIM)?;
        Ok((Hint::Claim(fact), rest))
    } else if looks_at(tokens, WHEN) {
        let (fact, rest) = fact_after(alloc, tokens, WHEN)?;
        Ok((Hint::When(fact), rest))
    } else {
        let (_, rest) = take(tokens, GIVE, None)?;
        let (name, rest) = name(alloc, rest, None)?;
        let (arg, rest) = given_arg(alloc, rest)?;
        Ok((Hint::Give(name, arg), rest))
    }
}

/// Whether `unfold` or `fold` stands here.
fn begins_predicate_hint(tokens: &[Token]) -> bool
    ensures { result ≡ has (firsts grammar.PredicateHint) (class_at class (peek tokens.now)) }
{
    looks_at_any(tokens, &[UNFOLD, FOLD])
}

/// Whether `append`, `divide` or `merge` stands here.
fn begins_block_hint(tokens: &[Token]) -> bool
    ensures { result ≡ has (firsts grammar.BlockHint) (class_at class (peek tokens.now)) }
{
    looks_at_any(tokens, &[APPEND, DIVIDE, MERGE])
}

/// Whether `bytes`, `word`, `cell`, `uncell` or `drop` stands here.
fn begins_cell_hint(tokens: &[Token]) -> bool
    ensures { result ≡ has (firsts grammar.CellHint) (class_at class (peek tokens.now)) }
{
    looks_at_any(tokens, &[WORD, BYTES, CELL, UNCELL, DROP])
}

/// A hint.
#[tactic(auto, using(crate::proofs::Certificate::by_rule))]
pub(crate) fn hint(alloc: Global, tokens: &[Token]) -> Read<'_, Hint>
    ensures { Gives (λ x. (x.0, x.1.now)) result (read grammar.Hint tokens.now) }
{
    if begins_predicate_hint(tokens) {
        predicate_hint(alloc, tokens)
    } else if begins_block_hint(tokens) {
        block_hint(alloc, tokens)
    } else if begins_cell_hint(tokens) {
        cell_hint(alloc, tokens)
    } else {
        fact_hint(alloc, tokens)
    }
}

/// The hints after the first, each with a comma before it.
#[tactic(auto, using(crate::proofs::Certificate::by_rule, crate::proofs::Shorter::shorter_hint, bed_grammar::proofs::Reading::outcome_map_twice))]
fn more_hints(alloc: Global, first: Hint, tokens: &[Token]) -> Read<'_, List<Hint>>
    ensures { Gives (λ x. (x.0, x.1.now)) result (outcome_map (λ xs. first ∷ xs) (read grammar.Hints tokens.now)) }
{
    let mut out = List::new(alloc);
    out.push(first)?;
    let mut rest = tokens;
    while looks_at(rest, COMMA) {
        let (_, after) = take(rest, COMMA, None)?;
        let (next, after) = hint(alloc, after)?;
        out.push(next)?;
        rest = after;
    }
    Ok((out, rest))
}

/// `using` and hints, or nothing.
#[tactic(auto, using(crate::proofs::Certificate::by_rule, crate::proofs::Certificate::gives_by, bed_grammar::proofs::Reading::outcome_map_twice))]
pub(crate) fn using_hints(alloc: Global, tokens: &[Token]) -> Read<'_, List<Hint>>
    ensures { Gives (λ x. (x.0, x.1.now)) result (read grammar.Using tokens.now) }
{
    if looks_at(tokens, USING) {
        let (_, rest) = take(tokens, USING, None)?;
        let (first, rest) = hint(alloc, rest)?;
        more_hints(alloc, first, rest)
    } else {
        Ok((List::new(alloc), tokens))
    }
}
