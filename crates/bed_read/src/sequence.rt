//! Sequences and arguments.
ghost use Rattle.std.specs.Prelude.{◌≡◌, ◌∷◌, ◌-◌, IfOk};
ghost use Rattle.bed_grammar.specs.Exact.{peek};
ghost use Rattle.bed_grammar.specs.Tables.{class_at, has};
ghost use Rattle.bed_grammar.specs.Parsing.{outcome_map};
ghost use Rattle.bed_grammar.specs.Grammar.{ref, token};
ghost use Rattle.bed_grammar.specs.Gives.{Gives, GivesBy};
ghost use Rattle.bed_lang.specs.declared.limit.Which.TheVariants as limit;
ghost use Rattle.bed_lang.specs.declared.word.Seq as sequence;
ghost use Rattle.bed_read.specs.Classes as classes;
ghost use Rattle.bed_read.specs.Classes.{class};
ghost use Rattle.bed_read.specs.Trees.{word_argument, hole};
ghost use Rattle.bed_read.specs.Written as grammar;
ghost use Rattle.bed_read.specs.Written.{◌▸◌, past};
ghost use Rattle.bed_read.specs.Tables.{firsts, read, read_part};

use crate::class::{
    AMPERSAND, APP, COMMA, CONS, HOLE, LARGE_NUMBER, LEFT_PAREN, NAME, NIL, NUMBER, OLD, RESULT,
    RIGHT_PAREN,
};
use crate::leaf::{limit_at, name};
use crate::parts::Piece;
use crate::token::{Read, looks_at, looks_at_any, take};
use crate::word::{sum, word};
use bed_lang::{Arg, Box, List, Name, Seq, Var, Which, Word};
use bed_lex::Token;
use std::alloc::{AllocError, Global};

/// A sequence inside so many more brackets.
#[cycle(sequences)]
#[tactic(auto, using(crate::proofs::Certificate::by_rule))]
pub(crate) fn seq(alloc: Global, tokens: &[Token], depth: u32) -> Read<'_, Seq>
    ensures { Gives (λ x. (x.0, x.1.now)) result (read (grammar.Seq depth) tokens.now) }
{
    if looks_at(tokens, NAME) {
        let (name, rest) = name(alloc, tokens, None)?;
        Ok((Seq::Var(Var::Named(name)), rest))
    } else {
        let ((_, seq), rest) = plain_seq(alloc, tokens, depth)?;
        Ok((seq, rest))
    }
}

/// A word, in a box.
fn boxed_word(alloc: Global, tokens: &[Token], depth: u32) -> Read<'_, Box<Word>>
    ensures { Gives (λ x. (x.0, x.1.now)) result (read (grammar.Word depth) tokens.now) }
{
    let (word, rest) = word(alloc, tokens, depth)?;
    Ok((Box::new(alloc, word)?, rest))
}

/// A sequence, in a box.
#[cycle(sequences)]
fn boxed_seq(alloc: Global, tokens: &[Token], depth: u32) -> Read<'_, Box<Seq>>
    ensures { Gives (λ x. (x.0, x.1.now)) result (read (grammar.Seq depth) tokens.now) }
{
    let (seq, rest) = seq(alloc, tokens, depth)?;
    Ok((Box::new(alloc, seq)?, rest))
}

/// `,`, a sequence and `)`.
#[cycle(sequences)]
fn last_seq(alloc: Global, tokens: &[Token], depth: u32) -> Read<'_, Box<Seq>>
    ensures { GivesBy (λ v. v.1.0) (λ x. (x.0, x.1.now)) result (read_part (grammar.sign classes.COMMA ▸ ref (grammar.Seq depth) ▸ grammar.sign classes.RIGHT_PAREN) tokens.now) }
{
    let (_, rest) = take(tokens, COMMA, None)?;
    let (seq, rest) = boxed_seq(alloc, rest, depth)?;
    let (_, rest) = take(rest, RIGHT_PAREN, None)?;
    Ok((seq, rest))
}

/// `cons(word, seq)`, with its place.
#[cycle(sequences)]
fn cons(alloc: Global, tokens: &[Token], depth: u32) -> Read<'_, (u32, Seq)>
    ensures { Gives (λ x. (x.0, x.1.now)) result (outcome_map (λ v. (v.0.at, sequence.Cons v.1.1.0 v.1.1.1.1.0))
        (read_part (grammar.sign classes.CONS ▸ token classes.LEFT_PAREN (past limit.Nesting depth) ▸ ref (grammar.Word (depth - 1)) ▸ grammar.sign classes.COMMA ▸ ref (grammar.Seq (depth - 1)) ▸ grammar.sign classes.RIGHT_PAREN) tokens.now)) }
{
    let (first, rest) = take(tokens, CONS, None)?;
    let (_, rest) = take(rest, LEFT_PAREN, limit_at(Which::Nesting, depth))?;
    let (head, rest) = boxed_word(alloc, rest, depth - 1)?;
    let (tail, rest) = last_seq(alloc, rest, depth - 1)?;
    Ok(((first.at, Seq::Cons(head, tail)), rest))
}

/// `app(seq, seq)`, with its place.
#[cycle(sequences)]
fn app(alloc: Global, tokens: &[Token], depth: u32) -> Read<'_, (u32, Seq)>
    ensures { Gives (λ x. (x.0, x.1.now)) result (outcome_map (λ v. (v.0.at, sequence.App v.1.1.0 v.1.1.1.1.0))
        (read_part (grammar.sign classes.APP ▸ token classes.LEFT_PAREN (past limit.Nesting depth) ▸ ref (grammar.Seq (depth - 1)) ▸ grammar.sign classes.COMMA ▸ ref (grammar.Seq (depth - 1)) ▸ grammar.sign classes.RIGHT_PAREN) tokens.now)) }
{
    let (first, rest) = take(tokens, APP, None)?;
    let (_, rest) = take(rest, LEFT_PAREN, limit_at(Which::Nesting, depth))?;
    let (left, rest) = boxed_seq(alloc, rest, depth - 1)?;
    let (right, rest) = last_seq(alloc, rest, depth - 1)?;
    Ok(((first.at, Seq::App(left, right)), rest))
}

/// A sequence that is no name, with its place.
#[cycle(sequences)]
#[tactic(auto, using(crate::proofs::Certificate::by_rule, crate::proofs::Certificate::gives_by, bed_grammar::proofs::Reading::outcome_map_twice))]
pub(crate) fn plain_seq(alloc: Global, tokens: &[Token], depth: u32) -> Read<'_, (u32, Seq)>
    ensures { Gives (λ x. (x.0, x.1.now)) result (read (grammar.PlainSeq depth) tokens.now) }
{
    if looks_at(tokens, NIL) {
        let (first, rest) = take(tokens, NIL, None)?;
        Ok(((first.at, Seq::Nil), rest))
    } else if looks_at(tokens, CONS) {
        cons(alloc, tokens, depth)
    } else {
        app(alloc, tokens, depth)
    }
}

/// Whether a sequence that is no name begins here.
pub(crate) fn begins_plain_seq(tokens: &[Token]) -> bool
    ensures { result ≡ has (firsts (grammar.PlainSeq 0)) (class_at class (peek tokens.now)) }
{
    looks_at_any(tokens, &[NIL, CONS, APP])
}

/// The argument that a piece is.
fn into_argument(piece: Piece) -> Arg
    ensures { result ≡ word_argument piece }
{
    match piece {
        Piece::Name(name) => Arg::Bare(name),
        Piece::Word(at, word) => Arg::Word(at, word),
    }
}

/// An argument that is no hole.
#[tactic(auto, using(crate::proofs::Certificate::by_rule))]
pub(crate) fn arg(alloc: Global, tokens: &[Token], depth: u32) -> Read<'_, Arg>
    ensures { Gives (λ x. (x.0, x.1.now)) result (read (grammar.Arg depth) tokens.now) }
{
    if begins_plain_seq(tokens) {
        let ((at, seq), rest) = plain_seq(alloc, tokens, depth)?;
        Ok((Arg::Seq(at, seq), rest))
    } else {
        let (piece, rest) = sum(alloc, tokens, None, depth)?;
        Ok((into_argument(piece), rest))
    }
}

/// Whether an argument that is no hole begins here.
fn begins_arg(tokens: &[Token]) -> bool
    ensures { result ≡ has (firsts (grammar.Arg 0)) (class_at class (peek tokens.now)) }
{
    looks_at_any(
        tokens,
        &[
            NAME,
            NUMBER,
            LARGE_NUMBER,
            NIL,
            CONS,
            APP,
            OLD,
            RESULT,
            LEFT_PAREN,
            AMPERSAND,
        ],
    )
}

/// Arguments with commas between them, or none.
#[tactic(auto, using(crate::proofs::Certificate::by_rule, crate::proofs::Certificate::gives_by, bed_grammar::proofs::Reading::outcome_map_twice))]
pub(crate) fn args(alloc: Global, tokens: &[Token], depth: u32) -> Read<'_, List<Arg>>
    ensures { Gives (λ x. (x.0, x.1.now)) result (read (grammar.Args depth) tokens.now) }
{
    if begins_arg(tokens) {
        let (first, rest) = arg(alloc, tokens, depth)?;
        more_args(alloc, first, rest, depth)
    } else {
        Ok((List::new(alloc), tokens))
    }
}

/// The arguments after the first, each with a comma before it.
#[tactic(auto, using(crate::proofs::Certificate::by_rule, crate::proofs::Shorter::shorter_arg, bed_grammar::proofs::Reading::outcome_map_twice))]
fn more_args(alloc: Global, first: Arg, tokens: &[Token], depth: u32) -> Read<'_, List<Arg>>
    ensures { Gives (λ x. (x.0, x.1.now)) result (outcome_map (λ xs. first ∷ xs) (read (grammar.MoreArgs depth) tokens.now)) }
{
    let mut out = List::new(alloc);
    out.push(first)?;
    let mut rest = tokens;
    while looks_at(rest, COMMA) {
        let (_, after) = take(rest, COMMA, None)?;
        let (next, after) = arg(alloc, after, depth)?;
        out.push(next)?;
        rest = after;
    }
    Ok((out, rest))
}

/// The argument `_`.
fn hole_at(alloc: Global, at: u32) -> Result<Arg, AllocError>
    ensures { IfOk result (λ a. a ≡ hole at) }
{
    Ok(Arg::Bare(Name {
        bytes: List::from_slice(alloc, &[b'_'])?,
        at,
    }))
}

/// An argument, or a hole.
#[tactic(auto, using(crate::proofs::Certificate::by_rule))]
pub(crate) fn hole_arg(alloc: Global, tokens: &[Token], depth: u32) -> Read<'_, Arg>
    ensures { Gives (λ x. (x.0, x.1.now)) result (read (grammar.HoleArg depth) tokens.now) }
{
    if looks_at(tokens, HOLE) {
        let (first, rest) = take(tokens, HOLE, None)?;
        Ok((hole_at(alloc, first.at)?, rest))
    } else {
        arg(alloc, tokens, depth)
    }
}

/// Whether an argument or a hole begins here.
fn begins_hole_arg(tokens: &[Token]) -> bool
    ensures { result ≡ has (firsts (grammar.HoleArg 0)) (class_at class (peek tokens.now)) }
{
    looks_at_any(
        tokens,
        &[
            NAME,
            NUMBER,
            LARGE_NUMBER,
            NIL,
            CONS,
            APP,
            OLD,
            RESULT,
            LEFT_PAREN,
            AMPERSAND,
            HOLE,
        ],
    )
}

/// Arguments or holes with commas between them, or none.
#[tactic(auto, using(crate::proofs::Certificate::by_rule, crate::proofs::Certificate::gives_by, bed_grammar::proofs::Reading::outcome_map_twice))]
pub(crate) fn hole_args(alloc: Global, tokens: &[Token], depth: u32) -> Read<'_, List<Arg>>
    ensures { Gives (λ x. (x.0, x.1.now)) result (read (grammar.HoleArgs depth) tokens.now) }
{
    if begins_hole_arg(tokens) {
        let (first, rest) = hole_arg(alloc, tokens, depth)?;
        more_hole_args(alloc, first, rest, depth)
    } else {
        Ok((List::new(alloc), tokens))
    }
}

/// The arguments or holes after the first, each with a comma before it.
#[tactic(auto, using(crate::proofs::Certificate::by_rule, crate::proofs::Shorter::shorter_hole_arg, bed_grammar::proofs::Reading::outcome_map_twice))]
fn more_hole_args(alloc: Global, first: Arg, tokens: &[Token], depth: u32) -> Read<'_, List<Arg>>
    ensures { Gives (λ x. (x.0, x.1.now)) result (outcome_map (λ xs. first ∷ xs) (read (grammar.MoreHoleArgs depth) tokens.now)) }
{
    let mut out = List::new(alloc);
    out.push(first)?;
    let mut rest = tokens;
    while looks_at(rest, COMMA) {
        let (_, after) = take(rest, COMMA, None)?;
        let (next, after) = hole_arg(alloc, after, depth)?;
        out.push(next)?;
        rest = after;
    }
    Ok((out, rest))
}
