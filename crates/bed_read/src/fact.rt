//! Pure facts.
ghost use Rattle.std.specs.Prelude.{◌≡◌};
ghost use Rattle.bed_grammar.specs.Exact.{peek};
ghost use Rattle.bed_grammar.specs.Tables.{class_at, has};
ghost use Rattle.bed_grammar.specs.Gives.{Gives, GivesBy};
ghost use Rattle.bed_grammar.specs.Grammar.{ref};
ghost use Rattle.bed_read.specs.Classes as classes;
ghost use Rattle.bed_read.specs.Classes.{class};
ghost use Rattle.bed_read.specs.Trees.{fact_of, summed, word_of};
ghost use Rattle.bed_read.specs.Written as grammar;
ghost use Rattle.bed_read.specs.Written.{◌▸◌};
ghost use Rattle.bed_read.specs.Tables.{firsts, read, read_part};

use crate::class::{
    AT_MOST, CODE, COMMA, EQUAL, IN, LEFT_PAREN, LESS, NAME, NOTIN, RIGHT_PAREN, SAME, UNEQUAL,
};
use crate::leaf::{limit_at, name};
use crate::parts::{Piece, Tail};
use crate::sequence::{begins_plain_seq, plain_seq, seq};
use crate::token::{Read, looks_at, looks_at_any, take};
use crate::word::{into_word, start, sum_from, word};
use bed_lang::{Name, Pure, Rel, Seq, Var, Which, Word};
use bed_lex::Token;
use std::alloc::Global;

/// A comparison.
#[tactic(auto, using(crate::proofs::Certificate::by_rule))]
pub(crate) fn relation(tokens: &[Token]) -> Read<'_, Rel>
    ensures { Gives (λ x. (x.0, x.1.now)) result (read grammar.Rel tokens.now) }
{
    if looks_at(tokens, EQUAL) {
        let (_, rest) = take(tokens, EQUAL, None)?;
        Ok((Rel::Equal, rest))
    } else if looks_at(tokens, UNEQUAL) {
        let (_, rest) = take(tokens, UNEQUAL, None)?;
        Ok((Rel::Unequal, rest))
    } else if looks_at(tokens, LESS) {
        let (_, rest) = take(tokens, LESS, None)?;
        Ok((Rel::Less, rest))
    } else {
        let (_, rest) = take(tokens, AT_MOST, None)?;
        Ok((Rel::AtMost, rest))
    }
}

/// Whether a comparison stands here.
fn begins_relation(tokens: &[Token]) -> bool
    ensures { result ≡ has (firsts grammar.Rel) (class_at class (peek tokens.now)) }
{
    looks_at_any(tokens, &[LESS, AT_MOST, EQUAL, UNEQUAL])
}

/// `in`, which is true, or `notin`.
#[tactic(auto, using(crate::proofs::Certificate::by_rule))]
fn is_member(tokens: &[Token]) -> Read<'_, bool>
    ensures { Gives (λ x. (x.0, x.1.now)) result (read grammar.Membership tokens.now) }
{
    if looks_at(tokens, IN) {
        let (_, rest) = take(tokens, IN, None)?;
        Ok((true, rest))
    } else {
        let (_, rest) = take(tokens, NOTIN, None)?;
        Ok((false, rest))
    }
}

/// The fact that begins with the word `first` and goes on so.
fn into_fact(first: Word, tail: Tail) -> Pure
    ensures { result ≡ fact_of first tail }
{
    match tail {
        Tail::Compared(Rel::Equal, right) => Pure::Equal(first, right),
        Tail::Compared(Rel::Unequal, right) => Pure::Unequal(first, right),
        Tail::Compared(Rel::Less, right) => Pure::Less(first, right),
        Tail::Compared(Rel::AtMost, right) => Pure::AtMost(first, right),
        Tail::Belongs(true, seq) => Pure::Member(first, seq),
        Tail::Belongs(false, seq) => Pure::NonMember(first, seq),
    }
}

/// `,`, a name and `)`.
fn last_name(alloc: Global, tokens: &[Token]) -> Read<'_, Name>
    ensures { GivesBy (λ v. v.1.0) (λ x. (x.0, x.1.now)) result (read_part (grammar.sign classes.COMMA ▸ grammar.name ▸ grammar.sign classes.RIGHT_PAREN) tokens.now) }
{
    let (_, rest) = take(tokens, COMMA, None)?;
    let (name, rest) = name(alloc, rest, None)?;
    let (_, rest) = take(rest, RIGHT_PAREN, None)?;
    Ok((name, rest))
}

/// `code(word, name)`.
#[tactic(auto, using(crate::proofs::Certificate::by_rule))]
fn code_fact(alloc: Global, tokens: &[Token], depth: u32) -> Read<'_, Pure>
    ensures { Gives (λ x. (x.0, x.1.now)) result (read (grammar.CodeFact depth) tokens.now) }
{
    let (_, rest) = take(tokens, CODE, None)?;
    let (_, rest) = take(rest, LEFT_PAREN, limit_at(Which::Nesting, depth))?;
    let (word, rest) = word(alloc, rest, depth - 1)?;
    let (name, rest) = last_name(alloc, rest)?;
    Ok((Pure::Code(word, name), rest))
}

/// What follows the first word of a fact.
#[tactic(auto, using(crate::proofs::Certificate::by_rule))]
fn tail(alloc: Global, tokens: &[Token], depth: u32) -> Read<'_, Tail>
    ensures { Gives (λ x. (x.0, x.1.now)) result (read (grammar.Tail depth) tokens.now) }
{
    if begins_relation(tokens) {
        let (relation, rest) = relation(tokens)?;
        let (right, rest) = word(alloc, rest, depth)?;
        Ok((Tail::Compared(relation, right), rest))
    } else {
        let (belongs, rest) = is_member(tokens)?;
        let (seq, rest) = seq(alloc, rest, depth)?;
        Ok((Tail::Belongs(belongs, seq), rest))
    }
}

/// `==` and a sequence.
fn same_seq(alloc: Global, tokens: &[Token], depth: u32) -> Read<'_, Seq>
    ensures { GivesBy (λ v. v.1) (λ x. (x.0, x.1.now)) result (read_part (grammar.sign classes.SAME ▸ ref (grammar.Seq depth)) tokens.now) }
{
    let (_, rest) = take(tokens, SAME, None)?;
    let (seq, rest) = seq(alloc, rest, depth)?;
    Ok((seq, rest))
}

/// A fact, from the first part of its first word on.
fn fact_from(alloc: Global, first: Piece, tokens: &[Token], depth: u32) -> Read<'_, Pure>
    ensures { GivesBy (λ v. fact_of (word_of (summed first v.0)) v.1) (λ x. (x.0, x.1.now)) result (read_part (ref (grammar.Sums 255 depth) ▸ ref (grammar.Tail depth)) tokens.now) }
{
    let (left, rest) = sum_from(alloc, first, tokens, depth)?;
    let (tail, rest) = tail(alloc, rest, depth)?;
    Ok((into_fact(into_word(left), tail), rest))
}

/// A pure fact inside so many more brackets.
#[tactic(auto, using(crate::proofs::Certificate::by_rule))]
pub(crate) fn pure(alloc: Global, tokens: &[Token], depth: u32) -> Read<'_, Pure>
    ensures { Gives (λ x. (x.0, x.1.now)) result (read (grammar.Pure depth) tokens.now) }
{
    if looks_at(tokens, NAME) {
        let (name, rest) = name(alloc, tokens, None)?;
        if looks_at(rest, SAME) {
            let (right, rest) = same_seq(alloc, rest, depth)?;
            Ok((Pure::Same(Seq::Var(Var::Named(name)), right), rest))
        } else {
            let (fact, rest) = fact_from(alloc, Piece::Name(name), rest, depth)?;
            Ok((fact, rest))
        }
    } else if looks_at(tokens, CODE) {
        let (fact, rest) = code_fact(alloc, tokens, depth)?;
        Ok((fact, rest))
    } else if begins_plain_seq(tokens) {
        let ((_, left), rest) = plain_seq(alloc, tokens, depth)?;
        let (right, rest) = same_seq(alloc, rest, depth)?;
        Ok((Pure::Same(left, right), rest))
    } else {
        let (piece, rest) = start(alloc, tokens, None, depth)?;
        let (fact, rest) = fact_from(alloc, piece, rest, depth)?;
        Ok((fact, rest))
    }
}
