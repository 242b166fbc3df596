//! Terms and assertions.
ghost use Rattle.std.specs.Prelude.{◌≡◌, ◌∷◌, IfOk, None};
ghost use Rattle.bed_grammar.specs.Parsing.{outcome_map};
ghost use Rattle.bed_grammar.specs.Gives.{Gives, GivesBy};
ghost use Rattle.bed_read.specs.Trees.{cell_at, summed};
ghost use Rattle.bed_grammar.specs.Grammar.{ref};
ghost use Rattle.bed_read.specs.Classes as classes;
ghost use Rattle.bed_read.specs.Written as grammar;
ghost use Rattle.bed_read.specs.Written.{◌▸◌};
ghost use Rattle.bed_read.specs.Tables.{read, read_part};

use crate::class::{
    ARROW, BLOCK, BYTE_ARROW, COMMA, DOT, EMP, EXISTS, LEFT_BRACKET, LEFT_PAREN, NAME,
    RIGHT_BRACKET, RIGHT_PAREN, STAR,
};
use crate::declaration::binds;
use crate::fact::pure;
use crate::leaf::{limit_at, name};
use crate::parts::Piece;
use crate::sequence::args;
use crate::token::{Read, looks_at, take};
use crate::word::{into_word, start, sum_from, word};
use bed_lang::{Arg, Assertion, Atom, List, Term, Which, Word};
use bed_lex::Token;
use std::alloc::Global;

/// `,`, a word and `)`.
#[tactic(auto, using(bed_grammar::proofs::Reading::gives_split))]
fn last_word(alloc: Global, tokens: &[Token], depth: u32) -> Read<'_, Word>
    ensures { GivesBy (λ v. v.1.0) (λ x. (x.0, x.1.now)) result (read_part (grammar.sign classes.COMMA ▸ ref (grammar.Word depth) ▸ grammar.sign classes.RIGHT_PAREN) tokens.now) }
{
    let (_, rest) = take(tokens, COMMA, None)?;
    let (word, rest) = word(alloc, rest, depth)?;
    let (_, rest) = take(rest, RIGHT_PAREN, None)?;
    Ok((word, rest))
}

/// `block(word, word)`, with its place.
#[tactic(auto, using(crate::proofs::Certificate::by_rule))]
fn block(alloc: Global, tokens: &[Token], limit: Option<Which>) -> Read<'_, (u32, Term)>
    ensures exact { Gives (λ x. (x.0, x.1.now)) result (read (grammar.Block limit) tokens.now) }
    ensures within { IfOk result (λ _. limit ≡ None) }
{
    let (first, rest) = take(tokens, BLOCK, limit)?;
    let (_, rest) = take(rest, LEFT_PAREN, None)?;
    let (address, rest) = word(alloc, rest, 63)?;
    let (length, rest) = last_word(alloc, rest, 63)?;
    Ok(((first.at, Term::Atom(Atom::Block(address, length))), rest))
}

/// `|->`, which is true, or `|->b`, and the word after it.
#[tactic(auto, using(crate::proofs::Certificate::by_rule))]
fn contents(alloc: Global, tokens: &[Token]) -> Read<'_, (bool, Word)>
    ensures { Gives (λ x. (x.0, x.1.now)) result (read grammar.Arrow tokens.now) }
{
    if looks_at(tokens, ARROW) {
        let (_, rest) = take(tokens, ARROW, None)?;
        let (value, rest) = word(alloc, rest, 64)?;
        Ok(((true, value), rest))
    } else {
        let (_, rest) = take(tokens, BYTE_ARROW, None)?;
        let (value, rest) = word(alloc, rest, 64)?;
        Ok(((false, value), rest))
    }
}

/// The cell of a word, or of a byte, at an address, with its place.
fn cell(address: Piece, is_word: bool, value: Word) -> (u32, Term)
    ensures { result ≡ cell_at address (is_word, value) }
{
    let at = match &address {
        Piece::Name(name) => name.at,
        Piece::Word(at, _) => *at,
    };
    let address = into_word(address);
    if is_word {
        (at, Term::Atom(Atom::Cell(address, value)))
    } else {
        (at, Term::Atom(Atom::Byte(address, value)))
    }
}

/// A pure fact in brackets, with its place.
#[tactic(auto, using(crate::proofs::Certificate::by_rule))]
fn pure_term(alloc: Global, tokens: &[Token], limit: Option<Which>) -> Read<'_, (u32, Term)>
    ensures exact { Gives (λ x. (x.0, x.1.now)) result (read (grammar.PureTerm limit) tokens.now) }
    ensures within { IfOk result (λ _. limit ≡ None) }
{
    let (first, rest) = take(tokens, LEFT_BRACKET, limit)?;
    let (fact, rest) = pure(alloc, rest, 63)?;
    let (_, rest) = take(rest, RIGHT_BRACKET, None)?;
    Ok(((first.at, Term::Pure(fact)), rest))
}

/// Arguments in brackets.
fn bracketed_args(alloc: Global, tokens: &[Token]) -> Read<'_, List<Arg>>
    ensures { GivesBy (λ v. v.1.0) (λ x. (x.0, x.1.now)) result (read_part (grammar.sign classes.LEFT_PAREN ▸ ref (grammar.Args 63) ▸ grammar.sign classes.RIGHT_PAREN) tokens.now) }
{
    let (_, rest) = take(tokens, LEFT_PAREN, None)?;
    let (args, rest) = args(alloc, rest, 63)?;
    let (_, rest) = take(rest, RIGHT_PAREN, None)?;
    Ok((args, rest))
}

/// A cell, from the first part of its address on, with its place.
fn cell_from(alloc: Global, first: Piece, tokens: &[Token]) -> Read<'_, (u32, Term)>
    ensures { GivesBy (λ v. cell_at (summed first v.0) v.1) (λ x. (x.0, x.1.now)) result (read_part (ref (grammar.Sums 255 64) ▸ ref grammar.Arrow) tokens.now) }
{
    let (address, rest) = sum_from(alloc, first, tokens, 64)?;
    let ((is_word, value), rest) = contents(alloc, rest)?;
    Ok((cell(address, is_word, value), rest))
}

/// A term that begins with a name, with its place.
#[tactic(auto, using(crate::proofs::Certificate::by_rule))]
fn name_term(alloc: Global, tokens: &[Token], limit: Option<Which>) -> Read<'_, (u32, Term)>
    ensures exact { Gives (λ x. (x.0, x.1.now)) result (read (grammar.NameTerm limit) tokens.now) }
    ensures within { IfOk result (λ _. limit ≡ None) }
{
    let (name, rest) = name(alloc, tokens, limit)?;
    if looks_at(rest, LEFT_PAREN) {
        let (args, rest) = bracketed_args(alloc, rest)?;
        Ok(((name.at, Term::Atom(Atom::Pred(name, args))), rest))
    } else {
        let (cell, rest) = cell_from(alloc, Piece::Name(name), rest)?;
        Ok((cell, rest))
    }
}

/// A cell whose address begins with no name, with its place.
#[tactic(auto, using(crate::proofs::Certificate::by_rule))]
fn start_term(alloc: Global, tokens: &[Token], limit: Option<Which>) -> Read<'_, (u32, Term)>
    ensures exact { Gives (λ x. (x.0, x.1.now)) result (read (grammar.StartTerm limit) tokens.now) }
    ensures within { IfOk result (λ _. limit ≡ None) }
{
    let (first, rest) = start(alloc, tokens, limit, 64)?;
    let (cell, rest) = cell_from(alloc, first, rest)?;
    Ok((cell, rest))
}

/// A term, with its place.
#[tactic(auto, using(crate::proofs::Certificate::by_rule))]
fn term(alloc: Global, tokens: &[Token], limit: Option<Which>) -> Read<'_, (u32, Term)>
    ensures exact { Gives (λ x. (x.0, x.1.now)) result (read (grammar.Term limit) tokens.now) }
    ensures within { IfOk result (λ _. limit ≡ None) }
{
    if looks_at(tokens, EMP) {
        let (first, rest) = take(tokens, EMP, limit)?;
        Ok(((first.at, Term::Emp), rest))
    } else if looks_at(tokens, LEFT_BRACKET) {
        pure_term(alloc, tokens, limit)
    } else if looks_at(tokens, BLOCK) {
        block(alloc, tokens, limit)
    } else if looks_at(tokens, NAME) {
        name_term(alloc, tokens, limit)
    } else {
        start_term(alloc, tokens, limit)
    }
}

/// The terms after the first, each with a `*` before it.
#[tactic(auto, using(crate::proofs::Certificate::by_rule, bed_grammar::proofs::Reading::outcome_map_twice))]
fn more_terms(alloc: Global, first: Term, tokens: &[Token], most: u32) -> Read<'_, List<Term>>
    ensures { Gives (λ x. (x.0, x.1.now)) result (outcome_map (λ xs. first ∷ xs) (read (grammar.Terms most) tokens.now)) }
{
    let mut out = List::new(alloc);
    out.push(first)?;
    let mut rest = tokens;
    let mut left = most;
    while looks_at(rest, STAR) {
        let (_, after) = take(rest, STAR, None)?;
        let (next, after) = term(alloc, after, limit_at(Which::Terms, left))?;
        out.push(next.1)?;
        rest = after;
        left -= 1;
    }
    Ok((out, rest))
}

/// The terms after the first, on top of it.
#[tactic(auto, using(bed_grammar::proofs::Reading::gives_split))]
fn terms_from(alloc: Global, first: Term, tokens: &[Token]) -> Read<'_, List<Term>>
    ensures { GivesBy (λ xs. first ∷ xs) (λ x. (x.0, x.1.now)) result (read (grammar.Terms 255) tokens.now) }
{
    more_terms(alloc, first, tokens, 255)
}

/// Terms with `*` between them, with the place of the first.
fn terms(alloc: Global, tokens: &[Token], limit: Option<Which>) -> Read<'_, (u32, List<Term>)>
    ensures exact { GivesBy (λ v. (v.0.0, v.0.1 ∷ v.1)) (λ x. (x.0, x.1.now)) result (read_part (ref (grammar.Term limit) ▸ ref (grammar.Terms 255)) tokens.now) }
    ensures within { IfOk result (λ _. limit ≡ None) }
{
    let ((at, first), rest) = term(alloc, tokens, limit)?;
    let (terms, rest) = terms_from(alloc, first, rest)?;
    Ok(((at, terms), rest))
}

/// An assertion.
#[tactic(auto, using(crate::proofs::Certificate::by_rule))]
pub(crate) fn assertion(
    alloc: Global,
    tokens: &[Token],
    limit: Option<Which>,
) -> Read<'_, Assertion>
    ensures exact { Gives (λ x. (x.0, x.1.now)) result (read (grammar.Assertion limit) tokens.now) }
    ensures within { IfOk result (λ _. limit ≡ None) }
{
    if looks_at(tokens, EXISTS) {
        let (first, rest) = take(tokens, EXISTS, limit)?;
        let at = first.at;
        let (binders, rest) = binds(alloc, rest)?;
        let (_, rest) = take(rest, DOT, None)?;
        let ((_, terms), rest) = terms(alloc, rest, None)?;
        Ok((Assertion { at, binders, terms }, rest))
    } else {
        let ((at, terms), rest) = terms(alloc, tokens, limit)?;
        let binders = List::new(alloc);
        Ok((Assertion { at, binders, terms }, rest))
    }
}
