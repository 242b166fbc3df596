//! The items of a module, and modules.
ghost use Rattle.std.specs.Prelude.{◌≡◌, ◌∷◌, None};
ghost use Rattle.bed_grammar.specs.Exact.{peek};
ghost use Rattle.bed_grammar.specs.Tables.{class_at, has};
ghost use Rattle.bed_grammar.specs.Parsing.{outcome_map};
ghost use Rattle.bed_grammar.specs.Gives.{Gives, GivesBy};
ghost use Rattle.bed_grammar.specs.Grammar.{ref};
ghost use Rattle.bed_read.specs.Classes as classes;
ghost use Rattle.bed_read.specs.Classes.{class};
ghost use Rattle.bed_read.specs.Written as grammar;
ghost use Rattle.bed_read.specs.Written.{◌▸◌};
ghost use Rattle.bed_read.specs.Tables.{firsts, read, read_part};

use crate::assertion::assertion;
use crate::class::{
    BAR, COLON, EQUAL, EXPORT, FUNCTION, IMPORT, LARGE_NUMBER, LEFT_PAREN, MODULE, NUMBER, POST,
    PRE, PREDICATE, RESERVING, RIGHT_PAREN, SEMICOLON, SIGNATURE,
};
use crate::declaration::{bind_list, for_binds, locals, name_list};
use crate::leaf::{limit_at, name, value_of};
use crate::statement::body;
use crate::token::{Read, looks_at, looks_at_any, take};
use bed_lang::{
    Assertion, Bind, Function, Import, List, Module, Name, Predicate, Signature, Stmt, Which,
};
use bed_lex::Token;
use std::alloc::Global;

/// `reserving` and a number of at most 4096, or nothing for 0.
#[tactic(auto, using(crate::proofs::Certificate::by_rule))]
fn reserving(tokens: &[Token]) -> Read<'_, u32>
    ensures { Gives (λ x. (x.0, x.1.now)) result (read grammar.Reserving tokens.now) }
{
    if looks_at(tokens, RESERVING) {
        let (_, rest) = take(tokens, RESERVING, None)?;
        if looks_at(rest, NUMBER) {
            let (token, rest) = take(rest, NUMBER, None)?;
            Ok((value_of(token), rest))
        } else {
            let (token, rest) = take(rest, LARGE_NUMBER, Some(Which::Reserve))?;
            Ok((value_of(token), rest))
        }
    } else {
        Ok((0, tokens))
    }
}

/// `post`, an assertion and `;`.
fn post(alloc: Global, tokens: &[Token]) -> Read<'_, Assertion>
    ensures { GivesBy (λ v. v.1.0) (λ x. (x.0, x.1.now)) result (read_part (grammar.sign classes.POST ▸ ref (grammar.Assertion None) ▸ grammar.sign classes.SEMICOLON) tokens.now) }
{
    let (_, rest) = take(tokens, POST, None)?;
    let (post, rest) = assertion(alloc, rest, None)?;
    let (_, rest) = take(rest, SEMICOLON, None)?;
    Ok((post, rest))
}

/// `pre` and an assertion, `post` and another, and `;`.
fn pre_and_post(alloc: Global, tokens: &[Token]) -> Read<'_, (Assertion, Assertion)>
    ensures { GivesBy (λ v. (v.1.0, v.1.1.1.0)) (λ x. (x.0, x.1.now)) result (read_part (grammar.sign classes.PRE ▸ ref (grammar.Assertion None) ▸ grammar.sign classes.POST ▸ ref (grammar.Assertion None) ▸ grammar.sign classes.SEMICOLON) tokens.now) }
{
    let (_, rest) = take(tokens, PRE, None)?;
    let (pre, rest) = assertion(alloc, rest, None)?;
    let (post, rest) = post(alloc, rest)?;
    Ok(((pre, post), rest))
}

/// The logical variables of a signature, and its assertions.
fn signature_logic(
    alloc: Global,
    tokens: &[Token],
) -> Read<'_, (List<Bind>, (Assertion, Assertion))>
    ensures { GivesBy (λ v. (v.0, (v.1.1.0, v.1.1.1.1.0))) (λ x. (x.0, x.1.now)) result (read_part (ref grammar.For ▸ grammar.sign classes.PRE ▸ ref (grammar.Assertion None) ▸ grammar.sign classes.POST ▸ ref (grammar.Assertion None) ▸ grammar.sign classes.SEMICOLON) tokens.now) }
{
    let (logical, rest) = for_binds(alloc, tokens)?;
    let (assertions, rest) = pre_and_post(alloc, rest)?;
    Ok(((logical, assertions), rest))
}

/// A signature.
#[tactic(auto, using(crate::proofs::Certificate::by_rule))]
fn signature(alloc: Global, tokens: &[Token]) -> Read<'_, Signature>
    ensures { Gives (λ x. (x.0, x.1.now)) result (read grammar.Signature tokens.now) }
{
    let (_, rest) = take(tokens, SIGNATURE, None)?;
    let (name, rest) = name(alloc, rest, None)?;
    let (_, rest) = take(rest, LEFT_PAREN, None)?;
    let (params, rest) = name_list(alloc, rest)?;
    let (_, rest) = take(rest, RIGHT_PAREN, None)?;
    let (reserve, rest) = reserving(rest)?;
    let ((logical, (pre, post)), rest) = signature_logic(alloc, rest)?;
    let signature = Signature {
        name,
        params,
        reserve,
        logical,
        pre,
        post,
    };
    Ok((signature, rest))
}

/// The cases after the first, each with a `|` before it.
#[tactic(auto, using(crate::proofs::Certificate::by_rule, bed_grammar::proofs::Reading::outcome_map_twice))]
fn more_cases(
    alloc: Global,
    first: Assertion,
    tokens: &[Token],
    most: u32,
) -> Read<'_, List<Assertion>>
    ensures { Gives (λ x. (x.0, x.1.now)) result (outcome_map (λ xs. first ∷ xs) (read (grammar.Cases most) tokens.now)) }
{
    let mut out = List::new(alloc);
    out.push(first)?;
    let mut rest = tokens;
    let mut left = most;
    while looks_at(rest, BAR) {
        let (_, after) = take(rest, BAR, None)?;
        let (next, after) = assertion(alloc, after, limit_at(Which::Cases, left))?;
        out.push(next)?;
        rest = after;
        left -= 1;
    }
    Ok((out, rest))
}

/// The cases after the first, on top of it.
#[tactic(auto, using(bed_grammar::proofs::Reading::gives_split))]
fn cases_from(alloc: Global, first: Assertion, tokens: &[Token]) -> Read<'_, List<Assertion>>
    ensures { GivesBy (λ xs. first ∷ xs) (λ x. (x.0, x.1.now)) result (read (grammar.Cases 15) tokens.now) }
{
    more_cases(alloc, first, tokens, 15)
}

/// `=`, the cases of a predicate and `;`.
fn cases(alloc: Global, tokens: &[Token]) -> Read<'_, List<Assertion>>
    ensures { GivesBy (λ v. v.1.0 ∷ v.1.1.0) (λ x. (x.0, x.1.now)) result (read_part (grammar.sign classes.EQUAL ▸ ref (grammar.Assertion None) ▸ ref (grammar.Cases 15) ▸ grammar.sign classes.SEMICOLON) tokens.now) }
{
    let (_, rest) = take(tokens, EQUAL, None)?;
    let (first, rest) = assertion(alloc, rest, None)?;
    let (cases, rest) = cases_from(alloc, first, rest)?;
    let (_, rest) = take(rest, SEMICOLON, None)?;
    Ok((cases, rest))
}

/// A predicate.
#[tactic(auto, using(crate::proofs::Certificate::by_rule))]
fn predicate(alloc: Global, tokens: &[Token]) -> Read<'_, Predicate>
    ensures { Gives (λ x. (x.0, x.1.now)) result (read grammar.Predicate tokens.now) }
{
    let (_, rest) = take(tokens, PREDICATE, None)?;
    let (name, rest) = name(alloc, rest, None)?;
    let (_, rest) = take(rest, LEFT_PAREN, None)?;
    let (params, rest) = bind_list(alloc, rest)?;
    let (_, rest) = take(rest, RIGHT_PAREN, None)?;
    let (cases, rest) = cases(alloc, rest)?;
    let predicate = Predicate {
        name,
        params,
        cases,
    };
    Ok((predicate, rest))
}

/// `:`, a name and `;`.
fn signature_name(alloc: Global, tokens: &[Token]) -> Read<'_, Name>
    ensures { GivesBy (λ v. v.1.0) (λ x. (x.0, x.1.now)) result (read_part (grammar.sign classes.COLON ▸ grammar.name ▸ grammar.sign classes.SEMICOLON) tokens.now) }
{
    let (_, rest) = take(tokens, COLON, None)?;
    let (name, rest) = name(alloc, rest, None)?;
    let (_, rest) = take(rest, SEMICOLON, None)?;
    Ok((name, rest))
}

/// An import.
#[tactic(auto, using(crate::proofs::Certificate::by_rule))]
fn import(alloc: Global, tokens: &[Token]) -> Read<'_, Import>
    ensures { Gives (λ x. (x.0, x.1.now)) result (read grammar.Import tokens.now) }
{
    let (_, rest) = take(tokens, IMPORT, None)?;
    let (imported, rest) = name(alloc, rest, None)?;
    let (signature, rest) = signature_name(alloc, rest)?;
    let import = Import {
        name: imported,
        signature,
    };
    Ok((import, rest))
}

/// Whether `export` stands here.
#[tactic(auto, using(crate::proofs::Certificate::by_rule))]
fn export(tokens: &[Token]) -> Read<'_, bool>
    ensures { Gives (λ x. (x.0, x.1.now)) result (read grammar.Export tokens.now) }
{
    if looks_at(tokens, EXPORT) {
        let (_, rest) = take(tokens, EXPORT, None)?;
        Ok((true, rest))
    } else {
        Ok((false, tokens))
    }
}

/// The locals of a function and its body, with the place of its closing brace.
fn locals_and_body(alloc: Global, tokens: &[Token]) -> Read<'_, (List<Name>, (List<Stmt>, u32))>
    ensures { GivesBy (λ v. v) (λ x. (x.0, x.1.now)) result (read_part (ref grammar.Locals ▸ ref (grammar.Body 64)) tokens.now) }
{
    let (locals, rest) = locals(alloc, tokens)?;
    let (body, rest) = body(alloc, rest, 64)?;
    Ok(((locals, body), rest))
}

/// A function.
#[tactic(auto, using(crate::proofs::Certificate::by_rule))]
fn function(alloc: Global, tokens: &[Token]) -> Read<'_, Function>
    ensures { Gives (λ x. (x.0, x.1.now)) result (read grammar.Function tokens.now) }
{
    let (exported, rest) = export(tokens)?;
    let (_, rest) = take(rest, FUNCTION, None)?;
    let (declared, rest) = name(alloc, rest, None)?;
    let (_, rest) = take(rest, COLON, None)?;
    let (signature, rest) = name(alloc, rest, None)?;
    let ((locals, (body, end)), rest) = locals_and_body(alloc, rest)?;
    let function = Function {
        name: declared,
        exported,
        signature,
        locals,
        body,
        end,
    };
    Ok((function, rest))
}

/// Whether a function begins here.
fn begins_function(tokens: &[Token]) -> bool
    ensures { result ≡ has (firsts grammar.Function) (class_at class (peek tokens.now)) }
{
    looks_at_any(tokens, &[EXPORT, FUNCTION])
}

/// Signatures, as many as there are.
#[tactic(auto, using(crate::proofs::Certificate::by_rule, crate::proofs::Shorter::shorter_signature, bed_grammar::proofs::Reading::outcome_map_twice))]
fn signatures(alloc: Global, tokens: &[Token]) -> Read<'_, List<Signature>>
    ensures { Gives (λ x. (x.0, x.1.now)) result (read grammar.Signatures tokens.now) }
{
    let mut out = List::new(alloc);
    let mut rest = tokens;
    while looks_at_any(rest, &[SIGNATURE]) {
        let (next, after) = signature(alloc, rest)?;
        out.push(next)?;
        rest = after;
    }
    Ok((out, rest))
}

/// Predicates, as many as there are.
#[tactic(auto, using(crate::proofs::Certificate::by_rule, crate::proofs::Shorter::shorter_predicate, bed_grammar::proofs::Reading::outcome_map_twice))]
fn predicates(alloc: Global, tokens: &[Token]) -> Read<'_, List<Predicate>>
    ensures { Gives (λ x. (x.0, x.1.now)) result (read grammar.Predicates tokens.now) }
{
    let mut out = List::new(alloc);
    let mut rest = tokens;
    while looks_at_any(rest, &[PREDICATE]) {
        let (next, after) = predicate(alloc, rest)?;
        out.push(next)?;
        rest = after;
    }
    Ok((out, rest))
}

/// Imports, as many as there are.
#[tactic(auto, using(crate::proofs::Certificate::by_rule, crate::proofs::Shorter::shorter_import, bed_grammar::proofs::Reading::outcome_map_twice))]
fn imports(alloc: Global, tokens: &[Token]) -> Read<'_, List<Import>>
    ensures { Gives (λ x. (x.0, x.1.now)) result (read grammar.Imports tokens.now) }
{
    let mut out = List::new(alloc);
    let mut rest = tokens;
    while looks_at_any(rest, &[IMPORT]) {
        let (next, after) = import(alloc, rest)?;
        out.push(next)?;
        rest = after;
    }
    Ok((out, rest))
}

/// Functions, as many as there are.
#[tactic(auto, using(crate::proofs::Certificate::by_rule, crate::proofs::Shorter::shorter_function, bed_grammar::proofs::Reading::outcome_map_twice))]
fn functions(alloc: Global, tokens: &[Token]) -> Read<'_, List<Function>>
    ensures { Gives (λ x. (x.0, x.1.now)) result (read grammar.Functions tokens.now) }
{
    let mut out = List::new(alloc);
    let mut rest = tokens;
    while begins_function(rest) {
        let (next, after) = function(alloc, rest)?;
        out.push(next)?;
        rest = after;
    }
    Ok((out, rest))
}

/// Imports, and then functions.
fn imports_and_functions(
    alloc: Global,
    tokens: &[Token],
) -> Read<'_, (List<Import>, List<Function>)>
    ensures { GivesBy (λ v. v) (λ x. (x.0, x.1.now)) result (read_part (ref grammar.Imports ▸ ref grammar.Functions) tokens.now) }
{
    let (imports, rest) = imports(alloc, tokens)?;
    let (functions, rest) = functions(alloc, rest)?;
    Ok(((imports, functions), rest))
}

/// Predicates, then imports, and then functions.
fn predicates_and_code(
    alloc: Global,
    tokens: &[Token],
) -> Read<'_, (List<Predicate>, (List<Import>, List<Function>))>
    ensures { GivesBy (λ v. v) (λ x. (x.0, x.1.now)) result (read_part (ref grammar.Predicates ▸ ref grammar.Imports ▸ ref grammar.Functions) tokens.now) }
{
    let (predicates, rest) = predicates(alloc, tokens)?;
    let (code, rest) = imports_and_functions(alloc, rest)?;
    Ok(((predicates, code), rest))
}

/// A module.
#[tactic(auto, using(crate::proofs::Certificate::by_rule))]
pub(crate) fn module(alloc: Global, tokens: &[Token]) -> Read<'_, Module>
    ensures { Gives (λ x. (x.0, x.1.now)) result (read grammar.Module tokens.now) }
{
    let (_, rest) = take(tokens, MODULE, None)?;
    let (name, rest) = name(alloc, rest, None)?;
    let (_, rest) = take(rest, SEMICOLON, None)?;
    let (signatures, rest) = signatures(alloc, rest)?;
    let ((predicates, (imports, functions)), rest) = predicates_and_code(alloc, rest)?;
    let module = Module {
        name,
        signatures,
        predicates,
        imports,
        functions,
    };
    Ok((module, rest))
}
