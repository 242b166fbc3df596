//! The faults of arguments, assertions and hints.
#![tactic(auto, using(crate::proofs::NotedLemmas::noted_append))]

ghost use Rattle.std.specs.Prelude.{◌≡◌, Some, None, [], ◌∷◌, codes, length, map};
ghost use Rattle.std.specs.Option.{option_copied};
ghost use Rattle.bed_names.specs.Faults.{noted};
ghost use Rattle.bed_names.specs.Terms.{is_hole as is_the_hole, bare_faults, arg_faults, args_faults, asked_by, has_other_number, has_no_case, predicate_name_faults, applied_faults, pure_faults, atom_faults, term_faults, terms_faults, option_faults, hint_faults, hints_faults, with_names, assertion_faults};
ghost use Rattle.bed_names.specs.Names.{sequences};

use crate::error::NameError;
use crate::found::note_if;
use crate::terms::{name, seq, signature_name, sort, word};
use crate::twice::binders;
use crate::visible::{Outer, Scope};
use bed_lang::{Arg, Assertion, Atom, Bind, Hint, Name, Predicate, Pure, Sort, Term, Word};

/// Whether a name alone is the hole `_`.
pub(crate) fn is_hole(x: &Name) -> bool
    ensures { result ≡ is_the_hole x.now }
{
    x.bytes.as_slice() == b"_".as_slice()
}

fn bare(
    scope: &Scope,
    found: Option<NameError>,
    holes: bool,
    asked: Option<Sort>,
    x: &Name,
) -> Option<NameError>
    ensures { result ≡ noted found (bare_faults scope.now holes asked x.now) }
{
    if holes && is_hole(x) {
        found
    } else {
        name(scope, found, asked, x)
    }
}

/// What is left of what was found and the faults of an argument.
pub(crate) fn argument(
    scope: &Scope,
    found: Option<NameError>,
    holes: bool,
    asked: Option<Sort>,
    a: &Arg,
) -> Option<NameError>
    ensures { result ≡ noted found (arg_faults scope.now holes asked a.now) }
{
    match a {
        Arg::Word(at, a) => word(scope, sort(found, asked, Sort::Word, *at), a),
        Arg::Seq(at, s) => seq(scope, sort(found, asked, Sort::Seq, *at), s),
        Arg::Bare(x) => bare(scope, found, holes, asked, x),
    }
}

/// The sort that the first of the parameters asks for.
pub(crate) fn first_sort(params: &[Bind]) -> Option<Sort>
    ensures { result ≡ Rattle.bed_names.specs.Terms.first_sort params.now }
{
    match params {
        [] => None,
        [p, ..] => Some(p.sort),
    }
}

/// The parameters but the first.
pub(crate) fn behind_first(params: &[Bind]) -> &[Bind]
    ensures { result.now ≡ Rattle.bed_names.specs.Terms.behind_first params.now }
{
    match params {
        [] => &[],
        [_, rest @ ..] => rest,
    }
}

// The parameters are as many as the arguments, or none.
fn arguments(
    scope: &Scope,
    mut found: Option<NameError>,
    holes: bool,
    params: &[Bind],
    args: &[Arg],
) -> Option<NameError>
    ensures { result ≡ noted found (args_faults scope.now holes params.now args.now) }
{
    let mut params = params;
    for a in args {
        found = argument(scope, found, holes, first_sort(params), a);
        params = behind_first(params);
    }
    found
}

// The parameters that these arguments are asked to fit.
pub(crate) fn asked<'a>(predicate: Option<&'a Predicate>, args: &[Arg]) -> &'a [Bind]
    ensures { result.now ≡ asked_by (option_copied predicate.entry) args.now }
{
    match predicate {
        Some(p) if p.params.len() == args.len() => p.params.as_slice(),
        _ => &[],
    }
}

fn is_of_other_number(predicate: Option<&Predicate>, args: &[Arg]) -> bool
    ensures { result ≡ has_other_number (option_copied predicate.entry) args.now }
{
    match predicate {
        None => false,
        Some(p) => p.params.len() != args.len(),
    }
}

fn applied(
    scope: &Scope,
    found: Option<NameError>,
    holes: bool,
    x: &Name,
    args: &[Arg],
) -> Option<NameError>
    ensures { result ≡ noted found (applied_faults scope.now holes x.now args.now) }
{
    let predicate = scope.predicate(x);
    let found = note_if(found, predicate.is_none(), NameError::Unknown { at: x.at });
    let found = note_if(
        found,
        is_of_other_number(predicate, args),
        NameError::Arity { at: x.at },
    );
    arguments(scope, found, holes, asked(predicate, args), args)
}

pub(crate) fn pure(scope: &Scope, found: Option<NameError>, p: &Pure) -> Option<NameError>
    ensures { result ≡ noted found (pure_faults scope.now p.now) }
{
    match p {
        Pure::Equal(a, b) => word(scope, word(scope, found, a), b),
        Pure::Unequal(a, b) => word(scope, word(scope, found, a), b),
        Pure::Less(a, b) => word(scope, word(scope, found, a), b),
        Pure::AtMost(a, b) => word(scope, word(scope, found, a), b),
        Pure::Same(s, t) => seq(scope, seq(scope, found, s), t),
        Pure::Member(a, s) => seq(scope, word(scope, found, a), s),
        Pure::NonMember(a, s) => seq(scope, word(scope, found, a), s),
        Pure::Code(a, x) => signature_name(scope, word(scope, found, a), x),
    }
}

fn atom(scope: &Scope, found: Option<NameError>, a: &Atom) -> Option<NameError>
    ensures { result ≡ noted found (atom_faults scope.now a.now) }
{
    match a {
        Atom::Cell(a, b) => word(scope, word(scope, found, a), b),
        Atom::Byte(a, b) => word(scope, word(scope, found, a), b),
        Atom::Block(a, b) => word(scope, word(scope, found, a), b),
        Atom::Pred(x, args) => applied(scope, found, false, x, args.as_slice()),
    }
}

fn term(scope: &Scope, found: Option<NameError>, t: &Term) -> Option<NameError>
    ensures { result ≡ noted found (term_faults scope.now t.now) }
{
    match t {
        Term::Emp => found,
        Term::Pure(p) => pure(scope, found, p),
        Term::Atom(a) => atom(scope, found, a),
    }
}

fn terms(scope: &Scope, mut found: Option<NameError>, terms: &[Term]) -> Option<NameError>
    ensures { result ≡ noted found (terms_faults scope.now terms.now) }
{
    for t in terms {
        found = term(scope, found, t);
    }
    found
}

// The case of a `fold` counts from 1.
fn is_without_case(predicate: Option<&Predicate>, number: u32) -> bool
    ensures { result ≡ has_no_case (option_copied predicate.entry) number }
{
    match predicate {
        None => false,
        Some(p) => number == 0 || p.cases.len() < number as usize,
    }
}

fn predicate_name(scope: &Scope, found: Option<NameError>, x: &Name) -> Option<NameError>
    ensures { result ≡ noted found (predicate_name_faults scope.now x.now) }
{
    note_if(
        found,
        scope.predicate(x).is_none(),
        NameError::Unknown { at: x.at },
    )
}

fn option_word(scope: &Scope, found: Option<NameError>, w: &Option<Word>) -> Option<NameError>
    ensures { result ≡ noted found (option_faults scope.now w.now) }
{
    match w {
        None => found,
        Some(w) => word(scope, found, w),
    }
}

fn fold(
    scope: &Scope,
    found: Option<NameError>,
    x: &Name,
    args: &[Arg],
    number: u32,
) -> Option<NameError>
    ensures { result ≡ noted found (hint_faults scope.now (Hint.Fold x.now args.now number)) }
{
    let found = note_if(
        found,
        is_without_case(scope.predicate(x), number),
        NameError::Arity { at: x.at },
    );
    applied(scope, found, true, x, args)
}

pub(crate) fn hint(scope: &Scope, found: Option<NameError>, h: &Hint) -> Option<NameError>
    ensures { result ≡ noted found (hint_faults scope.now h.now) }
{
    match h {
        Hint::Unfold(x, at) => option_word(scope, predicate_name(scope, found, x), at),
        Hint::Fold(x, args, number) => fold(scope, found, x, args.as_slice(), *number),
        Hint::Append(a) => word(scope, found, a),
        Hint::Divide(a, b) => word(scope, word(scope, found, a), b),
        Hint::Merge(a, b) => word(scope, word(scope, found, a), b),
        Hint::Bytes(a) => word(scope, found, a),
        Hint::Word(a) => word(scope, found, a),
        Hint::Cell(a) => word(scope, found, a),
        Hint::Uncell(a) => word(scope, found, a),
        Hint::Drop(a) => word(scope, found, a),
        Hint::Claim(p) => pure(scope, found, p),
        Hint::When(p) => pure(scope, found, p),
        Hint::Give(_, a) => argument(scope, found, false, None, a),
    }
}

pub(crate) fn hints(
    scope: &Scope,
    mut found: Option<NameError>,
    hints: &[Hint],
) -> Option<NameError>
    ensures { result ≡ noted found (hints_faults scope.now hints.now) }
{
    for h in hints {
        found = hint(scope, found, h);
    }
    found
}

fn bound(
    outer: &Outer,
    lists: &[&Name],
    found: Option<NameError>,
    a: &Assertion,
) -> Option<NameError>
    ensures { result ≡ noted found (assertion_faults (with_names outer.now (sequences (map (λ y. y.now) lists.now))) a.now) }
{
    let found = binders(&outer.with_lists(lists), found, a.binders.as_slice());
    terms(
        &outer.with(lists, a.binders.as_slice()),
        found,
        a.terms.as_slice(),
    )
}

/// What is left of what was found and the faults of an assertion.
pub(crate) fn assertion(outer: &Outer, found: Option<NameError>, a: &Assertion) -> Option<NameError>
    ensures { result ≡ noted found (assertion_faults outer.now a.now) }
{
    bound(outer, &[], found, a)
}

/// The same for what is kept by `find` and `walk`, where two more names are sequences.
pub(crate) fn kept(
    outer: &Outer,
    found: Option<NameError>,
    seen: &Name,
    rest: &Name,
    a: &Assertion,
) -> Option<NameError>
    ensures { result ≡ noted found (assertion_faults (with_names outer.now (sequences (seen.now ∷ rest.now ∷ []))) a.now) }
{
    bound(outer, &[seen, rest], found, a)
}
