//! Arguments, assertions and hints without bare arguments.
#![tactic(auto, using(std::proofs::lemmas::List::map_more))]

ghost use Rattle.std.specs.Prelude.{◌≡◌, ◌∷◌, [], IfOk, map, None};
ghost use Rattle.bed_lang.specs.declared.logic.Atom.TheVariants as atom;
ghost use Rattle.bed_lang.specs.declared.module.Hint.TheVariants as hint;
ghost use Rattle.bed_names.specs.Names.{sequences};
ghost use Rattle.bed_names.specs.Resolved.{bare_sort as sort_of_bare, bare_variable as variable_of_bare, variable_arg, resolved_arg, resolved_args, resolved_applied, resolved_atom, resolved_term, resolved_assertion, resolved_hint, resolved_keep};
ghost use Rattle.bed_names.specs.Terms.{with_names};

use crate::assertions::{asked, behind_first, first_sort, is_hole};
use crate::visible::{Outer, Scope};
use bed_lang::{Arg, Assertion, Atom, Bind, Hint, List, Name, Seq, Sort, Term, Tree, Var, Word};
use std::alloc::{AllocError, Global};

// The sort that a name alone stands for.
fn bare_sort(scope: &Scope, asked: Option<Sort>, x: &Name) -> Sort
    ensures { result ≡ sort_of_bare scope.now asked x.now }
{
    match asked {
        Some(sort) => sort,
        None => scope.sort_of(x).unwrap_or(Sort::Word),
    }
}

// The variable, or the hole, that a name alone stands for.
fn bare_variable(alloc: Global, x: &Name) -> Result<Var, AllocError>
    ensures { IfOk result (λ v. v ≡ variable_of_bare x.now) }
{
    if is_hole(x) {
        Ok(Var::Hole)
    } else {
        Ok(Var::Named(x.copy(alloc)?))
    }
}

// The argument of a sort that is one variable.
fn variable_argument(sort: Sort, at: u32, x: Var) -> Arg
    ensures { result ≡ variable_arg sort at x }
{
    match sort {
        Sort::Word => Arg::Word(at, Word::Var(x)),
        Sort::Seq => Arg::Seq(at, Seq::Var(x)),
    }
}

fn argument(alloc: Global, scope: &Scope, asked: Option<Sort>, a: &Arg) -> Result<Arg, AllocError>
    ensures { IfOk result (λ r. r ≡ resolved_arg scope.now asked a.now) }
{
    match a {
        Arg::Word(at, a) => Ok(Arg::Word(*at, a.copy(alloc)?)),
        Arg::Seq(at, s) => Ok(Arg::Seq(*at, s.copy(alloc)?)),
        Arg::Bare(x) => {
            let variable = bare_variable(alloc, x)?;
            Ok(variable_argument(bare_sort(scope, asked, x), x.at, variable))
        }
    }
}

// The parameters are as many as the arguments, or none.
fn arguments(
    alloc: Global,
    scope: &Scope,
    params: &[Bind],
    args: &[Arg],
) -> Result<List<Arg>, AllocError>
    ensures { IfOk result (λ r. r ≡ resolved_args scope.now params.now args.now) }
{
    let mut params = params;
    let mut out = List::new(alloc);
    for a in args {
        out.push(argument(alloc, scope, first_sort(params), a)?)?;
        params = behind_first(params);
    }
    Ok(out)
}

// The arguments of a predicate.
fn applied(alloc: Global, scope: &Scope, x: &Name, args: &[Arg]) -> Result<List<Arg>, AllocError>
    ensures { IfOk result (λ r. r ≡ resolved_applied scope.now x.now args.now) }
{
    arguments(alloc, scope, asked(scope.predicate(x), args), args)
}

fn predicate(alloc: Global, scope: &Scope, x: &Name, args: &[Arg]) -> Result<Atom, AllocError>
    ensures { IfOk result (λ r. r ≡ atom.Pred x.now (resolved_applied scope.now x.now args.now)) }
{
    let args = applied(alloc, scope, x, args)?;
    Ok(Atom::Pred(x.copy(alloc)?, args))
}

fn atom(alloc: Global, scope: &Scope, a: &Atom) -> Result<Atom, AllocError>
    ensures { IfOk result (λ r. r ≡ resolved_atom scope.now a.now) }
{
    match a {
        Atom::Pred(x, args) => predicate(alloc, scope, x, args.as_slice()),
        _ => a.copy(alloc),
    }
}

fn term(alloc: Global, scope: &Scope, t: &Term) -> Result<Term, AllocError>
    ensures { IfOk result (λ r. r ≡ resolved_term scope.now t.now) }
{
    match t {
        Term::Emp => Ok(Term::Emp),
        Term::Pure(p) => Ok(Term::Pure(p.copy(alloc)?)),
        Term::Atom(a) => Ok(Term::Atom(atom(alloc, scope, a)?)),
    }
}

fn terms(alloc: Global, scope: &Scope, terms: &[Term]) -> Result<List<Term>, AllocError>
    ensures { IfOk result (λ r. r ≡ map (resolved_term scope.now) terms.now) }
{
    let mut out = List::new(alloc);
    for t in terms {
        out.push(term(alloc, scope, t)?)?;
    }
    Ok(out)
}

// An assertion where some names more are sequences.
fn bound(
    alloc: Global,
    outer: &Outer,
    lists: &[&Name],
    a: &Assertion,
) -> Result<Assertion, AllocError>
    ensures { IfOk result (λ r. r ≡ resolved_assertion (with_names outer.now (sequences (map (λ y. y.now) lists.now))) a.now) }
{
    let scope = outer.with(lists, a.binders.as_slice());
    let binders = a.binders.copied(alloc)?;
    let terms = terms(alloc, &scope, a.terms.as_slice())?;
    Ok(Assertion {
        at: a.at,
        binders,
        terms,
    })
}

/// The assertion without bare arguments.
pub(crate) fn assertion(
    alloc: Global,
    outer: &Outer,
    a: &Assertion,
) -> Result<Assertion, AllocError>
    ensures { IfOk result (λ r. r ≡ resolved_assertion outer.now a.now) }
{
    bound(alloc, outer, &[], a)
}

/// The same for what is kept by `find` and `walk`, where two more names are sequences.
pub(crate) fn kept(
    alloc: Global,
    outer: &Outer,
    seen: &Name,
    rest: &Name,
    a: &Assertion,
) -> Result<Assertion, AllocError>
    ensures { IfOk result (λ r. r ≡ resolved_keep outer.now seen.now rest.now a.now) }
{
    bound(alloc, outer, &[seen, rest], a)
}

fn fold(
    alloc: Global,
    scope: &Scope,
    x: &Name,
    args: &[Arg],
    number: u32,
) -> Result<Hint, AllocError>
    ensures { IfOk result (λ r. r ≡ hint.Fold x.now (resolved_applied scope.now x.now args.now) number) }
{
    let args = applied(alloc, scope, x, args)?;
    Ok(Hint::Fold(x.copy(alloc)?, args, number))
}

fn give(alloc: Global, scope: &Scope, x: &Name, a: &Arg) -> Result<Hint, AllocError>
    ensures { IfOk result (λ r. r ≡ hint.Give x.now (resolved_arg scope.now None a.now)) }
{
    let name = x.copy(alloc)?;
    let value = argument(alloc, scope, None, a)?;
    Ok(Hint::Give(name, value))
}

/// The same for a hint.
pub(crate) fn hint(alloc: Global, outer: &Outer, h: &Hint) -> Result<Hint, AllocError>
    ensures { IfOk result (λ r. r ≡ resolved_hint outer.now h.now) }
{
    match h {
        Hint::Fold(x, args, number) => fold(alloc, &outer.inner(), x, args.as_slice(), *number),
        Hint::Give(x, a) => give(alloc, &outer.inner(), x, a),
        _ => h.copy(alloc),
    }
}

/// The same for a list of hints.
pub(crate) fn hints(alloc: Global, outer: &Outer, hints: &[Hint]) -> Result<List<Hint>, AllocError>
    ensures { IfOk result (λ r. r ≡ map (resolved_hint outer.now) hints.now) }
{
    let mut out = List::new(alloc);
    for h in hints {
        out.push(hint(alloc, outer, h)?)?;
    }
    Ok(out)
}
