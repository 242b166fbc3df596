//! The states that conditions open.
ghost use Rattle.std.specs.Prelude.{◌≡◌, ◌<◌, ◌≤◌, true, length, IsTrue};
ghost use Rattle.bed_deriv.specs.Fresh.{AreUnfresh, every, known_term, unfresh_condition, condition_size};

use crate::trees::{name, variable};
use bed_deriv::known::{known_fact, known_word};
use bed_deriv::{SymState, start};
use bed_lang::{
    Assertion, Atom, Bind, Cond, Decls, Goal, List, Name, Operand, Pure, Signature, Sort, Term,
    Var, Word,
};
use std::alloc::{AllocError, Global};
use std::test::Fail;

fn names(alloc: Global, letters: &[u8]) -> Result<List<Name>, AllocError> {
    let mut names = List::new(alloc);
    for letter in letters {
        names.push(name(alloc, *letter)?)?;
    }
    Ok(names)
}

fn emp(alloc: Global) -> Assertion {
    Assertion {
        at: 0,
        binders: List::new(alloc),
        terms: List::new(alloc),
    }
}

// signature C(n)
fn signature(alloc: Global) -> Result<Signature, AllocError> {
    let name = name(alloc, b'C')?;
    let params = names(alloc, b"n")?;
    Ok(Signature {
        name,
        params,
        reserve: 1,
        logical: List::new(alloc),
        pre: emp(alloc),
        post: emp(alloc),
    })
}

fn signatures(alloc: Global) -> Result<List<Signature>, AllocError> {
    let mut signatures = List::new(alloc);
    signatures.push(signature(alloc)?)?;
    Ok(signatures)
}

fn labels(alloc: Global) -> Result<List<(Name, Name)>, AllocError> {
    let mut labels = List::new(alloc);
    labels.push((name(alloc, b'f')?, name(alloc, b'C')?))?;
    Ok(labels)
}

// The function f of the signature C.
fn declarations(alloc: Global) -> Result<Decls, AllocError> {
    let signatures = signatures(alloc)?;
    let labels = labels(alloc)?;
    Ok(Decls {
        signatures,
        predicates: List::new(alloc),
        labels,
    })
}

fn at_most(alloc: Global, a: u8, b: u8) -> Result<Pure, AllocError> {
    let a = variable(alloc, a)?;
    let b = variable(alloc, b)?;
    Ok(Pure::AtMost(a, b))
}

// n |-> v
fn cell(alloc: Global) -> Result<Atom, AllocError> {
    Ok(Atom::Cell(variable(alloc, b'n')?, variable(alloc, b'v')?))
}

// [i <= n] * n |-> v * [v <= i]
fn terms(alloc: Global) -> Result<List<Term>, AllocError> {
    let mut terms = List::new(alloc);
    terms.push(Term::Pure(at_most(alloc, b'i', b'n')?))?;
    terms.push(Term::Atom(cell(alloc)?))?;
    terms.push(Term::Pure(at_most(alloc, b'v', b'i')?))?;
    Ok(terms)
}

// v: word
fn binders(alloc: Global) -> Result<List<Bind>, AllocError> {
    let mut binders = List::new(alloc);
    binders.push(Bind {
        name: name(alloc, b'v')?,
        sort: Sort::Word,
    })?;
    Ok(binders)
}

// exists v: word. [i <= n] * n |-> v * [v <= i]
fn beginning(alloc: Global) -> Result<Assertion, AllocError> {
    let binders = binders(alloc)?;
    let terms = terms(alloc)?;
    Ok(Assertion {
        at: 0,
        binders,
        terms,
    })
}

fn of_parts(
    alloc: Global,
    function: Name,
    locals: List<Name>,
    entry: bool,
    start: Assertion,
) -> Result<Cond, AllocError> {
    Ok(Cond {
        module: name(alloc, b'm')?,
        function,
        at: 0,
        locals,
        entry,
        start,
        actions: List::new(alloc),
        goal: Goal::Returns(Operand::Number(0)),
        hints: List::new(alloc),
    })
}

// A condition of the function f, whose locals are its argument n and i.
fn condition(alloc: Global, entry: bool) -> Result<Cond, AllocError> {
    let function = name(alloc, b'f')?;
    let locals = names(alloc, b"ni")?;
    let start = beginning(alloc)?;
    of_parts(alloc, function, locals, entry, start)
}

// Whether terms are a fact, a cell and a fact without fresh variables.
fn unfresh_terms(terms: &[Term]) -> bool
    ensures known { result ≡ true → every (known_term 0) terms.now ≡ true }
    ensures few { result ≡ true → length terms.now ≤ 3 }
{
    match terms {
        [Term::Pure(p), Term::Atom(Atom::Cell(e, v)), Term::Pure(q)] => {
            known_fact(0, p) && known_word(0, e) && known_word(0, v) && known_fact(0, q)
        }
        _ => false,
    }
}

fn unfresh_condition(c: &Cond) -> bool
    ensures sizes { result ≡ true → condition_size c.now < 4294967295 }
    ensures unfresh { result ≡ true → IsTrue (unfresh_condition c.now) }
{
    match &c.goal {
        Goal::Returns(_) => {
            c.locals.len() <= 2
                && c.start.binders.len() <= 1
                && unfresh_terms(c.start.terms.as_slice())
        }
        _ => false,
    }
}

fn unfresh_declarations(decls: &Decls) -> bool
    ensures { result ≡ true → AreUnfresh decls.now }
{
    match (decls.signatures.as_slice(), decls.predicates.as_slice()) {
        ([signature], []) => { signature.pre.terms.is_empty() && signature.post.terms.is_empty() }
        _ => false,
    }
}

fn opened(alloc: Global, c: &Cond, decls: &Decls) -> Result<SymState, Fail> {
    if !unfresh_condition(c) || !unfresh_declarations(decls) {
        return Err(Fail::from("trees without fresh variables"));
    }
    Ok(start(alloc, c, decls)?)
}

fn in_declarations(alloc: Global, c: &Cond) -> Result<SymState, Fail> {
    let decls = declarations(alloc)?;
    opened(alloc, c, &decls)
}

fn state(alloc: Global, entry: bool) -> Result<SymState, Fail> {
    let c = condition(alloc, entry)?;
    in_declarations(alloc, &c)
}

fn is_fresh(w: &Word, number: u32) -> bool {
    w.same(&Word::Var(Var::Fresh(number)))
}

// Whether the fact and the other say `i <= n` and `v <= i`, with these terms.
fn are_facts(facts: &[Pure], n: &Word, i: u32, v: u32) -> bool {
    match facts {
        [Pure::AtMost(a, b), Pure::AtMost(c, d)] => {
            is_fresh(a, i) && b.same(n) && is_fresh(c, v) && is_fresh(d, i)
        }
        _ => false,
    }
}

fn are_atoms(atoms: &[Atom], n: &Word, v: u32) -> bool {
    match atoms {
        [Atom::Cell(a, b)] => a.same(n) && is_fresh(b, v),
        _ => false,
    }
}

fn are_locals(locals: &[(Name, Word)], n: &Word, i: u32) -> bool {
    match locals {
        [first, second] => first.1.same(n) && is_fresh(&second.1, i),
        _ => false,
    }
}

// Whether the state has this term for n, and these fresh variables for i and v.
fn is_opened(state: &SymState, n: &Word, i: u32, v: u32) -> bool {
    are_locals(state.locals.as_slice(), n, i)
        && are_facts(state.facts.as_slice(), n, i, v)
        && are_atoms(state.atoms.as_slice(), n, v)
}

#[test]
fn the_entry_has_its_arguments(rt: HostRuntime) -> Result<(), Fail> {
    let alloc = rt.alloc();
    let state = state(alloc, true)?;
    let n = Word::Var(Var::Old(name(alloc, b'n')?));
    assert!(rt; is_opened(&state, &n, 0, 1) && state.next == 2);
    Ok(())
}

#[test]
fn an_inner_point_has_fresh_variables(rt: HostRuntime) -> Result<(), Fail> {
    let alloc = rt.alloc();
    let state = state(alloc, false)?;
    let n = Word::Var(Var::Fresh(0));
    assert!(rt; is_opened(&state, &n, 1, 2) && state.next == 3);
    Ok(())
}
