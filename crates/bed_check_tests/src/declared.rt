//! What is declared: the list segments of every module, a predicate d that doubles its argument, and the
//! label f of a signature C.
use crate::trees::{built, name};
use bed_lang::{Assertion, Bind, Decls, List, Name, Predicate, Sort, Term};
use std::alloc::{AllocError, Global};
use std::test::Fail;

/// The terms of a text: its facts and then its atoms.
pub(crate) fn terms(alloc: Global, text: &str) -> Result<List<Term>, Fail> {
    let made = built(alloc, text)?;
    let mut terms = List::new(alloc);
    for p in made.facts.as_slice() {
        terms.push(Term::Pure(p.copy(alloc)?))?;
    }
    for a in made.atoms.as_slice() {
        terms.push(Term::Atom(a.copy(alloc)?))?;
    }
    Ok(terms)
}

// A capital letter stands for a sequence variable.
fn bind(alloc: Global, letter: u8) -> Result<Bind, AllocError> {
    if letter < b'a' {
        Ok(Bind {
            name: name(alloc, letter.wrapping_add(32))?,
            sort: Sort::Seq,
        })
    } else {
        Ok(Bind {
            name: name(alloc, letter)?,
            sort: Sort::Word,
        })
    }
}

fn binds(alloc: Global, text: &str) -> Result<List<Bind>, AllocError> {
    let mut binds = List::new(alloc);
    for letter in text.as_bytes() {
        binds.push(bind(alloc, *letter)?)?;
    }
    Ok(binds)
}

/// An assertion of these binders and terms.
pub(crate) fn assertion(alloc: Global, binders: &str, text: &str) -> Result<Assertion, Fail> {
    let binders = binds(alloc, binders)?;
    let terms = terms(alloc, text)?;
    Ok(Assertion {
        at: 0,
        binders,
        terms,
    })
}

fn lseg_cases(alloc: Global) -> Result<List<Assertion>, Fail> {
    let mut cases = List::new(alloc);
    cases.push(assertion(alloc, "", "pq= S[~")?)?;
    cases.push(assertion(alloc, "vnT", "p0# SvT;~ pv> p4+n> nqT*")?)?;
    Ok(cases)
}

fn double_cases(alloc: Global) -> Result<List<Assertion>, Fail> {
    let mut cases = List::new(alloc);
    cases.push(assertion(alloc, "", "xx+)")?)?;
    Ok(cases)
}

fn predicate(
    alloc: Global,
    name: &[u8],
    params: &str,
    cases: List<Assertion>,
) -> Result<Predicate, AllocError> {
    let params = binds(alloc, params)?;
    let bytes = List::from_slice(alloc, name)?;
    Ok(Predicate {
        name: Name { bytes, at: 0 },
        params,
        cases,
    })
}

fn predicates(alloc: Global) -> Result<List<Predicate>, Fail> {
    let mut predicates = List::new(alloc);
    predicates.push(predicate(alloc, b"lseg", "pqS", lseg_cases(alloc)?)?)?;
    predicates.push(predicate(alloc, b"d", "x", double_cases(alloc)?)?)?;
    Ok(predicates)
}

fn labels(alloc: Global) -> Result<List<(Name, Name)>, AllocError> {
    let mut labels = List::new(alloc);
    labels.push((name(alloc, b'f')?, name(alloc, b'C')?))?;
    Ok(labels)
}

pub(crate) fn declarations(alloc: Global) -> Result<Decls, Fail> {
    let predicates = predicates(alloc)?;
    let labels = labels(alloc)?;
    Ok(Decls {
        signatures: List::new(alloc),
        predicates,
        labels,
    })
}
