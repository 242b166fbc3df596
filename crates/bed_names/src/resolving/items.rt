//! Signatures, predicates, functions and modules without bare arguments.
#![tactic(auto, using(std::proofs::lemmas::List::map_more))]

ghost use Rattle.std.specs.Prelude.{◌≡◌, IfOk, map, true, false};
ghost use Rattle.bed_names.specs.Modules.{plain, signature_names};
ghost use Rattle.bed_names.specs.Resolved.{resolved_assertion, resolved_signature, resolved_predicate, resolved_function, resolved_with};

use crate::declared::Declared;
use crate::functions::{outer_in, outer_of};
use crate::resolving::statements::body;
use crate::resolving::terms::assertion;
use crate::visible::Outer;
use bed_lang::{Assertion, Function, List, Module, Predicate, Signature, Stmt, Tree, both};
use std::alloc::{AllocError, Global};

// The precondition and the postcondition.
fn conditions(
    alloc: Global,
    declared: &Declared,
    s: &Signature,
) -> Result<(Assertion, Assertion), AllocError>
    ensures pre { IfOk result (λ r. r.0 ≡ resolved_assertion (plain declared.now (signature_names s.now) false) s.now.pre) }
    ensures post { IfOk result (λ r. r.1 ≡ resolved_assertion (plain declared.now (signature_names s.now) true) s.now.post) }
{
    let pre = assertion(alloc, &outer_of(declared, s, false), &s.pre)?;
    let post = assertion(alloc, &outer_of(declared, s, true), &s.post)?;
    Ok((pre, post))
}

fn signature(alloc: Global, declared: &Declared, s: &Signature) -> Result<Signature, AllocError>
    ensures { IfOk result (λ r. r ≡ resolved_signature declared.now s.now) }
{
    let heads = both(alloc, &s.name, &s.params)?;
    let logical = s.logical.copied(alloc)?;
    let (pre, post) = conditions(alloc, declared, s)?;
    let (name, params) = heads;
    Ok(Signature {
        name,
        params,
        reserve: s.reserve,
        logical,
        pre,
        post,
    })
}

fn signatures(
    alloc: Global,
    declared: &Declared,
    items: &[Signature],
) -> Result<List<Signature>, AllocError>
    ensures { IfOk result (λ r. r ≡ map (resolved_signature declared.now) items.now) }
{
    let mut out = List::new(alloc);
    for s in items {
        out.push(signature(alloc, declared, s)?)?;
    }
    Ok(out)
}

fn cases(alloc: Global, outer: &Outer, cases: &[Assertion]) -> Result<List<Assertion>, AllocError>
    ensures { IfOk result (λ r. r ≡ map (resolved_assertion outer.now) cases.now) }
{
    let mut out = List::new(alloc);
    for a in cases {
        out.push(assertion(alloc, outer, a)?)?;
    }
    Ok(out)
}

fn cases_of(
    alloc: Global,
    declared: &Declared,
    p: &Predicate,
) -> Result<List<Assertion>, AllocError>
    ensures { IfOk result (λ r. r ≡ (resolved_predicate declared.now p.now).cases) }
{
    let outer = Outer::of_predicate(declared, p.params.as_slice());
    cases(alloc, &outer, p.cases.as_slice())
}

fn predicate(alloc: Global, declared: &Declared, p: &Predicate) -> Result<Predicate, AllocError>
    ensures { IfOk result (λ r. r ≡ resolved_predicate declared.now p.now) }
{
    let heads = both(alloc, &p.name, &p.params)?;
    let cases = cases_of(alloc, declared, p)?;
    let (name, params) = heads;
    Ok(Predicate {
        name,
        params,
        cases,
    })
}

fn predicates(
    alloc: Global,
    declared: &Declared,
    items: &[Predicate],
) -> Result<List<Predicate>, AllocError>
    ensures { IfOk result (λ r. r ≡ map (resolved_predicate declared.now) items.now) }
{
    let mut out = List::new(alloc);
    for p in items {
        out.push(predicate(alloc, declared, p)?)?;
    }
    Ok(out)
}

fn statements(alloc: Global, declared: &Declared, f: &Function) -> Result<List<Stmt>, AllocError>
    ensures { IfOk result (λ r. r ≡ (resolved_function declared.now f.now).body) }
{
    let outer = outer_in(declared, declared.signature(&f.signature), f);
    body(alloc, &outer, f.body.as_slice())
}

fn function(alloc: Global, declared: &Declared, f: &Function) -> Result<Function, AllocError>
    ensures { IfOk result (λ r. r ≡ resolved_function declared.now f.now) }
{
    let names = both(alloc, &f.name, &f.signature)?;
    let locals = f.locals.copied(alloc)?;
    let body = statements(alloc, declared, f)?;
    let (name, signature) = names;
    Ok(Function {
        name,
        exported: f.exported,
        signature,
        locals,
        body,
        end: f.end,
    })
}

fn functions(
    alloc: Global,
    declared: &Declared,
    items: &[Function],
) -> Result<List<Function>, AllocError>
    ensures { IfOk result (λ r. r ≡ map (resolved_function declared.now) items.now) }
{
    let mut out = List::new(alloc);
    for f in items {
        out.push(function(alloc, declared, f)?)?;
    }
    Ok(out)
}

// The signatures and the predicates.
fn declared_items(
    alloc: Global,
    declared: &Declared,
    m: &Module,
) -> Result<(List<Signature>, List<Predicate>), AllocError>
    ensures signatures { IfOk result (λ r. r.0 ≡ map (resolved_signature declared.now) m.now.signatures) }
    ensures predicates { IfOk result (λ r. r.1 ≡ map (resolved_predicate declared.now) m.now.predicates) }
{
    let signatures = signatures(alloc, declared, m.signatures.as_slice())?;
    let predicates = predicates(alloc, declared, m.predicates.as_slice())?;
    Ok((signatures, predicates))
}

/// The module without bare arguments.
pub(crate) fn module(alloc: Global, declared: &Declared, m: &Module) -> Result<Module, AllocError>
    ensures { IfOk result (λ r. r ≡ resolved_with declared.now m.now) }
{
    let items = declared_items(alloc, declared, m)?;
    let functions = functions(alloc, declared, m.functions.as_slice())?;
    let name = m.name.copy(alloc)?;
    let imports = m.imports.copied(alloc)?;
    let (signatures, predicates) = items;
    Ok(Module {
        name,
        signatures,
        predicates,
        imports,
        functions,
    })
}
