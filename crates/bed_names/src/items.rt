//! The faults of the items of a module.
#![tactic(auto, using(crate::proofs::NotedLemmas::noted_append))]

ghost use Rattle.std.specs.Prelude.{◌≡◌, ◌≤◌, All, length};
ghost use Rattle.bed_names.specs.Faults.{noted, all_faults};
ghost use Rattle.bed_names.specs.Modules.{signature_faults, predicate_faults, import_faults, function_faults, items_faults};

use crate::declared::Declared;
use crate::error::NameError;
use crate::functions::{function, import, predicate, signature};
use bed_lang::{Function, Import, Module, Predicate, Signature};

fn signatures(
    declared: &Declared,
    mut found: Option<NameError>,
    items: &[Signature],
) -> Option<NameError>
    ensures { result ≡ noted found (all_faults (signature_faults declared.now) items.now) }
{
    for s in items {
        found = signature(declared, found, s);
    }
    found
}

fn predicates(
    declared: &Declared,
    mut found: Option<NameError>,
    items: &[Predicate],
) -> Option<NameError>
    ensures { result ≡ noted found (all_faults (predicate_faults declared.now) items.now) }
{
    for p in items {
        found = predicate(declared, found, p);
    }
    found
}

fn imports(declared: &Declared, mut found: Option<NameError>, items: &[Import]) -> Option<NameError>
    ensures { result ≡ noted found (all_faults (import_faults declared.now) items.now) }
{
    for i in items {
        found = import(declared, found, i);
    }
    found
}

fn functions(
    declared: &Declared,
    mut found: Option<NameError>,
    items: &[Function],
) -> Option<NameError>
    requires { All (λ f. length f.locals ≤ 60) items.now }
    ensures { result ≡ noted found (all_faults (function_faults declared.now) items.now) }
{
    for f in items {
        found = function(declared, found, f);
    }
    found
}

/// What is left of what was found and the faults of all items.
pub(crate) fn items(declared: &Declared, found: Option<NameError>, m: &Module) -> Option<NameError>
    requires { All (λ f. length f.locals ≤ 60) m.now.functions }
    ensures { result ≡ noted found (items_faults declared.now m.now) }
{
    let found = signatures(declared, found, m.signatures.as_slice());
    let found = predicates(declared, found, m.predicates.as_slice());
    let found = imports(declared, found, m.imports.as_slice());
    functions(declared, found, m.functions.as_slice())
}
