//! What a module declares.
#![tactic(auto, using(std::proofs::lemmas::List::map_more))]

ghost use Rattle.std.specs.Prelude.{◌≡◌, IfOk, map};
ghost use Rattle.bed_lang.specs.Declarations.{declarations as declarations_of, labels_of};

use crate::prelude::prelude;
use bed_lang::{Decls, Function, Import, List, Module, Name, Predicate, Tree};
use std::alloc::{AllocError, Global};

fn import_labels(alloc: Global, imports: &[Import]) -> Result<List<(Name, Name)>, AllocError>
    ensures { IfOk result (λ ls. ls ≡ map (λ i. (i.name, i.signature)) imports.now) }
{
    let mut labels = List::new(alloc);
    for i in imports {
        labels.push((i.name.copy(alloc)?, i.signature.copy(alloc)?))?;
    }
    Ok(labels)
}

fn function_labels(alloc: Global, functions: &[Function]) -> Result<List<(Name, Name)>, AllocError>
    ensures { IfOk result (λ ls. ls ≡ map (λ f. (f.name, f.signature)) functions.now) }
{
    let mut labels = List::new(alloc);
    for f in functions {
        labels.push((f.name.copy(alloc)?, f.signature.copy(alloc)?))?;
    }
    Ok(labels)
}

fn labels(alloc: Global, m: &Module) -> Result<List<(Name, Name)>, AllocError>
    ensures { IfOk result (λ ls. ls ≡ labels_of m.now) }
{
    let mut labels = import_labels(alloc, m.imports.as_slice())?;
    labels.append(function_labels(alloc, m.functions.as_slice())?)?;
    Ok(labels)
}

// The predicates of a module, behind the prelude's.
fn predicates(alloc: Global, m: &Module) -> Result<List<Predicate>, AllocError>
    ensures { IfOk result (λ ps. ps ≡ (declarations_of m.now).predicates) }
{
    let mut predicates = prelude(alloc)?;
    predicates.append(m.predicates.copied(alloc)?)?;
    Ok(predicates)
}

/// The declarations of a module, with the prelude's predicates.
pub(crate) fn declarations(alloc: Global, m: &Module) -> Result<Decls, AllocError>
    ensures { IfOk result (λ d. d ≡ declarations_of m.now) }
{
    let labels = labels(alloc, m)?;
    let signatures = m.signatures.copied(alloc)?;
    let predicates = predicates(alloc, m)?;
    Ok(Decls {
        signatures,
        predicates,
        labels,
    })
}
