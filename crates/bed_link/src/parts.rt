//! What modules declare, each with the number of its module.
ghost use Rattle.std.specs.Prelude.{◌≡◌, ◌≤◌, ◌++◌, map, length, IfOk, OnOk};
ghost use Rattle.bed_lang.specs.declared.module.Module.{Module};
ghost use Rattle.bed_link.specs.Parts.{numbered, parts as parts_in};
ghost use Rattle.bed_link.specs.Seen.{module_of, pair_of};

use bed_lang::{Function, Import, Module, Name, Predicate, Signature};
use bed_names::Scoped;
use std::alloc::{AllocError, Global};

/// A kind of things that modules declare under names.
pub(crate) trait Item {
    ghost use Rattle.std.specs.Prelude.{List};
    ghost use Rattle.bed_lang.specs.declared.word.Name.{Name};
    ghost use Rattle.bed_lang.specs.declared.module.Module.{Module};

    ghost listed: { Module → List Self };

    ghost name_of: { Self → Name };

    /// Those of a module.
    fn listed(source: &Module) -> &[Self]
        ensures { result.now ≡ listed source.now };

    fn name(&self) -> &Name
        ensures { result.now ≡ name_of self.now };
}

impl Item for Signature {
    ghost listed = { λ m. m.signatures };

    ghost name_of = { λ s. s.name };

    fn listed(source: &Module) -> &[Signature] {
        source.signatures.as_slice()
    }

    fn name(&self) -> &Name {
        &self.name
    }
}

impl Item for Predicate {
    ghost listed = { λ m. m.predicates };

    ghost name_of = { λ p. p.name };

    fn listed(source: &Module) -> &[Predicate] {
        source.predicates.as_slice()
    }

    fn name(&self) -> &Name {
        &self.name
    }
}

impl Item for Import {
    ghost listed = { λ m. m.imports };

    ghost name_of = { λ i. i.name };

    fn listed(source: &Module) -> &[Import] {
        source.imports.as_slice()
    }

    fn name(&self) -> &Name {
        &self.name
    }
}

impl Item for Function {
    ghost listed = { λ m. m.functions };

    ghost name_of = { λ f. f.name };

    fn listed(source: &Module) -> &[Function] {
        source.functions.as_slice()
    }

    fn name(&self) -> &Name {
        &self.name
    }
}

/// One of them, with the number of its module, from 0.
#[derive(Drop)]
pub(crate) struct Part<'a, T> {
    pub(crate) item: &'a T,
    pub(crate) number: u32,
}

// Appends those of a module.
fn push_parts<'a, T: Item>(
    out: &mut Vec<Part<'a, T>>,
    source: &'a Module,
    number: u32,
) -> Result<(), AllocError>
    ensures { OnOk result (map pair_of out.new.items ≡ map pair_of out.old.items ++ map (numbered number) (T.listed source.now)) }
{
    let items = T::listed(source);
    for item in items {
        out.push(Part { item, number })?;
    }
    Ok(())
}

/// Those of all modules, in the order of modules and texts.
pub(crate) fn parts<'a, T: Item>(
    alloc: Global,
    modules: &'a [Scoped],
) -> Result<Vec<Part<'a, T>>, AllocError>
    requires { length modules.now ≤ 64 }
    ensures { IfOk result (λ v. map pair_of v.items ≡ parts_in T.listed (map module_of modules.now)) }
{
    let mut out = Vec::new(alloc);
    let mut number: u32 = 0;
    for scoped in modules {
        push_parts(&mut out, scoped.module(), number)?;
        number += 1;
    }
    Ok(out)
}
