//! The items of a module.
ghost use Rattle.std.specs.Prelude.{◌≡◌, ◌≤◌, ◌++◌, ◌∷◌, OnOk};
ghost use Rattle.bed_print.specs.Kinds.{fixed, for_kinds, assertion_kinds, reserve_kinds, params_kinds, signature_kinds, predicate_kinds, import_kinds, export_kinds, locals_kinds, head_kinds, function_kinds, module_kinds};

use crate::class::{
    BAR, COLON, COMMA, EQUAL, EXPORT, FOR, FUNCTION, IMPORT, LEFT_PAREN, LOCALS, MODULE, POST, PRE,
    PREDICATE, RESERVING, RIGHT_PAREN, SEMICOLON, SIGNATURE,
};
use crate::leaf::{push_fixed, push_name, push_number};
use crate::list::{Printed, push_all, push_parted};
use crate::statement::push_body;
use bed_lang::{Assertion, Bind, Function, Import, List, Module, Name, Predicate, Signature};
use bed_lex::Kind;
use std::alloc::{AllocError, Global};

/// Appends the logical variables of a signature, where there are some.
fn push_for(alloc: Global, logical: &[Bind], out: &mut List<Kind>) -> Result<(), AllocError>
    ensures { OnOk result (out.new ≡ out.old ++ for_kinds logical.now) }
{
    match logical {
        [] => Ok(()),
        [_, ..] => {
            push_fixed(FOR, out)?;
            push_parted(alloc, COMMA, logical, out)
        }
    }
}

/// Appends the name and the parameters of a signature.
fn push_params(
    alloc: Global,
    name: &Name,
    params: &[Name],
    out: &mut List<Kind>,
) -> Result<(), AllocError>
    ensures { OnOk result (out.new ≡ out.old ++ params_kinds name.now params.now) }
{
    push_fixed(SIGNATURE, out)?;
    push_name(alloc, name, out)?;
    push_fixed(LEFT_PAREN, out)?;
    push_parted(alloc, COMMA, params, out)?;
    push_fixed(RIGHT_PAREN, out)
}

/// Appends what a signature reserves, and its logical variables.
fn push_reserve(
    alloc: Global,
    reserve: u32,
    logical: &[Bind],
    out: &mut List<Kind>,
) -> Result<(), AllocError>
    ensures { OnOk result (out.new ≡ out.old ++ reserve_kinds reserve logical.now) }
{
    push_fixed(RESERVING, out)?;
    push_number(reserve, out)?;
    push_for(alloc, logical, out)
}

/// Appends a fixed word and an assertion.
fn push_condition(
    alloc: Global,
    class: u8,
    assertion: &Assertion,
    out: &mut List<Kind>,
) -> Result<(), AllocError>
    requires { 3 ≤ class }
    ensures { OnOk result (out.new ≡ out.old ++ fixed class ∷ assertion_kinds assertion.now) }
{
    push_fixed(class, out)?;
    assertion.print(alloc, out)
}

impl Printed for Signature {
    ghost kinds = { signature_kinds };

    fn print(&self, alloc: Global, out: &mut List<Kind>) -> Result<(), AllocError> {
        push_params(alloc, &self.name, self.params.as_slice(), out)?;
        push_reserve(alloc, self.reserve, self.logical.as_slice(), out)?;
        push_condition(alloc, PRE, &self.pre, out)?;
        push_condition(alloc, POST, &self.post, out)?;
        push_fixed(SEMICOLON, out)
    }
}

impl Printed for Predicate {
    ghost kinds = { predicate_kinds };

    fn print(&self, alloc: Global, out: &mut List<Kind>) -> Result<(), AllocError> {
        push_fixed(PREDICATE, out)?;
        push_name(alloc, &self.name, out)?;
        push_fixed(LEFT_PAREN, out)?;
        push_parted(alloc, COMMA, self.params.as_slice(), out)?;
        push_fixed(RIGHT_PAREN, out)?;
        push_fixed(EQUAL, out)?;
        push_parted(alloc, BAR, self.cases.as_slice(), out)?;
        push_fixed(SEMICOLON, out)
    }
}

impl Printed for Import {
    ghost kinds = { import_kinds };

    fn print(&self, alloc: Global, out: &mut List<Kind>) -> Result<(), AllocError> {
        push_fixed(IMPORT, out)?;
        push_name(alloc, &self.name, out)?;
        push_fixed(COLON, out)?;
        push_name(alloc, &self.signature, out)?;
        push_fixed(SEMICOLON, out)
    }
}

fn push_export(exported: bool, out: &mut List<Kind>) -> Result<(), AllocError>
    ensures { OnOk result (out.new ≡ out.old ++ export_kinds exported) }
{
    if exported {
        push_fixed(EXPORT, out)
    } else {
        Ok(())
    }
}

/// Appends a function without its locals and body.
fn push_head(alloc: Global, function: &Function, out: &mut List<Kind>) -> Result<(), AllocError>
    ensures { OnOk result (out.new ≡ out.old ++ head_kinds function.now) }
{
    push_export(function.exported, out)?;
    push_fixed(FUNCTION, out)?;
    push_name(alloc, &function.name, out)?;
    push_fixed(COLON, out)?;
    push_name(alloc, &function.signature, out)
}

/// Appends the locals of a function, where there are some.
fn push_locals(alloc: Global, locals: &[Name], out: &mut List<Kind>) -> Result<(), AllocError>
    ensures { OnOk result (out.new ≡ out.old ++ locals_kinds locals.now) }
{
    match locals {
        [] => Ok(()),
        [_, ..] => {
            push_fixed(LOCALS, out)?;
            push_parted(alloc, COMMA, locals, out)
        }
    }
}

impl Printed for Function {
    ghost kinds = { function_kinds };

    fn print(&self, alloc: Global, out: &mut List<Kind>) -> Result<(), AllocError> {
        push_head(alloc, self, out)?;
        push_locals(alloc, self.locals.as_slice(), out)?;
        push_body(alloc, self.body.as_slice(), out)
    }
}

/// Appends a module.
pub(crate) fn push_module(
    alloc: Global,
    tree: &Module,
    out: &mut List<Kind>,
) -> Result<(), AllocError>
    ensures { OnOk result (out.new ≡ out.old ++ module_kinds tree.now) }
{
    push_fixed(MODULE, out)?;
    push_name(alloc, &tree.name, out)?;
    push_fixed(SEMICOLON, out)?;
    push_all(alloc, tree.signatures.as_slice(), out)?;
    push_all(alloc, tree.predicates.as_slice(), out)?;
    push_all(alloc, tree.imports.as_slice(), out)?;
    push_all(alloc, tree.functions.as_slice(), out)
}
