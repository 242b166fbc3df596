//! Modules that keep the rules of names.
ghost use Rattle.std.specs.Prelude.{◌≡◌, ◌≢◌, ◌≤◌, None, Some, All, length, OnOk, IfOk, IfErr};
ghost use Rattle.bed_lang.specs.Declarations.{declarations as declarations_of};
ghost use Rattle.bed_names.specs.Faults.{noted, refusal};
ghost use Rattle.bed_names.specs.Limits.{KeepsLimits};
ghost use Rattle.bed_names.specs.Modules.{name_spaces_faults, faults};
ghost use Rattle.bed_names.specs.Resolved.{resolved};

use crate::declarations::declarations;
use crate::declared::{Declared, Declaring};
use crate::error::NameError;
use crate::items::items;
use crate::limits::keeps_limits;
use crate::resolving;
use bed_lang::{Decls, Module};
use std::alloc::Global;
use std::marker::Model;

/// A module that keeps the rules of names, with what it declares.
#[derive(Drop)]
pub struct Scoped {
    module: Module,
    decls: Decls,
}

impl Model for Scoped {
    ghost use Rattle.std.specs.Prelude.{◌≡◌};
    ghost use Rattle.std.specs.Coded.{codes};
    ghost use Rattle.bed_lang.specs.contracts.word.Word as word_contract;
    ghost use Rattle.bed_lang.specs.contracts.word.Seq as seq_contract;
    ghost use Rattle.bed_lang.specs.contracts.statement.Stmt as statement_contract;
    ghost use Rattle.bed_lang.specs.Declarations.{declarations};
    ghost use Rattle.bed_names.specs.InScope.{InScope};

    ghost Value = { InScope };

    ghost coded = { Prim.hlevel (codes, word_contract.the_row.coded, seq_contract.the_row.coded, statement_contract.the_row.coded) };

    ghost view = { λ s. record { «module» = s.module; decls = s.decls } };

    ghost invariant = { λ s. s.decls ≡ declarations s.module };
}

impl Scoped {
    /// The module, without bare arguments.
    pub fn module(&self) -> &Module
        ensures { result.now ≡ self.now.module }
    {
        &self.module
    }

    /// The declarations of the module, with the prelude's two predicates.
    pub fn decls(&self) -> &Decls
        ensures value { result.now ≡ self.now.decls }
        ensures are { self.now.decls ≡ declarations_of self.now.module }
    {
        &self.decls
    }
}

// The module without bare arguments, or its refusal.
fn judged(alloc: Global, declaring: &Declaring, m: &Module) -> Result<Module, NameError>
    requires locals { All (λ f. length f.locals ≤ 60) m.now.functions }
    requires are { declaring.now.declared ≡ declarations_of m.now }
    requires found { declaring.now.found ≡ noted None (name_spaces_faults (declarations_of m.now)) }
    ensures accepted { OnOk result (refusal (faults m.now) ≡ None) }
    ensures module { IfOk result (λ r. r ≡ resolved m.now) }
    ensures refused { IfErr result (λ e. e ≢ NameError.Memory → refusal (faults m.now) ≡ Some e) }
{
    match items(&declaring.declared, declaring.found, m) {
        Some(refused) => Err(refused),
        None => Ok(resolving::module(alloc, &declaring.declared, m)?),
    }
}

// The same, by the declarations of the module.
fn checked(alloc: Global, decls: &Decls, m: &Module) -> Result<Module, NameError>
    requires limits { KeepsLimits m.now }
    requires are { decls.now ≡ declarations_of m.now }
    ensures accepted { OnOk result (refusal (faults m.now) ≡ None) }
    ensures module { IfOk result (λ r. r ≡ resolved m.now) }
    ensures refused { IfErr result (λ e. e ≢ NameError.Memory → refusal (faults m.now) ≡ Some e) }
{
    let declaring = Declared::new(alloc, decls)?;
    judged(alloc, &declaring, m)
}

// A module that keeps the limits, without bare arguments, or its refusal.
fn accepted(alloc: Global, m: &Module) -> Result<Module, NameError>
    requires { KeepsLimits m.now }
    ensures accepted { OnOk result (refusal (faults m.now) ≡ None) }
    ensures module { IfOk result (λ r. r ≡ resolved m.now) }
    ensures refused { IfErr result (λ e. e ≢ NameError.Memory → refusal (faults m.now) ≡ Some e) }
{
    let decls = declarations(alloc, m)?;
    checked(alloc, &decls, m)
}

// A module with its declarations.
fn with_declarations(alloc: Global, m: Module) -> Result<Scoped, NameError>
    ensures ok { IfOk result (λ s. (s.module ≡ m) × (s.decls ≡ declarations_of m)) }
    ensures err { IfErr result (λ e. e ≡ NameError.Memory) }
{
    let decls = declarations(alloc, &m)?;
    Ok(Scoped { module: m, decls })
}

// The module without bare arguments, with its declarations.
fn resolved_module(alloc: Global, m: &Module) -> Result<Scoped, NameError>
    requires { KeepsLimits m.now }
    ensures ok { IfOk result (λ s. (refusal (faults m.now) ≡ None) × (s.module ≡ resolved m.now) × (s.decls ≡ declarations_of (resolved m.now))) }
    ensures refused { IfErr result (λ e. e ≢ NameError.Memory → refusal (faults m.now) ≡ Some e) }
{
    let module = accepted(alloc, m)?;
    with_declarations(alloc, module)
}

/// The module without bare arguments, with its declarations, where no rule of names is broken.
///
/// # Errors
/// Of all that break a rule the one with the least place, at one place the one of the first rule;
/// or `Memory`, for want of memory and where a list of parameters or of locals has more than 60
/// names or a signature reserves more than 4096 words, which no text does that can be read.
pub fn scope(alloc: Global, m: Module) -> Result<Scoped, NameError>
    ensures ok { IfOk result (λ s. (refusal (faults m) ≡ None) × (s.module ≡ resolved m) × (s.decls ≡ declarations_of (resolved m))) }
    ensures limits { OnOk result (KeepsLimits m) }
    ensures beyond { (KeepsLimits m → ⊥) → result ≡ Err NameError.Memory }
    ensures refused { IfErr result (λ e. e ≢ NameError.Memory → refusal (faults m) ≡ Some e) }
{
    if keeps_limits(&m) {
        resolved_module(alloc, &m)
    } else {
        Err(NameError::Memory)
    }
}
