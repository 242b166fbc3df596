//! Names that are declared in two ways.
ghost use Rattle.std.specs.Prelude.{◌≡◌, ◌≢◌, [], ◌++◌, map, filter, length, ◌≤◌, Some, OnOk, IfOk, IfErr};
ghost use Rattle.bed_names.specs.Tables.{item_at};
ghost use Rattle.bed_link.specs.Parts as parts;
ghost use Rattle.bed_link.specs.Faults.{refusal, differs_from, differing};
ghost use Rattle.bed_link.specs.Linkable as linkable;
ghost use Rattle.bed_link.specs.Seen.{claim_of, module_of, pair_of};

use crate::error::{LinkError, differs};
use crate::parts::{Item, Part, parts};
use bed_lang::{Function, Import, Name, Predicate, Signature, Tree};
use bed_names::{Scoped, Table};
use std::alloc::{AllocError, Global};

/// What must be the same wherever it has one name.
pub(crate) trait Declared {
    ghost use Rattle.std.specs.Prelude.{Bool, ℕ};
    ghost use Rattle.bed_lang.specs.declared.word.Name.{Name};

    ghost name_of: { Self → Name };

    ghost number_of: { Self → ℕ };

    ghost same: { Self → Self → Bool };

    fn name(&self) -> &Name
        ensures { result.now ≡ name_of self.now };

    /// The number of its module.
    fn number(&self) -> u32
        ensures { result ≡ number_of self.now };

    fn is_same(&self, other: &Self) -> bool
        ensures { result ≡ same self.now other.now };
}

impl<'a, T: Item + Tree> Declared for Part<'a, T> {
    ghost name_of = { λ p. T.name_of p.item.now };

    ghost number_of = { λ p. p.number };

    ghost same = { λ p q. T.alike p.item.now q.item.now };

    fn name(&self) -> &Name {
        self.item.name()
    }

    fn number(&self) -> u32 {
        self.number
    }

    fn is_same(&self, other: &Part<'a, T>) -> bool {
        self.item.same_as(other.item)
    }
}

/// A name that a module uses under a signature's name: an exported function, or an import.
#[derive(Drop)]
pub(crate) struct Claim<'a> {
    pub(crate) name: &'a Name,
    pub(crate) signature: &'a Name,
    pub(crate) number: u32,
}

impl<'a> Declared for Claim<'a> {
    ghost use Rattle.bed_lang.specs.Same.{same_name};

    ghost name_of = { λ c. c.name.now };

    ghost number_of = { λ c. c.number };

    ghost same = { λ c d. same_name c.signature.now d.signature.now };

    fn name(&self) -> &Name {
        self.name
    }

    fn number(&self) -> u32 {
        self.number
    }

    fn is_same(&self, other: &Claim<'a>) -> bool {
        self.signature.same(other.signature)
    }
}

// An item is the same as the first of its name, if there is one.
fn agrees<T: Declared>(
    alloc: Global,
    items: &[T],
    first: Option<usize>,
    item: &T,
) -> Result<(), LinkError>
    ensures accepted { OnOk result (differs_from T.name_of T.number_of T.same (item_at items.now first) item.now ≡ []) }
    ensures refused { IfErr result (λ e. e ≢ LinkError.Memory → refusal (differs_from T.name_of T.number_of T.same (item_at items.now first) item.now) ≡ Some e) }
{
    let Some(number) = first else {
        return Ok(());
    };
    match items.get(number) {
        Some(first) if !first.is_same(item) => Err(differs(
            alloc,
            item.name(),
            first.number(),
            item.number(),
        )),
        _ => Ok(()),
    }
}

/// Items of one name are the same.
pub(crate) fn all_agree<T: Declared>(alloc: Global, items: &[T]) -> Result<(), LinkError>
    ensures accepted { OnOk result (differing T.name_of T.number_of T.same items.now ≡ []) }
    ensures refused { IfErr result (λ e. e ≢ LinkError.Memory → refusal (differing T.name_of T.number_of T.same items.now) ≡ Some e) }
{
    let mut table = Table::new(alloc);
    for (number, item) in items.iter().enumerate() {
        let name = item.name();
        let bytes = name.bytes.as_slice();
        let first = table.get(bytes);
        agrees(alloc, items, first, item)?;
        table.add(bytes, number)?;
    }
    Ok(())
}

// Signatures, or predicates, of one name are the same.
fn parts_agree<T: Item + Tree>(alloc: Global, modules: &[Scoped]) -> Result<(), LinkError>
    requires { length modules.now ≤ 64 }
    ensures accepted { OnOk result (differing (λ p. T.name_of p.0) (λ p. p.1) (λ p q. T.alike p.0 q.0) (parts.parts T.listed (map module_of modules.now)) ≡ []) }
    ensures refused { IfErr result (λ e. e ≢ LinkError.Memory → refusal (differing (λ p. T.name_of p.0) (λ p. p.1) (λ p q. T.alike p.0 q.0) (parts.parts T.listed (map module_of modules.now))) ≡ Some e) }
{
    let items = parts::<T>(alloc, modules)?;
    all_agree(alloc, items.as_slice())
}

// Appends what is claimed of exported functions.
fn push_functions<'a>(
    out: &mut Vec<Claim<'a>>,
    functions: &[Part<'a, Function>],
) -> Result<(), AllocError>
    ensures { OnOk result (map claim_of out.new.items ≡ map claim_of out.old.items ++ map parts.function_claim (filter parts.is_exported (map pair_of functions.now))) }
{
    for part in functions {
        if part.item.exported {
            out.push(Claim {
                name: &part.item.name,
                signature: &part.item.signature,
                number: part.number,
            })?;
        }
    }
    Ok(())
}

// Appends what is claimed of imports.
fn push_imports<'a>(
    out: &mut Vec<Claim<'a>>,
    imports: &[Part<'a, Import>],
) -> Result<(), AllocError>
    ensures { OnOk result (map claim_of out.new.items ≡ map claim_of out.old.items ++ map parts.import_claim (map pair_of imports.now)) }
{
    for part in imports {
        out.push(Claim {
            name: &part.item.name,
            signature: &part.item.signature,
            number: part.number,
        })?;
    }
    Ok(())
}

// The exported functions, and then the imports, each under its signature's name.
fn claims<'a>(
    alloc: Global,
    functions: &[Part<'a, Function>],
    imports: &[Part<'a, Import>],
) -> Result<Vec<Claim<'a>>, AllocError>
    ensures { IfOk result (λ v. map claim_of v.items ≡ map parts.function_claim (filter parts.is_exported (map pair_of functions.now)) ++ map parts.import_claim (map pair_of imports.now)) }
{
    let mut out = Vec::new(alloc);
    push_functions(&mut out, functions)?;
    push_imports(&mut out, imports)?;
    Ok(out)
}

// Functions and imports of one name have one signature's name.
fn claims_agree(
    alloc: Global,
    functions: &[Part<Function>],
    imports: &[Part<Import>],
) -> Result<(), LinkError>
    ensures accepted { OnOk result (linkable.claim_faults (map parts.function_claim (filter parts.is_exported (map pair_of functions.now)) ++ map parts.import_claim (map pair_of imports.now)) ≡ []) }
    ensures refused { IfErr result (λ e. e ≢ LinkError.Memory → refusal (linkable.claim_faults (map parts.function_claim (filter parts.is_exported (map pair_of functions.now)) ++ map parts.import_claim (map pair_of imports.now))) ≡ Some e) }
{
    let claims = claims(alloc, functions, imports)?;
    all_agree(alloc, claims.as_slice())
}

/// Each signature and predicate has one tree, and each function and import one signature.
#[tactic(auto, using(crate::proofs::FaultLemmas::append_none, crate::proofs::FaultLemmas::refusal_first, crate::proofs::FaultLemmas::refusal_later))]
pub(crate) fn none_differs(
    alloc: Global,
    modules: &[Scoped],
    functions: &[Part<Function>],
    imports: &[Part<Import>],
) -> Result<(), LinkError>
    requires few { length modules.now ≤ 64 }
    requires functions { map pair_of functions.now ≡ parts.functions (map module_of modules.now) }
    requires imports { map pair_of imports.now ≡ parts.imports (map module_of modules.now) }
    ensures accepted { OnOk result (linkable.differs_faults (map module_of modules.now) ≡ []) }
    ensures refused { IfErr result (λ e. e ≢ LinkError.Memory → refusal (linkable.differs_faults (map module_of modules.now)) ≡ Some e) }
{
    parts_agree::<Signature>(alloc, modules)?;
    parts_agree::<Predicate>(alloc, modules)?;
    claims_agree(alloc, functions, imports)
}
