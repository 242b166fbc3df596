//! Names, variables and lists.
ghost use Rattle.std.specs.Prelude.{◌≡◌, ◌∷◌, [], IfOk};
ghost use Rattle.bed_lang.specs.Prelude.{name as name_of, word as variable_of};
ghost use Rattle.bed_generate.specs.Generated.{signature_name as signature_name_of, function_name as function_name_of, local as local_at, old_value as old_value_of};

use bed_lang::{List, Name, Operand, Var, Word};
use std::alloc::{AllocError, Global};

/// A name.
pub(crate) fn name(alloc: Global, bytes: &[u8]) -> Result<Name, AllocError>
    ensures { IfOk result (λ x. x ≡ name_of bytes.now) }
{
    Ok(Name {
        bytes: List::from_slice(alloc, bytes)?,
        at: 0,
    })
}

/// The name of a signature by its number.
pub(crate) fn signature_name(alloc: Global, number: u32) -> Result<Name, AllocError>
    ensures { IfOk result (λ x. x ≡ signature_name_of number) }
{
    let text = format!(in alloc; "S{number}")?;
    name(alloc, text.as_bytes())
}

/// The name of a function by its number.
pub(crate) fn function_name(alloc: Global, number: u32) -> Result<Name, AllocError>
    ensures { IfOk result (λ x. x ≡ function_name_of number) }
{
    let text = format!(in alloc; "f{number}")?;
    name(alloc, text.as_bytes())
}

/// A local as an operand.
pub(crate) fn local(alloc: Global, bytes: &[u8]) -> Result<Operand, AllocError>
    ensures { IfOk result (λ a. a ≡ local_at bytes.now) }
{
    Ok(Operand::Local(name(alloc, bytes)?))
}

/// A variable as a word.
pub(crate) fn variable(alloc: Global, bytes: &[u8]) -> Result<Word, AllocError>
    ensures { IfOk result (λ w. w ≡ variable_of bytes.now) }
{
    Ok(Word::Var(Var::Named(name(alloc, bytes)?)))
}

/// The value of an argument at entry.
pub(crate) fn old_value(alloc: Global, bytes: &[u8]) -> Result<Word, AllocError>
    ensures { IfOk result (λ w. w ≡ old_value_of bytes.now) }
{
    Ok(Word::Var(Var::Old(name(alloc, bytes)?)))
}

/// A list of one item.
pub(crate) fn one<T: Drop>(alloc: Global, item: T) -> Result<List<T>, AllocError>
    ensures { IfOk result (λ r. r ≡ item ∷ []) }
{
    let mut out = List::new(alloc);
    out.push(item)?;
    Ok(out)
}

/// A list of one name.
pub(crate) fn one_name(alloc: Global, bytes: &[u8]) -> Result<List<Name>, AllocError>
    ensures { IfOk result (λ r. r ≡ name_of bytes.now ∷ []) }
{
    one(alloc, name(alloc, bytes)?)
}

/// A list of one local as an operand.
pub(crate) fn one_local(alloc: Global, bytes: &[u8]) -> Result<List<Operand>, AllocError>
    ensures { IfOk result (λ r. r ≡ local_at bytes.now ∷ []) }
{
    one(alloc, local(alloc, bytes)?)
}
