//! The rule on the code at a label.
ghost use Rattle.std.specs.Option.{option_copied};
ghost use Rattle.std.specs.Prelude.{◌≡◌, IfOk};
ghost use Rattle.bed_lang.specs.Forms.{word_form};
ghost use Rattle.bed_deriv.specs.Checks.{first_failure};
ghost use Rattle.bed_deriv.specs.PureRules.{key_label, lone_label, form_label, is_name, has_signature, is_its_signature, label};
ghost use Rattle.bed_check_pure.specs.Faults.{AnswersRule};

use crate::fault::Fault;
use bed_deriv::{DArg, Sequent};
use bed_forms::{Key, word_form};
use bed_lang::{Decls, Form, List, Name, Pure, Word};
use std::alloc::{AllocError, Global};

fn key_label(key: &Key) -> Option<&Name>
    ensures { option_copied result ≡ key_label key.now }
{
    match key {
        Key::Label(name) => Some(name),
        Key::Var(_) => None,
    }
}

fn lone_label(parts: &[(Key, u32)]) -> Option<&Name>
    ensures { option_copied result ≡ lone_label parts.now }
{
    match parts {
        [] => None,
        [part, more @ ..] => match more {
            [] => {
                if part.1 == 1 {
                    key_label(&part.0)
                } else {
                    None
                }
            }
            _ => None,
        },
    }
}

// The label that a form just is.
fn form_label(form: &Form) -> Option<&Name>
    ensures { option_copied result ≡ form_label form.now }
{
    if form.constant == 0 {
        lone_label(form.parts.as_slice())
    } else {
        None
    }
}

fn is_name(found: Option<&Name>, name: &Name) -> bool
    ensures { result ≡ is_name (option_copied found.entry) name.now }
{
    match found {
        None => false,
        Some(x) => x.same(name),
    }
}

// Whether the name is that of the label's declared signature.
fn has_signature(decls: &Decls, label: Option<&Name>, name: &Name) -> bool
    ensures { result ≡ has_signature decls.now (option_copied label.entry) name.now }
{
    match label {
        None => false,
        Some(f) => is_name(decls.label(f), name),
    }
}

fn has_code(alloc: Global, decls: &Decls, a: &Word, name: &Name) -> Result<bool, AllocError>
    ensures { IfOk result (λ r. r ≡ has_signature decls.now (form_label (word_form a.now)) name.now) }
{
    let form = word_form(alloc, a)?;
    Ok(has_signature(decls, form_label(&form), name))
}

fn is_its_signature(alloc: Global, decls: &Decls, goal: &Pure) -> Result<bool, AllocError>
    ensures { IfOk result (λ r. r ≡ is_its_signature decls.now goal.now) }
{
    match goal {
        Pure::Code(a, name) => has_code(alloc, decls, a, name),
        _ => Ok(false),
    }
}

/// `label`: the goal is `code(&f, N)`, and N is the name of f's declared signature.
pub(crate) fn label(
    alloc: Global,
    decls: &Decls,
    goal: Option<&Pure>,
    args: &[DArg],
    n: usize,
) -> Result<List<Sequent>, Fault>
    ensures { AnswersRule result (first_failure (label decls.now (option_copied goal.entry) args.now n)) }
{
    if args.len() != 0 || n != 0 {
        return Err(Fault::Count);
    }
    match goal {
        None => Err(Fault::Condition),
        Some(g) => match is_its_signature(alloc, decls, g) {
            Err(_) => Err(Fault::Memory),
            Ok(true) => Ok(List::new(alloc)),
            Ok(false) => Err(Fault::Condition),
        },
    }
}
