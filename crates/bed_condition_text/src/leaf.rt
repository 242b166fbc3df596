//! Numbers, names and variables.
ghost use Rattle.std.specs.Prelude.{◌≡◌, ◌++◌, OnOk};
ghost use Rattle.std.specs.Fmt.{decimal};
ghost use Rattle.bed_condition_text.specs.Texts.{name_text, var_text};

use crate::list::Written;
use bed_lang::{Name, Var};
use std::alloc::{AllocError, Global};

/// Appends a number in decimal digits.
pub(crate) fn push_decimal(alloc: Global, number: u32, out: &mut Vec<u8>) -> Result<(), AllocError>
    ensures { OnOk result (out.new.items ≡ out.old.items ++ decimal number) }
{
    let digits = format!(in alloc; "{number}")?;
    out.extend_from_slice(digits.as_bytes())
}

/// Appends a name.
pub(crate) fn push_name(name: &Name, out: &mut Vec<u8>) -> Result<(), AllocError>
    ensures { OnOk result (out.new.items ≡ out.old.items ++ name.now.bytes) }
{
    out.extend_from_slice(name.bytes.as_slice())
}

/// Appends a variable.
pub(crate) fn push_var(alloc: Global, var: &Var, out: &mut Vec<u8>) -> Result<(), AllocError>
    ensures { OnOk result (out.new.items ≡ out.old.items ++ var_text var.now) }
{
    match var {
        Var::Named(name) => push_name(name, out),
        Var::Old(name) => {
            out.extend_from_slice(b"old ")?;
            push_name(name, out)
        }
        Var::Answer(_) => out.extend_from_slice(b"result"),
        Var::Fresh(number) => {
            out.extend_from_slice(b"#")?;
            push_decimal(alloc, *number, out)
        }
        Var::Hole => out.extend_from_slice(b"_"),
    }
}

impl Written for Name {
    ghost text = { name_text };

    fn write(&self, _alloc: Global, out: &mut Vec<u8>) -> Result<(), AllocError> {
        push_name(self, out)
    }
}
