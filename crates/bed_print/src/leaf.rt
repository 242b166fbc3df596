//! Single tokens.
ghost use Rattle.std.specs.Prelude.{◌≡◌, ◌≤◌, ◌++◌, ◌∷◌, [], OnOk};
ghost use Rattle.bed_print.specs.Kinds.{fixed, name_kinds, var_kinds};

use crate::class::{HOLE, OLD, RESULT};
use crate::list::Printed;
use bed_lang::{List, Name, Var};
use bed_lex::Kind;
use std::alloc::{AllocError, Global};

/// Appends the fixed word of a class.
pub(crate) fn push_fixed(class: u8, out: &mut List<Kind>) -> Result<(), AllocError>
    requires { 3 ≤ class }
    ensures { OnOk result (out.new ≡ out.old ++ fixed class ∷ []) }
{
    out.push(Kind::Word(class - 3))
}

/// Appends a number.
pub(crate) fn push_number(number: u32, out: &mut List<Kind>) -> Result<(), AllocError>
    ensures { OnOk result (out.new ≡ out.old ++ Kind.Number number ∷ []) }
{
    out.push(Kind::Number(number))
}

/// Appends a name.
pub(crate) fn push_name(alloc: Global, name: &Name, out: &mut List<Kind>) -> Result<(), AllocError>
    ensures { OnOk result (out.new ≡ out.old ++ Kind.Name name.now ∷ []) }
{
    out.push(Kind::Name(name.copy(alloc)?))
}

/// Appends a variable.
pub(crate) fn push_var(alloc: Global, var: &Var, out: &mut List<Kind>) -> Result<(), AllocError>
    ensures { OnOk result (out.new ≡ out.old ++ var_kinds var.now) }
{
    match var {
        Var::Named(name) => push_name(alloc, name, out),
        Var::Old(name) => {
            push_fixed(OLD, out)?;
            push_name(alloc, name, out)
        }
        Var::Answer(_) => push_fixed(RESULT, out),
        Var::Fresh(number) => out.push(Kind::Fresh(*number)),
        Var::Hole => push_fixed(HOLE, out),
    }
}

impl Printed for Name {
    ghost kinds = { name_kinds };

    fn print(&self, alloc: Global, out: &mut List<Kind>) -> Result<(), AllocError> {
        push_name(alloc, self, out)
    }
}
