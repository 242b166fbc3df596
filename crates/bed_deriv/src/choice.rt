//! The atoms that a match takes.
ghost use Rattle.std.specs.Prelude.{◌≡◌, ◌<◌, length, Some, IfOk};
ghost use Rattle.bed_deriv.specs.Arguments.{to_number};
ghost use Rattle.bed_deriv.specs.Matches.{atom_numbered, chosen, is_chosen, all_different, numbers_left, atoms_left};

use crate::arguments::numbered;
use crate::derivation::DArg;
use bed_lang::{Atom, List};
use std::alloc::{AllocError, Global};

// The atom that an argument is the number of, with its number.
fn atom_chosen(alloc: Global, atoms: &[Atom], arg: &DArg) -> Result<Option<(u32, Atom)>, AllocError>
    ensures { IfOk result (λ r. r ≡ atom_numbered atoms.now (to_number (Some arg.now))) }
{
    match arg {
        DArg::Number(n) => match numbered(atoms, *n) {
            None => Ok(None),
            Some(atom) => Ok(Some((*n, atom.copy(alloc)?))),
        },
        _ => Ok(None),
    }
}

/// The atoms that arguments are the numbers of, each with its number; None where an argument is none.
pub fn chosen(
    alloc: Global,
    atoms: &[Atom],
    args: &[DArg],
) -> Result<Option<List<(u32, Atom)>>, AllocError>
    ensures { IfOk result (λ r. r ≡ chosen atoms.now args.now) }
{
    let mut out = List::new(alloc);
    let mut rest = args;
    while let [arg, more @ ..] = rest {
        match atom_chosen(alloc, atoms, arg)? {
            None => return Ok(None),
            Some(choice) => out.push(choice)?,
        }
        rest = more;
    }
    Ok(Some(out))
}

// Whether the atom of this number is chosen.
fn is_chosen(number: usize, choices: &[(u32, Atom)]) -> bool
    ensures { result ≡ is_chosen number choices.now }
{
    let mut rest = choices;
    while let [choice, more @ ..] = rest {
        if choice.0 as usize == number {
            return true;
        }
        rest = more;
    }
    false
}

/// Whether no atom is chosen twice.
pub fn all_different(choices: &[(u32, Atom)]) -> bool
    ensures { result ≡ all_different choices.now }
{
    let mut rest = choices;
    while let [choice, more @ ..] = rest {
        if is_chosen(choice.0 as usize, more) {
            return false;
        }
        rest = more;
    }
    true
}

/// The numbers of the atoms that aren't chosen, from 1.
pub fn numbers_left(
    alloc: Global,
    choices: &[(u32, Atom)],
    atoms: &[Atom],
) -> Result<List<u32>, AllocError>
    requires { length atoms.now < 4294967296 }
    ensures { IfOk result (λ r. r ≡ numbers_left choices.now 1 atoms.now) }
{
    let mut out = List::new(alloc);
    for at in 0..atoms.len() {
        if !is_chosen(at + 1, choices) {
            out.push((at + 1) as u32)?;
        }
    }
    Ok(out)
}

/// The atoms that aren't chosen.
pub fn atoms_left(
    alloc: Global,
    choices: &[(u32, Atom)],
    atoms: &[Atom],
) -> Result<List<Atom>, AllocError>
    ensures { IfOk result (λ r. r ≡ atoms_left choices.now 1 atoms.now) }
{
    let mut out = List::new(alloc);
    for at in 0..atoms.len() {
        if !is_chosen(at + 1, choices) {
            out.push(atoms[at].copy(alloc)?)?;
        }
    }
    Ok(out)
}
