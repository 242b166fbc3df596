//! Atoms taken out of a state, and put at its end.
ghost use Rattle.std.specs.Prelude.{◌≡◌, ◌-◌, IfOk, OnOk};
ghost use Rattle.bed_deriv.specs.Matches.{atoms_left};
ghost use Rattle.bed_deriv.specs.HeapRules.{without, taken, both_taken, with_atom};

use bed_deriv::SymState;
use bed_deriv::choice::atoms_left;
use bed_lang::{Atom, List, Tree, Word};
use std::alloc::{AllocError, Global};

// Takes out the atom of this number, from 1, if there is one.
#[tactic(auto, using(crate::proofs::WithoutLaws::remove_without, crate::proofs::WithoutLaws::without_past))]
fn take_atom(atoms: &mut List<Atom>, number: u32)
    ensures { atoms.new ≡ without (number - 1) atoms.old }
{
    let at = number.saturating_sub(1) as usize;
    if at >= atoms.len() {
        return;
    }
    atoms.remove(at);
}

/// Puts an atom at the end.
pub(crate) fn add_atom(s: &mut SymState, atom: Atom) -> Result<(), AllocError>
    ensures { OnOk result (s.new ≡ with_atom s.old atom) }
{
    s.atoms.push(atom)
}

// The state with these atoms in place of its own.
fn with_atoms(alloc: Global, s: &SymState, atoms: List<Atom>) -> Result<SymState, AllocError>
    ensures { IfOk result (λ r. r ≡ record s.now { atoms = atoms }) }
{
    Ok(SymState {
        locals: s.locals.copied(alloc)?,
        facts: s.facts.copied(alloc)?,
        atoms,
        next: s.next,
    })
}

/// The state without the chosen atoms.
pub(crate) fn without_chosen(
    alloc: Global,
    s: &SymState,
    cs: &[(u32, Atom)],
) -> Result<SymState, AllocError>
    ensures { IfOk result (λ r. r ≡ record s.now { atoms = atoms_left cs.now 1 s.now.atoms }) }
{
    let atoms = atoms_left(alloc, cs, s.atoms.as_slice())?;
    with_atoms(alloc, s, atoms)
}

/// The state without the atom of this number, from 1.
pub(crate) fn taken(alloc: Global, s: &SymState, number: u32) -> Result<SymState, AllocError>
    ensures { IfOk result (λ r. r ≡ taken s.now number) }
{
    let mut atoms = s.atoms.copied(alloc)?;
    take_atom(&mut atoms, number);
    with_atoms(alloc, s, atoms)
}

// A state's atoms without one, and then without another.
fn atoms_in_turn(
    alloc: Global,
    s: &SymState,
    first: u32,
    second: u32,
) -> Result<List<Atom>, AllocError>
    ensures { IfOk result (λ r. r ≡ without (second - 1) (without (first - 1) s.now.atoms)) }
{
    let mut atoms = s.atoms.copied(alloc)?;
    take_atom(&mut atoms, first);
    take_atom(&mut atoms, second);
    Ok(atoms)
}

// The state without an atom, and then without another.
fn taken_in_turn(
    alloc: Global,
    s: &SymState,
    first: u32,
    second: u32,
) -> Result<SymState, AllocError>
    ensures { IfOk result (λ r. r ≡ taken (taken s.now first) second) }
{
    let atoms = atoms_in_turn(alloc, s, first, second)?;
    with_atoms(alloc, s, atoms)
}

/// The state without the atoms of these two numbers.
pub(crate) fn both_taken(
    alloc: Global,
    s: &SymState,
    first: u32,
    second: u32,
) -> Result<SymState, AllocError>
    ensures { IfOk result (λ r. r ≡ both_taken s.now first second) }
{
    if first <= second {
        taken_in_turn(alloc, s, second, first)
    } else {
        taken_in_turn(alloc, s, first, second)
    }
}

fn cell(alloc: Global, address: &Word, content: &Word) -> Result<Atom, AllocError>
    ensures { IfOk result (λ r. r ≡ Atom.Cell address.now content.now) }
{
    let address = address.copy(alloc)?;
    let content = content.copy(alloc)?;
    Ok(Atom::Cell(address, content))
}

fn block(alloc: Global, address: &Word, words: &Word) -> Result<Atom, AllocError>
    ensures { IfOk result (λ r. r ≡ Atom.Block address.now words.now) }
{
    let address = address.copy(alloc)?;
    let words = words.copy(alloc)?;
    Ok(Atom::Block(address, words))
}

/// Puts a cell at the end, with this content at this address.
pub(crate) fn add_cell(
    alloc: Global,
    s: &mut SymState,
    address: &Word,
    content: &Word,
) -> Result<(), AllocError>
    ensures { OnOk result (s.new ≡ with_atom s.old (Atom.Cell address.now content.now)) }
{
    let atom = cell(alloc, address, content)?;
    add_atom(s, atom)
}

/// Puts a block at the end, of these words from this address.
pub(crate) fn add_block(
    alloc: Global,
    s: &mut SymState,
    address: &Word,
    words: &Word,
) -> Result<(), AllocError>
    ensures { OnOk result (s.new ≡ with_atom s.old (Atom.Block address.now words.now)) }
{
    let atom = block(alloc, address, words)?;
    add_atom(s, atom)
}
