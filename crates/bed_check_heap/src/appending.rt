//! The rule append.
ghost use Rattle.std.specs.Prelude.{◌≡◌, ◌∷◌, [], Some, IfOk, OnOk};
ghost use Rattle.bed_deriv.specs.Checks.{first_failure};
ghost use Rattle.bed_deriv.specs.HeapRules.{Segment, segment_args, both_taken, with_atom, joined_segment, append_rule};
ghost use Rattle.bed_check_pure.specs.Faults.{AnswersRule};
ghost use Rattle.bed_check_heap.specs.Predicates.{segment_from, joined, append_second, append_first, append_atoms, append_from};

use crate::atoms::{add_atom, both_taken};
use crate::remainder::goal_and_state;
use crate::segments::{has_segments, is_name};
use bed_check_pure::Fault;
use bed_deriv::arguments::{number_at, numbered};
use bed_deriv::{DArg, Remainder, SymState};
use bed_lang::{Arg, Atom, Box, Decls, List, Name, Pure, Seq, Word};
use std::alloc::{AllocError, Global};

// A segment's start, end and elements.
type Parts<'a> = (&'a Word, &'a Word, &'a Seq);

fn boxed(alloc: Global, s: &Seq) -> Result<Box<Seq>, AllocError>
    ensures { IfOk result (λ r. r ≡ s.now) }
{
    Box::new(alloc, s.copy(alloc)?)
}

fn all_elements(alloc: Global, s: &Seq, t: &Seq) -> Result<Seq, AllocError>
    ensures { IfOk result (λ r. r ≡ Seq.App s.now t.now) }
{
    let s = boxed(alloc, s)?;
    let t = boxed(alloc, t)?;
    Ok(Seq::App(s, t))
}

fn ends(alloc: Global, start: &Word, end: &Word) -> Result<List<Arg>, AllocError>
    ensures { IfOk result (λ r. r ≡ Arg.Word 0 start.now ∷ Arg.Word 0 end.now ∷ []) }
{
    let mut args = List::new(alloc);
    args.push(Arg::Word(0, start.copy(alloc)?))?;
    args.push(Arg::Word(0, end.copy(alloc)?))?;
    Ok(args)
}

fn joined_args(alloc: Global, first: Parts<'_>, second: Parts<'_>) -> Result<List<Arg>, AllocError>
    ensures { IfOk result (λ r. r ≡ Arg.Word 0 first.entry.0.now ∷ Arg.Word 0 second.entry.1.now ∷ Arg.Seq 0 (Seq.App first.entry.2.now second.entry.2.now) ∷ []) }
{
    let elements = all_elements(alloc, first.2, second.2)?;
    let mut args = ends(alloc, first.0, second.1)?;
    args.push(Arg::Seq(0, elements))?;
    Ok(args)
}

// The segment of the first one's name that goes through both.
fn joined_atom(
    alloc: Global,
    name: &Name,
    first: Parts<'_>,
    second: Parts<'_>,
) -> Result<Atom, AllocError>
    ensures { IfOk result (λ r. r ≡ joined_segment (segment_from name.now first.entry.0.now first.entry.1.now first.entry.2.now) (segment_from name.now second.entry.0.now second.entry.1.now second.entry.2.now)) }
{
    let args = joined_args(alloc, first, second)?;
    let name = name.copy(alloc)?;
    Ok(Atom::Pred(name, args))
}

// Puts that segment at the end.
fn add_joined(
    alloc: Global,
    s: &mut SymState,
    name: &Name,
    first: Parts<'_>,
    second: Parts<'_>,
) -> Result<(), AllocError>
    ensures { OnOk result (s.new ≡ with_atom s.old (joined_segment (segment_from name.now first.entry.0.now first.entry.1.now first.entry.2.now) (segment_from name.now second.entry.0.now second.entry.1.now second.entry.2.now))) }
{
    let atom = joined_atom(alloc, name, first, second)?;
    add_atom(s, atom)
}

fn joined_state(
    alloc: Global,
    s: &SymState,
    i: u32,
    j: u32,
    name: &Name,
    first: Parts<'_>,
    second: Parts<'_>,
) -> Result<SymState, AllocError>
    ensures { IfOk result (λ r. r ≡ with_atom (both_taken s.now i j) (joined_segment (segment_from name.now first.entry.0.now first.entry.1.now first.entry.2.now) (segment_from name.now second.entry.0.now second.entry.1.now second.entry.2.now))) }
{
    let mut state = both_taken(alloc, s, i, j)?;
    add_joined(alloc, &mut state, name, first, second)?;
    Ok(state)
}

fn equal(alloc: Global, a: &Word, b: &Word) -> Result<Pure, AllocError>
    ensures { IfOk result (λ r. r ≡ Pure.Equal a.now b.now) }
{
    let a = a.copy(alloc)?;
    let b = b.copy(alloc)?;
    Ok(Pure::Equal(a, b))
}

// What is left of two segments.
fn joined(
    alloc: Global,
    s: &SymState,
    i: u32,
    j: u32,
    name: &Name,
    first: Parts<'_>,
    second: Parts<'_>,
) -> Result<Remainder, AllocError>
    ensures { IfOk result (λ r. r ≡ joined s.now i j (segment_from name.now first.entry.0.now first.entry.1.now first.entry.2.now) (segment_from name.now second.entry.0.now second.entry.1.now second.entry.2.now)) }
{
    let state = joined_state(alloc, s, i, j, name, first, second)?;
    let goal = equal(alloc, first.1, second.0)?;
    goal_and_state(alloc, goal, state)
}

fn both_segments(
    alloc: Global,
    s: &SymState,
    i: u32,
    j: u32,
    name: &Name,
    first: Parts<'_>,
    other: &Name,
    second: Parts<'_>,
) -> Result<Remainder, Fault>
    ensures { AnswersRule result (first_failure (append_second s.now i j (segment_from name.now first.entry.0.now first.entry.1.now first.entry.2.now) (Some (segment_from other.now second.entry.0.now second.entry.1.now second.entry.2.now)))) }
{
    match joined(alloc, s, i, j, name, first, second) {
        Ok(left) => Ok(left),
        Err(_) => Err(Fault::Memory),
    }
}

fn second_args(
    alloc: Global,
    s: &SymState,
    i: u32,
    j: u32,
    name: &Name,
    first: Parts<'_>,
    other: &Name,
    args: &[Arg],
) -> Result<Remainder, Fault>
    ensures { AnswersRule result (first_failure (append_second s.now i j (segment_from name.now first.entry.0.now first.entry.1.now first.entry.2.now) (segment_args other.now args.now))) }
{
    match args {
        [start, end, elements] => match start {
            Arg::Word(_, start) => match end {
                Arg::Word(_, end) => match elements {
                    Arg::Seq(_, elements) => {
                        both_segments(alloc, s, i, j, name, first, other, (start, end, elements))
                    }
                    _ => Err(Fault::Condition),
                },
                _ => Err(Fault::Condition),
            },
            _ => Err(Fault::Condition),
        },
        _ => Err(Fault::Condition),
    }
}

// The second segment, behind the first one.
fn append_second(
    alloc: Global,
    s: &SymState,
    i: u32,
    j: u32,
    name: &Name,
    first: Parts<'_>,
    b: &Atom,
) -> Result<Remainder, Fault>
    ensures { AnswersRule result (first_failure (append_first s.now i j (Some (segment_from name.now first.entry.0.now first.entry.1.now first.entry.2.now)) b.now)) }
{
    match b {
        Atom::Pred(other, args) => {
            if is_name(other, b"lseg") {
                second_args(alloc, s, i, j, name, first, other, args.as_slice())
            } else {
                Err(Fault::Condition)
            }
        }
        _ => Err(Fault::Condition),
    }
}

fn first_args(
    alloc: Global,
    s: &SymState,
    i: u32,
    j: u32,
    name: &Name,
    args: &[Arg],
    b: &Atom,
) -> Result<Remainder, Fault>
    ensures { AnswersRule result (first_failure (append_first s.now i j (segment_args name.now args.now) b.now)) }
{
    match args {
        [start, end, elements] => match start {
            Arg::Word(_, start) => match end {
                Arg::Word(_, end) => match elements {
                    Arg::Seq(_, elements) => {
                        append_second(alloc, s, i, j, name, (start, end, elements), b)
                    }
                    _ => Err(Fault::Condition),
                },
                _ => Err(Fault::Condition),
            },
            _ => Err(Fault::Condition),
        },
        _ => Err(Fault::Condition),
    }
}

fn append_atoms(
    alloc: Global,
    decls: &Decls,
    s: &SymState,
    i: u32,
    j: u32,
    a: &Atom,
    b: &Atom,
) -> Result<Remainder, Fault>
    ensures { AnswersRule result (first_failure (append_atoms decls.now s.now i j a.now b.now)) }
{
    if i == j || !has_segments(decls) {
        return Err(Fault::Condition);
    }
    match a {
        Atom::Pred(name, args) => {
            if is_name(name, b"lseg") {
                first_args(alloc, s, i, j, name, args.as_slice(), b)
            } else {
                Err(Fault::Condition)
            }
        }
        _ => Err(Fault::Condition),
    }
}

fn append_from(
    alloc: Global,
    decls: &Decls,
    s: &SymState,
    args: &[DArg],
    i: u32,
    a: &Atom,
) -> Result<Remainder, Fault>
    ensures { AnswersRule result (first_failure (append_from decls.now s.now args.now i a.now)) }
{
    match number_at(args, 1) {
        None => Err(Fault::Argument),
        Some(j) => match numbered(s.atoms.as_slice(), j) {
            None => Err(Fault::Argument),
            Some(b) => append_atoms(alloc, decls, s, i, j, a, b),
        },
    }
}

/// `append[i, j]`: two different list segments as one, where j starts at the end of i.
pub(crate) fn append(
    alloc: Global,
    decls: &Decls,
    s: &SymState,
    args: &[DArg],
    n: usize,
) -> Result<Remainder, Fault>
    ensures { AnswersRule result (first_failure (append_rule decls.now s.now args.now n)) }
{
    if args.len() != 2 || n != 2 {
        return Err(Fault::Count);
    }
    match number_at(args, 0) {
        None => Err(Fault::Argument),
        Some(i) => match numbered(s.atoms.as_slice(), i) {
            None => Err(Fault::Argument),
            Some(a) => append_from(alloc, decls, s, args, i, a),
        },
    }
}
