//! Rules that change a state prove no fact. A node of one is refused by its first failing premise among
//! the numbers of arguments and children and the arguments themselves, and else by the third.
ghost use Rattle.std.specs.Option.{option_copied};
ghost use Rattle.std.specs.Prelude.{◌≡◌, ◌≤◌, ◌+◌, length, Some, Err, is_some};
ghost use Rattle.bed_deriv.specs.Arguments.{numbered, lone_word, lone_seq, if_known, to_value, name_at};
ghost use Rattle.bed_deriv.specs.Checks.{Given, first_failure};
ghost use Rattle.bed_deriv.specs.HeapRules.{shapes};
ghost use Rattle.bed_check_pure.specs.Faults.{AnswersRule};
ghost use Rattle.bed_check_pure.specs.Refusals.{claim_refused, never_refused, unfold_atom, unfold_refused, are_values, are_numbers, fold_values, fold_case, fold_predicate, predicate_at, fold_refused, divide_refused, pair_refused, atom_refused, is_atom, are_atoms, bytes_refused, form_refused, shape_refused};

use crate::fault::Fault;
use crate::predicates::{fold_counts, predicate_named};
use bed_deriv::arguments::{atom_at, fact_given, number_at, numbered, word_at};
use bed_deriv::known::{known_seq, known_var, known_word};
use bed_deriv::{DArg, SymState};
use bed_lang::{Arg, Assertion, Atom, Bind, Decls, Name, Predicate, Seq, Sort, Word};
use std::alloc::Global;

/// The refusal of `claim[φ]` or `when[φ]`.
pub(crate) fn claim(s: &SymState, args: &[DArg], n: usize) -> Fault
    ensures { AnswersRule (Err result) (first_failure (claim_refused s.now args.now n)) }
{
    if args.len() != 1 || n != 2 {
        return Fault::Count;
    }
    match fact_given(s, args, 0) {
        None => Fault::Argument,
        Some(_) => Fault::Condition,
    }
}

/// The refusal of `never`.
pub(crate) fn never(args: &[DArg], n: usize) -> Fault
    ensures { AnswersRule (Err result) (first_failure (never_refused args.now n)) }
{
    if args.len() != 0 || n != 1 {
        Fault::Count
    } else {
        Fault::Condition
    }
}

// The refusal of `unfold` by its atom.
fn unfold_atom(decls: &Decls, n: usize, x: &Atom) -> Fault
    ensures { AnswersRule (Err result) (first_failure (unfold_atom decls.now n x.now)) }
{
    match x {
        Atom::Pred(name, _) => match predicate_named(decls, name) {
            None => Fault::Condition,
            Some(predicate) => {
                if n == predicate.cases.len() {
                    Fault::Condition
                } else {
                    Fault::Count
                }
            }
        },
        _ => Fault::Condition,
    }
}

/// The refusal of `unfold[i]`.
pub(crate) fn unfold(decls: &Decls, s: &SymState, args: &[DArg], n: usize) -> Fault
    ensures { AnswersRule (Err result) (first_failure (unfold_refused decls.now s.now args.now n)) }
{
    if args.len() != 1 {
        return Fault::Count;
    }
    match atom_at(s, args, 0) {
        None => Fault::Argument,
        Some(x) => unfold_atom(decls, n, x),
    }
}

// Whether a variable alone is known.
fn is_known_word(next: u32, w: &Word) -> bool
    ensures { result ≡ is_some (if_known next (lone_word w.now)) }
{
    match w {
        Word::Var(v) => known_var(next, v),
        _ => false,
    }
}

fn is_known_seq(next: u32, s: &Seq) -> bool
    ensures { result ≡ is_some (if_known next (lone_seq s.now)) }
{
    match s {
        Seq::Var(v) => known_var(next, v),
        _ => false,
    }
}

// Whether an argument is a word, and a sequence.
fn is_word(next: u32, arg: &DArg) -> bool
    ensures { result ≡ is_some (to_value next Sort.Word (Some arg.now)) }
{
    match arg {
        DArg::Number(_) => true,
        DArg::Name(_) => true,
        DArg::Arg(Arg::Word(_, w)) => known_word(next, w),
        DArg::Arg(Arg::Seq(_, s)) => is_known_seq(next, s),
        _ => false,
    }
}

fn is_seq(next: u32, arg: &DArg) -> bool
    ensures { result ≡ is_some (to_value next Sort.Seq (Some arg.now)) }
{
    match arg {
        DArg::Name(_) => true,
        DArg::Arg(Arg::Seq(_, s)) => known_seq(next, s),
        DArg::Arg(Arg::Word(_, w)) => is_known_word(next, w),
        _ => false,
    }
}

fn is_value(next: u32, sort: Sort, arg: &DArg) -> bool
    ensures { result ≡ is_some (to_value next sort (Some arg.now)) }
{
    match sort {
        Sort::Word => is_word(next, arg),
        Sort::Seq => is_seq(next, arg),
    }
}

// Whether arguments are values of these variables, in order.
fn are_values(next: u32, binds: &[Bind], args: &[DArg]) -> bool
    ensures { result ≡ are_values next binds.now args.now }
{
    let mut rest = args;
    let mut left = binds;
    while let [bind, more @ ..] = left {
        match rest {
            [] => return false,
            [arg, others @ ..] => {
                if !is_value(next, bind.sort, arg) {
                    return false;
                }
                rest = others;
            }
        }
        left = more;
    }
    true
}

// Whether each argument is the number of an atom.
fn are_numbers(s: &SymState, args: &[DArg]) -> bool
    ensures { result ≡ are_numbers s.now args.now }
{
    let mut rest = args;
    while let [_, more @ ..] = rest {
        if !is_atom(s, rest, 0) {
            return false;
        }
        rest = more;
    }
    true
}

fn fold_values(s: &SymState, args: &[DArg], predicate: &Predicate, case: &Assertion) -> bool
    requires { 2 + length predicate.now.params + length case.now.binders ≤ length args.now }
    ensures { result ≡ fold_values s.now args.now predicate.now case.now }
{
    let params = predicate.params.len();
    let binders = case.binders.len();
    are_values(s.next, predicate.params.as_slice(), &args[2..][..params])
        && are_values(
            s.next,
            case.binders.as_slice(),
            &args[2 + params..][..binders],
        )
        && are_numbers(s, &args[2 + params + binders..])
}

// The refusal of `fold` by its predicate and its case.
fn fold_case(
    s: &SymState,
    args: &[DArg],
    n: usize,
    predicate: &Predicate,
    case: &Assertion,
) -> Fault
    ensures { AnswersRule (Err result) (first_failure (fold_case s.now args.now n predicate.now case.now)) }
{
    if !fold_counts(args, n, predicate, case) {
        return Fault::Count;
    }
    if fold_values(s, args, predicate, case) {
        Fault::Condition
    } else {
        Fault::Argument
    }
}

// The refusal of `fold` by its predicate.
fn fold_predicate(s: &SymState, args: &[DArg], n: usize, predicate: &Predicate) -> Fault
    ensures { AnswersRule (Err result) (first_failure (fold_predicate s.now args.now n predicate.now)) }
{
    match number_at(args, 1) {
        None => Fault::Argument,
        Some(c) => match numbered(predicate.cases.as_slice(), c) {
            None => Fault::Argument,
            Some(case) => fold_case(s, args, n, predicate, case),
        },
    }
}

fn predicate_at<'a>(decls: &'a Decls, args: &[DArg]) -> Option<&'a Predicate>
    ensures { option_copied result ≡ predicate_at decls.now (name_at args.now 0) }
{
    match args.get(0) {
        Some(DArg::Name(name)) => predicate_named(decls, name),
        _ => None,
    }
}

/// The refusal of `fold[P, c, ..]`.
pub(crate) fn fold(decls: &Decls, s: &SymState, args: &[DArg], n: usize) -> Fault
    ensures { AnswersRule (Err result) (first_failure (fold_refused decls.now s.now args.now n)) }
{
    if args.len() < 2 {
        return Fault::Count;
    }
    match predicate_at(decls, args) {
        None => Fault::Argument,
        Some(predicate) => fold_predicate(s, args, n, predicate),
    }
}

/// The refusal of `divide[i, m]`.
pub(crate) fn divide(alloc: Global, s: &SymState, args: &[DArg], n: usize) -> Fault
    ensures { AnswersRule (Err result) (first_failure (divide_refused s.now args.now n)) }
{
    if args.len() != 2 || n != 2 {
        return Fault::Count;
    }
    match atom_at(s, args, 0) {
        None => Fault::Argument,
        Some(_) => match word_at(alloc, s, args, 1) {
            Err(_) => Fault::Memory,
            Ok(None) => Fault::Argument,
            Ok(Some(_)) => Fault::Condition,
        },
    }
}

/// The refusal of `append[i, j]` or `merge[i, j]`.
pub(crate) fn pair(s: &SymState, args: &[DArg], n: usize) -> Fault
    ensures { AnswersRule (Err result) (first_failure (pair_refused s.now args.now n)) }
{
    if args.len() != 2 || n != 2 {
        return Fault::Count;
    }
    match atom_at(s, args, 0) {
        None => Fault::Argument,
        Some(_) => match atom_at(s, args, 1) {
            None => Fault::Argument,
            Some(_) => Fault::Condition,
        },
    }
}

// The refusal of `shape[k, i]`, which has so many children.
fn one_atom(s: &SymState, args: &[DArg], n: usize, children: usize) -> Fault
    ensures { AnswersRule (Err result) (first_failure (atom_refused s.now args.now n children)) }
{
    if args.len() != 2 || n != children {
        return Fault::Count;
    }
    match atom_at(s, args, 1) {
        None => Fault::Argument,
        Some(_) => Fault::Condition,
    }
}

// Whether the argument at a place is the number of an atom.
fn is_atom(s: &SymState, args: &[DArg], at: usize) -> bool
    ensures { result ≡ is_atom s.now args.now at }
{
    atom_at(s, args, at).is_some()
}

// Whether the arguments after the first are the numbers of four atoms.
fn are_atoms(s: &SymState, args: &[DArg]) -> bool
    ensures { result ≡ are_atoms s.now args.now }
{
    is_atom(s, args, 1) && is_atom(s, args, 2) && is_atom(s, args, 3) && is_atom(s, args, 4)
}

// The refusal of `shape[2, i, j, k, l]`.
fn four_atoms(s: &SymState, args: &[DArg], n: usize) -> Fault
    ensures { AnswersRule (Err result) (first_failure (bytes_refused s.now args.now n)) }
{
    if args.len() != 5 || n != 5 {
        return Fault::Count;
    }
    if are_atoms(s, args) {
        Fault::Condition
    } else {
        Fault::Argument
    }
}

#[tactic(auto, using(crate::proofs::RefusalLaws::no_shape))]
fn shape_of(s: &SymState, args: &[DArg], n: usize, k: u32) -> Fault
    ensures { AnswersRule (Err result) (first_failure (Given 2 (numbered shapes k) (λ form. form_refused form s.now args.now n))) }
{
    match k {
        1 => one_atom(s, args, n, 1),
        2 => four_atoms(s, args, n),
        3 => one_atom(s, args, n, 2),
        4 => one_atom(s, args, n, 1),
        5 => one_atom(s, args, n, 2),
        _ => Fault::Argument,
    }
}

/// The refusal of `shape[k, ..]`.
pub(crate) fn shape(s: &SymState, args: &[DArg], n: usize) -> Fault
    ensures { AnswersRule (Err result) (first_failure (shape_refused s.now args.now n)) }
{
    if args.is_empty() {
        return Fault::Count;
    }
    match number_at(args, 0) {
        None => Fault::Argument,
        Some(k) => shape_of(s, args, n, k),
    }
}
