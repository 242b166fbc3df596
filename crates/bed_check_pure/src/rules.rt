//! The rules for a fact, one by one: each tests its premises in their order. The goal is None where the node
//! stands for the rest of a condition, which no rule for a fact proves.
ghost use Rattle.std.specs.Option.{option_copied};
ghost use Rattle.std.specs.Prelude.{◌≡◌, ◌∷◌, ◌++◌, [], IfOk, OnOk, slice_get};
ghost use Rattle.bed_lang.specs.SameFacts.{negation};
ghost use Rattle.bed_deriv.specs.Checks.{first_failure, sequent, with_fact};
ghost use Rattle.bed_deriv.specs.PureRules.{hyp, norm, order, order_goals, one_order, cut, carry, carry_goals, split, split_goals, contradiction, opposite_goal, distinct, distinct_from, apart, bound, bound_of, bound_goals, address};
ghost use Rattle.bed_check_pure.specs.Faults.{AnswersRule, says, cut_goals};

use crate::fault::Fault;
use crate::goals::{either_known, goal_and_known, goals_of, one_goal};
use bed_deriv::arguments::{atom_at, fact_at, fact_given, number_at, numbered, word_at};
use bed_deriv::{DArg, Sequent, SymState, negation};
use bed_forms::{by_norm, same_facts};
use bed_lang::{Atom, Box, List, Pure, Word};
use std::alloc::{AllocError, Global};

// Whether the goal is the same as this fact.
fn says(alloc: Global, goal: Option<&Pure>, p: &Pure) -> Result<List<Sequent>, Fault>
    ensures { AnswersRule result (first_failure (says (option_copied goal.entry) p.now)) }
{
    match goal {
        None => Err(Fault::Condition),
        Some(g) => match same_facts(alloc, g, p) {
            Err(_) => Err(Fault::Memory),
            Ok(true) => Ok(List::new(alloc)),
            Ok(false) => Err(Fault::Condition),
        },
    }
}

/// Whether the goal is the same as the first of these facts.
pub(crate) fn says_first(
    alloc: Global,
    goal: Option<&Pure>,
    facts: &[Pure],
) -> Result<List<Sequent>, Fault>
    ensures { AnswersRule result (first_failure (bound_goals (option_copied goal.entry) (slice_get facts.now 0))) }
{
    match facts.get(0) {
        None => Err(Fault::Condition),
        Some(p) => says(alloc, goal, p),
    }
}

/// A list of one fact. A fact of its own that is alive where a call fails is dear to prove; a list isn't.
pub(crate) fn alone(alloc: Global, p: Pure) -> Result<List<Pure>, AllocError>
    ensures { IfOk result (λ r. r ≡ p ∷ []) }
{
    let mut out = List::new(alloc);
    out.push(p)?;
    Ok(out)
}

/// `hyp[i]`: the goal is the same as fact i.
pub(crate) fn hyp(
    alloc: Global,
    s: &SymState,
    goal: Option<&Pure>,
    args: &[DArg],
    n: usize,
) -> Result<List<Sequent>, Fault>
    ensures { AnswersRule result (first_failure (hyp s.now (option_copied goal.entry) args.now n)) }
{
    if args.len() != 1 || n != 0 {
        return Err(Fault::Count);
    }
    match fact_at(s, args, 0) {
        None => Err(Fault::Argument),
        Some(p) => says(alloc, goal, p),
    }
}

/// `norm`: the goal holds by its normal form.
pub(crate) fn norm(
    alloc: Global,
    goal: Option<&Pure>,
    args: &[DArg],
    n: usize,
) -> Result<List<Sequent>, Fault>
    ensures { AnswersRule result (first_failure (norm (option_copied goal.entry) args.now n)) }
{
    if args.len() != 0 || n != 0 {
        return Err(Fault::Count);
    }
    match goal {
        None => Err(Fault::Condition),
        Some(g) => match by_norm(alloc, g) {
            Err(_) => Err(Fault::Memory),
            Ok(true) => Ok(List::new(alloc)),
            Ok(false) => Err(Fault::Condition),
        },
    }
}

fn push_at_most(alloc: Global, out: &mut List<Pure>, a: &Word, b: &Word) -> Result<(), AllocError>
    ensures { OnOk result (out.new ≡ out.old ++ Pure.AtMost a.now b.now ∷ []) }
{
    let p = at_most(alloc, a, b)?;
    out.push(p)
}

// `a <= b` and `b <= a`.
fn both_at_most(alloc: Global, a: &Word, b: &Word) -> Result<List<Pure>, AllocError>
    ensures { IfOk result (λ r. r ≡ Pure.AtMost a.now b.now ∷ Pure.AtMost b.now a.now ∷ []) }
{
    let mut out = List::new(alloc);
    push_at_most(alloc, &mut out, a, b)?;
    push_at_most(alloc, &mut out, b, a)?;
    Ok(out)
}

// The goals `a <= b` and `b <= a`.
fn both_orders(alloc: Global, s: &SymState, a: &Word, b: &Word) -> Result<List<Sequent>, AllocError>
    ensures { IfOk result (λ r. r ≡ sequent s.now (Pure.AtMost a.now b.now) ∷ sequent s.now (Pure.AtMost b.now a.now) ∷ []) }
{
    let facts = both_at_most(alloc, a, b)?;
    goals_of(alloc, s, facts.as_slice())
}

fn at_most(alloc: Global, a: &Word, b: &Word) -> Result<Pure, AllocError>
    ensures { IfOk result (λ r. r ≡ Pure.AtMost a.now b.now) }
{
    let a = a.copy(alloc)?;
    let b = b.copy(alloc)?;
    Ok(Pure::AtMost(a, b))
}

fn less(alloc: Global, a: &Word, b: &Word) -> Result<Pure, AllocError>
    ensures { IfOk result (λ r. r ≡ Pure.Less a.now b.now) }
{
    let a = a.copy(alloc)?;
    let b = b.copy(alloc)?;
    Ok(Pure::Less(a, b))
}

// `a < b` where k is 1, else `b < a`.
fn one_order(alloc: Global, k: u32, a: &Word, b: &Word) -> Result<Pure, AllocError>
    ensures { IfOk result (λ r. r ≡ one_order k a.now b.now) }
{
    if k == 1 {
        less(alloc, a, b)
    } else {
        less(alloc, b, a)
    }
}

fn one_order_alone(alloc: Global, k: u32, a: &Word, b: &Word) -> Result<List<Pure>, AllocError>
    ensures { IfOk result (λ r. r ≡ one_order k a.now b.now ∷ []) }
{
    let p = one_order(alloc, k, a, b)?;
    alone(alloc, p)
}

// One of the orders, which makes an inequality.
fn one_order_goal(
    alloc: Global,
    s: &SymState,
    k: u32,
    a: &Word,
    b: &Word,
) -> Result<List<Sequent>, AllocError>
    ensures { IfOk result (λ r. r ≡ sequent s.now (one_order k a.now b.now) ∷ []) }
{
    let facts = one_order_alone(alloc, k, a, b)?;
    goals_of(alloc, s, facts.as_slice())
}

// The goals that `order[k]` leaves for an inequality.
fn unequal_goals(
    alloc: Global,
    s: &SymState,
    k: u32,
    a: &Word,
    b: &Word,
) -> Result<List<Sequent>, Fault>
    ensures { AnswersRule result (first_failure (order_goals s.now k (Pure.Unequal a.now b.now))) }
{
    if k == 0 {
        return Err(Fault::Condition);
    }
    match one_order_goal(alloc, s, k, a, b) {
        Ok(goals) => Ok(goals),
        Err(_) => Err(Fault::Memory),
    }
}

// The goals that `order[k]` leaves for an equation.
fn equal_goals(
    alloc: Global,
    s: &SymState,
    k: u32,
    a: &Word,
    b: &Word,
) -> Result<List<Sequent>, Fault>
    ensures { AnswersRule result (first_failure (order_goals s.now k (Pure.Equal a.now b.now))) }
{
    if k != 0 {
        return Err(Fault::Condition);
    }
    match both_orders(alloc, s, a, b) {
        Ok(goals) => Ok(goals),
        Err(_) => Err(Fault::Memory),
    }
}

// The goals that `order[k]` leaves, by the goal's kind.
fn order_goals(alloc: Global, s: &SymState, goal: &Pure, k: u32) -> Result<List<Sequent>, Fault>
    ensures { AnswersRule result (first_failure (order_goals s.now k goal.now)) }
{
    match goal {
        Pure::Equal(a, b) => equal_goals(alloc, s, k, a, b),
        Pure::Unequal(a, b) => unequal_goals(alloc, s, k, a, b),
        _ => Err(Fault::Condition),
    }
}

/// `order[0]`: an equation by both orders; `order[1]` and `order[2]`: an inequality by one of them.
pub(crate) fn order(
    alloc: Global,
    s: &SymState,
    goal: Option<&Pure>,
    args: &[DArg],
    n: usize,
) -> Result<List<Sequent>, Fault>
    ensures { AnswersRule result (first_failure (order s.now (option_copied goal.entry) args.now n)) }
{
    if args.len() != 1 {
        return Err(Fault::Count);
    }
    match number_at(args, 0) {
        None => Err(Fault::Argument),
        Some(k) => {
            if k >= 3 {
                return Err(Fault::Argument);
            }
            let children = if k == 0 { 2 } else { 1 };
            if n != children {
                return Err(Fault::Count);
            }
            match goal {
                None => Err(Fault::Condition),
                Some(g) => order_goals(alloc, s, g, k),
            }
        }
    }
}

// What `cut` leaves.
fn cut_goals(
    alloc: Global,
    s: &SymState,
    goal: Option<&Pure>,
    p: &Pure,
) -> Result<List<Sequent>, Fault>
    ensures { AnswersRule result (first_failure (cut_goals s.now (option_copied goal.entry) p.now)) }
{
    match goal {
        None => Err(Fault::Condition),
        Some(g) => match goal_and_known(alloc, s, p, g) {
            Ok(goals) => Ok(goals),
            Err(_) => Err(Fault::Memory),
        },
    }
}

/// `cut[φ]`: the fact, and the goal with it.
pub(crate) fn cut(
    alloc: Global,
    s: &SymState,
    goal: Option<&Pure>,
    args: &[DArg],
    n: usize,
) -> Result<List<Sequent>, Fault>
    ensures { AnswersRule result (first_failure (cut s.now (option_copied goal.entry) args.now n)) }
{
    if args.len() != 1 || n != 2 {
        return Err(Fault::Count);
    }
    match fact_given(s, args, 0) {
        None => Err(Fault::Argument),
        Some(p) => cut_goals(alloc, s, goal, p),
    }
}

fn sum(alloc: Global, e: &Word, c: u32) -> Result<Word, AllocError>
    ensures { IfOk result (λ r. r ≡ Word.Add e.now (Word.Number c)) }
{
    let e = Box::new(alloc, e.copy(alloc)?)?;
    let c = Box::new(alloc, Word::Number(c))?;
    Ok(Word::Add(e, c))
}

fn below_sum(alloc: Global, e: &Word, c: u32) -> Result<Pure, AllocError>
    ensures { IfOk result (λ r. r ≡ Pure.Less e.now (Word.Add e.now (Word.Number c))) }
{
    let total = sum(alloc, e, c)?;
    let e = e.copy(alloc)?;
    Ok(Pure::Less(e, total))
}

fn above_sum(alloc: Global, e: &Word, c: u32) -> Result<Pure, AllocError>
    ensures { IfOk result (λ r. r ≡ Pure.Less (Word.Add e.now (Word.Number c)) e.now) }
{
    let total = sum(alloc, e, c)?;
    let e = e.copy(alloc)?;
    Ok(Pure::Less(total, e))
}

// The goal with `e < e + c`, and with `e + c < e`.
fn carried(
    alloc: Global,
    s: &SymState,
    goal: &Pure,
    e: &Word,
    c: u32,
) -> Result<List<Sequent>, AllocError>
    ensures { IfOk result (λ r. r ≡ sequent (with_fact s.now (Pure.Less e.now (Word.Add e.now (Word.Number c)))) goal.now ∷ sequent (with_fact s.now (Pure.Less (Word.Add e.now (Word.Number c)) e.now)) goal.now ∷ []) }
{
    let up = below_sum(alloc, e, c)?;
    let down = above_sum(alloc, e, c)?;
    either_known(alloc, s, &up, &down, goal)
}

// What `carry` leaves, by its number.
fn carry_goals(
    alloc: Global,
    s: &SymState,
    goal: Option<&Pure>,
    e: &Word,
    c: u32,
) -> Result<List<Sequent>, Fault>
    ensures { AnswersRule result (first_failure (carry_goals s.now (option_copied goal.entry) e.now c)) }
{
    if c == 0 {
        return Err(Fault::Condition);
    }
    match goal {
        None => Err(Fault::Condition),
        Some(g) => match carried(alloc, s, g, e, c) {
            Ok(goals) => Ok(goals),
            Err(_) => Err(Fault::Memory),
        },
    }
}

/// `carry[e, c]`: a sum with c, which isn't 0, is above e or below it.
pub(crate) fn carry(
    alloc: Global,
    s: &SymState,
    goal: Option<&Pure>,
    args: &[DArg],
    n: usize,
) -> Result<List<Sequent>, Fault>
    ensures { AnswersRule result (first_failure (carry s.now (option_copied goal.entry) args.now n)) }
{
    if args.len() != 2 || n != 2 {
        return Err(Fault::Count);
    }
    match word_at(alloc, s, args, 0) {
        Err(_) => Err(Fault::Memory),
        Ok(None) => Err(Fault::Argument),
        Ok(Some(e)) => match number_at(args, 1) {
            None => Err(Fault::Argument),
            Some(c) => carry_goals(alloc, s, goal, &e, c),
        },
    }
}

/// The negation of a fact, if it has one, as the one item of a list.
///
/// # Errors
/// `AllocError` for want of memory.
pub fn negated(alloc: Global, p: &Pure) -> Result<List<Pure>, AllocError>
    ensures { IfOk result (λ r. slice_get r 0 ≡ negation p.now) }
{
    match negation(alloc, p) {
        Err(e) => Err(e),
        Ok(None) => Ok(List::new(alloc)),
        Ok(Some(other)) => alone(alloc, other),
    }
}

// What `split` leaves, by the negation of its fact.
fn split_goals(
    alloc: Global,
    s: &SymState,
    goal: Option<&Pure>,
    p: &Pure,
    others: &[Pure],
) -> Result<List<Sequent>, Fault>
    ensures { AnswersRule result (first_failure (split_goals s.now (option_copied goal.entry) p.now (slice_get others.now 0))) }
{
    match others.get(0) {
        None => Err(Fault::Condition),
        Some(other) => match goal {
            None => Err(Fault::Condition),
            Some(g) => match either_known(alloc, s, p, other, g) {
                Ok(goals) => Ok(goals),
                Err(_) => Err(Fault::Memory),
            },
        },
    }
}

/// `split[φ]`: the goal with the fact, and with its negation.
pub(crate) fn split(
    alloc: Global,
    s: &SymState,
    goal: Option<&Pure>,
    args: &[DArg],
    n: usize,
) -> Result<List<Sequent>, Fault>
    ensures { AnswersRule result (first_failure (split s.now (option_copied goal.entry) args.now n)) }
{
    if args.len() != 1 || n != 2 {
        return Err(Fault::Count);
    }
    match fact_given(s, args, 0) {
        None => Err(Fault::Argument),
        Some(p) => match negated(alloc, p) {
            Err(_) => Err(Fault::Memory),
            Ok(others) => split_goals(alloc, s, goal, p, others.as_slice()),
        },
    }
}

// What `absurd` leaves, by the negation of its fact.
fn opposite_goal(
    alloc: Global,
    s: &SymState,
    goal: Option<&Pure>,
    others: &[Pure],
) -> Result<List<Sequent>, Fault>
    ensures { AnswersRule result (first_failure (opposite_goal s.now (option_copied goal.entry) (slice_get others.now 0))) }
{
    match others.get(0) {
        None => Err(Fault::Condition),
        Some(other) => match goal {
            None => Err(Fault::Condition),
            Some(_) => match one_goal(alloc, s, other) {
                Ok(goals) => Ok(goals),
                Err(_) => Err(Fault::Memory),
            },
        },
    }
}

/// `absurd[i]`: the negation of fact i.
pub(crate) fn contradiction(
    alloc: Global,
    s: &SymState,
    goal: Option<&Pure>,
    args: &[DArg],
    n: usize,
) -> Result<List<Sequent>, Fault>
    ensures { AnswersRule result (first_failure (contradiction s.now (option_copied goal.entry) args.now n)) }
{
    if args.len() != 1 || n != 1 {
        return Err(Fault::Count);
    }
    match fact_at(s, args, 0) {
        None => Err(Fault::Argument),
        Some(p) => match negated(alloc, p) {
            Err(_) => Err(Fault::Memory),
            Ok(others) => opposite_goal(alloc, s, goal, others.as_slice()),
        },
    }
}

// The address of a cell or a byte.
fn address(x: &Atom) -> Option<&Word>
    ensures { option_copied result ≡ address x.now }
{
    match x {
        Atom::Cell(a, _) => Some(a),
        Atom::Byte(a, _) => Some(a),
        _ => None,
    }
}

fn unequal(alloc: Global, a: &Word, b: &Word) -> Result<Pure, AllocError>
    ensures { IfOk result (λ r. r ≡ Pure.Unequal a.now b.now) }
{
    let a = a.copy(alloc)?;
    let b = b.copy(alloc)?;
    Ok(Pure::Unequal(a, b))
}

fn unequal_alone(alloc: Global, a: &Word, b: &Word) -> Result<List<Pure>, AllocError>
    ensures { IfOk result (λ r. r ≡ Pure.Unequal a.now b.now ∷ []) }
{
    let p = unequal(alloc, a, b)?;
    alone(alloc, p)
}

// Whether the goal is that these two words differ.
fn says_apart(
    alloc: Global,
    goal: Option<&Pure>,
    a: &Word,
    b: &Word,
) -> Result<List<Sequent>, Fault>
    ensures { AnswersRule result (first_failure (says (option_copied goal.entry) (Pure.Unequal a.now b.now))) }
{
    match unequal_alone(alloc, a, b) {
        Err(_) => Err(Fault::Memory),
        Ok(facts) => says_first(alloc, goal, facts.as_slice()),
    }
}

// Whether the goal is that the addresses of two cells or bytes differ.
fn apart(alloc: Global, goal: Option<&Pure>, x: &Atom, y: &Atom) -> Result<List<Sequent>, Fault>
    ensures { AnswersRule result (first_failure (apart (option_copied goal.entry) x.now y.now)) }
{
    match address(x) {
        None => Err(Fault::Condition),
        Some(a) => match address(y) {
            None => Err(Fault::Condition),
            Some(b) => says_apart(alloc, goal, a, b),
        },
    }
}

// Whether the goal is that the address of atom i differs from that of the second atom.
fn distinct_from(
    alloc: Global,
    s: &SymState,
    goal: Option<&Pure>,
    args: &[DArg],
    i: u32,
    x: &Atom,
) -> Result<List<Sequent>, Fault>
    ensures { AnswersRule result (first_failure (distinct_from s.now (option_copied goal.entry) args.now i x.now)) }
{
    match number_at(args, 1) {
        None => Err(Fault::Argument),
        Some(j) => match numbered(s.atoms.as_slice(), j) {
            None => Err(Fault::Argument),
            Some(y) => {
                if i == j {
                    Err(Fault::Condition)
                } else {
                    apart(alloc, goal, x, y)
                }
            }
        },
    }
}

/// `distinct[i, j]`: the addresses of two different cells or bytes differ.
pub(crate) fn distinct(
    alloc: Global,
    s: &SymState,
    goal: Option<&Pure>,
    args: &[DArg],
    n: usize,
) -> Result<List<Sequent>, Fault>
    ensures { AnswersRule result (first_failure (distinct s.now (option_copied goal.entry) args.now n)) }
{
    if args.len() != 2 || n != 0 {
        return Err(Fault::Count);
    }
    match number_at(args, 0) {
        None => Err(Fault::Argument),
        Some(i) => match numbered(s.atoms.as_slice(), i) {
            None => Err(Fault::Argument),
            Some(x) => distinct_from(alloc, s, goal, args, i, x),
        },
    }
}

fn at_most_number(alloc: Global, a: &Word, most: u32) -> Result<List<Pure>, AllocError>
    ensures { IfOk result (λ r. r ≡ Pure.AtMost a.now (Word.Number most) ∷ []) }
{
    let a = a.copy(alloc)?;
    alone(alloc, Pure::AtMost(a, Word::Number(most)))
}

// What is at most what, because of an atom, as the one item of a list.
fn bound_of(alloc: Global, x: &Atom) -> Result<List<Pure>, AllocError>
    ensures { IfOk result (λ r. slice_get r 0 ≡ bound_of x.now) }
{
    match x {
        Atom::Cell(a, _) => at_most_number(alloc, a, 4_294_967_292),
        Atom::Byte(_, v) => at_most_number(alloc, v, 255),
        _ => Ok(List::new(alloc)),
    }
}

/// `bound[i]`: the address of a cell, or the content of a byte, isn't above what it can be.
pub(crate) fn bound(
    alloc: Global,
    s: &SymState,
    goal: Option<&Pure>,
    args: &[DArg],
    n: usize,
) -> Result<List<Sequent>, Fault>
    ensures { AnswersRule result (first_failure (bound s.now (option_copied goal.entry) args.now n)) }
{
    if args.len() != 1 || n != 0 {
        return Err(Fault::Count);
    }
    match atom_at(s, args, 0) {
        None => Err(Fault::Argument),
        Some(x) => match bound_of(alloc, x) {
            Err(_) => Err(Fault::Memory),
            Ok(facts) => says_first(alloc, goal, facts.as_slice()),
        },
    }
}
