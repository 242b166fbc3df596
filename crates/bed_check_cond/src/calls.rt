//! The call at the end of a path's actions: `step` there.
ghost use Rattle.std.specs.Prelude.{◌≡◌, ◌∷◌, ◌++◌, [], ◌+◌, ◌<◌, ◌≤◌, ◌==◌, length, nat_lt, take, drop, IfOk};
ghost use Rattle.std.specs.Option.{option_copied};
ghost use Rattle.bed_lang.specs.Instances.{terms_with};
ghost use Rattle.bed_deriv.specs.Checks.{first_failure};
ghost use Rattle.bed_deriv.specs.Matches.{count_of_goals, match_goals, atoms_left};
ghost use Rattle.bed_deriv.specs.Opening.{replacing, fresh_values};
ghost use Rattle.bed_deriv.specs.Steps.{callee, code_goals, code_count, names_with, after_call, call};
ghost use Rattle.bed_check_pure.specs.Faults.{AnswersRule};
ghost use Rattle.bed_check_cond.specs.Points.{rest_of, called, AnswersStep};
ghost use Rattle.bed_check_cond.specs.Parts.{call_counts, call_values, call_chosen, call_from, call_found, call_worded, call_meets, opened_after, state_after, code_before};

use crate::actions::fresh_word;
use crate::operands::{operand_term, operand_terms, set_local};
use crate::point::{Moved, Point};
use crate::values::{push_names, push_terms};
use bed_check_heap::to_values;
use bed_check_pure::Fault;
use bed_deriv::choice::{all_different, atoms_left, chosen};
use bed_deriv::matching::{count_of_atoms, has_goals_within, match_goals};
use bed_deriv::read::read_terms;
use bed_deriv::{DArg, Reading, SymState, push_fresh};
use bed_lang::{
    Arg, Assertion, Atom, Decls, List, Name, Operand, Pure, Signature, Term, Tree, Word,
};
use std::alloc::{AllocError, Global};

const LIMIT: u64 = 4_294_967_296;

/// A call as its path's goal has it.
#[derive(Clone, Copy)]
pub(crate) struct CallSite<'a> {
    pub(crate) target: &'a Operand,
    pub(crate) via: &'a Option<Name>,
    pub(crate) operands: &'a [Operand],
    pub(crate) into: &'a Name,
    pub(crate) after: &'a Assertion,
}

// The signature of a callee: the one that is named, or that of the label.
fn callee<'a>(decls: &'a Decls, target: &Operand, via: &Option<Name>) -> Option<&'a Signature>
    ensures { option_copied result ≡ callee decls.now target.now via.now }
{
    match via {
        Some(name) => decls.signature(name),
        None => match target {
            Operand::Label(f) => decls.function_signature(f),
            _ => None,
        },
    }
}

/// Whether there are as many as three counts together.
#[tactic(auto, using(crate::proofs::CountLemmas::sum_is, crate::proofs::CountLemmas::first_past, crate::proofs::CountLemmas::second_past))]
pub(crate) fn is_sum(n: usize, a: usize, b: usize, c: usize) -> bool
    ensures { result ≡ (n == a + b + c) }
{
    if a > n {
        return false;
    }
    if b > n - a {
        return false;
    }
    c == n - a - b
}

/// Whether a match of these terms has exactly n goals.
#[tactic(auto, using(crate::proofs::CountLemmas::none_is, crate::proofs::CountLemmas::exactly, crate::proofs::CountLemmas::more))]
pub(crate) fn has_goals(terms: &[Term], n: usize) -> bool
    ensures { result ≡ (n == count_of_goals terms.now) }
{
    if n == 0 {
        return has_goals_within(terms, 0);
    }
    if !has_goals_within(terms, n) {
        return false;
    }
    !has_goals_within(terms, n - 1)
}

// Whether there is one child more than a match of these terms has goals.
#[tactic(auto, using(crate::proofs::CountLemmas::one_more, crate::proofs::CountLemmas::none_one))]
fn has_one_more(terms: &[Term], n: usize) -> bool
    ensures { result ≡ (n == 0 + count_of_goals terms.now + 1) }
{
    if n < 1 {
        return false;
    }
    has_goals(terms, n - 1)
}

// Whether there are two children more.
#[tactic(auto, using(crate::proofs::CountLemmas::two_more, crate::proofs::CountLemmas::none_two))]
fn has_two_more(terms: &[Term], n: usize) -> bool
    ensures { result ≡ (n == 1 + count_of_goals terms.now + 1) }
{
    if n < 2 {
        return false;
    }
    has_goals(terms, n - 2)
}

// Whether a call has so many children.
fn has_children(via: &Option<Name>, terms: &[Term], n: usize) -> bool
    ensures { result ≡ (n == code_count via.now + count_of_goals terms.now + 1) }
{
    match via {
        None => has_one_more(terms, n),
        Some(_) => has_two_more(terms, n),
    }
}

fn counts_fit(s: &Signature, via: &Option<Name>, args: usize, n: usize) -> bool
    ensures { result ≡ call_counts s.now via.now args n }
{
    is_sum(
        args,
        s.logical.len(),
        s.pre.binders.len(),
        count_of_atoms(s.pre.terms.as_slice()),
    ) && has_children(via, s.pre.terms.as_slice(), n)
}

// The values under which a precondition is read.
fn values_before(
    alloc: Global,
    s: &Signature,
    vs: &List<(Name, Arg)>,
    ws: &[Word],
    bs: &List<(Name, Arg)>,
) -> Result<List<(Name, Arg)>, AllocError>
    ensures { IfOk result (λ r. r ≡ vs.now ++ names_with s.now.params ws.now ++ bs.now) }
{
    let mut out = vs.copied(alloc)?;
    push_names(alloc, &mut out, s.params.as_slice(), ws)?;
    let more = bs.copied(alloc)?;
    out.append(more)?;
    Ok(out)
}

// The values under which a postcondition is read.
fn values_after(
    alloc: Global,
    s: &Signature,
    vs: &List<(Name, Arg)>,
    ws: &[Word],
    next: u32,
) -> Result<List<(Name, Arg)>, AllocError>
    requires { next + length s.now.post.binders < 4294967296 }
    ensures { IfOk result (λ r. r ≡ (vs.now ++ names_with s.now.params ws.now) ++ fresh_values s.now.post.binders next) }
{
    let mut out = vs.copied(alloc)?;
    push_names(alloc, &mut out, s.params.as_slice(), ws)?;
    push_fresh(alloc, &mut out, s.post.binders.as_slice(), next)?;
    Ok(out)
}

// Whether the numbers of fresh variables suffice for an answer and these binders.
#[tactic(auto, using(crate::proofs::CountLemmas::numbers_left))]
fn has_numbers(next: u32, binders: usize) -> bool
    ensures { result ≡ nat_lt (next + 1 + binders) 4294967296 }
{
    (binders as u64) < LIMIT - (u64::from(next) + 1)
}

// The state without the atoms that are taken, with these locals.
fn without_chosen(
    alloc: Global,
    s: &SymState,
    cs: &[(u32, Atom)],
    locals: List<(Name, Word)>,
    next: u32,
) -> Result<SymState, AllocError>
    ensures { IfOk result (λ r. r ≡ record s.now { locals = locals; atoms = atoms_left cs.now 1 s.now.atoms; next = next }) }
{
    let facts = s.facts.copied(alloc)?;
    let atoms = atoms_left(alloc, cs, s.atoms.as_slice())?;
    Ok(SymState {
        locals,
        facts,
        atoms,
        next,
    })
}

// The state behind a call, with these locals.
fn opened_after(
    alloc: Global,
    state: &SymState,
    s: &Signature,
    ws: &[Word],
    vs: &List<(Name, Arg)>,
    cs: &[(u32, Atom)],
    locals: List<(Name, Word)>,
) -> Result<SymState, AllocError>
    requires { state.now.next + 1 + length s.now.post.binders < 4294967296 }
    ensures { IfOk result (λ r. r ≡ opened_after state.now s.now ws.now vs.now cs.now locals) }
{
    let answer = fresh_word(state.next);
    let values = values_after(alloc, s, vs, ws, state.next + 1)?;
    let next = state.next + 1 + s.post.binders.len() as u32;
    let mut out = without_chosen(alloc, state, cs, locals, next)?;
    let reading = Reading::Answer(&answer, values.as_slice());
    push_terms(alloc, &mut out, &reading, s.post.terms.as_slice())?;
    Ok(out)
}

// The same; None where there is no local for the answer.
fn state_after(
    alloc: Global,
    state: &SymState,
    s: &Signature,
    ws: &[Word],
    vs: &List<(Name, Arg)>,
    cs: &[(u32, Atom)],
    into: &Name,
) -> Result<Option<SymState>, AllocError>
    requires { state.now.next + 1 + length s.now.post.binders < 4294967296 }
    ensures { IfOk result (λ r. r ≡ state_after state.now s.now ws.now vs.now cs.now into.now) }
{
    match set_local(
        alloc,
        state.locals.as_slice(),
        into,
        &fresh_word(state.next),
    )? {
        None => Ok(None),
        Some(locals) => Ok(Some(opened_after(alloc, state, s, ws, vs, cs, locals)?)),
    }
}

// What a call whose match is made leaves.
#[tactic(auto, using(crate::proofs::CallLemmas::no_numbers, crate::proofs::CallLemmas::no_local, crate::proofs::CallLemmas::with_answer_in))]
fn after_call(
    alloc: Global,
    at: &Point,
    site: &CallSite,
    s: &Signature,
    ws: &[Word],
    vs: &List<(Name, Arg)>,
    cs: &[(u32, Atom)],
    goals: List<Pure>,
) -> Result<Moved, Fault>
    ensures { AnswersStep (called site.now.after.now) result (first_failure (after_call (rest_of at.now) s.now ws.now vs.now cs.now site.now.into.now site.now.after.now goals)) }
{
    if !has_numbers(at.state.next, s.post.binders.len()) {
        return Err(Fault::Condition);
    }
    match state_after(alloc, &at.state, s, ws, vs, cs, site.into) {
        Err(_) => Err(Fault::Memory),
        Ok(None) => Err(Fault::Condition),
        Ok(Some(state)) => Ok(Moved { goals, state }),
    }
}

// That code with this signature stands at the target, where a name is given; and then the other goals.
fn with_code(
    alloc: Global,
    via: &Option<Name>,
    target: Word,
    goals: List<Pure>,
) -> Result<List<Pure>, AllocError>
    ensures { IfOk result (λ r. r ≡ code_goals via.now target ++ goals) }
{
    match via {
        None => Ok(goals),
        Some(name) => {
            let name = name.copy(alloc)?;
            let mut out = List::new(alloc);
            out.push(Pure::Code(target, name))?;
            out.append(goals)?;
            Ok(out)
        }
    }
}

// The goals of the match of a precondition; None where a term doesn't match.
fn goals_before(
    alloc: Global,
    s: &Signature,
    vs: &List<(Name, Arg)>,
    ws: &[Word],
    bs: &List<(Name, Arg)>,
    cs: &[(u32, Atom)],
) -> Result<Option<List<Pure>>, AllocError>
    ensures { IfOk result (λ r. r ≡ match_goals (terms_with (replacing (vs.now ++ names_with s.now.params ws.now ++ bs.now)) s.now.pre.terms) cs.now) }
{
    let values = values_before(alloc, s, vs, ws, bs)?;
    let reading = Reading::Names(values.as_slice());
    let terms = read_terms(alloc, &reading, s.pre.terms.as_slice())?;
    match_goals(alloc, terms.as_slice(), cs)
}

// The goals of a call, its code's among them.
fn call_goals(
    alloc: Global,
    via: &Option<Name>,
    s: &Signature,
    vs: &List<(Name, Arg)>,
    ws: &[Word],
    bs: &List<(Name, Arg)>,
    cs: &[(u32, Atom)],
    target: Word,
) -> Result<Option<List<Pure>>, AllocError>
    ensures { IfOk result (λ r. r ≡ code_before via.now target (match_goals (terms_with (replacing (vs.now ++ names_with s.now.params ws.now ++ bs.now)) s.now.pre.terms) cs.now)) }
{
    match goals_before(alloc, s, vs, ws, bs, cs)? {
        None => Ok(None),
        Some(goals) => Ok(Some(with_code(alloc, via, target, goals)?)),
    }
}

// A call whose values, atoms and words are found.
fn call_meets(
    alloc: Global,
    at: &Point,
    site: &CallSite,
    s: &Signature,
    vs: &List<(Name, Arg)>,
    bs: &List<(Name, Arg)>,
    cs: &[(u32, Atom)],
    ws: &[Word],
    target: Word,
) -> Result<Moved, Fault>
    ensures { AnswersStep (called site.now.after.now) result (first_failure (call_meets (rest_of at.now) s.now site.now.via.now site.now.into.now site.now.after.now vs.now bs.now cs.now ws.now target)) }
{
    if !all_different(cs) {
        return Err(Fault::Condition);
    }
    match call_goals(alloc, site.via, s, vs, ws, bs, cs, target) {
        Err(_) => Err(Fault::Memory),
        Ok(None) => Err(Fault::Condition),
        Ok(Some(goals)) => after_call(alloc, at, site, s, ws, vs, cs, goals),
    }
}

// A call whose values, atoms and operands are found.
fn call_worded(
    alloc: Global,
    at: &Point,
    site: &CallSite,
    s: &Signature,
    vs: &List<(Name, Arg)>,
    bs: &List<(Name, Arg)>,
    cs: &[(u32, Atom)],
    ws: &[Word],
) -> Result<Moved, Fault>
    ensures { AnswersStep (called site.now.after.now) result (first_failure (call_worded (rest_of at.now) s.now site.now.target.now site.now.via.now site.now.into.now site.now.after.now vs.now bs.now cs.now ws.now)) }
{
    if ws.len() != s.params.len() {
        return Err(Fault::Condition);
    }
    match operand_term(alloc, at.state.locals.as_slice(), site.target) {
        Err(_) => Err(Fault::Memory),
        Ok(None) => Err(Fault::Condition),
        Ok(Some(target)) => call_meets(alloc, at, site, s, vs, bs, cs, ws, target),
    }
}

// A call whose values and atoms are found.
fn call_found(
    alloc: Global,
    at: &Point,
    site: &CallSite,
    s: &Signature,
    vs: &List<(Name, Arg)>,
    bs: &List<(Name, Arg)>,
    cs: &[(u32, Atom)],
) -> Result<Moved, Fault>
    ensures { AnswersStep (called site.now.after.now) result (first_failure (call_found (rest_of at.now) s.now site.now.target.now site.now.via.now site.now.operands.now site.now.into.now site.now.after.now vs.now bs.now cs.now)) }
{
    match operand_terms(alloc, at.state.locals.as_slice(), site.operands) {
        Err(_) => Err(Fault::Memory),
        Ok(None) => Err(Fault::Condition),
        Ok(Some(ws)) => call_worded(alloc, at, site, s, vs, bs, cs, ws.as_slice()),
    }
}

// The values of the callee's logical variables and of the precondition's binders; the first premise that
// fails where there are none.
fn call_values(
    alloc: Global,
    state: &SymState,
    s: &Signature,
    args: &[DArg],
) -> Result<(List<(Name, Arg)>, List<(Name, Arg)>), Fault>
    requires { length s.now.logical + length s.now.pre.binders ≤ length args.now }
    ensures { AnswersRule result (first_failure (call_values state.now s.now args.now)) }
{
    let (logical, more) = args.split_at(s.logical.len());
    let vs = match to_values(alloc, state, s.logical.as_slice(), logical) {
        Err(_) => return Err(Fault::Memory),
        Ok(None) => return Err(Fault::Argument),
        Ok(Some(vs)) => vs,
    };
    let binders = &more[..s.pre.binders.len()];
    match to_values(alloc, state, s.pre.binders.as_slice(), binders) {
        Err(_) => Err(Fault::Memory),
        Ok(None) => Err(Fault::Argument),
        Ok(Some(bs)) => Ok((vs, bs)),
    }
}

// A call whose values are found.
fn call_chosen(
    alloc: Global,
    at: &Point,
    site: &CallSite,
    s: &Signature,
    vs: &List<(Name, Arg)>,
    bs: &List<(Name, Arg)>,
    args: &[DArg],
) -> Result<Moved, Fault>
    ensures { AnswersStep (called site.now.after.now) result (first_failure (call_chosen (rest_of at.now) s.now site.now.target.now site.now.via.now site.now.operands.now site.now.into.now site.now.after.now vs.now bs.now args.now)) }
{
    match chosen(alloc, at.state.atoms.as_slice(), args) {
        Err(_) => Err(Fault::Memory),
        Ok(None) => Err(Fault::Argument),
        Ok(Some(cs)) => call_found(alloc, at, site, s, vs, bs, cs.as_slice()),
    }
}

// The arguments behind the first ones.
fn args_behind(args: &[DArg], n: usize) -> &[DArg]
    ensures { result.now ≡ drop n args.now }
{
    if n <= args.len() { &args[n..] } else { &[] }
}

// A call of a signature, its counts being right.
#[tactic(auto, using(crate::proofs::CallLemmas::unvalued))]
fn call_from(
    alloc: Global,
    at: &Point,
    site: &CallSite,
    s: &Signature,
    args: &[DArg],
) -> Result<Moved, Fault>
    requires { length s.now.logical + length s.now.pre.binders ≤ length args.now }
    ensures { AnswersStep (called site.now.after.now) result (first_failure (call_from (rest_of at.now) s.now site.now.target.now site.now.via.now site.now.operands.now site.now.into.now site.now.after.now args.now)) }
{
    let (vs, bs) = call_values(alloc, &at.state, s, args)?;
    let atoms = args_behind(args, s.logical.len() + s.pre.binders.len());
    call_chosen(alloc, at, site, s, &vs, &bs, atoms)
}

/// The call at the end of a path's actions.
///
/// # Errors
/// The first premise that fails; `Memory` for want of memory.
pub(crate) fn call(
    alloc: Global,
    decls: &Decls,
    at: &Point,
    site: &CallSite,
    args: &[DArg],
    n: usize,
) -> Result<Moved, Fault>
    ensures { AnswersStep (called site.now.after.now) result (first_failure (call decls.now (rest_of at.now) site.now.target.now site.now.via.now site.now.operands.now site.now.into.now site.now.after.now args.now n)) }
{
    match callee(decls, site.target, site.via) {
        None => Err(Fault::Condition),
        Some(s) => {
            if !counts_fit(s, site.via, args.len(), n) {
                return Err(Fault::Count);
            }
            call_from(alloc, at, site, s, args)
        }
    }
}
