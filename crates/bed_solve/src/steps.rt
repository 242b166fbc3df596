//! One step of solving.
ghost use Rattle.std.specs.Prelude.{◌≡◌, ◌∷◌, ◌++◌, [], IfOk, OnOk, Some, None, map};
ghost use Rattle.bed_lang.specs.Forms.{seq_form};
ghost use Rattle.bed_forms.specs.Rebuilt.{form_word, pieces_seq};
ghost use Rattle.bed_deriv.specs.Opening.{replaced_fact, replaced_atom};
ghost use Rattle.bed_deriv.specs.Readings.{instance_of};
ghost use Rattle.bed_deriv.specs.Checks.{with_fact};
ghost use Rattle.bed_deriv.specs.PureRules.{replaced_state};
ghost use Rattle.bed_deriv.specs.ListRules.{heads_and_tails};
ghost use Rattle.bed_plain.specs.Solving.{setting, variable_arg, if_room, replacing_by, by_solve, known_only, greatest_allowed, variables_of, with_parts, parts_of, step_at, is_among, first_step};

use crate::greatest::{greatest_allowed, variables_of};
use crate::values::solved_value;
use bed_deriv::known::known_var;
use bed_deriv::read::{read_atom_anew, read_fact_anew};
use bed_deriv::{DArg, Reading, Rule, SymState};
use bed_forms::{Piece, form_word, pieces_seq, seq_form};
use bed_lang::{Arg, Atom, Form, List, Pure, Seq, Tree, Var, Word};
use bed_plain::Solved;
use std::alloc::{AllocError, Global};

// ---- a variable gives way

fn push_fact(
    alloc: Global,
    out: &mut List<Pure>,
    reading: &Reading,
    p: &Pure,
) -> Result<(), AllocError>
    ensures { OnOk result (out.new ≡ out.old ++ replaced_fact (instance_of reading.now) p.now ∷ []) }
{
    let p = read_fact_anew(alloc, reading, p)?;
    out.push(p)
}

fn push_atom(
    alloc: Global,
    out: &mut List<Atom>,
    reading: &Reading,
    a: &Atom,
) -> Result<(), AllocError>
    ensures { OnOk result (out.new ≡ out.old ++ replaced_atom (instance_of reading.now) a.now ∷ []) }
{
    let a = read_atom_anew(alloc, reading, a)?;
    out.push(a)
}

/// The facts written anew with a term in place of a variable.
///
/// # Errors
/// `AllocError` for want of memory.
pub(crate) fn facts_anew(
    alloc: Global,
    reading: &Reading,
    facts: &[Pure],
) -> Result<List<Pure>, AllocError>
    ensures { IfOk result (λ r. r ≡ map (replaced_fact (instance_of reading.now)) facts.now) }
{
    let mut out = List::new(alloc);
    for fact in facts {
        push_fact(alloc, &mut out, reading, fact)?;
    }
    Ok(out)
}

fn atoms_anew(alloc: Global, reading: &Reading, atoms: &[Atom]) -> Result<List<Atom>, AllocError>
    ensures { IfOk result (λ r. r ≡ map (replaced_atom (instance_of reading.now)) atoms.now) }
{
    let mut out = List::new(alloc);
    for atom in atoms {
        push_atom(alloc, &mut out, reading, atom)?;
    }
    Ok(out)
}

fn state_read(alloc: Global, reading: &Reading, s: &SymState) -> Result<SymState, AllocError>
    ensures { IfOk result (λ r. r ≡ replaced_state (instance_of reading.now) s.now) }
{
    let facts = facts_anew(alloc, reading, s.facts.as_slice())?;
    let atoms = atoms_anew(alloc, reading, s.atoms.as_slice())?;
    let locals = s.locals.copied(alloc)?;
    Ok(SymState {
        locals,
        facts,
        atoms,
        next: s.next,
    })
}

fn state_set(alloc: Global, s: &SymState, v: &Var, value: &Arg) -> Result<SymState, AllocError>
    ensures { IfOk result (λ r. r ≡ replaced_state (setting (v.now, value.now)) s.now) }
{
    match value {
        Arg::Word(_, w) => state_read(alloc, &Reading::Word(v, w), s),
        Arg::Seq(_, t) => state_read(alloc, &Reading::Seq(v, t), s),
        Arg::Bare(_) => state_read(alloc, &Reading::Word(v, &Word::Number(0)), s),
    }
}

fn variable_arg(alloc: Global, p: &Pure, v: &Var) -> Result<DArg, AllocError>
    ensures { IfOk result (λ r. r ≡ variable_arg p.now v.now) }
{
    match p {
        Pure::Same(_, _) => Ok(DArg::Arg(Arg::Seq(0, Seq::Var(v.copy(alloc)?)))),
        _ => Ok(DArg::Arg(Arg::Word(0, Word::Var(v.copy(alloc)?)))),
    }
}

fn push_variable(alloc: Global, out: &mut List<DArg>, p: &Pure, v: &Var) -> Result<(), AllocError>
    ensures { OnOk result (out.new ≡ out.old ++ variable_arg p.now v.now ∷ []) }
{
    let arg = variable_arg(alloc, p, v)?;
    out.push(arg)
}

fn fact_arg(alloc: Global, i: u32) -> Result<List<DArg>, AllocError>
    ensures { IfOk result (λ r. r ≡ DArg.Number i ∷ []) }
{
    let mut out = List::new(alloc);
    out.push(DArg::Number(i))?;
    Ok(out)
}

fn solve_args(alloc: Global, i: u32, p: &Pure, v: &Var) -> Result<List<DArg>, AllocError>
    ensures { IfOk result (λ r. r ≡ DArg.Number i ∷ variable_arg p.now v.now ∷ []) }
{
    let mut out = fact_arg(alloc, i)?;
    push_variable(alloc, &mut out, p, v)?;
    Ok(out)
}

fn pair(alloc: Global, v: &Var, value: &Arg) -> Result<(Var, Arg), AllocError>
    ensures { IfOk result (λ r. r ≡ (v.now, value.now)) }
{
    match v.copy(alloc) {
        Err(e) => Err(e),
        Ok(v) => match value.copy(alloc) {
            Err(e) => Err(e),
            Ok(value) => Ok((v, value)),
        },
    }
}

fn solved_step(
    alloc: Global,
    i: u32,
    p: &Pure,
    v: &Var,
    value: &Arg,
    state: SymState,
) -> Result<Solved, AllocError>
    ensures { IfOk result (λ r. r ≡ record { fact = i; rule = Rule.Solve; args = DArg.Number i ∷ variable_arg p.now v.now ∷ []; reading = Some (v.now, value.now); state = state }) }
{
    let args = solve_args(alloc, i, p, v)?;
    let reading = pair(alloc, v, value)?;
    Ok(Solved {
        fact: i,
        rule: Rule::Solve,
        args,
        reading: Some(reading),
        state,
    })
}

fn replacing_by(
    alloc: Global,
    s: &SymState,
    i: u32,
    p: &Pure,
    v: &Var,
    value: &Arg,
) -> Result<Option<Solved>, AllocError>
    ensures { IfOk result (λ r. r ≡ replacing_by s.now i (variable_arg p.now v.now) v.now (Some value.now)) }
{
    let state = state_set(alloc, s, v, value)?;
    if state.has_room() {
        Ok(Some(solved_step(alloc, i, p, v, value, state)?))
    } else {
        Ok(None)
    }
}

fn solved_for(
    alloc: Global,
    s: &SymState,
    i: u32,
    p: &Pure,
    v: &Var,
) -> Result<Option<Solved>, AllocError>
    ensures { IfOk result (λ r. r ≡ by_solve s.now i p.now (Some v.now)) }
{
    match solved_value(alloc, v, p)? {
        None => Ok(None),
        Some(value) => replacing_by(alloc, s, i, p, v, &value),
    }
}

// The step that solves a fact for the greatest variable.
fn by_solve(alloc: Global, s: &SymState, i: u32, p: &Pure) -> Result<Option<Solved>, AllocError>
    ensures { IfOk result (λ r. r ≡ by_solve s.now i p.now (known_only s.now (greatest_allowed p.now (variables_of p.now)))) }
{
    let vars = variables_of(alloc, p)?;
    match greatest_allowed(alloc, p, vars.as_slice())? {
        None => Ok(None),
        Some(v) => {
            if known_var(s.next, v) {
                solved_for(alloc, s, i, p, v)
            } else {
                Ok(None)
            }
        }
    }
}

// ---- an equation of sequences is taken apart

fn heads(alloc: Global, f: &Form, g: &Form) -> Result<Pure, AllocError>
    ensures { IfOk result (λ r. r ≡ Pure.Equal (form_word f.now) (form_word g.now)) }
{
    let a = form_word(alloc, f)?;
    let b = form_word(alloc, g)?;
    Ok(Pure::Equal(a, b))
}

fn tails(alloc: Global, ps: &[Piece], qs: &[Piece]) -> Result<Pure, AllocError>
    ensures { IfOk result (λ r. r ≡ Pure.Same (pieces_seq ps.now) (pieces_seq qs.now)) }
{
    let s = pieces_seq(alloc, ps)?;
    let t = pieces_seq(alloc, qs)?;
    Ok(Pure::Same(s, t))
}

fn with_head(alloc: Global, s: &SymState, f: &Form, g: &Form) -> Result<SymState, AllocError>
    ensures { IfOk result (λ r. r ≡ with_fact s.now (Pure.Equal (form_word f.now) (form_word g.now))) }
{
    let fact = heads(alloc, f, g)?;
    s.with_fact(alloc, fact)
}

fn with_tail(
    alloc: Global,
    s: &SymState,
    ps: &[Piece],
    qs: &[Piece],
) -> Result<SymState, AllocError>
    ensures { IfOk result (λ r. r ≡ with_fact s.now (Pure.Same (pieces_seq ps.now) (pieces_seq qs.now))) }
{
    let fact = tails(alloc, ps, qs)?;
    s.with_fact(alloc, fact)
}

fn parted_step(alloc: Global, i: u32, state: SymState) -> Result<Solved, AllocError>
    ensures { IfOk result (λ r. r ≡ record { fact = i; rule = Rule.Uncons; args = DArg.Number i ∷ []; reading = None; state = state }) }
{
    let args = fact_arg(alloc, i)?;
    Ok(Solved {
        fact: i,
        rule: Rule::Uncons,
        args,
        reading: None,
        state,
    })
}

fn if_room(alloc: Global, i: u32, state: SymState) -> Result<Option<Solved>, AllocError>
    ensures { IfOk result (λ r. r ≡ if_room state (record { fact = i; rule = Rule.Uncons; args = DArg.Number i ∷ []; reading = None; state = state })) }
{
    if state.has_room() {
        Ok(Some(parted_step(alloc, i, state)?))
    } else {
        Ok(None)
    }
}

fn taken_apart(
    alloc: Global,
    s: &SymState,
    i: u32,
    ps: &[Piece],
    qs: &[Piece],
) -> Result<Option<Solved>, AllocError>
    ensures { IfOk result (λ r. r ≡ with_parts s.now i (heads_and_tails ps.now qs.now)) }
{
    match (ps, qs) {
        ([Piece::Element(f), ps @ ..], [Piece::Element(g), qs @ ..]) => {
            let first = with_head(alloc, s, f, g)?;
            let state = with_tail(alloc, &first, ps, qs)?;
            if_room(alloc, i, state)
        }
        _ => Ok(None),
    }
}

fn sides_apart(
    alloc: Global,
    s: &SymState,
    i: u32,
    t: &Seq,
    u: &Seq,
) -> Result<Option<Solved>, AllocError>
    ensures { IfOk result (λ r. r ≡ with_parts s.now i (heads_and_tails (seq_form t.now) (seq_form u.now))) }
{
    let ps = seq_form(alloc, t)?;
    let qs = seq_form(alloc, u)?;
    taken_apart(alloc, s, i, ps.as_slice(), qs.as_slice())
}

fn with_parts(alloc: Global, s: &SymState, i: u32, p: &Pure) -> Result<Option<Solved>, AllocError>
    ensures { IfOk result (λ r. r ≡ with_parts s.now i (parts_of p.now)) }
{
    match p {
        Pure::Same(t, u) => sides_apart(alloc, s, i, t, u),
        _ => Ok(None),
    }
}

// ---- the first fact with a step

fn step_at(alloc: Global, s: &SymState, i: u32, p: &Pure) -> Result<Option<Solved>, AllocError>
    ensures { IfOk result (λ r. r ≡ step_at s.now i p.now) }
{
    match by_solve(alloc, s, i, p)? {
        Some(step) => Ok(Some(step)),
        None => with_parts(alloc, s, i, p),
    }
}

fn is_among(n: u32, taken: &[u32]) -> bool
    ensures { result ≡ is_among n taken.now }
{
    let mut rest = taken;
    while let [m, more @ ..] = rest {
        if n == *m {
            return true;
        }
        rest = more;
    }
    false
}

/// The first step that solving can make in a state, where these facts are taken.
///
/// # Errors
/// `AllocError` for want of memory, where a form has more than 8,192 parts or pieces, and where there are
/// more than 4294967295 facts, whose numbers 32 bits don't hold.
pub(crate) fn first_step(
    alloc: Global,
    s: &SymState,
    taken: &[u32],
) -> Result<Option<Solved>, AllocError>
    ensures { IfOk result (λ r. r ≡ first_step s.now taken.now 1 s.now.facts) }
{
    let mut rest = s.facts.as_slice();
    let mut number = 1u32;
    while let [fact, more @ ..] = rest {
        if !is_among(number, taken) {
            if let Some(step) = step_at(alloc, s, number, fact)? {
                return Ok(Some(step));
            }
        }
        if number == u32::MAX {
            return if_none_left(more);
        }
        number += 1;
        rest = more;
    }
    Ok(None)
}

fn if_none_left(more: &[Pure]) -> Result<Option<Solved>, AllocError>
    ensures { IfOk result (λ r. (r ≡ None) × (more.now ≡ [])) }
{
    if more.is_empty() {
        Ok(None)
    } else {
        Err(AllocError)
    }
}
