//! The rule that solves an equation for a variable.
ghost use Rattle.std.specs.Option.{option_copied, option_map};
ghost use Rattle.std.specs.Prelude.{◌≡◌, ◌∷◌, ◌++◌, [], IfOk, OnOk, bytes_eq, map, slice_get};
ghost use Rattle.bed_lang.specs.Keys.{same_key, key_text};
ghost use Rattle.bed_lang.specs.Forms.{seq_form, times_form};
ghost use Rattle.bed_forms.specs.Rebuilt.{form_word, pieces_seq};
ghost use Rattle.bed_lang.specs.Coefficients.{coefficient_in};
ghost use Rattle.bed_lang.specs.Differences.{difference};
ghost use Rattle.bed_deriv.specs.Opening.{word_set, seq_set, replaced_fact, replaced_atom};
ghost use Rattle.bed_deriv.specs.Readings.{instance_of};
ghost use Rattle.bed_deriv.specs.Checks.{first_failure};
ghost use Rattle.bed_deriv.specs.PureRules.{solve, parts_but, form_but, solved_by, is_just, has_sequence, solved_sequence, replaced_state};
ghost use Rattle.bed_check_pure.specs.Faults.{AnswersRule};
ghost use Rattle.bed_check_pure.specs.Solutions.{replaced_by, solve_goal, solve_fact, solve_variable};

use crate::fault::Fault;
use crate::goals::one_sequent;
use crate::variables::variable_at;
use bed_deriv::arguments::fact_at;
use bed_deriv::read::{read_atom_anew, read_fact_anew};
use bed_deriv::{DArg, Reading, Sequent, SymState};
use bed_forms::{Key, Piece, difference, form_word, pieces_seq, seq_form, times_form};
use bed_lang::{Atom, Form, List, Pure, Seq, Tree, Var, Word};
use std::alloc::{AllocError, Global};

fn is_key(key: &Key, v: &Var) -> bool
    ensures { result ≡ same_key key.now (Key.Var v.now) }
{
    match key {
        Key::Var(x) => x.same(v),
        Key::Label(_) => false,
    }
}

// Whether the texts of a key and a variable are the same.
#[tactic(auto, using(crate::proofs::CoefficientLaws::same_key_is))]
fn has_text(key: &Key, v: &Var) -> bool
    ensures { result ≡ bytes_eq (key_text (Key.Var v.now)) (key_text key.now) }
{
    is_key(key, v)
}

// The coefficient of a variable.
fn coefficient(v: &Var, parts: &[(Key, u32)]) -> u32
    ensures { result ≡ coefficient_in (Key.Var v.now) parts.now }
{
    let mut rest = parts;
    while let [part, more @ ..] = rest {
        if has_text(&part.0, v) {
            return part.1;
        }
        rest = more;
    }
    0
}

fn push_part(alloc: Global, out: &mut List<(Key, u32)>, part: &(Key, u32)) -> Result<(), AllocError>
    ensures { OnOk result (out.new ≡ out.old ++ part.now ∷ []) }
{
    let key = part.0.copy(alloc)?;
    out.push((key, part.1))
}

// The parts without a variable's.
fn parts_but(alloc: Global, v: &Var, parts: &[(Key, u32)]) -> Result<List<(Key, u32)>, AllocError>
    ensures { IfOk result (λ r. r ≡ parts_but v.now parts.now) }
{
    let mut out = List::new(alloc);
    for part in parts {
        if !is_key(&part.0, v) {
            push_part(alloc, &mut out, part)?;
        }
    }
    Ok(out)
}

fn form_but(alloc: Global, v: &Var, form: &Form) -> Result<Form, AllocError>
    ensures { IfOk result (λ r. r ≡ form_but v.now form.now) }
{
    let parts = parts_but(alloc, v, form.parts.as_slice())?;
    Ok(Form {
        constant: form.constant,
        parts,
    })
}

// The opposite of a form as a word.
fn minus_word(alloc: Global, form: &Form) -> Result<Word, AllocError>
    ensures { IfOk result (λ r. r ≡ form_word (times_form 4294967295 form.now)) }
{
    let opposite = times_form(alloc, 4_294_967_295, form)?;
    form_word(alloc, &opposite)
}

fn rest_word(alloc: Global, v: &Var, form: &Form) -> Result<Word, AllocError>
    ensures { IfOk result (λ r. r ≡ form_word (form_but v.now form.now)) }
{
    let rest = form_but(alloc, v, form)?;
    form_word(alloc, &rest)
}

fn minus_rest(alloc: Global, v: &Var, form: &Form) -> Result<Word, AllocError>
    ensures { IfOk result (λ r. r ≡ form_word (times_form 4294967295 (form_but v.now form.now))) }
{
    let rest = form_but(alloc, v, form)?;
    minus_word(alloc, &rest)
}

// A list of one word, and of one sequence. (One of its own that is alive where a call fails is dear to prove.)
fn word_alone(alloc: Global, w: Word) -> Result<List<Word>, AllocError>
    ensures { IfOk result (λ r. r ≡ w ∷ []) }
{
    let mut out = List::new(alloc);
    out.push(w)?;
    Ok(out)
}

fn seq_alone(alloc: Global, s: Seq) -> Result<List<Seq>, AllocError>
    ensures { IfOk result (λ r. r ≡ s ∷ []) }
{
    let mut out = List::new(alloc);
    out.push(s)?;
    Ok(out)
}

fn minus_rest_alone(alloc: Global, v: &Var, form: &Form) -> Result<List<Word>, AllocError>
    ensures { IfOk result (λ r. r ≡ form_word (times_form 4294967295 (form_but v.now form.now)) ∷ []) }
{
    let w = minus_rest(alloc, v, form)?;
    word_alone(alloc, w)
}

fn rest_alone(alloc: Global, v: &Var, form: &Form) -> Result<List<Word>, AllocError>
    ensures { IfOk result (λ r. r ≡ form_word (form_but v.now form.now) ∷ []) }
{
    let w = rest_word(alloc, v, form)?;
    word_alone(alloc, w)
}

fn pieces_alone(alloc: Global, pieces: &[Piece]) -> Result<List<Seq>, AllocError>
    ensures { IfOk result (λ r. r ≡ pieces_seq pieces.now ∷ []) }
{
    let s = pieces_seq(alloc, pieces)?;
    seq_alone(alloc, s)
}

// The value of a variable whose sum with the rest of a form is 0, as the one item of a list.
fn solved_by(alloc: Global, v: &Var, form: &Form) -> Result<List<Word>, AllocError>
    ensures { IfOk result (λ r. option_map (word_set v.now) (slice_get r 0) ≡ solved_by v.now form.now (coefficient_in (Key.Var v.now) form.now.parts)) }
{
    let times = coefficient(v, form.parts.as_slice());
    if times == 1 {
        minus_rest_alone(alloc, v, form)
    } else if times == 4_294_967_295 {
        rest_alone(alloc, v, form)
    } else {
        Ok(List::new(alloc))
    }
}

fn is_just(v: &Var, pieces: &[Piece]) -> bool
    ensures { result ≡ is_just v.now pieces.now }
{
    match pieces {
        [] => false,
        [Piece::Element(_), ..] => false,
        [Piece::Sequence(x), more @ ..] => more.is_empty() && x.same(v),
    }
}

fn has_sequence(v: &Var, pieces: &[Piece]) -> bool
    ensures { result ≡ has_sequence v.now pieces.now }
{
    let mut rest = pieces;
    while let [piece, more @ ..] = rest {
        if let Piece::Sequence(x) = piece {
            if x.same(v) {
                return true;
            }
        }
        rest = more;
    }
    false
}

// The value of a sequence variable that is one side of an equation and not in the other, as the one item of
// a list.
fn solved_sequence(
    alloc: Global,
    v: &Var,
    ps: &[Piece],
    qs: &[Piece],
) -> Result<List<Seq>, AllocError>
    ensures { IfOk result (λ r. option_map (seq_set v.now) (slice_get r 0) ≡ solved_sequence v.now ps.now qs.now) }
{
    if is_just(v, ps) && !has_sequence(v, qs) {
        pieces_alone(alloc, qs)
    } else if is_just(v, qs) && !has_sequence(v, ps) {
        pieces_alone(alloc, ps)
    } else {
        Ok(List::new(alloc))
    }
}

fn push_fact(
    alloc: Global,
    out: &mut List<Pure>,
    reading: &Reading,
    p: &Pure,
) -> Result<(), AllocError>
    ensures { OnOk result (out.new ≡ out.old ++ replaced_fact (instance_of reading.now) p.now ∷ []) }
{
    let p = read_fact_anew(alloc, reading, p)?;
    out.push(p)
}

fn push_atom(
    alloc: Global,
    out: &mut List<Atom>,
    reading: &Reading,
    a: &Atom,
) -> Result<(), AllocError>
    ensures { OnOk result (out.new ≡ out.old ++ replaced_atom (instance_of reading.now) a.now ∷ []) }
{
    let a = read_atom_anew(alloc, reading, a)?;
    out.push(a)
}

fn facts_anew(alloc: Global, reading: &Reading, facts: &[Pure]) -> Result<List<Pure>, AllocError>
    ensures { IfOk result (λ r. r ≡ map (replaced_fact (instance_of reading.now)) facts.now) }
{
    let mut out = List::new(alloc);
    for fact in facts {
        push_fact(alloc, &mut out, reading, fact)?;
    }
    Ok(out)
}

fn atoms_anew(alloc: Global, reading: &Reading, atoms: &[Atom]) -> Result<List<Atom>, AllocError>
    ensures { IfOk result (λ r. r ≡ map (replaced_atom (instance_of reading.now)) atoms.now) }
{
    let mut out = List::new(alloc);
    for atom in atoms {
        push_atom(alloc, &mut out, reading, atom)?;
    }
    Ok(out)
}

fn state_anew(alloc: Global, reading: &Reading, s: &SymState) -> Result<SymState, AllocError>
    ensures { IfOk result (λ r. r ≡ replaced_state (instance_of reading.now) s.now) }
{
    let facts = facts_anew(alloc, reading, s.facts.as_slice())?;
    let atoms = atoms_anew(alloc, reading, s.atoms.as_slice())?;
    let locals = s.locals.copied(alloc)?;
    Ok(SymState {
        locals,
        facts,
        atoms,
        next: s.next,
    })
}

fn replaced(
    alloc: Global,
    reading: &Reading,
    s: &SymState,
    goal: &Pure,
) -> Result<List<Sequent>, AllocError>
    ensures { IfOk result (λ r. r ≡ replaced_by (instance_of reading.now) s.now goal.now) }
{
    let state = state_anew(alloc, reading, s)?;
    let goal = read_fact_anew(alloc, reading, goal)?;
    one_sequent(alloc, Sequent { state, goal })
}

fn with_word(
    alloc: Global,
    s: &SymState,
    goal: &Pure,
    v: &Var,
    values: &[Word],
) -> Result<List<Sequent>, Fault>
    ensures { AnswersRule result (first_failure (solve_goal s.now goal.now (option_map (word_set v.now) (slice_get values.now 0)))) }
{
    match values.get(0) {
        None => Err(Fault::Condition),
        Some(w) => match replaced(alloc, &Reading::Word(v, w), s, goal) {
            Ok(goals) => Ok(goals),
            Err(_) => Err(Fault::Memory),
        },
    }
}

fn with_sequence(
    alloc: Global,
    s: &SymState,
    goal: &Pure,
    v: &Var,
    values: &[Seq],
) -> Result<List<Sequent>, Fault>
    ensures { AnswersRule result (first_failure (solve_goal s.now goal.now (option_map (seq_set v.now) (slice_get values.now 0)))) }
{
    match values.get(0) {
        None => Err(Fault::Condition),
        Some(t) => match replaced(alloc, &Reading::Seq(v, t), s, goal) {
            Ok(goals) => Ok(goals),
            Err(_) => Err(Fault::Memory),
        },
    }
}

fn word_value(alloc: Global, v: &Var, a: &Word, b: &Word) -> Result<List<Word>, AllocError>
    ensures { IfOk result (λ r. option_map (word_set v.now) (slice_get r 0) ≡ solved_by v.now (difference a.now b.now) (coefficient_in (Key.Var v.now) (difference a.now b.now).parts)) }
{
    let form = difference(alloc, a, b)?;
    solved_by(alloc, v, &form)
}

fn sequence_value(alloc: Global, v: &Var, a: &Seq, b: &Seq) -> Result<List<Seq>, AllocError>
    ensures { IfOk result (λ r. option_map (seq_set v.now) (slice_get r 0) ≡ solved_sequence v.now (seq_form a.now) (seq_form b.now)) }
{
    let ps = seq_form(alloc, a)?;
    let qs = seq_form(alloc, b)?;
    solved_sequence(alloc, v, ps.as_slice(), qs.as_slice())
}

fn solve_words(
    alloc: Global,
    s: &SymState,
    goal: &Pure,
    v: &Var,
    a: &Word,
    b: &Word,
) -> Result<List<Sequent>, Fault>
    ensures { AnswersRule result (first_failure (solve_fact s.now goal.now v.now (Pure.Equal a.now b.now))) }
{
    match word_value(alloc, v, a, b) {
        Err(_) => Err(Fault::Memory),
        Ok(values) => with_word(alloc, s, goal, v, values.as_slice()),
    }
}

fn solve_sequences(
    alloc: Global,
    s: &SymState,
    goal: &Pure,
    v: &Var,
    a: &Seq,
    b: &Seq,
) -> Result<List<Sequent>, Fault>
    ensures { AnswersRule result (first_failure (solve_fact s.now goal.now v.now (Pure.Same a.now b.now))) }
{
    match sequence_value(alloc, v, a, b) {
        Err(_) => Err(Fault::Memory),
        Ok(values) => with_sequence(alloc, s, goal, v, values.as_slice()),
    }
}

fn solve_fact(
    alloc: Global,
    s: &SymState,
    goal: &Pure,
    v: &Var,
    p: &Pure,
) -> Result<List<Sequent>, Fault>
    ensures { AnswersRule result (first_failure (solve_fact s.now goal.now v.now p.now)) }
{
    match p {
        Pure::Equal(a, b) => solve_words(alloc, s, goal, v, a, b),
        Pure::Same(a, b) => solve_sequences(alloc, s, goal, v, a, b),
        _ => Err(Fault::Condition),
    }
}

fn solve_variable(
    alloc: Global,
    s: &SymState,
    goal: Option<&Pure>,
    p: &Pure,
    found: &[Var],
) -> Result<List<Sequent>, Fault>
    ensures { AnswersRule result (first_failure (solve_variable s.now (option_copied goal.entry) p.now (slice_get found.now 0))) }
{
    match found.get(0) {
        None => Err(Fault::Argument),
        Some(v) => match goal {
            None => Err(Fault::Condition),
            Some(g) => solve_fact(alloc, s, g, v, p),
        },
    }
}

/// `solve[i, v]`: fact i is solved for v, and v gives way to its value in the state and the goal.
pub(crate) fn solve(
    alloc: Global,
    s: &SymState,
    goal: Option<&Pure>,
    args: &[DArg],
    n: usize,
) -> Result<List<Sequent>, Fault>
    ensures { AnswersRule result (first_failure (solve s.now (option_copied goal.entry) args.now n)) }
{
    if args.len() != 2 || n != 1 {
        return Err(Fault::Count);
    }
    match fact_at(s, args, 0) {
        None => Err(Fault::Argument),
        Some(p) => match variable_at(alloc, s, args, 1) {
            Err(_) => Err(Fault::Memory),
            Ok(found) => solve_variable(alloc, s, goal, p, found.as_slice()),
        },
    }
}
