//! The rules on sequences and what is in them.
ghost use Rattle.std.specs.Option.{option_copied};
ghost use Rattle.std.specs.Prelude.{◌≡◌, ◌∷◌, ◌++◌, [], IfOk, OnOk};
ghost use Rattle.bed_lang.specs.Forms.{seq_form};
ghost use Rattle.bed_forms.specs.Rebuilt.{form_word, pieces_seq};
ghost use Rattle.bed_deriv.specs.Checks.{first_failure, sequent, with_fact};
ghost use Rattle.bed_deriv.specs.ListRules.{uncons, void, member, lacks, part, one, in_piece, not_in_piece, has_element, is_void, lacking, with_piece};
ghost use Rattle.bed_check_pure.specs.Faults.{AnswersRule, says};
ghost use Rattle.bed_check_pure.specs.Pieces.{void_fact, member_piece, member_goal, lacks_pieces, part_piece, part_fact, one_pieces, one_fact, uncons_pieces, uncons_fact};

use crate::fault::Fault;
use crate::goals::one_sequent;
use crate::rules::{alone, says_first};
use bed_deriv::arguments::{fact_at, number_at, numbered};
use bed_deriv::{DArg, Sequent, SymState};
use bed_forms::{Piece, form_word, pieces_seq, seq_form};
use bed_lang::{Form, List, Pure, Seq, Var, Word};
use std::alloc::{AllocError, Global};

fn element_is(alloc: Global, e: &Word, form: &Form) -> Result<Pure, AllocError>
    ensures { IfOk result (λ r. r ≡ Pure.Equal e.now (form_word form.now)) }
{
    let e = e.copy(alloc)?;
    let x = form_word(alloc, form)?;
    Ok(Pure::Equal(e, x))
}

fn element_is_not(alloc: Global, e: &Word, form: &Form) -> Result<Pure, AllocError>
    ensures { IfOk result (λ r. r ≡ Pure.Unequal e.now (form_word form.now)) }
{
    let e = e.copy(alloc)?;
    let x = form_word(alloc, form)?;
    Ok(Pure::Unequal(e, x))
}

fn variable_has(alloc: Global, e: &Word, v: &Var) -> Result<Pure, AllocError>
    ensures { IfOk result (λ r. r ≡ Pure.Member e.now (Seq.Var v.now)) }
{
    let e = e.copy(alloc)?;
    let v = v.copy(alloc)?;
    Ok(Pure::Member(e, Seq::Var(v)))
}

fn variable_lacks(alloc: Global, e: &Word, v: &Var) -> Result<Pure, AllocError>
    ensures { IfOk result (λ r. r ≡ Pure.NonMember e.now (Seq.Var v.now)) }
{
    let e = e.copy(alloc)?;
    let v = v.copy(alloc)?;
    Ok(Pure::NonMember(e, Seq::Var(v)))
}

// That a word is this piece, or in it.
fn in_piece(alloc: Global, e: &Word, piece: &Piece) -> Result<Pure, AllocError>
    ensures { IfOk result (λ r. r ≡ in_piece e.now piece.now) }
{
    match piece {
        Piece::Element(form) => element_is(alloc, e, form),
        Piece::Sequence(v) => variable_has(alloc, e, v),
    }
}

// That a word isn't this piece, or not in it.
fn not_in_piece(alloc: Global, e: &Word, piece: &Piece) -> Result<Pure, AllocError>
    ensures { IfOk result (λ r. r ≡ not_in_piece e.now piece.now) }
{
    match piece {
        Piece::Element(form) => element_is_not(alloc, e, form),
        Piece::Sequence(v) => variable_lacks(alloc, e, v),
    }
}

// ---- void

fn has_element(pieces: &[Piece]) -> bool
    ensures { result ≡ has_element pieces.now }
{
    let mut rest = pieces;
    while let [piece, more @ ..] = rest {
        if let Piece::Element(_) = piece {
            return true;
        }
        rest = more;
    }
    false
}

fn is_void(alloc: Global, s: &Seq, t: &Seq) -> Result<bool, AllocError>
    ensures { IfOk result (λ r. r ≡ is_void (seq_form s.now) (seq_form t.now)) }
{
    let ps = seq_form(alloc, s)?;
    let qs = seq_form(alloc, t)?;
    Ok(
        (ps.is_empty() && has_element(qs.as_slice()))
            || (qs.is_empty() && has_element(ps.as_slice())),
    )
}

fn void_sides(alloc: Global, s: &Seq, t: &Seq) -> Result<List<Sequent>, Fault>
    ensures { AnswersRule result (first_failure (void_fact (Pure.Same s.now t.now))) }
{
    match is_void(alloc, s, t) {
        Err(_) => Err(Fault::Memory),
        Ok(true) => Ok(List::new(alloc)),
        Ok(false) => Err(Fault::Condition),
    }
}

// Whether a fact says that a sequence with an element is empty.
fn void_fact(alloc: Global, p: &Pure) -> Result<List<Sequent>, Fault>
    ensures { AnswersRule result (first_failure (void_fact p.now)) }
{
    match p {
        Pure::Same(s, t) => void_sides(alloc, s, t),
        _ => Err(Fault::Condition),
    }
}

/// `void[i]`: fact i makes a sequence with no pieces and one with an element equal.
pub(crate) fn void(
    alloc: Global,
    s: &SymState,
    goal: Option<&Pure>,
    args: &[DArg],
    n: usize,
) -> Result<List<Sequent>, Fault>
    ensures { AnswersRule result (first_failure (void s.now (option_copied goal.entry) args.now n)) }
{
    if args.len() != 1 || n != 0 {
        return Err(Fault::Count);
    }
    match fact_at(s, args, 0) {
        None => Err(Fault::Argument),
        Some(p) => match goal {
            None => Err(Fault::Condition),
            Some(_) => void_fact(alloc, p),
        },
    }
}

// ---- member

fn goal_in_piece(
    alloc: Global,
    s: &SymState,
    e: &Word,
    piece: &Piece,
) -> Result<List<Sequent>, AllocError>
    ensures { IfOk result (λ r. r ≡ sequent s.now (in_piece e.now piece.now) ∷ []) }
{
    let state = s.copy(alloc)?;
    let goal = in_piece(alloc, e, piece)?;
    one_sequent(alloc, Sequent { state, goal })
}

fn member_piece(
    alloc: Global,
    s: &SymState,
    e: &Word,
    pieces: &[Piece],
    j: u32,
) -> Result<List<Sequent>, Fault>
    ensures { AnswersRule result (first_failure (member_piece s.now e.now pieces.now j)) }
{
    match numbered(pieces, j) {
        None => Err(Fault::Argument),
        Some(piece) => match goal_in_piece(alloc, s, e, piece) {
            Ok(goals) => Ok(goals),
            Err(_) => Err(Fault::Memory),
        },
    }
}

fn member_of(alloc: Global, s: &SymState, e: &Word, t: &Seq, j: u32) -> Result<List<Sequent>, Fault>
    ensures { AnswersRule result (first_failure (member_piece s.now e.now (seq_form t.now) j)) }
{
    match seq_form(alloc, t) {
        Err(_) => Err(Fault::Memory),
        Ok(pieces) => member_piece(alloc, s, e, pieces.as_slice(), j),
    }
}

fn member_goal(
    alloc: Global,
    s: &SymState,
    goal: Option<&Pure>,
    j: u32,
) -> Result<List<Sequent>, Fault>
    ensures { AnswersRule result (first_failure (member_goal s.now (option_copied goal.entry) j)) }
{
    match goal {
        None => Err(Fault::Condition),
        Some(g) => match g {
            Pure::Member(e, t) => member_of(alloc, s, e, t, j),
            _ => Err(Fault::Condition),
        },
    }
}

/// `member[j]`: the goal `e in s` by piece j of s.
pub(crate) fn member(
    alloc: Global,
    s: &SymState,
    goal: Option<&Pure>,
    args: &[DArg],
    n: usize,
) -> Result<List<Sequent>, Fault>
    ensures { AnswersRule result (first_failure (member s.now (option_copied goal.entry) args.now n)) }
{
    if args.len() != 1 || n != 1 {
        return Err(Fault::Count);
    }
    match number_at(args, 0) {
        None => Err(Fault::Argument),
        Some(j) => member_goal(alloc, s, goal, j),
    }
}

// ---- lacks

fn push_not_in_piece(
    alloc: Global,
    out: &mut List<Sequent>,
    s: &SymState,
    e: &Word,
    piece: &Piece,
) -> Result<(), AllocError>
    ensures { OnOk result (out.new ≡ out.old ++ sequent s.now (not_in_piece e.now piece.now) ∷ []) }
{
    let state = s.copy(alloc)?;
    let goal = not_in_piece(alloc, e, piece)?;
    out.push(Sequent { state, goal })
}

// That a word is in none of these pieces.
fn lacking(
    alloc: Global,
    s: &SymState,
    e: &Word,
    pieces: &[Piece],
) -> Result<List<Sequent>, AllocError>
    ensures { IfOk result (λ r. r ≡ lacking s.now e.now pieces.now) }
{
    let mut out = List::new(alloc);
    for piece in pieces {
        push_not_in_piece(alloc, &mut out, s, e, piece)?;
    }
    Ok(out)
}

fn lacks_pieces(
    alloc: Global,
    s: &SymState,
    e: &Word,
    pieces: &[Piece],
    n: usize,
) -> Result<List<Sequent>, Fault>
    ensures { AnswersRule result (first_failure (lacks_pieces s.now e.now pieces.now n)) }
{
    if n != pieces.len() {
        return Err(Fault::Count);
    }
    match lacking(alloc, s, e, pieces) {
        Ok(goals) => Ok(goals),
        Err(_) => Err(Fault::Memory),
    }
}

fn lacks_of(
    alloc: Global,
    s: &SymState,
    e: &Word,
    t: &Seq,
    n: usize,
) -> Result<List<Sequent>, Fault>
    ensures { AnswersRule result (first_failure (lacks_pieces s.now e.now (seq_form t.now) n)) }
{
    match seq_form(alloc, t) {
        Err(_) => Err(Fault::Memory),
        Ok(pieces) => lacks_pieces(alloc, s, e, pieces.as_slice(), n),
    }
}

/// `lacks`: the goal `e notin s`, piece by piece.
pub(crate) fn lacks(
    alloc: Global,
    s: &SymState,
    goal: Option<&Pure>,
    args: &[DArg],
    n: usize,
) -> Result<List<Sequent>, Fault>
    ensures { AnswersRule result (first_failure (lacks s.now (option_copied goal.entry) args.now n)) }
{
    if args.len() != 0 {
        return Err(Fault::Count);
    }
    match goal {
        None => Err(Fault::Condition),
        Some(g) => match g {
            Pure::NonMember(e, t) => lacks_of(alloc, s, e, t, n),
            _ => Err(Fault::Condition),
        },
    }
}

// ---- part

fn not_in_alone(alloc: Global, e: &Word, piece: &Piece) -> Result<List<Pure>, AllocError>
    ensures { IfOk result (λ r. r ≡ not_in_piece e.now piece.now ∷ []) }
{
    let p = not_in_piece(alloc, e, piece)?;
    alone(alloc, p)
}

fn apart_from(
    alloc: Global,
    goal: Option<&Pure>,
    e: &Word,
    piece: &Piece,
) -> Result<List<Sequent>, Fault>
    ensures { AnswersRule result (first_failure (says (option_copied goal.entry) (not_in_piece e.now piece.now))) }
{
    match not_in_alone(alloc, e, piece) {
        Err(_) => Err(Fault::Memory),
        Ok(facts) => says_first(alloc, goal, facts.as_slice()),
    }
}

fn part_piece(
    alloc: Global,
    goal: Option<&Pure>,
    e: &Word,
    pieces: &[Piece],
    j: u32,
) -> Result<List<Sequent>, Fault>
    ensures { AnswersRule result (first_failure (part_piece (option_copied goal.entry) e.now pieces.now j)) }
{
    match numbered(pieces, j) {
        None => Err(Fault::Argument),
        Some(piece) => apart_from(alloc, goal, e, piece),
    }
}

fn part_of(
    alloc: Global,
    goal: Option<&Pure>,
    e: &Word,
    t: &Seq,
    j: u32,
) -> Result<List<Sequent>, Fault>
    ensures { AnswersRule result (first_failure (part_piece (option_copied goal.entry) e.now (seq_form t.now) j)) }
{
    match seq_form(alloc, t) {
        Err(_) => Err(Fault::Memory),
        Ok(pieces) => part_piece(alloc, goal, e, pieces.as_slice(), j),
    }
}

fn part_fact(alloc: Global, goal: Option<&Pure>, p: &Pure, j: u32) -> Result<List<Sequent>, Fault>
    ensures { AnswersRule result (first_failure (part_fact (option_copied goal.entry) p.now j)) }
{
    match p {
        Pure::NonMember(e, t) => part_of(alloc, goal, e, t, j),
        _ => Err(Fault::Condition),
    }
}

/// `part[i, j]`: fact i is `e notin s`, and the goal says so of piece j of s.
pub(crate) fn part(
    alloc: Global,
    s: &SymState,
    goal: Option<&Pure>,
    args: &[DArg],
    n: usize,
) -> Result<List<Sequent>, Fault>
    ensures { AnswersRule result (first_failure (part s.now (option_copied goal.entry) args.now n)) }
{
    if args.len() != 2 || n != 0 {
        return Err(Fault::Count);
    }
    match fact_at(s, args, 0) {
        None => Err(Fault::Argument),
        Some(p) => match number_at(args, 1) {
            None => Err(Fault::Argument),
            Some(j) => part_fact(alloc, goal, p, j),
        },
    }
}

// ---- one

fn known_in_piece(
    alloc: Global,
    s: &SymState,
    e: &Word,
    piece: &Piece,
) -> Result<SymState, AllocError>
    ensures { IfOk result (λ r. r ≡ with_fact s.now (in_piece e.now piece.now)) }
{
    let fact = in_piece(alloc, e, piece)?;
    s.with_fact(alloc, fact)
}

fn push_in_piece(
    alloc: Global,
    out: &mut List<Sequent>,
    s: &SymState,
    goal: &Pure,
    e: &Word,
    piece: &Piece,
) -> Result<(), AllocError>
    ensures { OnOk result (out.new ≡ out.old ++ sequent (with_fact s.now (in_piece e.now piece.now)) goal.now ∷ []) }
{
    let state = known_in_piece(alloc, s, e, piece)?;
    let goal = goal.copy(alloc)?;
    out.push(Sequent { state, goal })
}

// The goal, for each piece with a word in it.
fn with_pieces(
    alloc: Global,
    s: &SymState,
    goal: &Pure,
    e: &Word,
    pieces: &[Piece],
) -> Result<List<Sequent>, AllocError>
    ensures { IfOk result (λ r. r ≡ with_piece s.now goal.now e.now pieces.now) }
{
    let mut out = List::new(alloc);
    for piece in pieces {
        push_in_piece(alloc, &mut out, s, goal, e, piece)?;
    }
    Ok(out)
}

fn one_pieces(
    alloc: Global,
    s: &SymState,
    goal: Option<&Pure>,
    e: &Word,
    pieces: &[Piece],
    n: usize,
) -> Result<List<Sequent>, Fault>
    ensures { AnswersRule result (first_failure (one_pieces s.now (option_copied goal.entry) e.now pieces.now n)) }
{
    if n != pieces.len() {
        return Err(Fault::Count);
    }
    match goal {
        None => Err(Fault::Condition),
        Some(g) => match with_pieces(alloc, s, g, e, pieces) {
            Ok(goals) => Ok(goals),
            Err(_) => Err(Fault::Memory),
        },
    }
}

fn one_of(
    alloc: Global,
    s: &SymState,
    goal: Option<&Pure>,
    e: &Word,
    t: &Seq,
    n: usize,
) -> Result<List<Sequent>, Fault>
    ensures { AnswersRule result (first_failure (one_pieces s.now (option_copied goal.entry) e.now (seq_form t.now) n)) }
{
    match seq_form(alloc, t) {
        Err(_) => Err(Fault::Memory),
        Ok(pieces) => one_pieces(alloc, s, goal, e, pieces.as_slice(), n),
    }
}

fn one_fact(
    alloc: Global,
    s: &SymState,
    goal: Option<&Pure>,
    p: &Pure,
    n: usize,
) -> Result<List<Sequent>, Fault>
    ensures { AnswersRule result (first_failure (one_fact s.now (option_copied goal.entry) p.now n)) }
{
    match p {
        Pure::Member(e, t) => one_of(alloc, s, goal, e, t, n),
        _ => Err(Fault::Condition),
    }
}

/// `one[i]`: fact i is `e in s`; the goal, for each piece of s with e in it.
pub(crate) fn one(
    alloc: Global,
    s: &SymState,
    goal: Option<&Pure>,
    args: &[DArg],
    n: usize,
) -> Result<List<Sequent>, Fault>
    ensures { AnswersRule result (first_failure (one s.now (option_copied goal.entry) args.now n)) }
{
    if args.len() != 1 {
        return Err(Fault::Count);
    }
    match fact_at(s, args, 0) {
        None => Err(Fault::Argument),
        Some(p) => one_fact(alloc, s, goal, p, n),
    }
}

// ---- uncons

fn equal_heads(alloc: Global, f: &Form, g: &Form) -> Result<Pure, AllocError>
    ensures { IfOk result (λ r. r ≡ Pure.Equal (form_word f.now) (form_word g.now)) }
{
    let a = form_word(alloc, f)?;
    let b = form_word(alloc, g)?;
    Ok(Pure::Equal(a, b))
}

fn equal_tails(alloc: Global, ps: &[Piece], qs: &[Piece]) -> Result<Pure, AllocError>
    ensures { IfOk result (λ r. r ≡ Pure.Same (pieces_seq ps.now) (pieces_seq qs.now)) }
{
    let s = pieces_seq(alloc, ps)?;
    let t = pieces_seq(alloc, qs)?;
    Ok(Pure::Same(s, t))
}

fn with_heads(alloc: Global, s: &SymState, f: &Form, g: &Form) -> Result<SymState, AllocError>
    ensures { IfOk result (λ r. r ≡ with_fact s.now (Pure.Equal (form_word f.now) (form_word g.now))) }
{
    let fact = equal_heads(alloc, f, g)?;
    s.with_fact(alloc, fact)
}

fn with_tails(
    alloc: Global,
    s: &SymState,
    ps: &[Piece],
    qs: &[Piece],
) -> Result<SymState, AllocError>
    ensures { IfOk result (λ r. r ≡ with_fact s.now (Pure.Same (pieces_seq ps.now) (pieces_seq qs.now))) }
{
    let fact = equal_tails(alloc, ps, qs)?;
    s.with_fact(alloc, fact)
}

// The goal with the heads equal and the tails equal.
fn unconsed(
    alloc: Global,
    s: &SymState,
    goal: &Pure,
    ps: &[Piece],
    qs: &[Piece],
) -> Result<List<Sequent>, AllocError>
    ensures { IfOk result (λ r. r ≡ sequent (with_fact s.now (Pure.Same (pieces_seq ps.now) (pieces_seq qs.now))) goal.now ∷ []) }
{
    let state = with_tails(alloc, s, ps, qs)?;
    let goal = goal.copy(alloc)?;
    one_sequent(alloc, Sequent { state, goal })
}

fn uncons_parts(
    alloc: Global,
    s: &SymState,
    goal: &Pure,
    f: &Form,
    ps: &[Piece],
    g: &Form,
    qs: &[Piece],
) -> Result<List<Sequent>, Fault>
    ensures { AnswersRule result (first_failure (uncons_pieces s.now goal.now (Piece.Element f.now ∷ ps.now) (Piece.Element g.now ∷ qs.now))) }
{
    match with_heads(alloc, s, f, g) {
        Err(_) => Err(Fault::Memory),
        Ok(state) => match unconsed(alloc, &state, goal, ps, qs) {
            Ok(goals) => Ok(goals),
            Err(_) => Err(Fault::Memory),
        },
    }
}

fn uncons_pieces(
    alloc: Global,
    s: &SymState,
    goal: &Pure,
    ps: &[Piece],
    qs: &[Piece],
) -> Result<List<Sequent>, Fault>
    ensures { AnswersRule result (first_failure (uncons_pieces s.now goal.now ps.now qs.now)) }
{
    match ps {
        [] => Err(Fault::Condition),
        [Piece::Sequence(_), ..] => Err(Fault::Condition),
        [Piece::Element(f), more @ ..] => match qs {
            [] => Err(Fault::Condition),
            [Piece::Sequence(_), ..] => Err(Fault::Condition),
            [Piece::Element(g), others @ ..] => uncons_parts(alloc, s, goal, f, more, g, others),
        },
    }
}

fn uncons_sides(
    alloc: Global,
    s: &SymState,
    goal: &Pure,
    t: &Seq,
    u: &Seq,
) -> Result<List<Sequent>, Fault>
    ensures { AnswersRule result (first_failure (uncons_pieces s.now goal.now (seq_form t.now) (seq_form u.now))) }
{
    match seq_form(alloc, t) {
        Err(_) => Err(Fault::Memory),
        Ok(ps) => match seq_form(alloc, u) {
            Err(_) => Err(Fault::Memory),
            Ok(qs) => uncons_pieces(alloc, s, goal, ps.as_slice(), qs.as_slice()),
        },
    }
}

fn uncons_fact(alloc: Global, s: &SymState, goal: &Pure, p: &Pure) -> Result<List<Sequent>, Fault>
    ensures { AnswersRule result (first_failure (uncons_fact s.now goal.now p.now)) }
{
    match p {
        Pure::Same(t, u) => uncons_sides(alloc, s, goal, t, u),
        _ => Err(Fault::Condition),
    }
}

/// `uncons[i]`: fact i makes two sequences equal that begin with an element; the goal with the heads equal
/// and the tails equal.
pub(crate) fn uncons(
    alloc: Global,
    s: &SymState,
    goal: Option<&Pure>,
    args: &[DArg],
    n: usize,
) -> Result<List<Sequent>, Fault>
    ensures { AnswersRule result (first_failure (uncons s.now (option_copied goal.entry) args.now n)) }
{
    if args.len() != 1 || n != 1 {
        return Err(Fault::Count);
    }
    match fact_at(s, args, 0) {
        None => Err(Fault::Argument),
        Some(p) => match goal {
            None => Err(Fault::Condition),
            Some(g) => uncons_fact(alloc, s, g, p),
        },
    }
}
