//! Terms in place of variables: the ways of reading an assertion or a fact.
ghost use Rattle.std.specs.Prelude.{◌≡◌, IfOk};
ghost use Rattle.std.specs.Option.{option_copied};
ghost use Rattle.bed_lang.specs.Values.{variable};
ghost use Rattle.bed_lang.specs.Instances.{word_with, seq_with};
ghost use Rattle.bed_deriv.specs.Opening.{has_sort, word_in, seq_in, value_for, occurrence, word_instead, seq_instead, word_or_0, seq_or_nil, word_set, seq_set, replacing, with_answer};
ghost use Rattle.bed_deriv.specs.Readings.{instance_of};

use bed_lang::{Arg, Box, List, Name, Seq, Sort, Var, Word};
use std::alloc::{AllocError, Global};

/// What stands in place of variables, all at once. Of several values for one name the last counts. A
/// variable that stays stands there without its place.
#[derive(Clone, Copy)]
pub enum Reading<'a> {
    /// Each name that has a value gives way to it; every other variable stays.
    Names(&'a [(Name, Arg)]),
    /// The same, and `result` gives way to this word.
    Answer(&'a Word, &'a [(Name, Arg)]),
    /// Each name that has a value gives way to it; every other variable is 0 or the empty sequence.
    Alone(&'a [(Name, Arg)]),
    /// This variable gives way to the word; every other one stays.
    Word(&'a Var, &'a Word),
    /// This variable gives way to the sequence; every other one stays.
    Seq(&'a Var, &'a Seq),
}

fn has_sort(sort: Sort, arg: &Arg) -> bool
    ensures { result ≡ has_sort sort arg.now }
{
    match (sort, arg) {
        (Sort::Word, Arg::Seq(_, _)) => false,
        (Sort::Word, _) => true,
        (Sort::Seq, Arg::Seq(_, _)) => true,
        (Sort::Seq, _) => false,
    }
}

// The last value of this sort for a name.
fn value_for<'a>(sort: Sort, values: &'a [(Name, Arg)], x: &Name) -> Option<&'a Arg>
    ensures { option_copied result ≡ value_for sort values.now x.now.bytes }
{
    let mut rest = values;
    let mut found = None;
    while let [value, more @ ..] = rest {
        if value.0.same(x) && has_sort(sort, &value.1) {
            found = Some(&value.1);
        }
        rest = more;
    }
    found
}

fn word_in(alloc: Global, arg: &Arg) -> Result<Word, AllocError>
    ensures { IfOk result (λ r. r ≡ word_in arg.now) }
{
    match arg {
        Arg::Word(_, w) => w.copy(alloc),
        _ => Ok(Word::Number(0)),
    }
}

fn seq_in(alloc: Global, arg: &Arg) -> Result<Seq, AllocError>
    ensures { IfOk result (λ r. r ≡ seq_in arg.now) }
{
    match arg {
        Arg::Seq(_, s) => s.copy(alloc),
        _ => Ok(Seq::Nil),
    }
}

fn bare_name(alloc: Global, name: &Name) -> Result<Name, AllocError>
    ensures { IfOk result (λ r. r ≡ record { bytes = name.now.bytes; at = 0 }) }
{
    Ok(Name {
        bytes: List::from_slice(alloc, name.bytes.as_slice())?,
        at: 0,
    })
}

fn occurrence(alloc: Global, v: &Var) -> Result<Var, AllocError>
    ensures { IfOk result (λ r. r ≡ occurrence (variable v.now)) }
{
    match v {
        Var::Named(x) => Ok(Var::Named(bare_name(alloc, x)?)),
        Var::Old(x) => Ok(Var::Old(bare_name(alloc, x)?)),
        Var::Answer(_) => Ok(Var::Answer(0)),
        Var::Fresh(n) => Ok(Var::Fresh(*n)),
        Var::Hole => Ok(Var::Hole),
    }
}

fn word_instead(alloc: Global, values: &[(Name, Arg)], v: &Var) -> Result<Word, AllocError>
    ensures { IfOk result (λ r. r ≡ word_instead values.now (variable v.now)) }
{
    if let Var::Named(x) = v {
        if let Some(arg) = value_for(Sort::Word, values, x) {
            return word_in(alloc, arg);
        }
    }
    Ok(Word::Var(occurrence(alloc, v)?))
}

fn seq_instead(alloc: Global, values: &[(Name, Arg)], v: &Var) -> Result<Seq, AllocError>
    ensures { IfOk result (λ r. r ≡ seq_instead values.now (variable v.now)) }
{
    if let Var::Named(x) = v {
        if let Some(arg) = value_for(Sort::Seq, values, x) {
            return seq_in(alloc, arg);
        }
    }
    Ok(Seq::Var(occurrence(alloc, v)?))
}

fn word_or_0(alloc: Global, values: &[(Name, Arg)], v: &Var) -> Result<Word, AllocError>
    ensures { IfOk result (λ r. r ≡ word_or_0 values.now (variable v.now)) }
{
    if let Var::Named(x) = v {
        if let Some(arg) = value_for(Sort::Word, values, x) {
            return word_in(alloc, arg);
        }
    }
    Ok(Word::Number(0))
}

fn seq_or_nil(alloc: Global, values: &[(Name, Arg)], v: &Var) -> Result<Seq, AllocError>
    ensures { IfOk result (λ r. r ≡ seq_or_nil values.now (variable v.now)) }
{
    if let Var::Named(x) = v {
        if let Some(arg) = value_for(Sort::Seq, values, x) {
            return seq_in(alloc, arg);
        }
    }
    Ok(Seq::Nil)
}

fn same_word(alloc: Global, v: &Var) -> Result<Word, AllocError>
    ensures { IfOk result (λ r. r ≡ Word.Var (occurrence (variable v.now))) }
{
    Ok(Word::Var(occurrence(alloc, v)?))
}

fn same_seq(alloc: Global, v: &Var) -> Result<Seq, AllocError>
    ensures { IfOk result (λ r. r ≡ Seq.Var (occurrence (variable v.now))) }
{
    Ok(Seq::Var(occurrence(alloc, v)?))
}

#[tactic(auto, using(bed_lang::proofs::ValueLaws::same_var_is))]
fn word_set(alloc: Global, at: &Var, by: &Word, v: &Var) -> Result<Word, AllocError>
    ensures { IfOk result (λ r. r ≡ (word_set at.now by.now).words (variable v.now)) }
{
    if v.same(at) {
        by.copy(alloc)
    } else {
        same_word(alloc, v)
    }
}

#[tactic(auto, using(bed_lang::proofs::ValueLaws::same_var_is))]
fn seq_set(alloc: Global, at: &Var, by: &Seq, v: &Var) -> Result<Seq, AllocError>
    ensures { IfOk result (λ r. r ≡ (seq_set at.now by.now).seqs (variable v.now)) }
{
    if v.same(at) {
        by.copy(alloc)
    } else {
        same_seq(alloc, v)
    }
}

fn word_or_answer(
    alloc: Global,
    answer: &Word,
    values: &[(Name, Arg)],
    v: &Var,
) -> Result<Word, AllocError>
    ensures { IfOk result (λ r. r ≡ (with_answer answer.now (replacing values.now)).words (variable v.now)) }
{
    match v {
        Var::Answer(_) => answer.copy(alloc),
        _ => word_instead(alloc, values, v),
    }
}

// The word that stands for a variable.
fn word_for(alloc: Global, reading: &Reading, v: &Var) -> Result<Word, AllocError>
    ensures { IfOk result (λ r. r ≡ (instance_of reading.now).words (variable v.now)) }
{
    match reading {
        Reading::Names(values) => word_instead(alloc, values, v),
        Reading::Answer(answer, values) => word_or_answer(alloc, answer, values, v),
        Reading::Alone(values) => word_or_0(alloc, values, v),
        Reading::Word(at, by) => word_set(alloc, at, by, v),
        Reading::Seq(_, _) => same_word(alloc, v),
    }
}

// The sequence that stands for a variable.
fn seq_for(alloc: Global, reading: &Reading, v: &Var) -> Result<Seq, AllocError>
    ensures { IfOk result (λ r. r ≡ (instance_of reading.now).seqs (variable v.now)) }
{
    match reading {
        Reading::Names(values) => seq_instead(alloc, values, v),
        Reading::Answer(_, values) => seq_instead(alloc, values, v),
        Reading::Alone(values) => seq_or_nil(alloc, values, v),
        Reading::Word(_, _) => same_seq(alloc, v),
        Reading::Seq(at, by) => seq_set(alloc, at, by, v),
    }
}

/// The word with a term in place of each variable.
///
/// # Errors
/// `AllocError` for want of memory.
#[cycle(words)]
pub fn read_word(alloc: Global, reading: &Reading, w: &Word) -> Result<Word, AllocError>
    ensures { IfOk result (λ r. r ≡ word_with (instance_of reading.now) w.now) }
{
    match w {
        Word::Number(n) => Ok(Word::Number(*n)),
        Word::Var(v) => word_for(alloc, reading, v),
        Word::Label(name) => Ok(Word::Label(name.copy(alloc)?)),
        Word::Add(a, b) => {
            let a = read_part(alloc, reading, a)?;
            let b = read_part(alloc, reading, b)?;
            Ok(Word::Add(a, b))
        }
        Word::Sub(a, b) => {
            let a = read_part(alloc, reading, a)?;
            let b = read_part(alloc, reading, b)?;
            Ok(Word::Sub(a, b))
        }
        Word::Times(n, a) => Ok(Word::Times(*n, read_part(alloc, reading, a)?)),
    }
}

#[cycle(words)]
fn read_part(alloc: Global, reading: &Reading, w: &Box<Word>) -> Result<Box<Word>, AllocError>
    ensures { IfOk result (λ r. r ≡ word_with (instance_of reading.now) w.now) }
{
    Box::new(alloc, read_word(alloc, reading, w.get())?)
}

/// The sequence with a term in place of each variable.
///
/// # Errors
/// `AllocError` for want of memory.
#[cycle(seqs)]
pub fn read_seq(alloc: Global, reading: &Reading, s: &Seq) -> Result<Seq, AllocError>
    ensures { IfOk result (λ r. r ≡ seq_with (instance_of reading.now) s.now) }
{
    match s {
        Seq::Var(v) => seq_for(alloc, reading, v),
        Seq::Nil => Ok(Seq::Nil),
        Seq::Cons(a, s) => {
            let a = read_part(alloc, reading, a)?;
            let s = read_tail(alloc, reading, s)?;
            Ok(Seq::Cons(a, s))
        }
        Seq::App(s, t) => {
            let s = read_tail(alloc, reading, s)?;
            let t = read_tail(alloc, reading, t)?;
            Ok(Seq::App(s, t))
        }
    }
}

#[cycle(seqs)]
fn read_tail(alloc: Global, reading: &Reading, s: &Box<Seq>) -> Result<Box<Seq>, AllocError>
    ensures { IfOk result (λ r. r ≡ seq_with (instance_of reading.now) s.now) }
{
    Box::new(alloc, read_seq(alloc, reading, s.get())?)
}
