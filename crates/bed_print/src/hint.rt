//! Hints.
ghost use Rattle.std.specs.Prelude.{◌≡◌, ◌≤◌, ◌++◌, ◌∷◌, OnOk};
ghost use Rattle.bed_print.specs.Kinds.{fixed, word_kinds, at_kinds, hint_kinds, using_kinds};
ghost use Rattle.bed_read.specs.Classes.{COMMA};

use crate::class::{
    APPEND, AT, BYTES, CASE, CELL, CLAIM, COMMA, DIVIDE, DROP, EQUAL, FOLD, GIVE, LEFT_PAREN,
    MERGE, RIGHT_PAREN, UNCELL, UNFOLD, USING, WHEN, WORD,
};
use crate::leaf::{push_fixed, push_name, push_number};
use crate::list::{Printed, push_parted};
use crate::logic::push_pure;
use crate::word::push_word;
use bed_lang::{Arg, Hint, List, Name, Word};
use bed_lex::Kind;
use std::alloc::{AllocError, Global};

/// Appends a fixed word and a word.
fn push_one(alloc: Global, class: u8, word: &Word, out: &mut List<Kind>) -> Result<(), AllocError>
    requires { 3 ≤ class }
    ensures { OnOk result (out.new ≡ out.old ++ fixed class ∷ word_kinds word.now) }
{
    push_fixed(class, out)?;
    push_word(alloc, word, out)
}

/// Appends a fixed word and two words.
fn push_two(
    alloc: Global,
    class: u8,
    first: &Word,
    second: &Word,
    out: &mut List<Kind>,
) -> Result<(), AllocError>
    requires { 3 ≤ class }
    ensures { OnOk result (out.new ≡ out.old ++ fixed class ∷ (word_kinds first.now ++ fixed COMMA ∷ word_kinds second.now)) }
{
    push_fixed(class, out)?;
    push_word(alloc, first, out)?;
    push_fixed(COMMA, out)?;
    push_word(alloc, second, out)
}

/// Appends where an `unfold` is made, where it is said.
fn push_at(alloc: Global, place: &Option<Word>, out: &mut List<Kind>) -> Result<(), AllocError>
    ensures { OnOk result (out.new ≡ out.old ++ at_kinds place.now) }
{
    match place {
        None => Ok(()),
        Some(word) => push_one(alloc, AT, word, out),
    }
}

fn push_fold(
    alloc: Global,
    name: &Name,
    args: &List<Arg>,
    case: u32,
    out: &mut List<Kind>,
) -> Result<(), AllocError>
    ensures { OnOk result (out.new ≡ out.old ++ hint_kinds (Hint.Fold name.now args.now case)) }
{
    push_fixed(FOLD, out)?;
    push_name(alloc, name, out)?;
    push_fixed(LEFT_PAREN, out)?;
    push_parted(alloc, COMMA, args.as_slice(), out)?;
    push_fixed(RIGHT_PAREN, out)?;
    push_fixed(CASE, out)?;
    push_number(case, out)
}

impl Printed for Hint {
    ghost kinds = { hint_kinds };

    fn print(&self, alloc: Global, out: &mut List<Kind>) -> Result<(), AllocError> {
        match self {
            Hint::Unfold(name, place) => {
                push_fixed(UNFOLD, out)?;
                push_name(alloc, name, out)?;
                push_at(alloc, place, out)
            }
            Hint::Fold(name, args, case) => push_fold(alloc, name, args, *case, out),
            Hint::Append(word) => push_one(alloc, APPEND, word, out),
            Hint::Divide(first, second) => push_two(alloc, DIVIDE, first, second, out),
            Hint::Merge(first, second) => push_two(alloc, MERGE, first, second, out),
            Hint::Bytes(word) => push_one(alloc, BYTES, word, out),
            Hint::Word(word) => push_one(alloc, WORD, word, out),
            Hint::Cell(word) => push_one(alloc, CELL, word, out),
            Hint::Uncell(word) => push_one(alloc, UNCELL, word, out),
            Hint::Drop(word) => push_one(alloc, DROP, word, out),
            Hint::Claim(fact) => {
                push_fixed(CLAIM, out)?;
                push_pure(alloc, fact, out)
            }
            Hint::When(fact) => {
                push_fixed(WHEN, out)?;
                push_pure(alloc, fact, out)
            }
            Hint::Give(name, arg) => {
                push_fixed(GIVE, out)?;
                push_name(alloc, name, out)?;
                push_fixed(EQUAL, out)?;
                arg.print(alloc, out)
            }
        }
    }
}

/// Appends the hints of a call, where there are some.
pub(crate) fn push_using(
    alloc: Global,
    hints: &[Hint],
    out: &mut List<Kind>,
) -> Result<(), AllocError>
    ensures { OnOk result (out.new ≡ out.old ++ using_kinds hints.now) }
{
    match hints {
        [] => Ok(()),
        [_, ..] => {
            push_fixed(USING, out)?;
            push_parted(alloc, COMMA, hints, out)
        }
    }
}
