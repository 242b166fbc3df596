//! Sequences.
ghost use Rattle.std.specs.Prelude.{◌≡◌, ◌++◌, OnOk};
ghost use Rattle.bed_print.specs.Kinds.{seq_kinds};

use crate::class::{APP, COMMA, CONS, LEFT_PAREN, NIL, RIGHT_PAREN};
use crate::leaf::{push_fixed, push_var};
use crate::word::push_word;
use bed_lang::{List, Seq};
use bed_lex::Kind;
use std::alloc::{AllocError, Global};

/// Appends a sequence.
pub(crate) fn push_seq(alloc: Global, seq: &Seq, out: &mut List<Kind>) -> Result<(), AllocError>
    ensures { OnOk result (out.new ≡ out.old ++ seq_kinds seq.now) }
{
    match seq {
        Seq::Var(var) => push_var(alloc, var, out),
        Seq::Nil => push_fixed(NIL, out),
        Seq::Cons(word, seq) => {
            push_fixed(CONS, out)?;
            push_fixed(LEFT_PAREN, out)?;
            push_word(alloc, word.get(), out)?;
            push_fixed(COMMA, out)?;
            push_seq(alloc, seq.get(), out)?;
            push_fixed(RIGHT_PAREN, out)
        }
        Seq::App(first, second) => {
            push_fixed(APP, out)?;
            push_fixed(LEFT_PAREN, out)?;
            push_seq(alloc, first.get(), out)?;
            push_fixed(COMMA, out)?;
            push_seq(alloc, second.get(), out)?;
            push_fixed(RIGHT_PAREN, out)
        }
    }
}
