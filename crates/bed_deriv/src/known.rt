//! Fresh variables with a number below the next one.
ghost use Rattle.std.specs.Prelude.{◌≡◌};
ghost use Rattle.bed_deriv.specs.Fresh.{known_var, known_word, known_seq, known_pure};

use bed_lang::{Pure, Seq, Var, Word};

/// Whether the variable is no fresh one, or one with a number below `next`.
pub fn known_var(next: u32, v: &Var) -> bool
    ensures { result ≡ known_var next v.now }
{
    match v {
        Var::Fresh(number) => *number < next,
        _ => true,
    }
}

/// Whether each fresh variable of the word has a number below `next`.
pub fn known_word(next: u32, w: &Word) -> bool
    ensures { result ≡ known_word next w.now }
{
    match w {
        Word::Number(_) => true,
        Word::Var(v) => known_var(next, v),
        Word::Label(_) => true,
        Word::Add(a, b) => known_word(next, a.get()) && known_word(next, b.get()),
        Word::Sub(a, b) => known_word(next, a.get()) && known_word(next, b.get()),
        Word::Times(_, a) => known_word(next, a.get()),
    }
}

/// Whether each fresh variable of the sequence has a number below `next`.
pub fn known_seq(next: u32, s: &Seq) -> bool
    ensures { result ≡ known_seq next s.now }
{
    match s {
        Seq::Var(v) => known_var(next, v),
        Seq::Nil => true,
        Seq::Cons(a, t) => known_word(next, a.get()) && known_seq(next, t.get()),
        Seq::App(t, u) => known_seq(next, t.get()) && known_seq(next, u.get()),
    }
}

/// Whether each fresh variable of the fact has a number below `next`.
pub fn known_fact(next: u32, p: &Pure) -> bool
    ensures { result ≡ known_pure next p.now }
{
    match p {
        Pure::Equal(a, b) => known_word(next, a) && known_word(next, b),
        Pure::Unequal(a, b) => known_word(next, a) && known_word(next, b),
        Pure::Less(a, b) => known_word(next, a) && known_word(next, b),
        Pure::AtMost(a, b) => known_word(next, a) && known_word(next, b),
        Pure::Same(s, t) => known_seq(next, s) && known_seq(next, t),
        Pure::Member(a, s) => known_word(next, a) && known_seq(next, s),
        Pure::NonMember(a, s) => known_word(next, a) && known_seq(next, s),
        Pure::Code(a, _) => known_word(next, a),
    }
}
