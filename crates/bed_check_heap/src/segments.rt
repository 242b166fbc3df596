//! The list segments that every module has: whether a predicate is theirs, places aside.
ghost use Rattle.std.specs.Option.{option_copied};
ghost use Rattle.std.specs.Prelude.{◌≡◌, ◌∷◌, [], bytes_eq, codes};
ghost use Rattle.std.specs.Cmp.Lexicographic.{pointwise};
ghost use Rattle.bed_lang.specs.declared.word.Word.{Number as number_word, Add as sum_of};
ghost use Rattle.bed_lang.specs.declared.word.Seq.{Nil as no_elements, Cons as elements_of};
ghost use Rattle.bed_lang.specs.declared.logic.Pure.TheVariants as pure;
ghost use Rattle.bed_lang.specs.declared.logic.Atom.TheVariants as atom;
ghost use Rattle.bed_lang.specs.declared.logic.Term.TheVariants as term;
ghost use Rattle.bed_lang.specs.Same.{same_word, same_seq, same_arg, same_pure, same_atom, same_term, same_bind, same_assertion, same_predicate};
ghost use Rattle.bed_lang.specs.Prelude.{word as word_of, sequence as sequence_of, bind as bind_of, segment as segment_of, empty_segment as the_empty_segment, longer_segment as the_longer_segment, lseg as the_lseg};
ghost use Rattle.bed_lang.specs.Lookups.{predicate_named};
ghost use Rattle.bed_deriv.specs.HeapRules.{is_lseg, has_segments};

use bed_lang::{
    Arg, Assertion, Atom, Bind, Decls, Name, Predicate, Pure, Seq, Sort, Term, Var, Word,
};

/// Whether a name is this text.
pub(crate) fn is_name(name: &Name, text: &[u8]) -> bool
    ensures { result ≡ bytes_eq name.now.bytes text.now }
{
    name.bytes.as_slice() == text
}

fn is_word(w: &Word, text: &[u8]) -> bool
    ensures { result ≡ same_word w.now (word_of text.now) }
{
    match w {
        Word::Var(Var::Named(x)) => is_name(x, text),
        _ => false,
    }
}

fn is_number(w: &Word, number: u32) -> bool
    ensures { result ≡ same_word w.now (number_word number) }
{
    match w {
        Word::Number(n) => *n == number,
        _ => false,
    }
}

// p + 4
fn is_next_place(w: &Word) -> bool
    ensures { result ≡ same_word w.now (sum_of (word_of (codes "p")) (number_word 4)) }
{
    match w {
        Word::Add(a, b) => is_word(a.get(), b"p") && is_number(b.get(), 4),
        _ => false,
    }
}

fn is_sequence(s: &Seq, text: &[u8]) -> bool
    ensures { result ≡ same_seq s.now (sequence_of text.now) }
{
    match s {
        Seq::Var(Var::Named(x)) => is_name(x, text),
        _ => false,
    }
}

fn is_nil(s: &Seq) -> bool
    ensures { result ≡ same_seq s.now no_elements }
{
    match s {
        Seq::Nil => true,
        _ => false,
    }
}

// cons(v, t)
fn is_longer(s: &Seq) -> bool
    ensures { result ≡ same_seq s.now (elements_of (word_of (codes "v")) (sequence_of (codes "t"))) }
{
    match s {
        Seq::Cons(a, t) => is_word(a.get(), b"v") && is_sequence(t.get(), b"t"),
        _ => false,
    }
}

// [p = q]
fn says_empty(t: &Term) -> bool
    ensures { result ≡ same_term t.now (term.Pure (pure.Equal (word_of (codes "p")) (word_of (codes "q")))) }
{
    match t {
        Term::Pure(Pure::Equal(a, b)) => is_word(a, b"p") && is_word(b, b"q"),
        _ => false,
    }
}

// [s == nil]
fn says_none(t: &Term) -> bool
    ensures { result ≡ same_term t.now (term.Pure (pure.Same (sequence_of (codes "s")) no_elements)) }
{
    match t {
        Term::Pure(Pure::Same(s, u)) => is_sequence(s, b"s") && is_nil(u),
        _ => false,
    }
}

// [p != 0]
fn says_node(t: &Term) -> bool
    ensures { result ≡ same_term t.now (term.Pure (pure.Unequal (word_of (codes "p")) (number_word 0))) }
{
    match t {
        Term::Pure(Pure::Unequal(a, b)) => is_word(a, b"p") && is_number(b, 0),
        _ => false,
    }
}

// [s == cons(v, t)]
fn says_longer(t: &Term) -> bool
    ensures { result ≡ same_term t.now (term.Pure (pure.Same (sequence_of (codes "s")) (elements_of (word_of (codes "v")) (sequence_of (codes "t"))))) }
{
    match t {
        Term::Pure(Pure::Same(s, u)) => is_sequence(s, b"s") && is_longer(u),
        _ => false,
    }
}

// p |-> v
fn is_value_cell(t: &Term) -> bool
    ensures { result ≡ same_term t.now (term.Atom (atom.Cell (word_of (codes "p")) (word_of (codes "v")))) }
{
    match t {
        Term::Atom(Atom::Cell(a, b)) => is_word(a, b"p") && is_word(b, b"v"),
        _ => false,
    }
}

// p + 4 |-> n
fn is_next_cell(t: &Term) -> bool
    ensures { result ≡ same_term t.now (term.Atom (atom.Cell (sum_of (word_of (codes "p")) (number_word 4)) (word_of (codes "n")))) }
{
    match t {
        Term::Atom(Atom::Cell(a, b)) => is_next_place(a) && is_word(b, b"n"),
        _ => false,
    }
}

fn is_word_arg(a: &Arg, text: &[u8]) -> bool
    ensures { result ≡ same_arg a.now (Arg.Word 0 (word_of text.now)) }
{
    match a {
        Arg::Word(_, w) => is_word(w, text),
        _ => false,
    }
}

fn is_seq_arg(a: &Arg, text: &[u8]) -> bool
    ensures { result ≡ same_arg a.now (Arg.Seq 0 (sequence_of text.now)) }
{
    match a {
        Arg::Seq(_, s) => is_sequence(s, text),
        _ => false,
    }
}

// n, q, t
fn are_rest_args(args: &[Arg]) -> bool
    ensures { result ≡ pointwise same_arg args.now (Arg.Word 0 (word_of (codes "n")) ∷ Arg.Word 0 (word_of (codes "q")) ∷ Arg.Seq 0 (sequence_of (codes "t")) ∷ []) }
{
    match args {
        [n, q, t] => is_word_arg(n, b"n") && is_word_arg(q, b"q") && is_seq_arg(t, b"t"),
        _ => false,
    }
}

// lseg(n, q, t)
fn is_rest_segment(t: &Term) -> bool
    ensures { result ≡ same_term t.now (segment_of (word_of (codes "n")) (word_of (codes "q")) (sequence_of (codes "t"))) }
{
    match t {
        Term::Atom(Atom::Pred(name, args)) => {
            is_name(name, b"lseg") && are_rest_args(args.as_slice())
        }
        _ => false,
    }
}

fn are_empty_terms(terms: &[Term]) -> bool
    ensures { result ≡ pointwise same_term terms.now the_empty_segment.terms }
{
    match terms {
        [a, b] => says_empty(a) && says_none(b),
        _ => false,
    }
}

fn are_longer_terms(terms: &[Term]) -> bool
    ensures { result ≡ pointwise same_term terms.now the_longer_segment.terms }
{
    match terms {
        [a, b, c, d, e] => says_node(a)
            && says_longer(b)
            && is_value_cell(c)
            && is_next_cell(d)
            && is_rest_segment(e),
        _ => false,
    }
}

fn is_bind(b: &Bind, text: &[u8], sort: Sort) -> bool
    ensures { result ≡ same_bind b.now (bind_of text.now sort) }
{
    is_name(&b.name, text) && b.sort.same(&sort)
}

fn are_longer_binders(binders: &[Bind]) -> bool
    ensures { result ≡ pointwise same_bind binders.now the_longer_segment.binders }
{
    match binders {
        [v, n, t] => is_bind(v, b"v", Sort::Word)
            && is_bind(n, b"n", Sort::Word)
            && is_bind(t, b"t", Sort::Seq),
        _ => false,
    }
}

fn are_params(params: &[Bind]) -> bool
    ensures { result ≡ pointwise same_bind params.now the_lseg.params }
{
    match params {
        [p, q, s] => is_bind(p, b"p", Sort::Word)
            && is_bind(q, b"q", Sort::Word)
            && is_bind(s, b"s", Sort::Seq),
        _ => false,
    }
}

fn has_no_binders(binders: &[Bind]) -> bool
    ensures { result ≡ pointwise same_bind binders.now [] }
{
    match binders {
        [] => true,
        [_, ..] => false,
    }
}

fn is_empty_case(case: &Assertion) -> bool
    ensures { result ≡ same_assertion case.now the_empty_segment }
{
    has_no_binders(case.binders.as_slice()) && are_empty_terms(case.terms.as_slice())
}

fn is_longer_case(case: &Assertion) -> bool
    ensures { result ≡ same_assertion case.now the_longer_segment }
{
    are_longer_binders(case.binders.as_slice()) && are_longer_terms(case.terms.as_slice())
}

fn are_cases(cases: &[Assertion]) -> bool
    ensures { result ≡ pointwise same_assertion cases.now the_lseg.cases }
{
    match cases {
        [a, b] => is_empty_case(a) && is_longer_case(b),
        _ => false,
    }
}

fn is_segments(predicate: &Predicate) -> bool
    ensures { result ≡ same_predicate predicate.now the_lseg }
{
    is_name(&predicate.name, b"lseg")
        && are_params(predicate.params.as_slice())
        && are_cases(predicate.cases.as_slice())
}

fn segments_predicate(decls: &Decls) -> Option<&Predicate>
    ensures { option_copied result ≡ predicate_named decls.now the_lseg.name.bytes }
{
    decls
        .predicates
        .as_slice()
        .iter()
        .find(|p| is_name(&p.name, b"lseg"))
}

fn is_lseg(found: Option<&Predicate>) -> bool
    ensures { result ≡ is_lseg (option_copied found.entry) }
{
    match found {
        None => false,
        Some(predicate) => is_segments(predicate),
    }
}

/// Whether the first declared predicate named `lseg` is the one that every module has.
pub(crate) fn has_segments(decls: &Decls) -> bool
    ensures { result ≡ has_segments decls.now }
{
    is_lseg(segments_predicate(decls))
}
