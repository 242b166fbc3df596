//! The rule on chains of comparisons.
ghost use Rattle.std.specs.Option.{option_copied};
ghost use Rattle.std.specs.Prelude.{◌≡◌, IfOk, Ok};
ghost use Rattle.bed_lang.specs.Forms.{word_form};
ghost use Rattle.bed_deriv.specs.Checks.{first_failure};
ghost use Rattle.bed_deriv.specs.Chains.{chain, has_fact, known_edge, known_edges, left_word, proves, closes};
ghost use Rattle.bed_check_pure.specs.Faults.{AnswersRule};
ghost use Rattle.bed_check_pure.specs.Legs.{moved, one_edge, all_edges, form_or, edge_start, first_node, chain_end, chain_from, whole_chain};

use crate::fault::Fault;
use crate::legs::{Ends, Reached, edge_ends, fact_start};
use bed_deriv::arguments::numbered;
use bed_deriv::known::known_word;
use bed_deriv::{DArg, Edge, Sequent, SymState};
use bed_forms::word_form;
use bed_lang::{Form, List, Pure, Word};
use std::alloc::{AllocError, Global};

fn has_fact(s: &SymState, i: u32) -> bool
    ensures { result ≡ has_fact s.now i }
{
    numbered(s.facts.as_slice(), i).is_some()
}

fn known_edge(s: &SymState, e: &Edge) -> bool
    ensures { result ≡ known_edge s.now e.now }
{
    match e {
        Edge::F(i) => has_fact(s, *i),
        Edge::G(i) => has_fact(s, *i),
        Edge::X(i) => has_fact(s, *i),
        Edge::Y(i) => has_fact(s, *i),
        Edge::P(i) => has_fact(s, *i),
        Edge::Q(i) => has_fact(s, *i),
        Edge::R(i) => has_fact(s, *i),
        Edge::S(i) => has_fact(s, *i),
        Edge::K(_) => true,
        Edge::Z(w) => known_word(s.next, w),
        Edge::H => true,
    }
}

// Whether every argument is an edge with a fact, and a word, that the state has.
fn known_edges(s: &SymState, args: &[DArg]) -> bool
    ensures { result ≡ known_edges s.now args.now }
{
    let mut rest = args;
    while let [arg, more @ ..] = rest {
        match arg {
            DArg::Edge(e) => {
                if !known_edge(s, e) {
                    return false;
                }
            }
            _ => return false,
        }
        rest = more;
    }
    true
}

// The node at the end of an edge from this one, with both sums.
fn moved(node: &Form, ends: Ends, up: u64, down: u64) -> Result<Reached, Fault>
    ensures { AnswersRule result (moved node.now up down ends) }
{
    let Ends {
        from,
        to,
        up: rise,
        down: fall,
    } = ends;
    if !from.same(node) {
        return Err(Fault::Condition);
    }
    let Some(up) = up.checked_add(u64::from(rise)) else {
        return Err(Fault::Memory);
    };
    let Some(down) = down.checked_add(u64::from(fall)) else {
        return Err(Fault::Memory);
    };
    Ok(Reached { node: to, up, down })
}

// The node behind an argument of the chain.
fn one_edge(alloc: Global, s: &SymState, arg: &DArg, at: Reached) -> Result<Reached, Fault>
    ensures { AnswersRule result (one_edge s.now arg.now at.node at.up at.down) }
{
    match arg {
        DArg::Edge(e) => match edge_ends(alloc, s, &at.node, e) {
            Err(fault) => Err(fault),
            Ok(ends) => moved(&at.node, ends, at.up, at.down),
        },
        _ => Err(Fault::Argument),
    }
}

// The last node of a chain, with both sums.
fn all_edges(alloc: Global, s: &SymState, args: &[DArg], first: Form) -> Result<Reached, Fault>
    ensures { AnswersRule result (all_edges s.now args.now first 0 0) }
{
    let mut at = Reached {
        node: first,
        up: 0,
        down: 0,
    };
    let mut rest = args;
    while let [arg, more @ ..] = rest {
        at = one_edge(alloc, s, arg, at)?;
        rest = more;
    }
    Ok(at)
}

fn left_word(g: &Pure) -> Option<&Word>
    ensures { option_copied result ≡ left_word g.now }
{
    match g {
        Pure::Equal(a, _) => Some(a),
        Pure::Unequal(a, _) => Some(a),
        Pure::Less(a, _) => Some(a),
        Pure::AtMost(a, _) => Some(a),
        Pure::Same(_, _) => None,
        Pure::Member(a, _) => Some(a),
        Pure::NonMember(a, _) => Some(a),
        Pure::Code(_, _) => None,
    }
}

fn left_form(alloc: Global, g: &Pure) -> Result<Form, Fault>
    ensures { AnswersRule result (form_or (left_word g.now)) }
{
    match left_word(g) {
        None => Err(Fault::Condition),
        Some(a) => match word_form(alloc, a) {
            Ok(form) => Ok(form),
            Err(_) => Err(Fault::Memory),
        },
    }
}

fn zero_form(alloc: Global) -> Result<Form, Fault>
    ensures { AnswersRule result (Ok (word_form (Word.Number 0))) }
{
    match word_form(alloc, &Word::Number(0)) {
        Ok(form) => Ok(form),
        Err(_) => Err(Fault::Memory),
    }
}

fn edge_start(alloc: Global, s: &SymState, g: &Pure, e: &Edge) -> Result<Form, Fault>
    ensures { AnswersRule result (edge_start s.now g.now e.now) }
{
    match e {
        Edge::F(i) => fact_start(alloc, s, *i, e),
        Edge::G(i) => fact_start(alloc, s, *i, e),
        Edge::X(i) => fact_start(alloc, s, *i, e),
        Edge::Y(i) => fact_start(alloc, s, *i, e),
        Edge::P(i) => fact_start(alloc, s, *i, e),
        Edge::Q(i) => fact_start(alloc, s, *i, e),
        Edge::R(i) => fact_start(alloc, s, *i, e),
        Edge::S(i) => fact_start(alloc, s, *i, e),
        Edge::K(_) => left_form(alloc, g),
        Edge::Z(_) => zero_form(alloc),
        Edge::H => left_form(alloc, g),
    }
}

// Where a chain starts.
fn first_node(alloc: Global, s: &SymState, g: &Pure, args: &[DArg]) -> Result<Form, Fault>
    ensures { AnswersRule result (first_node s.now g.now args.now) }
{
    match args {
        [] => left_form(alloc, g),
        [arg, ..] => match arg {
            DArg::Edge(e) => edge_start(alloc, s, g, e),
            _ => Err(Fault::Argument),
        },
    }
}

fn at_most_ends(
    alloc: Global,
    a: &Word,
    b: &Word,
    first: &Form,
    last: &Reached,
) -> Result<bool, AllocError>
    ensures { IfOk result (λ r. r ≡ proves (Pure.AtMost a.now b.now) first.now last.now.node last.now.up last.now.down) }
{
    let f = word_form(alloc, a)?;
    let g = word_form(alloc, b)?;
    Ok(first.same(&f) && last.node.same(&g) && last.up <= last.down)
}

fn less_ends(
    alloc: Global,
    a: &Word,
    b: &Word,
    first: &Form,
    last: &Reached,
) -> Result<bool, AllocError>
    ensures { IfOk result (λ r. r ≡ proves (Pure.Less a.now b.now) first.now last.now.node last.now.up last.now.down) }
{
    let f = word_form(alloc, a)?;
    let g = word_form(alloc, b)?;
    Ok(first.same(&f) && last.node.same(&g) && last.up < last.down)
}

fn proves(alloc: Global, goal: &Pure, first: &Form, last: &Reached) -> Result<bool, AllocError>
    ensures { IfOk result (λ r. r ≡ proves goal.now first.now last.now.node last.now.up last.now.down) }
{
    match goal {
        Pure::AtMost(a, b) => at_most_ends(alloc, a, b, first, last),
        Pure::Less(a, b) => less_ends(alloc, a, b, first, last),
        _ => Ok(false),
    }
}

// Whether the chain goes along the goal, or ends where it starts with a negative total.
fn closes(alloc: Global, goal: &Pure, first: &Form, last: &Reached) -> Result<bool, AllocError>
    ensures { IfOk result (λ r. r ≡ closes goal.now first.now last.now.node last.now.up last.now.down) }
{
    let direct = proves(alloc, goal, first, last)?;
    Ok(direct || (first.same(&last.node) && last.up < last.down))
}

fn chain_end(
    alloc: Global,
    goal: &Pure,
    first: &Form,
    last: &Reached,
) -> Result<List<Sequent>, Fault>
    ensures { AnswersRule result (chain_end goal.now first.now last.now) }
{
    match closes(alloc, goal, first, last) {
        Err(_) => Err(Fault::Memory),
        Ok(true) => Ok(List::new(alloc)),
        Ok(false) => Err(Fault::Condition),
    }
}

fn kept_first(alloc: Global, first: &Form) -> Result<Form, Fault>
    ensures { AnswersRule result (Ok first.now) }
{
    match first.copy(alloc) {
        Ok(form) => Ok(form),
        Err(_) => Err(Fault::Memory),
    }
}

fn walked(alloc: Global, s: &SymState, args: &[DArg], first: &Form) -> Result<Reached, Fault>
    ensures { AnswersRule result (all_edges s.now args.now first.now 0 0) }
{
    match kept_first(alloc, first) {
        Err(fault) => Err(fault),
        Ok(node) => all_edges(alloc, s, args, node),
    }
}

fn chain_from(
    alloc: Global,
    s: &SymState,
    goal: &Pure,
    args: &[DArg],
    first: &Form,
) -> Result<List<Sequent>, Fault>
    ensures { AnswersRule result (chain_from s.now goal.now args.now first.now) }
{
    match walked(alloc, s, args, first) {
        Err(fault) => Err(fault),
        Ok(last) => chain_end(alloc, goal, first, &last),
    }
}

fn whole_chain(
    alloc: Global,
    s: &SymState,
    goal: &Pure,
    args: &[DArg],
) -> Result<List<Sequent>, Fault>
    ensures { AnswersRule result (whole_chain s.now goal.now args.now) }
{
    match first_node(alloc, s, goal, args) {
        Err(fault) => Err(fault),
        Ok(first) => chain_from(alloc, s, goal, args, &first),
    }
}

/// `chain[edges]`: the edges go from one side of the goal to the other, or round with a negative total.
#[tactic(auto, using(crate::proofs::LegLaws::chain_is))]
pub(crate) fn chain(
    alloc: Global,
    s: &SymState,
    goal: Option<&Pure>,
    args: &[DArg],
    n: usize,
) -> Result<List<Sequent>, Fault>
    ensures { AnswersRule result (first_failure (chain s.now (option_copied goal.entry) args.now n)) }
{
    if n != 0 {
        return Err(Fault::Count);
    }
    if !known_edges(s, args) {
        return Err(Fault::Argument);
    }
    match goal {
        None => Err(Fault::Condition),
        Some(g) => whole_chain(alloc, s, g, args),
    }
}
