//! The nodes of a graph: one word for each form.
ghost use Rattle.std.specs.Prelude.{◌≡◌, ◌∷◌, ◌++◌, [], map, length, ◌≤◌, IfOk, OnOk};
ghost use Rattle.bed_lang.specs.Forms.{word_form};
ghost use Rattle.bed_deriv.specs.Chains.{one_more, one_less};
ghost use Rattle.bed_plain.specs.Chained.{has_form};
ghost use Rattle.bed_chain.specs.Graph.{words_of, all_words, goal_words, with_node, with_nodes, nodes_of, place_of};
ghost use Rattle.bed_chain.specs.Tables.{IsTable};

use bed_forms::word_form;
use bed_lang::{Box, Form, List, Pure, Word};
use std::alloc::{AllocError, Global};

/// Words with different forms, and their forms.
#[derive(Drop)]
pub(crate) struct Table {
    pub words: List<Word>,
    pub forms: List<Form>,
}

/// Whether a form is among these.
pub(crate) fn has_form(form: &Form, forms: &[Form]) -> bool
    ensures { result ≡ has_form form.now forms.now }
{
    let mut rest = forms;
    while let [other, more @ ..] = rest {
        if form.same(other) {
            return true;
        }
        rest = more;
    }
    false
}

/// The place of a form among these, or their number.
pub(crate) fn place_of(form: &Form, forms: &[Form]) -> usize
    ensures place { result ≡ place_of form.now forms.now }
    ensures within { result ≤ length forms.now }
{
    let mut rest = forms;
    let mut place = 0usize;
    while let [other, more @ ..] = rest {
        if form.same(other) {
            return place;
        }
        place += 1;
        rest = more;
    }
    place
}

// Puts a word behind the others, with its form.
fn push(alloc: Global, table: &mut Table, w: &Word, form: Form) -> Result<(), AllocError>
    ensures words { OnOk result (table.new.words ≡ table.old.words ++ w.now ∷ []) }
    ensures forms { OnOk result (table.new.forms ≡ table.old.forms ++ form ∷ []) }
{
    table.forms.push(form)?;
    let w = w.copy(alloc)?;
    table.words.push(w)
}

// Puts a word behind the others, if none of them has its form.
fn push_word(alloc: Global, table: &mut Table, w: &Word) -> Result<(), AllocError>
    requires table { IsTable table.old }
    ensures table { OnOk result (IsTable table.new) }
    ensures words { OnOk result (table.new.words ≡ with_node w.now table.old.words) }
{
    let form = word_form(alloc, w)?;
    if has_form(&form, table.forms.as_slice()) {
        return Ok(());
    }
    push(alloc, table, w, form)
}

fn push_two(alloc: Global, table: &mut Table, a: &Word, b: &Word) -> Result<(), AllocError>
    requires table { IsTable table.old }
    ensures table { OnOk result (IsTable table.new) }
    ensures words { OnOk result (table.new.words ≡ with_nodes (a.now ∷ b.now ∷ []) table.old.words) }
{
    push_word(alloc, table, b)?;
    push_word(alloc, table, a)
}

fn boxed(alloc: Global, a: &Word) -> Result<Box<Word>, AllocError>
    ensures { IfOk result (λ r. r ≡ a.now) }
{
    Box::new(alloc, a.copy(alloc)?)
}

/// The word after another, and the word before one.
pub(crate) fn one_more(alloc: Global, a: &Word) -> Result<Word, AllocError>
    ensures { IfOk result (λ r. r ≡ one_more a.now) }
{
    let a = boxed(alloc, a)?;
    let one = Box::new(alloc, Word::Number(1))?;
    Ok(Word::Add(a, one))
}

pub(crate) fn one_less(alloc: Global, b: &Word) -> Result<Word, AllocError>
    ensures { IfOk result (λ r. r ≡ one_less b.now) }
{
    let b = boxed(alloc, b)?;
    let one = Box::new(alloc, Word::Number(1))?;
    Ok(Word::Sub(b, one))
}

fn push_beside(alloc: Global, table: &mut Table, a: &Word, b: &Word) -> Result<(), AllocError>
    requires table { IsTable table.old }
    ensures table { OnOk result (IsTable table.new) }
    ensures words { OnOk result (table.new.words ≡ with_nodes (one_more a.now ∷ one_less b.now ∷ []) table.old.words) }
{
    let less = one_less(alloc, b)?;
    push_word(alloc, table, &less)?;
    let more = one_more(alloc, a)?;
    push_word(alloc, table, &more)
}

fn push_fact(alloc: Global, table: &mut Table, p: &Pure) -> Result<(), AllocError>
    requires table { IsTable table.old }
    ensures table { OnOk result (IsTable table.new) }
    ensures words { OnOk result (table.new.words ≡ with_nodes (words_of p.now) table.old.words) }
{
    match p {
        Pure::Less(a, b) => {
            push_beside(alloc, table, a, b)?;
            push_two(alloc, table, a, b)
        }
        Pure::Equal(a, b) => push_two(alloc, table, a, b),
        Pure::Unequal(a, b) => push_two(alloc, table, a, b),
        Pure::AtMost(a, b) => push_two(alloc, table, a, b),
        _ => Ok(()),
    }
}

/// The nodes of the words of facts.
///
/// # Errors
/// `AllocError` for want of memory.
pub(crate) fn table_of(alloc: Global, facts: &[Pure]) -> Result<Table, AllocError>
    ensures table { IfOk result IsTable }
    ensures words { IfOk result (λ r. r.words ≡ nodes_of (all_words facts.now)) }
{
    let mut table = Table {
        words: List::new(alloc),
        forms: List::new(alloc),
    };
    push_two(
        alloc,
        &mut table,
        &Word::Number(0),
        &Word::Number(4_294_967_295),
    )?;
    let mut left = facts.len();
    while left > 0 {
        left -= 1;
        push_fact(alloc, &mut table, &facts[left])?;
    }
    Ok(table)
}

/// The nodes of two words and of facts.
///
/// # Errors
/// `AllocError` for want of memory.
pub(crate) fn goal_table(
    alloc: Global,
    a: &Word,
    b: &Word,
    facts: &[Pure],
) -> Result<Table, AllocError>
    ensures table { IfOk result IsTable }
    ensures words { IfOk result (λ r. r.words ≡ nodes_of (goal_words a.now b.now facts.now)) }
{
    let mut table = table_of(alloc, facts)?;
    push_two(alloc, &mut table, a, b)?;
    Ok(table)
}
