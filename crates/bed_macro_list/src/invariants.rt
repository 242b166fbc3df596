//! The invariant of a loop over a list.

ghost use Rattle.std.specs.Prelude.{◌≡◌, ◌∷◌, ◌++◌, [], List, Option, Some, None, IfOk, OnOk};
ghost use Rattle.bed_table.specs.ListLoops.{list_invariant, parted as parted_term, not_yet as not_yet_terms, word_named as word_of_name, seq_named as seq_of_name};
ghost use Rattle.bed_lang.specs.Prelude.{segment as segment_of};
ghost use Rattle.std.specs.Option.{option_copied};
ghost use Rattle.bed_macro_list.specs.Facts.{facts_if};

use crate::terms::{not_yet, parted, segment, word_named};
use bed_lang::{Assertion, Bind, List, Name, Operand, Seq, Sort, Term, Tree, Word};
use std::alloc::{AllocError, Global};

// Appends what binds a sequence.
fn push_binder(alloc: Global, name: &Name, out: &mut List<Bind>) -> Result<(), AllocError>
    ensures { OnOk result (out.new ≡ out.old ++ record { name = name.now; sort = Sort.Seq } ∷ []) }
{
    let name = name.copy(alloc)?;
    out.push(Bind {
        name,
        sort: Sort::Seq,
    })
}

// The binders of the invariant.
fn binders(
    alloc: Global,
    seen: &Name,
    rest: &Name,
    keep: &Assertion,
) -> Result<List<Bind>, AllocError>
    ensures { IfOk result (λ r. r ≡ record { name = seen.now; sort = Sort.Seq } ∷ record { name = rest.now; sort = Sort.Seq } ∷ keep.now.binders) }
{
    let mut out = List::new(alloc);
    push_binder(alloc, seen, &mut out)?;
    push_binder(alloc, rest, &mut out)?;
    out.append(keep.binders.copied(alloc)?)?;
    Ok(out)
}

// Appends the facts on the sequences.
fn push_facts(
    alloc: Global,
    seq: &Seq,
    seen: &Name,
    rest: &Name,
    key: Option<&Operand>,
    out: &mut List<Term>,
) -> Result<(), AllocError>
    ensures { OnOk result (out.new ≡ out.old ++ parted_term seq.now seen.now rest.now ∷ facts_if (option_copied key.entry) seen.now) }
{
    out.push(parted(alloc, seq, seen, rest)?)?;
    match key {
        None => Ok(()),
        Some(key) => out.push(not_yet(alloc, key, seen)?),
    }
}

// Appends the list segments before and behind the node.
fn push_segments(
    alloc: Global,
    node: &Name,
    list: &Name,
    seen: &Name,
    rest: &Name,
    out: &mut List<Term>,
) -> Result<(), AllocError>
    ensures { OnOk result (out.new ≡ out.old ++ segment_of (word_of_name list.now) (word_of_name node.now) (seq_of_name seen.now) ∷ segment_of (word_of_name node.now) (Word.Number 0) (seq_of_name rest.now) ∷ []) }
{
    push_segment(alloc, word_named(alloc, list)?, node, seen, out)?;
    let node = word_named(alloc, node)?;
    out.push(segment(alloc, node, Word::Number(0), rest)?)
}

// Appends the list segment from a word to a node.
fn push_segment(
    alloc: Global,
    from: Word,
    node: &Name,
    seen: &Name,
    out: &mut List<Term>,
) -> Result<(), AllocError>
    ensures { OnOk result (out.new ≡ out.old ++ segment_of from (word_of_name node.now) (seq_of_name seen.now) ∷ []) }
{
    let node = word_named(alloc, node)?;
    out.push(segment(alloc, from, node, seen)?)
}

// The terms of the invariant.
fn terms(
    alloc: Global,
    node: &Name,
    list: &Name,
    seq: &Seq,
    seen: &Name,
    rest: &Name,
    key: Option<&Operand>,
    keep: &Assertion,
) -> Result<List<Term>, AllocError>
    ensures { IfOk result (λ r. r ≡ (list_invariant node.now list.now seq.now seen.now rest.now (facts_if (option_copied key.entry) seen.now) keep.now).terms) }
{
    let mut out = List::new(alloc);
    push_facts(alloc, seq, seen, rest, key, &mut out)?;
    push_segments(alloc, node, list, seen, rest, &mut out)?;
    out.append(keep.terms.copied(alloc)?)?;
    Ok(out)
}

/// What holds whenever a loop over a list is about to test its node: the list is parted at the node,
/// and with a key, the nodes before it don't have it.
pub(crate) fn invariant(
    alloc: Global,
    node: &Name,
    list: &Name,
    seq: &Seq,
    seen: &Name,
    rest: &Name,
    key: Option<&Operand>,
    keep: &Assertion,
) -> Result<Assertion, AllocError>
    ensures { IfOk result (λ r. r ≡ list_invariant node.now list.now seq.now seen.now rest.now (facts_if (option_copied key.entry) seen.now) keep.now) }
{
    let binders = binders(alloc, seen, rest, keep)?;
    let terms = terms(alloc, node, list, seq, seen, rest, key, keep)?;
    Ok(Assertion {
        at: 0,
        binders,
        terms,
    })
}
