//! What a term may name.
ghost use Rattle.std.specs.Prelude.{◌≡◌, ◌++◌, IsTrue, true, false, [], ◌∷◌, map, ◌<◌, IfSome, bytes_eq};
ghost use Rattle.std.specs.Option.{option_copied};
ghost use Rattle.bed_lang.specs.Lookups.{signature_named, predicate_named, label_signature};
ghost use Rattle.bed_names.specs.Names.{is_among as is_among_names, sort_of as sort_of_name, sequences, words};
ghost use Rattle.bed_names.specs.Modules.{plain, signature_names, visible_inside};
ghost use Rattle.bed_names.specs.Statements.{frame};
ghost use Rattle.bed_names.specs.Terms.{with_names};
ghost use Rattle.bed_names.specs.Views.{seen_outside, seen_inside};

use crate::declared::Declared;
use bed_lang::{Bind, Name, Predicate, Signature, Sort};
use std::marker::Model;

/// Whether two names are the same.
pub(crate) fn is_same(x: &Name, y: &Name) -> bool
    ensures { result ≡ bytes_eq x.now.bytes y.now.bytes }
{
    x.bytes.as_slice() == y.bytes.as_slice()
}

/// Whether a name is in a list.
pub(crate) fn is_among(names: &[Name], x: &Name) -> bool
    ensures { result ≡ is_among_names names.now x.now }
{
    for y in names {
        if x.bytes.as_slice() == y.bytes.as_slice() {
            return true;
        }
    }
    false
}

// The same for a list of references.
fn is_listed(names: &[&Name], x: &Name) -> bool
    ensures { result ≡ is_among_names (map (λ y. y.now) names.now) x.now }
{
    for y in names {
        if x.bytes.as_slice() == y.bytes.as_slice() {
            return true;
        }
    }
    false
}

// The sort of the first variable of a name.
fn sort_of(names: &[Bind], x: &Name) -> Option<Sort>
    ensures { result ≡ sort_of_name names.now x.now }
{
    for b in names {
        if x.bytes.as_slice() == b.name.bytes.as_slice() {
            return Some(b.sort);
        }
    }
    None
}

/// What an assertion sees beside its binders.
#[derive(Drop)]
pub(crate) struct Outer<'a> {
    declared: &'a Declared<'a>,
    // Whether labels are in scope.
    labels: bool,
    // Words.
    params: &'a [Name],
    logical: &'a [Bind],
    // Words.
    locals: &'a [Name],
    // The arguments of which `old a` may be said.
    olds: &'a [Name],
    // Whether `result` is in scope.
    answer: bool,
}

impl<'a> Model for Outer<'a> {
    ghost use Rattle.std.specs.Coded.{codes};
    ghost use Rattle.bed_lang.specs.contracts.word.Word as word_contract;
    ghost use Rattle.bed_lang.specs.contracts.word.Seq as seq_contract;
    ghost use Rattle.bed_names.specs.Terms.{Visible};
    ghost use Rattle.bed_names.specs.Views.{seen_outside};

    ghost Value = { Visible };

    ghost coded = { Prim.hlevel (codes, word_contract.the_row.coded, seq_contract.the_row.coded) };

    ghost view = { λ s. seen_outside s.declared.now s.labels s.params.now s.logical.now s.locals.now s.olds.now s.answer };
}

impl<'a> Outer<'a> {
    /// What a function's assertions see, with these arguments, logical variables and locals.
    pub(crate) fn of_function(
        declared: &'a Declared<'a>,
        params: &'a [Name],
        logical: &'a [Bind],
        locals: &'a [Name],
    ) -> Outer<'a>
        ensures { result ≡ visible_inside declared.now params.now logical.now locals.now }
    {
        Outer {
            declared,
            labels: true,
            params,
            logical,
            locals,
            olds: params,
            answer: false,
        }
    }

    /// What a signature's assertions see, with these parameters and logical variables.
    pub(crate) fn of_signature(
        declared: &'a Declared<'a>,
        params: &'a [Name],
        logical: &'a [Bind],
        answer: bool,
    ) -> Outer<'a>
        ensures { result ≡ plain declared.now (words params.now ++ logical.now) answer }
    {
        Outer {
            declared,
            labels: false,
            params,
            logical,
            locals: &[],
            olds: &[],
            answer,
        }
    }

    /// What a predicate's assertions see, with these parameters.
    pub(crate) fn of_predicate(declared: &'a Declared<'a>, params: &'a [Bind]) -> Outer<'a>
        ensures { result ≡ plain declared.now params.now false }
    {
        Outer::of_signature(declared, &[], params, false)
    }

    /// The same with more sequences and binders.
    pub(crate) fn with(&'a self, lists: &'a [&'a Name], binders: &'a [Bind]) -> Scope<'a>
        ensures { result ≡ seen_inside self.now (map (λ y. y.now) lists.now) binders.now }
    {
        Scope {
            outer: self,
            lists,
            binders,
        }
    }

    /// The same with more sequences alone.
    pub(crate) fn with_lists(&'a self, lists: &'a [&'a Name]) -> Scope<'a>
        ensures { result ≡ with_names self.now (sequences (map (λ y. y.now) lists.now)) }
    {
        self.with(lists, &[])
    }

    /// The same, for a hint or the sequence of a statement.
    pub(crate) fn inner(&'a self) -> Scope<'a>
        ensures { result ≡ self.now }
    {
        self.with_lists(&[])
    }

    // The sort of the first variable of a name.
    fn sort_of(&self, x: &Name) -> Option<Sort>
        ensures { result ≡ sort_of_name self.now.names x.now }
    {
        if is_among(self.params, x) {
            return Some(Sort::Word);
        }
        match sort_of(self.logical, x) {
            Some(sort) => Some(sort),
            None if is_among(self.locals, x) => Some(Sort::Word),
            None => None,
        }
    }

    /// The name of the signature of the first function or import of a name.
    pub(crate) fn label(&self, x: &Name) -> Option<&'a Name>
        ensures { option_copied result ≡ label_signature self.now.decls x.now.bytes }
    {
        if self.labels {
            self.declared.label(x)
        } else {
            None
        }
    }

    /// The first signature of a name.
    pub(crate) fn signature(&self, x: &Name) -> Option<&'a Signature>
        ensures is { option_copied result ≡ signature_named self.now.decls x.now.bytes }
        ensures fits { IfSome result (λ s. frame s.now < 4294967296) }
    {
        self.declared.signature(x)
    }

    fn predicate(&self, x: &Name) -> Option<&'a Predicate>
        ensures { option_copied result ≡ predicate_named self.now.decls x.now.bytes }
    {
        self.declared.predicate(x)
    }

    fn has_old(&self, x: &Name) -> bool
        ensures { result ≡ is_among_names self.now.olds x.now }
    {
        is_among(self.olds, x)
    }

    fn has_answer(&self) -> bool
        ensures { result ≡ self.now.answer }
    {
        self.answer
    }
}

/// What a term sees.
#[derive(Drop)]
pub(crate) struct Scope<'a> {
    outer: &'a Outer<'a>,
    // Sequences.
    lists: &'a [&'a Name],
    binders: &'a [Bind],
}

impl<'a> Model for Scope<'a> {
    ghost use Rattle.std.specs.Prelude.{map};
    ghost use Rattle.std.specs.Coded.{codes};
    ghost use Rattle.bed_lang.specs.contracts.word.Word as word_contract;
    ghost use Rattle.bed_lang.specs.contracts.word.Seq as seq_contract;
    ghost use Rattle.bed_names.specs.Terms.{Visible};
    ghost use Rattle.bed_names.specs.Views.{seen_inside};

    ghost Value = { Visible };

    ghost coded = { Prim.hlevel (codes, word_contract.the_row.coded, seq_contract.the_row.coded) };

    ghost view = { λ s. seen_inside s.outer.now (map (λ y. y.now) s.lists.now) s.binders.now };
}

impl<'a> Scope<'a> {
    /// The first signature of a name.
    pub(crate) fn signature(&self, x: &Name) -> Option<&'a Signature>
        ensures { option_copied result ≡ signature_named self.now.decls x.now.bytes }
    {
        self.outer.signature(x)
    }

    /// The first predicate of a name.
    pub(crate) fn predicate(&self, x: &Name) -> Option<&'a Predicate>
        ensures { option_copied result ≡ predicate_named self.now.decls x.now.bytes }
    {
        self.outer.predicate(x)
    }

    /// The name of the signature of the first function or import of a name.
    pub(crate) fn label(&self, x: &Name) -> Option<&'a Name>
        ensures { option_copied result ≡ label_signature self.now.decls x.now.bytes }
    {
        self.outer.label(x)
    }

    /// Whether `old` of a name is in scope.
    pub(crate) fn has_old(&self, x: &Name) -> bool
        ensures { result ≡ is_among_names self.now.olds x.now }
    {
        self.outer.has_old(x)
    }

    /// Whether `result` is in scope.
    pub(crate) fn has_answer(&self) -> bool
        ensures { result ≡ self.now.answer }
    {
        self.outer.has_answer()
    }

    /// The sort of the first variable of a name.
    pub(crate) fn sort_of(&self, x: &Name) -> Option<Sort>
        ensures { result ≡ sort_of_name self.now.names x.now }
    {
        match self.outer.sort_of(x) {
            Some(sort) => Some(sort),
            None if is_listed(self.lists, x) => Some(Sort::Seq),
            None => sort_of(self.binders, x),
        }
    }
}
