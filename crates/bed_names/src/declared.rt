//! Declarations by their names.
ghost use Rattle.std.specs.Prelude.{◌≡◌, ◌<◌, IfOk, IfSome};
ghost use Rattle.std.specs.Option.{option_copied};
ghost use Rattle.bed_lang.specs.Lookups.{signature_named, predicate_named, label_signature};
ghost use Rattle.bed_names.specs.Faults.{noted};
ghost use Rattle.bed_names.specs.Modules.{name_spaces_faults};
ghost use Rattle.bed_names.specs.Statements.{frame};
ghost use Rattle.bed_names.specs.Tables.{FramesFit};

use crate::error::NameError;
use crate::index::index;
use crate::table::Table;
use bed_lang::{Decls, Name, Predicate, Signature};
use std::alloc::{AllocError, Global};
use std::marker::Model;

/// Declarations with a table for each name space.
#[derive(Drop)]
pub(crate) struct Declared<'a> {
    decls: &'a Decls,
    signatures: Table,
    predicates: Table,
    labels: Table,
}

impl<'a> Model for Declared<'a> {
    ghost use Rattle.bed_lang.specs.declared.condition.Decls.{Decls};
    ghost use Rattle.bed_names.specs.Tables.{AreTables};
    ghost use Rattle.std.specs.Coded.{codes};
    ghost use Rattle.bed_lang.specs.contracts.word.Word as word_contract;
    ghost use Rattle.bed_lang.specs.contracts.word.Seq as seq_contract;

    ghost Value = { Decls };

    ghost coded = { Prim.hlevel (codes, word_contract.the_row.coded, seq_contract.the_row.coded) };

    ghost view = { λ d. d.decls.now };

    ghost invariant = { λ d. AreTables d.decls.now d.signatures d.predicates d.labels };
}

/// Declarations, and what is left of the names that are declared twice.
#[derive(Drop)]
pub(crate) struct Declaring<'a> {
    pub(crate) declared: Declared<'a>,
    pub(crate) found: Option<NameError>,
}

impl<'a> Declared<'a> {
    /// The declarations in their order, and what is left of the names that are declared twice.
    pub(crate) fn new(alloc: Global, decls: &'a Decls) -> Result<Declaring<'a>, AllocError>
        requires { FramesFit decls.now.signatures }
        ensures is { IfOk result (λ d. d.declared ≡ decls.now) }
        ensures found { IfOk result (λ d. d.found ≡ noted None (name_spaces_faults decls.now)) }
    {
        let signatures = index(alloc, None, decls.signatures.as_slice())?;
        let predicates = index(alloc, signatures.found, decls.predicates.as_slice())?;
        let labels = index(alloc, predicates.found, decls.labels.as_slice())?;
        Ok(Declaring {
            declared: Declared {
                decls,
                signatures: signatures.table,
                predicates: predicates.table,
                labels: labels.table,
            },
            found: labels.found,
        })
    }

    /// The first signature of a name.
    pub(crate) fn signature(&self, x: &Name) -> Option<&'a Signature>
        ensures is { option_copied result ≡ signature_named self.now x.now.bytes }
        ensures fits { IfSome result (λ s. frame s.now < 4294967296) }
    {
        let number = self.signatures.get(x.bytes.as_slice())?;
        self.decls.signatures.get(number)
    }

    /// The first predicate of a name.
    pub(crate) fn predicate(&self, x: &Name) -> Option<&'a Predicate>
        ensures { option_copied result ≡ predicate_named self.now x.now.bytes }
    {
        let number = self.predicates.get(x.bytes.as_slice())?;
        self.decls.predicates.get(number)
    }

    /// The name of the signature of the first function or import of a name.
    pub(crate) fn label(&self, x: &Name) -> Option<&'a Name>
        ensures { option_copied result ≡ label_signature self.now x.now.bytes }
    {
        let number = self.labels.get(x.bytes.as_slice())?;
        let (_, signature) = self.decls.labels.get(number)?;
        Some(signature)
    }
}
