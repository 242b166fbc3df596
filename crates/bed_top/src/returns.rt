//! The modules that are built so far, and whether their functions keep their promises.
ghost use Rattle.std.specs.Prelude.{◌≡◌, ◌≤◌, ◌+◌, ◌<◌, ◌^◌, length, option_and_then, option_copied};
ghost use Rattle.std.specs.List.{list_all};
ghost use Rattle.bed_lang.specs.Same.{same_name};
ghost use Rattle.bed_lang.specs.declared.word.Word.{out-Word};
ghost use Rattle.bed_lang.specs.Lookups.{first_signature};
ghost use Rattle.bed_top.specs.Returns.{all_differ, answer_of, broken_condition, equal_to_answer, first_broken, function_is_built, has_name, is_answer, is_emp, is_empty_memory, is_number_or_local, is_value, is_value_layer, keeps_promise as kept, module_is_built, only, promised_word, returned_operand, says_same, signature_is_built};

use bed_lang::{
    Assertion, Function, Module, Name, Operand, Pure, Signature, StmtKind, Term, Var, Word,
};

fn sole<T>(items: &[T]) -> Option<&T>
    ensures { option_copied result ≡ only items.now }
{
    match items {
        [item] => Some(item),
        _ => None,
    }
}

fn have_same_bytes(left: &Name, right: &Name) -> bool
    ensures { result ≡ same_name left.now right.now }
{
    left.bytes.as_slice() == right.bytes.as_slice()
}

fn contains(names: &[Name], name: &Name) -> bool
    ensures { result ≡ has_name names.now name.now }
{
    names.iter().any(|other| have_same_bytes(other, name))
}

/// Whether no name has the bytes of a later one.
fn differ(names: &[Name]) -> bool
    ensures { result ≡ all_differ names.now }
{
    match names {
        [first, rest @ ..] => !contains(rest, first) && differ(rest),
        [] => true,
    }
}

fn says_emp(term: Option<&Term>) -> bool
    ensures { result ≡ is_emp (option_copied term.entry) }
{
    match term {
        Some(term) => match term {
            Term::Emp => true,
            _ => false,
        },
        None => false,
    }
}

fn is_no_memory(assertion: &Assertion) -> bool
    ensures { result ≡ is_empty_memory assertion.now }
{
    assertion.binders.as_slice().is_empty() && says_emp(sole(assertion.terms.as_slice()))
}

fn is_result(word: &Word) -> bool
    ensures { result ≡ is_answer (out-Word word.now) }
{
    match word {
        Word::Var(variable) => match variable {
            Var::Answer(_) => true,
            _ => false,
        },
        _ => false,
    }
}

fn equal_to_result(fact: &Pure) -> Option<&Word>
    ensures { option_copied result ≡ equal_to_answer fact.now }
{
    match fact {
        Pure::Equal(left, right) => { if is_result(left) { Some(right) } else { None } }
        _ => None,
    }
}

/// The word w of a term `[result = w]`.
fn word_of_result(term: &Term) -> Option<&Word>
    ensures { option_copied result ≡ answer_of term.now }
{
    match term {
        Term::Pure(fact) => equal_to_result(fact),
        _ => None,
    }
}

/// The word that a signature promises as the answer.
fn promised(signature: &Signature) -> Option<&Word>
    ensures { option_copied result ≡ promised_word signature.now }
{
    word_of_result(sole(signature.post.terms.as_slice())?)
}

/// Whether a word is a number or one of the parameters.
fn is_plain(params: &[Name], word: &Word) -> bool
    ensures { result ≡ is_value_layer params.now (out-Word word.now) }
{
    match word {
        Word::Number(number) => *number <= u32::MAX,
        Word::Var(variable) => match variable {
            Var::Named(name) => contains(params, name),
            _ => false,
        },
        _ => false,
    }
}

fn promises_value(signature: &Signature) -> bool
    ensures { result ≡ is_value signature.now.params (promised_word signature.now) }
{
    match promised(signature) {
        Some(word) => is_plain(signature.params.as_slice(), word),
        None => false,
    }
}

fn is_built_signature(signature: &Signature) -> bool
    ensures { result ≡ signature_is_built signature.now }
{
    signature.reserve == 0
        && signature.logical.as_slice().is_empty()
        && differ(signature.params.as_slice())
        && is_no_memory(&signature.pre)
        && signature.post.binders.as_slice().is_empty()
        && promises_value(signature)
}

/// The operand that a function returns.
fn returned(function: &Function) -> Option<&Operand>
    ensures { option_copied result ≡ returned_operand function.now }
{
    match &sole(function.body.as_slice())?.kind {
        StmtKind::Return(operand) => Some(operand),
        _ => None,
    }
}

fn is_number_or_name(operand: Option<&Operand>) -> bool
    ensures { result ≡ is_number_or_local (option_copied operand.entry) }
{
    match operand {
        Some(operand) => match operand {
            Operand::Number(_) | Operand::Local(_) => true,
            Operand::Label(_) => false,
        },
        None => false,
    }
}

fn is_built_function(function: &Function) -> bool
    ensures { result ≡ function_is_built function.now }
{
    function.locals.as_slice().is_empty() && is_number_or_name(returned(function))
}

fn are_built_signatures(signatures: &[Signature]) -> bool
    ensures { result ≡ list_all signature_is_built signatures.now }
{
    signatures
        .iter()
        .all(|signature| is_built_signature(signature))
}

fn are_built_functions(functions: &[Function]) -> bool
    ensures { result ≡ list_all function_is_built functions.now }
{
    functions.iter().all(|function| is_built_function(function))
}

/// Whether a module has only signatures that promise a number or an argument and functions that
/// return one.
pub(crate) fn is_built(tree: &Module) -> bool
    ensures { result ≡ module_is_built tree.now }
{
    tree.predicates.as_slice().is_empty()
        && tree.imports.as_slice().is_empty()
        && are_built_signatures(tree.signatures.as_slice())
        && are_built_functions(tree.functions.as_slice())
}

fn says(word: &Word, operand: &Operand) -> bool
    ensures { result ≡ says_same word.now operand.now }
{
    match operand {
        Operand::Number(number) => match word {
            Word::Number(said) => *said == *number,
            _ => false,
        },
        Operand::Local(name) => match word {
            Word::Var(variable) => match variable {
                Var::Named(said) => have_same_bytes(said, name),
                _ => false,
            },
            _ => false,
        },
        Operand::Label(_) => false,
    }
}

/// The first signature of a name.
fn find_signature<'a>(signatures: &'a [Signature], name: &Name) -> Option<&'a Signature>
    ensures { option_copied result ≡ first_signature signatures.now name.now.bytes }
{
    signatures.iter().find(|signature| signature.name.bytes.as_slice() == name.bytes.as_slice())
}

/// The word that the signature of a function promises.
fn promised_by<'a>(signatures: &'a [Signature], function: &Function) -> Option<&'a Word>
    ensures { option_copied result ≡ option_and_then promised_word (first_signature signatures.now function.now.signature.bytes) }
{
    promised(find_signature(signatures, &function.signature)?)
}

/// Whether a function returns the number or the parameter that its signature promises.
fn keeps_promise(signatures: &[Signature], function: &Function) -> bool
    ensures { result ≡ kept signatures.now function.now }
{
    let Some(word) = promised_by(signatures, function) else {
        return false;
    };
    let Some(operand) = returned(function) else {
        return false;
    };
    says(word, operand)
}

/// The number, from 1, of the first function that doesn't return what its signature promises.
pub(crate) fn broken(tree: &Module) -> Option<u32>
    requires { length tree.now.functions + 1 < 2 ^ 32 }
    ensures { result ≡ broken_condition tree.now }
{
    let signatures = tree.signatures.as_slice();
    let mut number: u32 = 1;
    for function in tree.functions.as_slice() {
        if !keeps_promise(signatures, function) {
            return Some(number);
        }
        number += 1;
    }
    None
}
