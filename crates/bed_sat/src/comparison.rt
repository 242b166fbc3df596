//! The truth of comparisons.

ghost use Rattle.std.specs.Prelude.{◌≡◌, ℕ, ◌↔◌, List, Option, IsSome, IfSome, IsTrue};
ghost use Rattle.bed_lang.specs.Values.{Values};
ghost use Rattle.bed_sat.specs.Facts.{IsTrueFact};
ghost use Rattle.bed_sat.specs.Comparisons.{named_value, GivesNamed, compares, on_both, variable_result, word_result, pure_result};

use bed_lang::{List, Name, Pure, Var, Word};

/// Whether a pure fact is true, where each of the names has the first value that stands beside it.
/// None exactly where the fact isn't a comparison of two words that are made of numbers and these
/// names alone. It takes no memory.
pub fn eval_pure(p: &Pure, values: &List<(Name, u32)>) -> Option<bool>
    ensures compared { IsSome result ↔ IsTrue (compares values.now p.now) }
    ensures truth { (codes : ℕ → Option (List ℕ)) (labels : List ℕ → ℕ) (ν : Values) → GivesNamed values.now ν
        → IfSome result (λ b. IsTrue b ↔ IsTrueFact codes labels ν p.now) }
{
    pure_value(p, values)
}

/// The truth of a fact, where it compares words that are made of numbers and names alone.
fn pure_value(p: &Pure, values: &List<(Name, u32)>) -> Option<bool>
    ensures { result ≡ pure_result values.now p.now }
{
    match p {
        Pure::Equal(a, b) => {
            let (a, b) = word_values(a, b, values)?;
            Some(a == b)
        }
        Pure::Unequal(a, b) => {
            let (a, b) = word_values(a, b, values)?;
            Some(a != b)
        }
        Pure::Less(a, b) => {
            let (a, b) = word_values(a, b, values)?;
            Some(a < b)
        }
        Pure::AtMost(a, b) => {
            let (a, b) = word_values(a, b, values)?;
            Some(a <= b)
        }
        _ => None,
    }
}

/// Two words, where both are made of numbers and names alone.
fn word_values(a: &Word, b: &Word, values: &List<(Name, u32)>) -> Option<(u32, u32)>
    ensures { result ≡ on_both (word_result values.now a.now) (word_result values.now b.now) (λ m n. (m, n)) }
{
    let first = word_value(a, values)?;
    let second = word_value(b, values)?;
    Some((first, second))
}

/// A word, where it is made of numbers and names alone.
fn word_value(word: &Word, values: &List<(Name, u32)>) -> Option<u32>
    ensures { result ≡ word_result values.now word.now }
{
    match word {
        Word::Number(n) => Some(*n),
        Word::Var(x) => variable_value(x, values),
        Word::Label(_) => None,
        Word::Add(a, b) => {
            let a = word_value(a.get(), values)?;
            let b = word_value(b.get(), values)?;
            Some(a.wrapping_add(b))
        }
        Word::Sub(a, b) => {
            let a = word_value(a.get(), values)?;
            let b = word_value(b.get(), values)?;
            Some(a.wrapping_sub(b))
        }
        Word::Times(n, a) => {
            let a = word_value(a.get(), values)?;
            Some(n.wrapping_mul(a))
        }
    }
}

fn variable_value(x: &Var, values: &List<(Name, u32)>) -> Option<u32>
    ensures { result ≡ variable_result values.now x.now }
{
    match x {
        Var::Named(name) => {
            let value = value_of(name, values)?;
            Some(value)
        }
        _ => None,
    }
}

/// The first value of a name.
fn value_of(name: &Name, values: &List<(Name, u32)>) -> Option<u32>
    ensures { result ≡ named_value values.now name.now.bytes }
{
    for (other, value) in values.as_slice() {
        if other.bytes.as_slice() == name.bytes.as_slice() {
            return Some(*value);
        }
    }
    None
}
