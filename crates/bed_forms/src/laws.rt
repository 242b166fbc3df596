//! Laws of normal forms. Each function here does nothing: its contract is a law, for all words,
//! sequences and values.
ghost use Rattle.bed_forms.specs.Laws.{FormsAreUnique, CoefficientsDecide, ValuesDecide, SameFormsAreEqual, ConstantsAreValues, OnePiecesOneValue, SamePiecesAreEqual, NoPiecesNoElements, DifferencesAreForms, SameDifferencesAreEqual, SameUpToSign, SumsAddValues, MultiplesMultiplyValues};

/// Forms of words: a word has one form only; two words have the same form exactly where their
/// constants and all their coefficients agree, exactly where they have one value whatever labels and
/// variables are, and exactly where the test of their forms says so. A word whose form is a constant
/// has that value.
pub fn words()
    ensures unique { FormsAreUnique }
    ensures equal { CoefficientsDecide }
    ensures values { ValuesDecide }
    ensures test { SameFormsAreEqual }
    ensures constant { ConstantsAreValues }
{}

/// Forms of differences: they are the forms of the words `a - b`, and the test decides whether they are
/// equal. Where two are the same up to sign, one equation is true exactly where the other is.
pub fn differences()
    ensures form { DifferencesAreForms }
    ensures test { SameDifferencesAreEqual }
    ensures sign { SameUpToSign }
{}

/// Sums and multiples of forms have the sums and multiples of their values, whatever labels and
/// variables are.
pub fn sums()
    ensures sum { SumsAddValues }
    ensures multiple { MultiplesMultiplyValues }
{}

/// Forms of sequences: two sequences with the same pieces have one value, and the test of their pieces
/// says exactly whether these are the same. A sequence with no pieces has no elements.
pub fn sequences()
    ensures value { OnePiecesOneValue }
    ensures test { SamePiecesAreEqual }
    ensures empty { NoPiecesNoElements }
{}
