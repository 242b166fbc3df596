//! What holds of every text. Each function here does nothing: its contract is a law.
ghost use Rattle.bed_proof_text.specs.Texts.{HasAnswer, IsNotBad, OneList, OnePlace};

/// A text is the proof text of one list of derivations at most.
pub fn has_one_list(_text: &[u8])
    ensures { OneList _text.now }
{}

/// A proof text isn't bad anywhere.
pub fn is_not_bad(_text: &[u8])
    ensures { IsNotBad _text.now }
{}

/// A text that is no proof text is bad at one place.
pub fn has_one_place(_text: &[u8])
    ensures { OnePlace _text.now }
{}

/// Whatever the tokens of a text are, it is a proof text or is bad at a place, so none of these laws says nothing of some text.
pub fn has_an_answer(_text: &[u8])
    ensures { HasAnswer _text.now }
{}
