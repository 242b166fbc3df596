//! What holds of every text. Each function here does nothing: its contract is a law.
ghost use Rattle.bed_read.specs.Laws.{HasAnswer, IsNotRefused, OneModule, OneRefusal};

/// A text is that of one module at most.
pub fn has_one_module(_text: &[u8])
    ensures { OneModule _text.now }
{}

/// A text of a module has no refusal.
pub fn is_not_refused(_text: &[u8])
    ensures { IsNotRefused _text.now }
{}

/// A text that is no module within the limits has one refusal.
pub fn has_one_refusal(_text: &[u8])
    ensures { OneRefusal _text.now }
{}

/// A text is that of a module or has a refusal, so none of these laws says nothing of some text.
pub fn has_an_answer(_text: &[u8])
    ensures { HasAnswer _text.now }
{}
