//! What holds of all words.
ghost use Rattle.std.specs.Prelude.{map, string_bytes};
ghost use Rattle.bed_words.specs.Usage.{OneCommand, OneAnswer, HasAnswer};

/// Words are at most one command.
pub fn has_one_command(_words: &[String])
    ensures { OneCommand (map string_bytes _words.now) }
{}

/// Words are a command that passes no limit, or pass one, or have a first wrong word, and never
/// two of these.
pub fn has_one_answer(_words: &[String])
    ensures { OneAnswer (map string_bytes _words.now) }
{}

/// Words have such an answer.
pub fn has_an_answer(_words: &[String])
    ensures { HasAnswer (map string_bytes _words.now) }
{}
