//! The kinds of command.
ghost use Rattle.std.specs.Prelude.{◌≡◌, string_bytes};
ghost use Rattle.bed_words.specs.Reading.{verb_of};

/// A kind of command, by its first word.
#[derive(Clone, Copy)]
pub(crate) enum Verb {
    Link,
    Check,
    Run,
    Exec,
    Disasm,
    Conditions,
    Gen,
}

/// The command that a first word names.
pub(crate) fn find_verb(word: &str) -> Option<Verb>
    ensures { result ≡ verb_of word.now }
{
    if word == "link" {
        Some(Verb::Link)
    } else if word == "check" {
        Some(Verb::Check)
    } else if word == "run" {
        Some(Verb::Run)
    } else if word == "exec" {
        Some(Verb::Exec)
    } else if word == "disasm" {
        Some(Verb::Disasm)
    } else if word == "conditions" {
        Some(Verb::Conditions)
    } else if word == "gen" {
        Some(Verb::Gen)
    } else {
        None
    }
}
