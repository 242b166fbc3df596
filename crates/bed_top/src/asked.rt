//! What the words ask for.
ghost use Rattle.std.specs.Prelude.{◌≡◌, ℕ, List, map, string_bytes, option_copied, None, IfOk};
ghost use Rattle.bed_words.specs.Commands.{IsCommand};
ghost use Rattle.bed_words.specs.Limits.{limit_of};
ghost use Rattle.bed_words.specs.Options.{is_option};
ghost use Rattle.bed_top.specs.Causes.{word_at, unbuilt_word, Asks};
ghost use Rattle.bed_top.specs.Chains.{asking};
ghost use Rattle.bed_top.specs.Gives.{stop_of, Gives};
ghost use Rattle.bed_top.specs.Views.{view};
ghost use Rattle.bed_top.specs.Work.{IsAsked, IsCommanded};

use crate::line::Line;
use crate::plan::{Stop, refuse_unbuilt};
use crate::status::Status;
use bed_words::{Command, CommandError, Job, read_command};
use std::alloc::Global;

/// Word i, or nothing.
fn word(words: &[String], i: usize) -> &[u8]
    ensures { result.now ≡ word_at (map string_bytes words.now) i }
{
    match words.get(i) {
        Some(word) => word.as_bytes(),
        None => &[],
    }
}

fn looks_like_option(word: &[u8]) -> bool
    ensures { result ≡ is_option word.now }
{
    word.starts_with(b"--")
}

/// The first word of a command that isn't built.
fn unbuilt<'a>(words: &'a [String], command: &Command) -> Option<&'a [u8]>
    ensures { option_copied result ≡ unbuilt_word (map string_bytes words.now) command.now }
{
    match command {
        Command::Link(_) => {
            let option = word(words, 1);
            if looks_like_option(option) {
                Some(option)
            } else {
                None
            }
        }
        Command::Check(_) => Some(word(words, 0)),
        Command::Run(_, _) => Some(word(words, 0)),
        Command::Exec(_, _) => Some(word(words, 0)),
        Command::Disasm(_) => Some(word(words, 0)),
        Command::Conditions(_) => Some(word(words, 0)),
        Command::Gen(_) => Some(word(words, 0)),
    }
}

/// The link that a built command is.
fn job_of(words: &[String], command: Command) -> Job
    requires { unbuilt_word (map string_bytes words.now) command ≡ None }
    ensures { command ≡ Command.Link result }
{
    match command {
        Command::Link(job) => job,
        Command::Check(_) => unreachable!(),
        Command::Run(_, _) => unreachable!(),
        Command::Exec(_, _) => unreachable!(),
        Command::Disasm(_) => unreachable!(),
        Command::Conditions(_) => unreachable!(),
        Command::Gen(_) => unreachable!(),
    }
}

/// The refusal of words that are no command, or one that passes a limit.
fn refuse(error: CommandError) -> Stop
    ensures { result ≡ stop_of error }
{
    match error {
        CommandError::Usage { word } => Stop::Refused {
            status: Status::Usage { word },
            line: Line::Usage(word),
        },
        CommandError::Limit { which } => Stop::Refused {
            status: Status::Limit { which },
            line: Line::Limit(which),
        },
        CommandError::Memory => Stop::Memory,
    }
}

/// The command that the words are.
fn commanded(alloc: Global, words: &[String]) -> Result<Command, Stop>
    ensures gives { (texts : List (List ℕ)) → Gives IsCommanded (λ c. c) (view (map string_bytes words.now) texts) tt result }
    ensures command { IfOk result (λ c. IsCommand (map string_bytes words.now) c × (limit_of c ≡ None)) }
{
    if words.len() > u32::MAX as usize {
        return Err(Stop::Memory);
    }
    match read_command(alloc, words) {
        Ok(command) => Ok(command),
        Err(error) => Err(refuse(error)),
    }
}

/// The link that a command is.
fn link_of(alloc: Global, words: &[String], command: Command) -> Result<Job, Stop>
    ensures gives { (texts : List (List ℕ)) → Gives IsAsked (λ j. j) (view (map string_bytes words.now) texts) command result }
    ensures link { IfOk result (λ j. (command ≡ Command.Link j) × (unbuilt_word (map string_bytes words.now) command ≡ None)) }
{
    match unbuilt(words, &command) {
        Some(what) => Err(refuse_unbuilt(alloc, what)),
        None => Ok(job_of(words, command)),
    }
}

/// The link that the words ask for.
pub(crate) fn asked(alloc: Global, words: &[String]) -> Result<Job, Stop>
    ensures gives { (texts : List (List ℕ)) → Gives asking (λ j. j) (view (map string_bytes words.now) texts) tt result }
    ensures asks { IfOk result (Asks (map string_bytes words.now)) }
{
    let command = commanded(alloc, words)?;
    link_of(alloc, words, command)
}
