//! The command that words are.
ghost use Rattle.std.specs.Prelude.{◌≡◌, ℕ, ◌+◌, ◌<◌, ◌≤◌, ◌^◌, ◌⊎◌, [], map, length, string_bytes, IfOk, Option, Result, Ok, Err, Some, None};
ghost use Rattle.bed_words.specs.declared.command.Command.{Command};
ghost use Rattle.bed_words.specs.declared.command.CommandError.{CommandError};
ghost use Rattle.bed_lang.specs.declared.limit.Which.{Which};
ghost use Rattle.bed_words.specs.Commands.{IsCommand};
ghost use Rattle.bed_words.specs.Limits.{job_limit, start_limit, limit_of};
ghost use Rattle.bed_words.specs.Reading.{read_options, read_words, Gives, wrong_word, moved};
ghost use Rattle.bed_words.specs.Usage.{IsUsage, PassesLimit, Answers};

use crate::command::{Command, CommandError, Job, Start};
use crate::making::make;
use crate::options::{count_options, lacks_required};
use crate::verb::{Verb, find_verb};
use bed_lang::Which;
use std::alloc::Global;

fn job_passes(job: &Job) -> Option<Which>
    ensures { result ≡ job_limit job.now }
{
    if job.modules.len() > 64 {
        return Some(Which::Modules);
    }
    if job.imports.len() > 1024 {
        return Some(Which::Imports);
    }
    None
}

fn start_passes(start: &Start) -> Option<Which>
    ensures { result ≡ start_limit start.now }
{
    if start.steps > 10_000_000 {
        return Some(Which::Steps);
    }
    if start.trace > 1024 {
        return Some(Which::Trace);
    }
    if start.words > 1_048_576 || start.block.is_some_and(|block| block.1 > 1_048_576) {
        return Some(Which::Words);
    }
    None
}

/// The first limit that a command passes.
fn passes(command: &Command) -> Option<Which>
    ensures { result ≡ limit_of command.now }
{
    match command {
        Command::Link(job) | Command::Check(job) | Command::Conditions(job) => job_passes(job),
        Command::Run(job, start) => job_passes(job).or(start_passes(start)),
        Command::Exec(_, start) => start_passes(start),
        Command::Disasm(_) | Command::Gen(_) => None,
    }
}

/// A refusal whose wrong word is counted from earlier words on.
fn later(error: CommandError, by: u32) -> CommandError
    requires { wrong_word error + by < 2 ^ 32 }
    ensures { result ≡ moved error by }
{
    match error {
        CommandError::Usage { word } => CommandError::Usage { word: word + by },
        CommandError::Limit { which } => CommandError::Limit { which },
        CommandError::Memory => CommandError::Memory,
    }
}

/// The words after the first one.
fn read_rest(alloc: Global, verb: Verb, words: &[String]) -> Result<Command, CommandError>
    requires { length words.now < 2 ^ 32 }
    ensures { Gives (read_options verb [] (map string_bytes words.now)) result }
{
    let count = match count_options(verb, words) {
        Ok(count) => count,
        Err(word) => return Err(CommandError::Usage { word: word as u32 }),
    };
    let options = &words[..count];
    let plain = &words[count..];
    if lacks_required(verb, options) {
        return Err(CommandError::Usage { word: count as u32 });
    }
    match make(alloc, verb, options, plain) {
        Ok(command) => Ok(command),
        Err(error) => Err(later(error, count as u32)),
    }
}

/// The command that words are, limits set aside, or the first wrong word.
fn read(alloc: Global, words: &[String]) -> Result<Command, CommandError>
    requires { length words.now < 2 ^ 32 }
    ensures { Gives (read_words (map string_bytes words.now)) result }
{
    let [first, rest @ ..] = words else {
        return Err(CommandError::Usage { word: 0 });
    };
    let Some(verb) = find_verb(first.as_str()) else {
        return Err(CommandError::Usage { word: 0 });
    };
    match read_rest(alloc, verb, rest) {
        Ok(command) => Ok(command),
        Err(error) => Err(later(error, 1)),
    }
}

/// The command that the words after the program's name are.
///
/// Options come first, each with its value as the next word, in any order; from the first word
/// that doesn't begin with `--` on all words are plain. Where an option isn't given, the base is
/// 0x00400000, the stack 0x80000000, the frame has 64 words and no instruction is traced.
///
/// # Errors
/// `Usage` exactly where the words are no command, with the number of the first wrong word;
/// `Limit` exactly where they are a command that passes a limit; `Memory` for want of memory.
pub fn read_command(alloc: Global, words: &[String]) -> Result<Command, CommandError>
    requires { length words.now < 2 ^ 32 }
    ensures ok { IfOk result (λ c. IsCommand (map string_bytes words.now) c × (limit_of c ≡ None)) }
    ensures usage { (word : ℕ) → result ≡ Err (CommandError.Usage word) → IsUsage (map string_bytes words.now) word }
    ensures limit { (which : Which) → result ≡ Err (CommandError.Limit which) → PassesLimit (map string_bytes words.now) which }
    // Where the words have an answer, it is this one or want of memory.
    ensures only { (answer : Result Command CommandError) → Answers (map string_bytes words.now) answer
        → (result ≡ answer) ⊎ (result ≡ Err CommandError.Memory) }
{
    match read(alloc, words) {
        Err(error) => Err(error),
        Ok(command) => match passes(&command) {
            None => Ok(command),
            Some(which) => Err(CommandError::Limit { which }),
        },
    }
}
