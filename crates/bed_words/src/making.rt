//! The command that options and plain words make.
ghost use Rattle.std.specs.Prelude.{◌≡◌, ◌+◌, ◌<◌, ◌^◌, ℕ, List, map, length, string_bytes, IfOk, Option};
ghost use Rattle.bed_words.specs.Commands.{job_of, start_of};
ghost use Rattle.bed_words.specs.Reading.{read_plain, Gives};

use crate::command::{Command, CommandError, Job, Start};
use crate::options::{arguments_given, block_given, file_given, imports_given, number_given};
use crate::values::{name_from, size};
use crate::verb::Verb;
use bed_lang::{List, Text};
use std::alloc::{AllocError, Global};

fn text(alloc: Global, word: &String) -> Result<Text, AllocError>
    ensures { IfOk result (λ t. t ≡ string_bytes word.now) }
{
    List::from_slice(alloc, word.as_bytes())
}

fn texts(alloc: Global, words: &[String]) -> Result<List<Text>, AllocError>
    ensures { IfOk result (λ ts. ts ≡ map string_bytes words.now) }
{
    let mut texts = List::new(alloc);
    for word in words {
        texts.push(text(alloc, word)?)?;
    }
    Ok(texts)
}

fn job(
    alloc: Global,
    options: &[String],
    out: Option<Text>,
    modules: &[String],
) -> Result<Job, AllocError>
    ensures { IfOk result (λ j. j ≡ job_of (map string_bytes options.now) out (map string_bytes modules.now)) }
{
    Ok(Job {
        base: number_given("--base", options).unwrap_or(0x0040_0000),
        imports: imports_given(alloc, options)?,
        proof: file_given(alloc, "--proof", options)?,
        write_proof: file_given(alloc, "--write-proof", options)?,
        out,
        modules: texts(alloc, modules)?,
    })
}

fn start(alloc: Global, options: &[String], function: &String) -> Result<Start, AllocError>
    ensures { IfOk result (λ s. s ≡ start_of (map string_bytes options.now) (string_bytes function.now)) }
{
    Ok(Start {
        steps: number_given("--steps", options).unwrap_or(0),
        stack: number_given("--stack", options).unwrap_or(0x8000_0000),
        args: arguments_given(alloc, options)?,
        trace: number_given("--trace", options).unwrap_or(0),
        words: number_given("--words", options).unwrap_or(64),
        block: block_given(options),
        function: name_from(alloc, function.as_bytes())?,
    })
}

fn link(alloc: Global, options: &[String], plain: &[String]) -> Result<Command, CommandError>
    ensures { Gives (read_plain Verb.Link (map string_bytes options.now) (map string_bytes plain.now)) result }
{
    match plain {
        [] => Err(CommandError::Usage { word: 0 }),
        [_] => Err(CommandError::Usage { word: 1 }),
        [out, modules @ ..] => {
            let out = text(alloc, out)?;
            Ok(Command::Link(job(alloc, options, Some(out), modules)?))
        }
    }
}

fn check(alloc: Global, options: &[String], plain: &[String]) -> Result<Command, CommandError>
    ensures { Gives (read_plain Verb.Check (map string_bytes options.now) (map string_bytes plain.now)) result }
{
    match plain {
        [] => Err(CommandError::Usage { word: 0 }),
        [_, ..] => Ok(Command::Check(job(alloc, options, None, plain)?)),
    }
}

fn run(alloc: Global, options: &[String], plain: &[String]) -> Result<Command, CommandError>
    ensures { Gives (read_plain Verb.Run (map string_bytes options.now) (map string_bytes plain.now)) result }
{
    match plain {
        [] => Err(CommandError::Usage { word: 0 }),
        [_] => Err(CommandError::Usage { word: 1 }),
        [function, modules @ ..] => {
            let job = job(alloc, options, None, modules)?;
            Ok(Command::Run(job, start(alloc, options, function)?))
        }
    }
}

fn exec(alloc: Global, options: &[String], plain: &[String]) -> Result<Command, CommandError>
    ensures { Gives (read_plain Verb.Exec (map string_bytes options.now) (map string_bytes plain.now)) result }
{
    match plain {
        [] => Err(CommandError::Usage { word: 0 }),
        [_] => Err(CommandError::Usage { word: 1 }),
        [image, function] => {
            let image = text(alloc, image)?;
            Ok(Command::Exec(image, start(alloc, options, function)?))
        }
        [_, _, _, ..] => Err(CommandError::Usage { word: 2 }),
    }
}

fn disasm(alloc: Global, plain: &[String]) -> Result<Command, CommandError>
    ensures { (options : List (List ℕ)) → Gives (read_plain Verb.Disasm options (map string_bytes plain.now)) result }
{
    match plain {
        [] => Err(CommandError::Usage { word: 0 }),
        [image] => Ok(Command::Disasm(text(alloc, image)?)),
        [_, _, ..] => Err(CommandError::Usage { word: 1 }),
    }
}

fn conditions(alloc: Global, options: &[String], plain: &[String]) -> Result<Command, CommandError>
    ensures { Gives (read_plain Verb.Conditions (map string_bytes options.now) (map string_bytes plain.now)) result }
{
    match plain {
        [] => Err(CommandError::Usage { word: 0 }),
        [_, ..] => Ok(Command::Conditions(job(alloc, options, None, plain)?)),
    }
}

fn generate(plain: &[String]) -> Result<Command, CommandError>
    ensures { (options : List (List ℕ)) → Gives (read_plain Verb.Gen options (map string_bytes plain.now)) result }
{
    let [k, rest @ ..] = plain else {
        return Err(CommandError::Usage { word: 0 });
    };
    match size(k.as_bytes()) {
        None => Err(CommandError::Usage { word: 0 }),
        Some(size) => {
            if rest.is_empty() {
                Ok(Command::Gen(size))
            } else {
                Err(CommandError::Usage { word: 1 })
            }
        }
    }
}

/// The command that options and plain words make, or the first wrong one of the plain words.
pub(crate) fn make(
    alloc: Global,
    verb: Verb,
    options: &[String],
    plain: &[String],
) -> Result<Command, CommandError>
    ensures { Gives (read_plain verb (map string_bytes options.now) (map string_bytes plain.now)) result }
{
    match verb {
        Verb::Link => link(alloc, options, plain),
        Verb::Check => check(alloc, options, plain),
        Verb::Run => run(alloc, options, plain),
        Verb::Exec => exec(alloc, options, plain),
        Verb::Disasm => disasm(alloc, plain),
        Verb::Conditions => conditions(alloc, options, plain),
        Verb::Gen => generate(plain),
    }
}
