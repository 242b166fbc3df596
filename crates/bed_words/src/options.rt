//! The options of the commands.
ghost use Rattle.std.specs.Prelude.{◌≡◌, ◌≤◌, codes, map, length, take, drop, string_bytes, IfOk, IfErr, Err, [], Option, option_and_then};
ghost use Rattle.std.specs.List.{filter_map};
ghost use Rattle.std.specs.Option.{option_copied};
ghost use Rattle.bed_words.specs.Values.{number_of, import_of, block_of};
ghost use Rattle.bed_words.specs.Options.{is_option, takes, required, repeats, names_file, fits, times, is_given};
ghost use Rattle.bed_words.specs.Commands.{value_of, values_of, given_number, imports_of, arguments_of};
ghost use Rattle.bed_words.specs.Reading.{may_come, lacks, read_options, read_files, later};

use crate::values::{block, import, is_import, number};
use crate::verb::Verb;
use bed_lang::{List, Name, Text};
use std::alloc::{AllocError, Global};

fn option(word: &str) -> bool
    ensures { result ≡ is_option word.now }
{
    word.as_bytes().starts_with(b"--")
}

/// Whether a command takes an option.
fn takes_option(verb: Verb, o: &str) -> bool
    ensures { result ≡ takes verb o.now }
{
    match verb {
        Verb::Link => o == "--base" || o == "--import" || o == "--proof" || o == "--write-proof",
        Verb::Check => o == "--proof",
        Verb::Run => {
            o == "--steps"
                || o == "--base"
                || o == "--import"
                || o == "--proof"
                || o == "--arg"
                || o == "--stack"
                || o == "--trace"
        }
        Verb::Exec => {
            o == "--steps"
                || o == "--arg"
                || o == "--stack"
                || o == "--words"
                || o == "--block"
                || o == "--trace"
        }
        Verb::Disasm | Verb::Conditions | Verb::Gen => false,
    }
}

/// Whether an option may have this value.
fn value_fits(o: &str, value: &[u8]) -> bool
    ensures { result ≡ fits o.now value.now }
{
    if o == "--import" {
        return is_import(value);
    }
    if o == "--block" {
        return block(value).is_some();
    }
    o == "--proof" || o == "--write-proof" || number(value).is_some()
}

/// Whether an option stands among options with their values.
fn given(name: &str, options: &[String]) -> bool
    ensures { result ≡ is_given name.now (map string_bytes options.now) }
{
    let mut rest = options;
    while let [option, _, after @ ..] = rest {
        if option.as_str() == name {
            return true;
        }
        rest = after;
    }
    false
}

/// Whether an option may come after these options.
fn may_follow(verb: Verb, before: &[String], o: &str) -> bool
    ensures { result ≡ may_come verb (map string_bytes before.now) o.now }
{
    takes_option(verb, o) && (o == "--import" || o == "--arg" || !given(o, before))
}

/// Whether the option that the command must have is missing.
pub(crate) fn lacks_required(verb: Verb, options: &[String]) -> bool
    ensures { result ≡ lacks verb (map string_bytes options.now) }
{
    match verb {
        Verb::Check => !given("--proof", options),
        Verb::Run | Verb::Exec => !given("--steps", options),
        Verb::Link | Verb::Disasm | Verb::Conditions | Verb::Gen => false,
    }
}

/// The number of words that the options and their values are, or of the first wrong word among
/// them.
pub(crate) fn count_options(verb: Verb, words: &[String]) -> Result<usize, usize>
    ensures within { IfOk result (λ n. n ≤ length words.now) }
    ensures wrong_within { IfErr result (λ i. i ≤ length words.now) }
    ensures counted { IfOk result (λ n. read_options verb [] (map string_bytes words.now)
        ≡ later n (read_files verb (take n (map string_bytes words.now)) (drop n (map string_bytes words.now)))) }
    ensures wrong { IfErr result (λ i. read_options verb [] (map string_bytes words.now) ≡ Err i) }
{
    let mut place = 0;
    loop {
        let before = &words[..place];
        let rest = &words[place..];
        let [o, values @ ..] = rest else {
            return Ok(place);
        };
        if !option(o.as_str()) {
            return Ok(place);
        }
        if !may_follow(verb, before, o.as_str()) {
            return Err(place);
        }
        let [value, ..] = values else {
            return Err(place + 1);
        };
        if !value_fits(o.as_str(), value.as_bytes()) {
            return Err(place + 1);
        }
        place += 2;
    }
}

/// The first value of an option.
fn value<'a>(name: &str, options: &'a [String]) -> Option<&'a [u8]>
    ensures { option_copied result ≡ value_of name.now (map string_bytes options.now) }
{
    let mut rest = options;
    while let [option, value, after @ ..] = rest {
        if option.as_str() == name {
            return Some(value.as_bytes());
        }
        rest = after;
    }
    None
}

/// The number that an option gives.
pub(crate) fn number_given(name: &str, options: &[String]) -> Option<u32>
    ensures { result ≡ given_number name.now (map string_bytes options.now) }
{
    number(value(name, options)?)
}

/// The block that `--block` gives.
pub(crate) fn block_given(options: &[String]) -> Option<(u32, u32)>
    ensures { result ≡ option_and_then block_of (value_of (codes "--block") (map string_bytes options.now)) }
{
    block(value("--block", options)?)
}

/// The file that an option gives.
pub(crate) fn file_given(
    alloc: Global,
    name: &str,
    options: &[String],
) -> Result<Option<Text>, AllocError>
    ensures { IfOk result (λ file. file ≡ value_of name.now (map string_bytes options.now)) }
{
    match value(name, options) {
        None => Ok(None),
        Some(file) => Ok(Some(List::from_slice(alloc, file)?)),
    }
}

/// The imports that `--import` gives, in order.
pub(crate) fn imports_given(
    alloc: Global,
    options: &[String],
) -> Result<List<(Name, u32)>, AllocError>
    ensures { IfOk result (λ imports. imports ≡ imports_of (map string_bytes options.now)) }
{
    let mut imports = List::new(alloc);
    let mut rest = options;
    while let [option, value, after @ ..] = rest {
        if option.as_str() == "--import" {
            if let Some(found) = import(alloc, value.as_bytes())? {
                imports.push(found)?;
            }
        }
        rest = after;
    }
    Ok(imports)
}

/// The arguments that `--arg` gives, in order.
pub(crate) fn arguments_given(alloc: Global, options: &[String]) -> Result<List<u32>, AllocError>
    ensures { IfOk result (λ arguments. arguments ≡ arguments_of (map string_bytes options.now)) }
{
    let mut arguments = List::new(alloc);
    let mut rest = options;
    while let [option, value, after @ ..] = rest {
        if option.as_str() == "--arg" {
            if let Some(found) = number(value.as_bytes()) {
                arguments.push(found)?;
            }
        }
        rest = after;
    }
    Ok(arguments)
}
