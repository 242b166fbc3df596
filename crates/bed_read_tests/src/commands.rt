//! Words, and the command that they are.
use bed_lang::{List, Name, Text};
use bed_words::{Command, Job, Start, read_command};
use std::alloc::{AllocError, Global};
use std::test::Fail;

/// The parts of a job: the base, the imports, the files of the proof read and written, of the image and of the modules.
struct WantedJob {
    base: u32,
    imports: &'static [(&'static str, u32)],
    proof: &'static str,
    write_proof: &'static str,
    out: &'static str,
    modules: &'static [&'static str],
}

/// The parts of a start: steps, stack, arguments, trace, words, block and function.
struct WantedStart {
    steps: u32,
    stack: u32,
    args: &'static [u32],
    trace: u32,
    words: u32,
    block: Option<(u32, u32)>,
    function: &'static str,
}

/// A line of words and the job that it asks for, where it has one.
const JOBS: [(&str, WantedJob); 8] = [
    (
        "link o a b",
        WantedJob {
            base: 4194304,
            imports: &[],
            proof: "",
            write_proof: "",
            out: "o",
            modules: &["a", "b"],
        },
    ),
    (
        "link o --base",
        WantedJob {
            base: 4194304,
            imports: &[],
            proof: "",
            write_proof: "",
            out: "o",
            modules: &["--base"],
        },
    ),
    (
        "link --base 0x00FFffffff o m",
        WantedJob {
            base: 4294967295,
            imports: &[],
            proof: "",
            write_proof: "",
            out: "o",
            modules: &["m"],
        },
    ),
    (
        "link --proof --base -o m",
        WantedJob {
            base: 4194304,
            imports: &[],
            proof: "--base",
            write_proof: "",
            out: "-o",
            modules: &["m"],
        },
    ),
    (
        "link --import say=0x1000 --write-proof p --import b_2=7 --base 0x10 o m",
        WantedJob {
            base: 16,
            imports: &[("say", 4096), ("b_2", 7)],
            proof: "",
            write_proof: "p",
            out: "o",
            modules: &["m"],
        },
    ),
    (
        "check --proof p m",
        WantedJob {
            base: 4194304,
            imports: &[],
            proof: "p",
            write_proof: "",
            out: "",
            modules: &["m"],
        },
    ),
    (
        "run --arg 1 --steps 20 --arg 0x2 --stack 0xFFFFFFF8 --trace 3 --base 1 --import a=1 --proof p f m n",
        WantedJob {
            base: 1,
            imports: &[("a", 1)],
            proof: "p",
            write_proof: "",
            out: "",
            modules: &["m", "n"],
        },
    ),
    (
        "conditions a b",
        WantedJob {
            base: 4194304,
            imports: &[],
            proof: "",
            write_proof: "",
            out: "",
            modules: &["a", "b"],
        },
    ),
];

/// A line of words and how it starts a function.
const STARTS: [(&str, WantedStart); 4] = [
    (
        "run --steps 5 seven seven.bed",
        WantedStart {
            steps: 5,
            stack: 2147483648,
            args: &[],
            trace: 0,
            words: 64,
            block: None,
            function: "seven",
        },
    ),
    (
        "run --arg 1 --steps 20 --arg 0x2 --stack 0xFFFFFFF8 --trace 3 --base 1 --import a=1 --proof p f m n",
        WantedStart {
            steps: 20,
            stack: 4294967288,
            args: &[1, 2],
            trace: 3,
            words: 64,
            block: None,
            function: "f",
        },
    ),
    (
        "exec --steps 100 --arg 0 --arg 5 m.img look",
        WantedStart {
            steps: 100,
            stack: 2147483648,
            args: &[0, 5],
            trace: 0,
            words: 64,
            block: None,
            function: "look",
        },
    ),
    (
        "exec --words 9 --block 0x20,7 --trace 1 --stack 8 --steps 0 i --f",
        WantedStart {
            steps: 0,
            stack: 8,
            args: &[],
            trace: 1,
            words: 9,
            block: Some((32, 7)),
            function: "--f",
        },
    ),
];

fn words_of(alloc: Global, line: &str) -> Result<Vec<String>, AllocError> {
    let mut words = Vec::new(alloc);
    for word in line.split(' ') {
        words.push(String::from_str(alloc, word)?)?;
    }
    Ok(words)
}

fn command_of(alloc: Global, line: &str) -> Result<Option<Command>, AllocError> {
    let words = words_of(alloc, line)?;
    if words.len() > 1000 {
        return Ok(None);
    }
    Ok(read_command(alloc, words.as_slice()).ok())
}

/// The file of an option; none for an empty name.
fn is_file(file: &Option<Text>, wanted: &str) -> bool {
    match file {
        Some(name) => name.as_slice() == wanted.as_bytes(),
        None => wanted.is_empty(),
    }
}

fn are_imports(imports: &[(Name, u32)], wanted: &[(&'static str, u32)]) -> bool {
    imports.len() == wanted.len()
        && imports.iter().zip(wanted.iter()).all(|(import, w)| import.0.bytes.as_slice()
            == w.0.as_bytes()
            && import.1 == w.1)
}

fn are_files(files: &[Text], wanted: &[&'static str]) -> bool {
    files.len() == wanted.len()
        && files
            .iter()
            .zip(wanted.iter())
            .all(|(file, w)| file.as_slice() == w.as_bytes())
}

fn is_job(job: &Job, wanted: &WantedJob) -> bool {
    job.base == wanted.base
        && are_imports(job.imports.as_slice(), wanted.imports)
        && is_file(&job.proof, wanted.proof)
        && is_file(&job.write_proof, wanted.write_proof)
        && is_file(&job.out, wanted.out)
        && are_files(job.modules.as_slice(), wanted.modules)
}

fn is_start(start: &Start, wanted: &WantedStart) -> bool {
    start.steps == wanted.steps
        && start.stack == wanted.stack
        && start.args.as_slice() == wanted.args
        && start.trace == wanted.trace
        && start.words == wanted.words
        && start.block == wanted.block
        && start.function.bytes.as_slice() == wanted.function.as_bytes()
}

fn has_job(command: &Command, wanted: &WantedJob) -> bool {
    match command {
        Command::Link(job)
        | Command::Check(job)
        | Command::Conditions(job)
        | Command::Run(job, _) => is_job(job, wanted),
        _ => false,
    }
}

fn has_start(command: &Command, wanted: &WantedStart) -> bool {
    match command {
        Command::Run(_, start) | Command::Exec(_, start) => is_start(start, wanted),
        _ => false,
    }
}

fn asks_for(alloc: Global, line: &str, wanted: &WantedJob) -> Result<bool, AllocError> {
    match command_of(alloc, line)? {
        Some(command) => Ok(has_job(&command, wanted)),
        None => Ok(false),
    }
}

fn starts(alloc: Global, line: &str, wanted: &WantedStart) -> Result<bool, AllocError> {
    match command_of(alloc, line)? {
        Some(command) => Ok(has_start(&command, wanted)),
        None => Ok(false),
    }
}

fn all_as_wanted(alloc: Global) -> Result<bool, AllocError> {
    for (line, wanted) in &JOBS {
        if !asks_for(alloc, line, wanted)? {
            return Ok(false);
        }
    }
    for (line, wanted) in &STARTS {
        if !starts(alloc, line, wanted)? {
            return Ok(false);
        }
    }
    Ok(true)
}

#[test]
fn words_are_their_commands(rt: HostRuntime) -> Result<(), Fail> {
    assert!(rt; all_as_wanted(rt.alloc())?);
    Ok(())
}
