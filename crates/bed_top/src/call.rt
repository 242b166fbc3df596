//! The top call.
ghost use Rattle.std.specs.Prelude.{◌≡◌, ◌≤◌, ℕ, List, [], All, IsTrue, IsSome, length, map, string_bytes};
ghost use Rattle.bed_io.specs.Files.{GoesOn};
ghost use Rattle.bed_top.specs.Causes.{Asks};
ghost use Rattle.bed_top.specs.Files.{KeepsCalm, Leaves, SameCounts};
ghost use Rattle.bed_top.specs.Gives.{end_of, texts_of};
ghost use Rattle.bed_top.specs.Lines.{read_fault_line, text_of};
ghost use Rattle.bed_top.specs.Outcomes.{owed_of, Acts, GivesUp, IsLine, IsStopped};
ghost use Rattle.bed_top.specs.Promises.{Complete, Exactly, Faults, Headline, Ran, Words, Worked};
ghost use Rattle.bed_top.specs.Puts.{Pays, SinkGoesOn};

use crate::asked::asked;
use crate::files::write_all;
use crate::judge::judge;
use crate::line::Line;
use crate::plan::{Fault, Plan, Stop};
use crate::report::{put_memory, report};
use crate::stages::file_name;
use crate::status::Status;
use crate::texts::read_texts;
use bed_io::{FileRefusal, Files, Host, Sink};
use bed_lang::List;
use bed_words::Job;
use std::alloc::Global;

/// What the work comes to.
#[derive(Drop)]
pub(crate) enum Outcome {
    Ended { status: Status, lines: Vec<Line> },
    Memory,
}

fn one_line(alloc: Global, status: Status, line: Line) -> Outcome
    ensures { IsLine (owed_of result) status (text_of line) }
{
    let mut lines = Vec::new(alloc);
    if lines.push(line).is_err() {
        return Outcome::Memory;
    }
    Outcome::Ended { status, lines }
}

/// What a refusal comes to.
fn refused(alloc: Global, stop: Stop) -> Outcome
    ensures { IsStopped stop (owed_of result) }
{
    match stop {
        Stop::Refused { status, line } => one_line(alloc, status, line),
        Stop::Memory => Outcome::Memory,
    }
}

/// What a fault of the files comes to.
fn give_up(alloc: Global, status: Status, fault: Fault) -> Outcome
    ensures { GivesUp status fault (owed_of result) }
{
    match fault {
        Fault::Failed(line) => one_line(alloc, status, line),
        Fault::Memory => Outcome::Memory,
    }
}

/// What the failed read of this file comes to.
fn unread(alloc: Global, name: &[u8]) -> Outcome
    ensures { IsLine (owed_of result) Status.ReadFault (read_fault_line name.now) }
{
    match List::from_slice(alloc, name) {
        Ok(name) => one_line(alloc, Status::ReadFault, Line::ReadFault(name)),
        Err(_) => Outcome::Memory,
    }
}

/// Makes the writes of a plan.
fn act<F: Files>(alloc: Global, plan: Plan, files: &mut F) -> Outcome
    ensures acts { Acts (end_of plan) (F.seen files.old) (F.seen files.new) (owed_of result) }
    ensures goes_on { GoesOn (F.seen files.old) (F.seen files.new) }
    ensures reads_stay { (F.seen files.new).read_faults ≡ (F.seen files.old).read_faults }
    ensures stays_calm { IsTrue (F.seen files.old).calm → (F.seen files.new).write_faults ≡ (F.seen files.old).write_faults }
{
    let Plan {
        status,
        writes,
        lines,
    } = plan;
    match write_all(alloc, files, &writes) {
        Ok(()) => Outcome::Ended { status, lines },
        Err(fault) => give_up(alloc, Status::WriteFault { sink: false }, fault),
    }
}

/// Reads the texts of a link, judges them, and makes the writes.
fn work<F: Files>(alloc: Global, job: &Job, files: &mut F, texts: &mut Vec<Vec<u8>>) -> Outcome
    requires some { 1 ≤ length job.now.modules }
    requires few { length job.now.modules ≤ 64 }
    requires none { texts.old.items ≡ [] }
    ensures worked { (words : List (List ℕ)) → Asks words job.now → Worked words (texts_of texts.new.items) (F.seen files.old) (F.seen files.new) (owed_of result) }
    ensures goes_on { GoesOn (F.seen files.old) (F.seen files.new) }
    ensures calm { IsTrue (F.seen files.old).tells → IsTrue (F.seen files.old).calm → All (λ file. IsSome ((F.seen files.old).held file)) job.now.modules → SameCounts (F.seen files.old) (F.seen files.new) }
{
    match read_texts(alloc, files, job.modules.as_slice(), texts) {
        Ok(()) => match judge(alloc, job, texts) {
            Ok(plan) => act(alloc, plan, files),
            Err(stop) => refused(alloc, stop),
        },
        Err(FileRefusal::Failed) => unread(alloc, file_name(job, texts.len())),
        Err(FileRefusal::Memory) => Outcome::Memory,
    }
}

/// Puts what is owed.
fn pay<K: Sink>(alloc: Global, outcome: Outcome, out: &mut K) -> Status
    ensures pays { Pays (owed_of outcome) (K.seen out.old) (K.seen out.new) result }
    ensures goes_on { SinkGoesOn (K.seen out.old) (K.seen out.new) }
{
    match outcome {
        Outcome::Ended { status, lines } => report(alloc, &lines, status, out),
        Outcome::Memory => put_memory(out),
    }
}

/// Does the work, and puts its lines.
fn run<F: Files, K: Sink>(alloc: Global, words: &[String], files: &mut F, out: &mut K) -> Status
    ensures { Ran (map string_bytes words.now) (F.seen files.old) (F.seen files.new) (K.seen out.old) (K.seen out.new) result }
{
    match asked(alloc, words) {
        Ok(job) => {
            let mut texts = Vec::new(alloc);
            let outcome = work(alloc, &job, files, &mut texts);
            pay(alloc, outcome, out)
        }
        Err(stop) => pay(alloc, refused(alloc, stop), out),
    }
}

/// Does what the words ask, over these files, and puts one line on the sink.
///
/// The command that is built is `link OUT FILE`: the module whose text is in FILE is read, its
/// names and its conditions are judged, and where they hold the image is written to OUT. Other
/// commands, options and modules are answered by their own refusals first, and then as not built.
///
/// `ran` is the whole: what was read, what the work came to, and what was put. The other clauses
/// are read off it: what a link that is done promises, which answer is due and that there is one,
/// when a link is done, when words are refused and faults come, and which files and counts are as
/// before. Each host's log may have at most 1,000,000,000 entries.
pub fn top<F: Files, K: Sink>(
    alloc: Global,
    words: &[String],
    files: &mut F,
    out: &mut K,
    hosts: Vec<Box<dyn Host>>,
) -> Status
    requires { All (λ h. length ((⟦<dyn Host as Host>⟧ h.vtable).seen h.value).log ≤ 1000000000) hosts.items }
    ensures ran { Ran (map string_bytes words.now) (F.seen files.old) (F.seen files.new) (K.seen out.old) (K.seen out.new) result }
    ensures headline { Headline (map string_bytes words.now) (F.seen files.old) (F.seen files.new) result }
    ensures exact { Exactly (map string_bytes words.now) (F.seen files.old) (F.seen files.new) (K.seen out.old) (K.seen out.new) result }
    ensures complete { Complete (map string_bytes words.now) (F.seen files.old) (F.seen files.new) (K.seen out.old) (K.seen out.new) result }
    ensures words { Words (map string_bytes words.now) result }
    ensures faults { Faults (F.seen files.old) (F.seen files.new) (K.seen out.old) (K.seen out.new) result }
    ensures leaves { Leaves (map string_bytes words.now) (F.seen files.old) (F.seen files.new) result }
    ensures calm { KeepsCalm (map string_bytes words.now) (F.seen files.old) (F.seen files.new) }
{
    run(alloc, words, files, out)
}
