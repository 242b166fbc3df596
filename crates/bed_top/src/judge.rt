//! The judgement of a link: what is due by its texts.
ghost use Rattle.std.specs.Prelude.{◌≡◌, ◌<◌, ◌≤◌, ◌^◌, ℕ, List, length, true, None, IfOk};
ghost use Rattle.bed_top.specs.Files.{out_file};
ghost use Rattle.bed_table.specs.Layout as layout;
ghost use Rattle.bed_top.specs.Gives.{as_one, end_of, texts_of, written_of, Judged};
ghost use Rattle.bed_top.specs.Lines.{text_of};
ghost use Rattle.bed_top.specs.Outcomes.{AreCut};
ghost use Rattle.bed_top.specs.Returns.{broken_condition, module_is_built};
ghost use Rattle.bed_top.specs.Views.{view, View};
ghost use Rattle.bed_top.specs.Work.{done_with, image_write, link_end};

use crate::line::Line;
use crate::plan::{Plan, Stop, Write};
use crate::stages::linking_part;
use crate::status::Status;
use bed_lang::{List, Module};
use bed_table::{code_length, image};
use bed_words::Job;
use std::alloc::{AllocError, Global};

/// The address of an image's first byte.
const BASE: u32 = 0x0040_0000;

/// The file that the image goes to.
fn out_name(job: &Job) -> &[u8]
    ensures { result.now ≡ out_file job.now }
{
    match &job.out {
        Some(name) => name.as_slice(),
        None => &[],
    }
}

/// The write of the image.
fn link_write(alloc: Global, job: &Job, modules: &[Module]) -> Result<Write, AllocError>
    requires short { layout.code_length modules.now ≤ 1048576 }
    ensures { IfOk result (λ w. written_of w ≡ image_write job.now modules.now) }
{
    let bytes = image(alloc, modules, BASE, &[])?;
    let name = List::from_slice(alloc, out_name(job))?;
    Ok(Write { name, bytes })
}

/// A plan of one write and one line.
fn plan_of(alloc: Global, write: Write, line: Line) -> Result<Plan, AllocError>
    ensures { IfOk result (λ p. end_of p ≡ done_with (written_of write) (text_of line)) }
{
    let mut lines = Vec::new(alloc);
    lines.push(line)?;
    let mut writes = Vec::new(alloc);
    writes.push(write)?;
    Ok(Plan {
        status: Status::Done,
        writes,
        lines,
    })
}

/// The write of the image and the line of a link that is done.
fn plan_link(alloc: Global, job: &Job, linked: Module) -> Result<Plan, AllocError>
    requires built { module_is_built linked ≡ true }
    requires kept { broken_condition linked ≡ None }
    requires few { length linked.functions ≤ 1024 }
    ensures { IfOk result (λ p. (v : View) → end_of p ≡ link_end v (as_one job.now linked)) }
{
    let functions = linked.functions.len() as u64;
    let modules = [linked];
    let bytes = code_length(&modules);
    let write = link_write(alloc, job, &modules)?;
    let line = Line::Linked {
        modules: 1,
        functions,
        bytes,
    };
    plan_of(alloc, write, line)
}

/// What is due.
pub(crate) fn judge(alloc: Global, job: &Job, texts: &[Vec<u8>]) -> Result<Plan, Stop>
    requires some { 1 ≤ length texts.now }
    requires few { length texts.now < 2 ^ 32 }
    requires cut { AreCut (texts_of texts.now) }
    ensures { (words : List (List ℕ)) → Judged job.now (view words (texts_of texts.now)) result }
{
    let linked = linking_part(alloc, job, texts)?;
    Ok(plan_link(alloc, job, linked)?)
}
