//! Conditions.
ghost use Rattle.std.specs.Prelude.{◌≡◌, ◌++◌, codes, OnOk, OnErr};
ghost use Rattle.bed_lang.specs.Lookups.{function_signature};
ghost use Rattle.bed_condition_text.specs.Texts.{assertion_text};
ghost use Rattle.bed_condition_text.specs.Lines.{labelled, goal_text, place_of, condition_text};

use crate::action::push_do_lines;
use crate::goal::push_goal;
use crate::leaf::{push_decimal, push_name};
use crate::list::Written;
use bed_lang::{Assertion, Cond, Decls, Name};
use std::alloc::{AllocError, Global};

/// Appends which condition it is.
fn push_place_of(
    alloc: Global,
    number: u32,
    function: &Name,
    line: u32,
    column: u32,
    out: &mut Vec<u8>,
) -> Result<(), AllocError>
    ensures { OnOk result (out.new.items ≡ out.old.items ++ place_of number function.now line column) }
{
    push_decimal(alloc, number, out)?;
    out.extend_from_slice(b": ")?;
    push_name(function, out)?;
    out.extend_from_slice(b" ")?;
    push_decimal(alloc, line, out)?;
    out.extend_from_slice(b":")?;
    push_decimal(alloc, column, out)
}

/// Appends the first line.
fn push_first(
    alloc: Global,
    number: u32,
    function: &Name,
    line: u32,
    column: u32,
    out: &mut Vec<u8>,
) -> Result<(), AllocError>
    ensures { OnOk result (out.new.items ≡ out.old.items ++ labelled (codes "condition ") (place_of number function.now line column)) }
{
    out.extend_from_slice(b"condition ")?;
    push_place_of(alloc, number, function, line, column, out)?;
    out.extend_from_slice(b"\n")
}

/// Appends the line of what holds at the start.
fn push_from(alloc: Global, start: &Assertion, out: &mut Vec<u8>) -> Result<(), AllocError>
    ensures { OnOk result (out.new.items ≡ out.old.items ++ labelled (codes "from ") (assertion_text start.now)) }
{
    out.extend_from_slice(b"from ")?;
    start.write(alloc, out)?;
    out.extend_from_slice(b"\n")
}

/// Appends the line of the goal.
fn push_to(alloc: Global, c: &Cond, decls: &Decls, out: &mut Vec<u8>) -> Result<(), AllocError>
    ensures { OnOk result (out.new.items ≡ out.old.items ++ labelled (codes "to ") (goal_text (function_signature decls.now c.now.function) c.now.goal)) }
{
    out.extend_from_slice(b"to ")?;
    push_goal(alloc, decls.function_signature(&c.function), &c.goal, out)?;
    out.extend_from_slice(b"\n")
}

/// Appends all lines.
fn push_lines(
    alloc: Global,
    number: u32,
    c: &Cond,
    decls: &Decls,
    line: u32,
    column: u32,
    out: &mut Vec<u8>,
) -> Result<(), AllocError>
    ensures { OnOk result (out.new.items ≡ out.old.items ++ condition_text number c.now decls.now line column) }
{
    push_first(alloc, number, &c.function, line, column, out)?;
    push_from(alloc, &c.start, out)?;
    push_do_lines(alloc, c.actions.as_slice(), out)?;
    push_to(alloc, c, decls, out)
}

/// Appends the text of a condition to `out`: its number, its function and its line and column in the module's text; what holds
/// at its start; each of its actions; and its goal, each on a line.
///
/// ```text
/// condition 1: seven 3:28
/// from emp
/// to return 7 meets [result = 8]
/// ```
///
/// # Errors
/// `AllocError` for want of memory: `out` is as it was.
pub fn print_cond(
    alloc: Global,
    number: u32,
    c: &Cond,
    decls: &Decls,
    line: u32,
    column: u32,
    out: &mut Vec<u8>,
) -> Result<(), AllocError>
    ensures printed { OnOk result (out.new.items ≡ out.old.items ++ condition_text number c.now decls.now line column) }
    ensures unchanged { OnErr result (out.new.items ≡ out.old.items) }
{
    let mut text = Vec::new(alloc);
    push_lines(alloc, number, c, decls, line, column, &mut text)?;
    out.extend_from_slice(text.as_slice())
}
