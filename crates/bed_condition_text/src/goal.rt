//! Goals.
ghost use Rattle.std.specs.Prelude.{◌≡◌, ◌++◌, codes, OnOk};
ghost use Rattle.std.specs.Option.{option_copied};
ghost use Rattle.bed_condition_text.specs.Texts.{assertion_text};
ghost use Rattle.bed_condition_text.specs.Lines.{via_text, target_text, post_text, goal_text};

use crate::leaf::push_name;
use crate::list::{Written, push_listed};
use crate::operand::push_operand;
use bed_lang::{Assertion, Goal, Name, Operand, Signature};
use std::alloc::{AllocError, Global};

/// Appends the name of the signature by which a variable is called.
fn push_via(via: &Option<Name>, out: &mut Vec<u8>) -> Result<(), AllocError>
    ensures { OnOk result (out.new.items ≡ out.old.items ++ via_text via.now) }
{
    match via {
        None => Ok(()),
        Some(name) => {
            out.extend_from_slice(b" via ")?;
            push_name(name, out)
        }
    }
}

/// Appends what is called, with its arguments.
fn push_target(
    alloc: Global,
    target: &Operand,
    via: &Option<Name>,
    args: &[Operand],
    out: &mut Vec<u8>,
) -> Result<(), AllocError>
    ensures { OnOk result (out.new.items ≡ out.old.items ++ target_text target.now via.now args.now) }
{
    push_operand(alloc, target, out)?;
    push_via(via, out)?;
    out.extend_from_slice(b"(")?;
    push_listed(alloc, args, out)?;
    out.extend_from_slice(b")")
}

/// Appends a call with what holds after it.
fn push_call(
    alloc: Global,
    target: &Operand,
    via: &Option<Name>,
    args: &[Operand],
    after: &Assertion,
    out: &mut Vec<u8>,
) -> Result<(), AllocError>
    ensures { OnOk result (out.new.items ≡ out.old.items ++ (codes "call " ++ (target_text target.now via.now args.now ++ (codes " after " ++ assertion_text after.now)))) }
{
    out.extend_from_slice(b"call ")?;
    push_target(alloc, target, via, args, out)?;
    out.extend_from_slice(b" after ")?;
    after.write(alloc, out)
}

/// Appends the postcondition of a signature, where there is one.
fn push_post(
    alloc: Global,
    signature: Option<&Signature>,
    out: &mut Vec<u8>,
) -> Result<(), AllocError>
    ensures { OnOk result (out.new.items ≡ out.old.items ++ post_text (option_copied signature.entry)) }
{
    match signature {
        None => Ok(()),
        Some(signature) => signature.post.write(alloc, out),
    }
}

/// Appends the goal of a function with this signature.
pub(crate) fn push_goal(
    alloc: Global,
    signature: Option<&Signature>,
    goal: &Goal,
    out: &mut Vec<u8>,
) -> Result<(), AllocError>
    ensures { OnOk result (out.new.items ≡ out.old.items ++ goal_text (option_copied signature.entry) goal.now) }
{
    match goal {
        Goal::Meets(assertion) => assertion.write(alloc, out),
        Goal::Calls {
            target,
            via,
            args,
            into: _,
            after,
        } => push_call(alloc, target, via, args.as_slice(), after, out),
        Goal::Returns(operand) => {
            out.extend_from_slice(b"return ")?;
            push_operand(alloc, operand, out)?;
            out.extend_from_slice(b" meets ")?;
            push_post(alloc, signature, out)
        }
    }
}
