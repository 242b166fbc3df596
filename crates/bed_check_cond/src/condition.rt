//! The check of a whole condition.
ghost use Rattle.std.specs.Prelude.{◌<◌, IsTrue, OnOk};
ghost use Rattle.bed_sat.specs.Valid.{IsValid};
ghost use Rattle.bed_deriv.specs.Fresh.{AreUnfresh, unfresh_condition, condition_size};
ghost use Rattle.bed_check_pure.specs.Answers.{Answers};
ghost use Rattle.bed_deriv.specs.Derives.{checked};

use crate::point::{Ahead, Aim, Point};
use crate::rests::rest_walked;
use bed_check_pure::Verdict;
use bed_deriv::{Deriv, start};
use bed_lang::{Cond, Decls};
use std::alloc::Global;

fn checked_tree<'a>(alloc: Global, decls: &Decls, c: &'a Cond, d: &'a Deriv) -> Result<(), Verdict>
    requires sizes { condition_size c.now < 4294967295 }
    requires condition { IsTrue (unfresh_condition c.now) }
    requires declarations { AreUnfresh decls.now }
    ensures { Answers result (checked decls.now c.now d.now) }
{
    let Ok(state) = start(alloc, c, decls) else {
        return Err(Verdict::Memory);
    };
    let ahead = Ahead {
        actions: c.actions.as_slice(),
        aim: Aim::Whole(&c.goal),
    };
    let point = Point { state, ahead };
    match rest_walked(alloc, decls, &c.function, &point, d) {
        Err(verdict) => Err(verdict),
        Ok(_) => Ok(()),
    }
}

/// Checks a derivation of a condition, against these declarations.
///
/// # Errors
/// `Reject` exactly where some node is no instance of its rule: the first in preorder from 1, with its first
/// failing premise. `Memory` for want of memory, and where the tree has 4294967295 nodes or more.
pub fn check<'a>(alloc: Global, decls: &Decls, c: &'a Cond, d: &'a Deriv) -> Result<(), Verdict>
    requires sizes { condition_size c.now < 4294967295 }
    requires condition { IsTrue (unfresh_condition c.now) }
    requires declarations { AreUnfresh decls.now }
    ensures exact { Answers result (checked decls.now c.now d.now) }
    ensures sound { OnOk result (IsValid decls.now c.now) }
{
    checked_tree(alloc, decls, c, d)
}
