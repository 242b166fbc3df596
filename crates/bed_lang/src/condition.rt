//! Declarations, and the conditions that a module owes.
ghost use Rattle.std.specs.Option.{option_copied};
ghost use Rattle.std.specs.Prelude.{◌≡◌, IfOk};
ghost use Rattle.bed_lang.specs.Lookups.{function_signature, label_signature, signature_named};
ghost use Rattle.bed_lang.specs.Same.{same_decls, same_goal, same_placed, same_cond};

use crate::logic::Assertion;
use crate::module::{Action, Hint, Operand, Predicate, Signature};
use crate::tree::{Tree, both, four, same_flags, three};
use crate::word::Name;
use sqlite_items::Items as List;
use std::alloc::{AllocError, Global};

/// What the assertions of a module may name.
#[derive(Drop)]
pub struct Decls {
    pub signatures: List<Signature>,
    pub predicates: List<Predicate>,
    /// Each import and function with the name of its signature.
    pub labels: List<(Name, Name)>,
}

/// What holds at the end of a path.
#[derive(Drop)]
pub enum Goal {
    /// The assertion holds.
    Meets(Assertion),
    /// The callee may be called, and what it promises gives `after`.
    Calls {
        target: Operand,
        via: Option<Name>,
        args: List<Operand>,
        into: Name,
        after: Assertion,
    },
    /// The postcondition holds with this operand as `result`.
    Returns(Operand),
}

/// A hint with its place on a path.
#[derive(Drop)]
pub struct Placed {
    /// The number, from 0, of the action that follows the hint; the number of actions for the
    /// goal, and one more for the hints `using` of a call.
    pub before: u32,
    pub hint: Hint,
}

/// One path of a function, from an annotated point to a goal.
#[derive(Drop)]
pub struct Cond {
    pub module: Name,
    pub function: Name,
    /// The place of the condition in the module's text.
    pub at: u32,
    /// The function's locals in the order of their slots, the arguments first.
    pub locals: List<Name>,
    /// Whether the path starts at the function's entry.
    pub entry: bool,
    /// What holds at the start.
    pub start: Assertion,
    pub actions: List<Action>,
    pub goal: Goal,
    pub hints: List<Placed>,
}

impl Decls {
    /// The signature of a name: of several that are declared the first.
    pub fn signature(&self, name: &Name) -> Option<&Signature>
        ensures { option_copied result ≡ signature_named self.now name.now.bytes }
    {
        self.signatures
            .as_slice()
            .iter()
            .find(|s| s.name.same(name))
    }

    /// The name of the signature of an import or a function.
    pub fn label(&self, label: &Name) -> Option<&Name>
        ensures { option_copied result ≡ label_signature self.now label.now.bytes }
    {
        match self.labels.as_slice().iter().find(|l| l.0.same(label)) {
            None => None,
            Some(found) => Some(&found.1),
        }
    }

    /// The signature of an import or a function, where both are declared.
    pub fn function_signature(&self, label: &Name) -> Option<&Signature>
        ensures { option_copied result ≡ function_signature self.now label.now }
    {
        match self.label(label) {
            None => None,
            Some(name) => self.signature(name),
        }
    }

    /// A copy, equal to the original.
    ///
    /// # Errors
    /// `AllocError` for want of memory.
    pub fn copy(&self, alloc: Global) -> Result<Decls, AllocError>
        ensures { IfOk result (λ r. r ≡ self.now) }
    {
        Ok(Decls {
            signatures: self.signatures.copied(alloc)?,
            predicates: self.predicates.copied(alloc)?,
            labels: self.labels.copied(alloc)?,
        })
    }

    /// Whether the two are the same, wherever they and their parts stand.
    pub fn same(&self, other: &Decls) -> bool
        ensures { result ≡ same_decls self.now other.now }
    {
        self.signatures.same_as(&other.signatures)
            && self.predicates.same_as(&other.predicates)
            && self.labels.same_as(&other.labels)
    }
}

fn copy_call(
    alloc: Global,
    target: &Operand,
    via: &Option<Name>,
    args: &List<Operand>,
    into: &Name,
    after: &Assertion,
) -> Result<Goal, AllocError>
    ensures { IfOk result (λ r. r ≡ Goal.Calls target.now via.now args.now into.now after.now) }
{
    let heads = three(alloc, target, via, args)?;
    let (into, after) = both(alloc, into, after)?;
    let (target, via, args) = heads;
    Ok(Goal::Calls {
        target,
        via,
        args,
        into,
        after,
    })
}

impl Goal {
    /// A copy, equal to the original.
    ///
    /// # Errors
    /// `AllocError` for want of memory.
    pub fn copy(&self, alloc: Global) -> Result<Goal, AllocError>
        ensures { IfOk result (λ r. r ≡ self.now) }
    {
        match self {
            Goal::Meets(a) => Ok(Goal::Meets(a.copy(alloc)?)),
            Goal::Calls {
                target,
                via,
                args,
                into,
                after,
            } => copy_call(alloc, target, via, args, into, after),
            Goal::Returns(a) => Ok(Goal::Returns(a.copy(alloc)?)),
        }
    }

    /// Whether the two are the same, wherever they and their parts stand.
    pub fn same(&self, other: &Goal) -> bool
        ensures { result ≡ same_goal self.now other.now }
    {
        match (self, other) {
            (Goal::Meets(a), Goal::Meets(b)) => a.same(b),
            (
                Goal::Calls {
                    target: t,
                    via: v,
                    args: xs,
                    into: x,
                    after: a,
                },
                Goal::Calls {
                    target: u,
                    via: w,
                    args: ys,
                    into: y,
                    after: b,
                },
            ) => t.same(u) && v.same_as(w) && xs.same_as(ys) && x.same(y) && a.same(b),
            (Goal::Returns(a), Goal::Returns(b)) => a.same(b),
            _ => false,
        }
    }
}

impl Placed {
    /// A copy, equal to the original.
    ///
    /// # Errors
    /// `AllocError` for want of memory.
    pub fn copy(&self, alloc: Global) -> Result<Placed, AllocError>
        ensures { IfOk result (λ r. r ≡ self.now) }
    {
        Ok(Placed {
            before: self.before,
            hint: self.hint.copy(alloc)?,
        })
    }

    /// Whether the two are the same, wherever they and their parts stand.
    pub fn same(&self, other: &Placed) -> bool
        ensures { result ≡ same_placed self.now other.now }
    {
        self.before == other.before && self.hint.same(&other.hint)
    }
}

impl Cond {
    /// A copy, equal to the original.
    ///
    /// # Errors
    /// `AllocError` for want of memory.
    pub fn copy(&self, alloc: Global) -> Result<Cond, AllocError>
        ensures { IfOk result (λ r. r ≡ self.now) }
    {
        let heads = three(alloc, &self.module, &self.function, &self.locals)?;
        let rest = four(alloc, &self.start, &self.actions, &self.goal, &self.hints)?;
        let (module, function, locals) = heads;
        let ((start, actions), (goal, hints)) = rest;
        Ok(Cond {
            module,
            function,
            at: self.at,
            locals,
            entry: self.entry,
            start,
            actions,
            goal,
            hints,
        })
    }

    /// Whether the two are the same, wherever they and their parts stand.
    pub fn same(&self, other: &Cond) -> bool
        ensures { result ≡ same_cond self.now other.now }
    {
        self.module.same(&other.module)
            && self.function.same(&other.function)
            && self.locals.same_as(&other.locals)
            && same_flags(self.entry, other.entry)
            && self.start.same(&other.start)
            && self.actions.same_as(&other.actions)
            && self.goal.same(&other.goal)
            && self.hints.same_as(&other.hints)
    }
}

impl Tree for Placed {
    ghost alike = { same_placed };

    fn copied(&self, alloc: Global) -> Result<Placed, AllocError> {
        self.copy(alloc)
    }

    fn same_as(&self, other: &Placed) -> bool {
        self.same(other)
    }
}

impl Tree for Cond {
    ghost alike = { same_cond };

    fn copied(&self, alloc: Global) -> Result<Cond, AllocError> {
        self.copy(alloc)
    }

    fn same_as(&self, other: &Cond) -> bool {
        self.same(other)
    }
}

impl Tree for Goal {
    ghost alike = { same_goal };

    fn copied(&self, alloc: Global) -> Result<Goal, AllocError> {
        self.copy(alloc)
    }

    fn same_as(&self, other: &Goal) -> bool {
        self.same(other)
    }
}
