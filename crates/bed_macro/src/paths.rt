//! Paths, from an annotated point to the macro that they come to.

ghost use Rattle.std.specs.Prelude.{◌≡◌, ◌<◌, ◌++◌, [], ◌∷◌, length, map, IfOk, OnOk};
ghost use Rattle.bed_sat.specs.Conditions.{path_from, then_action, placed, then_hint, then_using, turned as turned_test, negated as negated_test, where_true as true_path, where_false as false_path};
ghost use Rattle.bed_macro.specs.Paths.{path_of};

use bed_lang::{Action, Assertion, Hint, List, Operand, Placed, Rel, Test, Tree, both, three};
use std::alloc::{AllocError, Global};

/// A path of a function, from an annotated point on.
#[derive(Drop)]
pub struct Path {
    /// Whether it starts at the function's entry.
    pub entry: bool,
    /// What holds at its start.
    pub start: Assertion,
    pub actions: List<Action>,
    pub hints: List<Placed>,
}

impl Path {
    /// A copy, equal to the original.
    ///
    /// # Errors
    /// `AllocError` for want of memory.
    pub fn copy(&self, alloc: Global) -> Result<Path, AllocError>
        ensures { IfOk result (λ r. r ≡ self.now) }
    {
        let (start, actions, hints) = three(alloc, &self.start, &self.actions, &self.hints)?;
        Ok(Path {
            entry: self.entry,
            start,
            actions,
            hints,
        })
    }

    /// The path that starts at an inner point, where the assertion holds.
    ///
    /// # Errors
    /// `AllocError` for want of memory.
    pub fn starting(alloc: Global, start: &Assertion) -> Result<Path, AllocError>
        ensures { IfOk result (λ r. path_of r ≡ path_from start.now) }
    {
        Ok(Path {
            entry: false,
            start: start.copy(alloc)?,
            actions: List::new(alloc),
            hints: List::new(alloc),
        })
    }

    /// The path with one more action.
    ///
    /// # Errors
    /// `AllocError` for want of memory.
    pub fn with(&self, alloc: Global, action: Action) -> Result<Path, AllocError>
        ensures { IfOk result (λ r. path_of r ≡ then_action action (path_of self.now)) }
    {
        let mut path = self.copy(alloc)?;
        path.actions.push(action)?;
        Ok(path)
    }

    /// The path on which a test is true.
    ///
    /// # Errors
    /// `AllocError` for want of memory.
    pub fn where_true(&self, alloc: Global, test: &Test) -> Result<Path, AllocError>
        ensures { IfOk result (λ r. path_of r ≡ true_path test.now (path_of self.now)) }
    {
        let test = test.copy(alloc)?;
        self.with(alloc, Action::Assume(test))
    }

    /// The path on which a test is false.
    ///
    /// # Errors
    /// `AllocError` for want of memory.
    pub fn where_false(&self, alloc: Global, test: &Test) -> Result<Path, AllocError>
        ensures { IfOk result (λ r. path_of r ≡ false_path test.now (path_of self.now)) }
    {
        let test = negated(alloc, test)?;
        self.with(alloc, Action::Assume(test))
    }

    /// The path with one more hint, for the action or goal that follows.
    ///
    /// # Errors
    /// `AllocError` for want of memory.
    pub fn with_hint(&self, alloc: Global, hint: &Hint) -> Result<Path, AllocError>
        requires { length self.now.actions < 4294967296 }
        ensures { IfOk result (λ r. path_of r ≡ then_hint hint.now (path_of self.now)) }
    {
        let mut path = self.copy(alloc)?;
        let before = path.actions.len() as u32;
        push_hint(alloc, before, hint, &mut path.hints)?;
        Ok(path)
    }

    /// The path with the hints `using` of the call that ends it.
    ///
    /// # Errors
    /// `AllocError` for want of memory.
    pub fn with_using(&self, alloc: Global, hints: &List<Hint>) -> Result<Path, AllocError>
        requires { length self.now.actions < 4294967295 }
        ensures { IfOk result (λ r. path_of r ≡ then_using hints.now (path_of self.now)) }
    {
        let mut path = self.copy(alloc)?;
        let before = 1 + path.actions.len() as u32;
        push_hints(alloc, before, hints.as_slice(), &mut path.hints)?;
        Ok(path)
    }
}

// Appends a hint with its place.
fn push_hint(
    alloc: Global,
    before: u32,
    hint: &Hint,
    out: &mut List<Placed>,
) -> Result<(), AllocError>
    ensures { OnOk result (out.new ≡ out.old ++ placed before hint.now ∷ []) }
{
    let hint = hint.copy(alloc)?;
    out.push(Placed { before, hint })
}

// Appends hints at one place.
fn push_hints(
    alloc: Global,
    before: u32,
    hints: &[Hint],
    out: &mut List<Placed>,
) -> Result<(), AllocError>
    ensures { OnOk result (out.new ≡ out.old ++ map (placed before) hints.now) }
{
    for hint in hints {
        push_hint(alloc, before, hint, out)?;
    }
    Ok(())
}

// The test that is true exactly where this one is false.
fn negated(alloc: Global, test: &Test) -> Result<Test, AllocError>
    ensures { IfOk result (λ r. r ≡ negated_test test.now) }
{
    let (left, right) = both(alloc, &test.left, &test.right)?;
    Ok(turned(test.rel, test.at, left, right))
}

// The same, of the test's parts.
fn turned(rel: Rel, at: u32, left: Operand, right: Operand) -> Test
    ensures { result ≡ turned_test rel at left right }
{
    match rel {
        Rel::Equal => Test {
            at,
            rel: Rel::Unequal,
            left,
            right,
        },
        Rel::Unequal => Test {
            at,
            rel: Rel::Equal,
            left,
            right,
        },
        Rel::Less => Test {
            at,
            rel: Rel::AtMost,
            left: right,
            right: left,
        },
        Rel::AtMost => Test {
            at,
            rel: Rel::Less,
            left: right,
            right: left,
        },
    }
}
