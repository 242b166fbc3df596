//! Matches of assertions, each with its answer.
use crate::declared::{assertion, declarations};
use crate::nodes::state;
use crate::trees::{name, tree, variable};
use bed_check_heap::{Verdict, instance};
use bed_deriv::{Deriv, SymState};
use bed_lang::{Arg, Assertion, Decls, List, Name, Word};
use std::alloc::{AllocError, Global};
use std::test::Fail;

/// The assertion's terms, in which a is p and b is this number; the tree; and the node and the premise that
/// are refused, or zeros where the other atoms are left. The state has the cell `p |-> 1` and eight other
/// atoms.
const MATCHES: [(&str, u32, &str, (u32, u8)); 9] = [
    ("xy< ab>", 1, "1,/H0 /N0/N0 1,/f3", (0, 0)),
    ("xy< ab>", 1, "1,/H0 /N0/N0/N0 5,1,/f4", (0, 0)),
    ("xy< ab>", 1, "1,/H0 /N0/N0 /f3", (1, 1)),
    ("xy< ab>", 1, "1,/H0 /N0 1,/f2", (1, 1)),
    ("xy< ab>", 1, "1,/H0 /N0/N0 0,/f3", (1, 2)),
    ("xy< ab>", 1, "1,/H0 /N0/N0 2,/f3", (1, 3)),
    ("xy< ab>", 2, "1,/H0 /N0/N0 1,/f3", (4, 3)),
    ("xy< ab>", 1, "2,/H0 /N0/N0 1,/f3", (2, 3)),
    ("xy< ab> ab>", 1, "1,/H0 /N0/N0/N0/N0 1,1,/f5", (1, 3)),
];

fn values(alloc: Global, content: u32) -> Result<List<(Name, Arg)>, AllocError> {
    let mut values = List::new(alloc);
    values.push((name(alloc, b'a')?, Arg::Word(0, variable(alloc, b'p')?)))?;
    values.push((name(alloc, b'b')?, Arg::Word(0, Word::Number(content))))?;
    Ok(values)
}

fn left(numbers: &[u32]) -> Result<(u32, u8), Fail> {
    match numbers {
        [2, 3, 4, 5, 6, 7, 8, 9] => Ok((0, 0)),
        _ => Err(Fail::from("other atoms are left")),
    }
}

// Each of these calls holds one value of its own.
fn verdict(
    alloc: Global,
    decls: &Decls,
    state: &SymState,
    goal: &Assertion,
    values: &List<(Name, Arg)>,
    tree: &Deriv,
) -> Result<(u32, u8), Fail> {
    if state.atoms.len() > 9 {
        return Err(Fail::from("too many atoms"));
    }
    match instance(alloc, decls, state, goal, values, tree) {
        Ok(numbers) => left(numbers.as_slice()),
        Err(Verdict::Reject { node, premise }) => Ok((node, premise)),
        Err(Verdict::Memory) => Err(Fail::from("memory")),
    }
}

fn in_state(
    alloc: Global,
    state: &SymState,
    goal: &Assertion,
    values: &List<(Name, Arg)>,
    tree: &Deriv,
) -> Result<(u32, u8), Fail> {
    let decls = declarations(alloc)?;
    verdict(alloc, &decls, state, goal, values, tree)
}

fn of_goal(
    alloc: Global,
    goal: &Assertion,
    values: &List<(Name, Arg)>,
    tree: &Deriv,
) -> Result<(u32, u8), Fail> {
    let state = state(alloc)?;
    in_state(alloc, &state, goal, values, tree)
}

fn of_values(
    alloc: Global,
    terms: &str,
    values: &List<(Name, Arg)>,
    tree: &Deriv,
) -> Result<(u32, u8), Fail> {
    let goal = assertion(alloc, "", terms)?;
    of_goal(alloc, &goal, values, tree)
}

fn of_tree(alloc: Global, terms: &str, content: u32, tree: &Deriv) -> Result<(u32, u8), Fail> {
    let values = values(alloc, content)?;
    of_values(alloc, terms, &values, tree)
}

fn answer(alloc: Global, terms: &str, content: u32, text: &str) -> Result<(u32, u8), Fail> {
    let tree = tree(alloc, text)?;
    of_tree(alloc, terms, content, &tree)
}

#[test]
fn atoms_are_taken_or_a_node_is_refused(rt: HostRuntime) -> Result<(), Fail> {
    let alloc = rt.alloc();
    for (terms, content, text, wanted) in &MATCHES {
        assert!(rt; answer(alloc, terms, *content, text)? == *wanted, "{text}");
    }
    Ok(())
}
