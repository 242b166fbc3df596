//! Nodes for the rest of a condition, each with its answer.
use crate::declared::declarations;
use crate::trees::{Made, built, tree};
use bed_check_heap::{Verdict, heap_step};
use bed_deriv::{Deriv, SymState};
use bed_lang::{Arg, Atom, Decls, List, Word};
use std::alloc::{AllocError, Global};
use std::test::Fail;

/// What is refused, a node and its premise, or zeros; and of the states that are left how many there are,
/// and the facts, atoms and next fresh variable of the first.
type Answer = (u32, u8, usize, usize, usize, u32);

/// A state whose next fresh variable is 9, with the facts `x < y`, `y <= x` and `nil == nil` and the atoms
/// `p |-> 1`, `q |->b w`, `block(r, 2)`, `block(r + 8, 3)`, `block(t, 1)`, `block(u, 0)`, `lseg(a, b, s)`,
/// `lseg(b, c, t)` and `d(y)`.
const STATE: &str = "xy< yx{ [[~ p1> qw_ r2] r8+3] t1] u0] abS* bcT* y)";

/// Trees with their answers there.
const NODES: [(&str, Answer); 62] = [
    ("1,/H0 /N0 xy<|/K2", (0, 0, 1, 4, 9, 9)),
    ("1,/H0 xy<|/K1", (1, 1, 0, 0, 0, 0)),
    ("1,/H0 /N0 x,/K2", (1, 2, 0, 0, 0, 0)),
    ("2,/H0 /N0 xy<|/K2", (2, 3, 0, 0, 0, 0)),
    ("/N0/N0 xy<|/W2", (0, 0, 2, 4, 9, 9)),
    ("/N0 xy<|/W1", (1, 1, 0, 0, 0, 0)),
    ("/N0/N0 x,/W2", (1, 2, 0, 0, 0, 0)),
    ("/N0/N0 ST~|/W2", (1, 3, 0, 0, 0, 0)),
    ("1,/H0 2,/A1 /E1", (0, 0, 0, 0, 0, 0)),
    ("/E0", (1, 1, 0, 0, 0, 0)),
    ("/N0 /E1", (2, 3, 0, 0, 0, 0)),
    ("/N0/N0 7,/U2", (0, 0, 2, 5, 8, 9)),
    ("/N0 9,/U1", (0, 0, 1, 3, 9, 9)),
    ("/N0/N0 7,7,/U2", (1, 1, 0, 0, 0, 0)),
    ("/N0 7,/U1", (1, 1, 0, 0, 0, 0)),
    ("/N0/N0 0,/U2", (1, 2, 0, 0, 0, 0)),
    ("/N0/N0 1,/U2", (1, 3, 0, 0, 0, 0)),
    ("/N0/N0/N0 \"1,x,x,[^/F3", (0, 0, 1, 3, 10, 9)),
    ("/N0/N0/N0 \"1,x,y,[^/F3", (2, 3, 0, 0, 0, 0)),
    ("/N0/N0 \"1,x,x,[^/F2", (1, 1, 0, 0, 0, 0)),
    ("/N0/N0/N0 \"1,x,[^/F3", (1, 1, 0, 0, 0, 0)),
    ("/N0/N0/N0 \"1,x,%,[^/F3", (1, 2, 0, 0, 0, 0)),
    ("/N0/N0/N0 \"3,x,x,[^/F3", (1, 2, 0, 0, 0, 0)),
    ("/N0/N0/N0 1,1,x,x,[^/F3", (1, 2, 0, 0, 0, 0)),
    ("/N0/N0 7,8,/J2", (0, 0, 1, 3, 8, 9)),
    ("/N0/N0 7,/J2", (1, 1, 0, 0, 0, 0)),
    ("/N0/N0 7,0,/J2", (1, 2, 0, 0, 0, 0)),
    ("/N0/N0 7,7,/J2", (1, 3, 0, 0, 0, 0)),
    ("/N0/N0 7,9,/J2", (1, 3, 0, 0, 0, 0)),
    ("/N0/N0 8,7,/J2", (2, 3, 0, 0, 0, 0)),
    ("/N0/N0 3,1,/V2", (0, 0, 1, 3, 10, 9)),
    ("/N0/N0 3,/V2", (1, 1, 0, 0, 0, 0)),
    ("/N0/N0 0,1,/V2", (1, 2, 0, 0, 0, 0)),
    ("/N0/N0 3,xy<|/V2", (1, 2, 0, 0, 0, 0)),
    ("/N0/N0 3,%,/V2", (1, 2, 0, 0, 0, 0)),
    ("/N0/N0 1,1,/V2", (1, 3, 0, 0, 0, 0)),
    ("/N0/N0 3,3,/V2", (2, 3, 0, 0, 0, 0)),
    ("/N0/N0 3,4,/M2", (0, 0, 1, 3, 8, 9)),
    ("/N0/N0 3,/M2", (1, 1, 0, 0, 0, 0)),
    ("/N0/N0 3,0,/M2", (1, 2, 0, 0, 0, 0)),
    ("/N0/N0 3,3,/M2", (1, 3, 0, 0, 0, 0)),
    ("/N0/N0 3,1,/M2", (1, 3, 0, 0, 0, 0)),
    ("/N0/N0 4,3,/M2", (2, 3, 0, 0, 0, 0)),
    ("/P0", (1, 1, 0, 0, 0, 0)),
    ("/N0 6,1,/P1", (1, 2, 0, 0, 0, 0)),
    ("/N0 1,1,/P1", (0, 0, 1, 4, 12, 13)),
    ("/N0 1,/P1", (1, 1, 0, 0, 0, 0)),
    ("/N0 1,0,/P1", (1, 2, 0, 0, 0, 0)),
    ("/N0 1,2,/P1", (1, 3, 0, 0, 0, 0)),
    ("/N0/N0 3,5,/P2", (0, 0, 1, 3, 9, 10)),
    ("/N0/N0 3,3,/P2", (2, 3, 0, 0, 0, 0)),
    ("/N0 4,1,/P1", (0, 0, 1, 3, 9, 9)),
    ("/N0 4,3,/P1", (1, 3, 0, 0, 0, 0)),
    ("/N0/N0 5,6,/P2", (0, 0, 1, 3, 8, 9)),
    ("/N0/N0 5,5,/P2", (2, 3, 0, 0, 0, 0)),
    ("/N0/N0/N0/N0/N0 2,1,2,3,4,/P5", (1, 3, 0, 0, 0, 0)),
    ("/H0", (1, 1, 0, 0, 0, 0)),
    ("1,/H0", (1, 3, 0, 0, 0, 0)),
    ("1:F/C0", (1, 3, 0, 0, 0, 0)),
    ("0:F/C0", (1, 2, 0, 0, 0, 0)),
    ("/g0", (1, 3, 0, 0, 0, 0)),
    ("/f0", (1, 3, 0, 0, 0, 0)),
];

/// A state with the fact `p != 0` and the atoms `p |-> 1`, `p + 4 |-> a` and `lseg(a, b, s)`.
const CELLS: &str = "p0# p1> p4+a> abS*";

/// Trees with their answers there: a longer segment, which has to begin at an address that isn't 0.
const FOLDS: [(&str, Answer); 8] = [
    (
        "1,/H0 /N0/N0/N0/N0/N0/N0/N0/N0/N0 \"2,p,b,1S;^ 1,a,S^ 1,2,3,/F:",
        (0, 0, 1, 1, 1, 9),
    ),
    (
        "/N0 /N0/N0/N0/N0/N0/N0/N0/N0/N0 \"2,p,b,1S;^ 1,a,S^ 1,2,3,/F:",
        (2, 3, 0, 0, 0, 0),
    ),
    (
        "1,/H0 /N0/N0/N0/N0/N0/N0/N0/N0/N0 \"2,p,b,1S;^ 2,a,S^ 1,2,3,/F:",
        (3, 3, 0, 0, 0, 0),
    ),
    (
        "1,/H0 /N0/N0/N0/N0/N0/N0/N0/N0/N0 \"2,p,b,1S;^ 1S;^ a,S^ 1,2,3,/F:",
        (1, 2, 0, 0, 0, 0),
    ),
    (
        "1,/H0 /N0/N0/N0/N0/N0/N0/N0/N0/N0 \"2,p,b,1S;^ 1,a,S^ 1,2,9,/F:",
        (1, 2, 0, 0, 0, 0),
    ),
    (
        "1,/H0 /N0/N0/N0/N0/N0/N0/N0/N0/N0 \"2,p,b,1S;^ 1,a,S^ 1,1,3,/F:",
        (1, 3, 0, 0, 0, 0),
    ),
    (
        "1,/H0 /N0/N0/N0/N0/N0/N0/N0/N0/N0 \"2,p,b,1S;^ 1,a,S^ 1,3,2,/F:",
        (1, 3, 0, 0, 0, 0),
    ),
    (
        "1,/H0 /N0/N0/N0/N0/N0/N0/N0/N0/N0 \"2,p,b,1S;^ 1,a,S^ 1,2,/F:",
        (1, 1, 0, 0, 0, 0),
    ),
];

/// The same in a state with four bytes alone, the first at this address and the others behind it.
const BYTES: [(u32, &str, Answer); 5] = [
    (
        4_294_967_292,
        "/N0/N0/N0/N0/N0 2,1,2,3,4,/P5",
        (0, 0, 1, 0, 1, 9),
    ),
    (
        4_294_967_293,
        "/N0/N0/N0/N0/N0 2,1,2,3,4,/P5",
        (2, 3, 0, 0, 0, 0),
    ),
    (
        4_294_967_292,
        "/N0/N0/N0/N0/N0 2,1,2,3,/P5",
        (1, 1, 0, 0, 0, 0),
    ),
    (
        4_294_967_292,
        "/N0/N0/N0/N0/N0 2,1,2,3,9,/P5",
        (1, 2, 0, 0, 0, 0),
    ),
    (
        4_294_967_292,
        "/N0/N0/N0/N0/N0 2,1,1,3,4,/P5",
        (1, 3, 0, 0, 0, 0),
    ),
];

fn state_of(alloc: Global, text: &str) -> Result<SymState, Fail> {
    let Made { facts, atoms, .. } = built(alloc, text)?;
    Ok(SymState {
        locals: List::new(alloc),
        facts,
        atoms,
        next: 9,
    })
}

pub(crate) fn state(alloc: Global) -> Result<SymState, Fail> {
    state_of(alloc, STATE)
}

fn bytes(alloc: Global, address: u32) -> Result<SymState, AllocError> {
    let mut atoms = List::new(alloc);
    for i in 0..4 {
        let at = Word::Number(address.wrapping_add(i));
        atoms.push(Atom::Byte(at, Word::Number(i)))?;
    }
    Ok(SymState {
        locals: List::new(alloc),
        facts: List::new(alloc),
        atoms,
        next: 9,
    })
}

// How many states there are, and of the first one the facts, atoms and next fresh variable.
fn left(states: &[SymState]) -> Answer {
    match states {
        [] => (0, 0, 0, 0, 0, 0),
        [state, ..] => (
            0,
            0,
            states.len(),
            state.facts.len(),
            state.atoms.len(),
            state.next,
        ),
    }
}

// Each of these calls holds one value of its own.
fn verdict(alloc: Global, decls: &Decls, state: &SymState, tree: &Deriv) -> Result<Answer, Fail> {
    match heap_step(alloc, decls, state, tree) {
        Ok(states) => Ok(left(states.as_slice())),
        Err(Verdict::Reject { node, premise }) => Ok((node, premise, 0, 0, 0, 0)),
        Err(Verdict::Memory) => Err(Fail::from("memory")),
    }
}

fn in_state(alloc: Global, state: &SymState, tree: &Deriv) -> Result<Answer, Fail> {
    let decls = declarations(alloc)?;
    verdict(alloc, &decls, state, tree)
}

fn of_tree(alloc: Global, state: &str, tree: &Deriv) -> Result<Answer, Fail> {
    let state = state_of(alloc, state)?;
    in_state(alloc, &state, tree)
}

fn of_bytes(alloc: Global, address: u32, tree: &Deriv) -> Result<Answer, Fail> {
    let state = bytes(alloc, address)?;
    in_state(alloc, &state, tree)
}

fn answer(alloc: Global, state: &str, text: &str) -> Result<Answer, Fail> {
    let tree = tree(alloc, text)?;
    of_tree(alloc, state, &tree)
}

fn bytes_answer(alloc: Global, address: u32, text: &str) -> Result<Answer, Fail> {
    let tree = tree(alloc, text)?;
    of_bytes(alloc, address, &tree)
}

#[test]
fn states_are_left_or_a_node_is_refused(rt: HostRuntime) -> Result<(), Fail> {
    let alloc = rt.alloc();
    for (text, wanted) in &NODES {
        assert!(rt; answer(alloc, STATE, text)? == *wanted, "{text}");
    }
    for (text, wanted) in &FOLDS {
        assert!(rt; answer(alloc, CELLS, text)? == *wanted, "{text}");
    }
    Ok(())
}

#[test]
fn bytes_are_a_cell_or_refused(rt: HostRuntime) -> Result<(), Fail> {
    let alloc = rt.alloc();
    for (address, text, wanted) in &BYTES {
        assert!(rt; bytes_answer(alloc, *address, text)? == *wanted, "{text}");
    }
    Ok(())
}

// The state with the first atom unfolded.
fn unfolded(
    alloc: Global,
    decls: &Decls,
    state: &SymState,
    tree: &Deriv,
) -> Result<SymState, Fail> {
    match heap_step(alloc, decls, state, tree) {
        Ok(mut states) => Ok(states.pop().ok_or("a state")?),
        Err(_) => Err(Fail::from("an unfold")),
    }
}

fn unfolded_often(alloc: Global, decls: &Decls, tree: &Deriv) -> Result<SymState, Fail> {
    let mut state = state_of(alloc, "y)")?;
    for _ in 0..40 {
        state = unfolded(alloc, decls, &state, tree)?;
    }
    Ok(state)
}

fn forty_times(alloc: Global) -> Result<SymState, Fail> {
    let decls = declarations(alloc)?;
    let tree = tree(alloc, "/N0 1,/U1")?;
    unfolded_often(alloc, &decls, &tree)
}

// Whether the state is `d(0)`, as 2^40 times a word is 0.
fn is_zero(state: &SymState) -> bool {
    match state.atoms.as_slice() {
        [Atom::Pred(_, args)] => match args.as_slice() {
            [Arg::Word(_, Word::Number(0))] => true,
            _ => false,
        },
        _ => false,
    }
}

#[test]
fn a_doubled_argument_stays_small(rt: HostRuntime) -> Result<(), Fail> {
    let state = forty_times(rt.alloc())?;
    assert!(rt; is_zero(&state));
    Ok(())
}
