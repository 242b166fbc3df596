//! Derivations of facts in one state, each with its answer.
use crate::declared::declarations;
use crate::trees::{Made, built, fact, tree};
use bed_check_pure::{Verdict, check_pure};
use bed_deriv::{Deriv, SymState};
use bed_lang::{Decls, List, Pure};
use std::alloc::Global;
use std::test::Fail;

/// What is known. The facts are `x < y`, `y <= x`, `nil == nil`, `x = y + 1`, `s == cons(x, t)`,
/// `cons(x, t) == cons(y, u)`, `nil == cons(x, nil)`, `x in app(s, cons(y, nil))` and
/// `x notin app(s, cons(y, nil))`, the atoms `p |-> 1`, `q |->b w`, `block(r, 2)` and `lseg(p, q, s)`. The next
/// fresh variable is 9.
const STATE: &str = "xy< yx{ [[~ xy1+= SxT;~ xT;yU;~ [x[;~ xSy[;.? xSy[;.! p1> qw_ r2] pqS*";

/// A goal, a tree, and the first node that is refused with its premise; `(0, 0)` where none is.
const CASES: [(&str, &str, (u32, u8)); 133] = [
    // hyp
    ("xy<", "1,/H0", (0, 0)),
    ("xy<", "/H0", (1, 1)),
    ("xy<", "/N0 1,/H1", (1, 1)),
    ("xy<", "0,/H0", (1, 2)),
    ("xy<", "xy<|/H0", (1, 2)),
    ("xy{", "1,/H0", (1, 3)),
    // norm
    ("xx{", "/N0", (0, 0)),
    ("0x{", "/N0", (0, 0)),
    ("x01-{", "/N0", (0, 0)),
    ("12<", "/N0", (0, 0)),
    ("x1+x#", "/N0", (0, 0)),
    ("x[!", "/N0", (0, 0)),
    ("xy+yx+=", "/N0", (0, 0)),
    ("xx{", "1,/N0", (1, 1)),
    ("22<", "/N0", (1, 3)),
    ("xx#", "/N0", (1, 3)),
    // comb: twice x - (y + 1) is 2 x - (2 y + 2)
    ("xx+yy+2+=", "4,2,/c0", (0, 0)),
    ("xx=", "/c0", (0, 0)),
    ("xx+yy+2+=", "4,/c0", (1, 1)),
    ("xx+yy+2+=", "99+,2,/c0", (1, 2)),
    ("xx+yy+2+=", "4,x,/c0", (1, 2)),
    ("xx+yy+1+=", "4,2,/c0", (1, 3)),
    ("xx+yy+2+=", "1,2,/c0", (1, 3)),
    // solve
    ("y1+x=", "/N0 4,x,/s1", (0, 0)),
    ("x1-y=", "/N0 4,y,/s1", (0, 0)),
    ("SxT;~", "/N0 5,S^/s1", (0, 0)),
    ("y1+x=", "/N0 4,/s1", (1, 1)),
    ("y1+x=", "/N0 4,%,/s1", (1, 2)),
    ("y1+x=", "/N0 0,x,/s1", (1, 2)),
    ("y1+x=", "/N0 4,z,/s1", (1, 3)),
    ("y1+x=", "/N0 1,x,/s1", (1, 3)),
    // uncons
    ("xy=", "10&,/H0 6,/u1", (0, 0)),
    ("TU~", "11&,/H0 6,/u1", (0, 0)),
    ("xy=", "6,/u0", (1, 1)),
    ("xy=", "/N0 0,/u1", (1, 2)),
    ("xy=", "/N0 5,/u1", (1, 3)),
    // chain
    ("xy<", "1:F/C0", (0, 0)),
    ("xy{", "1:F/C0", (0, 0)),
    ("y1+x{", "4:G/C0", (0, 0)),
    ("xx<", "1:F2:F/C0", (0, 0)),
    ("xx1+<", "1:Q/C0", (0, 0)),
    ("x1+y{", "1:P1:F/C0", (0, 0)),
    ("xy1-{", "1:F1:R/C0", (0, 0)),
    ("12{", "2:K/C0", (0, 0)),
    ("0x{", "x:Z/C0", (0, 0)),
    ("x01-{", ":H/C0", (0, 0)),
    ("xy<", "/N0 1:F/C1", (1, 1)),
    ("xy<", "0:F/C0", (1, 2)),
    ("0x{", "%:Z/C0", (1, 2)),
    ("xy<", "1,/C0", (1, 2)),
    ("xy<", "3:F0:F/C0", (1, 2)),
    ("yx<", "2:F/C0", (1, 3)),
    ("xy<", "2:F/C0", (1, 3)),
    ("xx4+<", "/C0", (1, 3)),
    ("xx4+<", "1:X/C0", (1, 3)),
    // order
    ("xy=", "1:F/C0 2,/H0 0,/O2", (0, 0)),
    ("xy#", "1,/H0 1,/O1", (0, 0)),
    ("yx#", "1,/H0 2,/O1", (0, 0)),
    ("xy=", "1,/H0 0,/O1", (1, 1)),
    ("xy#", "1,/H0 3,/O1", (1, 2)),
    ("xy=", "1,/H0 1,/O1", (1, 3)),
    // cut
    ("01=", "1,/H0 1,/H0 2,/A1 xy<|/t2", (0, 0)),
    ("01=", "1,/H0 xy<|/t1", (1, 1)),
    ("01=", "1,/H0 1,/H0 2,/A1 %y<|/t2", (1, 2)),
    // carry
    ("01=", "1,/H0 2,/A1 1,/H0 2,/A1 x,1,/R2", (0, 0)),
    ("01=", "1,/H0 2,/A1 x,1,/R1", (1, 1)),
    ("01=", "1,/H0 2,/A1 1,/H0 2,/A1 %,1,/R2", (1, 2)),
    ("01=", "1,/H0 2,/A1 1,/H0 2,/A1 x,0,/R2", (1, 3)),
    // split
    ("01=", "1,/H0 2,/A1 1,/H0 2,/A1 xy<|/S2", (0, 0)),
    ("01=", "xy<|/S0", (1, 1)),
    ("01=", "1,/H0 2,/A1 1,/H0 2,/A1 x,/S2", (1, 2)),
    ("01=", "1,/H0 2,/A1 1,/H0 2,/A1 ST~|/S2", (1, 3)),
    // absurd
    ("01=", "1,/H0 2,/A1", (0, 0)),
    ("01=", "2,/A0", (1, 1)),
    ("01=", "1,/H0 0,/A1", (1, 2)),
    ("01=", "1,/H0 3,/A1", (1, 3)),
    // void
    ("01=", "7,/v0", (0, 0)),
    ("01=", "/v0", (1, 1)),
    ("01=", "0,/v0", (1, 2)),
    ("01=", "3,/v0", (1, 3)),
    ("01=", "1,/v0", (1, 3)),
    // member
    ("yyS;?", "/N0 1,/m1", (0, 0)),
    ("yyS;?", "/N0 /m1", (1, 1)),
    ("yyS;?", "/N0 3,/m1", (1, 2)),
    ("yyS;?", "/N0 0,/m1", (1, 2)),
    ("xy<", "/N0 1,/m1", (1, 3)),
    ("xzS;?", "1,/H0 2,/m1", (2, 3)),
    // lacks
    ("xSy[;.!", "9,1,/p0 9,2,/p0 /l2", (0, 0)),
    ("xSy[;.!", "9,1,/p0 /l1", (1, 1)),
    ("xSy[;.!", "1,/l0", (1, 1)),
    ("xy<", "/l0", (1, 3)),
    // part
    ("xy#", "9,2,/p0", (0, 0)),
    ("xS!", "9,1,/p0", (0, 0)),
    ("xy#", "9,/p0", (1, 1)),
    ("xy#", "9,3,/p0", (1, 2)),
    ("xy#", "8,2,/p0", (1, 3)),
    ("xy#", "9,1,/p0", (1, 3)),
    // one
    ("01=", "1,/H0 2,/A1 1,/H0 2,/A1 8,/o2", (0, 0)),
    ("01=", "1,/H0 2,/A1 8,/o1", (1, 1)),
    ("01=", "0,/o2", (1, 2)),
    ("01=", "1,/o2", (1, 3)),
    // distinct
    ("pq#", "1,2,/D0", (0, 0)),
    ("pq#", "1,/D0", (1, 1)),
    ("pq#", "1,9,/D0", (1, 2)),
    ("pq#", "1,1,/D0", (1, 3)),
    // bound
    ("p04-{", "1,/B0", (0, 0)),
    ("w25&5&{", "2,/B0", (0, 0)),
    ("p04-{", "/B0", (1, 1)),
    ("p04-{", "9,/B0", (1, 2)),
    ("p04-{", "3,/B0", (1, 3)),
    // label
    ("$@", "/L0", (0, 0)),
    ("$@", "1,/L0", (1, 1)),
    ("x@", "/L0", (1, 3)),
    // rules that prove no fact
    ("xy<", "xy<|/K0", (1, 1)),
    ("xy<", "/N0/N0 %y<|/K2", (1, 2)),
    ("xy<", "/N0/N0 xy<|/K2", (1, 3)),
    ("xy<", "/N0/N0 /W2", (1, 1)),
    ("xy<", "/E0", (1, 1)),
    ("xy<", "4,/U0", (1, 1)),
    ("xy<", "0,/U0", (1, 2)),
    ("xy<", "1,/U0", (1, 3)),
    ("xy<", "/N0/N0 4,/U2", (1, 3)),
    ("xy<", "1,/F0", (1, 1)),
    ("xy<", "1,1,/F0", (1, 2)),
    ("xy<", "\"3,/F0", (1, 2)),
    ("xy<", "\"1,/F0", (1, 1)),
    ("xy<", "/N0/N0/N0 \"1,p,p,%,/F3", (1, 2)),
    ("xy<", "/N0/N0/N0 \"1,p,p,[^/F3", (1, 3)),
    ("xy<", "1,2,/J1", (1, 1)),
    ("xy<", "/N0/N0 1,9,/J2", (1, 2)),
    ("xy<", "/N0/N0 1,2,/J2", (1, 3)),
    ("xy<", "/g0", (1, 3)),
    ("xy<", "/f0", (1, 3)),
];

fn state(alloc: Global) -> Result<SymState, Fail> {
    let Made { facts, atoms, .. } = built(alloc, STATE)?;
    Ok(SymState {
        locals: List::new(alloc),
        facts,
        atoms,
        next: 9,
    })
}

// The node and the premise that are refused, or zeros. Each of these calls holds one value of its own.
fn verdict(
    alloc: Global,
    decls: &Decls,
    state: &SymState,
    goal: &Pure,
    tree: &Deriv,
) -> Result<(u32, u8), Fail> {
    match check_pure(alloc, decls, state, goal, tree) {
        Ok(()) => Ok((0, 0)),
        Err(Verdict::Reject { node, premise }) => Ok((node, premise)),
        Err(Verdict::Memory) => Err(Fail::from("memory")),
    }
}

fn in_state(alloc: Global, state: &SymState, goal: &Pure, tree: &Deriv) -> Result<(u32, u8), Fail> {
    let decls = declarations(alloc)?;
    verdict(alloc, &decls, state, goal, tree)
}

fn of_goal(alloc: Global, goal: &Pure, tree: &Deriv) -> Result<(u32, u8), Fail> {
    let state = state(alloc)?;
    in_state(alloc, &state, goal, tree)
}

fn of_tree(alloc: Global, goal: &str, tree: &Deriv) -> Result<(u32, u8), Fail> {
    let goal = fact(alloc, goal)?;
    of_goal(alloc, &goal, tree)
}

fn answer(alloc: Global, goal: &str, text: &str) -> Result<(u32, u8), Fail> {
    let tree = tree(alloc, text)?;
    of_tree(alloc, goal, &tree)
}

#[test]
fn facts_are_derived_or_refused(rt: HostRuntime) -> Result<(), Fail> {
    let alloc = rt.alloc();
    for (goal, text, wanted) in &CASES {
        assert!(rt; answer(alloc, goal, text)? == *wanted, "{goal} by {text}");
    }
    Ok(())
}
