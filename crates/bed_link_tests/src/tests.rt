use bed_lang::{List, Name};
use bed_link::{LinkError, Linked, resolve};
use bed_names::{Scoped, scope};
use bed_read::read_module;
use std::alloc::{AllocError, Global};
use std::test::Fail;

/// Texts of modules, names with their addresses, and what is made of them at the base 0x00400000.
const CASES: [(&[&[u8]], &[(&[u8], u32)], &str); 20] = [
    // two modules, of which one calls the other
    (
        &[
            b"module a; signature S(n) pre emp post [result = n]; export function id: S { return n; }",
            b"module b; signature S(n) pre emp post [result = n]; signature T(n) reserving 3 pre emp post [result = n]; import id: S; export function twice: T locals x { x <- call &id(n) after [x = old n]; return x; }",
        ],
        &[],
        "86 bytes, id! at 4194304, twice! at 4194326",
    ),
    // loops, and a function that isn't exported
    (
        &[
            b"module m; signature C(n) reserving 1 pre emp post emp; function f: C { return n; } function g: C locals i { i <- 0; while i < n invariant emp { i <- i + 1; } return i; }",
        ],
        &[],
        "99 bytes, f at 4194304, g at 4194326, loop of 1 at 4194343",
    ),
    // outside imports, in the order of their first declaration
    (
        &[
            b"module a; signature S() pre emp post emp; import x: S; import y: S;",
            b"module b; signature S() pre emp post emp; import z: S; import x: S; export function y: S { return 0; }",
        ],
        &[(b"z", 5), (b"x", 4)],
        "21 bytes, y! at 4194304, x = 4, z = 5",
    ),
    // twice: modules, functions, addresses, a function and an address
    (
        &[b"module m;", b"module n;", b"module m;"],
        &[(b"x", 1)],
        "twice m",
    ),
    (
        &[
            b"module a; signature S() pre emp post emp; function f: S { return 0; } function g: S { return 0; }",
            b"module b; signature S() pre emp post emp; function g: S { return 0; } function f: S { return 0; }",
        ],
        &[(b"x", 1), (b"x", 2)],
        "twice g",
    ),
    (
        &[b"module m;"],
        &[(b"x", 1), (b"y", 1), (b"y", 2), (b"x", 2)],
        "twice y",
    ),
    (
        &[
            b"module a; signature S() pre emp post emp; function f: S { return 0; } function g: S { return 0; }",
        ],
        &[(b"g", 1), (b"f", 2)],
        "twice f",
    ),
    // unresolved: an import, one whose function isn't exported, an address
    (
        &[
            b"module a; signature S() pre emp post emp; import x: S; import y: S;",
            b"module b; signature S() pre emp post emp; import f: S;",
            b"module c; signature S() pre emp post emp; function f: S { return 0; }",
        ],
        &[(b"x", 1), (b"z", 1)],
        "unresolved y",
    ),
    (
        &[
            b"module b; signature S() pre emp post emp; import f: S;",
            b"module c; signature S() pre emp post emp; function f: S { return 0; }",
        ],
        &[],
        "unresolved f",
    ),
    (
        &[b"module a; signature S() pre emp post emp; import x: S;"],
        &[(b"x", 1), (b"z", 1), (b"w", 1)],
        "unresolved z",
    ),
    // differs: signatures, predicates, an import and its function, an import and the first of it
    (
        &[
            b"module a; signature N() pre emp post emp;",
            b"module c; signature M() pre emp post emp; signature N() pre emp post emp;",
            b"module b; signature N() reserving 1 pre emp post emp;",
        ],
        &[],
        "differs N 0 2",
    ),
    (
        &[
            b"module a; signature N(x) pre emp post emp;",
            b"module b; signature N(y) pre emp post emp;",
        ],
        &[],
        "differs N 0 1",
    ),
    (
        &[
            b"module a; predicate p(x: word) = x |-> 1;",
            b"module b; predicate q(x: word) = x |-> 1;",
            b"module c; predicate q(x: word) = x |-> 1; predicate p(x: word) = x |-> 2;",
        ],
        &[],
        "differs p 0 2",
    ),
    (
        &[
            b"module a; signature S() pre emp post emp; import f: S;",
            b"module b; signature S() pre emp post emp; signature T() pre emp post emp; export function f: T { return 0; }",
        ],
        &[],
        "differs f 1 0",
    ),
    (
        &[
            b"module a; signature S() pre emp post emp; import f: S;",
            b"module b; signature S() pre emp post emp; signature T() pre emp post emp; import f: S; import g: T;",
            b"module c; signature T() pre emp post emp; import f: T;",
        ],
        &[(b"f", 1), (b"g", 2)],
        "differs f 0 2",
    ),
    // bad addresses: the code's first byte, its last, one behind it, and one that is given twice
    (
        &[b"module m; signature P() pre emp post emp; import say: P; function f: P { return 0; }"],
        &[(b"say", 0x0040_0000)],
        "address say",
    ),
    (
        &[b"module m; signature P() pre emp post emp; import say: P; function f: P { return 0; }"],
        &[(b"say", 0x0040_0014)],
        "address say",
    ),
    (
        &[b"module m; signature P() pre emp post emp; import say: P; function f: P { return 0; }"],
        &[(b"say", 0x0040_0015)],
        "21 bytes, f at 4194304, say = 4194325",
    ),
    (
        &[
            b"module m; signature P() pre emp post emp; import w: P; import x: P; import y: P; import z: P;",
        ],
        &[(b"z", 1), (b"y", 2), (b"x", 1), (b"w", 3)],
        "address x",
    ),
    // one refusal goes before another: a bad address behind a signature
    (
        &[
            b"module m; signature P() pre emp post emp; import say: P; function f: P { return 0; }",
            b"module n; signature P() pre emp post [result = 0];",
        ],
        &[(b"say", 0x0040_0000)],
        "differs P 0 1",
    ),
];

fn module_of(alloc: Global, text: &[u8]) -> Result<Scoped, Fail> {
    if text.len() > 1000 {
        return Err(Fail::from("a text is too long"));
    }
    match read_module(alloc, text) {
        Ok(module) => match scope(alloc, module) {
            Ok(scoped) => Ok(scoped),
            Err(_) => Err(Fail::from("a text isn't scoped")),
        },
        Err(_) => Err(Fail::from("a text isn't read")),
    }
}

fn modules_of(alloc: Global, texts: &[&[u8]]) -> Result<Vec<Scoped>, Fail> {
    let mut modules = Vec::new(alloc);
    for text in texts {
        modules.push(module_of(alloc, text)?)?;
    }
    Ok(modules)
}

fn name_of(alloc: Global, bytes: &[u8]) -> Result<Name, AllocError> {
    Ok(Name {
        bytes: List::from_slice(alloc, bytes)?,
        at: 0,
    })
}

fn words_of(alloc: Global, given: &[(&[u8], u32)]) -> Result<Vec<(Name, u32)>, AllocError> {
    let mut words = Vec::new(alloc);
    for word in given {
        let name = name_of(alloc, word.0)?;
        words.push((name, word.1))?;
    }
    Ok(words)
}

fn put(out: &mut Vec<u8>, bytes: &[u8]) -> Result<(), AllocError> {
    out.extend_from_slice(bytes)
}

fn put_number(alloc: Global, out: &mut Vec<u8>, n: u64) -> Result<(), AllocError> {
    let digits = format!(in alloc; "{n}")?;
    put(out, digits.as_bytes())
}

fn put_linked(alloc: Global, out: &mut Vec<u8>, l: &Linked) -> Result<(), AllocError> {
    put_number(alloc, out, l.length as u64)?;
    put(out, b" bytes")?;
    for f in l.functions.as_slice() {
        put(out, b", ")?;
        put(out, f.0.bytes.as_slice())?;
        put(out, if f.2 { b"! at " } else { b" at " })?;
        put_number(alloc, out, f.1 as u64)?;
    }
    for l in l.loops.as_slice() {
        put(out, b", loop of ")?;
        put_number(alloc, out, l.0 as u64)?;
        put(out, b" at ")?;
        put_number(alloc, out, l.1 as u64)?;
    }
    for i in l.imports.as_slice() {
        put(out, b", ")?;
        put(out, i.0.bytes.as_slice())?;
        put(out, b" = ")?;
        put_number(alloc, out, i.1 as u64)?;
    }
    Ok(())
}

fn put_named(out: &mut Vec<u8>, word: &[u8], name: &Name) -> Result<(), AllocError> {
    put(out, word)?;
    put(out, name.bytes.as_slice())
}

fn put_refusal(alloc: Global, out: &mut Vec<u8>, e: &LinkError) -> Result<(), AllocError> {
    match e {
        LinkError::Twice(name) => put_named(out, b"twice ", name),
        LinkError::Unresolved(name) => put_named(out, b"unresolved ", name),
        LinkError::Differs {
            name,
            first,
            second,
        } => {
            put_named(out, b"differs ", name)?;
            put(out, b" ")?;
            put_number(alloc, out, *first as u64)?;
            put(out, b" ")?;
            put_number(alloc, out, *second as u64)
        }
        LinkError::CodeTooLong(length) => {
            put(out, b"length ")?;
            put_number(alloc, out, *length)
        }
        LinkError::Address(name) => put_named(out, b"address ", name),
        LinkError::Memory => put(out, b"memory"),
    }
}

fn answer(
    alloc: Global,
    modules: &[Scoped],
    given: &[(Name, u32)],
    base: u32,
) -> Result<Vec<u8>, Fail> {
    let mut out = Vec::new(alloc);
    if modules.len() > 64 {
        return Err(Fail::from("too many modules"));
    }
    match resolve(alloc, modules, given, base) {
        Ok(l) => put_linked(alloc, &mut out, &l)?,
        Err(e) => put_refusal(alloc, &mut out, &e)?,
    }
    Ok(out)
}

fn is_answered(
    alloc: Global,
    texts: &[&[u8]],
    given: &[(&[u8], u32)],
    expected: &str,
) -> Result<bool, Fail> {
    let modules = modules_of(alloc, texts)?;
    let given = words_of(alloc, given)?;
    let out = answer(alloc, modules.as_slice(), given.as_slice(), 0x0040_0000)?;
    Ok(out.as_slice() == expected.as_bytes())
}

fn all_answered(alloc: Global) -> Result<bool, Fail> {
    for (texts, given, expected) in &CASES {
        if !is_answered(alloc, texts, given, expected)? {
            return Ok(false);
        }
    }
    Ok(true)
}

#[test]
fn modules_are_linked_or_refused(rt: HostRuntime) -> Result<(), Fail> {
    let holds = all_answered(rt.alloc())?;
    assert!(rt; holds);
    Ok(())
}
