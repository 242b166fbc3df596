use bed_names::scope;
use bed_print::print_module;
use bed_read::read_module;
use std::alloc::{AllocError, Global};
use std::test::Fail;

/// Texts, and what is printed of their modules.
const TEXTS: [(&str, &str); 7] = [
    (
        "module m;signature S()pre emp post[result=7];export function seven:S{return 7;}",
        "module m;\nsignature S() reserving 0 pre emp post [result = 7];\nexport function seven: S {\n    return 7;\n}\n",
    ),
    (
        "module m; predicate lseg(p:word,q:word,s:seq)=[p=q]*[s==nil]|exists v:word,n:word,t:seq.[p!=0]*[s==cons(v,t)]*p|->v*p+4|->n*lseg(n,q,t);predicate lst(p:word,s:seq)=lseg(p,0,s);",
        "module m;\npredicate lseg(p: word, q: word, s: seq) = [p = q] * [s == nil]\n  | exists v: word, n: word, t: seq. [p != 0] * [s == cons(v, t)] * p |-> v * p + 4 |-> n * lseg(n, q, t);\npredicate lst(p: word, s: seq) = lseg(p, 0, s);\n",
    ),
    (
        "module m;signature S(a,b)pre[a-(b+1)=(2*(a))+((b))]*[(a+b)-1!=3-(a-b)]post p(a,(a),a+1,nil,cons(a,s),app(s,t),(a)+1)*[(b)<=old b];",
        "module m;\nsignature S(a, b) reserving 0 pre [a - (b + 1) = (2 * a) + b] * [a + b - 1 != 3 - (a - b)] post p(a, (a), a + 1, nil, cons(a, s), app(s, t), a + 1) * [b <= old b];\n",
    ),
    (
        "module m;signature N(a,b)reserving 3 for s:seq,w:word pre exists x:word.block(a,2)*a|->x*(b)|->b 7 post[code(a,N)]*[a notin s];import i:N;",
        "module m;\nsignature N(a, b) reserving 3 for s: seq, w: word pre exists x: word. block(a, 2) * a |-> x * b |->b 7 post [code(a, N)] * [a notin s];\nimport i: N;\n",
    ),
    (
        "module m;function f:S locals x,y{x<-1;x<-&f-y;x<-[y+0];x<-byte[y+4];[x]<-0;byte[x+8]<-y;if x=0{}else{}if x<=y{x<-x and y;}else{return x;}join emp;while x!=y invariant emp{hint claim x in s;}return 0;}",
        "module m;\nfunction f: S locals x, y {\n    x <- 1;\n    x <- &f - y;\n    x <- [y];\n    x <- byte [y + 4];\n    [x] <- 0;\n    byte [x + 8] <- y;\n    if x = 0 {\n    }\n    if x <= y {\n        x <- x and y;\n    } else {\n        return x;\n    } join emp;\n    while x != y invariant emp {\n        hint claim x in s;\n    }\n    return 0;\n}\n",
    ),
    (
        "module m;function f:S{x<-call&g(1,y)using unfold lseg at p,fold lst(p,_)case 1 after emp;x<-call x via T()after emp;find n,v for a in p of s as u,t keep emp{}walk n,v in p of nil as u,t keep emp{hint give s=cons(1,nil);}}",
        "module m;\nfunction f: S {\n    x <- call &g(1, y) using unfold lseg at p, fold lst(p, _) case 1 after emp;\n    x <- call x via T() after emp;\n    find n, v for a in p of s as u, t keep emp {\n    }\n    walk n, v in p of nil as u, t keep emp {\n        hint give s = cons(1, nil);\n    }\n}\n",
    ),
    (
        "module m;function f:S{hint divide t,1;hint merge t,t+4;hint append p;hint bytes a;hint word a;hint cell a;hint uncell a;hint drop a;hint when s==nil;hint give v=(x);}",
        "module m;\nfunction f: S {\n    hint divide t, 1;\n    hint merge t, t + 4;\n    hint append p;\n    hint bytes a;\n    hint word a;\n    hint cell a;\n    hint uncell a;\n    hint drop a;\n    hint when s == nil;\n    hint give v = (x);\n}\n",
    ),
];

/// Texts, and what is printed of their modules without bare arguments: a name that stands for a word has brackets.
const SCOPED: [(&str, &str); 3] = [
    (
        "module m;signature S(p)for s:seq pre lst(p,s)post lseg(p+0,(p),s)*lst(0,nil);",
        "module m;\nsignature S(p) reserving 0 for s: seq pre lst((p), s) post lseg(p + 0, (p), s) * lst(0, nil);\n",
    ),
    (
        "module m;predicate q(a:word,s:seq)=exists t:seq,b:word.[s==t]*lseg(a,b,t)|q(a,cons(a,s));",
        "module m;\npredicate q(a: word, s: seq) = exists t: seq, b: word. [s == t] * lseg((a), (b), t)\n  | q((a), cons(a, s));\n",
    ),
    (
        "module m;signature S(p)for s:seq pre lst(p,s)post emp;function f:S{hint fold lst(p,_)case 1;hint give v=p;hint give v=s;return 0;}",
        "module m;\nsignature S(p) reserving 0 for s: seq pre lst((p), s) post emp;\nfunction f: S {\n    hint fold lst((p), _) case 1;\n    hint give v = (p);\n    hint give v = s;\n    return 0;\n}\n",
    ),
];

/// What is printed of the module of a text, after the bytes `before`; nothing of a text without one.
fn printed(alloc: Global, before: &[u8], text: &[u8]) -> Result<Vec<u8>, AllocError> {
    let mut out = Vec::from_slice(alloc, before)?;
    if text.len() < 2_000_000 {
        if let Ok(module) = read_module(alloc, text) {
            print_module(alloc, &module, &mut out)?;
        }
    }
    Ok(out)
}

/// What is printed of what scoping makes of the module of a text.
fn scoped(alloc: Global, text: &[u8]) -> Result<Vec<u8>, AllocError> {
    let mut out = Vec::new(alloc);
    if text.len() < 2_000_000 {
        if let Ok(module) = read_module(alloc, text) {
            if let Ok(scoped) = scope(alloc, module) {
                print_module(alloc, scoped.module(), &mut out)?;
            }
        }
    }
    Ok(out)
}

fn is_printed(alloc: Global, text: &[u8], expected: &[u8]) -> Result<bool, AllocError> {
    let out = printed(alloc, b"", text)?;
    Ok(out.as_slice() == expected)
}

fn is_scoped(alloc: Global, text: &[u8], expected: &[u8]) -> Result<bool, AllocError> {
    let out = scoped(alloc, text)?;
    Ok(out.as_slice() == expected)
}

/// Whether each text is printed as it is expected, and so is what is printed.
fn texts_are_printed(alloc: Global) -> Result<bool, AllocError> {
    for (text, expected) in &TEXTS {
        if !is_printed(alloc, text.as_bytes(), expected.as_bytes())? {
            return Ok(false);
        }
        if !is_printed(alloc, expected.as_bytes(), expected.as_bytes())? {
            return Ok(false);
        }
    }
    Ok(true)
}

#[test]
fn modules_are_printed_as_texts_that_read_back(rt: HostRuntime) -> Result<(), Fail> {
    let holds = texts_are_printed(rt.alloc())?;
    assert!(rt; holds);
    Ok(())
}

/// Whether each text is scoped and printed as it is expected, and so is what is printed.
fn texts_are_scoped(alloc: Global) -> Result<bool, AllocError> {
    for (text, expected) in &SCOPED {
        if !is_scoped(alloc, text.as_bytes(), expected.as_bytes())? {
            return Ok(false);
        }
        if !is_scoped(alloc, expected.as_bytes(), expected.as_bytes())? {
            return Ok(false);
        }
    }
    Ok(true)
}

#[test]
fn scoped_modules_are_printed_as_texts_that_scope_back(rt: HostRuntime) -> Result<(), Fail> {
    let holds = texts_are_scoped(rt.alloc())?;
    assert!(rt; holds);
    Ok(())
}

/// A module with this sum of so many ones more in a fact.
fn sum(alloc: Global, first: &[u8], more: u32) -> Result<Vec<u8>, AllocError> {
    let mut text = Vec::from_slice(alloc, b"module m;\nsignature S() reserving 0 pre [")?;
    text.extend_from_slice(first)?;
    for _ in 0..more {
        text.extend_from_slice(b" + 1")?;
    }
    text.extend_from_slice(b" = 0] post emp;\n")?;
    Ok(text)
}

/// Whether a sum of so many ones more is printed as another one.
fn is_sum(
    alloc: Global,
    first: &[u8],
    more: u32,
    out: &[u8],
    ones: u32,
) -> Result<bool, AllocError> {
    let text = sum(alloc, first, more)?;
    let expected = sum(alloc, out, ones)?;
    is_printed(alloc, text.as_slice(), expected.as_slice())
}

#[test]
fn a_sum_of_many_parts_has_brackets_and_a_text_is_appended(rt: HostRuntime) -> Result<(), Fail> {
    let alloc = rt.alloc();
    let flat = is_sum(alloc, b"1", 255, b"1", 255)?;
    let bracketed = is_sum(alloc, b"(1 + 1 + 1)", 255, b"(1 + 1 + 1)", 255)?;
    let fewer = is_sum(alloc, b"(1 + 1 + 1)", 254, b"(1 + 1)", 255)?;
    let out = printed(alloc, b"// before\n", b"module m ;")?;
    let is_appended = out.as_slice() == b"// before\nmodule m;\n".as_slice();
    let holds = flat && bracketed && fewer && is_appended;
    assert!(rt; holds);
    Ok(())
}
