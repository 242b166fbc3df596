//! Images and lengths of whole texts. Their bytes were made by hand and by another program, from the rows of the table alone.
use bed_lang::{List, Module, Name};
use bed_read::read_module;
use bed_table::laws::{sizes, skeletons};
use bed_table::{code_length, image};
use std::alloc::{AllocError, Global};
use std::test::Fail;

/// Texts with the hexadecimal digits of their images at base 0x00400000, of which the program links none yet.
const IMAGES: [(&[u8], &[u8]); 10] = [
    // the larger of two numbers
    (
        b"module m; signature M(a, b) pre emp post emp; export function max: M { if a < b { \
          return b; } return a; }",
        b"42494D31000040003A000000010000000100004000036D617889B5000000008B8D040000008B95080000\
          003BCA0F83100000008B8D080000008BC18BB500000000FFE68B8D040000008BC18BB500000000FFE6",
    ),
    // counting to n
    (
        b"module m; signature C(n) reserving 1 pre emp post emp; export function count: C \
          locals i { i <- 0; while i < n invariant emp { i <- i + 1; } return i; }",
        b"42494D31000040004D00000002000000010000400005636F756E7402110040000B636F756E742E6C6F6F\
          703189B500000000B900000000898D080000008B8D080000008B95040000003BCA0F83180000008B8D08\
          000000BA0100000003CA898D08000000E9D4FFFFFF8B8D080000008BC18BB500000000FFE6",
    ),
    // reversal in place
    (
        b"module m; signature Rev(p) reserving 2 pre emp post emp; export function rev: Rev \
          locals r, n { r <- 0; while p != 0 invariant emp { n <- [p + 4]; [p + 4] <- r; r <- \
          p; p <- n; } return r; }",
        b"42494D310000400075000000020000000100004000037265760211004000097265762E6C6F6F703189B5\
          00000000B900000000898D080000008B8D04000000BA000000003BCA0F84410000008B8D040000008B89\
          04000000898D0C0000008B8D040000008B95080000008991040000008B8D04000000898D080000008B8D\
          0C000000898D04000000E9ACFFFFFF8B8D080000008BC18BB500000000FFE6",
    ),
    // a function from a table, called
    (
        b"module m; signature U() pre emp post emp; signature Pick(t, i) reserving 2 pre emp \
          post emp; function one: U { return 1; } function two: U { return 2; } export \
          function pick: Pick locals f { [t] <- &one; [t + 4] <- &two; if i = 0 { f <- [t]; } \
          else { f <- [t + 4]; } join emp; f <- call f via U() after emp; return f; }",
        b"42494D3100004000BD000000030000000000004000036F6E6500150040000374776F012A004000047069\
          636B89B500000000B9010000008BC18BB500000000FFE689B500000000B9020000008BC18BB500000000\
          FFE689B5000000008B8D04000000BA000040008991000000008B8D04000000BA15004000899104000000\
          8B8D08000000BA000000003BCA0F85170000008B8D040000008B8900000000898D0C000000E912000000\
          8B8D040000008B8904000000898D0C0000008B950C00000081C510000000BEA1004000FFE281ED100000\
          0089850C0000008B8D0C0000008BC18BB500000000FFE6",
    ),
    // a list that is searched
    (
        b"module m; signature Look(p, a) reserving 2 for s: seq pre lst(p, s) post lst(p, s); \
          export function look: Look locals n, v { find n, v for a in p of s as u, t keep emp \
          { return n; } return 0; }",
        b"42494D31000040008D000000020000000100004000046C6F6F6B02120040000A6C6F6F6B2E6C6F6F7031\
          89B5000000008B8D04000000898D0C0000008B8D0C000000BA000000003BCA0F84590000008B8D0C0000\
          008B8900000000898D100000008B8D100000008B95080000003BCA0F85100000008B8D0C0000008BC18B\
          B500000000FFE68B8D0C0000008B8904000000898D100000008B8D10000000898D0C000000E994FFFFFF\
          B9000000008BC18BB500000000FFE6",
    ),
    // all operations
    (
        b"module m; signature F(a, b) reserving 1 pre emp post emp; function f: F locals x { \
          x <- a - 1; x <- x * b; x <- 255 and x; x <- x or a; x <- x xor b; return x; }",
        b"42494D310000400079000000010000000000004000016689B5000000008B8D04000000BA010000002BCA\
          898D0C0000008B8D0C0000008B95080000000FAFCA898D0C000000B9FF0000008B950C00000023CA898D\
          0C0000008B8D0C0000008B95040000000BCA898D0C0000008B8D0C0000008B950800000033CA898D0C00\
          00008B8D0C0000008BC18BB500000000FFE6",
    ),
    // bytes and words of memory
    (
        b"module m; signature F(p) reserving 1 pre emp post emp; function f: F locals x { x \
          <- byte [p + 1]; byte [p + 2] <- x; [p + 16909060] <- 9; x <- [p + 4]; return x; }",
        b"42494D31000040005E000000010000000000004000016689B5000000008B8D040000000FB68901000000\
          898D080000008B8D040000008B95080000008891020000008B8D04000000BA090000008991040302018B\
          8D040000008B8904000000898D080000008B8D080000008BC18BB500000000FFE6",
    ),
    // all tests
    (
        b"module m; signature F(a) pre emp post emp; function f: F { if a = 1 { a <- 2; } \
          join emp; while a <= 3 invariant emp { if a != 4 { a <- 5; } else { a <- 6; } join \
          emp; while a < 7 invariant emp { return a; } } return a; }",
        b"42494D3100004000A20000000300000000000040000166022900400007662E6C6F6F7031026A00400007\
          662E6C6F6F703289B5000000008B8D04000000BA010000003BCA0F8510000000B902000000898D040000\
          00E9000000008B8D04000000BA030000003BCA0F87560000008B8D04000000BA040000003BCA0F841000\
          0000B905000000898D04000000E90B000000B906000000898D040000008B8D04000000BA070000003BCA\
          0F83100000008B8D040000008BC18BB500000000FFE6E997FFFFFF8B8D040000008BC18BB500000000FF\
          E6",
    ),
    // a call of a name, with two arguments
    (
        b"module m; signature D(a, b) pre emp post emp; signature G(n) reserving 5 pre emp \
          post emp; export function go: G locals y, x { x <- call &f(n, 7) after emp; return \
          x; } function f: D { a <- a - b; return a; }",
        b"42494D31000040007500000002000000010000400002676F004B004000016689B5000000008B8D040000\
          00898D14000000B907000000898D18000000BA4B00400081C510000000BE2F004000FFE281ED10000000\
          89850C0000008B8D0C0000008BC18BB500000000FFE689B5000000008B8D040000008B95080000002BCA\
          898D040000008B8D040000008BC18BB500000000FFE6",
    ),
    // a list that is added up
    (
        b"module m; signature Sum(p) reserving 3 for s: seq pre lst(p, s) post lst(p, s); \
          export function sum: Sum locals r, n, v { r <- 0; walk n, v in p of s as u, t keep \
          emp { r <- r + v; } return r; }",
        b"42494D3100004000890000000200000001000040000373756D021D0040000973756D2E6C6F6F703189B5\
          00000000B900000000898D080000008B8D04000000898D0C0000008B8D0C000000BA000000003BCA0F84\
          490000008B8D0C0000008B8900000000898D100000008B8D080000008B951000000003CA898D08000000\
          8B8D0C0000008B8904000000898D100000008B8D10000000898D0C000000E9A4FFFFFF8B8D080000008B\
          C18BB500000000FFE6",
    ),
];

/// Texts that name an import, with their images where the import stands at 0x1000.
const IMPORTING: [(&[u8], &[u8]); 2] = [
    // its address
    (
        b"module m; signature F() pre emp post emp; import say: F; export function f: F { return \
          &say; }",
        b"42494D310000400015000000020000000100004000016603001000000373617989B500000000B9001000\
          008BC18BB500000000FFE6",
    ),
    // a call of it
    (
        b"module m; signature P(v) pre emp post emp; signature G() reserving 3 pre emp post \
          emp; import say: P; export function go: G locals x { x <- call &say(5) after emp; \
          return 0; }",
        b"42494D31000040003E00000002000000010000400002676F03001000000373617989B500000000B90500\
          0000898D0C000000BA0010000081C508000000BE23004000FFE281ED08000000898504000000B9000000\
          008BC18BB500000000FFE6",
    ),
];

/// Modules and the length of their code.
const LENGTHS: [(&[&[u8]], u64); 5] = [
    // a byte that is stored and loaded
    (
        &[
            b"module m; signature B(p) reserving 1 for v: word pre p |->b v post p |->b 7 * [result = 7]; export function f: B locals x { byte [p] <- 7; x <- byte [p]; return x; }",
        ],
        58,
    ),
    // a loop
    (
        &[
            b"module m; signature T() reserving 1 pre emp post [result = 7]; export function f: T locals i { i <- 0; while i != 7 invariant emp { i <- i + 1; } return i; }",
        ],
        76,
    ),
    // a test
    (
        &[
            b"module m; signature A(a) pre emp post [result != 0]; export function f: A { if a = 0 { return 1; } return a; }",
        ],
        56,
    ),
    // two modules, of which one calls the other
    (
        &[
            b"module a; signature S(n) pre emp post [result = n]; export function id: S { return n; }",
            b"module b; signature S(n) pre emp post [result = n]; signature T(n) reserving 3 pre emp post [result = n]; import id: S; export function twice: T locals x { x <- call &id(n) after [x = old n]; return x; }",
        ],
        86,
    ),
    // a loop, and a call of it
    (
        &[
            b"module m; signature C(n) reserving 1 pre emp post emp; signature D(n) reserving 4 pre emp post emp; function f1: C locals i { i <- 0; while i < n invariant emp { i <- i + 1; } return i; } function f2: D locals x { x <- call &f1(n) after emp; return x; }",
        ],
        141,
    ),
];

/// Texts with one image: `find` and `walk`, and the statements that they stand for.
const ALIKE: [(&[u8], &[u8]); 2] = [
    (
        b"module m; signature L(p, a) reserving 2 pre emp post emp; function look: L locals n, v { find n, v for a in p of nil as u, t keep emp { return n; } return 0; }",
        b"module m; signature L(p, a) reserving 2 pre emp post emp; function look: L locals n, v { n <- p; while n != 0 invariant emp { v <- [n]; if v = a { return n; } v <- [n + 4]; n <- v; } return 0; }",
    ),
    (
        b"module m; signature L(p, a) reserving 2 pre emp post emp; function sum: L locals n, v { walk n, v in p of nil as u, t keep emp { a <- a + v; } return a; }",
        b"module m; signature L(p, a) reserving 2 pre emp post emp; function sum: L locals n, v { n <- p; while n != 0 invariant emp { v <- [n]; a <- a + v; v <- [n + 4]; n <- v; } return a; }",
    ),
];

fn read(alloc: Global, text: &[u8]) -> Result<Module, Fail> {
    if text.len() > 1000 {
        return Err(Fail::from("a text is too long"));
    }
    match read_module(alloc, text) {
        Ok(module) => Ok(module),
        Err(_) => Err(Fail::from("a text isn't read")),
    }
}

fn built(alloc: Global, text: &[u8], imports: &[(Name, u32)]) -> Result<Vec<u8>, Fail> {
    let modules = [read(alloc, text)?];
    if code_length(&modules) > 1_048_576 {
        return Err(Fail::from("the code is too long"));
    }
    Ok(image(alloc, &modules, 0x0040_0000, imports)?)
}

fn digit(n: u8) -> u8 {
    if n < 10 {
        n.wrapping_add(b'0')
    } else {
        n.wrapping_add(b'A' - 10)
    }
}

fn digits(alloc: Global, bytes: &[u8]) -> Result<Vec<u8>, AllocError> {
    let mut out = Vec::new(alloc);
    for byte in bytes {
        out.push(digit(*byte / 16))?;
        out.push(digit(*byte % 16))?;
    }
    Ok(out)
}

fn has_image(
    alloc: Global,
    text: &[u8],
    imports: &[(Name, u32)],
    wanted: &[u8],
) -> Result<bool, Fail> {
    let image = built(alloc, text, imports)?;
    let got = digits(alloc, image.as_slice())?;
    Ok(got.as_slice() == wanted)
}

fn have_images(
    alloc: Global,
    rows: &[(&[u8], &[u8])],
    imports: &[(Name, u32)],
) -> Result<bool, Fail> {
    for (text, wanted) in rows {
        if !has_image(alloc, *text, imports, *wanted)? {
            return Ok(false);
        }
    }
    Ok(true)
}

fn has_length(alloc: Global, texts: &[&[u8]], length: u64) -> Result<bool, Fail> {
    let mut modules = List::new(alloc);
    for text in texts {
        modules.push(read(alloc, *text)?)?;
    }
    Ok(code_length(modules.as_slice()) == length)
}

fn have_lengths(alloc: Global, rows: &[(&[&[u8]], u64)]) -> Result<bool, Fail> {
    for (texts, length) in rows {
        if !has_length(alloc, *texts, *length)? {
            return Ok(false);
        }
    }
    Ok(true)
}

fn are_alike(alloc: Global, rows: &[(&[u8], &[u8])]) -> Result<bool, Fail> {
    for (short, long) in rows {
        let one = built(alloc, *short, &[])?;
        let other = built(alloc, *long, &[])?;
        if one.as_slice() != other.as_slice() {
            return Ok(false);
        }
    }
    Ok(true)
}

#[test]
fn texts_have_their_images(rt: HostRuntime) -> Result<(), Fail> {
    sizes();
    skeletons();
    assert!(rt; have_images(rt.alloc(), &IMAGES, &[])?);
    Ok(())
}

#[test]
fn an_import_stands_at_its_address(rt: HostRuntime) -> Result<(), Fail> {
    let alloc = rt.alloc();
    let say = Name {
        bytes: List::from_slice(alloc, b"say")?,
        at: 0,
    };
    assert!(rt; have_images(alloc, &IMPORTING, &[(say, 0x1000)])?);
    Ok(())
}

#[test]
fn texts_have_their_lengths(rt: HostRuntime) -> Result<(), Fail> {
    assert!(rt; have_lengths(rt.alloc(), &LENGTHS)?);
    Ok(())
}

#[test]
fn loops_over_lists_have_the_code_of_their_statements(rt: HostRuntime) -> Result<(), Fail> {
    assert!(rt; are_alike(rt.alloc(), &ALIKE)?);
    Ok(())
}
