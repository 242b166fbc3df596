//! Words and sequences, by their trees.
use bed_forms::{
    Form, Key, Piece, add_forms, difference, rebuilt_seq, rebuilt_word, seq_form, times_form,
    word_form,
};
use bed_lang::{Box, List, Name, Seq, Var, Word, substitute};
use std::alloc::{AllocError, Global};
use std::test::Fail;

/// Words, operands first, with their constants and parts. A small letter is a variable and a capital
/// one a label; `'` makes the variable before it an `old` one, `?` is `result`, `_` the hole, `@` the
/// fresh variable 7, a digit a number and `#` the number 4294967295.
const WORDS: [(&str, u32, &[(u8, u32)]); 12] = [
    ("x4+x-", 4, &[]),
    ("3x*x-", 0, &[(b'x', 2)]),
    ("FF-", 0, &[]),
    ("GF+x+2-", 4_294_967_294, &[(b'x', 1), (b'F', 1), (b'G', 1)]),
    ("0x-", 0, &[(b'x', 4_294_967_295)]),
    ("#x*", 0, &[(b'x', 4_294_967_295)]),
    ("##x**", 0, &[(b'x', 1)]),
    ("#x*x+", 0, &[]),
    ("0x*5+", 5, &[]),
    ("3xy-1+*", 3, &[(b'x', 3), (b'y', 4_294_967_293)]),
    ("xx'+", 0, &[(b'x', 1), (b'\'', 1)]),
    (
        "F@+_+?+a'+b+a+",
        0,
        &[
            (b'a', 1),
            (b'b', 1),
            (b'\'', 1),
            (b'?', 1),
            (b'_', 1),
            (b'@', 1),
            (b'F', 1),
        ],
    ),
];

/// Words, and what they are when they are written anew: the constant, unless it is 0 beside parts, and then
/// the parts in the order of their keys.
const REBUILT: [(&str, &str); 5] = [
    ("xx-", "0"),
    ("x4+x-", "4"),
    ("yx+x+1+", "12x*+y+"),
    ("0x-", "#x*"),
    ("xx+xx++", "4x*"),
];

fn name(alloc: Global, byte: u8, at: u32) -> Result<Name, AllocError> {
    Ok(Name {
        bytes: List::from_slice(alloc, &[byte])?,
        at,
    })
}

// The last word of the stack.
fn operand(alloc: Global, stack: &mut List<Word>) -> Result<Box<Word>, Fail> {
    let word = stack.pop().ok_or("an operand")?;
    let word = Box::new(alloc, word)?;
    Ok(word)
}

// The last two words of the stack, in their order.
fn operands(alloc: Global, stack: &mut List<Word>) -> Result<(Box<Word>, Box<Word>), Fail> {
    let b = operand(alloc, stack)?;
    let a = operand(alloc, stack)?;
    Ok((a, b))
}

fn sum(alloc: Global, stack: &mut List<Word>) -> Result<Word, Fail> {
    let (a, b) = operands(alloc, stack)?;
    Ok(Word::Add(a, b))
}

fn difference_of(alloc: Global, stack: &mut List<Word>) -> Result<Word, Fail> {
    let (a, b) = operands(alloc, stack)?;
    Ok(Word::Sub(a, b))
}

fn product(alloc: Global, stack: &mut List<Word>) -> Result<Word, Fail> {
    let a = operand(alloc, stack)?;
    match stack.pop() {
        Some(Word::Number(n)) => Ok(Word::Times(n, a)),
        _ => Err(Fail::from("a number")),
    }
}

fn old(stack: &mut List<Word>) -> Result<Word, Fail> {
    match stack.pop() {
        Some(Word::Var(Var::Named(x))) => Ok(Word::Var(Var::Old(x))),
        _ => Err(Fail::from("a variable")),
    }
}

fn named(alloc: Global, byte: u8, at: u32) -> Result<Word, AllocError> {
    let name = name(alloc, byte, at)?;
    if byte.is_ascii_uppercase() {
        Ok(Word::Label(name))
    } else {
        Ok(Word::Var(Var::Named(name)))
    }
}

// The word that a sign makes at a place, its operands being the last words of the stack.
fn sign(alloc: Global, stack: &mut List<Word>, byte: u8, at: u32) -> Result<Word, Fail> {
    match byte {
        b'+' => sum(alloc, stack),
        b'-' => difference_of(alloc, stack),
        b'*' => product(alloc, stack),
        b'\'' => old(stack),
        b'?' => Ok(Word::Var(Var::Answer(at))),
        b'_' => Ok(Word::Var(Var::Hole)),
        b'@' => Ok(Word::Var(Var::Fresh(7))),
        b'#' => Ok(Word::Number(4_294_967_295)),
        b'0'..=b'9' => Ok(Word::Number(u32::from(byte - b'0'))),
        _ => Ok(named(alloc, byte, at)?),
    }
}

fn word(alloc: Global, text: &[u8]) -> Result<Word, Fail> {
    let mut stack = List::new(alloc);
    let mut at = 0u32;
    for byte in text {
        let made = sign(alloc, &mut stack, *byte, at)?;
        stack.push(made)?;
        at = at.wrapping_add(1);
    }
    let whole = stack.pop().ok_or("a word")?;
    Ok(whole)
}

// The sign of a key whose places are 0.
fn letter(key: &Key) -> Option<u8> {
    match key {
        Key::Var(Var::Named(x)) if x.at == 0 => x.bytes.get(0).copied(),
        Key::Var(Var::Old(x)) if x.at == 0 => Some(b'\''),
        Key::Var(Var::Answer(0)) => Some(b'?'),
        Key::Var(Var::Hole) => Some(b'_'),
        Key::Var(Var::Fresh(7)) => Some(b'@'),
        Key::Label(x) if x.at == 0 => x.bytes.get(0).copied(),
        _ => None,
    }
}

fn is_form(form: &Form, constant: u32, parts: &[(u8, u32)]) -> bool {
    if form.constant != constant || form.parts.len() != parts.len() {
        return false;
    }
    for (got, expected) in form.parts.as_slice().iter().zip(parts) {
        if letter(&got.0) != Some(expected.0) || got.1 != expected.1 {
            return false;
        }
    }
    true
}

fn app(alloc: Global, a: Seq, b: Seq) -> Result<Seq, AllocError> {
    let a = Box::new(alloc, a)?;
    let b = Box::new(alloc, b)?;
    Ok(Seq::App(a, b))
}

fn cons(alloc: Global, a: Word, b: Seq) -> Result<Seq, AllocError> {
    let a = Box::new(alloc, a)?;
    let b = Box::new(alloc, b)?;
    Ok(Seq::Cons(a, b))
}

fn add(alloc: Global, a: Word, b: Word) -> Result<Word, AllocError> {
    let a = Box::new(alloc, a)?;
    let b = Box::new(alloc, b)?;
    Ok(Word::Add(a, b))
}

fn twice(alloc: Global, s: Seq) -> Result<Seq, AllocError> {
    let other = s.copy(alloc)?;
    app(alloc, s, other)
}

fn row(alloc: Global, many: u32) -> Result<Seq, AllocError> {
    let mut all = Seq::Nil;
    for bit in 0..20u32 {
        all = twice(alloc, all)?;
        if (many >> (19 - bit)) & 1 == 1 {
            all = app(alloc, all, Seq::Var(Var::Fresh(0)))?;
        }
    }
    Ok(all)
}

// How many pieces a row of so many variables has.
fn pieces_of_row(alloc: Global, many: u32) -> Result<Option<usize>, AllocError> {
    let row = row(alloc, many)?;
    match seq_form(alloc, &row) {
        Ok(pieces) => Ok(Some(pieces.len())),
        Err(_) => Ok(None),
    }
}

#[test]
fn a_million_pieces_are_the_most(rt: HostRuntime) -> Result<(), Fail> {
    let most = pieces_of_row(rt.alloc(), 1_000_000)?;
    assert!(rt; most == Some(1_000_000));
    let more = pieces_of_row(rt.alloc(), 1_000_001)?;
    assert!(rt; more.is_none());
    Ok(())
}

fn sum_of_fresh(alloc: Global) -> Result<Word, AllocError> {
    let mut sum = Word::Var(Var::Fresh(255));
    for number in 0..255 {
        sum = add(alloc, sum, Word::Var(Var::Fresh(254 - number)))?;
    }
    Ok(sum)
}

fn are_in_order(parts: &[(Key, u32)]) -> bool {
    let mut expected = 0u32;
    for part in parts {
        match part {
            (Key::Var(Var::Fresh(number)), 1) if *number == expected => {}
            _ => return false,
        }
        expected = expected.wrapping_add(1);
    }
    expected == 256
}

#[test]
fn a_sum_of_256_parts_has_a_form(rt: HostRuntime) -> Result<(), Fail> {
    let sum = sum_of_fresh(rt.alloc())?;
    let form = word_form(rt.alloc(), &sum)?;
    let right = form.constant == 0 && are_in_order(form.parts.as_slice());
    assert!(rt; right);
    Ok(())
}

fn left(alloc: Global) -> Result<Seq, AllocError> {
    app(
        alloc,
        Seq::Var(Var::Named(name(alloc, b's', 12)?)),
        Seq::Nil,
    )
}

fn right(alloc: Global) -> Result<Seq, Fail> {
    let b = word(alloc, b"b1+")?;
    let one = cons(alloc, b, Seq::Nil)?;
    Ok(one)
}

fn whole(alloc: Global) -> Result<Seq, Fail> {
    let left = left(alloc)?;
    let right = right(alloc)?;
    let both = app(alloc, left, right)?;
    let a = word(alloc, b"a")?;
    let all = cons(alloc, a, both)?;
    Ok(all)
}

fn are_expected(pieces: &[Piece]) -> bool {
    match pieces {
        [
            Piece::Element(first),
            Piece::Sequence(Var::Named(x)),
            Piece::Element(last),
        ] => {
            is_form(first, 0, &[(b'a', 1)])
                && x.at == 0
                && x.bytes.get(0).copied() == Some(b's')
                && is_form(last, 1, &[(b'b', 1)])
        }
        _ => false,
    }
}

#[test]
fn sequences_have_pieces(rt: HostRuntime) -> Result<(), Fail> {
    let whole = whole(rt.alloc())?;
    let pieces = seq_form(rt.alloc(), &whole)?;
    let right = are_expected(pieces.as_slice());
    assert!(rt; right);
    Ok(())
}

fn is_difference(
    alloc: Global,
    a: &[u8],
    b: &[u8],
    constant: u32,
    parts: &[(u8, u32)],
) -> Result<bool, Fail> {
    let a = word(alloc, a)?;
    let b = word(alloc, b)?;
    let form = difference(alloc, &a, &b)?;
    Ok(is_form(&form, constant, parts))
}

fn sum_with_three_times(alloc: Global, a: &Form, b: &Form) -> Result<Form, Fail> {
    let thrice = times_form(alloc, 3, b)?;
    let sum = add_forms(alloc, a, &thrice)?;
    Ok(sum)
}

fn form(alloc: Global, text: &[u8]) -> Result<Form, Fail> {
    let w = word(alloc, text)?;
    let form = word_form(alloc, &w)?;
    Ok(form)
}

fn is_sum(alloc: Global) -> Result<bool, Fail> {
    let more = form(alloc, b"4")?;
    let less = form(alloc, b"0F-4-")?;
    let both = sum_with_three_times(alloc, &more, &less)?;
    Ok(is_form(&both, 4_294_967_288, &[(b'F', 4_294_967_293)]))
}

#[test]
fn differences_have_forms(rt: HostRuntime) -> Result<(), Fail> {
    let more = is_difference(rt.alloc(), b"x4+", b"x", 4, &[])?;
    assert!(rt; more);
    let less = is_difference(
        rt.alloc(),
        b"x",
        b"Fx4++",
        4_294_967_292,
        &[(b'F', 4_294_967_295)],
    )?;
    assert!(rt; less);
    let sum = is_sum(rt.alloc())?;
    assert!(rt; sum);
    Ok(())
}

fn variable(alloc: Global, x: u8) -> Result<Var, AllocError> {
    Ok(Var::Named(name(alloc, x, 0)?))
}

fn put_for(alloc: Global, w: &Word, x: &Var, by: &[u8]) -> Result<Word, Fail> {
    let by = word(alloc, by)?;
    let made = substitute(alloc, w, x, &by)?;
    Ok(made)
}

fn substituted(alloc: Global, text: &[u8], x: u8, by: &[u8]) -> Result<Word, Fail> {
    let w = word(alloc, text)?;
    let x = variable(alloc, x)?;
    put_for(alloc, &w, &x, by)
}

fn is_substituted(
    alloc: Global,
    text: &[u8],
    x: u8,
    by: &[u8],
    expected: &[u8],
) -> Result<bool, Fail> {
    let made = substituted(alloc, text, x, by)?;
    let expected = word(alloc, expected)?;
    Ok(made.same(&expected))
}

#[test]
fn a_variable_gives_way_to_a_word(rt: HostRuntime) -> Result<(), Fail> {
    let right = is_substituted(rt.alloc(), b"x4-2x*+", b'x', b"y1+", b"y1+4-2y1+*+")?;
    assert!(rt; right);
    Ok(())
}

fn has_form(alloc: Global, text: &[u8], constant: u32, parts: &[(u8, u32)]) -> Result<bool, Fail> {
    let form = form(alloc, text)?;
    Ok(is_form(&form, constant, parts))
}

#[test]
fn words_have_forms(rt: HostRuntime) -> Result<(), Fail> {
    for (text, constant, parts) in &WORDS {
        let right = has_form(rt.alloc(), text.as_bytes(), *constant, *parts)?;
        assert!(rt; right);
    }
    Ok(())
}

// Whether a word, written anew from its form, is this one.
fn is_rebuilt(alloc: Global, text: &[u8], expected: &[u8]) -> Result<bool, Fail> {
    let made = rebuilt(alloc, text)?;
    let expected = word(alloc, expected)?;
    Ok(made.same(&expected))
}

fn rebuilt(alloc: Global, text: &[u8]) -> Result<Word, Fail> {
    let w = word(alloc, text)?;
    let made = rebuilt_word(alloc, &w)?;
    Ok(made)
}

#[test]
fn words_are_written_anew(rt: HostRuntime) -> Result<(), Fail> {
    for (text, expected) in &REBUILT {
        let right = is_rebuilt(rt.alloc(), text.as_bytes(), expected.as_bytes())?;
        assert!(rt; right, "{text}");
    }
    Ok(())
}

// Whether a row of so many variables can be written anew.
fn row_is_rebuilt(alloc: Global, many: u32) -> Result<bool, AllocError> {
    let row = row(alloc, many)?;
    Ok(rebuilt_seq(alloc, &row).is_ok())
}

#[test]
fn a_sequence_of_8192_pieces_is_written_anew(rt: HostRuntime) -> Result<(), Fail> {
    let most = row_is_rebuilt(rt.alloc(), 8_192)?;
    assert!(rt; most);
    let more = row_is_rebuilt(rt.alloc(), 8_193)?;
    assert!(rt; !more);
    Ok(())
}
