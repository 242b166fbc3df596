//! The grammar's functions on tokens that are their classes.
use bed_grammar::{Refusal, Token, looks_at, looks_at_any, take};

/// A token that is its class.
#[derive(Drop)]
struct Letter(u32);

impl Token for Letter {
    ghost class_of = { λ t. t.0 };

    fn class(&self) -> u32 {
        self.0
    }
}

/// How many tokens are left, and the limit that was passed.
fn taken(tokens: &[Letter], class: u32, limit: Option<u8>) -> (usize, Option<u8>) {
    match take(tokens, class, limit) {
        Ok((_, rest)) => (rest.len(), None),
        Err(Refusal::At { rest, limit }) => (rest.len(), limit),
        Err(Refusal::Memory) => (9, None),
    }
}

#[test]
fn looks_at_and_takes_the_next_token(rt: HostRuntime) {
    let tokens = [Letter(3), Letter(5)];
    let looks = looks_at(&tokens, 3) && !looks_at(&tokens, 5) && !looks_at(&tokens[2..], 3);
    assert!(rt; looks);
    let any = looks_at_any(&tokens, &[1, 2, 3])
        && !looks_at_any(&tokens, &[5, 7])
        && !looks_at_any(&tokens[2..], &[3, 5]);
    assert!(rt; any);
    let takes = taken(&tokens, 3, None) == (1, None)
        && taken(&tokens, 3, Some(7)) == (2, Some(7))
        && taken(&tokens, 5, Some(7)) == (2, None);
    assert!(rt; takes);
}
