//! Tables of cases.
use crate::refusal::Refusal;
use crate::tokens::{Token, looks_at, looks_at_any, take};

/// A token that is its class.
#[derive(Drop)]
struct Letter(u32);

impl Token for Letter {
    ghost class_of = { λ t. t.0 };

    fn class(&self) -> u32 {
        self.0
    }
}

#[test]
fn looks_at_the_next_token(rt: HostRuntime) {
    let tokens = [Letter(3), Letter(5)];
    assert!(rt; looks_at(&tokens, 3));
    assert!(rt; !looks_at(&tokens, 5));
    assert!(rt; !looks_at(&tokens[2..], 3));
    assert!(rt; looks_at_any(&tokens, &[1, 2, 3]));
    assert!(rt; !looks_at_any(&tokens, &[5, 7]));
    assert!(rt; !looks_at_any(&tokens[2..], &[3, 5]));
}

#[test]
fn takes_the_next_token(rt: HostRuntime) {
    let tokens = [Letter(3), Letter(5)];
    for (class, limit, left, passed) in [
        (3, None, 1, None),
        (3, Some(7u8), 2, Some(7)),
        (5, Some(7), 2, None),
    ] {
        let (rest, at_limit) = match take(&tokens, class, limit) {
            Ok((_, rest)) => (rest.len(), None),
            Err(Refusal::At { rest, limit }) => (rest.len(), limit),
            Err(Refusal::Memory) => (9, None),
        };
        assert!(rt; rest == left);
        assert!(rt; at_limit == passed);
    }
}
