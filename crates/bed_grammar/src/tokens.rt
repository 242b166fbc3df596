//! Reading one token.
ghost use Rattle.std.specs.Prelude.{◌≡◌, ◌≢◌, ℕ, nat_eq, IfOk, IfErr, None};
ghost use Rattle.bed_grammar.specs.Exact.{peek};
ghost use Rattle.bed_grammar.specs.Tables.{class_at, has};
ghost use Rattle.bed_grammar.specs.Parsing.{read_token};
ghost use Rattle.bed_grammar.specs.Gives.{Gives};
ghost use Rattle.bed_grammar.specs.declared.refusal.Refusal.TheVariants.{Memory};

use crate::refusal::Refusal;

/// A token, of one of the classes that a grammar tells apart.
pub trait Token {
    ghost class_of: { Self → ℕ };

    /// The token's class.
    fn class(&self) -> u32
        ensures { result ≡ class_of self.now };
}

/// Whether the next token is of this class.
pub fn looks_at<T: Token>(tokens: &[T], class: u32) -> bool
    ensures { result ≡ nat_eq (class_at T.class_of (peek tokens.now)) class }
{
    match tokens {
        [token, ..] => token.class() == class,
        [] => false,
    }
}

/// Whether the next token is of one of these classes.
pub fn looks_at_any<T: Token>(tokens: &[T], classes: &[u32]) -> bool
    ensures { result ≡ has classes.now (class_at T.class_of (peek tokens.now)) }
{
    for class in classes {
        if looks_at(tokens, *class) {
            return true;
        }
    }
    false
}

/// Takes the next token, which must be of this class; where a limit is given, such a token is refused as past it.
///
/// # Errors
///
/// `At` with the tokens themselves: with the limit where the next token is of the class, else with none.
pub fn take<'a, T: Token, L: Drop>(
    tokens: &'a [T],
    class: u32,
    limit: Option<L>,
) -> Result<(&'a T, &'a [T]), Refusal<'a, T, L>>
    ensures read { Gives (λ x. (x.0.now, x.1.now)) result (read_token T.class_of class limit tokens.now) }
    ensures of_class { IfOk result (λ x. T.class_of x.0.now ≡ class) }
    ensures without_memory { IfErr result (λ e. e ≢ Memory) }
    ensures within { IfOk result (λ _. limit ≡ None) }
{
    match tokens {
        [token, rest @ ..] if looks_at(tokens, class) => {
            if limit.is_some() {
                Err(Refusal::At {
                    rest: tokens,
                    limit,
                })
            } else {
                Ok((token, rest))
            }
        }
        _ => Err(Refusal::At {
            rest: tokens,
            limit: None,
        }),
    }
}
