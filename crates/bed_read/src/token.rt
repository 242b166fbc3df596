//! Reading one token.
ghost use Rattle.std.specs.Prelude.{◌≡◌, ◌≢◌, ◌<◌, length, nat_eq, IfOk, IfErr, None};
ghost use Rattle.bed_grammar.specs.Exact.{peek};
ghost use Rattle.bed_grammar.specs.Tables.{class_at, has};
ghost use Rattle.bed_grammar.specs.Parsing.{read_token};
ghost use Rattle.bed_grammar.specs.Gives.{Gives};
ghost use Rattle.bed_grammar.specs.declared.refusal.Refusal.TheVariants.{Memory};
ghost use Rattle.bed_read.specs.Classes.{class};

use crate::class::{LARGE_NUMBER, NAME, NUMBER};
use bed_grammar::Refusal;
use bed_lang::Which;
use bed_lex::{Kind, Token};

/// What a function that reads gives: a tree and the tokens that follow it.
pub(crate) type Read<'a, V> = Result<(V, &'a [Token]), Refusal<'a, Token, Which>>;

/// The class of a token.
fn class_of(token: &Token) -> u32
    ensures { result ≡ class token.now }
{
    match &token.kind {
        Kind::Name(_) => NAME,
        Kind::Number(number) => {
            if *number <= 4096 {
                NUMBER
            } else {
                LARGE_NUMBER
            }
        }
        Kind::Word(word) => *word as u32 + 3,
        Kind::Fresh(_) => 85,
    }
}

/// Whether the next token is of this class.
pub(crate) fn looks_at(tokens: &[Token], wanted: u32) -> bool
    ensures { result ≡ nat_eq (class_at class (peek tokens.now)) wanted }
{
    match tokens {
        [token, ..] => class_of(token) == wanted,
        [] => false,
    }
}

/// Whether the next token is of one of these classes.
pub(crate) fn looks_at_any(tokens: &[Token], classes: &[u32]) -> bool
    ensures { result ≡ has classes.now (class_at class (peek tokens.now)) }
{
    for wanted in classes {
        if looks_at(tokens, *wanted) {
            return true;
        }
    }
    false
}

/// Takes the next token, which must be of this class; where a limit is given, such a token is refused as past it.
///
/// # Errors
///
/// `At` with the tokens themselves: with the limit where the next token is of the class, else with none.
pub(crate) fn take(tokens: &[Token], wanted: u32, limit: Option<Which>) -> Read<'_, &Token>
    ensures read { Gives (λ x. (x.0.now, x.1.now)) result (read_token class wanted limit tokens.now) }
    ensures of_class { IfOk result (λ x. class x.0.now ≡ wanted) }
    ensures shorter { IfOk result (λ x. length x.1.now < length tokens.now) }
    ensures without_memory { IfErr result (λ e. e ≢ Memory) }
    ensures within { IfOk result (λ _. limit ≡ None) }
{
    match tokens {
        [token, rest @ ..] if looks_at(tokens, wanted) => {
            if limit.is_some() {
                Err(Refusal::At {
                    rest: tokens,
                    limit,
                })
            } else {
                Ok((token, rest))
            }
        }
        _ => Err(Refusal::At {
            rest: tokens,
            limit: None,
        }),
    }
}
