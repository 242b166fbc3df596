//! The tokens of a text, one after another.
ghost use Rattle.std.specs.Prelude.{◌≡◌, ◌<◌, ◌^◌, ◌++◌, ◌∷◌, [], length, IfOk, Ok, Err, Some, None};
ghost use Rattle.bed_lex.specs.Tokens.{Lexed, IsScan, OneScan, HasScan, IsLongestMark, NumbersFit, Tokenizes};

use crate::front::{Front, find_front};
use crate::token::{Kind, LexError, Token};
use bed_lang::{List, Name};
use std::alloc::{AllocError, Global};

/// The tokens of a text up to the first place that stands in none.
#[derive(Drop)]
pub struct Scanned {
    /// The tokens before that place, or all.
    pub tokens: List<Token>,
    /// The refusal at that place, where there is one.
    pub fault: Option<LexError>,
}

fn named(alloc: Global, text: &[u8], at: u32) -> Result<Token, AllocError>
    ensures { IfOk result (λ t. t ≡ record { kind = Kind.Name (record { bytes = text.now; at = at }); at = at }) }
{
    let bytes = List::from_slice(alloc, text)?;
    Ok(Token {
        kind: Kind::Name(Name { bytes, at }),
        at,
    })
}

/// The tokens of a text, up to the first place that stands in none.
///
/// # Errors
/// `AllocError` for want of memory.
pub fn scan(alloc: Global, text: &[u8]) -> Result<Scanned, AllocError>
    requires { length text.now < 2 ^ 32 }
    ensures { IfOk result (λ scanned. IsScan text.now scanned) }
{
    let mut tokens = List::new(alloc);
    let mut place = 0;
    loop {
        let rest = &text[place..];
        let at = place as u32;
        match find_front(rest) {
            Front::End => {
                return Ok(Scanned {
                    tokens,
                    fault: None,
                });
            }
            Front::Skip(size) => place += size,
            Front::Word(word, size) => {
                tokens.push(Token {
                    kind: Kind::Word(word),
                    at,
                })?;
                place += size;
            }
            Front::Number(value, size) => {
                tokens.push(Token {
                    kind: Kind::Number(value),
                    at,
                })?;
                place += size;
            }
            Front::Name(size) => {
                tokens.push(named(alloc, &rest[..size], at)?)?;
                place += size;
            }
            Front::BadByte => {
                return Ok(Scanned {
                    tokens,
                    fault: Some(LexError::BadByte { at }),
                });
            }
            Front::BadNumber => {
                return Ok(Scanned {
                    tokens,
                    fault: Some(LexError::Number { at }),
                });
            }
            Front::LongName => {
                return Ok(Scanned {
                    tokens,
                    fault: Some(LexError::LongName { at }),
                });
            }
        }
    }
}

/// All tokens of a text, in order.
///
/// # Errors
/// The first place that stands in no token, as `BadByte`, `Number` or `LongName`; `Memory` for
/// want of memory.
pub fn tokens(alloc: Global, text: &[u8]) -> Result<List<Token>, LexError>
    requires { length text.now < 2 ^ 32 }
    ensures { Tokenizes text.now result }
{
    let Scanned { tokens, fault } = scan(alloc, text)?;
    match fault {
        None => Ok(tokens),
        Some(error) => Err(error),
    }
}

/// A text has one list of tokens and one first refusal, so `scan` and `tokens` give the only ones.
pub fn has_one_scan(_text: &[u8])
    ensures { OneScan _text.now }
{}

/// A text has such a list of tokens.
pub fn has_a_scan(_text: &[u8])
    ensures { HasScan _text.now }
{}

/// No longer mark stands at a place than the one that a token takes there.
pub fn takes_longest_mark(_text: &[u8], _mark: &[u8])
    ensures { IsLongestMark _text.now _mark.now }
{}

/// The numbers among the tokens of a text are words of 32 bits.
pub fn has_word_numbers(_text: &[u8])
    ensures { NumbersFit _text.now }
{}
