//! What stands at a place of a proof text.
ghost use Rattle.std.specs.Prelude.{◌≡◌, ◌≤◌, ◌+◌, length, IfOk};
ghost use Rattle.bed_lex.specs.Tokens.{is_digit, run_length};
ghost use Rattle.bed_proof_lex.specs.Tokens.{fresh_piece, plain_piece, piece_at, Extends};

use bed_lang::{List, Name};
use bed_lex::{Front, Kind, LexError, Token, digits, find_front, name_byte};
use std::alloc::{AllocError, Global};

/// What stands at a place of a text, with its number of bytes.
#[derive(Drop)]
pub enum Piece {
    /// Nothing: the text ends here, or no token begins here.
    Stop(Option<LexError>),
    /// A blank or a comment.
    Blank(usize),
    /// A token.
    Token(Token, usize),
}

/// How many bytes of names stand at the front.
fn run(text: &[u8]) -> usize
    ensures exact { result ≡ run_length text.now }
    ensures within { result ≤ length text.now }
{
    text.iter().take_while(|byte| name_byte(**byte)).count()
}

fn digit(byte: u8) -> bool
    ensures { result ≡ is_digit byte }
{
    48 <= byte && byte <= 57
}

/// The fresh variable whose digits stand after its `#`, which has this place.
fn fresh(after: &[u8], at: u32) -> Piece
    ensures exact { result ≡ fresh_piece at after.now }
    ensures sized { Extends result (1 + length after.now) }
{
    match after {
        [first, ..] if digit(*first) => {
            let length = run(after);
            match digits(&after[..length], false) {
                Some(number) => Piece::Token(
                    Token {
                        kind: Kind::Fresh(number),
                        at,
                    },
                    length + 1,
                ),
                None => Piece::Stop(Some(LexError::Number { at })),
            }
        }
        _ => Piece::Stop(Some(LexError::BadByte { at })),
    }
}

/// The name of these bytes.
fn named(alloc: Global, bytes: &[u8], at: u32) -> Result<Token, AllocError>
    ensures { IfOk result (λ t. t ≡ record { kind = Kind.Name (record { bytes = bytes.now; at = at }); at = at }) }
{
    let bytes = List::from_slice(alloc, bytes)?;
    Ok(Token {
        kind: Kind::Name(Name { bytes, at }),
        at,
    })
}

/// What stands at a place, as in module texts.
fn plain(alloc: Global, text: &[u8], at: u32) -> Result<Piece, AllocError>
    ensures exact { IfOk result (λ p. p ≡ plain_piece at text.now) }
    ensures sized { IfOk result (λ p. Extends p (length text.now)) }
{
    match find_front(text) {
        Front::End => Ok(Piece::Stop(None)),
        Front::Skip(size) => Ok(Piece::Blank(size)),
        Front::Word(word, size) => Ok(Piece::Token(
            Token {
                kind: Kind::Word(word),
                at,
            },
            size,
        )),
        Front::Number(value, size) => Ok(Piece::Token(
            Token {
                kind: Kind::Number(value),
                at,
            },
            size,
        )),
        Front::Name(size) => Ok(Piece::Token(named(alloc, &text[..size], at)?, size)),
        Front::BadByte => Ok(Piece::Stop(Some(LexError::BadByte { at }))),
        Front::BadNumber => Ok(Piece::Stop(Some(LexError::Number { at }))),
        Front::LongName => Ok(Piece::Stop(Some(LexError::LongName { at }))),
    }
}

/// What stands at the front of a text, which begins at this place.
///
/// # Errors
/// `AllocError` for want of memory.
#[tactic(auto, unfolding(crate::specs::Tokens::piece_at))]
pub(crate) fn find_piece(alloc: Global, text: &[u8], at: u32) -> Result<Piece, AllocError>
    ensures exact { IfOk result (λ p. p ≡ piece_at at text.now) }
    ensures sized { IfOk result (λ p. Extends p (length text.now)) }
{
    match text {
        [first, after @ ..] if *first == 35 => Ok(fresh(after, at)),
        _ => plain(alloc, text, at),
    }
}
