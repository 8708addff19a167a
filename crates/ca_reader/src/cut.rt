ghost use Rattle.std.specs.Prelude.{◌≡◌, ◌==◌};
ghost use Rattle.ca_reader.specs.Words.{length, IfOk, prefix_len, position_or_len, is_token_byte, first, bracket_first, comment_len, token, first_cut_view, FirstFits};

use crate::bytes::{is_separator, is_token_byte};
use crate::error::ReadErrorKind;
use crate::form::Bracket;
use crate::piece::{First, Piece};
use crate::text::text;
use crate::token::token;
use ca_value::memory::OutOfMemory;
use std::alloc::Global;

/// What the rest of a script begins with.
pub fn next_piece(alloc: Global, rest: &[u8]) -> Result<First, OutOfMemory>
    ensures value { IfOk result (λ f. first_cut_view f ≡ first rest.now) }
    ensures fits { IfOk result (λ f. FirstFits (length rest.now) (first_cut_view f)) }
{
    first(alloc, rest)
}

#[tactic(auto, unfolding(crate::specs::Pieces::first))]
fn first(alloc: Global, rest: &[u8]) -> Result<First, OutOfMemory>
    ensures { IfOk result (λ f. first_cut_view f ≡ first rest.now) }
{
    let Some((byte, _)) = rest.split_first() else {
        return Ok(First::Over);
    };
    if is_separator(*byte) {
        return Ok(First::Blank(1));
    }
    if *byte == b';' {
        return Ok(First::Blank(comment_len(rest)));
    }
    if *byte == b'"' {
        return text(alloc, rest);
    }
    if is_token_byte(*byte) {
        return token(alloc, longest_token(rest));
    }
    Ok(bracket(*byte))
}

/// How far a comment goes: to the next line feed, or to the end.
fn comment_len(rest: &[u8]) -> usize
    ensures { result ≡ comment_len rest.now }
{
    for (index, byte) in rest.iter().enumerate() {
        if *byte == b'\n' {
            return index;
        }
    }
    rest.len()
}

/// The longest run of token bytes in front.
fn longest_token(rest: &[u8]) -> &[u8]
    ensures { result.now ≡ token rest.now }
{
    &rest[..token_len(rest)]
}

fn token_len(rest: &[u8]) -> usize
    ensures { result ≡ prefix_len is_token_byte rest.now }
{
    for (index, byte) in rest.iter().enumerate() {
        if !is_token_byte(*byte) {
            return index;
        }
    }
    rest.len()
}

/// The piece that this byte is, if it is a bracket.
fn bracket(byte: u8) -> First
    ensures { first_cut_view result ≡ bracket_first byte }
{
    match byte {
        b'(' => First::Found(Piece::Opener(Bracket::Round), 1),
        b')' => First::Found(Piece::Closer(Bracket::Round), 1),
        b'[' => First::Found(Piece::Opener(Bracket::Square), 1),
        b']' => First::Found(Piece::Closer(Bracket::Square), 1),
        b'{' => First::Found(Piece::Opener(Bracket::Curly), 1),
        b'}' => First::Found(Piece::Closer(Bracket::Curly), 1),
        _ => First::Wrong(ReadErrorKind::BadByte, 0),
    }
}
