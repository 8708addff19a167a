ghost use Rattle.std.specs.Prelude.{◌≡◌, ◌≤◌, ◌^◌, ◌<◌};
ghost use Rattle.ca_reader.specs.Words.{length, None, IfSome, IfOk, true, list_all, digits_value, with_sign, unsigned, is_numeral, is_decimal, number, keyword, token_word, meaning, token_first, atom_view, first_cut_view, is_digit};

use crate::bytes::{byte_at, is_digit};
use crate::error::ReadErrorKind;
use crate::piece::{Atom, First, Piece};
use ca_value::memory::OutOfMemory;
use ca_value::seq::Text;
use std::alloc::Global;

/// What a text begins with, where its longest run of token bytes is this one.
#[tactic(auto, unfolding(crate::specs::Tokens::meaning))]
pub fn token(alloc: Global, token: &[u8]) -> Result<First, OutOfMemory>
    ensures { IfOk result (λ f. first_cut_view f ≡ token_first (length token.now) (meaning token.now)) }
{
    if is_numeral(token) {
        return Ok(match number(token) {
            Some(number) => First::Found(Piece::One(Atom::Int(number)), token.len()),
            None => First::Wrong(ReadErrorKind::BadNumber, 0),
        });
    }
    if byte_at(token, 0) == b':' {
        return keyword(alloc, token);
    }
    if token.contains(&b':') {
        return Ok(First::Wrong(ReadErrorKind::BadByte, 0));
    }
    Ok(First::Found(Piece::One(word(alloc, token)?), token.len()))
}

/// What a token that begins with a colon says.
#[tactic(auto, unfolding(crate::specs::Tokens::meaning))]
fn keyword(alloc: Global, token: &[u8]) -> Result<First, OutOfMemory>
    ensures { IfOk result (λ f. first_cut_view f ≡ token_first (length token.now) (keyword token.now)) }
{
    let Some((_, name)) = token.split_first() else {
        return Ok(First::Wrong(ReadErrorKind::BadByte, 0));
    };
    if name.is_empty() || name.contains(&b':') {
        return Ok(First::Wrong(ReadErrorKind::BadByte, 0));
    }
    let name = Text::from_bytes(alloc, name)?;
    Ok(First::Found(Piece::One(Atom::Key(name)), token.len()))
}

/// What a token without colon says that is no number.
fn word(alloc: Global, token: &[u8]) -> Result<Atom, OutOfMemory>
    ensures { IfOk result (λ a. atom_view a ≡ token_word token.now) }
{
    if token == b"nil".as_slice() {
        return Ok(Atom::Nil);
    }
    if token == b"true".as_slice() {
        return Ok(Atom::Bool(true));
    }
    if token == b"false".as_slice() {
        return Ok(Atom::Bool(false));
    }
    Ok(Atom::Symbol(Text::from_bytes(alloc, token)?))
}

/// The token without the sign that it may begin with.
fn unsigned(token: &[u8]) -> &[u8]
    ensures { result.now ≡ unsigned token.now }
{
    let sign = byte_at(token, 0);
    if sign == b'+' || sign == b'-' {
        &token[1..]
    } else {
        token
    }
}

/// Whether it begins with a digit, or with a sign and a digit.
fn is_numeral(token: &[u8]) -> bool
    ensures { result ≡ is_numeral token.now }
{
    is_digit(byte_at(unsigned(token), 0))
}

/// The number that the token writes, where it is well written and fits.
fn number(token: &[u8]) -> Option<i64>
    ensures { result ≡ number token.now }
{
    let digits = unsigned(token);
    if !is_decimal(digits) {
        return None;
    }
    with_sign(byte_at(token, 0) == b'-', magnitude(digits)?)
}

/// Of digits: whether they are `0`, or don't begin with `0`.
fn is_decimal(digits: &[u8]) -> bool
    ensures { result ≡ is_decimal digits.now }
{
    if byte_at(digits, 0) == b'0' {
        digits.len() == 1
    } else {
        are_digits(digits)
    }
}

fn are_digits(bytes: &[u8]) -> bool
    ensures { result ≡ list_all is_digit bytes.now }
{
    for byte in bytes {
        if !is_digit(*byte) {
            return false;
        }
    }
    true
}

/// The number of these digits, or None where it is 2 ^ 64 or more.
#[tactic(auto, using(crate::proofs::Numbers::number_more, crate::proofs::Numbers::number_at_least))]
fn magnitude(digits: &[u8]) -> Option<u64>
    requires { list_all is_digit digits.now ≡ true }
    ensures some { IfSome result (λ n. n ≡ digits_value 10 digits.now) }
    ensures none { result ≡ None → 2 ^ 64 ≤ digits_value 10 digits.now }
{
    let mut number: u64 = 0;
    for digit in digits {
        number = number
            .checked_mul(10)?
            .checked_add(u64::from(*digit - b'0'))?;
    }
    Some(number)
}

/// The number with its sign, where 64 bits hold it.
fn with_sign(negative: bool, number: u64) -> Option<i64>
    ensures { result ≡ with_sign negative number }
{
    const LEAST: u64 = 1 << 63;
    if number < LEAST {
        let number = number as i64;
        Some(if negative { -number } else { number })
    } else if negative && number == LEAST {
        Some(i64::MIN)
    } else {
        None
    }
}
