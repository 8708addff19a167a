ghost use Rattle.std.specs.Prelude.{◌≡◌};
ghost use Rattle.ca_reader.specs.Words.{ℕ, List, length, is_continuation, may_follow, char_len, letter, escape, letter_view, LetterFits};

use crate::bytes::byte_at;
use crate::error::ReadErrorKind;

/// What comes next in a text between quotes.
#[derive(Clone, Copy)]
pub enum Letter {
    /// A character of so many bytes.
    Character(usize),
    /// A backslash and a byte, which stand for this one.
    Escape(u8),
    Quote,
    /// The end of the script.
    Missing,
    Bad(ReadErrorKind),
}

/// The next letter of a text.
#[tactic(auto, using(crate::proofs::Cuts::char_len_fits), unfolding(crate::specs::Texts::letter))]
pub fn next_letter(rest: &[u8]) -> Letter
    ensures value { letter_view rest.now result ≡ letter rest.now }
    ensures fits { LetterFits (length rest.now) (letter_view rest.now result) }
{
    let Some((byte, behind)) = rest.split_first() else {
        return Letter::Missing;
    };
    if *byte == b'"' {
        return Letter::Quote;
    }
    if *byte == b'\\' {
        return escape(behind);
    }
    match char_len(rest) {
        0 => Letter::Bad(ReadErrorKind::BadByte),
        length => Letter::Character(length),
    }
}

/// The letter that a backslash before these bytes begins.
fn escape(behind: &[u8]) -> Letter
    ensures { (bytes : List ℕ) → letter_view bytes result ≡ escape behind.now }
{
    let Some((byte, _)) = behind.split_first() else {
        return Letter::Missing;
    };
    match *byte {
        b'"' => Letter::Escape(b'"'),
        b'\\' => Letter::Escape(b'\\'),
        b'n' => Letter::Escape(b'\n'),
        b't' => Letter::Escape(b'\t'),
        b'r' => Letter::Escape(b'\r'),
        _ => Letter::Bad(ReadErrorKind::BadEscape),
    }
}

/// How many bytes the character of UTF-8 has that begins these bytes, or 0 where none does.
#[tactic(auto, unfolding(crate::specs::Texts::char_len))]
fn char_len(rest: &[u8]) -> usize
    ensures { result ≡ char_len rest.now }
{
    let lead = byte_at(rest, 0);
    if lead < 0x80 {
        return 1;
    }
    let second = byte_at(rest, 1);
    if matches!(lead, 0xC2..=0xDF) && is_continuation(second) {
        return 2;
    }
    let third = is_continuation(byte_at(rest, 2));
    if matches!(lead, 0xE0..=0xEF) && may_follow(lead, second) && third {
        return 3;
    }
    let fourth = is_continuation(byte_at(rest, 3));
    if matches!(lead, 0xF0..=0xF4) && may_follow(lead, second) && third && fourth {
        return 4;
    }
    0
}

fn is_continuation(byte: u8) -> bool
    ensures { result ≡ is_continuation byte }
{
    matches!(byte, 0x80..=0xBF)
}

/// Whether a character that begins with `lead` may go on with `second`.
fn may_follow(lead: u8, second: u8) -> bool
    ensures { result ≡ may_follow lead second }
{
    match lead {
        0xE0 => matches!(second, 0xA0..=0xBF),
        0xF0 => matches!(second, 0x90..=0xBF),
        0xED => matches!(second, 0x80..=0x9F),
        0xF4 => matches!(second, 0x80..=0x8F),
        _ => matches!(second, 0x80..=0xBF),
    }
}
