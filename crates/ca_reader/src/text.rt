ghost use Rattle.std.specs.Prelude.{◌≡◌, ◌<◌};
ghost use Rattle.ca_reader.specs.Words.{length, drop, IfOk, text_cut, text_first, first_cut_view};

use crate::error::ReadErrorKind;
use crate::letter::{Letter, next_letter};
use crate::piece::{Atom, First, Piece};
use ca_value::memory::OutOfMemory;
use ca_value::seq::Text;
use std::alloc::Global;

/// The text whose opening quote is the first of these bytes.
pub fn text(alloc: Global, rest: &[u8]) -> Result<First, OutOfMemory>
    requires { 0 < length rest.now }
    ensures { IfOk result (λ f. first_cut_view f ≡ text_first (text_cut (drop 1 rest.now))) }
{
    let mut said = Text::new(alloc);
    let mut length: usize = 1;
    'letters: loop {
        match next_letter(&rest[length..]) {
            Letter::Character(bytes) => {
                said.append(&rest[length..length + bytes])?;
                length += bytes;
            }
            Letter::Escape(byte) => {
                said.append(&[byte])?;
                length += 2;
            }
            Letter::Quote => {
                return Ok(First::Found(Piece::One(Atom::Text(said)), length + 1));
            }
            Letter::Missing => return Ok(First::Wrong(ReadErrorKind::UnclosedText, 0)),
            Letter::Bad(kind) => return Ok(First::Wrong(kind, length)),
        }
    }
}
