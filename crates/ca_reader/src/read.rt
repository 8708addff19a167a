ghost use Rattle.std.specs.Prelude.{◌≡◌, ◌⊎◌};
ghost use Rattle.ca_reader.specs.Words.{ℕ, List, IfOk, IfErr, Place, list, ReadErrorKind, FormTrees, form_trees, letter, text_step, text_cut, first, pieces_step, pieces_from, Reads, ReadFault, IsFaultOf, ReadsAside, AreWritten, HaveScalars, written};

use crate::cut::next_piece;
use crate::error::ReadError;
use crate::form::Forms;
use crate::lines::past;
use crate::nest::Nest;
use crate::piece::First;
use ca_term::place::Place;
use std::alloc::Global;

/// The forms of a script, or the first fault in it; `OutOfMemory` at any time.
///
/// Goes through the bytes once, piece by piece, in time linear in their number.
pub fn read(alloc: Global, bytes: &[u8]) -> Result<Forms, ReadError>
    ensures forms { IfOk result (λ fs. Reads bytes.now (form_trees (list fs))) }
    ensures fault { IfErr result (λ e. IsFaultOf bytes.now e) }
    // So they can be printed.
    ensures printable { IfOk result (λ fs. (text : List ℕ) × ReadsAside text (form_trees (list fs))) }
{
    let mut nest = Nest::new(alloc);
    let mut place = Place { line: 1, column: 1 };
    let mut rest = bytes;
    'pieces: loop {
        match next_piece(alloc, rest)? {
            First::Over => return nest.finish(),
            First::Blank(length) => {
                place = past(place, &rest[..length]);
                rest = &rest[length..];
            }
            First::Found(piece, length) => {
                nest.add(piece, place)?;
                place = past(place, &rest[..length]);
                rest = &rest[length..];
            }
            First::Wrong(kind, length) => {
                return Err(ReadError::Fault(kind, past(place, &rest[..length])));
            }
        }
    }
}

/// Every text has forms or a fault, never both, and no two of either.
pub fn one_reading()
    ensures some { (bytes : List ℕ) → ((fs : FormTrees) × Reads bytes fs)
        ⊎ ((k : ReadErrorKind) × (p : Place) × ReadFault bytes k p) }
    ensures forms { (bytes : List ℕ) (fs gs : FormTrees) → Reads bytes fs → Reads bytes gs → fs ≡ gs }
    ensures fault { (bytes : List ℕ) (j k : ReadErrorKind) (p q : Place) → ReadFault bytes j p → ReadFault bytes k q
        → (j ≡ k) × (p ≡ q) }
    ensures not_both { (bytes : List ℕ) (fs : FormTrees) (k : ReadErrorKind) (p : Place) → Reads bytes fs
        → ReadFault bytes k p → ⊥ }
{}

/// A text and its pieces go on as their first letter and piece say, however long they are.
pub fn cuts_go_on()
    ensures text { (bytes : List ℕ) → text_cut bytes ≡ text_step text_cut bytes (letter bytes) }
    ensures pieces { (p : Place) (bytes : List ℕ) → pieces_from p bytes ≡ pieces_step pieces_from p bytes (first bytes) }
{}

/// The forms of a text have in them what a text can write: integers of 64 bits, keywords, and symbols of token bytes.
pub fn read_forms_are_written()
    ensures written { (bytes : List ℕ) (fs : FormTrees) → Reads bytes fs → AreWritten fs }
    ensures scalars { (fs : FormTrees) → AreWritten fs → HaveScalars written fs }
{}
