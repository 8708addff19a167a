//! Journals: text to events.
//!
//! The one model: `JournalReads` of `specs/Input.antt` says which journal is read from bytes, `IsBadLine` which line is the
//! first that is none; `read::read_journal` answers exactly so. Both are told by the printer's own definition of a line
//! (`ca_meaning`, `specs/Journal.antt`), so what is read is what is printed.
//!
//! A line is read leniently, field by field, by a `cursor` over the bytes that are left. Each function there finds what a
//! function of the text finds (`specs/Words.antt`, `ValueText.antt`, `FieldText.antt`, `EventText.antt`); that these find
//! again what was printed is proved in `proofs/`. What was read is then printed over the same memory and compared with the
//! line, which refuses all that prints otherwise.
//!
//! Stands on `ca_value`, `ca_term`, `ca_meaning` and `ca_journal`. Start with `read`, then `event` and `cursor`.
#![tactic(auto)]

mod cursor;
pub mod error;
mod event;
mod field;
mod list;
pub mod read;
mod refused;
mod text;
mod value;
mod word;
