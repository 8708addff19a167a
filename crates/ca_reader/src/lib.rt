//! Scripts: text to forms, and back.
//!
//! The one model: forms are plain data, `FormTree` of `specs/Form.antt`, reached by `form_tree`. A text
//! is cut into pieces (`specs/Pieces.antt`), and its pieces nest to forms or meet a first fault
//! (`specs/Reads.antt`); `read::read` answers exactly so, and `print::print` writes forms so that they are read again.
//!
//! Stands on `ca_value` for lists and on `ca_term` for places. Start with `form`, then `read`.
#![tactic(auto)]

mod bytes;
mod cut;
pub mod error;
pub mod form;
mod letter;
mod lines;
mod nest;
mod piece;
pub mod print;
pub mod read;
mod text;
mod token;
