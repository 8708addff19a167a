//! The journal of a run: the workers' events in one list, where it ends, and its texts.
//!
//! The one model: an entry is an event with the number that it was drawn at, a journal the list of the
//! events in order. What a journal prints and when it ends are the definitions of `ca_meaning`
//! (`specs/Texts.antt`, `specs/Journal.antt`, `specs/Ends.antt`); what the list of several workers' events is stands in
//! `specs/Merge.antt`.
//!
//! A worker notes its events in a list of its own (`entries`), in pieces that no entry leaves; a frequent event is a
//! `note` of 48 bytes, a rare one lies in a box. A journal is these lists as they are: `merge` moves no entry. Who reads
//! it in order walks the lists side by side (`walk`, `least`). What the run writes, what the events cost and how often
//! the main text is over is kept beside the notes, so that `cut` and `output` read few events of a run that stays below
//! its budget. Texts grow geometrically.
//!
//! Stands on `ca_value`, `ca_term`, `ca_meaning` and `itoa`. Start with `note` and `entries`, then `merge`, `journal` and
//! `walk`; `shown` has the event that a note stands for; `line` has the lines of the journal, one function for each kind of event;
//! `numbered` tells that the numbers of all events lie in 64 bits.
#![tactic(auto)]

pub mod cut;
pub mod entries;
pub mod entry;
pub mod fits;
pub mod journal;
pub mod last;
mod least;
pub mod line;
mod main_end;
pub mod merge;
mod name;
pub mod note;
pub mod numbered;
pub mod output;
pub mod part;
pub mod print;
pub mod shown;
mod tally;
pub mod walk;
