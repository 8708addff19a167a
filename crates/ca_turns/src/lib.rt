//! Turns: an object cut into numbered parts, which workers hold and change one event at a time.
//!
//! A `Table` has the parts, and a `Hand` is one worker's token. A worker holds each part that an
//! event touches, by one compare and exchange on that part's word, changes them, and draws the
//! event's number by one `fetch_add`. So all events have one order, whatever the workers' steps and
//! their interleaving, and in that order they are one run of the object.
//!
//! The model is the one-history rule (`OneHistory` in `specs/OneHistory.antt`), which holds between
//! any two atomic steps. It speaks of what each hand holds and drew. `history_is_one_run` says what
//! follows from it.
//!
//! The crate stands on `atomic_table`, and on `crossbeam_utils` for the padding that keeps each slot on
//! lines of the cache of its own; where the words stand is one function, `line` in `steps.rt`. Start with `object.rt`, what a user says of parts and
//! events; then `rule.rt`, what a table and a hand are to a proof; then `table.rt` and `turning.rt`,
//! the calls. `steps.rt` has the atomic steps: take or miss, out, draw, back, free, split and join.
#![tactic(auto)]

mod ends;
mod errors;
mod hand;
mod kept;
mod lend;
mod object;
mod rule;
mod steps;
mod table;
mod turning;

pub use errors::{Busy, OutOfMemory};
pub use hand::{Hand, HandOf};
pub use object::Object;
pub use rule::{Turn, View, history_is_one_run};
pub use table::{Closed, Table};
