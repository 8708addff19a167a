//! Counters that workers add to by turns: the smallest user of `ca_turns`, and its tests.
//!
//! The object is a row of counters. An event adds 1 to one of them, or to two that stand side by
//! side. The crate stands on `ca_turns` alone. Start with `counters.rt`, the object; `adding.rt` has
//! one turn of a hand, `working.rt` many turns of many hands in threads, and `counting.rt` a table
//! from its opening to its close, with the theorem on what it counts.
#![tactic(auto)]

mod adding;
mod counters;
mod counting;
mod gathering;
mod workers;
mod working;

pub use adding::{add, add_held, add_one, add_pair};
pub use counters::{Counters, Event};
pub use counting::{Counted, count};
pub use gathering::{enlist, gather};
pub use workers::Worker;
pub use working::{work, work_all};

#[cfg(test)]
mod tests;
