//! The outside, and the one public call that the program makes.
//!
//! The one model: a source tells the bytes still to come and a sink the bytes taken, where they tell them,
//! and each counts its faults. `main_call` reads the words and the source, runs the script or judges a journal beside it, and
//! writes what it prints or finds; its clauses are the headline and the cause of each status.
//!
//! Stands on `ca_words` for the command line, on `ca_reader` and `ca_check` for a script's program, on `ca_moves` and
//! `ca_tasks` for its compiled text, on `ca_pool` for its run, on `ca_journal_reader`, `ca_replay`, `ca_follow` and `ca_report`
//! for what is found of a journal, on `ca_timers`, `ca_journal` and what these stand on, and on `itoa`. Start with `top` and
//! `specs/Top.antt`, then `answer`, `run` and `finding`.
#![tactic(auto)]

pub mod answer;
pub mod device;
pub mod failing;
pub mod finding;
pub mod generator;
pub mod laws;
pub mod memory;
pub mod parting;
pub mod run;
pub mod standard;
pub mod stop;
pub mod top;
