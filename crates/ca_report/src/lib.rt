//! What a report on a journal tells: what each of its channels did, and who still waits, for who looks for what a program is
//! stuck at. Its definition, its laws, and the text of its parts.
//!
//! The one model is the report's text (`specs/Report.antt`): numbers of marks that the journal's events make, and what the
//! state holds that they lead to. What a channel drops is told by its policy, and each channel has its line (`law`).
//!
//! The events of a legal journal are counted as the judge of journals comes to them (`tally`, `passage`), and each line is
//! written from these counts and from what the world has of a channel or a wait (`lines`). Together the lines are the report
//! (`report`, `tallies_make_the_report`).
//!
//! Stands on `ca_value`, `ca_term`, `ca_asking`, `ca_meaning`, `ca_journal` and `ca_replay`. Start with `report` and `law`.
#![tactic(auto)]

pub mod law;
pub mod lines;
pub mod passage;
pub mod report;
pub mod tally;
