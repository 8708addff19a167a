//! The workers of a run: each makes the events of its tasks, and together they come to the run's end.
//!
//! The one model: a worker moves the parts that its next event touches out of its hand, decides and applies the event
//! there with `ca_commit`, lays them back and draws. What it may draw is `ca_table`'s condition, so whatever the workers do,
//! the journal is a run of the script's text; here stands that they go on, and that a run ends where it has an end.
//!
//! Stands on `ca_table`, for the table that they share and what may be drawn on it, and on `ca_commit`, for what an
//! operation becomes. Start with `pool_run`, a whole run; then `rounds`, all workers at once, and `work`, one of them, with
//! `visit` and `step` below it. A task's event: `operation` with `resolution` and `commit`, and `task_end`. What comes by
//! itself: `settle`, `prune`, `clock` with `tick`, and `idle` where no task can run. All of them hold parts by `hold`, and let
//! them go by `release` and `draw`.
#![tactic(auto)]

mod ahead;
mod clock;
mod commit;
mod cost;
mod draw;
pub mod gate;
mod hold;
mod idle;
mod limits;
mod named;
mod operation;
pub mod pool_run;
mod preparation;
mod progress;
mod prune;
mod release;
mod resolution;
pub mod rounds;
pub mod run_end;
mod settle;
mod stall;
mod step;
mod stir;
mod survey;
mod task_end;
mod tick;
mod visit;
pub mod work;
