//! The state of a run as the source text rewrites it, and which events it allows.
//!
//! The one model: a scene stands for a state of `ca_meaning` (`specs/Scene.antt`). Its bodies are terms and tables that
//! are rewritten whole, and its channels and waits are its own: nothing here is compiled, and no part is held or locked.
//!
//! `Scene::admits` is the decision of a checker of journals: a yes or no of state and event alone. It needs no program,
//! since in a state each body stands at rest, and takes no memory. It is exactly the meaning's step: what is admitted
//! leads to a state, and what isn't leads to none (`law`).
//!
//! `same_event` tells whether two events are one, with all that they show.
//!
//! Stands on `ca_value`, `ca_term`, `ca_asking` and `ca_meaning`, on `ca_timers` and `ca_registry` for the deadlines and the
//! registries, and on `ca_system_tasks` for the tables. Start with `specs/Admits.antt`, `scene` and `admitting`.
#![tactic(auto)]

pub mod admitting;
mod branch;
mod choosing;
mod deciding;
mod ending;
pub mod law;
mod making;
mod ports;
mod ready;
mod refusal;
mod registering;
pub mod room;
mod row;
mod same;
pub mod same_event;
pub mod scene;
pub mod task;
mod ticking;
mod waking;
