//! The checker of journals: a scene is rewritten event by event.
//!
//! The one model: an event that a scene admits leads to the one state that the meaning's step says (`apply`). Bodies are
//! terms and tables that are rewritten whole; nothing here is compiled.
//!
//! A `World` is a scene with its program: it begins where the program's runs begin, and steps along their events. `judge`
//! steps one along a journal and tells an `Observer` each event; `replay` is the verdict on a journal
//! (`specs/Verdict.antt`).
//!
//! Stands on `ca_scene`, which decides whether an event is admitted. Start with `specs/World.antt` and `world`, then
//! `specs/SceneOf.antt` and `apply`.
#![tactic(auto)]

mod apply;
mod calling;
mod changing;
mod closing;
mod completing;
mod defaulting;
mod doing;
mod ending;
mod going;
mod joining;
pub mod judging;
mod keeping;
mod leaving;
pub mod main_end;
mod making;
mod meeting;
pub mod observer;
mod opening;
mod parking;
mod possible;
mod posting;
mod printing;
mod registering;
pub mod replaying;
mod replying;
mod resting;
mod settling;
mod spawning;
mod stepping;
mod ticking;
pub mod world;
