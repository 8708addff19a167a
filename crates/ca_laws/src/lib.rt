//! Laws of the tasks that the library starts for itself, over every legal journal.
//!
//! The one model: what a journal tells of one task (`specs/Deeds.antt`), and a rule, which says what the task may
//! ask for after all that it did (`specs/Rules.antt`). A law says that each task of a kind keeps to its rule. It is
//! the contract of a function that does nothing, and is proved of the meaning, whatever the program.
//!
//! Stands on `ca_meaning`. Start with `specs/Deeds.antt` and `specs/Rules.antt`, then `specs/MixLaw.antt` and
//! `mixes`.
#![tactic(auto)]

pub mod mixes;
pub mod mults;
pub mod pipelines;
pub mod pipes;
pub mod publications;
pub mod spawns;
