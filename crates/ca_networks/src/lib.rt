//! Laws of whole networks of the library's own tasks, over every legal journal: what a pipeline puts, and what a mult
//! delivers.
//!
//! The one model: what a journal tells of one task (`ca_laws`), read together for all tasks of a network. That its
//! hidden ports stay hidden is taken from `ca_roles`.
//!
//! Stands on `ca_laws` and `ca_roles`. Start with `specs/Networks.antt`, then `specs/PipelineLaw.antt` and `pipelines`,
//! `specs/MultLaw.antt` and `mults`. The proofs take from `ca_roles` what `proofs/Guarded.antt` says of each state and each
//! event of a run.
#![tactic(auto)]

pub mod mults;
pub mod pipelines;
pub mod spawns;
