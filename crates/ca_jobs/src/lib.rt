//! The jobs of a pipeline.
//!
//! The one model: a job is a body of its table in the meaning, reached by a view of `specs/`. It takes a value with its
//! reply port, makes the outputs of the value from what the pipeline's function came to (`outputs`), and answers with them
//! (`job`).
//!
//! Stands on `ca_system`. Start with `specs/Jobs.antt`, then `job`.
#![tactic(auto)]

pub mod job;
mod outputs;
