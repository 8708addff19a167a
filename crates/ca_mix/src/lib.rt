//! The task of a mix.
//!
//! The one model: it is a body of its table in the meaning, reached by a view of `specs/`. It reads the modes of its
//! sources (`modes`), and from then on it takes what comes on those that it reads and puts what is heard on the output
//! (`mix`), until a change of the modes, or the end of a source, makes it read them again.
//!
//! Stands on `ca_system`. Start with `specs/Mixes.antt`, then `mix`.
#![tactic(auto)]

pub mod mix;
mod modes;
