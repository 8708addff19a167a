//! The task of a publication.
//!
//! The one model: it is a body of its table in the meaning, reached by a view of `specs/`. Of each value of its source it
//! asks for the topic, which a plain function makes; it asks its registry for the topic's channel and puts the value there
//! (`publication`); `answers` reads the registry's answers.
//!
//! Stands on `ca_system`. Start with `specs/Publications.antt`, then `publication`.
#![tactic(auto)]

mod answers;
pub mod publication;
