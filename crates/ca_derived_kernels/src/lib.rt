//! What the go forms of the derived forms come to: where `ca_derived` expands a `reduce`, an `into`, a `take` or a
//! `split`, its go form is walked to a Spawn, and the text of the new task, with any values put in for the names that it
//! uses, is the term that the laws of `ca_derived_laws` speak of.
//!
//! It holds in each environment where the hidden names of the row are bound and its builtins are not shadowed
//! (`TakeNamesBound` of `specs/Walked.antt` and its like). Stands on `ca_forms`, whose `specs/Walk.antt` says what a
//! form comes to, and on `ca_derived` and `ca_derived_laws`. Start with `specs/Walked.antt`.
#![tactic(auto)]

pub mod kernels;
