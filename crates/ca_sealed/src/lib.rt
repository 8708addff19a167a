//! What the checker accepts is sealed: the ports that the forms `mult`, `sub` and `pipeline` make for the library's own
//! tasks have names that stand nowhere else in the program, and each task that uses such a port alone is started once.
//!
//! The one model: a tidy term (`proofs/Tidy.antt`), in which each binder takes the next number and the forms with hidden
//! names stand whole. Each word of the expansion makes tidy terms of parts that do, and a tidy term is sealed.
//!
//! Stands on `ca_check`, whose `specs/Expansion.antt` says what a script means, on `ca_roles`, whose
//! `specs/Sealed.antt` and `specs/Once.antt` say what is shown of it, and on `ca_derived_laws`. Start with `laws`, then
//! `accepted_scripts`, and `networks` for what `ca_networks` then says of its pipelines and mults, and `journals` for all
//! laws of a run.
#![tactic(auto)]

pub mod accepted_scripts;
pub mod journals;
pub mod laws;
pub mod networks;
