//! Laws of the derived forms, over every journal that leads anywhere: what a `reduce`, an `into`, a `take` and a `split`
//! did.
//!
//! The one model: the task of such a form as a term with its values put in (`specs/TakeTask.antt` and its like), and what
//! a journal tells of one task (`specs/Deeds.antt` of `ca_laws`). A law says what a task did whose body at its Spawn is
//! such a term. That the forms of `ca_derived` come to these terms is shown by `ca_derived_kernels`.
//!
//! A task at rest stands in one of a few stages; each stage tells its body and what it did by then
//! (`proofs/Taking.antt` and its like). Stands on `ca_laws`. Start with `specs/TakeTask.antt` and `specs/TakeLaw.antt`,
//! then `laws`.
#![tactic(auto)]

pub mod laws;
