//! Scripts to programs: every form of the profile expands to a kernel term, or has a first error.
//!
//! The one model: a form's meaning is a function of its parts' meanings (`ca_forms` has the rows), and `expansion_of`
//! of `specs/Expansion.antt` is the program of a script's forms, or the first error with its place.
//!
//! The one public call is `check`. It goes through the top-level forms (`tops`): the walk (`walk`) gives a form's
//! term, and a `defn` is walked until its hidden parameters are known (`defn`, `function_body`, `definitions`).
//!
//! The walk is one cycle of methods, in a module for each idea: `walk` goes through a form's parts, `calls` has
//! names and calls, `branches`, `choices` and `bound` the choices, `bindings` the forms that bind, `loops` and
//! `pattern_loops` the loops, `go_form` the go block, and `operations` and `hidden_forms` the forms of core.async,
//! whose shape `ca_forms` judges first.
//!
//! Stands on `ca_forms` for what a form comes to, on `ca_term` for programs and on `ca_reader` for forms. Start with
//! `check`.
#![tactic(auto)]

mod bindings;
mod bound;
mod branches;
mod calls;
pub mod check;
mod choices;
mod definitions;
mod defn;
mod function_body;
mod go_form;
mod hidden_forms;
pub mod laws;
mod loops;
mod operations;
mod pattern_loops;
mod tops;
mod walk;
