//! What is registered at a mult, a mix and a publication: taps, sources and topics, in order.
//!
//! The one model: a registry is one of the meaning's registries, with a number of members for which there is room with no
//! growth. The meaning's table says what each operation on it comes to: an answer and a change, or a fault and none.
//!
//! Only `reserve` takes memory for a member, and an answer takes its own; `judging` tells an operation's fault, and whether
//! an answer is the one that it has, without any. A topic is found by its mark (`topic`).
//!
//! Beside them stands what else is judged of an operation by what its operands name: whether they are the ports that it
//! needs (`need`, `fit`), for whoever tells what stands at a port, and what a journal tells of a new task (`seed`).
//!
//! Stands on `ca_value`, `ca_term`, `ca_meaning` and `ca_asking`. Start with `registry`; `mult`, `mix` and `publication`
//! are the three, and `apart` tests what an operation needs of its arguments.
#![tactic(auto)]

pub mod apart;
pub mod fit;
pub mod judging;
pub mod kind;
mod listing;
mod mix;
mod mult;
pub mod need;
mod publication;
pub mod registry;
pub mod registry_error;
pub mod seed;
mod topic;
