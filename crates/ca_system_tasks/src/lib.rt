//! The ten kinds of system task as one type.
//!
//! The one model: a task's table is its body in the meaning (`table_body`). It is made of a seed's kind and values, stands
//! where its body stands, and goes on with an answer as its body does. Where it is about to apply a plain function it says
//! which one, and it goes on with what that comes to: so a body comes to rest (`rested`), whoever applies the function.
//!
//! Stands on `ca_system` and on the crates of its tables, and on no code. Start with `table`.
#![tactic(auto)]

pub mod table;
