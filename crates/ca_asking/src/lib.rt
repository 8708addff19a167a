//! What an operation over values asks for: the operation as a task's want, or the fault of an operand.
//!
//! The one model: `asked` of `ca_term` says what a head over values comes to; `ask` makes it. An operand is a value,
//! or a term that is one (`operands`). Whether it names a port of the kind that is needed is judged later, at the event.
//!
//! Stands on `ca_value` and `ca_term`. Start with `asking`.
#![tactic(auto)]

pub mod asking;
pub mod judging;
pub mod line;
pub mod making;
pub mod modes;
pub mod operands;
mod room;
