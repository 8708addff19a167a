//! Go blocks as state machines: code of numbered blocks over slots, the rules of valid code, and a runner.
//!
//! The one model: code is a list of blocks, a runner stands at a block with a list of values as its slots,
//! the calls that wait for it, and its turns. `specs/Machine.antt` says what it does next; it knows no
//! term. `specs/Valid.antt` has the five rules that `validate` decides. A `Runner` of valid code goes on to
//! the next operation, the end or a fault: what the machine comes to, block by block. It needs no test of
//! slots or targets, since the rules hold.
//!
//! Stands on `ca_value`, `ca_term` and `ca_asking`. Start with `code` and `specs/Code.antt`, then
//! `specs/Machine.antt`, `specs/Valid.antt`, and `runner` with `specs/Standing.antt`.
#![tactic(auto)]

mod call;
mod calls;
mod check;
pub mod code;
mod cutting;
mod entry;
mod halt;
mod instr;
mod leave;
mod notes;
mod plain;
mod range;
pub mod runner;
mod slots;
mod step;
pub mod stop;
mod touch;
pub mod valid_code;
pub mod validate;
