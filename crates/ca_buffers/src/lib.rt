//! The four buffers of a channel: fixed, dropping, sliding and promise.
//!
//! The one model: a buffer is the list of the values that it holds, the oldest first, with a capacity, a
//! policy, and a number of values for which there is room with no growth. What it keeps of a value, what
//! it drops and what it gives are the definitions of `ca_value`'s `specs/Buffer.antt`.
//!
//! Values stand in a ring, so that adding at the end and taking from the front cost the same however many
//! there are. Only `reserve` takes memory.
//!
//! Stands on `ca_value`. Start with the trait in `buffer`; `ring` is what three of the four are made of.
#![tactic(auto)]

pub mod any;
pub mod buffer;
pub mod dropping;
pub mod fixed;
pub mod promise;
mod ring;
pub mod sliding;
