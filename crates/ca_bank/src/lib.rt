//! Banks of channels and registries, and shards of waits.
//!
//! The models: a shard is a map from the numbers of waits to who waits. A bank is a map from the numbers of
//! channels to what stands there: the channel as the meaning has it, and a queue of handlers for each side,
//! with the room that each list has; and a map from the numbers of mults, mixes and publications to the
//! registries of `ca_registry`. A port or a wait belongs to the bank or shard whose number is what is left of its own
//! number, divided by how many there are.
//!
//! A wait is live exactly where it stands in its shard. A handler whose wait is gone is stale: it stays in
//! its queue until somebody prunes it. A shard has sixteen places; a wait stands at the one that its number tells, or in a
//! table by hash where another stands there (`wait_table`).
//!
//! Only calls named `reserve` take memory. Finding a port or a wait costs the same however many there are,
//! and so does what is done at the front of a queue.
//!
//! Stands on `ca_value`, `ca_term`, `ca_meaning`, `ca_buffers` and `ca_registry`. Start with `shard`, then `bank`; `room`
//! is one channel in its bank.
#![tactic(auto)]

pub mod bank;
pub mod handler;
pub mod law;
mod near_row;
pub mod room;
pub mod shard;
pub mod standing;
mod wait_table;
