//! Values moved at their last use, in place of being copied, and tests that leave a block at once.
//!
//! The one model: code with each move a copy and each test a branch (`specs/Plain.antt`). Valid code goes as its plain
//! code does, so code that differs only in what it moves and tests stands for the same programs. Which slots are needed
//! where and which hold a value is guessed (`needs`, `held`), and no promise hangs on it: the blocks that come of it
//! (`blocks`, `letting_go`) are taken only where they are valid.
//!
//! Stands on `ca_states` and `ca_lower`. Start with `specs/Plain.antt`, then `moves`, `lower` and
//! `laws`.
#![tactic(auto)]

mod blocks;
mod by_block;
mod exits;
mod held;
pub mod laws;
mod letting_go;
pub mod lower;
pub mod moves;
mod needs;
mod slots;
