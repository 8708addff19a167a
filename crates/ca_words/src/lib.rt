//! The words of the command line, read with clap.
//!
//! The one model: words are a list of texts, and `command_in` of `specs/Words.antt` says which command they are, if
//! any: each option that stands apart from its value is joined to it, and then a line is a matter of which words are
//! in it, in any order. `read_words` answers exactly that command, in both outcomes.
//!
//! clap parses the words. What the product refuses beyond it (`--`, a word that begins with a single `-`, another
//! first word) is judged before, and numbers are read behind it, since they are stricter than clap's.
//!
//! Stands on `clap` alone. Start with `specs/Words.antt` and `reading`, then `line`, which is what clap is told.
#![tactic(auto)]

pub mod command;
mod line;
mod name;
mod number;
pub mod reading;
