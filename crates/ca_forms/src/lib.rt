//! What the forms of the profile mean, each a row, and the calls that put a row's term together.
//!
//! The one model: a form's meaning is a function of its parts' meanings (`specs/Meaning.antt` has the words,
//! `specs/Plain.antt` and `specs/Channels.antt` the rows, `specs/Walk.antt` which row a form has). A call here takes
//! what the parts came to and answers the term of the whole.
//!
//! It has one module for each part: `words` and `special` tell what a symbol in front of a list is, `scope` and
//! `functions` what a name stands for, `gathered` what the forms behind it come to, `uses` which names a term takes
//! from outside, `shapes` and `options` how bindings and options are read, `planned` which shape a form of core.async
//! has, and the rest put a row's term together: `fixed`, `rounds`, `go`, `hidden`, `publications`, `pipelines` and
//! `channels`.
//!
//! Stands on `ca_value` for builtins, on `ca_term` for terms and on `ca_reader` for forms. Start with `error` and
//! `special`, then `gathered`. `ca_check` walks through a script's forms by these calls.
#![tactic(auto)]

pub mod channels;
pub mod context;
pub mod error;
pub mod fixed;
pub mod functions;
pub mod gathered;
pub mod given;
pub mod go;
pub mod hidden;
pub mod operands;
pub mod options;
pub mod pipelines;
pub mod planned;
pub mod publications;
pub mod rounds;
pub mod scope;
pub mod shapes;
pub mod special;
pub mod uses;
pub mod words;
