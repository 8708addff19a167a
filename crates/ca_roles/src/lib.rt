//! The ports that an expansion makes for the library's own tasks stay hidden: what each port of a run is for, and that
//! no task uses it for anything else.
//!
//! The one model: a map of roles, which grows along a run (`specs/Roles.antt`). Texts are sealed where no hidden port and no
//! hidden name stands but at its place (`specs/Sealed.antt`); a state is typed where tasks, channels, waits and registries
//! hold of hidden ports only what they may (`specs/Typed.antt`).
//!
//! Stands on `ca_laws`. Start with `specs/Roles.antt` and `specs/Sealed.antt`, then `specs/Users.antt`, `specs/Typed.antt`,
//! `specs/HiddenLaw.antt` and `hidden_ports`; for the tasks that use a port alone `specs/Once.antt`,
//! `specs/SoleUsers.antt` and `sole_users`.
#![tactic(auto)]

pub mod hidden_ports;
pub mod sole_users;
