//! What a state holds: tasks, channels, waits, registries and deadlines, each by its number.
ghost use Rattle.std.specs.Prelude.{◌≡◌, [], option_map};
ghost use Rattle.ca_term.specs.Operation.{op_view};
ghost use Rattle.ca_scene.specs.Admits.{asked_by, standing_of};
ghost use Rattle.ca_scene.specs.Scene.{IsScene, shown_at, standing_view, tasks_of};

use crate::room::Room;
use crate::task::{Mode, Standing, Task};
use ca_registry::registry::Registry;
use ca_term::event::Branch;
use ca_term::operation::Op;
use ca_timers::timers::Timers;
use ca_value::seq::Seq;
use indexmap::IndexMap;
use std::alloc::Global;

/// Who waits, if anybody, and with which branches.
#[derive(Drop)]
pub struct Waiting {
    pub owner: Option<u64>,
    pub branches: Seq<Branch>,
}

/// A state of a run. All waits so far stand in order of arrival, with None where one is gone: so the waits that are there
/// and the numbers that were given are read off one table. Channels and registries share their numbers; the timers have
/// the moment that was reached.
#[derive(Drop)]
pub struct Scene {
    pub tasks: IndexMap<u64, Task>,
    pub rooms: IndexMap<u64, Room>,
    pub waits: IndexMap<u64, Option<Waiting>>,
    pub registries: IndexMap<u64, Registry>,
    pub timers: Timers,
}

impl Scene {
    /// With nothing in it, at moment 0; it takes no memory.
    pub fn new(alloc: Global) -> Scene
        ensures scene { IsScene result }
        ensures tasks { result.tasks.entries ≡ [] }
        ensures rooms { result.rooms.entries ≡ [] }
        ensures waits { result.waits.entries ≡ [] }
        ensures registries { result.registries.entries ≡ [] }
        ensures deadlines { result.timers.deadlines ≡ [] }
        ensures moment { result.timers.moment ≡ 0 }
    {
        Scene {
            tasks: IndexMap::new(alloc),
            rooms: IndexMap::new(alloc),
            waits: IndexMap::new(alloc),
            registries: IndexMap::new(alloc),
            timers: Timers::new(alloc),
        }
    }

    /// The operation that the task stands at, where it runs.
    pub fn asked_by(&self, task: u64) -> Option<&Op>
        requires { IsScene self.now }
        ensures { option_map (λ o. op_view o.now) result ≡ asked_by (tasks_of self.now task) }
    {
        let task = self.tasks.get(&task)?;
        match task.mode {
            Mode::Running => task.asked(),
            Mode::Waiting(_) | Mode::Over => None,
        }
    }

    /// Where the task stands, where it runs.
    pub fn standing(&self, task: u64) -> Option<&Standing>
        requires { IsScene self.now }
        ensures { option_map (λ s. standing_view s.now) result ≡ option_map shown_at (standing_of (tasks_of self.now task)) }
    {
        let task = self.tasks.get(&task)?;
        match task.mode {
            Mode::Running => Some(&task.standing),
            Mode::Waiting(_) | Mode::Over => None,
        }
    }
}
