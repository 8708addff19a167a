//! Waits: which number is new, which wait can be completed, and which a channel completes by itself.
ghost use Rattle.std.specs.Prelude.{◌≡◌, nat_eq};
ghost use Rattle.indexmap.specs.IndexMap.{get};
ghost use Rattle.ca_value.specs.View.{view};
ghost use Rattle.ca_scene.specs.Admits.{can_wake, is_new, settles_so, settling_at, waits_on};
ghost use Rattle.ca_scene.specs.Scene.{scene_state, tasks_of, owner_in, IsScene};

use crate::scene::Scene;
use crate::task::Mode;
use ca_term::event::Side;
use ca_value::value::Value;

impl Scene {
    fn waits_on(&self, task: u64, wait: u64) -> bool
        ensures { result ≡ waits_on wait (tasks_of self.now task) }
    {
        match self.tasks.get(&task) {
            None => false,
            Some(task) => match task.mode {
                Mode::Waiting(other) => other == wait,
                Mode::Running | Mode::Over => false,
            },
        }
    }

    // The owner of the wait, if it has one.
    fn owner(&self, wait: u64) -> Option<u64>
        ensures { result ≡ owner_in (get nat_eq self.now.waits wait) }
    {
        match self.waits.get(&wait) {
            Some(Some(waiting)) => waiting.owner,
            _ => None,
        }
    }

    /// Whether the owner of the wait, if it has one, waits on it.
    #[tactic(auto, using(crate::proofs::Waitings::owner_seen))]
    pub(crate) fn can_wake(&self, wait: u64) -> bool
        requires { IsScene self.now }
        ensures { can_wake (scene_state self.now) wait ≡ result }
    {
        match self.owner(wait) {
            None => true,
            Some(task) => self.waits_on(task, wait),
        }
    }

    /// Whether no wait has had the number.
    #[tactic(auto, using(crate::proofs::Waitings::new_seen))]
    pub(crate) fn is_new(&self, wait: u64) -> bool
        ensures { is_new (scene_state self.now) wait ≡ result }
    {
        !self.waits.contains_key(&wait)
    }

    /// Whether the channel serves that branch of that wait by itself, on this side, with this value.
    pub(crate) fn settles(
        &self,
        wait: u64,
        branch: u64,
        side: Side,
        port: u64,
        value: &Value,
    ) -> bool
        requires { IsScene self.now }
        ensures { settles_so wait branch side (view value.now) (settling_at (scene_state self.now) port) ≡ result }
    {
        match self.rooms.get(&port) {
            None => false,
            Some(room) => room.settles(wait, branch, side, value),
        }
    }
}
