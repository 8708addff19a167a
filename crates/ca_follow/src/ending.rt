//! The end of a task, by its value or by a fault.
ghost use Rattle.std.specs.Prelude.{◌≡◌, Some, false, true};
ghost use Rattle.ca_term.specs.Event.{event_view};
ghost use Rattle.ca_states.specs.ValidCode.{valid_code};
ghost use Rattle.ca_commit.specs.Tasks.{agent_of};
ghost use Rattle.ca_tasks.specs.Tasks.{place};
ghost use Rattle.ca_follow.specs.Events.{task_of};
ghost use Rattle.ca_follow.specs.Follower.{HasEndedAt, IsFollower, LeadsBehind, RefusesBehind, MayFault, has};

use crate::follower::Follower;
use crate::reading::agrees;
use ca_commit::going::apply_fault;
use ca_commit::task::Task;
use ca_tasks::task::AnyTask;
use ca_term::event::{Ending, Event};
use ca_term::fault::Fault;
use ca_term::place::Place;

impl Follower<'_> {
    /// The task, which was taken out, is over by its value; tells whether that is the journal's event.
    pub(crate) fn end(&mut self, task: &Task<AnyTask>, event: &Event) -> bool
        requires follower { IsFollower self.old }
        requires at { HasEndedAt (place task.now.agent) }
        requires mine { task_of (event_view event.now) ≡ Some task.now.number }
        ensures allowed { result ≡ true → LeadsBehind (valid_code self.old.code.now) (event_view event.now) (has self.old) task.now.number (agent_of task.now) (has self.new) }
        ensures refused { result ≡ false → RefusesBehind (valid_code self.old.code.now) (event_view event.now) (has self.old) task.now.number (agent_of task.now) }
        ensures follower { IsFollower self.new }
        ensures code { self.new.code ≡ self.old.code }
    {
        let made = Event::End {
            task: task.number,
            ending: Ending::Ended,
        };
        agrees(made, event)
    }

    /// The task, which was taken out, is over by a fault, its result port closed; tells whether that is the journal's event.
    pub(crate) fn fault(
        &mut self,
        task: &Task<AnyTask>,
        fault: Fault,
        place: Place,
        event: &Event,
    ) -> bool
        requires follower { IsFollower self.old }
        requires faults { MayFault (has self.old) (agent_of task.now) fault place }
        requires mine { task_of (event_view event.now) ≡ Some task.now.number }
        ensures allowed { result ≡ true → LeadsBehind (valid_code self.old.code.now) (event_view event.now) (has self.old) task.now.number (agent_of task.now) (has self.new) }
        ensures refused { result ≡ false → RefusesBehind (valid_code self.old.code.now) (event_view event.now) (has self.old) task.now.number (agent_of task.now) }
        ensures follower { IsFollower self.new }
        ensures code { self.new.code ≡ self.old.code }
    {
        let result = task.result;
        apply_fault(&mut self.held, result);
        let made = Event::End {
            task: task.number,
            ending: Ending::Faulted {
                fault,
                place,
                result,
            },
        };
        agrees(made, event)
    }
}
