//! A follower makes the next event of the journal.
ghost use Rattle.std.specs.Prelude.{◌≡◌, IfOk, Some, false, true};
ghost use Rattle.ca_term.specs.Event.{event_view};
ghost use Rattle.ca_term.specs.Program.{ProgramView};
ghost use Rattle.ca_meaning.specs.State.{State};
ghost use Rattle.ca_states.specs.ValidCode.{valid_code};
ghost use Rattle.ca_follow.specs.Events.{task_of};
ghost use Rattle.ca_follow.specs.Follower.{IsFollower, IsMadeFor, Leads, Refuses, FollowerStands, has};

use crate::follower::Follower;
use crate::reading::task_of;
use ca_agent::agent::{Agent, Pause};
use ca_term::event::Event;
use ca_value::memory::OutOfMemory;
use std::alloc::Global;

impl Follower<'_> {
    /// Makes the event where the run allows it, and tells whether it did.
    pub(crate) fn step(&mut self, alloc: Global, event: &Event) -> Result<bool, OutOfMemory>
        requires follower { IsFollower self.old }
        requires stands { (program : ProgramView) × (s : State) × IsMadeFor program (valid_code self.old.code.now) × FollowerStands program (has self.old) s }
        ensures allowed { IfOk result (λ b. b ≡ true → Leads (valid_code self.old.code.now) (event_view event.now) (has self.old) (has self.new)) }
        ensures refused { IfOk result (λ b. b ≡ false → Refuses (valid_code self.old.code.now) (event_view event.now) (has self.old)) }
        ensures follower { IfOk result (λ b. b ≡ true → IsFollower self.new) }
        ensures code { self.new.code ≡ self.old.code }
    {
        match event {
            Event::Settle { port, .. } => self.settle(alloc, *port, event),
            Event::Tick { moment, .. } => self.tick(alloc, *moment, event),
            _ => match task_of(event) {
                Some(task) => self.go_on(alloc, task, event),
                None => unreachable!(),
            },
        }
    }

    // The event of a task: it goes on to its next pause, if it can, and is over there or makes an event.
    fn go_on(&mut self, alloc: Global, number: u64, event: &Event) -> Result<bool, OutOfMemory>
        requires event { task_of (event_view event.now) ≡ Some number }
        requires follower { IsFollower self.old }
        requires stands { (program : ProgramView) × (s : State) × IsMadeFor program (valid_code self.old.code.now) × FollowerStands program (has self.old) s }
        ensures allowed { IfOk result (λ b. b ≡ true → Leads (valid_code self.old.code.now) (event_view event.now) (has self.old) (has self.new)) }
        ensures refused { IfOk result (λ b. b ≡ false → Refuses (valid_code self.old.code.now) (event_view event.now) (has self.old)) }
        ensures follower { IfOk result (λ b. b ≡ true → IsFollower self.new) }
        ensures code { self.new.code ≡ self.old.code }
    {
        let Some(mut task) = self.tasks.take(number)? else {
            return Ok(false);
        };
        match task.agent.advance(alloc, self.code)? {
            Pause::AtOp => self.operate(alloc, task, event),
            Pause::Ended => Ok(self.end(&task, event)),
            Pause::Faulted(fault, place) => Ok(self.fault(&task, fault, place, event)),
        }
    }
}
