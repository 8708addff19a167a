//! A task of a run as an agent.
ghost use Rattle.std.specs.Prelude.{◌≡◌};
ghost use Rattle.ca_tasks.specs.Tasks.{advances, gives, task_over_code, place, stands, starts};
ghost use Rattle.ca_tasks.specs.TaskLaws.{task_advanced, task_answered, task_asked, task_started, task_stays};

use crate::task::AnyTask;
use ca_agent::agent::{Agent, Outcome, Pause};
use ca_states::valid_code::ValidCode;
use ca_term::operation::Want;
use ca_value::memory::OutOfMemory;
use std::alloc::Global;

impl Agent for AnyTask {
    ghost over = { task_over_code };

    ghost stands = { stands };

    ghost place = { place };

    ghost advances = { advances };

    ghost gives = { gives };

    ghost starts = { starts };

    fn want(&self) -> &Want {
        match self {
            AnyTask::Text(machine) => machine.want(),
            AnyTask::System(task) => task.want(),
        }
    }

    #[inline(always)]
    fn give(&mut self, outcome: Outcome) {
        match self {
            AnyTask::Text(machine) => machine.give(outcome),
            AnyTask::System(task) => task.give(outcome),
        }
    }

    fn advance(&mut self, alloc: Global, code: &ValidCode) -> Result<Pause, OutOfMemory> {
        match self {
            AnyTask::Text(machine) => machine.advance(alloc, code),
            AnyTask::System(task) => task.advance(alloc, code),
        }
    }

    ghost advanced = { task_advanced };

    ghost answered = { task_answered };

    ghost stays = { task_stays };

    ghost asked = { task_asked };

    ghost started = { task_started };
}
