//! The tasks of a run by their numbers.
ghost use Rattle.std.specs.Prelude.{◌≡◌, ℕ, IfOk, IfSome, None, OnOk, Some, eqb, false, option_map};
ghost use Rattle.std.specs.Map.{update};
ghost use Rattle.ca_commit.specs.Tasks.{agent_of};
ghost use Rattle.ca_follow.specs.Applies.{and_number};
ghost use Rattle.ca_follow.specs.Follower.{is_known_task, running_in};

use ca_commit::task::Task;
use ca_tasks::task::AnyTask;
use ca_value::memory::OutOfMemory;
use indexmap::IndexMap;
use std::alloc::Global;

/// Each task so far by its number: those that can go on, and None where one waits, is over or was taken out.
#[derive(Drop)]
pub(crate) struct Tasks {
    entries: IndexMap<u64, Option<Task<AnyTask>>>,
}

impl Tasks {
    /// No task yet. It takes no memory.
    pub(crate) fn new(alloc: Global) -> Tasks
        ensures running { (t : ℕ) → running_in result t ≡ None }
        ensures known { (t : ℕ) → is_known_task result t ≡ false }
    {
        Tasks {
            entries: IndexMap::new(alloc),
        }
    }

    /// Whether a task has that number.
    pub(crate) fn has(&self, number: u64) -> bool
        ensures { result ≡ is_known_task self.now number }
    {
        self.entries.contains_key(&number)
    }

    /// Takes the task with that number out, if it can go on.
    pub(crate) fn take(&mut self, number: u64) -> Result<Option<Task<AnyTask>>, OutOfMemory>
        ensures task { IfOk result (λ o. option_map agent_of o ≡ running_in self.old number) }
        ensures number { IfOk result (λ o. IfSome o (λ t. t.number ≡ number)) }
        ensures running { OnOk result ((t : ℕ) → running_in self.new t ≡ update eqb (running_in self.old) number None t) }
        ensures known { OnOk result ((t : ℕ) → is_known_task self.new t ≡ is_known_task self.old t) }
    {
        if !self.has(number) {
            return Ok(None);
        }
        match self.entries.insert(number, None)? {
            Some(Some(task)) => Ok(Some(Task { number, ..task })),
            Some(None) | None => Ok(None),
        }
    }

    /// The task can go on, under its number.
    pub(crate) fn put(&mut self, task: Task<AnyTask>) -> Result<(), OutOfMemory>
        ensures running { OnOk result ((t : ℕ) → running_in self.new t ≡ update eqb (running_in self.old) task.number (Some (agent_of task)) t) }
        ensures known { OnOk result ((t : ℕ) → is_known_task self.new t ≡ and_number (is_known_task self.old) task.number t) }
    {
        self.entries.insert(task.number, Some(task))?;
        Ok(())
    }
}
