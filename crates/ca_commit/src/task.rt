ghost use Rattle.std.specs.Prelude.{◌≡◌, ◌+◌, ◌<◌, ◌≤◌, [], ◌∷◌, ◌++◌, Some, None, OnOk, IfSome, IfNone, ◌↔◌, IfOk, IsTrue};
ghost use Rattle.ca_commit.specs.Tasks.{task_view, tasks_in, ready_spare};

use ca_value::memory::OutOfMemory;
use ca_value::value::PortId;
use std::alloc::Global;
use std::collections::VecDeque;

/// A task of a run, with what it does as its agent. The main text is task 0.
#[derive(Drop)]
pub struct Task<A> {
    pub number: u64,
    /// The port of its result, if it has one: a fault of the task closes it.
    pub result: Option<PortId>,
    /// How many alts operations it completed or waits at.
    pub alts: u64,
    pub agent: A,
}

/// Tasks that can run, in order. They lie in a box, so that a worker moves one word where it takes them out of its hand or
/// puts them back.
#[derive(Drop)]
pub struct Ready<A> {
    tasks: Box<VecDeque<Task<A>>>,
}

impl<A: Drop> Ready<A> {
    /// No task.
    pub fn new(alloc: Global) -> Result<Ready<A>, OutOfMemory>
        ensures { IfOk result (λ r. tasks_in r ≡ []) }
    {
        Ok(Ready {
            tasks: Box::new(alloc, VecDeque::new(alloc))?,
        })
    }

    /// Makes room for one more task, and changes nothing else.
    pub fn reserve(&mut self) -> Result<(), OutOfMemory>
        ensures spare { OnOk result (0 < ready_spare self.new) }
        ensures kept { ready_spare self.old ≤ ready_spare self.new }
        ensures tasks { tasks_in self.new ≡ tasks_in self.old }
    {
        self.tasks.reserve(1)?;
        Ok(())
    }

    /// Adds the task last. It takes no memory.
    pub fn push(&mut self, task: Task<A>)
        requires { 0 < ready_spare self.old }
        ensures tasks { tasks_in self.new ≡ tasks_in self.old ++ task_view task ∷ [] }
        ensures spare { ready_spare self.old ≤ ready_spare self.new + 1 }
    {
        self.tasks.push_back_reserved(task);
    }

    /// Whether there is no task.
    pub fn is_empty(&self) -> bool
        ensures { IsTrue result ↔ (tasks_in self.now ≡ []) }
    {
        self.tasks.is_empty()
    }

    /// Takes the task in front, or None where there is none.
    pub fn pop(&mut self) -> Option<Task<A>>
        ensures some { IfSome result (λ t. tasks_in self.old ≡ task_view t ∷ tasks_in self.new) }
        ensures none { IfNone result ((tasks_in self.old ≡ []) × (tasks_in self.new ≡ [])) }
        ensures spare { ready_spare self.old ≤ ready_spare self.new }
    {
        self.tasks.pop_front()
    }
}
