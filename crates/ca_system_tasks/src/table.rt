//! The ten kinds of system task as one table.
ghost use Rattle.std.specs.Prelude.{◌≡◌, None, option_map, IfOk, OnOk};
ghost use Rattle.ca_value.specs.Seq.{list};
ghost use Rattle.ca_value.specs.View.{view, trees};
ghost use Rattle.ca_meaning.specs.System.{new_system, system_at, system_fill};
ghost use Rattle.ca_system.specs.Applications.{function_applied, pending_application};
ghost use Rattle.ca_system.specs.Applied.{application_view, returned_view};
ghost use Rattle.ca_system.specs.Stands.{stand_at};
ghost use Rattle.ca_system_tasks.specs.Tables.{table_body};

use ca_jobs::job::{Job, new_job, pending_work, work_done};
use ca_mix::mix::{Mix, new_mix};
use ca_mult::deliver::{Deliver, new_deliver};
use ca_mult::mult::{Mult, new_mult};
use ca_pipes::collect::{Collect, new_collect};
use ca_pipes::feed::{Feed, new_feed};
use ca_pipes::merge::{Merge, new_merge};
use ca_pipes::onto::{Onto, new_onto};
use ca_pipes::pipe::{Pipe, new_pipe};
use ca_pubsub::publication::{Pub, new_pub, pending_topic, topic_made};
use ca_system::application::Application;
use ca_system::returned::Returned;
use ca_system::stand::Stand;
use ca_term::head::SystemTask;
use ca_term::place::Place;
use ca_value::memory::OutOfMemory;
use ca_value::value::{Items, Value};
use std::alloc::Global;

/// A system task's table, of one of the ten kinds.
#[derive(Drop)]
pub enum SystemTable {
    Mult(Mult),
    Deliver(Deliver),
    Mix(Mix),
    Pub(Pub),
    Pipe(Pipe),
    Merge(Merge),
    Onto(Onto),
    Feed(Feed),
    Job(Job),
    Collect(Collect),
}

impl SystemTable {
    /// The first state of the table. It is at rest.
    pub fn new(task: SystemTask, values: Items, place: Place) -> SystemTable
        ensures { table_body result ≡ new_system task (trees (list values)) place }
    {
        match task {
            SystemTask::Mult => SystemTable::Mult(new_mult(values, place)),
            SystemTask::Deliver => SystemTable::Deliver(new_deliver(values, place)),
            SystemTask::Mix => SystemTable::Mix(new_mix(values, place)),
            SystemTask::Pub(function) => SystemTable::Pub(new_pub(function, values, place)),
            SystemTask::Pipe => SystemTable::Pipe(new_pipe(values, place)),
            SystemTask::Merge => SystemTable::Merge(new_merge(values, place)),
            SystemTask::Onto => SystemTable::Onto(new_onto(values, place)),
            SystemTask::Feed => SystemTable::Feed(new_feed(values, place)),
            SystemTask::Job(transform, function) => SystemTable::Job(new_job(
                transform, function, values, place,
            )),
            SystemTask::Collect => SystemTable::Collect(new_collect(values, place)),
        }
    }

    /// Where it stands, where it applies no function: at an operation, with its values, at its end, or by a fault.
    pub fn stand(&self, alloc: Global) -> Result<Stand, OutOfMemory>
        requires { pending_application (table_body self.now) ≡ None }
        ensures { IfOk result (λ s. stand_at s ≡ system_at (table_body self.now)) }
    {
        match self {
            SystemTable::Mult(table) => table.stand(alloc),
            SystemTable::Deliver(table) => table.stand(alloc),
            SystemTable::Mix(table) => table.stand(alloc),
            SystemTable::Pub(table) => table.stand(alloc),
            SystemTable::Pipe(table) => table.stand(alloc),
            SystemTable::Merge(table) => table.stand(alloc),
            SystemTable::Onto(table) => table.stand(alloc),
            SystemTable::Feed(table) => table.stand(alloc),
            SystemTable::Job(table) => table.stand(alloc),
            SystemTable::Collect(table) => table.stand(alloc),
        }
    }

    /// Goes on with the answer to its operation. After `OutOfMemory` it is only dropped.
    pub fn follow(&mut self, alloc: Global, answer: Value) -> Result<(), OutOfMemory>
        ensures { OnOk result (table_body self.new ≡ system_fill (view answer) (table_body self.old)) }
    {
        match self {
            SystemTable::Mult(table) => table.follow(alloc, answer),
            SystemTable::Deliver(table) => table.follow(alloc, answer),
            SystemTable::Mix(table) => table.follow(alloc, answer),
            SystemTable::Pub(table) => table.follow(alloc, answer),
            SystemTable::Pipe(table) => table.follow(alloc, answer),
            SystemTable::Merge(table) => table.follow(alloc, answer),
            SystemTable::Onto(table) => table.follow(alloc, answer),
            SystemTable::Feed(table) => table.follow(alloc, answer),
            SystemTable::Job(table) => table.follow(alloc, answer),
            SystemTable::Collect(table) => table.follow(alloc, answer),
        }
    }

    /// The plain function that it is about to apply, with its value; None where it applies none. It takes no memory.
    pub fn pending(&self) -> Option<Application<'_>>
        ensures { option_map application_view result ≡ pending_application (table_body self.now) }
    {
        match self {
            SystemTable::Pub(table) => pending_topic(table),
            SystemTable::Job(table) => pending_work(table),
            SystemTable::Mult(_) | SystemTable::Deliver(_) | SystemTable::Mix(_) => None,
            SystemTable::Pipe(_) | SystemTable::Merge(_) | SystemTable::Onto(_) => None,
            SystemTable::Feed(_) | SystemTable::Collect(_) => None,
        }
    }

    /// Goes on with what that function came to; where it applies none it stays. Then it applies none. After `OutOfMemory`
    /// it is only dropped.
    pub fn applied(&mut self, alloc: Global, returned: Returned) -> Result<(), OutOfMemory>
        ensures { OnOk result (table_body self.new ≡ function_applied (returned_view returned) (table_body self.old)) }
    {
        match self {
            SystemTable::Pub(table) => topic_made(table, returned),
            SystemTable::Job(table) => work_done(table, alloc, returned)?,
            SystemTable::Mult(_) | SystemTable::Deliver(_) | SystemTable::Mix(_) => {}
            SystemTable::Pipe(_) | SystemTable::Merge(_) | SystemTable::Onto(_) => {}
            SystemTable::Feed(_) | SystemTable::Collect(_) => {}
        }
        Ok(())
    }
}
