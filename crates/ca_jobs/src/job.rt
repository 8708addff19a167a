//! One of a pipeline's jobs: it takes a value with its reply port, and puts the outputs there.
ghost use Rattle.std.proofs.Common.{refl};
ghost use Rattle.std.specs.Prelude.{◌≡◌, option_map, IfOk, OnOk};
ghost use Rattle.ca_value.specs.Seq.{list};
ghost use Rattle.ca_value.specs.View.{view, trees};
ghost use Rattle.ca_term.specs.declared.head.SystemTask.TheVariants.{Job as job_task};
ghost use Rattle.ca_term.specs.declared.place.Place.{Place};
ghost use Rattle.ca_meaning.specs.Asks.{to};
ghost use Rattle.ca_meaning.specs.PipelineTable.{job_next, job_takes, worked_by};
ghost use Rattle.ca_meaning.specs.System.{new_system};
ghost use Rattle.ca_system.specs.Applications.{function_applied, pending_application, work_done};
ghost use Rattle.ca_system.specs.Applied.{application_view, returned_view};
ghost use Rattle.ca_system.specs.Stands.{running_body, next_view};
ghost use Rattle.ca_jobs.specs.Outputs.{outputs_view};
ghost use Rattle.ca_jobs.specs.Jobs.{job_body, job_state_view, work_view};

use crate::outputs::{Outputs, outputs_by};
use ca_asking::operands::{port_at, value_at};
use ca_system::application::Application;
use ca_system::asks::{puts, takes};
use ca_system::operand::{is_nil, value_and_port};
use ca_system::returned::Returned;
use ca_system::running::{Kind, Running};
use ca_system::stand::{Next, Stand};
use ca_term::fault::Fault;
use ca_term::head::{PlainFunction, Transform};
use ca_term::place::Place;
use ca_value::memory::OutOfMemory;
use ca_value::value::{Items, PortId, Value, Vector};
use std::alloc::Global;
use std::mem;

/// The task of a job.
pub type Job = Running<Work>;

/// The jobs' channel, the transform, its function, and the keyword where that is the function.
#[derive(Drop)]
pub struct Work {
    pub(crate) jobs: PortId,
    pub(crate) transform: Transform,
    pub(crate) function: PlainFunction,
    pub(crate) keyword: Value,
}

/// Where a job is in its table.
#[derive(Drop)]
pub enum State {
    /// It takes the next value with its reply port.
    Takes,
    /// It makes the outputs of this value, for the reply port.
    Works(Value, PortId),
    /// It puts these outputs to the reply port.
    Replies(PortId, Vector),
}

/// The task with this transform, its function, and these values: the jobs' channel, and the keyword where that is the
/// function.
pub fn new_job(transform: Transform, function: PlainFunction, values: Items, place: Place) -> Job
    ensures { running_body job_body result ≡ new_system (job_task transform function) (trees (list values)) place }
{
    let jobs = port_at(values.as_slice(), 0);
    let work = Work {
        jobs,
        transform,
        function,
        keyword: value_at(values, 1),
    };
    Running::new(work, place, Next::To(State::Takes))
}

/// The transform's function with its value, where the task is about to apply it.
pub fn pending_work(task: &Job) -> Option<Application<'_>>
    ensures { option_map application_view result ≡ pending_application (running_body job_body task.now) }
{
    match &task.state {
        Next::To(State::Works(value, _)) => Some(Application {
            function: task.kind.function,
            keyword: &task.kind.keyword,
            place: task.place,
            value,
        }),
        _ => None,
    }
}

/// Goes on with what the function came to. After `OutOfMemory` the task is only dropped.
pub fn work_done(task: &mut Job, alloc: Global, returned: Returned) -> Result<(), OutOfMemory>
    ensures { OnOk result (running_body job_body task.new ≡ function_applied (returned_view returned) (running_body job_body task.old)) }
{
    match mem::replace(&mut task.state, Next::Stop) {
        Next::To(state) => task.state = task.kind.worked(alloc, state, returned)?,
        Next::Stop => {}
        Next::Fail(fault) => task.state = Next::Fail(fault),
    }
    Ok(())
}

impl Kind for Work {
    type State = State;

    ghost body = { job_body };

    fn ask(&self, _alloc: Global, place: Place, state: &State) -> Result<Stand, OutOfMemory> {
        match state {
            State::Takes => Ok(takes(self.jobs, place)),
            State::Works(_, _) => unreachable!(),
            State::Replies(reply, outputs) => {
                Ok(puts(*reply, Value::Vector(outputs.copy()?), place))
            }
        }
    }

    fn next(&self, alloc: Global, state: State, answer: Value) -> Result<Next<State>, OutOfMemory> {
        match state {
            State::Takes => taken(alloc, &answer),
            State::Works(value, reply) => Ok(Next::To(State::Works(value, reply))),
            State::Replies(_, _) => Ok(Next::To(State::Takes)),
        }
    }

    ghost ends = { λ k p. refl };

    ghost faults = { λ k p f. refl };

    ghost stays = { λ k p v. refl };

    ghost stays_faulted = { λ k p f v. refl };
}

impl Work {
    // The outputs go to the reply port; or the task has the fault.
    fn worked(
        &self,
        alloc: Global,
        state: State,
        returned: Returned,
    ) -> Result<Next<State>, OutOfMemory>
        ensures { IfOk result (λ n. (place : Place) → next_view job_state_view n ≡ work_done (work_view self.now place) (returned_view returned) (to (job_state_view state))) }
    {
        match state {
            State::Works(value, reply) => {
                let outputs = outputs_by(alloc, self.transform, &value, returned)?;
                Ok(replies(reply, outputs))
            }
            State::Takes => Ok(Next::To(State::Takes)),
            State::Replies(reply, outputs) => Ok(Next::To(State::Replies(reply, outputs))),
        }
    }
}

// What follows on a value with its reply port, or on the end of the jobs.
fn taken(alloc: Global, answer: &Value) -> Result<Next<State>, OutOfMemory>
    ensures { IfOk result (λ n. next_view job_state_view n ≡ job_next (view answer.now) job_takes) }
{
    if is_nil(answer) {
        return Ok(Next::Stop);
    }
    match value_and_port(alloc, answer)? {
        None => Ok(Next::Fail(Fault::WrongKind)),
        Some((value, reply)) => Ok(Next::To(State::Works(value, reply))),
    }
}

// The outputs go to the reply port; or the task ends with the fault.
fn replies(reply: PortId, outputs: Outputs) -> Next<State>
    ensures { next_view job_state_view result ≡ worked_by reply.n (outputs_view outputs) }
{
    match outputs {
        Outputs::All(outputs) => Next::To(State::Replies(reply, outputs)),
        Outputs::None(fault) => Next::Fail(fault),
    }
}
