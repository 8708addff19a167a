//! New tasks of the seeds that a run starts.
ghost use Rattle.std.specs.Prelude.{◌≡◌, IfNone, IfOk, IfSome, true};
ghost use Rattle.ca_value.specs.Seq.{list};
ghost use Rattle.ca_value.specs.View.{trees};
ghost use Rattle.ca_states.specs.Valid.{is_task};
ghost use Rattle.ca_states.specs.ValidCode.{valid_code};
ghost use Rattle.ca_meaning.specs.System.{new_system};
ghost use Rattle.ca_tasks.specs.Systems.{IsSystemOver, system_going_on, system_view};

use crate::system::SystemTask as Running;
use crate::task::AnyTask;
use ca_agent::starting::Starting;
use ca_applying::apply::has_function;
use ca_machine::machine::Machine;
use ca_states::valid_code::ValidCode;
use ca_system_tasks::table::SystemTable;
use ca_term::copy::copy_values;
use ca_term::head::SystemTask;
use ca_term::operation::{Seed, SystemSeed};
use ca_value::memory::OutOfMemory;
use std::alloc::Global;

// Whether the code has the function that the task applies, if it applies one.
fn has_function_of(code: &ValidCode, task: SystemTask) -> bool
    ensures { result ≡ is_task (valid_code code.now) task }
{
    match task {
        SystemTask::Pub(function) | SystemTask::Job(_, function) => has_function(code, function),
        SystemTask::Mult | SystemTask::Deliver | SystemTask::Mix => true,
        SystemTask::Pipe | SystemTask::Merge | SystemTask::Onto => true,
        SystemTask::Feed | SystemTask::Collect => true,
    }
}

// The system task of a seed that stays; None only where the code lacks its function.
fn system_for(
    alloc: Global,
    code: &ValidCode,
    seed: &SystemSeed,
) -> Result<Option<Running>, OutOfMemory>
    ensures starts { IfOk result (λ o. IfSome o (λ t. system_view t ≡ system_going_on (new_system seed.now.kind (trees (list seed.now.values)) seed.now.place))) }
    ensures over { IfOk result (λ o. IfSome o (λ t. IsSystemOver (valid_code code.now) (system_view t))) }
    ensures none { IfOk result (λ o. IfNone o (is_task (valid_code code.now) seed.now.kind ≡ true → ⊥)) }
{
    if !has_function_of(code, seed.kind) {
        return Ok(None);
    }
    let values = copy_values(alloc, seed.values.as_slice())?;
    let table = SystemTable::new(seed.kind, values, seed.place);
    Ok(Some(Running::new(table)))
}

impl Starting for AnyTask {
    fn start(alloc: Global, code: &ValidCode, seed: &Seed) -> Result<Option<AnyTask>, OutOfMemory> {
        match seed {
            Seed::Go(go) => match Machine::of_seed(alloc, code, go)? {
                Some(machine) => Ok(Some(AnyTask::Text(Box::new(alloc, machine)?))),
                None => Ok(None),
            },
            Seed::System(system) => match system_for(alloc, code, system)? {
                Some(task) => Ok(Some(AnyTask::System(Box::new(alloc, task)?))),
                None => Ok(None),
            },
        }
    }
}
