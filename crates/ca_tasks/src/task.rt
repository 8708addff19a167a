ghost use Rattle.std.specs.Prelude.{IfOk};
ghost use Rattle.ca_term.specs.Program.{ProgramView};
ghost use Rattle.ca_states.specs.ValidCode.{valid_code};
ghost use Rattle.ca_meaning.specs.Body.{new_body};
ghost use Rattle.ca_meaning.specs.Task.{TaskBody, BodyRest, script};
ghost use Rattle.ca_lower.specs.Lowered.{Lowered};
ghost use Rattle.ca_tasks.specs.Tasks.{task_over_code, stands};

use crate::system::SystemTask;
use ca_machine::machine::Machine;
use ca_states::valid_code::ValidCode;
use ca_value::memory::OutOfMemory;
use std::alloc::Global;

/// A task of a run: the main text or a go block, compiled, or a system task. It is two words, since a run moves its tasks
/// at every event.
#[derive(Drop)]
pub enum AnyTask {
    Text(Box<Machine>),
    System(Box<SystemTask>),
}

impl AnyTask {
    /// The new task of the main text.
    pub fn main(alloc: Global, code: &ValidCode) -> Result<AnyTask, OutOfMemory>
        ensures stands { IfOk result (λ t. (program : ProgramView) (b : TaskBody) → Lowered program (valid_code code.now) → BodyRest program (script (new_body program.main)) b → stands program t b) }
        ensures over { IfOk result (λ t. task_over_code (valid_code code.now) t) }
    {
        Ok(AnyTask::Text(Box::new(alloc, Machine::main(alloc, code)?)?))
    }
}
