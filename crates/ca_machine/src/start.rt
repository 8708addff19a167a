//! New machines: of the main text, and of a go block.
ghost use Rattle.std.specs.Prelude.{◌≡◌, ◌+◌, length, IfOk};
ghost use Rattle.ca_value.specs.Seq.{list};
ghost use Rattle.ca_value.specs.View.{trees, views};
ghost use Rattle.ca_term.specs.Operation.{go};
ghost use Rattle.ca_term.specs.Program.{ProgramView};
ghost use Rattle.ca_meaning.specs.Body.{BodyView, new_body};
ghost use Rattle.ca_meaning.specs.Task.{TaskBody, BodyRest, script};
ghost use Rattle.ca_states.specs.declared.runner.Start.TheVariants.{Go};
ghost use Rattle.ca_states.specs.Machine.{runner_started};
ghost use Rattle.ca_states.specs.Standing.{IsStart, entry_at};
ghost use Rattle.ca_states.specs.ValidCode.{valid_code};
ghost use Rattle.ca_lower.specs.Lowered.{Lowered, StandsFor};
ghost use Rattle.ca_agent.specs.Seeds.{HasGo};
ghost use Rattle.ca_machine.specs.Machines.{IsOver, MachineBegins, MachineStandsAs, Starts};
ghost use Rattle.ca_machine.specs.View.{machine_view};

use crate::machine::Machine;
use crate::stage::Stage;
use ca_states::runner::{Halt, Runner, Start};
use ca_states::valid_code::ValidCode;
use ca_term::operation::GoSeed;
use ca_value::memory::OutOfMemory;
use ca_value::value::{Items, Value};
use std::alloc::Global;
use std::snapshot::Snapshot;

impl Machine {
    // A new machine at the start, with these values.
    fn start(
        alloc: Global,
        code: &ValidCode,
        start: Start,
        values: Items,
    ) -> Result<Machine, OutOfMemory>
        requires { IsStart (valid_code code.now) start (length (list values)) }
        ensures begins { IfOk result (λ m. (program : ProgramView) (b : BodyView) → StandsFor program (valid_code code.now) (runner_started (valid_code code.now) (entry_at (valid_code code.now) start) (views (list values))) b → MachineBegins program (machine_view m) b) }
        ensures over { IfOk result (λ m. IsOver (valid_code code.now) (machine_view m)) }
    {
        let runner = Runner::start(alloc, code, start, values)?;
        Ok(Machine {
            runner,
            stage: Stage::Going,
            halt: Halt::none(),
            code: Snapshot::of(code),
        })
    }

    /// A new machine at the main text.
    pub fn main(alloc: Global, code: &ValidCode) -> Result<Machine, OutOfMemory>
        ensures begins { IfOk result (λ m. (program : ProgramView) → Lowered program (valid_code code.now) → MachineBegins program (machine_view m) (new_body program.main)) }
        ensures stands { IfOk result (λ m. (program : ProgramView) (b : TaskBody) → Lowered program (valid_code code.now) → BodyRest program (script (new_body program.main)) b → MachineStandsAs program (machine_view m) b) }
        ensures over { IfOk result (λ m. IsOver (valid_code code.now) (machine_view m)) }
    {
        Machine::start(alloc, code, Start::Main, Items::new(alloc))
    }

    /// A new machine of the go block that the seed tells of, at its body with the values, and last the port of its
    /// result.
    pub fn from_seed(alloc: Global, code: &ValidCode, seed: GoSeed) -> Result<Machine, OutOfMemory>
        requires { IsStart (valid_code code.now) (Go seed.body) (length (list seed.values) + 1) }
        ensures starts { IfOk result (λ m. (program : ProgramView) → Lowered program (valid_code code.now) → HasGo program seed.body (length (list seed.values) + 1) → Starts program (go seed.body (trees (list seed.values)) seed.result.n seed.place) (machine_view m)) }
        ensures over { IfOk result (λ m. IsOver (valid_code code.now) (machine_view m)) }
    {
        let GoSeed {
            body,
            values,
            result,
            place: _,
        } = seed;
        let mut values = values;
        values.reserve(1)?;
        values.push(Value::Port(result));
        Machine::start(alloc, code, Start::Go(body), values)
    }
}
