//! New machines for the go blocks that a run starts.
ghost use Rattle.std.specs.Prelude.{◌≡◌, ◌+◌, length, IfNone, IfOk, IfSome};
ghost use Rattle.ca_value.specs.Seq.{list};
ghost use Rattle.ca_term.specs.Program.{ProgramView};
ghost use Rattle.ca_states.specs.declared.runner.Start.TheVariants.{Go};
ghost use Rattle.ca_states.specs.Standing.{IsStart};
ghost use Rattle.ca_states.specs.ValidCode.{valid_code};
ghost use Rattle.ca_lower.specs.Gos.{SameGos};
ghost use Rattle.ca_lower.specs.Lowered.{Lowered};
ghost use Rattle.ca_agent.specs.Seeds.{HasSeed};
ghost use Rattle.ca_machine.specs.Machines.{IsOver, Starts};
ghost use Rattle.ca_machine.specs.Seeds.{go_seed};
ghost use Rattle.ca_machine.specs.View.{machine_view};

use crate::machine::Machine;
use ca_states::runner::Start;
use ca_states::valid_code::ValidCode;
use ca_term::copy::copy_values;
use ca_term::operation::GoSeed;
use ca_value::memory::OutOfMemory;
use std::alloc::Global;

impl Machine {
    /// A new machine of the go block that the seed tells of, which stays; None only where the code has no such go body
    /// that takes as many values.
    pub fn of_seed(
        alloc: Global,
        code: &ValidCode,
        seed: &GoSeed,
    ) -> Result<Option<Machine>, OutOfMemory>
        ensures starts { IfOk result (λ o. IfSome o (λ m. (program : ProgramView) → Lowered program (valid_code code.now) → SameGos program (valid_code code.now) → Starts program (go_seed seed.now) (machine_view m))) }
        ensures over { IfOk result (λ o. IfSome o (λ m. IsOver (valid_code code.now) (machine_view m))) }
        ensures none { IfOk result (λ o. IfNone o (HasSeed (valid_code code.now) (go_seed seed.now) → ⊥)) }
    {
        let copy = copy_of(alloc, seed)?;
        machine_of(alloc, code, copy)
    }
}

fn copy_of(alloc: Global, seed: &GoSeed) -> Result<GoSeed, OutOfMemory>
    ensures { IfOk result (λ s. go_seed s ≡ go_seed seed.now) }
{
    Ok(GoSeed {
        body: seed.body,
        values: copy_values(alloc, seed.values.as_slice())?,
        result: seed.result,
        place: seed.place,
    })
}

// None only where the code has no such go body that takes as many values. So many that their number is no number are
// more than memory holds.
fn machine_of(alloc: Global, code: &ValidCode, seed: GoSeed) -> Result<Option<Machine>, OutOfMemory>
    ensures starts { IfOk result (λ o. IfSome o (λ m. (program : ProgramView) → Lowered program (valid_code code.now) → SameGos program (valid_code code.now) → Starts program (go_seed seed) (machine_view m))) }
    ensures over { IfOk result (λ o. IfSome o (λ m. IsOver (valid_code code.now) (machine_view m))) }
    ensures none { IfOk result (λ o. IfNone o (HasSeed (valid_code code.now) (go_seed seed) → ⊥)) }
{
    let Some(count) = seed.values.len().checked_add(1) else {
        return Err(OutOfMemory);
    };
    if code.has_start(Start::Go(seed.body), count) {
        Ok(Some(new_machine(alloc, code, seed)?))
    } else {
        Ok(None)
    }
}

// The machine of a go block that the code has.
fn new_machine(alloc: Global, code: &ValidCode, seed: GoSeed) -> Result<Machine, OutOfMemory>
    requires { IsStart (valid_code code.now) (Go seed.body) (length (list seed.values) + 1) }
    ensures starts { IfOk result (λ m. (program : ProgramView) → Lowered program (valid_code code.now) → SameGos program (valid_code code.now) → Starts program (go_seed seed) (machine_view m)) }
    ensures over { IfOk result (λ m. IsOver (valid_code code.now) (machine_view m)) }
{
    Machine::from_seed(alloc, code, seed)
}
