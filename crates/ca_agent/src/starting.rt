ghost use Rattle.std.specs.Prelude.{IfNone, IfOk, IfSome};
ghost use Rattle.ca_term.specs.Operation.{seed_view};
ghost use Rattle.ca_term.specs.Program.{ProgramView};
ghost use Rattle.ca_states.specs.ValidCode.{valid_code};
ghost use Rattle.ca_lower.specs.Gos.{SameGos};
ghost use Rattle.ca_lower.specs.Lowered.{Lowered};
ghost use Rattle.ca_agent.specs.Seeds.{HasSeed};

use crate::agent::Agent;
use ca_states::valid_code::ValidCode;
use ca_term::operation::Seed;
use ca_value::memory::OutOfMemory;
use std::alloc::Global;

/// Agents of the tasks that a run starts.
pub trait Starting: Agent {
    /// A new agent of the seed's task, over the code; None only where the code has no such task.
    fn start(alloc: Global, code: &ValidCode, seed: &Seed) -> Result<Option<Self>, OutOfMemory>
        ensures starts { IfOk result (λ o. IfSome o (λ a. (program : ProgramView) → Lowered program (valid_code code.now) → SameGos program (valid_code code.now) → Self.starts program (seed_view seed.now) a)) }
        ensures over { IfOk result (λ o. IfSome o (λ a. Self.over (valid_code code.now) a)) }
        ensures none { IfOk result (λ o. IfNone o (HasSeed (valid_code code.now) (seed_view seed.now) → ⊥)) };
}
