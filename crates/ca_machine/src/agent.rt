//! A machine as an agent.
ghost use Rattle.std.specs.Prelude.{◌≡◌, IfOk, OnOk};
ghost use Rattle.ca_meaning.specs.Body.{local};
ghost use Rattle.ca_states.specs.ValidCode.{valid_code};
ghost use Rattle.ca_agent.specs.Agents.{PausesAt};
ghost use Rattle.ca_machine.specs.Machines.{MachineStandsAs, RunsToHalt, Advances, MachineGives, Starts, IsOver};
ghost use Rattle.ca_machine.specs.Stages.{halted_at};
ghost use Rattle.ca_machine.specs.View.{machine_view};
ghost use Rattle.ca_machine.specs.MachineLaws.{machine_advanced, machine_answered, machine_asked, machine_started, machine_stays_over};
ghost use Rattle.ca_machine.specs.Tasks.{HasTaskAt};

use crate::machine::Machine;
use crate::stage::Stage;
use ca_agent::agent::{Agent, Outcome, Pause};
use ca_states::runner::Halt;
use ca_states::valid_code::ValidCode;
use ca_term::operation::Want;
use ca_value::memory::OutOfMemory;
use std::alloc::Global;

// The pause that a halt is.
fn pause_of(halt: &Halt) -> Pause
    ensures { PausesAt result (halted_at halt.now) }
{
    match halt {
        Halt::Cut(_) => Pause::AtOp,
        Halt::Ended(_) => Pause::Ended,
        Halt::Faulted(fault, place) => Pause::Faulted(*fault, *place),
    }
}

impl Machine {
    // Its runner goes on to the next halt.
    fn run(&mut self, alloc: Global, code: &ValidCode) -> Result<Pause, OutOfMemory>
        requires code { (machine_view self.old).code ≡ valid_code code.now }
        requires going { (machine_view self.old).place ≡ local }
        ensures runs { OnOk result (RunsToHalt (machine_view self.old) (machine_view self.new)) }
        ensures pauses { IfOk result (λ p. PausesAt p (machine_view self.new).place) }
        ensures has { OnOk result (HasTaskAt (valid_code code.now) (machine_view self.new).place) }
    {
        match self.runner.run_to(alloc, code, &mut self.halt) {
            Ok(()) => {
                self.stage = Stage::Halted;
                Ok(pause_of(&self.halt))
            }
            Err(OutOfMemory) => {
                self.stage = Stage::Spent;
                Err(OutOfMemory)
            }
        }
    }
}

impl Agent for Machine {
    ghost over = { λ code m. IsOver code (machine_view m) };

    ghost stands = { λ program m b. MachineStandsAs program (machine_view m) b };

    ghost place = { λ m. (machine_view m).place };

    ghost advances = { λ program m n. Advances (machine_view m) (machine_view n) };

    ghost gives = { λ m v n. MachineGives (machine_view m) v (machine_view n) };

    ghost starts = { λ program seed m. Starts program seed (machine_view m) };

    #[inline(always)]
    #[tactic(auto, using(crate::proofs::Halting::at_a_halt))]
    fn want(&self) -> &Want {
        match &self.halt {
            Halt::Cut(want) => want,
            _ => unreachable!(),
        }
    }

    fn give(&mut self, outcome: Outcome) {
        let Outcome { value, branch: _ } = outcome;
        self.runner.answer(value);
        self.halt.clear();
        self.stage = Stage::Going;
    }

    fn advance(&mut self, alloc: Global, code: &ValidCode) -> Result<Pause, OutOfMemory> {
        match self.stage {
            Stage::Halted => Ok(pause_of(&self.halt)),
            Stage::Going => self.run(alloc, code),
            Stage::Spent => unreachable!(),
        }
    }

    ghost advanced = { λ program m n b. machine_advanced program (machine_view m) (machine_view n) b };

    ghost answered = { λ program m n b w v st _. machine_answered program (machine_view m) (machine_view n) b w v st };

    ghost stays = { λ code m n v. machine_stays_over code (machine_view m) (machine_view n) v };

    ghost asked = { λ code m seed at. machine_asked code (machine_view m) seed at };

    ghost started = { λ program seed m. machine_started program seed (machine_view m) };
}
