//! A system task as an agent over compiled code, whatever its table.
ghost use Rattle.std.specs.Prelude.{◌≡◌, None, IfOk, OnOk};
ghost use Rattle.ca_term.specs.Program.{ProgramView};
ghost use Rattle.ca_meaning.specs.System.{SystemRest, system_at};
ghost use Rattle.ca_states.specs.ValidCode.{valid_code};
ghost use Rattle.ca_lower.specs.Lowered.{Lowered};
ghost use Rattle.ca_agent.specs.Agents.{PausesAt};
ghost use Rattle.ca_system.specs.Applications.{pending_application};
ghost use Rattle.ca_system.specs.Stands.{stand_at};
ghost use Rattle.ca_system_tasks.specs.Tables.{table_body};
ghost use Rattle.ca_tasks.specs.Systems.{SystemStandsAs, SystemAdvances, SystemGives, SystemGoesOn, HasItsFunction, IsSystemOver, SystemStarts, system_going_on, system_view};
ghost use Rattle.ca_tasks.specs.SystemLaws.{system_advanced, system_answered, system_asked, system_started, system_stays_over};

use ca_agent::agent::{Agent, Outcome, Pause};
use ca_applying::apply::apply;
use ca_states::valid_code::ValidCode;
use ca_system::stand::Stand;
use ca_system_tasks::table::SystemTable;
use ca_term::operation::Want;
use ca_value::memory::OutOfMemory;
use ca_value::value::Value;
use std::alloc::Global;
use std::mem;

/// A system task as it runs: its table, and where it is.
#[derive(Drop)]
pub struct SystemTask {
    pub(crate) table: SystemTable,
    pub(crate) stage: Stage,
}

/// Where a system task is.
#[derive(Drop)]
pub enum Stage {
    /// In a state of its table: it is new.
    Resting,
    /// Its operation has this answer, which it has not followed yet.
    Answered(Value),
    /// Paused.
    Standing(Stand),
}

impl SystemTask {
    /// A new task in the state that its table is in.
    pub fn new(table: SystemTable) -> SystemTask
        ensures { system_view result ≡ system_going_on (table_body table) }
    {
        SystemTask {
            table,
            stage: Stage::Resting,
        }
    }

    fn go_on(&mut self, alloc: Global, code: &ValidCode) -> Result<Pause, OutOfMemory>
        requires { HasItsFunction (valid_code code.now) (system_view self.old).body }
        ensures goes { OnOk result ((program : ProgramView) → Lowered program (valid_code code.now) → SystemGoesOn program (system_view self.old) (system_view self.new)) }
        ensures pauses { IfOk result (λ p. PausesAt p (system_view self.new).place) }
        ensures over { OnOk result (IsSystemOver (valid_code code.now) (system_view self.new)) }
    {
        self.follow(alloc)?;
        come_to_rest(&mut self.table, alloc, code)?;
        self.pause(alloc)
    }

    // It follows its answer, if it has one.
    fn follow(&mut self, alloc: Global) -> Result<(), OutOfMemory>
        ensures { OnOk result (table_body self.new.table ≡ (system_view self.old).body) }
    {
        match mem::replace(&mut self.stage, Stage::Resting) {
            Stage::Answered(answer) => self.table.follow(alloc, answer),
            _ => Ok(()),
        }
    }

    // It pauses where its table stands.
    fn pause(&mut self, alloc: Global) -> Result<Pause, OutOfMemory>
        requires { pending_application (table_body self.old.table) ≡ None }
        ensures body { OnOk result ((system_view self.new).body ≡ table_body self.old.table) }
        ensures there { OnOk result ((system_view self.new).place ≡ system_at (system_view self.new).body) }
        ensures pauses { IfOk result (λ p. PausesAt p (system_view self.new).place) }
    {
        let stand = self.table.stand(alloc)?;
        let pause = pause_of(&stand);
        self.stage.put(Stage::Standing(stand));
        Ok(pause)
    }
}

// It applies the function that the table is about to apply, if any.
fn come_to_rest(table: &mut SystemTable, alloc: Global, code: &ValidCode) -> Result<(), OutOfMemory>
    requires { HasItsFunction (valid_code code.now) (table_body table.old) }
    ensures rests { OnOk result ((program : ProgramView) → Lowered program (valid_code code.now) → SystemRest program (table_body table.old) (table_body table.new)) }
    ensures applies { OnOk result (pending_application (table_body table.new) ≡ None) }
    ensures over { OnOk result (HasItsFunction (valid_code code.now) (table_body table.new)) }
{
    let returned = match table.pending() {
        None => return Ok(()),
        Some(application) => apply(alloc, code, application)?,
    };
    table.applied(alloc, returned)
}

// The pause of a task that stands there.
fn pause_of(stand: &Stand) -> Pause
    ensures { PausesAt result (stand_at stand.now) }
{
    match stand {
        Stand::AtOp(_) => Pause::AtOp,
        Stand::Ended => Pause::Ended,
        Stand::Faulted(fault, place) => Pause::Faulted(*fault, *place),
    }
}

impl Stage {
    // It is there from now on.
    fn put(&mut self, next: Stage)
        ensures { self.new ≡ next }
    {
        *self = next;
    }
}

impl Agent for SystemTask {
    ghost over = { λ code a. IsSystemOver code (system_view a) };

    ghost stands = { λ program a b. SystemStandsAs program (system_view a) b };

    ghost place = { λ a. (system_view a).place };

    ghost advances = { λ program a c. SystemAdvances program (system_view a) (system_view c) };

    ghost gives = { λ a v c. SystemGives (system_view a) v (system_view c) };

    ghost starts = { λ program seed a. SystemStarts seed (system_view a) };

    fn want(&self) -> &Want {
        match &self.stage {
            Stage::Standing(Stand::AtOp(want)) => want,
            _ => unreachable!(),
        }
    }

    fn give(&mut self, outcome: Outcome) {
        let Outcome { value, branch: _ } = outcome;
        self.stage.put(Stage::Answered(value));
    }

    fn advance(&mut self, alloc: Global, code: &ValidCode) -> Result<Pause, OutOfMemory> {
        match &self.stage {
            Stage::Standing(stand) => Ok(pause_of(stand)),
            _ => self.go_on(alloc, code),
        }
    }

    ghost advanced = { λ program a c b. system_advanced program (system_view a) (system_view c) b };

    ghost answered = { λ program a c b w v st _ at g. system_answered program (system_view a) (system_view c) b w v st at g };

    ghost stays = { λ code a c v. system_stays_over code (system_view a) (system_view c) v };

    ghost asked = { λ code a seed at. system_asked code (system_view a) seed at };

    ghost started = { λ program seed a. system_started program seed (system_view a) };
}
