ghost use Rattle.std.specs.Prelude.{◌≡◌, true, IfOk, OnOk};
ghost use Rattle.ca_value.specs.Tree.{Tree};
ghost use Rattle.ca_value.specs.View.{view};
ghost use Rattle.ca_term.specs.Program.{ProgramView};
ghost use Rattle.ca_term.specs.Operation.{SeedView, want_view};
ghost use Rattle.ca_meaning.specs.Body.{At, at_op};
ghost use Rattle.ca_meaning.specs.BodyViews.{is_at_op};
ghost use Rattle.ca_meaning.specs.Task.{TaskBody};
ghost use Rattle.ca_states.specs.Code.{CodeView};
ghost use Rattle.ca_states.specs.ValidCode.{valid_code};
ghost use Rattle.ca_lower.specs.Lowered.{Lowered};
ghost use Rattle.ca_agent.specs.Agents.{Advanced, Answered, AsksKnownTasks, PausesAt, Started, StaysOverCode};

use ca_states::valid_code::ValidCode;
use ca_term::fault::Fault;
use ca_term::operation::Want;
use ca_term::place::Place;
use ca_value::memory::OutOfMemory;
use ca_value::value::Value;
use std::alloc::Global;

/// The answer to an operation, whole as its form has it: of an alts the vector of a value and its port, or of the
/// default and `:default`. `branch` is the number of the branch that was done, from 0 on; None for a default, and
/// where an operation has no branches.
#[derive(Drop)]
pub struct Outcome {
    pub value: Value,
    pub branch: Option<u64>,
}

/// Where an agent paused: at an operation, at the end, or by a fault at a place.
#[derive(Clone, Copy, PartialEq, Eq)]
pub enum Pause {
    AtOp,
    Ended,
    Faulted(Fault, Place),
}

/// A task as it runs: it stands for a body.
pub trait Agent: Drop {
    // it was made over this code, and goes on with it
    ghost over: { CodeView → Self → Type 0 };

    // it stands for the body of this program, or one `advance` brings it there: it is new, or has just got an answer
    ghost stands: { ProgramView → Self → TaskBody → Type 0 };

    // where it is paused: at an operation, with its values, at the end with its value, or by a fault at its place
    ghost place: { Self → At };

    // it goes on to its next pause
    ghost advances: { ProgramView → Self → Self → Type 0 };

    // it gets an answer
    ghost gives: { Self → Tree → Self → Type 0 };

    // it is new, and of a task of this seed
    ghost starts: { ProgramView → SeedView → Self → Type 0 };

    /// The operation that it is paused at, with its values.
    fn want(&self) -> &Want
        requires { is_at_op (place self.now) ≡ true }
        ensures { place self.now ≡ at_op (want_view result.now) };

    /// The answer to the operation that it is paused at. It takes no memory.
    fn give(&mut self, outcome: Outcome)
        requires { is_at_op (place self.old) ≡ true }
        ensures gives { gives self.old (view outcome.value) self.new };

    /// Goes on to the next operation, the end or a fault, over the code that it was made over; where it is paused
    /// already, it stays there. After `OutOfMemory` it is only dropped.
    fn advance(&mut self, alloc: Global, code: &ValidCode) -> Result<Pause, OutOfMemory>
        requires { over (valid_code code.now) self.old }
        ensures advances { OnOk result ((program : ProgramView) → Lowered program (valid_code code.now) → advances program self.old self.new) }
        ensures pauses { IfOk result (λ p. PausesAt p (place self.new)) }
        ensures over { OnOk result (over (valid_code code.now) self.new) };

    ghost advanced: { Advanced stands place advances };

    ghost answered: { Answered stands place gives };

    ghost stays: { StaysOverCode over gives };

    ghost asked: { AsksKnownTasks over place };

    ghost started: { Started stands place starts };
}
