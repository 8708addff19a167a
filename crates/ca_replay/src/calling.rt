//! Plain functions that system tasks apply: those of the program are called by their text.
ghost use Rattle.std.specs.Prelude.{◌≡◌, IfOk, IsTrue, Some, map};
ghost use Rattle.ca_value.specs.Builtins.{admits_arguments, builtin_result};
ghost use Rattle.ca_value.specs.Tree.{Tree};
ghost use Rattle.ca_value.specs.View.{view};
ghost use Rattle.ca_value.specs.declared.builtin.Builtin.TheVariants.{Get};
ghost use Rattle.ca_term.specs.Fits.{Takes};
ghost use Rattle.ca_term.specs.Program.{arity, program_view};
ghost use Rattle.ca_term.specs.declared.head.PlainFunction.TheVariants.{Defined};
ghost use Rattle.ca_meaning.specs.Applied.{Applied, of_builtin, returned_at};
ghost use Rattle.ca_meaning.specs.Asks.{one_of, two_of};
ghost use Rattle.ca_meaning.specs.Body.{at};
ghost use Rattle.ca_meaning.specs.BodyViews.{body_view};
ghost use Rattle.ca_system.specs.Applications.{ApplicationComesTo};
ghost use Rattle.ca_system.specs.Applied.{application_view, returned_view};
ghost use Rattle.ca_replay.specs.SceneOf.{HasFunction};

use ca_asking::judging::task_fault;
use ca_meaning::body::{Body, Stand};
use ca_system::application::Application;
use ca_system::returned::Returned;
use ca_term::fault::Fault;
use ca_term::head::PlainFunction;
use ca_term::place::Place;
use ca_term::program::Program;
use ca_value::builtin::Builtin;
use ca_value::builtin::direct::{apply_one, apply_two};
use ca_value::fault::ApplyError;
use ca_value::memory::OutOfMemory;
use ca_value::value::Value;
use std::alloc::Global;

/// What the application comes to. A function that is named is in the program, and takes one value.
pub(crate) fn apply_function(
    alloc: Global,
    program: &Program,
    application: Application<'_>,
) -> Result<Returned, OutOfMemory>
    requires { HasFunction (program_view program.now) (Some application.function) }
    ensures { IfOk result (λ r. ApplicationComesTo (program_view program.now) (application_view application.entry) (returned_view r)) }
{
    let Application {
        function,
        keyword,
        place,
        value,
    } = application;
    match function {
        PlainFunction::Defined(number) => call(alloc, program, number, value.copy(alloc)?, place),
        PlainFunction::Builtin(builtin) => apply_builtin(alloc, builtin, value),
        PlainFunction::Keyword => look_up(alloc, value, keyword),
    }
}

// The function of that number, called by itself with the value.
fn call(
    alloc: Global,
    program: &Program,
    number: u64,
    value: Value,
    place: Place,
) -> Result<Returned, OutOfMemory>
    requires { Takes (map arity (program_view program.now).functions) number 1 }
    ensures { IfOk result (λ r. (keyword : Tree) → Applied (program_view program.now) (Defined number) keyword place (view value) (returned_view r)) }
{
    program.checked();
    let mut body = Body::call(alloc, number, value, place)?;
    body.rest(alloc, program)?;
    returned(alloc, &body)
}

// What a body at rest came to. A plain function has no operations.
#[tactic(auto, using(crate::proofs::Calls::value_returned, crate::proofs::Calls::fault_returned, crate::proofs::Calls::local_returned, crate::proofs::Calls::op_returned, crate::proofs::Calls::end_returned))]
fn returned(alloc: Global, body: &Body) -> Result<Returned, OutOfMemory>
    ensures { IfOk result (λ r. returned_view r ≡ returned_at (at (body_view body.now))) }
{
    if let Some(value) = body.value() {
        return Ok(Returned::Value(value.copy(alloc)?));
    }
    match body.at() {
        Stand::Faulted(fault, _) => Ok(Returned::Fault(fault)),
        Stand::AtOp | Stand::Local | Stand::Ended => Ok(Returned::Fault(Fault::WrongKind)),
    }
}

// A builtin of the value.
fn apply_builtin(alloc: Global, builtin: Builtin, value: &Value) -> Result<Returned, OutOfMemory>
    requires { IsTrue (admits_arguments builtin 1) }
    ensures { IfOk result (λ r. returned_view r ≡ of_builtin (builtin_result builtin (one_of (view value.now)))) }
{
    match apply_one(alloc, builtin, value) {
        Ok(value) => Ok(Returned::Value(value)),
        Err(ApplyError::Fault(fault)) => Ok(Returned::Fault(task_fault(fault))),
        Err(ApplyError::OutOfMemory) => Err(OutOfMemory),
    }
}

// What the value has under the keyword.
fn look_up(alloc: Global, value: &Value, keyword: &Value) -> Result<Returned, OutOfMemory>
    ensures { IfOk result (λ r. returned_view r ≡ of_builtin (builtin_result Get (two_of (view value.now) (view keyword.now)))) }
{
    match apply_two(alloc, Builtin::Get, value, keyword) {
        Ok(value) => Ok(Returned::Value(value)),
        Err(ApplyError::Fault(fault)) => Ok(Returned::Fault(task_fault(fault))),
        Err(ApplyError::OutOfMemory) => Err(OutOfMemory),
    }
}
