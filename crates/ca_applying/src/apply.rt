//! Plain functions of any kind.
ghost use Rattle.std.specs.Prelude.{◌≡◌, IfOk, IsTrue};
ghost use Rattle.ca_value.specs.View.{view};
ghost use Rattle.ca_value.specs.Builtins.{admits_arguments, builtin_result};
ghost use Rattle.ca_value.specs.declared.builtin.Builtin.TheVariants.{Get};
ghost use Rattle.ca_term.specs.Program.{ProgramView};
ghost use Rattle.ca_meaning.specs.Applied.{of_builtin};
ghost use Rattle.ca_meaning.specs.Asks.{one_of, two_of};
ghost use Rattle.ca_states.specs.Valid.{is_applied};
ghost use Rattle.ca_states.specs.ValidCode.{valid_code};
ghost use Rattle.ca_lower.specs.Lowered.{Lowered};
ghost use Rattle.ca_system.specs.Applications.{ApplicationComesTo};
ghost use Rattle.ca_system.specs.Applied.{application_view, returned_view};

use crate::call::call;
use ca_asking::judging::task_fault;
use ca_states::runner::Start;
use ca_states::valid_code::ValidCode;
use ca_system::application::Application;
use ca_system::returned::Returned;
use ca_term::head::PlainFunction;
use ca_value::builtin::Builtin;
use ca_value::builtin::direct::{apply_one, apply_two};
use ca_value::fault::ApplyError;
use ca_value::memory::OutOfMemory;
use ca_value::value::Value;
use std::alloc::Global;

// A builtin of the value.
fn apply_builtin(alloc: Global, builtin: Builtin, value: &Value) -> Result<Returned, OutOfMemory>
    requires { IsTrue (admits_arguments builtin 1) }
    ensures { IfOk result (λ r. returned_view r ≡ of_builtin (builtin_result builtin (one_of (view value.now)))) }
{
    match apply_one(alloc, builtin, value) {
        Ok(value) => Ok(Returned::Value(value)),
        Err(ApplyError::Fault(fault)) => Ok(Returned::Fault(task_fault(fault))),
        Err(ApplyError::OutOfMemory) => Err(OutOfMemory),
    }
}

// What the value has under the keyword.
fn look_up(alloc: Global, value: &Value, keyword: &Value) -> Result<Returned, OutOfMemory>
    ensures { IfOk result (λ r. returned_view r ≡ of_builtin (builtin_result Get (two_of (view value.now) (view keyword.now)))) }
{
    match apply_two(alloc, Builtin::Get, value, keyword) {
        Ok(value) => Ok(Returned::Value(value)),
        Err(ApplyError::Fault(fault)) => Ok(Returned::Fault(task_fault(fault))),
        Err(ApplyError::OutOfMemory) => Err(OutOfMemory),
    }
}

/// Whether the code has the function, and it takes one value.
pub fn has_function(code: &ValidCode, function: PlainFunction) -> bool
    ensures { result ≡ is_applied (valid_code code.now) function }
{
    match function {
        PlainFunction::Defined(number) => code.has_start(Start::Function(number), 1),
        PlainFunction::Builtin(builtin) => builtin.admits(1),
        PlainFunction::Keyword => true,
    }
}

/// What the application comes to. The code has a function of the program that is named, and it takes one value.
pub fn apply(
    alloc: Global,
    code: &ValidCode,
    application: Application<'_>,
) -> Result<Returned, OutOfMemory>
    requires { IsTrue (is_applied (valid_code code.now) application.function) }
    ensures { IfOk result (λ r. (program : ProgramView) → Lowered program (valid_code code.now) → ApplicationComesTo program (application_view application.entry) (returned_view r)) }
{
    let Application {
        function,
        keyword,
        place: _,
        value,
    } = application;
    match function {
        PlainFunction::Defined(number) => call(alloc, code, number, value.copy(alloc)?),
        PlainFunction::Builtin(builtin) => apply_builtin(alloc, builtin, value),
        PlainFunction::Keyword => look_up(alloc, value, keyword),
    }
}
