//! Functions of the program, each called by itself.
ghost use Rattle.std.specs.Prelude.{◌≡◌, ◌∷◌, [], IfOk};
ghost use Rattle.ca_value.specs.Seq.{list};
ghost use Rattle.ca_value.specs.Tree.{Tree};
ghost use Rattle.ca_value.specs.View.{view, views};
ghost use Rattle.ca_term.specs.declared.head.PlainFunction.TheVariants.{Defined};
ghost use Rattle.ca_term.specs.Program.{ProgramView};
ghost use Rattle.ca_term.specs.declared.place.Place.{Place};
ghost use Rattle.ca_meaning.specs.Applied.{Applied};
ghost use Rattle.ca_states.specs.declared.runner.Start.TheVariants.{Function};
ghost use Rattle.ca_states.specs.Standing.{IsStart};
ghost use Rattle.ca_states.specs.ValidCode.{valid_code};
ghost use Rattle.ca_lower.specs.Lowered.{Lowered};
ghost use Rattle.ca_system.specs.Applied.{returned_view};
ghost use Rattle.ca_applying.specs.Returned.{halt_returned};

use ca_states::runner::{Halt, Runner};
use ca_states::valid_code::ValidCode;
use ca_system::returned::Returned;
use ca_term::fault::Fault;
use ca_value::memory::OutOfMemory;
use ca_value::seq::Seq;
use ca_value::value::{Items, Value};
use std::alloc::Global;

// One value.
fn alone(alloc: Global, value: Value) -> Result<Items, OutOfMemory>
    ensures { IfOk result (λ s. views (list s) ≡ view value ∷ []) }
{
    let mut values = Seq::new(alloc);
    values.reserve(1)?;
    values.push(value);
    Ok(values)
}

// What a call comes to that halted so. A plain function has no operations.
fn returned(halt: Halt) -> Returned
    ensures { returned_view result ≡ halt_returned halt }
{
    match halt {
        Halt::Ended(value) => Returned::Value(value),
        Halt::Faulted(fault, _) => Returned::Fault(fault),
        Halt::Cut(_) => Returned::Fault(Fault::WrongKind),
    }
}

/// The function of that number, called by itself with the value. Its turns and calls are counted from 0, and the call is
/// one of each.
pub fn call(
    alloc: Global,
    code: &ValidCode,
    function: u64,
    value: Value,
) -> Result<Returned, OutOfMemory>
    requires { IsStart (valid_code code.now) (Function function) 1 }
    ensures { IfOk result (λ r. (program : ProgramView) (keyword : Tree) (place : Place) → Lowered program (valid_code code.now) → Applied program (Defined function) keyword place (view value) (returned_view r)) }
{
    let values = alone(alloc, value)?;
    let mut runner = Runner::start_call(alloc, code, function, values)?;
    let halt = runner.run(alloc, code)?;
    Ok(returned(halt))
}
