//! Texts with values in place of their names: what a call, a go block's task and the next round of a loop begin with.
ghost use Rattle.std.specs.Prelude.{◌≡◌, IfOk};
ghost use Rattle.ca_value.specs.Seq.{list};
ghost use Rattle.ca_value.specs.View.{views};
ghost use Rattle.ca_term.specs.Kernel.{puts};
ghost use Rattle.ca_term.specs.Program.{procedure_view};
ghost use Rattle.ca_term.specs.View.{kernel, kernels, founds};
ghost use Rattle.ca_meaning.specs.Redex.{values_of};
ghost use Rattle.ca_meaning.specs.Operands.{values_in};
ghost use Rattle.ca_meaning.specs.Started.{named, names_found, started};

use ca_asking::operands::AsOperand;
use ca_term::program::Procedure;
use ca_term::term::{Found, Term};
use ca_value::memory::OutOfMemory;
use ca_value::seq::Seq;
use ca_value::value::{Items, Value};
use std::alloc::Global;

/// A copy of the text with the values in place of its parameters; a parameter without a value stays.
pub fn started(alloc: Global, text: &Procedure, values: &Items) -> Result<Term, OutOfMemory>
    ensures { IfOk result (λ t. kernel t ≡ started (procedure_view text.now) (views (list values.now))) }
{
    let mut now = text.body.copy(alloc)?;
    let mut place = 0;
    for name in text.parameters.as_slice() {
        let Some(value) = values.get(place) else {
            return Ok(now);
        };
        now = now.with(alloc, *name, value)?;
        place += 1;
    }
    Ok(now)
}

// A copy of the text with the operands' values in place of the names.
pub(crate) fn text_with(
    alloc: Global,
    names: &Seq<u64>,
    operands: &Seq<Term>,
    text: &Term,
) -> Result<Term, OutOfMemory>
    ensures { IfOk result (λ t. kernel t ≡ puts (named (list names.now) (values_in (values_of (kernels (list operands.now))))) (kernel text.now)) }
{
    let nil = Value::Nil;
    let mut now = text.copy(alloc)?;
    let mut place = 0;
    for name in names.as_slice() {
        let Some(operand) = operands.get(place) else {
            return Ok(now);
        };
        now = now.with(alloc, *name, operand.value(&nil))?;
        place += 1;
    }
    Ok(now)
}

// A copy of a loop's text with its values in place of its names.
pub(crate) fn loop_text(alloc: Global, known: &Seq<Found>, text: &Term) -> Result<Term, OutOfMemory>
    ensures { IfOk result (λ t. kernel t ≡ puts (founds (list known.now)) (kernel text.now)) }
{
    let mut now = text.copy(alloc)?;
    for found in known.as_slice() {
        now = now.with(alloc, found.name, &found.value)?;
    }
    Ok(now)
}

// The names that have their values.
pub(crate) fn names_of(alloc: Global, known: &Seq<Found>) -> Result<Seq<u64>, OutOfMemory>
    ensures { IfOk result (λ s. list s ≡ names_found (founds (list known.now))) }
{
    let mut names = Seq::new(alloc);
    names.reserve(known.len())?;
    for found in known.as_slice() {
        names.push(found.name);
    }
    Ok(names)
}
