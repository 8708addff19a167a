//! The blocks of a text: a function, a go body or the main text.
ghost use Rattle.std.specs.Prelude.{◌≡◌, IfOk, OnOk};
ghost use Rattle.ca_value.specs.Seq.{list};
ghost use Rattle.ca_term.specs.View.{kernel};
ghost use Rattle.ca_lower.specs.Implements.{in_slots};
ghost use Rattle.ca_lower.specs.Emit.{emit_text, text_opened, width_of};
ghost use Rattle.ca_lower.specs.Views.{builder_view, scope_view};

use crate::builder::{Builder, Name, sum};
use crate::emit::emit_term;
use crate::sizes::splits_of;
use crate::width::slots_for;
use ca_states::code::Exit;
use ca_term::term::Term;
use ca_value::memory::OutOfMemory;
use ca_value::seq::Seq;
use std::alloc::Global;

// The parameters, in the first slots.
fn parameters_in_slots(alloc: Global, parameters: &[u64]) -> Result<Seq<Name>, OutOfMemory>
    ensures { IfOk result (λ s. scope_view (list s) ≡ in_slots parameters.now 0) }
{
    let mut names = Seq::new(alloc);
    let mut slot = 0;
    for name in parameters {
        names.reserve(1)?;
        names.push(Name { name: *name, slot });
        slot = sum(slot, 1)?;
    }
    Ok(names)
}

// A new block is at work, with so many slots from the beginning.
fn open(alloc: Global, builder: &mut Builder, count: u64)
    ensures { builder_view builder.new ≡ text_opened count (builder_view builder.old) }
{
    builder.below = count;
    builder.instrs = Seq::new(alloc);
}

/// The blocks of a text that takes these parameters; the answer is how many slots it needs.
pub(crate) fn emit_text(
    alloc: Global,
    builder: &mut Builder,
    parameters: &[u64],
    body: &Term,
) -> Result<u64, OutOfMemory>
    ensures code { OnOk result (builder_view builder.new ≡ emit_text (record { parameters = parameters.now; body = kernel body.now }) (builder_view builder.old)) }
    ensures width { IfOk result (λ n. n ≡ width_of (record { parameters = parameters.now; body = kernel body.now })) }
{
    let count = parameters.len() as u64;
    let width = slots_for(count, body)?;
    let mut names = parameters_in_slots(alloc, parameters)?;
    let mut splits = splits_of(alloc, body)?;
    open(alloc, builder, count);
    emit_term(
        alloc,
        builder,
        &mut splits,
        width,
        None,
        &mut names,
        count,
        body,
    )?;
    builder.close(alloc, width, Exit::Return { slot: count }, 0)?;
    Ok(width)
}
