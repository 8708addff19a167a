//! Where a text begins, and the slots that it begins with.
ghost use Rattle.std.specs.Prelude.{◌≡◌, ◌<◌, ◌≤◌, length, IfOk};
ghost use Rattle.ca_value.specs.Seq.{list};
ghost use Rattle.ca_value.specs.View.{views};
ghost use Rattle.ca_states.specs.Code.{block_count, block_at, block_view, function_at, body_entry, code_view};
ghost use Rattle.ca_states.specs.Machine.{begun};
ghost use Rattle.ca_states.specs.Standing.{entry_at};

use crate::code::{Block, Code, EntryPoint};
use crate::runner::Start;
use crate::slots::fill;
use ca_value::memory::OutOfMemory;
use ca_value::seq::Seq;
use ca_value::value::{Items, Value};

// The entry point of that number, or one that takes nothing.
fn entry_or_none(entries: &Seq<EntryPoint>, number: u64) -> EntryPoint
    ensures { result ≡ Rattle.std.specs.Prelude.slice_index_or (list entries.now) number Rattle.ca_states.specs.Code.no_entry }
{
    match entries.get(number) {
        Some(entry) => *entry,
        None => EntryPoint {
            block: 0,
            values: 0,
        },
    }
}

/// The function of that number.
pub(crate) fn function_at(code: &Code, number: u64) -> EntryPoint
    ensures { result ≡ function_at (code_view code.now) number }
{
    entry_or_none(&code.functions, number)
}

/// Where the start begins.
pub(crate) fn entry_point(code: &Code, start: Start) -> EntryPoint
    ensures { result ≡ entry_at (code_view code.now) start }
{
    match start {
        Start::Main => EntryPoint {
            block: code.main,
            values: 0,
        },
        Start::Go(number) => entry_or_none(&code.bodies, number),
        Start::Function(number) => entry_or_none(&code.functions, number),
    }
}

/// The block of that number.
#[tactic(auto, using(crate::proofs::StandingLaws::block_view_at))]
pub(crate) fn block_at(code: &Code, number: u64) -> &Block
    requires { number < block_count (code_view code.now) }
    ensures { block_view result.now ≡ block_at (code_view code.now) number }
{
    &code.blocks.as_slice()[number as usize]
}

/// New slots, so many, with the values in the first of them.
pub(crate) fn begun(values: Items, width: u64) -> Result<Vec<Value>, OutOfMemory>
    requires { length (list values) ≤ width }
    ensures { IfOk result (λ s. views s.items ≡ begun width (views (list values))) }
{
    let mut slots = values.into_vec();
    let more = width as usize - slots.len();
    slots.reserve_exact(more)?;
    fill(&mut slots, width)?;
    Ok(slots)
}
