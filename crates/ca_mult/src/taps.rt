//! The taps of a mult, as an answer tells them.
ghost use Rattle.std.specs.Prelude.{◌≡◌, ◌+◌, ◌^◌, ◌<◌, map, option_map, IfOk};
ghost use Rattle.std.specs.Vec.Iter.{into_iter_len};
ghost use Rattle.ca_value.specs.Seq.{list};
ghost use Rattle.ca_value.specs.Tree.{vector};
ghost use Rattle.ca_value.specs.View.{view, trees};
ghost use Rattle.ca_meaning.specs.Asks.{taps_in, taps_of};
ghost use Rattle.ca_meaning.specs.MultTable.{closing_of};
ghost use Rattle.ca_mult.specs.Taps.{mult_tap_view, tap_from, tap_in, taps_view};

use ca_value::memory::OutOfMemory;
use ca_value::seq::Seq;
use ca_value::value::{PortId, Value};
use std::alloc::Global;
use std::vec::IntoIter;

// A tapped channel, and whether it closes with the source.
#[derive(Clone, Copy, Drop)]
pub struct Tap {
    pub(crate) channel: PortId,
    pub(crate) closes: bool,
}

// A walk over taps: the one that it stands at, those after it, and how many stand before it.
#[derive(Drop)]
pub struct Walk {
    pub(crate) tap: Tap,
    pub(crate) left: IntoIter<Tap, Global>,
    pub(crate) before: u64,
    ghost few: { before + into_iter_len left + 1 < 2 ^ 64 },
}

// The taps, in order; None where the answer has another form.
pub(crate) fn taps_in(alloc: Global, answer: &Value) -> Result<Option<Seq<Tap>>, OutOfMemory>
    ensures { IfOk result (λ r. option_map taps_view r ≡ taps_in (view answer.now)) }
{
    match answer {
        Value::Vector(items) => taps_of(alloc, items.as_slice()),
        _ => Ok(None),
    }
}

#[tactic(auto, using(crate::proofs::TapLaws::tap_more, crate::proofs::TapLaws::tap_wrong))]
fn taps_of(alloc: Global, items: &[Value]) -> Result<Option<Seq<Tap>>, OutOfMemory>
    ensures { IfOk result (λ r. option_map taps_view r ≡ taps_of (trees items.now)) }
{
    let mut taps = Seq::new(alloc);
    taps.reserve(items.len() as u64)?;
    for item in items {
        match tap_in(item) {
            None => return Ok(None),
            Some(tap) => taps.push(tap),
        }
    }
    Ok(Some(taps))
}

// The tap that is written `[channel boolean]`.
fn tap_in(item: &Value) -> Option<Tap>
    ensures { option_map mult_tap_view result ≡ tap_in (view item.now) }
{
    match item {
        Value::Vector(parts) => pair_in(parts.as_slice()),
        _ => None,
    }
}

#[tactic(auto, using(crate::proofs::TapLaws::fewer_than_two, crate::proofs::TapLaws::more_than_two))]
fn pair_in(parts: &[Value]) -> Option<Tap>
    ensures { option_map mult_tap_view result ≡ tap_in (vector (trees parts.now)) }
{
    match parts {
        [channel, closes] => tap_from(channel, closes),
        _ => None,
    }
}

fn tap_from(channel: &Value, closes: &Value) -> Option<Tap>
    ensures { option_map mult_tap_view result ≡ tap_from (view channel.now) (view closes.now) }
{
    match (channel, closes) {
        (Value::Port(channel), Value::Bool(closes)) => Some(Tap {
            channel: *channel,
            closes: *closes,
        }),
        _ => None,
    }
}

// The channels that close with the source, in order.
pub(crate) fn closing_of(alloc: Global, taps: &[Tap]) -> Result<Vec<PortId>, OutOfMemory>
    ensures { IfOk result (λ v. map (λ p. p.n) v.items ≡ closing_of (map mult_tap_view taps.now)) }
{
    let mut closing = Vec::new(alloc);
    for tap in taps {
        if tap.closes {
            closing.push(tap.channel)?;
        }
    }
    Ok(closing)
}
