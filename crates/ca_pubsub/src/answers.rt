//! What a publication's registry answers.
ghost use Rattle.std.specs.Prelude.{◌≡◌, map, option_map, IfOk};
ghost use Rattle.ca_value.specs.Tree.{vector};
ghost use Rattle.ca_value.specs.View.{view, trees};
ghost use Rattle.ca_meaning.specs.Asks.{ports_in, ports_of};
ghost use Rattle.ca_meaning.specs.PubTable.{channel_of_pair};
ghost use Rattle.ca_pubsub.specs.Numbers.{port_numbers};

use ca_system::operand::port_in;
use ca_value::memory::OutOfMemory;
use ca_value::seq::Seq;
use ca_value::value::{PortId, Value};
use std::alloc::Global;

// The channel of an answer `[mult channel]`; None where it has another form.
pub(crate) fn channel_of(answer: &Value) -> Option<PortId>
    ensures { option_map (λ p. p.n) result ≡ channel_of_pair (view answer.now) }
{
    match answer {
        Value::Vector(parts) => channel_in(parts.as_slice()),
        _ => None,
    }
}

#[tactic(auto, using(crate::proofs::AnswerLaws::fewer_than_two, crate::proofs::AnswerLaws::more_than_two))]
fn channel_in(parts: &[Value]) -> Option<PortId>
    ensures { option_map (λ p. p.n) result ≡ channel_of_pair (vector (trees parts.now)) }
{
    match parts {
        [Value::Port(_), Value::Port(channel)] => Some(*channel),
        _ => None,
    }
}

// The ports of a vector of ports, in order; None where the answer has another form.
pub(crate) fn ports_in(alloc: Global, answer: &Value) -> Result<Option<Seq<PortId>>, OutOfMemory>
    ensures { IfOk result (λ r. option_map port_numbers r ≡ ports_in (view answer.now)) }
{
    match answer {
        Value::Vector(items) => ports_of(alloc, items.as_slice()),
        _ => Ok(None),
    }
}

#[tactic(auto, using(crate::proofs::AnswerLaws::port_more, crate::proofs::AnswerLaws::port_wrong))]
fn ports_of(alloc: Global, items: &[Value]) -> Result<Option<Seq<PortId>>, OutOfMemory>
    ensures { IfOk result (λ r. option_map port_numbers r ≡ ports_of (trees items.now)) }
{
    let mut ports = Seq::new(alloc);
    ports.reserve(items.len() as u64)?;
    for item in items {
        match port_in(item) {
            None => return Ok(None),
            Some(port) => ports.push(port),
        }
    }
    Ok(Some(ports))
}
