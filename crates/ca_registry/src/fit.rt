//! Whether operands are the ports that an operation needs, wherever the ports stand.
ghost use Rattle.std.specs.Prelude.{◌≡◌, Some, None, cond, map};
ghost use Rattle.ca_value.specs.View.{view, trees, tree_pairs};
ghost use Rattle.ca_term.specs.Operation.{what_view, seed_view};
ghost use Rattle.ca_meaning.specs.Operands.{operand_at, is_pair, second_of, or_else, first_of};
ghost use Rattle.ca_meaning.specs.Refusal.{is_channel, is_port_to, meets_need, nil_put, not_a_channel, bad_port, bad_ports, bad_choice, bad_seed, needs_to_make, operands_to_make, unmet};
ghost use Rattle.ca_meaning.specs.Registry.{all_channels, pairs_in};
ghost use Rattle.ca_meaning.specs.State.{State};
ghost use Rattle.ca_registry.specs.Needs.{need_view, keys_pass};

use crate::need::{Need, needs_of_system};
use ca_asking::operands::operand;
use ca_term::fault::Fault;
use ca_term::head::RegisterName;
use ca_term::operation::{Seed, What};
use ca_value::value::{Pair, PortId, Value};

const MOST_PORTS: usize = 256;

/// Who tells what stands at a port.
pub trait Ports {
    /// The state whose channels and registries it tells.
    ghost state: { Self → State };

    /// Whether what stands at the port is what is needed.
    fn is_port_to(&self, need: Need, port: PortId) -> bool
        ensures { result ≡ is_port_to (state self.now) (need_view need) port.n };
}

fn meets_need<P: Ports>(ports: &P, need: Need, value: &Value) -> bool
    ensures { result ≡ meets_need (P.state ports.now) (need_view need) (view value.now) }
{
    match need {
        Need::Anything => true,
        _ => match value {
            Value::Port(port) => ports.is_port_to(need, *port),
            _ => false,
        },
    }
}

/// Whether the value is a channel.
pub fn is_channel<P: Ports>(ports: &P, value: &Value) -> bool
    ensures { result ≡ is_channel (P.state ports.now) (view value.now) }
{
    match value {
        Value::Port(port) => ports.is_port_to(Need::Channel, *port),
        _ => false,
    }
}

/// The fault of an operand that isn't a channel.
pub fn not_a_channel<P: Ports>(ports: &P, value: &Value) -> Option<Fault>
    ensures { result ≡ not_a_channel (P.state ports.now) (view value.now) }
{
    if is_channel(ports, value) {
        None
    } else {
        Some(Fault::NotAPort)
    }
}

/// The fault of a channel and a value that is put into it.
pub fn bad_put<P: Ports>(ports: &P, channel: &Value, value: &Value) -> Option<Fault>
    ensures { result ≡ or_else (not_a_channel (P.state ports.now) (view channel.now)) (nil_put (view value.now)) }
{
    match not_a_channel(ports, channel) {
        Some(fault) => Some(fault),
        None => match value {
            Value::Nil => Some(Fault::NilPut),
            _ => None,
        },
    }
}

fn bad_pair<P: Ports>(ports: &P, items: &[Value]) -> Option<Fault>
    ensures { result ≡ cond (is_pair (trees items.now)) (or_else (not_a_channel (P.state ports.now) (first_of (trees items.now))) (nil_put (second_of (trees items.now)))) (Some Fault.NotAPort) }
{
    if items.len() == 2 {
        bad_put(ports, &items[0], &items[1])
    } else {
        Some(Fault::NotAPort)
    }
}

// The fault of a port of an alts.
fn bad_port<P: Ports>(ports: &P, value: &Value) -> Option<Fault>
    ensures { result ≡ bad_port (P.state ports.now) (view value.now) }
{
    match value {
        Value::Vector(items) => bad_pair(ports, items.as_slice()),
        _ => not_a_channel(ports, value),
    }
}

fn bad_ports<P: Ports>(ports: &P, values: &[Value]) -> Option<Fault>
    ensures { result ≡ bad_ports (P.state ports.now) (trees values.now) }
{
    for value in values {
        if let Some(fault) = bad_port(ports, value) {
            return Some(fault);
        }
    }
    None
}

/// The fault of the ports of an alts.
pub fn bad_choice<P: Ports>(ports: &P, values: &[Value]) -> Option<Fault>
    ensures { result ≡ bad_choice (P.state ports.now) (trees values.now) }
{
    if values.is_empty() {
        return Some(Fault::NoPorts);
    }
    if MOST_PORTS < values.len() {
        return Some(Fault::TooManyPorts);
    }
    bad_ports(ports, values)
}

// Whether the operand at the place is what is needed; one that isn't there counts as nil.
fn need_met<P: Ports>(ports: &P, need: Need, values: &[Value], place: usize) -> bool
    ensures { result ≡ meets_need (P.state ports.now) (need_view need) (operand_at place (trees values.now)) }
{
    let nil = Value::Nil;
    meets_need(ports, need, operand(values, place as u64, &nil))
}

/// The fault of the first operand that isn't what is needed.
pub fn unmet<P: Ports>(ports: &P, needs: &[Need], values: &[Value]) -> Option<Fault>
    ensures { result ≡ unmet (P.state ports.now) (map need_view needs.now) (trees values.now) }
{
    for place in 0..needs.len() {
        if !need_met(ports, needs[place], values, place) {
            return Some(Fault::NotAPort);
        }
    }
    None
}

/// The fault of the ports that what is made is made of.
pub fn bad_what<P: Ports>(ports: &P, what: &What) -> Option<Fault>
    ensures { result ≡ unmet (P.state ports.now) (needs_to_make (what_view what.now)) (operands_to_make (what_view what.now)) }
{
    match what {
        What::Mult(source) | What::Pub(source) => not_a_channel(ports, source),
        What::Mix(out, changes) => match not_a_channel(ports, out) {
            Some(fault) => Some(fault),
            None => not_a_channel(ports, changes),
        },
        _ => None,
    }
}

/// The fault of the values that a new task starts with.
pub fn bad_seed<P: Ports>(ports: &P, seed: &Seed) -> Option<Fault>
    ensures { result ≡ bad_seed (P.state ports.now) (seed_view seed.now) }
{
    match seed {
        Seed::Go(seed) => not_a_channel(ports, &Value::Port(seed.result)),
        Seed::System(seed) => unmet(ports, needs_of_system(seed.kind), seed.values.as_slice()),
    }
}

fn all_channels<P: Ports>(ports: &P, pairs: &[Pair]) -> bool
    ensures { result ≡ all_channels (is_channel (P.state ports.now)) (tree_pairs pairs.now) }
{
    for pair in pairs {
        if !is_channel(ports, &pair.key) {
            return false;
        }
    }
    true
}

// Whether each key of a toggle is a channel.
fn keys_are_channels<P: Ports>(ports: &P, toggle: &Value) -> bool
    ensures { result ≡ all_channels (is_channel (P.state ports.now)) (pairs_in (view toggle.now)) }
{
    match toggle {
        Value::Map(pairs) => all_channels(ports, pairs.as_slice()),
        _ => true,
    }
}

/// Whether the keys of a toggle are channels; the arguments are those behind the registry. For an operation of another name
/// true.
pub fn keys_pass<P: Ports>(ports: &P, name: RegisterName, args: &[Value]) -> bool
    ensures { result ≡ keys_pass (P.state ports.now) name (trees args.now) }
{
    match name {
        RegisterName::Toggle => match args.first() {
            Some(toggle) => keys_are_channels(ports, toggle),
            None => true,
        },
        _ => true,
    }
}
