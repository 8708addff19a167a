ghost use Rattle.std.specs.Prelude.{◌≡◌, ◌≤◌, IsTrue, drop, length};
ghost use Rattle.ca_value.specs.View.{view, trees, tree_pairs};
ghost use Rattle.ca_meaning.specs.Registry.{pairs_in, names_channel, channels_differ};
ghost use Rattle.ca_registry.specs.Mixes.{TogglesApart};
ghost use Rattle.ca_registry.specs.Publications.{PlacesItself};

use ca_asking::operands::{operand, port_of};
use ca_term::head::RegisterName;
use ca_value::value::{Pair, Value};

/// Whether the keys of a toggle name different channels, as those of a map of channels do.
pub fn toggles_apart(name: RegisterName, args: &[Value]) -> bool
    ensures { IsTrue result → TogglesApart name (trees args.now) }
{
    match name {
        RegisterName::Toggle => {
            let nil = Value::Nil;
            have_apart(operand(args, 0, &nil))
        }
        _ => true,
    }
}

/// Whether the topic that is placed is equal to itself, as every value is.
pub fn places_itself(name: RegisterName, args: &[Value]) -> bool
    ensures { IsTrue result → PlacesItself name (trees args.now) }
{
    match name {
        RegisterName::Place => {
            let nil = Value::Nil;
            let topic = operand(args, 0, &nil);
            topic.equal(topic)
        }
        _ => true,
    }
}

fn have_apart(value: &Value) -> bool
    ensures { result ≡ channels_differ (pairs_in (view value.now)) }
{
    match value {
        Value::Map(pairs) => are_apart(pairs.as_slice()),
        _ => true,
    }
}

fn are_apart(pairs: &[Pair]) -> bool
    ensures { result ≡ channels_differ (tree_pairs pairs.now) }
{
    for place in 0..pairs.len() {
        if is_named(port_of(&pairs[place].key).n, pairs, place + 1) {
            return false;
        }
    }
    true
}

// Whether a key from that place on names the channel.
fn is_named(channel: u64, pairs: &[Pair], from: usize) -> bool
    requires { from ≤ length pairs.now }
    ensures { result ≡ names_channel channel (tree_pairs (drop from pairs.now)) }
{
    for place in from..pairs.len() {
        if channel == port_of(&pairs[place].key).n {
            return true;
        }
    }
    false
}
