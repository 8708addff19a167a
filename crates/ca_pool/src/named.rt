// Which banks an operation needs.
ghost use Rattle.std.specs.Prelude.{◌≡◌, ℕ};
ghost use Rattle.ca_value.specs.Seq.{list};
ghost use Rattle.ca_value.specs.View.{tree_pairs, trees, view};
ghost use Rattle.ca_term.specs.Operation.{op_view, seed_view, what_view};
ghost use Rattle.ca_meaning.specs.Operands.{first_of, rest_of};
ghost use Rattle.ca_meaning.specs.Refusal.{operands_to_make};
ghost use Rattle.ca_meaning.specs.Registry.{pairs_in};
ghost use Rattle.ca_commit.specs.Touched.{homes};
ghost use Rattle.ca_pool.specs.Named.{ports_to_hold, with_item, with_items, with_keys, with_operands, with_seed, with_toggle, with_value, with_values};
ghost use Rattle.ca_table.specs.Homes.{has_home};

use ca_table::homes::Homes;
use ca_term::head::RegisterName;
use ca_term::operation::{Op, Seed, What};
use ca_value::value::{Pair, Value};

fn add_value(into: &mut Homes, value: &Value)
    ensures { (i : ℕ) → has_home into.new i ≡ with_value (view value.now) i (has_home into.old i) }
{
    if let Value::Port(port) = value {
        into.add(port.n);
    }
}

fn add_values(into: &mut Homes, values: &[Value])
    ensures { (i : ℕ) → has_home into.new i ≡ with_values (trees values.now) i (has_home into.old i) }
{
    for place in 0..values.len() {
        add_value(into, &values[place]);
    }
}

// The first of a pair.
fn add_first(into: &mut Homes, pair: &[Value])
    ensures { (i : ℕ) → has_home into.new i ≡ with_value (first_of (trees pair.now)) i (has_home into.old i) }
{
    if let Some(channel) = pair.first() {
        add_value(into, channel);
    }
}

// The channel of an item of an alts: it is the item itself, or the first of a pair.
fn add_item(into: &mut Homes, item: &Value)
    ensures { (i : ℕ) → has_home into.new i ≡ with_item (view item.now) i (has_home into.old i) }
{
    match item {
        Value::Vector(pair) => add_first(into, pair.as_slice()),
        _ => add_value(into, item),
    }
}

fn add_items(into: &mut Homes, items: &[Value])
    ensures { (i : ℕ) → has_home into.new i ≡ with_items (trees items.now) i (has_home into.old i) }
{
    for place in 0..items.len() {
        add_item(into, &items[place]);
    }
}

fn add_keys(into: &mut Homes, pairs: &[Pair])
    ensures { (i : ℕ) → has_home into.new i ≡ with_keys (tree_pairs pairs.now) i (has_home into.old i) }
{
    for place in 0..pairs.len() {
        add_value(into, &pairs[place].key);
    }
}

// The keys of a map.
fn add_map(into: &mut Homes, value: &Value)
    ensures { (i : ℕ) → has_home into.new i ≡ with_keys (pairs_in (view value.now)) i (has_home into.old i) }
{
    if let Value::Map(pairs) = value {
        add_keys(into, pairs.as_slice());
    }
}

// The keys of the map that stands first.
fn add_first_map(into: &mut Homes, args: &[Value])
    ensures { (i : ℕ) → has_home into.new i ≡ with_keys (pairs_in (first_of (trees args.now))) i (has_home into.old i) }
{
    if let Some(value) = args.first() {
        add_map(into, value);
    }
}

/// All operands but the first.
pub(crate) fn rest(args: &[Value]) -> &[Value]
    ensures { trees result.now ≡ rest_of (trees args.now) }
{
    if args.is_empty() { args } else { &args[1..] }
}

// What a toggle names beside its operands.
fn add_toggle(into: &mut Homes, name: RegisterName, args: &[Value])
    ensures { (i : ℕ) → has_home into.new i ≡ with_toggle name (trees args.now) i (has_home into.old i) }
{
    if let RegisterName::Toggle = name {
        add_first_map(into, rest(args));
    }
}

fn add_made(into: &mut Homes, what: &What)
    ensures { (i : ℕ) → has_home into.new i ≡ with_values (operands_to_make (what_view what.now)) i (has_home into.old i) }
{
    match what {
        What::Mult(source) | What::Pub(source) => add_value(into, source),
        What::Mix(out, changes) => {
            add_value(into, out);
            add_value(into, changes);
        }
        What::Unbuffered | What::Fixed(_) | What::Dropping(_) => {}
        What::Sliding(_) | What::Promise | What::Timeout(_) => {}
    }
}

// Of a go block its result port, and of another task the ports among its values.
fn add_seed(into: &mut Homes, seed: &Seed)
    ensures { (i : ℕ) → has_home into.new i ≡ with_seed (seed_view seed.now) i (has_home into.old i) }
{
    match seed {
        Seed::Go(seed) => into.add(seed.result.n),
        Seed::System(seed) => add_values(into, seed.values.as_slice()),
    }
}

fn add_operands(into: &mut Homes, op: &Op, new_port: u64)
    ensures { (i : ℕ) → has_home into.new i ≡ with_operands (op_view op.now) new_port i (has_home into.old i) }
{
    match op {
        Op::Take(channel) | Op::Close(channel) => add_value(into, channel),
        Op::Put(channel, _) | Op::Post(channel, _) => add_value(into, channel),
        Op::Alts { ports, .. } => add_items(into, ports.as_slice()),
        Op::Make(what) => {
            into.add(new_port);
            add_made(into, what);
        }
        Op::Spawn(seed) => add_seed(into, seed),
        Op::Register(name, args) => {
            add_values(into, args.as_slice());
            add_toggle(into, *name, args.as_slice());
        }
        Op::Print(_) => {}
    }
}

/// The banks of the ports that the operation names, and of the port that it makes, which has that number.
pub(crate) fn banks_of(op: &Op, new_port: u64) -> Homes
    ensures { (i : ℕ) → has_home result i ≡ homes (ports_to_hold (op_view op.now) new_port) i }
{
    let mut into = Homes::none();
    add_operands(&mut into, op, new_port);
    into
}
