// The wait whose shard an operation will most likely want, told by a look at its channels: so it is mostly planned once.
// No promise hangs on it.
use ca_agent::agent::Agent;
use ca_commit::finding::{Finding, find_put, find_take};
use ca_commit::held::Held;
use ca_term::operation::Op;
use ca_value::value::Value;

// What is found of a take from the channel, if it is one.
fn find_take_from<A: Agent>(held: &Held<A>, channel: &Value) -> Option<Finding> {
    match channel {
        Value::Port(port) => Some(find_take(&held.banks, &held.shards, *port)),
        _ => None,
    }
}

// What is found of a put into the channel, if it is one.
fn find_put_into<A: Agent>(held: &Held<A>, channel: &Value) -> Option<Finding> {
    match channel {
        Value::Port(port) => Some(find_put(&held.banks, &held.shards, *port)),
        _ => None,
    }
}

// What is found of an item of an alts: a channel, or a pair of a channel and the value to put.
fn find_item<A: Agent>(held: &Held<A>, item: &Value) -> Option<Finding> {
    match item {
        Value::Vector(pair) => find_put_into(held, pair.as_slice().first()?),
        channel => find_take_from(held, channel),
    }
}

// The first finding of these items that isn't unready, if there is one.
fn first_of<A: Agent>(held: &Held<A>, items: &[Value]) -> Option<Finding> {
    for item in items {
        match find_item(held, item) {
            None | Some(Finding::Unready) => {}
            found => return found,
        }
    }
    None
}

// The same, from that item on and then from the first.
fn first_from<A: Agent>(held: &Held<A>, items: &[Value], start: u64) -> Option<Finding> {
    if items.is_empty() {
        return None;
    }
    let at = (start % items.len() as u64) as usize;
    match first_of(held, &items[at..]) {
        None => first_of(held, &items[..at]),
        found => found,
    }
}

// What is found of an alts that looks at that item first. Where none is ready it waits, unless it has a default.
fn find_choice<A: Agent>(
    held: &Held<A>,
    items: &[Value],
    start: u64,
    default: &Option<Value>,
) -> Option<Finding> {
    match first_from(held, items, start) {
        None if default.is_none() => Some(Finding::Unready),
        found => found,
    }
}

// What is found of an operation on channels, which may wait.
fn find<A: Agent>(held: &Held<A>, op: &Op, alts: u64) -> Option<Finding> {
    match op {
        Op::Take(channel) => find_take_from(held, channel),
        Op::Put(channel, _) | Op::Post(channel, _) => find_put_into(held, channel),
        Op::Alts {
            ports,
            priority,
            default,
        } => {
            let start = if *priority { 0 } else { alts };
            find_choice(held, ports.as_slice(), start, default)
        }
        _ => None,
    }
}

/// The wait whose shard the operation of the task will want, where no shard is held: the new one where no branch is ready,
/// else the one in front of the other side.
pub(crate) fn wait_ahead<A: Agent>(held: &Held<A>, op: &Op, alts: u64) -> Option<u64> {
    match find(held, op, alts)? {
        Finding::Unready => Some(held.new_wait),
        Finding::Unheld(wait) => Some(wait.n),
        Finding::Alone | Finding::Partner(_, _) | Finding::Stale(_) => None,
    }
}
