ghost use Rattle.std.specs.Prelude.{◌≡◌, ◌+◌, ◌-◌, ◌≤◌, length, SomeIff};
ghost use Rattle.ca_value.specs.View.{view, trees, tree_pairs, pair_view};
ghost use Rattle.ca_value.specs.Printed.{plain_text, plain_items, printed_value, printed_pairs};
ghost use Rattle.ca_value.specs.declared.print.Style.TheVariants.{Plain};
ghost use Rattle.ca_asking.specs.Asked.{trees_by};

use crate::operands::AsOperand;
use ca_value::value::{Pair, Value};

// What the operands, joined by a space, leave of the room, or None if they are longer.
pub(crate) fn room_after_operands<O: AsOperand>(operands: &[O], room: u64) -> Option<u64>
    ensures { let n = length (plain_items (trees_by O.tree operands.now)) in SomeIff result (n ≤ room) (room - n) }
{
    let Some((first, rest)) = operands.split_first() else {
        return Some(room);
    };
    let nil = Value::Nil;
    let mut room = room_after(first.value(&nil), room)?;
    for operand in rest {
        room = room_after(operand.value(&nil), room.checked_sub(1)?)?;
    }
    Some(room)
}

// What the value's plain text leaves of the room, or None if it is longer.
#[cycle(room)]
fn room_after(value: &Value, room: u64) -> Option<u64>
    ensures { let n = length (plain_text (view value.now)) in SomeIff result (n ≤ room) (room - n) }
{
    match value {
        Value::Nil => room.checked_sub(3),
        Value::Bool(true) => room.checked_sub(4),
        Value::Bool(false) => room.checked_sub(5),
        Value::Int(n) => room.checked_sub(itoa::Buffer::new().format(*n).len() as u64),
        Value::Text(text) => room.checked_sub(text.len()),
        Value::Key(text) => room.checked_sub(1)?.checked_sub(text.len()),
        Value::Vector(items) => room_after_items(items.as_slice(), room.checked_sub(2)?),
        Value::Map(pairs) => room_after_pairs(pairs.as_slice(), room.checked_sub(2)?),
        Value::Port(port) => room
            .checked_sub(6)?
            .checked_sub(itoa::Buffer::new().format(port.n).len() as u64),
    }
}

// The items, joined by a space.
#[cycle(room)]
fn room_after_items(items: &[Value], room: u64) -> Option<u64>
    ensures { let n = length (plain_items (trees items.now)) in SomeIff result (n ≤ room) (room - n) }
{
    let Some((first, rest)) = items.split_first() else {
        return Some(room);
    };
    let mut room = room_after(first, room)?;
    for value in rest {
        room = room_after(value, room.checked_sub(1)?)?;
    }
    Some(room)
}

// The pairs, joined by a comma and a space.
#[cycle(room)]
fn room_after_pairs(pairs: &[Pair], room: u64) -> Option<u64>
    ensures { let n = length (printed_pairs Plain (tree_pairs pairs.now)) in SomeIff result (n ≤ room) (room - n) }
{
    let Some((first, rest)) = pairs.split_first() else {
        return Some(room);
    };
    let mut room = room_after_pair(first, room)?;
    for pair in rest {
        room = room_after_pair(pair, room.checked_sub(2)?)?;
    }
    Some(room)
}

// The key, a space and the value.
#[cycle(room)]
fn room_after_pair(pair: &Pair, room: u64) -> Option<u64>
    ensures { let p = pair_view pair.now in let n = length (printed_value Plain p.0) + 1 + length (printed_value Plain p.1) in SomeIff result (n ≤ room) (room - n) }
{
    let room = room_after(&pair.key, room)?.checked_sub(1)?;
    room_after(&pair.value, room)
}
