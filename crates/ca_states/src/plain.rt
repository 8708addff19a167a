//! Builtins of integers and the like, done in the slots themselves. Each answers whether it was done; a fault, and
//! values of another kind, it leaves to the builtin's row.
ghost use Rattle.std.specs.Prelude.{◌≡◌, ◌<◌, ◌∷◌, [], true, length, Ok, Some, IfSome, IsTrue};
ghost use Rattle.std.specs.Bool.{OnTrue, OnFalse};
ghost use Rattle.ca_value.specs.Tree.{Tree, int, bool};
ghost use Rattle.ca_value.specs.Equality.{equals};
ghost use Rattle.ca_value.specs.Maps.{value_at as value_of};
ghost use Rattle.ca_value.specs.View.{view, views, pair_views};
ghost use Rattle.ca_value.specs.Vectors.{item_at};
ghost use Rattle.ca_value.specs.declared.builtin.Builtin.TheVariants.{Get, IsNil, Nth};
ghost use Rattle.ca_term.specs.declared.place.Place.{Place as PurePlace};
ghost use Rattle.ca_states.specs.Code.{constant, copying, many};
ghost use Rattle.ca_states.specs.Machine.{is_plain_value, read, builtin_applied, slot_answered, done, effect, slots_from};
ghost use Rattle.ca_states.specs.Operands.{operand_value, IsThere};
ghost use Rattle.ca_states.specs.Valid.{are_below};

use crate::slots::{Operand, clear_row, int_at, int_of, plain_at, plain_of, set_at, value_at};
use ca_value::builtin::Builtin;
use ca_value::builtin::scalars::{int_of_two, int_of_value, truth_of_two, truth_of_value};
use ca_value::value::{Pair, Value};

// The bytes of the longest text that is compared before it is copied.
const SHORT_TEXT: usize = 16;

// Whether both texts are one, and short.
#[inline(never)]
fn are_one_text(one: &[u8], other: &[u8]) -> bool
    ensures { OnTrue result (one.now ≡ other.now) }
{
    one.len() <= SHORT_TEXT && one == other
}

// Whether the value is a short text that is held already.
#[inline(always)]
fn is_held(held: &Value, value: &Value) -> bool
    ensures { OnTrue result (view held.now ≡ view value.now) }
{
    match value {
        Value::Text(text) => match held {
            Value::Text(other) => are_one_text(other.as_slice(), text.as_slice()),
            _ => false,
        },
        _ => false,
    }
}

/// A value of the text, where it is plain, or the slot holds it from the last turn of a loop.
#[inline(always)]
#[tactic(auto, using(crate::proofs::SlotLaws::write_held))]
pub(crate) fn const_in_place(slots: &mut [Value], to: u64, value: &Value) -> bool
    requires { to < length slots.old }
    ensures done { OnTrue result (effect (constant to (view value.now)) (views slots.old) ≡ done (views slots.new)) }
    ensures left { OnFalse result (slots.new ≡ slots.old) }
    ensures same { length slots.new ≡ length slots.old }
{
    if let Some(plain) = plain_of(value) {
        set_at(slots, to, plain);
        return true;
    }
    is_held(value_at(slots, to), value)
}

/// A copy, where it is one of a plain value.
#[inline(always)]
pub(crate) fn copy_in_place(slots: &mut [Value], to: u64, from: u64) -> bool
    requires to { to < length slots.old }
    requires from { from < length slots.old }
    ensures done { OnTrue result (effect (copying to from) (views slots.old) ≡ done (views slots.new)) }
    ensures left { OnFalse result (slots.new ≡ slots.old) }
    ensures same { length slots.new ≡ length slots.old }
{
    if let Some(plain) = plain_at(slots, from) {
        set_at(slots, to, plain);
        return true;
    }
    false
}

/// A builtin of one value that is an integer or a truth, and takes no walk.
#[inline(always)]
pub(crate) fn one_in_place(slots: &mut [Value], builtin: Builtin, to: u64, operand: u64) -> bool
    requires to { to < length slots.old }
    requires operand { operand < length slots.old }
    ensures done { OnTrue result ((p : PurePlace) → slot_answered (views slots.old) to p (builtin_applied builtin (read (views slots.old) operand ∷ [])) ≡ done (views slots.new)) }
    ensures left { OnFalse result (slots.new ≡ slots.old) }
    ensures same { length slots.new ≡ length slots.old }
{
    if let Some(n) = int_of_value(builtin, value_at(slots, operand)) {
        set_at(slots, to, Value::Int(n));
        return true;
    }
    if let Some(truth) = truth_of_value(builtin, value_at(slots, operand)) {
        set_at(slots, to, Value::Bool(truth));
        return true;
    }
    false
}

// The plain value at a place of the items, if there is one.
#[inline(always)]
fn plain_within(items: &[Value], place: i64) -> Option<Value>
    ensures at { IfSome result (λ v. item_at (views items.now) place ≡ Some (view v)) }
    ensures plain { IfSome result (λ v. is_plain_value (view v) ≡ true) }
{
    if place < 0 {
        return None;
    }
    plain_of(items.get(place as usize)?)
}

// `nth` of a vector, where that is plain.
#[inline(always)]
#[tactic(auto, using(crate::proofs::SlotLaws::nth_plain))]
fn nth_plain(collection: &Value, place: i64) -> Option<Value>
    ensures { IfSome result (λ v. builtin_applied Nth (view collection.now ∷ int place ∷ []) ≡ Ok (view v)) }
{
    match collection {
        Value::Vector(items) => plain_within(items.as_slice(), place),
        _ => None,
    }
}

// `nth` of a slot's vector, where that is plain.
#[inline(always)]
fn nth_in_place(slots: &mut [Value], to: u64, left: u64, place: i64) -> bool
    requires to { to < length slots.old }
    requires left { left < length slots.old }
    ensures done { OnTrue result ((p : PurePlace) → slot_answered (views slots.old) to p (builtin_applied Nth (read (views slots.old) left ∷ int place ∷ [])) ≡ done (views slots.new)) }
    ensures left { OnFalse result (slots.new ≡ slots.old) }
    ensures same { length slots.new ≡ length slots.old }
{
    if let Some(plain) = nth_plain(value_at(slots, left), place) {
        set_at(slots, to, plain);
        return true;
    }
    false
}

/// A builtin of two integers, or `nth` of a vector whose item is plain.
#[inline(always)]
pub(crate) fn two_in_place(
    slots: &mut [Value],
    builtin: Builtin,
    to: u64,
    left: u64,
    right: Operand,
) -> bool
    requires to { to < length slots.old }
    requires left { left < length slots.old }
    requires right { IsThere right (length slots.old) }
    ensures done { let s = views slots.old in OnTrue result ((p : PurePlace) → slot_answered s to p (builtin_applied builtin (read s left ∷ operand_value right s ∷ [])) ≡ done (views slots.new)) }
    ensures left { OnFalse result (slots.new ≡ slots.old) }
    ensures same { length slots.new ≡ length slots.old }
{
    let Some(b) = int_of(slots, right) else {
        return false;
    };
    let Some(a) = int_at(slots, left) else {
        return match builtin {
            Builtin::Nth => nth_in_place(slots, to, left, b),
            _ => false,
        };
    };
    if let Some(n) = int_of_two(builtin, a, b) {
        set_at(slots, to, Value::Int(n));
        return true;
    }
    if let Some(truth) = truth_of_two(builtin, a, b) {
        set_at(slots, to, Value::Bool(truth));
        return true;
    }
    false
}

// The integer of an integer key, if there is one.
#[inline(never)]
#[tactic(auto, using(crate::proofs::PairLaws::found_here, crate::proofs::PairLaws::not_here))]
fn integer_of_key(pairs: &[Pair], key: i64) -> Option<i64>
    ensures { IfSome result (λ n. value_of (pair_views pairs.now) (int key) ≡ Some (int n)) }
{
    for pair in pairs {
        if holds_integer(&pair.key, key) {
            return integer_in(&pair.value);
        }
    }
    None
}

// Whether the value is that integer.
#[inline(always)]
#[tactic(auto, using(crate::proofs::PairLaws::not_equal))]
fn holds_integer(value: &Value, n: i64) -> bool
    ensures { result ≡ equals (int n) (view value.now) }
{
    match value {
        Value::Int(m) => n == *m,
        _ => false,
    }
}

// The integer, where the value is one.
#[inline(always)]
fn integer_in(value: &Value) -> Option<i64>
    ensures { IfSome result (λ n. view value.now ≡ int n) }
{
    match value {
        Value::Int(n) => Some(*n),
        _ => None,
    }
}

// `get` of a map under an integer key, where that is an integer; so with any default.
#[inline(always)]
fn get_integer(collection: &Value, key: i64) -> Option<i64>
    ensures { IfSome result (λ n. (d : Tree) → builtin_applied Get (view collection.now ∷ int key ∷ d ∷ []) ≡ Ok (int n)) }
{
    match collection {
        Value::Map(pairs) => integer_of_key(pairs.as_slice(), key),
        _ => None,
    }
}

// `get` of a row of three slots: a map, an integer key whose value is an integer, and a default.
#[inline(never)]
#[tactic(auto, using(crate::proofs::PairLaws::get_row, crate::proofs::RowLaws::row_within))]
fn get_in_place(slots: &mut [Value], to: u64, from: u64, count: u64) -> bool
    requires to { to < length slots.old }
    requires row { IsTrue (are_below (length slots.old) (slots_from from count)) }
    ensures done { OnTrue result ((p : PurePlace) → effect (many Get to from count p) (views slots.old) ≡ done (views slots.new)) }
    ensures left { OnFalse result (slots.new ≡ slots.old) }
    ensures same { length slots.new ≡ length slots.old }
{
    // Each of the slots is below it, so its number fits.
    let _width = slots.len();
    if count != 3 {
        return false;
    }
    let Some(key) = int_at(slots, from + 1) else {
        return false;
    };
    let Some(n) = get_integer(value_at(slots, from), key) else {
        return false;
    };
    clear_row(slots, from, count);
    set_at(slots, to, Value::Int(n));
    true
}

/// A builtin of a row of slots, where it is `get` as above.
#[inline(always)]
pub(crate) fn many_in_place(
    slots: &mut [Value],
    builtin: Builtin,
    to: u64,
    from: u64,
    count: u64,
) -> bool
    requires to { to < length slots.old }
    requires row { IsTrue (are_below (length slots.old) (slots_from from count)) }
    ensures done { OnTrue result ((p : PurePlace) → effect (many builtin to from count p) (views slots.old) ≡ done (views slots.new)) }
    ensures left { OnFalse result (slots.new ≡ slots.old) }
    ensures same { length slots.new ≡ length slots.old }
{
    match builtin {
        Builtin::Get => get_in_place(slots, to, from, count),
        _ => false,
    }
}

/// The truth of a builtin that compares two integers.
#[inline(always)]
pub(crate) fn truth_in_place(
    slots: &[Value],
    builtin: Builtin,
    left: u64,
    right: Operand,
) -> Option<bool>
    requires left { left < length slots.now }
    requires right { IsThere right (length slots.now) }
    ensures { IfSome result (λ t. builtin_applied builtin (read (views slots.now) left ∷ operand_value right (views slots.now) ∷ []) ≡ Ok (bool t)) }
{
    truth_of_two(builtin, int_at(slots, left)?, int_of(slots, right)?)
}
