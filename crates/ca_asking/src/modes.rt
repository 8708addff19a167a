ghost use Rattle.std.specs.Prelude.{◌≡◌, ◌&&◌};
ghost use Rattle.ca_value.specs.View.{view, pair_view, tree_pairs};
ghost use Rattle.ca_term.specs.Asking.{is_key_named, is_solo_mode, is_mode, is_bool, are_modes, is_modes, all_modes, is_toggling, bad_arguments, unless_kind};
ghost use Rattle.ca_asking.specs.Asked.{trees_by};

use crate::operands::{AsOperand, operand};
use ca_term::fault::Fault;
use ca_term::head::RegisterName;
use ca_value::value::{Pair, Value};

/// The fault of a registry operation's arguments: a mix's modes, or its solo mode.
pub fn register_fault<O: AsOperand>(name: RegisterName, values: &[O]) -> Option<Fault>
    ensures { result ≡ bad_arguments name (trees_by O.tree values.now) }
{
    let nil = Value::Nil;
    let value = operand(values, 1, &nil);
    match name {
        RegisterName::Toggle => fault_unless(is_toggling(value)),
        RegisterName::SoloMode => fault_unless(is_solo_mode(value)),
        RegisterName::Tap | RegisterName::Untap | RegisterName::UntapAll => None,
        RegisterName::Taps | RegisterName::Admix | RegisterName::Unmix => None,
        RegisterName::UnmixAll | RegisterName::Modes | RegisterName::Find => None,
        RegisterName::Place | RegisterName::Drop | RegisterName::Clear => None,
        RegisterName::Topics => None,
    }
}

fn fault_unless(ok: bool) -> Option<Fault>
    ensures { result ≡ unless_kind ok }
{
    if ok { None } else { Some(Fault::WrongKind) }
}

// A map of maps of modes.
fn is_toggling(value: &Value) -> bool
    ensures { result ≡ is_toggling (view value.now) }
{
    match value {
        Value::Map(pairs) => have_modes(pairs.as_slice()),
        _ => false,
    }
}

fn have_modes(pairs: &[Pair]) -> bool
    ensures { result ≡ all_modes (tree_pairs pairs.now) }
{
    for pair in pairs {
        if !is_modes(&pair.value) {
            return false;
        }
    }
    true
}

// A map from modes to booleans.
fn is_modes(value: &Value) -> bool
    ensures { result ≡ is_modes (view value.now) }
{
    match value {
        Value::Map(pairs) => are_modes(pairs.as_slice()),
        _ => false,
    }
}

fn are_modes(pairs: &[Pair]) -> bool
    ensures { result ≡ are_modes (tree_pairs pairs.now) }
{
    for pair in pairs {
        if !sets_mode(pair) {
            return false;
        }
    }
    true
}

fn sets_mode(pair: &Pair) -> bool
    ensures { result ≡ (is_mode (pair_view pair.now).0 && is_bool (pair_view pair.now).1) }
{
    is_mode(&pair.key) && is_bool(&pair.value)
}

fn is_mode(value: &Value) -> bool
    ensures { result ≡ is_mode (view value.now) }
{
    is_solo_mode(value) || is_named(b"solo", value)
}

fn is_solo_mode(value: &Value) -> bool
    ensures { result ≡ is_solo_mode (view value.now) }
{
    is_named(b"mute", value) || is_named(b"pause", value)
}

// The keyword of that name.
fn is_named(name: &[u8], value: &Value) -> bool
    ensures { result ≡ is_key_named name.now (view value.now) }
{
    match value {
        Value::Key(key) => key.as_slice() == name,
        _ => false,
    }
}

fn is_bool(value: &Value) -> bool
    ensures { result ≡ is_bool (view value.now) }
{
    matches!(value, Value::Bool(_))
}
