ghost use Rattle.std.specs.Prelude.{◌≡◌, [], ◌∷◌, Ok, IfSome};
ghost use Rattle.ca_value.specs.Tree.{int, bool, trees_of};
ghost use Rattle.ca_value.specs.View.{view};
ghost use Rattle.ca_value.specs.Builtins.{builtin_result};

use super::numbers::{divide, modulo, remain};
use super::predicates::{Test, is_bool, is_false_like, is_nil_value};
use super::{Builtin, maps};
use crate::value::Value;

/// The integer that the builtin answers at one integer. None leaves it to the builtin's row, also where
/// that is a fault.
#[inline(always)]
#[tactic(auto, unfolding(crate::specs::Builtins::builtin_result))]
pub fn int_of_one(builtin: Builtin, a: i64) -> Option<i64>
    ensures { IfSome result (λ n. builtin_result builtin (trees_of (int a ∷ [])) ≡ Ok (int n)) }
{
    match builtin {
        Builtin::Inc => a.checked_add(1),
        Builtin::Dec => a.checked_sub(1),
        Builtin::Subtract => a.checked_neg(),
        _ => None,
    }
}

/// The integer that the builtin answers at two integers, or None, as for one.
#[inline(always)]
#[tactic(auto, unfolding(crate::specs::Builtins::builtin_result))]
pub fn int_of_two(builtin: Builtin, a: i64, b: i64) -> Option<i64>
    ensures { IfSome result (λ n. builtin_result builtin (trees_of (int a ∷ int b ∷ [])) ≡ Ok (int n)) }
{
    match builtin {
        Builtin::Add => a.checked_add(b),
        Builtin::Subtract => a.checked_sub(b),
        Builtin::Multiply => a.checked_mul(b),
        Builtin::Min => Some(a.min(b)),
        Builtin::Max => Some(a.max(b)),
        Builtin::Quot => divide(a, b).ok(),
        Builtin::Rem => remain(a, b).ok(),
        Builtin::Mod => modulo(a, b).ok(),
        _ => None,
    }
}

/// The boolean that the builtin answers at one integer, or None, as above.
#[inline(always)]
#[tactic(auto, unfolding(crate::specs::Builtins::builtin_result))]
pub fn truth_of_one(builtin: Builtin, a: i64) -> Option<bool>
    ensures { IfSome result (λ b. builtin_result builtin (trees_of (int a ∷ [])) ≡ Ok (bool b)) }
{
    match builtin {
        Builtin::IsZero => Some(Test::Zero.passes(a)),
        Builtin::IsPos => Some(Test::Positive.passes(a)),
        Builtin::IsNeg => Some(Test::Negative.passes(a)),
        Builtin::IsEven => Some(Test::Even.passes(a)),
        Builtin::IsOdd => Some(Test::Odd.passes(a)),
        _ => None,
    }
}

/// The boolean that the builtin answers at two integers, or None, as above.
#[inline(always)]
#[tactic(auto, unfolding(crate::specs::Builtins::builtin_result))]
pub fn truth_of_two(builtin: Builtin, a: i64, b: i64) -> Option<bool>
    ensures { IfSome result (λ t. builtin_result builtin (trees_of (int a ∷ int b ∷ [])) ≡ Ok (bool t)) }
{
    match builtin {
        Builtin::Less => Some(a < b),
        Builtin::Greater => Some(b < a),
        Builtin::LessOrEqual => Some(a <= b),
        Builtin::GreaterOrEqual => Some(b <= a),
        Builtin::Equal => Some(a == b),
        Builtin::NotEqual => Some(a != b),
        _ => None,
    }
}

/// The integer that the builtin answers at one value, or None, as above.
#[inline(always)]
#[tactic(auto, unfolding(crate::specs::Builtins::builtin_result))]
pub fn int_of_value(builtin: Builtin, value: &Value) -> Option<i64>
    ensures { IfSome result (λ n. builtin_result builtin (trees_of (view value.now ∷ [])) ≡ Ok (int n)) }
{
    if let Value::Int(n) = value {
        return int_of_one(builtin, *n);
    }
    match builtin {
        Builtin::Count => maps::count(value).ok(),
        _ => None,
    }
}

/// The boolean that the builtin answers at one value, or None, as above.
#[inline(always)]
#[tactic(auto, unfolding(crate::specs::Builtins::builtin_result))]
pub fn truth_of_value(builtin: Builtin, value: &Value) -> Option<bool>
    ensures { IfSome result (λ b. builtin_result builtin (trees_of (view value.now ∷ [])) ≡ Ok (bool b)) }
{
    match builtin {
        Builtin::Not => Some(is_false_like(value)),
        Builtin::IsNil => Some(is_nil_value(value)),
        Builtin::IsSome => Some(!is_nil_value(value)),
        Builtin::IsTrue => Some(is_bool(true, value)),
        Builtin::IsFalse => Some(is_bool(false, value)),
        Builtin::IsEmpty => maps::is_empty(value).ok(),
        _ => truth_of_integer(builtin, value),
    }
}

// The same, of an integer.
#[inline(always)]
fn truth_of_integer(builtin: Builtin, value: &Value) -> Option<bool>
    ensures { IfSome result (λ b. builtin_result builtin (trees_of (view value.now ∷ [])) ≡ Ok (bool b)) }
{
    match value {
        Value::Int(n) => truth_of_one(builtin, *n),
        _ => None,
    }
}

/// The boolean that the builtin answers at two values of any kind, or None, as above.
#[tactic(auto, unfolding(crate::specs::Builtins::builtin_result))]
pub fn truth_of_values(builtin: Builtin, a: &Value, b: &Value) -> Option<bool>
    ensures { IfSome result (λ t. builtin_result builtin (trees_of (view a.now ∷ view b.now ∷ [])) ≡ Ok (bool t)) }
{
    match builtin {
        Builtin::Equal => Some(a.equal(b)),
        Builtin::NotEqual => Some(!a.equal(b)),
        Builtin::Contains => maps::contains(a, b).ok(),
        _ => None,
    }
}
