ghost use Rattle.std.specs.Prelude.{◌≡◌, pos, int_lt, not};
ghost use Rattle.ca_value.specs.Seq.{list};
ghost use Rattle.ca_value.specs.View.{view, views};
ghost use Rattle.ca_value.specs.Kinds.{with_integer};
ghost use Rattle.ca_value.specs.Numbers.{is_zero, is_even};
ghost use Rattle.ca_value.specs.Tests.{is_falsy, is_nil_tree, is_the_bool, all_equal, test_of};

use super::kinds::{Answer, integer};
use crate::value::{Items, Value};

/// Whether the value is false or nil.
pub fn is_false_like(value: &Value) -> bool
    ensures { result ≡ is_falsy (view value.now) }
{
    match value {
        Value::Nil => true,
        Value::Bool(b) => !*b,
        _ => false,
    }
}

/// Whether the value is nil; false is not.
pub fn is_nil_value(value: &Value) -> bool
    ensures { result ≡ is_nil_tree (view value.now) }
{
    match value {
        Value::Nil => true,
        _ => false,
    }
}

/// Whether the value is this boolean.
pub fn is_bool(wanted: bool, value: &Value) -> bool
    ensures { result ≡ is_the_bool wanted (view value.now) }
{
    match value {
        Value::Bool(b) => *b == wanted,
        _ => false,
    }
}

/// Whether the first is equal to the next, and each of these to the one after it.
pub fn are_equal(args: (Value, Items)) -> bool
    ensures { result ≡ all_equal (view args.0) (views (list args.1)) }
{
    let (first, rest) = args;
    is_equal_to_all(&first, rest.as_slice())
}

// The same, with the values borrowed.
fn is_equal_to_all(first: &Value, rest: &[Value]) -> bool
    ensures { result ≡ all_equal (view first.now) (views rest.now) }
{
    let mut last = first;
    for value in rest {
        if !last.equal(value) {
            return false;
        }
        last = value;
    }
    true
}

/// A test of one integer.
#[derive(Clone, Copy)]
pub enum Test {
    Zero,
    Positive,
    Negative,
    Even,
    Odd,
}

impl Test {
    /// Whether the integer passes.
    pub fn passes(self, n: i64) -> bool
        ensures { result ≡ test_of self n }
    {
        match self {
            Test::Zero => n == 0,
            Test::Positive => 0 < n,
            Test::Negative => n < 0,
            Test::Even => n % 2 == 0,
            Test::Odd => n % 2 != 0,
        }
    }

    /// Whether the value, an integer, passes.
    pub fn passes_value(self, value: &Value) -> Answer<bool>
        ensures { result ≡ with_integer (λ z. Ok (test_of self z)) (view value.now) }
    {
        Ok(self.passes(integer(value)?))
    }
}
