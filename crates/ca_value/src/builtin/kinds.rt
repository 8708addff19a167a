ghost use Rattle.std.specs.Prelude.{◌≡◌, ◌<◌, ◌≤◌, [], ◌∷◌, length, option_to_list};
ghost use Rattle.ca_value.specs.Seq.{list};
ghost use Rattle.ca_value.specs.View.{view};
ghost use Rattle.ca_value.specs.Outcome.{vector_outcome};
ghost use Rattle.ca_value.specs.Kinds.{integer_of, vector_of};

use crate::fault::ValueFault;
use crate::value::{Items, Value, Vector};

/// What a builtin gives with no memory taken.
pub type Answer<T> = Result<T, ValueFault>;

/// The integer, where the value is one.
pub fn integer(value: &Value) -> Answer<i64>
    ensures { result ≡ integer_of (view value.now) }
{
    match value {
        Value::Int(n) => Ok(*n),
        _ => Err(ValueFault::WrongKind),
    }
}

/// The vector, where the value is one.
#[tactic(auto, using(crate::proofs::Lists::items_of_trees_of))]
pub fn vector(value: Value) -> Answer<Vector>
    ensures { vector_outcome result ≡ vector_of (view value) }
{
    match value {
        Value::Vector(items) => Ok(items),
        _ => Err(ValueFault::WrongKind),
    }
}

/// The one argument.
pub fn only(mut args: Items) -> Value
    requires { length (list args) ≡ 1 }
    ensures { list args ≡ result ∷ [] }
{
    match args.pop() {
        Some(value) => value,
        None => unreachable!(),
    }
}

/// The two arguments.
pub fn both(mut args: Items) -> (Value, Value)
    requires { length (list args) ≡ 2 }
    ensures { list args ≡ result.0 ∷ result.1 ∷ [] }
{
    match args.pop() {
        Some(second) => (only(args), second),
        None => unreachable!(),
    }
}

/// The first argument and the others.
pub fn first_and_rest(args: Items) -> (Value, Items)
    requires { 0 < length (list args) }
    ensures { list args ≡ result.0 ∷ list result.1 }
{
    let mut args = args.into_vec();
    let first = args.remove(0);
    (first, Items::from_vec(args))
}

/// The first two arguments, and the third if there is one.
pub fn two_and_option(mut args: Items) -> (Value, Value, Option<Value>)
    requires at_least { 2 ≤ length (list args) }
    requires at_most { length (list args) ≤ 3 }
    ensures { list args ≡ result.0 ∷ result.1 ∷ option_to_list result.2 }
{
    let third = if args.len() == 3 { args.pop() } else { None };
    let (first, second) = both(args);
    (first, second, third)
}

/// The first argument, and the second if there is one.
pub fn one_and_option(mut args: Items) -> (Value, Option<Value>)
    requires at_least { 1 ≤ length (list args) }
    requires at_most { length (list args) ≤ 2 }
    ensures { list args ≡ result.0 ∷ option_to_list result.1 }
{
    let second = if args.len() == 2 { args.pop() } else { None };
    (only(args), second)
}
