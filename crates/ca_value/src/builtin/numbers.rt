ghost use Rattle.std.specs.Prelude.{◌≡◌, ◌≢◌, pos, int_rem};
ghost use Rattle.ca_value.specs.Seq.{list};
ghost use Rattle.ca_value.specs.View.{view, views};
ghost use Rattle.ca_value.specs.Kinds.{with_integer, with_two, with_integers};
ghost use Rattle.ca_value.specs.Numbers.{in_range, folded_in_range, difference_of, quotient_of, remainder_of, modulus_of, floored, preferred, are_in_order, worker_count_of};
ghost use Rattle.ca_value.specs.Operations.{operation_of, choice_of, order_of};

use super::kinds::{Answer, integer};
use crate::fault::ValueFault;
use crate::value::{Items, Value};

/// An operation of two integers whose result may leave 64 bits.
#[derive(Clone, Copy)]
pub enum Operation {
    Sum,
    Difference,
    Product,
}

impl Operation {
    // The result, or Overflow where it leaves 64 bits.
    pub fn apply(self, a: i64, b: i64) -> Answer<i64>
        ensures { result ≡ in_range (operation_of self a b) }
    {
        let value = match self {
            Operation::Sum => a.checked_add(b),
            Operation::Difference => a.checked_sub(b),
            Operation::Product => a.checked_mul(b),
        };
        value.ok_or(ValueFault::Overflow)
    }
}

/// The one of two integers that is kept.
#[derive(Clone, Copy)]
pub enum Choice {
    Least,
    Greatest,
}

impl Choice {
    // The one that the choice keeps.
    fn pick(self, a: i64, b: i64) -> i64
        ensures { result ≡ choice_of self a b }
    {
        match self {
            Choice::Least => a.min(b),
            Choice::Greatest => a.max(b),
        }
    }
}

/// An order of two integers.
#[derive(Clone, Copy)]
pub enum Order {
    Less,
    Greater,
    LessOrEqual,
    GreaterOrEqual,
}

impl Order {
    // Whether the two stand in this order.
    fn holds(self, a: i64, b: i64) -> bool
        ensures { result ≡ order_of self a b }
    {
        match self {
            Order::Less => a < b,
            Order::Greater => b < a,
            Order::LessOrEqual => a <= b,
            Order::GreaterOrEqual => b <= a,
        }
    }
}

/// The operation over all integers from left to right.
pub fn run(operation: Operation, start: i64, args: &[Value]) -> Answer<i64>
    ensures { result ≡ with_integers (folded_in_range (operation_of operation) start) (views args.now) }
{
    let mut total = Ok(start);
    for value in args {
        let n = integer(value)?;
        if let Ok(sum) = total {
            total = operation.apply(sum, n);
        }
    }
    total
}

/// The negation of one integer, or the first less the others.
pub fn difference(args: &[Value]) -> Answer<i64>
    ensures { result ≡ with_integers difference_of (views args.now) }
{
    let Some((first, rest)) = args.split_first() else {
        return Err(ValueFault::WrongKind);
    };
    let first = integer(first)?;
    if rest.is_empty() {
        return first.checked_neg().ok_or(ValueFault::Overflow);
    }
    run(Operation::Difference, first, rest)
}

/// The integer that the choice keeps of all.
pub fn choose(choice: Choice, args: &[Value]) -> Answer<i64>
    ensures { result ≡ with_integers (preferred (choice_of choice)) (views args.now) }
{
    let Some((first, rest)) = args.split_first() else {
        return Err(ValueFault::WrongKind);
    };
    let mut best = integer(first)?;
    for value in rest {
        best = choice.pick(best, integer(value)?);
    }
    Ok(best)
}

/// Whether each integer and the next stand in this order.
pub fn compare(order: Order, args: Items) -> Answer<bool>
    ensures { result ≡ with_integers (are_in_order (order_of order)) (views (list args)) }
{
    let Some((first, rest)) = args.as_slice().split_first() else {
        return Err(ValueFault::WrongKind);
    };
    let mut last = integer(first)?;
    let mut holds = true;
    for value in rest {
        let n = integer(value)?;
        holds = holds && order.holds(last, n);
        last = n;
    }
    Ok(holds)
}

/// The integer and 1, by the operation.
pub fn step(operation: Operation, value: &Value) -> Answer<i64>
    ensures { result ≡ with_integer (λ z. in_range (operation_of operation z (pos 1))) (view value.now) }
{
    operation.apply(integer(value)?, 1)
}

// The two operands, or WrongKind where one of them is no integer.
fn integers(operands: (Value, Value)) -> Answer<(i64, i64)>
    ensures { result ≡ with_two (λ x y. Ok (x, y)) (view operands.0) (view operands.1) }
{
    let (first, second) = operands;
    Ok((integer(&first)?, integer(&second)?))
}

/// The quotient of a dividend by a divisor, cut toward zero.
pub fn quotient(operands: (Value, Value)) -> Answer<i64>
    ensures { result ≡ with_two quotient_of (view operands.0) (view operands.1) }
{
    let (dividend, divisor) = integers(operands)?;
    divide(dividend, divisor)
}

/// The quotient of two integers.
pub fn divide(dividend: i64, divisor: i64) -> Answer<i64>
    ensures { result ≡ quotient_of dividend divisor }
{
    if divisor == 0 {
        return Err(ValueFault::ZeroDivisor);
    }
    dividend.checked_div(divisor).ok_or(ValueFault::Overflow)
}

/// The remainder of a dividend by a divisor, with the dividend's sign.
pub fn remainder(operands: (Value, Value)) -> Answer<i64>
    ensures { result ≡ with_two remainder_of (view operands.0) (view operands.1) }
{
    let (dividend, divisor) = integers(operands)?;
    remain(dividend, divisor)
}

/// The remainder of two integers.
pub fn remain(dividend: i64, divisor: i64) -> Answer<i64>
    ensures { result ≡ remainder_of dividend divisor }
{
    if divisor == 0 {
        return Err(ValueFault::ZeroDivisor);
    }
    Ok(remainder_by(dividend, divisor))
}

/// The remainder of a dividend by a divisor, with the divisor's sign.
pub fn modulus(operands: (Value, Value)) -> Answer<i64>
    ensures { result ≡ with_two modulus_of (view operands.0) (view operands.1) }
{
    let (dividend, divisor) = integers(operands)?;
    modulo(dividend, divisor)
}

/// The modulus of two integers.
pub fn modulo(dividend: i64, divisor: i64) -> Answer<i64>
    ensures { result ≡ modulus_of dividend divisor }
{
    if divisor == 0 {
        return Err(ValueFault::ZeroDivisor);
    }
    Ok(floor(remainder_by(dividend, divisor), divisor))
}

// The remainder; of the least integer by -1 it is 0.
fn remainder_by(dividend: i64, divisor: i64) -> i64
    requires { divisor ≢ pos 0 }
    ensures { result ≡ int_rem dividend divisor }
{
    if divisor == -1 {
        return 0;
    }
    dividend % divisor
}

// The remainder, moved to the divisor's sign.
fn floor(remainder: i64, divisor: i64) -> i64
    ensures { result ≡ floored remainder divisor }
{
    if remainder == 0 || (remainder < 0) == (divisor < 0) {
        remainder
    } else {
        remainder + divisor
    }
}

/// The integer, from 1 to 64.
pub fn worker_count(value: &Value) -> Answer<i64>
    ensures { result ≡ with_integer worker_count_of (view value.now) }
{
    let count = integer(value)?;
    if 1 <= count && count <= 64 {
        return Ok(count);
    }
    Err(ValueFault::OutOfRange)
}
