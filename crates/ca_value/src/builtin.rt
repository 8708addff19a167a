ghost use Rattle.std.specs.Prelude.{◌≡◌, IfOk, IfErr, IsTrue, length};
ghost use Rattle.ca_value.specs.Seq.{list};
ghost use Rattle.ca_value.specs.View.{view, views, trees};
ghost use Rattle.ca_value.specs.Outcome.{outcome, judged, IsFault};
ghost use Rattle.ca_value.specs.IsValue.{Scalars, IsValue, AreValues};
ghost use Rattle.ca_value.specs.Maps.{contains_of};
ghost use Rattle.ca_value.specs.Vectors.{item_at_index};
ghost use Rattle.ca_value.specs.Builtins.{answer, builtin_result, admits_arguments};

pub mod direct;
mod judge;
mod kinds;
mod maps;
mod names;
mod numbers;
mod predicates;
mod range;
pub mod scalars;
mod text;
mod vectors;

use crate::fault::ApplyError;
use crate::memory::OutOfMemory;
use crate::value::{Items, Value};
use judge::{bool_value, int_value, judge};
use kinds::{Answer, both, first_and_rest, one_and_option, only, two_and_option};
use maps::Half;
use numbers::{Choice, Operation, Order};
use predicates::Test;
use std::alloc::Global;

/// A builtin function, named as in the Clojure reference. `Part`, `Items` and `WorkerCount` are hidden:
/// no script can name them.
#[derive(Clone, Copy, PartialEq, Eq)]
pub enum Builtin {
    Add,
    Multiply,
    Subtract,
    Inc,
    Dec,
    Quot,
    Rem,
    Mod,
    Equal,
    NotEqual,
    Less,
    Greater,
    LessOrEqual,
    GreaterOrEqual,
    Min,
    Max,
    Not,
    IsNil,
    IsSome,
    IsTrue,
    IsFalse,
    IsZero,
    IsPos,
    IsNeg,
    IsEven,
    IsOdd,
    Str,
    Vector,
    HashMap,
    Conj,
    Nth,
    Get,
    Count,
    IsEmpty,
    First,
    Last,
    Peek,
    Pop,
    Subvec,
    Assoc,
    Dissoc,
    Keys,
    Vals,
    Contains,
    Range,
    Part,
    Items,
    WorkerCount,
}

/// The value of a builtin at its arguments, or its fault. It takes so many arguments as the builtin
/// admits.
pub fn apply_builtin(alloc: Global, builtin: Builtin, args: Items) -> Result<Value, ApplyError>
    requires { IsTrue (admits_arguments builtin (length (list args))) }
    ensures value { IfOk result (λ v. builtin_result builtin (trees (list args)) ≡ Ok (view v)) }
    ensures fault { IfErr result (λ e. IsFault e (builtin_result builtin (trees (list args)))) }
    ensures sound { (w : Scalars) → AreValues w (trees (list args)) → IfOk result (λ v. IsValue w (view v)) }
{
    match evaluate(alloc, builtin, args) {
        Ok(Ok(value)) => Ok(value),
        Ok(Err(fault)) => Err(ApplyError::Fault(fault)),
        Err(OutOfMemory) => Err(ApplyError::OutOfMemory),
    }
}

// The same, with want of memory apart from the faults.
fn evaluate(alloc: Global, builtin: Builtin, args: Items) -> Result<Answer<Value>, OutOfMemory>
    requires { IsTrue (admits_arguments builtin (length (list args))) }
    ensures { IfOk result (λ r. outcome r ≡ judged (answer builtin (views (list args)))) }
{
    match builtin {
        Builtin::Add => Ok(int_value(numbers::run(Operation::Sum, 0, args.as_slice()))),
        Builtin::Multiply => Ok(int_value(numbers::run(Operation::Product, 1, args.as_slice()))),
        Builtin::Subtract => Ok(int_value(numbers::difference(args.as_slice()))),
        Builtin::Inc => Ok(int_value(numbers::step(Operation::Sum, &only(args)))),
        Builtin::Dec => Ok(int_value(numbers::step(Operation::Difference, &only(args)))),
        Builtin::Quot => Ok(int_value(numbers::quotient(both(args)))),
        Builtin::Rem => Ok(int_value(numbers::remainder(both(args)))),
        Builtin::Mod => Ok(int_value(numbers::modulus(both(args)))),
        Builtin::Equal => Ok(Ok(Value::Bool(predicates::are_equal(first_and_rest(args))))),
        Builtin::NotEqual => Ok(Ok(Value::Bool(!predicates::are_equal(first_and_rest(args))))),
        Builtin::Less => Ok(bool_value(numbers::compare(Order::Less, args))),
        Builtin::Greater => Ok(bool_value(numbers::compare(Order::Greater, args))),
        Builtin::LessOrEqual => Ok(bool_value(numbers::compare(Order::LessOrEqual, args))),
        Builtin::GreaterOrEqual => Ok(bool_value(numbers::compare(Order::GreaterOrEqual, args))),
        Builtin::Min => Ok(int_value(numbers::choose(Choice::Least, args.as_slice()))),
        Builtin::Max => Ok(int_value(numbers::choose(Choice::Greatest, args.as_slice()))),
        Builtin::Not => Ok(Ok(Value::Bool(predicates::is_false_like(&only(args))))),
        Builtin::IsNil => Ok(Ok(Value::Bool(predicates::is_nil_value(&only(args))))),
        Builtin::IsSome => Ok(Ok(Value::Bool(!predicates::is_nil_value(&only(args))))),
        Builtin::IsTrue => Ok(Ok(Value::Bool(predicates::is_bool(true, &only(args))))),
        Builtin::IsFalse => Ok(Ok(Value::Bool(predicates::is_bool(false, &only(args))))),
        Builtin::IsZero => Ok(bool_value(Test::Zero.passes_value(&only(args)))),
        Builtin::IsPos => Ok(bool_value(Test::Positive.passes_value(&only(args)))),
        Builtin::IsNeg => Ok(bool_value(Test::Negative.passes_value(&only(args)))),
        Builtin::IsEven => Ok(bool_value(Test::Even.passes_value(&only(args)))),
        Builtin::IsOdd => Ok(bool_value(Test::Odd.passes_value(&only(args)))),
        Builtin::Str => Ok(judge(Ok(text::str(alloc, args)?))),
        Builtin::Vector => Ok(judge(Ok(Value::vector(alloc, args)?))),
        Builtin::HashMap => Ok(judge(Ok(maps::hash_map(alloc, args)?))),
        Builtin::Conj => Ok(judge(vectors::conj(alloc, first_and_rest(args))?)),
        Builtin::Nth => Ok(judge(vectors::nth(alloc, two_and_option(args))?)),
        Builtin::Get => Ok(judge(maps::get(alloc, two_and_option(args))?)),
        Builtin::Count => Ok(int_value(maps::count(&only(args)))),
        Builtin::IsEmpty => Ok(bool_value(maps::is_empty(&only(args)))),
        Builtin::First => Ok(judge(vectors::first(alloc, &only(args))?)),
        Builtin::Last => Ok(judge(vectors::last(alloc, &only(args))?)),
        Builtin::Peek => Ok(judge(vectors::last(alloc, &only(args))?)),
        Builtin::Pop => Ok(judge(vectors::pop(alloc, only(args))?)),
        Builtin::Subvec => Ok(judge(vectors::subvec(alloc, two_and_option(args))?)),
        Builtin::Assoc => Ok(judge(maps::assoc(alloc, first_and_rest(args))?)),
        Builtin::Dissoc => Ok(judge(maps::dissoc(alloc, first_and_rest(args))?)),
        Builtin::Keys => Ok(judge(maps::halves(alloc, &only(args), Half::Key)?)),
        Builtin::Vals => Ok(judge(maps::halves(alloc, &only(args), Half::Value)?)),
        Builtin::Contains => Ok(bool_value(contains(both(args)))),
        Builtin::Range => range::range(alloc, one_and_option(args)),
        Builtin::Part => Ok(judge(part(alloc, both(args))?)),
        Builtin::Items => Ok(judge(maps::items(alloc, only(args))?)),
        Builtin::WorkerCount => Ok(int_value(numbers::worker_count(&only(args)))),
    }
}

// `contains` of two values that are let go.
fn contains(args: (Value, Value)) -> Answer<bool>
    ensures { result ≡ contains_of (view args.0) (view args.1) }
{
    maps::contains(&args.0, &args.1)
}

// The part of two values that are let go.
fn part(alloc: Global, args: (Value, Value)) -> Result<Answer<Value>, OutOfMemory>
    ensures { IfOk result (λ r. outcome r ≡ item_at_index (view args.0) (view args.1)) }
{
    vectors::part(alloc, &args.0, &args.1)
}
