//! Builtins at operands that are at hand, with no list made of them: one or two that the caller keeps, and
//! the two that grow a collection, which take it over.
ghost use Rattle.std.specs.Prelude.{◌≡◌, [], ◌∷◌, Ok, None, IfOk, IfErr, IsTrue};
ghost use Rattle.ca_value.specs.Seq.{list};
ghost use Rattle.ca_value.specs.Tree.{trees_of};
ghost use Rattle.ca_value.specs.View.{view, views};
ghost use Rattle.ca_value.specs.Outcome.{outcome, judged, Outcome, IsFault, Gives};
ghost use Rattle.ca_value.specs.IsValue.{Scalars, IsValue, AreValues};
ghost use Rattle.ca_value.specs.Vectors.{nth_of, appended};
ghost use Rattle.ca_value.specs.Maps.{assoc_of};
ghost use Rattle.ca_value.specs.Builtins.{answer, builtin_result, admits_arguments};
ghost use Rattle.ca_value.specs.declared.builtin.Builtin.{Builtin as PureBuiltin};

use super::judge::judge;
use super::kinds::Answer;
use super::maps::Half;
use super::scalars::{int_of_two, int_of_value, truth_of_two, truth_of_value, truth_of_values};
use super::{Builtin, evaluate, maps, vectors};
use crate::fault::ApplyError;
use crate::memory::OutOfMemory;
use crate::value::{Items, Value};
use std::alloc::Global;

/// The value of a builtin at one argument that the caller keeps, or its fault.
#[tactic(auto, using(crate::proofs::OutcomeLaws::given_value, crate::proofs::OutcomeLaws::given_fault, crate::proofs::OutcomeLaws::given_sound))]
pub fn apply_one(alloc: Global, builtin: Builtin, a: &Value) -> Result<Value, ApplyError>
    requires { IsTrue (admits_arguments builtin 1) }
    ensures value { IfOk result (λ v. builtin_result builtin (trees_of (view a.now ∷ [])) ≡ Ok (view v)) }
    ensures fault { IfErr result (λ e. IsFault e (builtin_result builtin (trees_of (view a.now ∷ [])))) }
    ensures sound { (w : Scalars) → AreValues w (trees_of (view a.now ∷ [])) → IfOk result (λ v. IsValue w (view v)) }
{
    give_one(alloc, builtin, a)
}

/// The value of a builtin at two arguments that the caller keeps, or its fault.
#[tactic(auto, using(crate::proofs::OutcomeLaws::given_value, crate::proofs::OutcomeLaws::given_fault, crate::proofs::OutcomeLaws::given_sound))]
pub fn apply_two(alloc: Global, builtin: Builtin, a: &Value, b: &Value) -> Result<Value, ApplyError>
    requires { IsTrue (admits_arguments builtin 2) }
    ensures value { IfOk result (λ v. builtin_result builtin (trees_of (view a.now ∷ view b.now ∷ [])) ≡ Ok (view v)) }
    ensures fault { IfErr result (λ e. IsFault e (builtin_result builtin (trees_of (view a.now ∷ view b.now ∷ [])))) }
    ensures sound { (w : Scalars) → AreValues w (trees_of (view a.now ∷ view b.now ∷ [])) → IfOk result (λ v. IsValue w (view v)) }
{
    give_two(alloc, builtin, a, b)
}

/// `conj` of one item: in the vector's own memory where no copy shares it.
#[tactic(auto, using(crate::proofs::OutcomeLaws::given_value, crate::proofs::OutcomeLaws::given_fault, crate::proofs::OutcomeLaws::given_sound))]
pub fn conj_one(alloc: Global, collection: Value, value: Value) -> Result<Value, ApplyError>
    ensures value { IfOk result (λ v. builtin_result PureBuiltin.Conj (trees_of (view collection ∷ view value ∷ [])) ≡ Ok (view v)) }
    ensures fault { IfErr result (λ e. IsFault e (builtin_result PureBuiltin.Conj (trees_of (view collection ∷ view value ∷ [])))) }
    ensures sound { (w : Scalars) → AreValues w (trees_of (view collection ∷ view value ∷ [])) → IfOk result (λ v. IsValue w (view v)) }
{
    give_conj(alloc, collection, value)
}

/// `assoc` of one key and value: in the collection's own memory where no copy shares it.
#[tactic(auto, using(crate::proofs::OutcomeLaws::given_value, crate::proofs::OutcomeLaws::given_fault, crate::proofs::OutcomeLaws::given_sound))]
pub fn assoc_one(
    alloc: Global,
    collection: Value,
    key: Value,
    value: Value,
) -> Result<Value, ApplyError>
    ensures value { IfOk result (λ v. builtin_result PureBuiltin.Assoc (trees_of (view collection ∷ view key ∷ view value ∷ [])) ≡ Ok (view v)) }
    ensures fault { IfErr result (λ e. IsFault e (builtin_result PureBuiltin.Assoc (trees_of (view collection ∷ view key ∷ view value ∷ [])))) }
    ensures sound { (w : Scalars) → AreValues w (trees_of (view collection ∷ view key ∷ view value ∷ [])) → IfOk result (λ v. IsValue w (view v)) }
{
    give_assoc(alloc, collection, key, value)
}

// The scalar, where the builtin has one here; else what its row answers.
#[inline(always)]
fn give_one(alloc: Global, builtin: Builtin, a: &Value) -> Result<Value, ApplyError>
    requires { IsTrue (admits_arguments builtin 1) }
    ensures { Gives result (builtin_result builtin (trees_of (view a.now ∷ []))) }
{
    if let Some(n) = int_of_value(builtin, a) {
        return Ok(Value::Int(n));
    }
    if let Some(truth) = truth_of_value(builtin, a) {
        return Ok(Value::Bool(truth));
    }
    row_of_one(alloc, builtin, a)
}

// The scalar, where the builtin has one here; else what its row answers.
#[inline(always)]
fn give_two(alloc: Global, builtin: Builtin, a: &Value, b: &Value) -> Result<Value, ApplyError>
    requires { IsTrue (admits_arguments builtin 2) }
    ensures { Gives result (builtin_result builtin (trees_of (view a.now ∷ view b.now ∷ []))) }
{
    if let (Value::Int(x), Value::Int(y)) = (a, b) {
        if let Some(n) = int_of_two(builtin, *x, *y) {
            return Ok(Value::Int(n));
        }
        if let Some(truth) = truth_of_two(builtin, *x, *y) {
            return Ok(Value::Bool(truth));
        }
    }
    row_of_two(alloc, builtin, a, b)
}

#[inline(never)]
#[tactic(auto, unfolding(crate::specs::Builtins::builtin_result))]
fn row_of_one(alloc: Global, builtin: Builtin, a: &Value) -> Result<Value, ApplyError>
    requires { IsTrue (admits_arguments builtin 1) }
    ensures { Gives result (builtin_result builtin (trees_of (view a.now ∷ []))) }
{
    applied(evaluate_one(alloc, builtin, a))
}

#[inline(never)]
#[tactic(auto, unfolding(crate::specs::Builtins::builtin_result))]
fn row_of_two(alloc: Global, builtin: Builtin, a: &Value, b: &Value) -> Result<Value, ApplyError>
    requires { IsTrue (admits_arguments builtin 2) }
    ensures { Gives result (builtin_result builtin (trees_of (view a.now ∷ view b.now ∷ []))) }
{
    if let Some(truth) = truth_of_values(builtin, a, b) {
        return Ok(Value::Bool(truth));
    }
    applied(evaluate_two(alloc, builtin, a, b))
}

#[tactic(auto, unfolding(crate::specs::Builtins::builtin_result))]
fn give_conj(alloc: Global, collection: Value, value: Value) -> Result<Value, ApplyError>
    ensures { Gives result (builtin_result PureBuiltin.Conj (trees_of (view collection ∷ view value ∷ []))) }
{
    applied(judge_answer(vectors::conj_one(alloc, collection, value)))
}

#[tactic(auto, unfolding(crate::specs::Builtins::builtin_result))]
fn give_assoc(
    alloc: Global,
    collection: Value,
    key: Value,
    value: Value,
) -> Result<Value, ApplyError>
    ensures { Gives result (builtin_result PureBuiltin.Assoc (trees_of (view collection ∷ view key ∷ view value ∷ []))) }
{
    applied(judge_answer(maps::assoc_one(alloc, collection, key, value)))
}

// The answer, judged, where memory was not refused.
fn judge_answer(answer: Result<Answer<Value>, OutOfMemory>) -> Result<Answer<Value>, OutOfMemory>
    ensures { (o : Outcome) → IfOk answer (λ r. outcome r ≡ o) → IfOk result (λ r. outcome r ≡ judged o) }
{
    Ok(judge(answer?))
}

// The answer, with want of memory as one error beside the faults.
fn applied(answer: Result<Answer<Value>, OutOfMemory>) -> Result<Value, ApplyError>
    ensures { (o : Outcome) → IfOk answer (λ r. outcome r ≡ o) → Gives result o }
{
    match answer {
        Ok(Ok(value)) => Ok(value),
        Ok(Err(fault)) => Err(ApplyError::Fault(fault)),
        Err(OutOfMemory) => Err(ApplyError::OutOfMemory),
    }
}

// The rows that answer one operand with a value; all others by the list of its copy.
fn evaluate_one(alloc: Global, builtin: Builtin, a: &Value) -> Result<Answer<Value>, OutOfMemory>
    requires { IsTrue (admits_arguments builtin 1) }
    ensures { IfOk result (λ r. outcome r ≡ judged (answer builtin (view a.now ∷ []))) }
{
    match builtin {
        Builtin::First => Ok(judge(vectors::first(alloc, a)?)),
        Builtin::Last | Builtin::Peek => Ok(judge(vectors::last(alloc, a)?)),
        Builtin::Keys => Ok(judge(maps::halves(alloc, a, Half::Key)?)),
        Builtin::Vals => Ok(judge(maps::halves(alloc, a, Half::Value)?)),
        _ => evaluate(alloc, builtin, one_copied(alloc, a)?),
    }
}

// The rows that look an item up; all others by the list of the two copies.
fn evaluate_two(
    alloc: Global,
    builtin: Builtin,
    a: &Value,
    b: &Value,
) -> Result<Answer<Value>, OutOfMemory>
    requires { IsTrue (admits_arguments builtin 2) }
    ensures { IfOk result (λ r. outcome r ≡ judged (answer builtin (view a.now ∷ view b.now ∷ []))) }
{
    match builtin {
        Builtin::Get => Ok(judge(maps::get_or(alloc, a, b, Value::Nil)?)),
        Builtin::Nth => Ok(judge(vectors::item_under(alloc, a, b, None)?)),
        Builtin::Part => Ok(judge(vectors::part(alloc, a, b)?)),
        _ => evaluate(alloc, builtin, both_copied(alloc, a, b)?),
    }
}

// The list of a copy.
fn one_copied(alloc: Global, a: &Value) -> Result<Items, OutOfMemory>
    ensures { IfOk result (λ s. views (list s) ≡ view a.now ∷ []) }
{
    let mut items = Items::new(alloc);
    items.reserve(1)?;
    items.push(a.copy(alloc)?);
    Ok(items)
}

// The list of two copies.
fn both_copied(alloc: Global, a: &Value, b: &Value) -> Result<Items, OutOfMemory>
    ensures { IfOk result (λ s. views (list s) ≡ view a.now ∷ view b.now ∷ []) }
{
    let mut items = Items::new(alloc);
    items.reserve(2)?;
    items.push(a.copy(alloc)?);
    items.push(b.copy(alloc)?);
    Ok(items)
}
