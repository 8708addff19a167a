ghost use Rattle.std.specs.Prelude.{◌≡◌};
ghost use Rattle.ca_value.specs.Outcome.{outcome, number_outcome, truth_outcome, judged};

use super::kinds::Answer;
use crate::fault::ValueFault;
use crate::value::Value;

/// What a result weighs at most.
pub const GREATEST_WEIGHT: u64 = 65_536;

/// How deep a result is at most.
pub const GREATEST_DEPTH: u64 = 64;

/// The answer, where its value is neither too heavy nor too nested. The weight is tested first.
pub fn judge(answer: Answer<Value>) -> Answer<Value>
    ensures { outcome result ≡ judged (outcome answer) }
{
    let value = answer?;
    if value.room_after(GREATEST_WEIGHT).is_none() {
        return Err(ValueFault::TooHeavy);
    }
    if !value.is_within_depth(GREATEST_DEPTH) {
        return Err(ValueFault::TooNested);
    }
    Ok(value)
}

/// The integer as a value, which needs no judging.
pub fn int_value(answer: Answer<i64>) -> Answer<Value>
    ensures { outcome result ≡ judged (number_outcome answer) }
{
    Ok(Value::Int(answer?))
}

/// The boolean as a value, which needs no judging.
pub fn bool_value(answer: Answer<bool>) -> Answer<Value>
    ensures { outcome result ≡ judged (truth_outcome answer) }
{
    Ok(Value::Bool(answer?))
}
