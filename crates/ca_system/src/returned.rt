use ca_term::fault::Fault;
use ca_value::value::Value;

/// What a plain function of a value comes to: a value, or a fault. The fault is one of the form that applies the
/// function, wherever in the function it arose.
#[derive(Drop)]
pub enum Returned {
    Value(Value),
    Fault(Fault),
}
