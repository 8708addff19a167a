use ca_term::head::PlainFunction;
use ca_term::place::Place;
use ca_value::value::Value;

/// A plain function that a task is about to apply, the keyword where that is the function, the place of the form that
/// applies it, and the value.
#[derive(Clone, Copy)]
pub struct Application<'a> {
    pub function: PlainFunction,
    pub keyword: &'a Value,
    pub place: Place,
    pub value: &'a Value,
}
