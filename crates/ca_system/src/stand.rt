use ca_term::fault::Fault;
use ca_term::operation::Want;
use ca_term::place::Place;

/// Where a system task stands: at an operation, at its end, or by a fault at a place.
#[derive(Drop)]
pub enum Stand {
    AtOp(Want),
    Ended,
    Faulted(Fault, Place),
}

/// What follows on an answer: the next state, the end, or a fault.
#[derive(Drop)]
pub enum Next<S> {
    To(S),
    Stop,
    Fail(Fault),
}
