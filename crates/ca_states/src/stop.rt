use ca_term::fault::Fault;
use ca_term::place::Place;

/// Why a runner goes no further: a fault of the script, at its place, or want of memory.
#[derive(Clone, Copy)]
pub enum Stop {
    Fault(Fault, Place),
    OutOfMemory,
}
