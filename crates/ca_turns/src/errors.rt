use std::alloc::{AllocError, AllocFailed};

/// There was no memory for a table or its hands.
#[derive(Debug, Drop)]
pub struct OutOfMemory;

impl From<AllocError> for OutOfMemory {
    fn from(_: AllocError) -> OutOfMemory {
        OutOfMemory
    }
}

impl<T: Drop> From<AllocFailed<T>> for OutOfMemory {
    fn from(_: AllocFailed<T>) -> OutOfMemory {
        OutOfMemory
    }
}

/// Another hand held the part at the moment of the try.
#[derive(Debug, Drop)]
pub struct Busy;
