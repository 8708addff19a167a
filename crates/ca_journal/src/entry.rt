use crate::note::Note;

/// An event, and its number among all events of the run.
#[derive(Drop)]
pub struct Entry {
    pub number: u64,
    pub note: Note,
}

/// Where an entry lies in a worker's list: in which of its pieces, and where in that.
#[derive(Clone, Copy)]
pub struct Spot {
    pub piece: usize,
    pub place: usize,
}
