/// Where a worker passes a gate.
#[derive(Clone, Copy)]
pub enum GatePlace {
    Picked,
    Advanced,
    Idle,
}

/// What a test may hold workers at. A pass changes nothing, and the worker holds no part but its lane.
pub trait Gate {
    fn pass(&self, worker: u64, place: GatePlace);
}

/// A gate that everyone passes at once.
#[derive(Clone, Copy)]
pub struct OpenGate;

impl Gate for OpenGate {
    fn pass(&self, _worker: u64, _place: GatePlace) {}
}
