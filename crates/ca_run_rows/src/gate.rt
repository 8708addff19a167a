use crate::both::BothPass;
use crate::held::HeldWorker;
use crate::passing::Waits;
use crate::row::GateKind;
use ca_pool::gate::{Gate, GatePlace};

/// The gate of a row's run by two workers.
#[derive(Drop)]
pub enum RowGate {
    /// Nobody is held.
    Open,
    /// Whoever passes first waits for the other.
    Both(BothPass),
    /// One waits for events of the other.
    Held(HeldWorker),
}

impl RowGate {
    /// The gate of that kind, which nobody has passed.
    pub fn new(kind: GateKind) -> RowGate {
        match kind {
            GateKind::Both => RowGate::Both(BothPass::new()),
            GateKind::Held => RowGate::Held(HeldWorker::new()),
            GateKind::Open | GateKind::Disjoint => RowGate::Open,
        }
    }

    /// The waits at the gate, where workers wait at it.
    pub fn waits(&self) -> Option<&Waits> {
        match self {
            RowGate::Open => None,
            RowGate::Both(gate) => Some(&gate.waits),
            RowGate::Held(gate) => Some(&gate.waits),
        }
    }
}

impl Gate for RowGate {
    fn pass(&self, worker: u64, place: GatePlace) {
        match self {
            RowGate::Open => {}
            RowGate::Both(gate) => gate.pass(worker, place),
            RowGate::Held(gate) => gate.pass(worker, place),
        }
    }
}
