use crate::passing::{Passes, Waits};
use ca_pool::gate::{Gate, GatePlace};

/// How many passes the holder of the other parts waits for.
const ENOUGH: u64 = 100;

/// One worker holds parts that the events of worker 0 do not touch, until worker 0 has passed Advanced so often.
#[derive(Drop)]
pub struct Disjoint {
    advanced: Passes,
    held: Passes,
    /// Whether a wait was given up.
    pub waits: Waits,
}

impl Disjoint {
    /// Nobody has passed, and nothing is held.
    pub fn new() -> Disjoint {
        Disjoint {
            advanced: Passes::new(),
            held: Passes::new(),
            waits: Waits::new(),
        }
    }

    /// The holder has its parts, and stays with them.
    pub fn stay(&self) {
        self.held.note(1);
        self.waits.wait_for(&self.advanced, 0, ENOUGH);
    }

    /// Waits until the holder has its parts.
    pub fn await_holder(&self) {
        self.waits.wait_for(&self.held, 1, 1);
    }
}

impl Gate for Disjoint {
    fn pass(&self, worker: u64, place: GatePlace) {
        match place {
            GatePlace::Advanced => self.advanced.note(worker),
            GatePlace::Picked | GatePlace::Idle => {}
        }
    }
}
