use crate::passing::{Passes, Waits};
use ca_pool::gate::{Gate, GatePlace};

/// Whoever of two workers passes first is held until the other has passed too.
#[derive(Drop)]
pub struct BothPass {
    passes: Passes,
    /// Whether a wait was given up.
    pub waits: Waits,
}

impl BothPass {
    /// Nobody has passed.
    pub fn new() -> BothPass {
        BothPass {
            passes: Passes::new(),
            waits: Waits::new(),
        }
    }
}

impl Gate for BothPass {
    fn pass(&self, worker: u64, _place: GatePlace) {
        self.passes.note(worker);
        self.waits.wait_for(&self.passes, other(worker), 1);
    }
}

/// The other one of two workers.
pub fn other(worker: u64) -> u64 {
    if worker == 0 { 1 } else { 0 }
}
