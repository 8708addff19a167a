use crate::both::other;
use crate::passing::{Passes, Waits};
use ca_pool::gate::{Gate, GatePlace};
use std::sync::atomic::{AtomicU64, Ordering};

/// The pass at Picked, of all, after which a worker is held.
const HELD_AFTER: u64 = 10;

/// The worker that makes the tenth pass at Picked is held, where it passes Advanced next, until the other one has
/// passed Picked once more and Advanced twice more.
#[derive(Drop)]
pub struct HeldWorker {
    all_picked: AtomicU64,
    // the worker to be held, counted from 1; 0 is none
    to_hold: AtomicU64,
    picked: Passes,
    advanced: Passes,
    /// Whether a wait was given up.
    pub waits: Waits,
}

impl HeldWorker {
    /// Nobody has passed, and nobody is to be held.
    pub fn new() -> HeldWorker {
        HeldWorker {
            all_picked: AtomicU64::new(0),
            to_hold: AtomicU64::new(0),
            picked: Passes::new(),
            advanced: Passes::new(),
            waits: Waits::new(),
        }
    }

    fn pick(&self, worker: u64) {
        self.picked.note(worker);
        if self.all_picked.fetch_add(1, Ordering::SeqCst) == HELD_AFTER - 1 {
            self.to_hold
                .store(if worker == 0 { 1 } else { 2 }, Ordering::SeqCst);
        }
    }

    fn hold(&self, worker: u64) {
        let beside = other(worker);
        let picked = self.picked.count(beside);
        let advanced = self.advanced.count(beside);
        self.waits
            .wait_for(&self.picked, beside, picked.saturating_add(1));
        self.waits
            .wait_for(&self.advanced, beside, advanced.saturating_add(2));
    }

    fn advance(&self, worker: u64) {
        self.advanced.note(worker);
        let number = if worker == 0 { 1 } else { 2 };
        if self
            .to_hold
            .compare_exchange(number, 0, Ordering::SeqCst, Ordering::SeqCst)
            .is_ok()
        {
            self.hold(worker);
        }
    }
}

impl Gate for HeldWorker {
    fn pass(&self, worker: u64, place: GatePlace) {
        match place {
            GatePlace::Picked => self.pick(worker),
            GatePlace::Advanced => self.advance(worker),
            GatePlace::Idle => {}
        }
    }
}
