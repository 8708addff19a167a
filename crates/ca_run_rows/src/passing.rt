use std::hint;
use std::sync::atomic::{AtomicU64, Ordering};

/// How often a wait at a gate looks before it is given up.
const LOOKS: u64 = 200_000_000;

/// What workers have passed, by worker.
#[derive(Drop)]
pub struct Passes {
    first: AtomicU64,
    second: AtomicU64,
}

impl Passes {
    /// None.
    pub fn new() -> Passes {
        Passes {
            first: AtomicU64::new(0),
            second: AtomicU64::new(0),
        }
    }

    fn of(&self, worker: u64) -> &AtomicU64 {
        if worker == 0 {
            &self.first
        } else {
            &self.second
        }
    }

    /// One more pass of the worker.
    pub fn note(&self, worker: u64) {
        self.of(worker).fetch_add(1, Ordering::SeqCst);
    }

    /// How often the worker has passed.
    pub fn count(&self, worker: u64) -> u64 {
        self.of(worker).load(Ordering::SeqCst)
    }
}

/// The waits at a gate, which are given up in the end.
#[derive(Drop)]
pub struct Waits {
    given_up: AtomicU64,
}

impl Waits {
    /// No wait was given up.
    pub fn new() -> Waits {
        Waits {
            given_up: AtomicU64::new(0),
        }
    }

    fn is_given_up(&self) -> bool {
        self.given_up.load(Ordering::SeqCst) > 0
    }

    /// Waits until the count has come so far.
    pub fn wait_for(&self, passes: &Passes, worker: u64, count: u64) {
        if self.is_given_up() {
            return;
        }
        for _look in 0..LOOKS {
            if passes.count(worker) >= count {
                return;
            }
            hint::spin_loop();
        }
        self.given_up.store(1, Ordering::SeqCst);
    }

    /// What the output says of them.
    pub fn told(&self) -> &'static str {
        if self.is_given_up() {
            "a wait was given up"
        } else {
            "no wait was given up"
        }
    }
}
