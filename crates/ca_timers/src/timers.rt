ghost use Rattle.std.specs.Prelude.{◌≡◌, ◌+◌, ◌<◌, ◌≤◌, [], drop, slice_get, option_map, OnOk, OnSome, IfNone};
ghost use Rattle.ca_value.specs.Deadlines.{opened, due};
ghost use Rattle.ca_timers.specs.Timers.{deadline_port, deadline_view};
ghost use Rattle.ca_timers.specs.Stored.{earlier_deadline};

use crate::deadline::OpenDeadline;
use crate::queue::DeadlineQueue;
use ca_value::memory::OutOfMemory;
use ca_value::value::PortId;
use std::alloc::Global;
use std::marker::Model;

/// The open deadlines, and the last moment that was reached, in milliseconds.
#[derive(Drop)]
pub struct Timers {
    queue: DeadlineQueue,
    // The first one of the queue.
    first: Option<OpenDeadline>,
    moment: u64,
}

impl Model for Timers {
    ghost use Rattle.ca_timers.specs.Timers.{TimersView};

    ghost Value = { TimersView };

    ghost use Rattle.ca_timers.specs.Stored.{timers_view, IsStored};

    ghost view = { λ t. timers_view t };

    ghost invariant = { λ t. IsStored t };
}

impl Timers {
    ghost use Rattle.ca_timers.specs.Timers.{AreOrdered};

    /// No deadline, at moment 0, and no memory.
    pub fn new(alloc: Global) -> Timers
        ensures deadlines { result.deadlines ≡ [] }
        ensures moment { result.moment ≡ 0 }
    {
        Timers {
            queue: DeadlineQueue::new(alloc),
            first: None,
            moment: 0,
        }
    }

    /// Makes room for one more deadline, and changes nothing else.
    pub fn reserve(&mut self) -> Result<(), OutOfMemory>
        ensures spare { OnOk result (0 < self.new.spare) }
        ensures kept { self.old.spare ≤ self.new.spare }
        ensures deadlines { self.new.deadlines ≡ self.old.deadlines }
        ensures moment { self.new.moment ≡ self.old.moment }
    {
        self.queue.reserve()
    }

    /// Opens a deadline: at that moment the port is due.
    pub fn add(&mut self, deadline: u64, port: PortId)
        requires { 0 < self.old.spare }
        ensures opened { self.new.deadlines ≡ opened (record { moment = deadline; port = port.n }) self.old.deadlines }
        ensures moment { self.new.moment ≡ self.old.moment }
        ensures spare { self.old.spare ≤ self.new.spare + 1 }
    {
        let deadline = OpenDeadline {
            moment: deadline,
            port,
        };
        self.queue.insert(deadline);
        self.first = Some(first_of(self.first, deadline));
    }

    /// The last moment that was reached, 0 at first.
    pub fn moment(&self) -> u64
        ensures { result ≡ self.now.moment }
    {
        self.moment
    }

    /// Sets the moment that is reached.
    pub fn set_moment(&mut self, now: u64)
        requires { self.old.moment ≤ now }
        ensures moment { self.new.moment ≡ now }
        ensures deadlines { self.new.deadlines ≡ self.old.deadlines }
        ensures spare { self.new.spare ≡ self.old.spare }
    {
        self.moment = now;
    }

    /// The least deadline, or None where none is open.
    pub fn first(&self) -> Option<u64>
        ensures first { result ≡ option_map (λ d. d.moment) (slice_get self.now.deadlines 0) }
        ensures ordered { AreOrdered self.now.deadlines }
    {
        match self.first {
            Some(deadline) => Some(deadline.moment),
            None => None,
        }
    }

    /// Takes out the first deadline that is at most `now` and gives its port, or None where there is none.
    pub fn pop_due(&mut self, now: u64) -> Option<PortId>
        ensures port { option_map deadline_port result ≡ slice_get (due now self.old.deadlines) 0 }
        ensures popped { OnSome result (self.new.deadlines ≡ drop 1 self.old.deadlines) }
        ensures none { IfNone result (self.new.deadlines ≡ self.old.deadlines) }
        ensures moment { self.new.moment ≡ self.old.moment }
        ensures spare { self.old.spare ≤ self.new.spare }
    {
        let first = self.first?;
        if now < first.moment {
            return None;
        }
        self.queue.drop_first();
        self.first = self.queue.get(0);
        Some(first.port)
    }

    /// The port at that place, from 0, of those whose deadline is at most `now`, in their order; None past
    /// the last one.
    #[tactic(auto, using(crate::proofs::Order::due_at))]
    pub fn due(&self, now: u64, place: u64) -> Option<PortId>
        ensures { option_map deadline_port result ≡ slice_get (due now self.now.deadlines) place }
    {
        match self.queue.get(place) {
            Some(deadline) if deadline.moment <= now => Some(deadline.port),
            _ => None,
        }
    }
}

// The earlier one, the other where none stood there.
fn first_of(first: Option<OpenDeadline>, other: OpenDeadline) -> OpenDeadline
    ensures { deadline_view result ≡ earlier_deadline (option_map deadline_view first) (deadline_view other) }
{
    match first {
        Some(first) if !other.is_before(&first) => first,
        _ => other,
    }
}
