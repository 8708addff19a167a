ghost use Rattle.std.specs.Prelude.{◌≡◌};
ghost use Rattle.ca_value.specs.Deadlines.{is_before};
ghost use Rattle.ca_timers.specs.Timers.{deadline_view};

use ca_value::value::PortId;

/// A timeout that is open: the moment at which it closes its port.
#[derive(Clone, Copy)]
pub(crate) struct OpenDeadline {
    pub(crate) moment: u64,
    pub(crate) port: PortId,
}

impl OpenDeadline {
    /// Whether it closes its port before the other one does.
    pub(crate) fn is_before(&self, other: &OpenDeadline) -> bool
        ensures { result ≡ is_before (deadline_view self.now) (deadline_view other.now) }
    {
        self.moment < other.moment || self.moment == other.moment && self.port.n < other.port.n
    }
}
