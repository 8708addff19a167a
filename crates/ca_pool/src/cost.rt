// What an event costs of a run's budget. A weight that doesn't fit 64 bits comes in no run: a value weighs little, and an
// event shows few. But no contract below says so.
ghost use Rattle.std.specs.Prelude.{◌≡◌};
ghost use Rattle.ca_term.specs.Cost.{cost_of};
ghost use Rattle.ca_term.specs.Event.{event_view};

use ca_journal::fits::cost_that_fits;
use ca_table::waiting::wait_for_good;
use ca_term::event::Event;
use std::sync::Wait;

/// What the event costs of a run's budget.
#[inline(always)]
pub(crate) fn cost_of<R: Wait>(rt: &R, event: &Event) -> u64
    ensures { result ≡ cost_of (event_view event.now) }
{
    match cost_that_fits(event) {
        Some(cost) => cost,
        None => {
            wait_for_good(rt);
            unreachable!()
        }
    }
}
