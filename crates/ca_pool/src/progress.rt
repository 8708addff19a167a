// Where a worker stands between two events.
ghost use Rattle.std.specs.Prelude.{◌≡◌, ◌⊎◌, ◌-◌, ◌<◌, ◌≤◌, None, IsSome, false, true};
ghost use Rattle.ca_meaning.specs.Solo.{patience};

use ca_agent::agent::Agent;
use ca_table::part::Lane;

/// Where a worker stands between two events: its lane, what is left of its allowance, and whether it found the run's end.
#[derive(Drop)]
pub(crate) struct Going<A> {
    pub(crate) lane: Box<Lane<A>>,
    pub(crate) left: u64,
    pub(crate) found: bool,
}

// How many events a task makes before it stands back.
const MOST_SINCE: u64 = 64;

/// Less is left.
pub(crate) fn spend<A: Agent>(going: Going<A>, cost: u64) -> Going<A>
    ensures lane { result.lane ≡ going.lane }
    ensures left { result.left ≡ going.left - cost }
    ensures found { result.found ≡ going.found }
{
    let Going { lane, left, found } = going;
    Going {
        lane,
        left: left.saturating_sub(cost),
        found,
    }
}

/// Whether the worker makes another event.
pub(crate) fn goes_on<A: Agent>(going: &Going<A>) -> bool
    ensures on { result ≡ true → going.now.found ≡ false }
    ensures over { result ≡ false → 0 < going.now.left → going.now.found ≡ true }
    ensures goes { result ≡ true → 0 < going.now.left }
    ensures stops { result ≡ false → (going.now.left ≡ 0) ⊎ (going.now.found ≡ true) }
{
    !going.found && going.left > 0
}

/// Whether the lane's task makes another event.
pub(crate) fn has_turn<A: Agent>(going: &Going<A>) -> bool
    ensures busy { result ≡ true → IsSome going.now.lane.value.task }
    ensures on { result ≡ true → going.now.found ≡ false }
    ensures some { result ≡ true → 0 < going.now.left }
    ensures few { result ≡ true → going.now.lane.value.since < patience }
    ensures full { result ≡ false → 0 < going.now.left → going.now.found ≡ false → (going.now.lane.value.task ≡ None) ⊎ (patience ≤ going.now.lane.value.since) }
{
    goes_on(going) && going.lane.task.is_some() && going.lane.since < MOST_SINCE
}

/// The run's end was found.
pub(crate) fn end_found<A: Agent>(going: Going<A>) -> Going<A>
    ensures lane { result.lane ≡ going.lane }
    ensures left { result.left ≡ going.left }
    ensures found { result.found ≡ true }
{
    let Going {
        lane,
        left,
        found: _,
    } = going;
    Going {
        lane,
        left,
        found: true,
    }
}
