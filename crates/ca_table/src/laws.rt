//! What a worker may draw over what it carries.

ghost use Rattle.ca_states.specs.declared.valid_code.ValidCode.{ValidCode};
ghost use Rattle.ca_table.specs.DrawnEvents.{EndsDraw, FaultsDraw, PartsStay, PlacesDraw, PlansDraw, PrunesDraw, RefusalsDraw, ReservingKeeps, SettlesDraw};
ghost use Rattle.ca_table.specs.Parts.{part_seen};

use ca_agent::agent::Agent;
use ca_timers::clock::Clock;

/// The event of a plan, once it was applied to what is carried: the lane, and just what the event needs beside it.
pub fn plans_are_drawn<A: Agent, C: Clock + Drop>()
    ensures { (code : ValidCode) → PlansDraw A.over A.place A.advances A.gives A.starts (part_seen C.least C.faults C.readings) code }
{}

/// The same event, made where the parts lie that it needs, and no others.
pub fn places_are_drawn<A: Agent, C: Clock + Drop>()
    ensures { (code : ValidCode) → PlacesDraw A.over A.place A.advances A.gives A.starts (part_seen C.least C.faults C.readings) code }
{}

/// The end of the lane's task: by a value, by a fault of its own, or at an operation that is refused.
pub fn ends_are_drawn<A: Agent, C: Clock + Drop>()
    ensures ended { (code : ValidCode) → EndsDraw A.over A.place A.advances A.gives A.starts (part_seen C.least C.faults C.readings) code }
    ensures faulted { (code : ValidCode) → FaultsDraw A.over A.place A.advances A.gives A.starts (part_seen C.least C.faults C.readings) code }
    ensures refused { (code : ValidCode) → RefusalsDraw A.over A.place A.advances A.gives A.starts (part_seen C.least C.faults C.readings) code }
{}

/// What a channel served by itself, and a stale handler that left its queue. The lane isn't touched.
pub fn channels_are_drawn<A: Agent, C: Clock + Drop>()
    ensures settled { (code : ValidCode) → SettlesDraw A.over A.place A.advances A.gives A.starts (part_seen C.least C.faults C.readings) code }
    ensures pruned { (code : ValidCode) → PrunesDraw A.over A.place A.advances A.gives A.starts (part_seen C.least C.faults C.readings) code }
{}

/// What reserving and applying leave as it is: the one all that is carried, the other which parts are held.
pub fn parts_stay<A: Agent, C: Clock + Drop>()
    ensures reserved { ReservingKeeps A C }
    ensures applied { (code : ValidCode) → PartsStay A.over A.place A.advances A.gives A.starts (part_seen C.least C.faults C.readings) code }
{}
