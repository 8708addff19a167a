//! What is read off an event of the journal before the follower makes its own.
ghost use Rattle.std.specs.Prelude.{◌≡◌, ◌↔◌, ◌||◌, IsTrue, is_some};
ghost use Rattle.ca_term.specs.Event.{event_view};
ghost use Rattle.ca_term.specs.Operation.{what_view};
ghost use Rattle.ca_commit.specs.Contents.{whole};
ghost use Rattle.ca_commit.specs.Plans.{plan_view};
ghost use Rattle.ca_commit.specs.Showing.{channels_held, registries_held};
ghost use Rattle.ca_follow.specs.Events.{AreNew, IsReading, Numbers, event_start, task_of};
ghost use Rattle.ca_follow.specs.Follower.{has};

use crate::follower::Follower;
use ca_commit::held::{Banks, Held};
use ca_commit::planned::Plan;
use ca_scene::same_event::same_event;
use ca_tasks::task::AnyTask;
use ca_term::event::Event;
use ca_term::operation::What;
use ca_value::value::PortId;

/// The task whose event it is; None where a channel settles or the clock ticks.
pub(crate) fn task_of(event: &Event) -> Option<u64>
    ensures { result ≡ task_of (event_view event.now) }
{
    match event {
        Event::Make { task, .. } | Event::Spawn { task, .. } | Event::Done { task, .. } => Some(
            *task,
        ),
        Event::Meet { task, .. } | Event::Park { task, .. } | Event::Post { task, .. } => Some(
            *task,
        ),
        Event::Default { task, .. } | Event::Close { task, .. } => Some(*task),
        Event::Register { task, .. } | Event::Print { task, .. } | Event::End { task, .. } => Some(
            *task,
        ),
        Event::Settle { .. } | Event::Tick { .. } => None,
    }
}

/// The number of the branch that is to be looked at first.
pub(crate) fn start_of(event: &Event) -> u64
    ensures { result ≡ event_start (event_view event.now) }
{
    match event {
        Event::Done { branch, .. } | Event::Meet { branch, .. } => *branch,
        _ => 0,
    }
}

/// The numbers that the event gives are those that the next event may give, and its moment is the clock's answer.
pub(crate) fn give_numbers(held: &mut Held<AnyTask>, event: &Event)
    ensures numbers { Numbers (event_view event.now) held.new.new_task held.new.new_port held.new.new_wait held.new.moment }
    ensures banks { held.new.banks ≡ held.old.banks }
    ensures shards { held.new.shards ≡ held.old.shards }
    ensures timers { held.new.timers ≡ held.old.timers }
    ensures ready { held.new.ready ≡ held.old.ready }
{
    match event {
        Event::Make { port, moment, .. } => {
            held.new_port = port.n;
            held.moment = moment.unwrap_or(0);
        }
        Event::Spawn { spawned, .. } => held.new_task = *spawned,
        Event::Park { wait, .. } | Event::Post { wait, .. } => held.new_wait = wait.n,
        _ => {}
    }
}

/// Whether the event that was made is the journal's. Where it is let go in place, a proof meets each kind of event beside each
/// value.
pub(crate) fn agrees(made: Event, event: &Event) -> bool
    ensures { IsTrue result ↔ (event_view made ≡ event_view event.now) }
{
    same_event(&made, event)
}

// Whether the port is a channel or a registry.
fn is_port(banks: &Banks, port: u64) -> bool
    ensures { result ≡ (is_some (whole (channels_held banks.now) port) || is_some (whole (registries_held banks.now) port)) }
{
    match banks.get(port % 16) {
        Some(held) => held.bank().kind(PortId { n: port }).is_some(),
        None => false,
    }
}

impl Follower<'_> {
    /// Whether the numbers that the plan's event gives are new, and a timeout's moment is a reading of the clock.
    pub(crate) fn are_new(&self, plan: &Plan) -> bool
        ensures { IsTrue result ↔ AreNew (has self.now) (plan_view plan.now) self.now.held.new_task self.now.held.new_port self.now.held.new_wait self.now.held.moment }
    {
        match plan {
            Plan::Make(what) => {
                !is_port(&self.held.banks, self.held.new_port) && self.is_reading(what)
            }
            Plan::Spawn(_, _) => !self.tasks.has(self.held.new_task),
            Plan::Park(_) | Plan::Post(_) => !self.waits.contains(&self.held.new_wait),
            _ => true,
        }
    }

    fn is_reading(&self, what: &What) -> bool
        ensures { IsTrue result ↔ IsReading (has self.now).times (what_view what.now) self.now.held.moment }
    {
        match what {
            What::Timeout(_) => self.may_reach(self.held.moment),
            _ => true,
        }
    }
}
