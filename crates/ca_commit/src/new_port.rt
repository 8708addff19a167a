//! A task makes a port.

ghost use Rattle.std.specs.Prelude.{◌≡◌, ◌+◌, ◌<◌, ◌≤◌, ◌^◌, ◌-◌, ℕ, OnOk, IfSome, IsSome, Some, false, min, option_map, true};
ghost use Rattle.ca_value.specs.Tree.{port as port_tree};
ghost use Rattle.ca_term.specs.Event.{event_view, made as made_event};
ghost use Rattle.ca_term.specs.Operation.{what_view};
ghost use Rattle.ca_meaning.specs.BodyViews.{is_at_op};
ghost use Rattle.ca_meaning.specs.Channel.{channel_made};
ghost use Rattle.ca_meaning.specs.Registry.{registry_made as registry_there};
ghost use Rattle.ca_bank.specs.Bank.{kept_made, new_registry};
ghost use Rattle.ca_bank.specs.Kept.{unattended};
ghost use Rattle.ca_bank.specs.Room.{channel_with};
ghost use Rattle.ca_commit.specs.Contents.{home};
ghost use Rattle.ca_commit.specs.Listing.{changed_at};
ghost use Rattle.ca_commit.specs.NewPort.{HasDeadlineRoom, HasTimers, IsMadeToMake, IsNoEarlier, KeepsCounts, moment_for, timed, times_in};
ghost use Rattle.ca_commit.specs.Replies.{GoesOn};
ghost use Rattle.ca_commit.specs.Running.{or_was};
ghost use Rattle.ca_commit.specs.Showing.{channels_held, registries_held};
ghost use Rattle.ca_commit.specs.Tasks.{agent_of};

use crate::changing::make;
use crate::held::{Applied, Held};
use crate::replying::goes_on;
use crate::reserving::reserve_port;
use crate::task::Task;
use ca_agent::agent::Agent;
use ca_asking::operands::port_of;
use ca_bank::bank::Made;
use ca_buffers::any::AnyBuffer;
use ca_buffers::dropping::Dropping;
use ca_buffers::fixed::Fixed;
use ca_buffers::promise::Promise;
use ca_buffers::sliding::Sliding;
use ca_term::event::Event;
use ca_term::operation::What;
use ca_timers::timers::Timers;
use ca_value::memory::OutOfMemory;
use ca_value::value::{PortId, Value};
use std::alloc::Global;

// No moment is later.
const LAST_MOMENT: u64 = 0x3fff_ffff_ffff_ffff;

// The new channel, where what is made is one; a buffer of 0 is none.
#[tactic(auto, using(crate::proofs::NewPorts::with_some))]
fn made(alloc: Global, what: &What) -> Made
    ensures channel { kept_made result ≡ option_map unattended (channel_made (what_view what.now)) }
    ensures registry { new_registry result ≡ registry_there (what_view what.now) }
{
    match what {
        What::Fixed(n) if *n > 0 => { Made::Channel(Some(AnyBuffer::Fixed(Fixed::new(alloc, *n)))) }
        What::Dropping(n) if *n > 0 => {
            Made::Channel(Some(AnyBuffer::Dropping(Dropping::new(alloc, *n))))
        }
        What::Sliding(n) if *n > 0 => {
            Made::Channel(Some(AnyBuffer::Sliding(Sliding::new(alloc, *n))))
        }
        What::Promise => Made::Channel(Some(AnyBuffer::Promise(Promise::new()))),
        What::Mult(source) => Made::Mult(port_of(source)),
        What::Mix(out, changes) => Made::Mix(port_of(out), port_of(changes)),
        What::Pub(source) => Made::Pub(port_of(source)),
        What::Unbuffered | What::Timeout(_) => Made::Channel(None),
        What::Fixed(_) | What::Dropping(_) | What::Sliding(_) => Made::Channel(None),
    }
}

// The moment that the event shows.
fn moment_of(what: &What, moment: u64) -> Option<u64>
    ensures { result ≡ moment_for (what_view what.now) moment }
{
    match what {
        What::Timeout(_) => Some(moment),
        _ => None,
    }
}

// When a timeout of so many milliseconds is due that is made at the moment.
fn deadline(milliseconds: u64, moment: u64) -> u64
    ensures { result ≡ min (moment + milliseconds) (2 ^ 62 - 1) }
{
    moment.saturating_add(milliseconds).min(LAST_MOMENT)
}

// A timeout opens its deadline.
fn time(timers: &mut Option<Timers>, what: &What, port: PortId, moment: u64)
    requires room { HasDeadlineRoom (what_view what.now) timers.old }
    requires moment { IsNoEarlier (what_view what.now) timers.old moment }
    ensures { times_in timers.new ≡ option_map (timed port.n (what_view what.now) moment) (times_in timers.old) }
{
    match what {
        What::Timeout(milliseconds) => match timers {
            Some(timers) => {
                timers.set_moment(moment);
                timers.add(deadline(*milliseconds, moment), port);
            }
            None => {}
        },
        _ => {}
    }
}

// Room for a timeout's deadline.
fn reserve_deadline(timers: &mut Option<Timers>, what: &What) -> Result<(), OutOfMemory>
    requires { HasTimers (what_view what.now) timers.old }
    ensures times { times_in timers.new ≡ times_in timers.old }
    ensures room { OnOk result (HasDeadlineRoom (what_view what.now) timers.new) }
{
    match what {
        What::Timeout(_) => match timers {
            Some(timers) => timers.reserve(),
            None => Ok(()),
        },
        _ => Ok(()),
    }
}

/// Makes the room that a new port needs, and a timeout's deadline. Nothing else changes.
pub fn reserve_make<A: Drop>(held: &mut Held<A>, what: &What) -> Result<(), OutOfMemory>
    requires bank { IsSome (channels_held held.old.banks (home held.old.new_port)) }
    requires timers { HasTimers (what_view what.now) held.old.timers }
    ensures channels { (i : ℕ) → channels_held held.new.banks i ≡ channels_held held.old.banks i }
    ensures registries { (i : ℕ) → registries_held held.new.banks i ≡ registries_held held.old.banks i }
    ensures shards { held.new.shards ≡ held.old.shards }
    ensures ready { held.new.ready ≡ held.old.ready }
    ensures times { times_in held.new.timers ≡ times_in held.old.timers }
    ensures counts { KeepsCounts held.old held.new }
    ensures made { OnOk result (IsMadeToMake held.new (what_view what.now)) }
{
    let port = PortId { n: held.new_port };
    reserve_port(&mut held.banks, port)?;
    reserve_deadline(&mut held.timers, what)
}

/// The task makes the new port, and gets it. It takes no memory.
pub fn apply_make<A: Agent>(
    alloc: Global,
    held: &mut Held<A>,
    what: What,
    task: Task<A>,
) -> Applied<A>
    requires at { is_at_op (A.place task.agent) ≡ true }
    requires count { task.alts + 1 < 2 ^ 64 }
    requires made { IsMadeToMake held.old (what_view what) }
    requires moment { IsNoEarlier (what_view what) held.old.timers held.old.moment }
    ensures event { event_view result.event ≡ made_event task.number held.old.new_port (what_view what) (moment_for (what_view what) held.old.moment) }
    ensures channels { (i : ℕ) → channels_held held.new.banks i ≡ changed_at held.old.new_port (or_was (option_map unattended (channel_made (what_view what)))) (channels_held held.old.banks) i }
    ensures registries { (i : ℕ) → registries_held held.new.banks i ≡ changed_at held.old.new_port (or_was (registry_there (what_view what))) (registries_held held.old.banks) i }
    ensures shards { held.new.shards ≡ held.old.shards }
    ensures ready { held.new.ready ≡ held.old.ready }
    ensures times { times_in held.new.timers ≡ option_map (timed held.old.new_port (what_view what) held.old.moment) (times_in held.old.timers) }
    ensures counts { KeepsCounts held.old held.new }
    ensures running { IfSome result.running (λ c. (c.number ≡ task.number) × GoesOn A.gives false (agent_of task) (port_tree held.old.new_port) (agent_of c)) }
    ensures runs { IsSome result.running }
{
    let port = PortId { n: held.new_port };
    let moment = held.moment;
    make(alloc, &mut held.banks, port, made(alloc, &what));
    time(&mut held.timers, &what, port, moment);
    let number = task.number;
    let shown = moment_of(&what, moment);
    let task = goes_on(task, Value::Port(port), None, false);
    Applied {
        event: Event::Make {
            task: number,
            port,
            what,
            moment: shown,
        },
        running: Some(task),
    }
}
