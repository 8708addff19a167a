ghost use Rattle.std.specs.Prelude.{◌≡◌, ℕ, ◌+◌, ◌*◌, ◌^◌, ◌<◌, ◌≤◌, length, vec_capacity, All, None, slice_index_or};
ghost use Rattle.ca_turns_counters.specs.declared.counters.Event.{Event};
ghost use Rattle.ca_turns_counters.specs.declared.workers.Worker.{Worker};
ghost use Rattle.ca_turns_counters.specs.Adding.{AreCountersWithin};
ghost use Rattle.ca_turns_counters.specs.Working.{IsReadyToCount, IsBeforeFirstEvent, SameCountingWorker, Worked, Repeats, events_drawn};

use crate::adding::add;
use crate::counters::{Counters, Event};
use crate::workers::Worker;
use ca_turns::Table;
use std::sync::Wait;
use std::thread;
use std::thread::Threads;

// One event more.
fn turn_once<R: Wait>(rt: &R, table: &Table<Counters>, worker: &mut Worker, event: &Event)
    requires ready { IsReadyToCount table.now.id worker.old }
    requires range { AreCountersWithin table.now.id.slots event.now }
    requires room { (events_drawn worker.old < 2 ^ 59) × (events_drawn worker.old < vec_capacity worker.old.numbers) }
    ensures ready { IsReadyToCount table.now.id worker.new }
    ensures same { SameCountingWorker worker.old worker.new }
    ensures one { events_drawn worker.new ≡ events_drawn worker.old + 1 }
    ensures repeats { Repeats event.now worker.old → Repeats event.now worker.new }
    ensures spare { worker.new.spare ≡ worker.old.spare }
{
    let number = add(rt, table, &mut worker.hand, event);
    worker.numbers.push_reserved(number);
}

// The event many times.
fn turn_times<R: Wait>(
    rt: &R,
    table: &Table<Counters>,
    worker: &mut Worker,
    event: &Event,
    times: u64,
)
    requires ready { IsReadyToCount table.now.id worker.old }
    requires range { AreCountersWithin table.now.id.slots event.now }
    requires room { (events_drawn worker.old + times < 2 ^ 59) × (events_drawn worker.old + times ≤ vec_capacity worker.old.numbers) }
    ensures ready { IsReadyToCount table.now.id worker.new }
    ensures same { SameCountingWorker worker.old worker.new }
    ensures drew { events_drawn worker.new ≡ events_drawn worker.old + times }
    ensures repeats { Repeats event.now worker.old → Repeats event.now worker.new }
    ensures spare { worker.new.spare ≡ worker.old.spare }
{
    for _ in 0..times {
        turn_once(rt, table, worker, event);
    }
}

// The spare hand joins the worker's own.
fn take_in(table: &Table<Counters>, worker: &mut Worker)
    requires ready { IsReadyToCount table.now.id worker.old }
    ensures ready { IsReadyToCount table.now.id worker.new }
    ensures same { SameCountingWorker worker.old worker.new }
    ensures drew { events_drawn worker.new ≡ events_drawn worker.old }
    ensures repeats { (e : Event) → Repeats e worker.old → Repeats e worker.new }
    ensures spare { worker.new.spare ≡ None }
{
    match worker.spare.take() {
        Some(spare) => table.join_hands(&mut worker.hand, spare),
        None => {}
    }
}

/// The event many times, then the spare hand joins the worker's own, and the event as often again.
pub fn work<R: Wait>(
    rt: &R,
    table: &Table<Counters>,
    worker: &mut Worker,
    event: &Event,
    times: u64,
)
    requires ready { IsReadyToCount table.now.id worker.old }
    requires range { AreCountersWithin table.now.id.slots event.now }
    requires room { (events_drawn worker.old + 2 * times < 2 ^ 59) × (events_drawn worker.old + 2 * times ≤ vec_capacity worker.old.numbers) }
    ensures ready { IsReadyToCount table.now.id worker.new }
    ensures same { SameCountingWorker worker.old worker.new }
    ensures drew { events_drawn worker.new ≡ events_drawn worker.old + 2 * times }
    ensures repeats { Repeats event.now worker.old → Repeats event.now worker.new }
    ensures spare { worker.new.spare ≡ None }
{
    turn_times(rt, table, worker, event, times);
    take_in(table, worker);
    turn_times(rt, table, worker, event, times);
}

// The work of the worker at this place.
fn work_at<R: Wait>(
    rt: &R,
    table: &Table<Counters>,
    worker: &mut Worker,
    place: usize,
    even: &Event,
    odd: &Event,
    times: u64,
)
    requires ready { IsBeforeFirstEvent table.now.id times worker.old }
    requires range { AreCountersWithin table.now.id.slots even.now × AreCountersWithin table.now.id.slots odd.now }
    requires room { 2 * times < 2 ^ 59 }
    ensures { Worked table.now.id even.now odd.now times worker.old worker.new }
{
    if place % 2 == 0 {
        work(rt, table, worker, even, times)
    } else {
        work(rt, table, worker, odd, times)
    }
}

// All workers at once, each in a thread of its own.
fn work_each<R: Threads + Wait + Sync>(
    rt: &R,
    table: &Table<Counters>,
    workers: &mut [Worker],
    even: &Event,
    odd: &Event,
    times: u64,
)
    requires some { 0 < length workers.old }
    requires ready { All (IsBeforeFirstEvent table.now.id times) workers.old }
    requires range { AreCountersWithin table.now.id.slots even.now × AreCountersWithin table.now.id.slots odd.now }
    requires room { 2 * times < 2 ^ 59 }
    ensures many { length workers.new ≡ length workers.old }
    ensures worked { (k : ℕ) (d : Worker) → k < length workers.old → Worked table.now.id even.now odd.now times (slice_index_or workers.old k d) (slice_index_or workers.new k d) }
{
    let threads = workers.len();
    thread::for_each_mut(
        rt,
        workers,
        threads,
        &|place, worker: &mut Worker|
            requires { IsBeforeFirstEvent table.now.id times worker.old × AreCountersWithin table.now.id.slots even.now × AreCountersWithin table.now.id.slots odd.now × (2 * times < 2 ^ 59) }
            ensures { Worked table.entry.now.id even.entry.now odd.entry.now times worker.old worker.new }
        { work_at(rt, table, worker, place, even, odd, times) },
    );
}

/// All workers at once, each in a thread of its own: those at even places repeat one event, and the
/// others another.
pub fn work_all<R: Threads + Wait + Sync>(
    rt: &R,
    table: &Table<Counters>,
    workers: &mut Vec<Worker>,
    even: &Event,
    odd: &Event,
    times: u64,
)
    requires some { 0 < length workers.old.items }
    requires ready { All (IsBeforeFirstEvent table.now.id times) workers.old.items }
    requires range { AreCountersWithin table.now.id.slots even.now × AreCountersWithin table.now.id.slots odd.now }
    requires room { 2 * times < 2 ^ 59 }
    ensures many { length workers.new.items ≡ length workers.old.items }
    ensures worked { (k : ℕ) (d : Worker) → k < length workers.old.items → Worked table.now.id even.now odd.now times (slice_index_or workers.old.items k d) (slice_index_or workers.new.items k d) }
{
    work_each(rt, table, workers.as_mut_slice(), even, odd, times);
}
