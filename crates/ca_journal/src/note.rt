ghost use Rattle.std.specs.Prelude.{◌≡◌, IfOk, IfErr, IfSome, map, Option};
ghost use Rattle.ca_value.specs.Seq.{list};
ghost use Rattle.ca_value.specs.View.{view};
ghost use Rattle.ca_term.specs.Operation.{what_view};
ghost use Rattle.ca_term.specs.Event.{event_view, branch_view, made, done, parked};
ghost use Rattle.ca_journal.specs.Note.{note_view};
ghost use Rattle.ca_journal.specs.Said.{is_said};

use ca_term::event::{Branch, Event, Side, WaitId};
use ca_term::operation::What;
use ca_value::seq::Seq;
use ca_value::value::{PortId, Value};

/// An event as a journal keeps it, in 48 bytes: a frequent one lies in place, a rare one in a box.
#[derive(Drop)]
pub enum Note {
    /// A take is done at once.
    Took {
        branch: u16,
        task: u64,
        port: PortId,
        answer: Value,
    },
    /// A put is done at once.
    Gave {
        branch: u16,
        accepted: bool,
        task: u64,
        port: PortId,
        value: Value,
    },
    /// A task's branch meets a branch of a wait.
    Met {
        side: Side,
        branch: u16,
        other: u16,
        task: u64,
        port: PortId,
        wait: WaitId,
        value: Value,
    },
    /// A task waits to take from one channel.
    TakeParked {
        task: u64,
        wait: WaitId,
        port: PortId,
    },
    /// A task waits to put into one channel.
    PutParked {
        task: u64,
        wait: WaitId,
        port: PortId,
        value: Value,
    },
    /// A branch of a wait is done by its channel.
    Settled {
        side: Side,
        branch: u16,
        wait: WaitId,
        port: PortId,
        value: Value,
    },
    /// A task makes a timeout.
    Timed {
        task: u64,
        port: PortId,
        milliseconds: u64,
        moment: u64,
    },
    Rare(Box<Event>),
}

impl Note {
    /// The note of an event that needs no box; else the event itself.
    pub fn of(event: Event) -> Result<Note, Event>
        ensures note { IfOk result (λ n. note_view n ≡ event_view event) }
        ensures rare { IfErr result (λ e. event_view e ≡ event_view event) }
    {
        match event {
            Event::Make {
                task,
                port,
                what: What::Timeout(milliseconds),
                moment: Some(moment),
            } => Ok(Note::Timed {
                task,
                port,
                milliseconds,
                moment,
            }),
            Event::Done {
                task,
                branch,
                operation,
                answer,
            } => of_done(task, branch, operation, answer),
            Event::Meet {
                task,
                branch,
                side,
                port,
                value,
                wait,
                other,
            } => match (small(branch), small(other)) {
                (Some(branch), Some(other)) => Ok(Note::Met {
                    side,
                    branch,
                    other,
                    task,
                    port,
                    wait,
                    value,
                }),
                _ => Err(Event::Meet {
                    task,
                    branch,
                    side,
                    port,
                    value,
                    wait,
                    other,
                }),
            },
            Event::Park {
                task,
                wait,
                branches,
            } => of_park(task, wait, branches),
            Event::Settle {
                wait,
                branch,
                side,
                port,
                value,
            } => match small(branch) {
                Some(branch) => Ok(Note::Settled {
                    side,
                    branch,
                    wait,
                    port,
                    value,
                }),
                None => Err(Event::Settle {
                    wait,
                    branch,
                    side,
                    port,
                    value,
                }),
            },
            event => Err(event),
        }
    }

    /// Whether the run writes it, as a line of output, or it ends a task.
    #[inline(always)]
    pub(crate) fn is_said(&self) -> bool
        ensures { result ≡ is_said (note_view self.now) }
    {
        match self {
            Note::Rare(event) => matches!(**event, Event::Print { .. } | Event::End { .. }),
            _ => false,
        }
    }
}

// A branch's number in two bytes, where it fits.
fn small(branch: u64) -> Option<u16>
    ensures { IfSome result (λ b. b ≡ branch) }
{
    if branch < 65_536 {
        Some(branch as u16)
    } else {
        None
    }
}

fn of_done(task: u64, branch: u64, operation: Branch, answer: Value) -> Result<Note, Event>
    ensures note { IfOk result (λ n. note_view n ≡ done task branch (branch_view operation) (view answer)) }
    ensures rare { IfErr result (λ e. event_view e ≡ done task branch (branch_view operation) (view answer)) }
{
    match (small(branch), operation, answer) {
        (Some(branch), Branch::Take(port), answer) => Ok(Note::Took {
            branch,
            task,
            port,
            answer,
        }),
        (Some(branch), Branch::Put(port, value), Value::Bool(accepted)) => Ok(Note::Gave {
            branch,
            accepted,
            task,
            port,
            value,
        }),
        (_, operation, answer) => Err(Event::Done {
            task,
            branch,
            operation,
            answer,
        }),
    }
}

// The memory of an only branch's list goes back.
fn of_park(task: u64, wait: WaitId, mut branches: Seq<Branch>) -> Result<Note, Event>
    ensures note { IfOk result (λ n. note_view n ≡ parked task wait.n (map branch_view (list branches))) }
    ensures rare { IfErr result (λ e. event_view e ≡ parked task wait.n (map branch_view (list branches))) }
{
    if branches.len() != 1 {
        return Err(Event::Park {
            task,
            wait,
            branches,
        });
    }
    match branches.pop() {
        Some(Branch::Take(port)) => Ok(Note::TakeParked { task, wait, port }),
        Some(Branch::Put(port, value)) => Ok(Note::PutParked {
            task,
            wait,
            port,
            value,
        }),
        None => unreachable!(),
    }
}
