//! The task of a mix: what is heard of its sources goes to the output.
ghost use Rattle.std.proofs.Common.{refl};
ghost use Rattle.std.specs.Prelude.{◌≡◌, ◌∷◌, ◌++◌, [], cond, eqb, map, IfOk};
ghost use Rattle.ca_value.specs.Seq.{list};
ghost use Rattle.ca_value.specs.View.{view, trees};
ghost use Rattle.ca_term.specs.declared.head.SystemTask.TheVariants.{Mix as mix_task};
ghost use Rattle.ca_meaning.specs.Asks.{ask_to_choose, needing, stop, to};
ghost use Rattle.ca_meaning.specs.MixTable.{any_of, heard_of, mix_asks, mix_chosen, mix_next, mix_reads, mix_chooses, mix_drops, modes_in, port_trees, read_of};
ghost use Rattle.ca_meaning.specs.Operands.{truth};
ghost use Rattle.ca_meaning.specs.System.{new_system};
ghost use Rattle.ca_system.specs.Stands.{running_body, stand_at, next_view};
ghost use Rattle.ca_mix.specs.Readings.{reading_view};
ghost use Rattle.ca_mix.specs.Mixes.{mix_body, mix_ports_view, mix_state_view};

use crate::modes::{Reading, modes_in};
use ca_asking::operands::{is_true, port_at};
use ca_system::asks::{asks, one, puts, registers, two};
use ca_system::operand::{is_nil, value_and_port};
use ca_system::running::{Kind, Running};
use ca_system::stand::{Next, Stand};
use ca_term::fault::Fault;
use ca_term::head::RegisterName;
use ca_term::operation::Op;
use ca_term::place::Place;
use ca_value::memory::OutOfMemory;
use ca_value::value::{Items, PortId, Value, Vector};
use std::alloc::Global;

/// The task of a mix.
pub type Mix = Running<Ports>;

/// The mix, its output, and where its changes are told.
#[derive(Clone, Copy, Drop)]
pub struct Ports {
    pub(crate) mix: PortId,
    pub(crate) out: PortId,
    pub(crate) changes: PortId,
}

/// Where a mix is in its table.
#[derive(Drop)]
pub enum State {
    /// It reads the modes.
    Reads,
    /// It waits for a value of what it reads, or for a change.
    Chooses(Reading),
    /// This source is closed: it takes it off.
    Drops(PortId),
    /// It puts a value that is heard.
    Puts(Reading, Value),
}

/// The task with these values: the mix, its output, and its change channel.
pub fn new_mix(values: Items, place: Place) -> Mix
    ensures { running_body mix_body result ≡ new_system mix_task (trees (list values)) place }
{
    let values = values.as_slice();
    let ports = Ports {
        mix: port_at(values, 0),
        out: port_at(values, 1),
        changes: port_at(values, 2),
    };
    Running::new(ports, place, Next::To(State::Reads))
}

impl Kind for Ports {
    type State = State;

    ghost body = { mix_body };

    fn ask(&self, alloc: Global, place: Place, state: &State) -> Result<Stand, OutOfMemory> {
        match state {
            State::Reads => self.modes(alloc, place),
            State::Chooses(reading) => self.choice(alloc, reading.reads.as_slice(), place),
            State::Drops(channel) => self.unmix(alloc, *channel, place),
            State::Puts(_, value) => Ok(puts(self.out, value.copy(alloc)?, place)),
        }
    }

    fn next(&self, alloc: Global, state: State, answer: Value) -> Result<Next<State>, OutOfMemory> {
        match state {
            State::Reads => after_modes(alloc, &answer),
            State::Chooses(reading) => self.after_choice(alloc, reading, &answer),
            State::Drops(_) => Ok(Next::To(State::Reads)),
            State::Puts(reading, _) => Ok(after_put(reading, &answer)),
        }
    }

    ghost ends = { λ k p. refl };

    ghost faults = { λ k p f. refl };

    ghost stays = { λ k p v. refl };

    ghost stays_faulted = { λ k p f v. refl };
}

impl Ports {
    // It reads the modes.
    fn modes(&self, alloc: Global, place: Place) -> Result<Stand, OutOfMemory>
        ensures { IfOk result (λ s. stand_at s ≡ mix_asks (mix_ports_view self.now) mix_reads place) }
    {
        let values = one(alloc, Value::Port(self.mix))?;
        Ok(registers(RegisterName::Modes, values, place))
    }

    // It waits for a value of one of these, or for a change.
    #[tactic(auto, using(crate::proofs::Branches::ports_weigh_nothing))]
    fn choice(&self, alloc: Global, reads: &[PortId], place: Place) -> Result<Stand, OutOfMemory>
        ensures { IfOk result (λ s. stand_at s ≡ ask_to_choose (port_trees (map (λ p. p.n) reads.now ++ self.now.changes.n ∷ [])) place) }
    {
        let op = Op::Alts {
            ports: Vector::of(alloc, branches(alloc, reads, self.changes)?)?,
            priority: false,
            default: None,
        };
        Ok(asks(op, place))
    }

    // It takes the source off.
    fn unmix(&self, alloc: Global, channel: PortId, place: Place) -> Result<Stand, OutOfMemory>
        ensures { IfOk result (λ s. stand_at s ≡ mix_asks (mix_ports_view self.now) (mix_drops channel.n) place) }
    {
        let values = two(alloc, Value::Port(self.mix), Value::Port(channel))?;
        Ok(registers(RegisterName::Unmix, values, place))
    }

    fn after_choice(
        &self,
        alloc: Global,
        reading: Reading,
        answer: &Value,
    ) -> Result<Next<State>, OutOfMemory>
        ensures { IfOk result (λ n. next_view mix_state_view n ≡ mix_next (mix_ports_view self.now) (view answer.now) (mix_chooses (reading_view reading).0 (reading_view reading).1)) }
    {
        match value_and_port(alloc, answer)? {
            None => Ok(Next::Fail(Fault::WrongKind)),
            Some((value, channel)) => Ok(self.chosen(reading, value, channel)),
        }
    }

    // The channel gave the value: a change, the end of a source, or a value that is heard or not.
    fn chosen(&self, reading: Reading, value: Value, channel: PortId) -> Next<State>
        ensures { next_view mix_state_view result ≡ mix_chosen (mix_ports_view self.now) (reading_view reading).0 (reading_view reading).1 (view value) channel.n }
    {
        if channel.n == self.changes.n {
            Next::To(State::Reads)
        } else if is_nil(&value) {
            Next::To(State::Drops(channel))
        } else if is_among(channel, reading.heard.as_slice()) {
            Next::To(State::Puts(reading, value))
        } else {
            Next::To(State::Chooses(reading))
        }
    }
}

// The ports of an alts over these, and then the changes.
fn branches(alloc: Global, reads: &[PortId], changes: PortId) -> Result<Items, OutOfMemory>
    ensures { IfOk result (λ s. trees (list s) ≡ port_trees (map (λ p. p.n) reads.now ++ changes.n ∷ [])) }
{
    let mut ports = Items::new(alloc);
    ports.reserve(reads.len() as u64 + 1)?;
    for port in reads {
        ports.push(Value::Port(*port));
    }
    ports.push(Value::Port(changes));
    Ok(ports)
}

fn is_among(channel: PortId, heard: &[PortId]) -> bool
    ensures { result ≡ any_of (eqb channel.n) (map (λ p. p.n) heard.now) }
{
    for other in heard {
        if channel.n == other.n {
            return true;
        }
    }
    false
}

// It reads and hears what the answer tells.
fn after_modes(alloc: Global, answer: &Value) -> Result<Next<State>, OutOfMemory>
    ensures { IfOk result (λ n. next_view mix_state_view n ≡ needing (modes_in (view answer.now)) (λ m. to (mix_chooses (read_of m) (heard_of m)))) }
{
    match modes_in(alloc, answer)? {
        None => Ok(Next::Fail(Fault::WrongKind)),
        Some(modes) => Ok(Next::To(State::Chooses(modes.reading(alloc)?))),
    }
}

// A closed output ends the task.
fn after_put(reading: Reading, answer: &Value) -> Next<State>
    ensures { next_view mix_state_view result ≡ cond (truth (view answer.now)) (to (mix_chooses (reading_view reading).0 (reading_view reading).1)) stop }
{
    if is_true(answer) {
        Next::To(State::Chooses(reading))
    } else {
        Next::Stop
    }
}
