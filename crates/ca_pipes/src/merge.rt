ghost use Rattle.std.proofs.Common.{refl};
ghost use Rattle.std.specs.Prelude.{◌≡◌, IfOk, option_map};
ghost use Rattle.ca_value.specs.Seq.{list};
ghost use Rattle.ca_value.specs.Tree.{trees_of, vector};
ghost use Rattle.ca_value.specs.View.{view, trees, vector_trees};
ghost use Rattle.ca_term.specs.declared.head.SystemTask.{SystemTask};
ghost use Rattle.ca_meaning.specs.Asks.{follows, needing, value_and_port, pair_of, stands_at, trees_in};
ghost use Rattle.ca_meaning.specs.PipeTable.{merge_asks, merge_next, inputs_left, is_port as is_port_tree, without_port};
ghost use Rattle.ca_meaning.specs.System.{new_system};
ghost use Rattle.ca_system.specs.Stands.{running_body, stand_at};
ghost use Rattle.ca_pipes.specs.MergeViews.{merge_body, merge_at, chosen_view, after_choice_of};

use ca_asking::operands::{port_at, value_at};
use ca_system::asks::{chooses, closes, puts};
use ca_system::operand::{is_nil, items_of, value_and_port};
use ca_system::running::{Kind, Running};
use ca_system::stand::{Next, Stand};
use ca_term::fault::Fault;
use ca_term::place::Place;
use ca_value::memory::OutOfMemory;
use ca_value::seq::Seq;
use ca_value::value::{Items, PortId, Value, Vector};
use std::alloc::Global;

/// The task of `merge`: what any of its inputs has it puts into one channel. An input that ended leaves.
pub type Merge = Running<Output>;

/// The channel that a merge puts into.
#[derive(Clone, Copy, Drop)]
pub struct Output {
    pub(crate) port: PortId,
}

/// Where a merge is in its table.
#[derive(Drop)]
pub enum State {
    // One of the inputs that are left, in a vector; where none is left it closes the output.
    Chooses(Value),
    // The inputs that are left, and this value.
    Puts(Value, Value),
}

/// A new task: its values are the vector of its inputs, and the output.
pub fn new_merge(values: Items, place: Place) -> Merge
    ensures { running_body merge_body result ≡ new_system SystemTask.Merge (trees (list values)) place }
{
    let output = Output {
        port: port_at(values.as_slice(), 1),
    };
    Running::new(output, place, Next::To(State::Chooses(value_at(values, 0))))
}

impl Kind for Output {
    type State = State;

    ghost body = { merge_body };

    fn ask(&self, alloc: Global, place: Place, state: &State) -> Result<Stand, OutOfMemory> {
        match state {
            State::Chooses(inputs) => before_choice(alloc, self.port, place, inputs),
            State::Puts(_, value) => Ok(puts(self.port, value.copy(alloc)?, place)),
        }
    }

    fn next(&self, alloc: Global, state: State, answer: Value) -> Result<Next<State>, OutOfMemory> {
        match state {
            State::Chooses(inputs) => after_alts(alloc, &answer, inputs),
            State::Puts(inputs, _) => Ok(Next::To(State::Chooses(inputs))),
        }
    }

    ghost ends = { λ k p. refl };

    ghost faults = { λ k p f. refl };

    ghost stays = { λ k p v. refl };

    ghost stays_faulted = { λ k p f v. refl };
}

// Where it stands before a choice.
fn before_choice(
    alloc: Global,
    out: PortId,
    place: Place,
    inputs: &Value,
) -> Result<Stand, OutOfMemory>
    ensures { IfOk result (λ s. stand_at s ≡ stands_at place (merge_asks out.n) (inputs_left (trees_in (view inputs.now)))) }
{
    match inputs {
        Value::Vector(ports) => choose_or_close(alloc, out, place, ports),
        _ => Ok(closes(out, place)),
    }
}

fn choose_or_close(
    alloc: Global,
    out: PortId,
    place: Place,
    ports: &Vector,
) -> Result<Stand, OutOfMemory>
    ensures { IfOk result (λ s. stand_at s ≡ stands_at place (merge_asks out.n) (inputs_left (trees_of (vector_trees ports.now)))) }
{
    if ports.as_slice().is_empty() {
        Ok(closes(out, place))
    } else {
        chooses(alloc, ports, place)
    }
}

fn is_port(port: PortId, value: &Value) -> bool
    ensures { result ≡ is_port_tree port.n (view value.now) }
{
    match value {
        Value::Port(other) => port.n == other.n,
        _ => false,
    }
}

// The inputs without the port, wherever it stands among them.
fn without(alloc: Global, inputs: &[Value], port: PortId) -> Result<Value, OutOfMemory>
    ensures { IfOk result (λ v. view v ≡ vector (without_port port.n (trees inputs.now))) }
{
    let mut kept = Seq::new(alloc);
    kept.reserve(inputs.len() as u64)?;
    for input in inputs {
        if !is_port(port, input) {
            kept.push(input.copy(alloc)?);
        }
    }
    Value::vector(alloc, kept)
}

// What follows on the value of an input, or on nil at its end.
fn after_choice(
    alloc: Global,
    inputs: Value,
    value: Value,
    port: PortId,
) -> Result<Next<State>, OutOfMemory>
    ensures { IfOk result (λ s. merge_at s ≡ after_choice_of (trees_in (view inputs)) (view value) port.n) }
{
    if is_nil(&value) {
        let left = without(alloc, items_of(&inputs), port)?;
        Ok(Next::To(State::Chooses(left)))
    } else {
        Ok(Next::To(State::Puts(inputs, value)))
    }
}

// What follows on what an alts chose, if its answer has that form.
fn after_chosen(
    alloc: Global,
    chosen: Option<(Value, PortId)>,
    inputs: Value,
) -> Result<Next<State>, OutOfMemory>
    ensures { IfOk result (λ s. merge_at s ≡ needing (option_map chosen_view chosen) (λ c. after_choice_of (trees_in (view inputs)) c.0 c.1)) }
{
    match chosen {
        Some((value, port)) => after_choice(alloc, inputs, value, port),
        None => Ok(Next::Fail(Fault::WrongKind)),
    }
}

// What follows on the answer of an alts over these inputs; where there are none it closed the output.
fn after_alts(alloc: Global, answer: &Value, inputs: Value) -> Result<Next<State>, OutOfMemory>
    ensures { IfOk result (λ s. merge_at s ≡ follows (merge_next (view answer.now)) (inputs_left (trees_in (view inputs)))) }
{
    if items_of(&inputs).is_empty() {
        return Ok(Next::Stop);
    }
    let chosen = value_and_port(alloc, answer)?;
    after_chosen(alloc, chosen, inputs)
}
