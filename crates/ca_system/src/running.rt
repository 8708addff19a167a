//! A kind of system task, and a running task of any kind.
ghost use Rattle.std.specs.Prelude.{◌≡◌, None, IfOk, OnOk};
ghost use Rattle.ca_value.specs.Tree.{Tree, nil};
ghost use Rattle.ca_value.specs.View.{view};
ghost use Rattle.ca_term.specs.declared.fault.Fault.{Fault};
ghost use Rattle.ca_term.specs.declared.place.Place.{Place};
ghost use Rattle.ca_meaning.specs.Body.{ended, faulted};
ghost use Rattle.ca_meaning.specs.System.{SystemBody, system_at, system_fill};
ghost use Rattle.ca_system.specs.Applications.{pending_application};
ghost use Rattle.ca_system.specs.Stands.{running_body, stand_at};
ghost use Rattle.ca_system.specs.declared.stand.Next.{Next};
ghost use Rattle.ca_system.specs.declared.stand.Next.TheVariants.{To, Stop, Fail};

use crate::stand::{Next, Stand};
use ca_term::place::Place;
use ca_value::memory::OutOfMemory;
use ca_value::value::Value;
use std::alloc::Global;
use std::mem;

/// A kind of system task: its ports and values, which never change, and the rows of its table.
pub trait Kind: Drop {
    /// A state of the table.
    type State: Drop;

    // the task's body in the meaning, at its place and in that state
    ghost body: { Self → Place → Next Self.State → SystemBody };

    /// What the state asks for, where it applies no function.
    fn ask(&self, alloc: Global, place: Place, state: &Self::State) -> Result<Stand, OutOfMemory>
        requires { pending_application (body self.now place (To state.now)) ≡ None }
        ensures { IfOk result (λ s. stand_at s ≡ system_at (body self.now place (To state.now))) };

    /// What follows on the answer. After `OutOfMemory` the task is only dropped.
    fn next(
        &self,
        alloc: Global,
        state: Self::State,
        answer: Value,
    ) -> Result<Next<Self::State>, OutOfMemory>
        ensures { IfOk result (λ n. (place : Place) → body self.now place n ≡ system_fill (view answer) (body self.now place (To state))) };

    // where its table is over, the task is at its end, or has faulted
    ghost ends: { (k : Self) (p : Place) → system_at (body k p Stop) ≡ ended nil };

    ghost faults: { (k : Self) (p : Place) (f : Fault) → system_at (body k p (Fail f)) ≡ faulted f p };

    // and stays there
    ghost stays: { (k : Self) (p : Place) (v : Tree) → body k p Stop ≡ system_fill v (body k p Stop) };

    ghost stays_faulted: { (k : Self) (p : Place) (f : Fault) (v : Tree) → body k p (Fail f) ≡ system_fill v (body k p (Fail f)) };
}

/// A task of the kind: the place of the form that started it, and the state of its table.
#[derive(Drop)]
pub struct Running<K: Kind> {
    pub kind: K,
    pub place: Place,
    pub state: Next<K::State>,
}

impl<K: Kind> Running<K> {
    /// The task in that state.
    pub fn new(kind: K, place: Place, state: Next<K::State>) -> Running<K>
        ensures kind { result.kind ≡ kind }
        ensures place { result.place ≡ place }
        ensures state { result.state ≡ state }
    {
        Running { kind, place, state }
    }

    /// Where it stands, where it applies no function.
    pub fn stand(&self, alloc: Global) -> Result<Stand, OutOfMemory>
        requires { pending_application (running_body K.body self.now) ≡ None }
        ensures { IfOk result (λ s. stand_at s ≡ system_at (running_body K.body self.now)) }
    {
        match &self.state {
            Next::To(state) => self.kind.ask(alloc, self.place, state),
            Next::Stop => Ok(Stand::Ended),
            Next::Fail(fault) => Ok(Stand::Faulted(*fault, self.place)),
        }
    }

    /// Goes on, with the answer to its operation, to its next state. After `OutOfMemory` it is only dropped.
    pub fn follow(&mut self, alloc: Global, answer: Value) -> Result<(), OutOfMemory>
        ensures { OnOk result (running_body K.body self.new ≡ system_fill (view answer) (running_body K.body self.old)) }
    {
        match mem::replace(&mut self.state, Next::Stop) {
            Next::To(state) => self.state = self.kind.next(alloc, state, answer)?,
            Next::Stop => {}
            Next::Fail(fault) => self.state = Next::Fail(fault),
        }
        Ok(())
    }
}
