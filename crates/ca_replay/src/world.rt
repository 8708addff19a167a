//! The state of a run, event by event.
ghost use Rattle.std.specs.Prelude.{◌≡◌, ◌∷◌, ◌<◌, ◌≤◌, ◌↔◌, [], true, false, option_map, slice_get, OnOk, IfOk, IfNone, IfSome, IsTrue};
ghost use Rattle.ca_term.specs.Event.{event_view};
ghost use Rattle.ca_term.specs.Program.{program_view};
ghost use Rattle.ca_meaning.specs.Ends.{IsPossible};
ghost use Rattle.ca_meaning.specs.State.{State, Opening};
ghost use Rattle.ca_meaning.specs.Steps.{Step};
ghost use Rattle.ca_replay.specs.World.{world_program, world_state, IsWorld, waits_made, waits_from, wait_entry, wait_view, told_channel};

use crate::opening::opened;
use crate::possible::can_go_on;
use crate::stepping::stepped;
use ca_scene::scene::Scene;
use ca_term::event::{Branch, Event};
use ca_term::program::Program;
use ca_value::memory::OutOfMemory;
use std::alloc::Global;

/// The state that the events so far led to, in a run of the program. After `OutOfMemory` it is only dropped.
#[derive(Drop)]
pub struct World<'p> {
    pub(crate) program: &'p Program,
    pub(crate) scene: Scene,
}

/// How many values a channel holds, and whether it is closed.
#[derive(Clone, Copy)]
pub struct ChannelView {
    pub held: u64,
    pub closed: bool,
}

/// A wait: its number, the task that waits, where a task does, and what it waits for.
#[derive(Clone, Copy)]
pub struct WaitView<'w> {
    pub number: u64,
    pub owner: Option<u64>,
    pub branches: &'w [Branch],
}

impl<'p> World<'p> {
    /// The state in which the program's runs begin.
    pub fn opening(alloc: Global, program: &'p Program) -> Result<World<'p>, OutOfMemory>
        ensures world { IfOk result (λ w. IsWorld w) }
        ensures program { IfOk result (λ w. world_program w ≡ program_view program.now) }
        ensures opens { IfOk result (λ w. Opening (program_view program.now) (world_state w)) }
    {
        program.checked();
        let scene = opened(alloc, program)?;
        Ok(World { program, scene })
    }

    /// Does the event where the state allows it: true, and the state after it; false, and nothing changes, exactly where it
    /// doesn't.
    pub fn step(&mut self, alloc: Global, event: &Event) -> Result<bool, OutOfMemory>
        requires { IsWorld self.old }
        ensures allowed { IfOk result (λ b. b ≡ true → Step (world_program self.old) (world_state self.old) (event_view event.now) (world_state self.new)) }
        ensures refused { IfOk result (λ b. b ≡ false → (s2 : State) → Step (world_program self.old) (world_state self.old) (event_view event.now) s2 → ⊥) }
        ensures unchanged { IfOk result (λ b. b ≡ false → self.new ≡ self.old) }
        ensures world { OnOk result (IsWorld self.new) }
        ensures program { world_program self.new ≡ world_program self.old }
    {
        stepped(&mut self.scene, alloc, self.program, event)
    }

    /// Whether some event is possible. It takes no memory.
    pub fn possible(&self) -> bool
        requires { IsWorld self.now }
        ensures { IsTrue result ↔ IsPossible (world_program self.now) (world_state self.now) }
    {
        can_go_on(&self.scene)
    }

    /// What there is to tell of the channel; None exactly where the port is no channel of the state.
    pub fn channel(&self, port: u64) -> Option<ChannelView>
        ensures { result ≡ option_map told_channel ((world_state self.now).channels port) }
    {
        match self.scene.rooms.get(&port) {
            None => None,
            Some(room) => Some(ChannelView {
                held: room.held.len() as u64,
                closed: room.closed,
            }),
        }
    }

    /// The first wait at or behind the place `from`, with the place behind it; None exactly where there is none. The waits
    /// stand in order of arrival, the first one at or behind place 0.
    pub fn next_wait(&self, from: usize) -> Option<(usize, WaitView<'_>)>
        ensures none { IfNone result (waits_from self.now from ≡ []) }
        ensures some { IfSome result (λ r. waits_from self.now from ≡ wait_view r.1 ∷ waits_from self.now r.0) }
        ensures further { IfSome result (λ r. from < r.0) }
        ensures within { IfSome result (λ r. r.0 ≤ waits_made self.now) }
    {
        for place in from..self.scene.waits.len() {
            if let Some(wait) = self.wait_in(place) {
                return Some((place + 1, wait));
            }
        }
        None
    }

    // The wait at that place of the table, if one is there that isn't gone.
    fn wait_in(&self, place: usize) -> Option<WaitView<'_>>
        ensures { option_map wait_view result ≡ wait_entry (slice_get self.now.scene.waits.entries place) }
    {
        match self.scene.waits.get_index(place) {
            Some((number, Some(waiting))) => Some(WaitView {
                number: *number,
                owner: waiting.owner,
                branches: waiting.branches.as_slice(),
            }),
            Some((_, None)) | None => None,
        }
    }

    /// The wait at that place of the list, from 0; None exactly where the place is past the last one. `next_wait` walks
    /// over all of them at less cost.
    pub fn wait_at(&self, place: u64) -> Option<WaitView<'_>>
        ensures { option_map wait_view result ≡ slice_get (world_state self.now).waits place }
    {
        let mut behind = 0;
        for _passed in 0..place {
            behind = self.next_wait(behind)?.0;
        }
        Some(self.next_wait(behind)?.1)
    }
}
