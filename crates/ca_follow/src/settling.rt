//! A channel settles, or the clock ticks.
ghost use Rattle.std.specs.Prelude.{◌≡◌, ℕ, ◌<◌, ◌↔◌, IfOk, IsTrue, false, true};
ghost use Rattle.ca_term.specs.Event.{event_view};
ghost use Rattle.ca_term.specs.Program.{ProgramView};
ghost use Rattle.ca_meaning.specs.State.{State};
ghost use Rattle.ca_meaning.specs.TaskSteps.{moments};
ghost use Rattle.ca_states.specs.ValidCode.{valid_code};
ghost use Rattle.ca_commit.specs.Showing.{channels_held};
ghost use Rattle.ca_follow.specs.Events.{IsNotBefore};
ghost use Rattle.ca_follow.specs.Follower.{IsDecidedNext, IsFollower, IsMadeFor, IsPrune, IsSettleOf, IsTickOf, Leads, Refuses, SettledBy, FollowerStands, has};

use crate::follower::Follower;
use crate::reading::agrees;
use ca_commit::clock::{reserve_tick, tick};
use ca_commit::settling::{SettleNext, reserve_settle, settle_next};
use ca_term::event::Event;
use ca_value::memory::OutOfMemory;
use ca_value::value::PortId;
use std::alloc::Global;

// No moment is later.
const LAST_MOMENT: u64 = 0x3fff_ffff_ffff_ffff;

impl Follower<'_> {
    /// The channel settles once, if it does, and tells whether that is the journal's event.
    pub(crate) fn settle(
        &mut self,
        alloc: Global,
        port: PortId,
        event: &Event,
    ) -> Result<bool, OutOfMemory>
        requires event { IsSettleOf port.n (event_view event.now) }
        requires follower { IsFollower self.old }
        requires stands { (program : ProgramView) × (s : State) × IsMadeFor program (valid_code self.old.code.now) × FollowerStands program (has self.old) s }
        ensures allowed { IfOk result (λ b. b ≡ true → Leads (valid_code self.old.code.now) (event_view event.now) (has self.old) (has self.new)) }
        ensures refused { IfOk result (λ b. b ≡ false → Refuses (valid_code self.old.code.now) (event_view event.now) (has self.old)) }
        ensures follower { IfOk result (λ b. b ≡ true → IsFollower self.new) }
        ensures code { self.new.code ≡ self.old.code }
    {
        match self.settled(alloc, port)? {
            SettleNext::Settled(made) => {
                self.take_ready()?;
                Ok(agrees(made, event))
            }
            _ => Ok(false),
        }
    }

    // What the channel settles, once no stale handler stands in its way.
    fn settled(&mut self, alloc: Global, port: PortId) -> Result<SettleNext, OutOfMemory>
        requires follower { IsFollower self.old }
        ensures settled { IfOk result (SettledBy self.old self.new port.n) }
        ensures decided { IfOk result IsDecidedNext }
        ensures code { self.new.code ≡ self.old.code }
    {
        let mut next = self.settled_once(alloc, port)?;
        while let SettleNext::Prune(_, side, place) = next {
            self.prune(port, side, place);
            next = self.settled_once(alloc, port)?;
        }
        Ok(next)
    }

    // What the channel settles, or which stale handler stands in its way.
    fn settled_once(&mut self, alloc: Global, port: PortId) -> Result<SettleNext, OutOfMemory>
        requires follower { IsFollower self.old }
        ensures settled { IfOk result (SettledBy self.old self.new port.n) }
        ensures channels { IfOk result (λ n. IsPrune n → (i : ℕ) → channels_held self.new.held.banks i ≡ channels_held self.old.held.banks i) }
        ensures code { self.new.code ≡ self.old.code }
    {
        reserve_settle(alloc, &mut self.held, port)?;
        Ok(settle_next(&mut self.held, port))
    }

    /// The clock reaches the moment, if channels are due by then, and tells whether that is the journal's event.
    pub(crate) fn tick(
        &mut self,
        alloc: Global,
        moment: u64,
        event: &Event,
    ) -> Result<bool, OutOfMemory>
        requires event { IsTickOf moment (event_view event.now) }
        requires follower { IsFollower self.old }
        requires stands { (program : ProgramView) × (s : State) × IsMadeFor program (valid_code self.old.code.now) × FollowerStands program (has self.old) s }
        ensures allowed { IfOk result (λ b. b ≡ true → Leads (valid_code self.old.code.now) (event_view event.now) (has self.old) (has self.new)) }
        ensures refused { IfOk result (λ b. b ≡ false → Refuses (valid_code self.old.code.now) (event_view event.now) (has self.old)) }
        ensures follower { IfOk result (λ b. b ≡ true → IsFollower self.new) }
        ensures code { self.new.code ≡ self.old.code }
    {
        if !self.may_reach(moment) {
            return Ok(false);
        }
        reserve_tick(alloc, &mut self.held, moment)?;
        match tick(&mut self.held, moment) {
            Some(made) => Ok(agrees(made, event)),
            None => Ok(false),
        }
    }

    // Whether the moment is no earlier than the last one, and a moment.
    pub(crate) fn may_reach(&self, moment: u64) -> bool
        ensures { IsTrue result ↔ (IsNotBefore (has self.now).times moment × (moment < moments)) }
    {
        match &self.held.timers {
            Some(timers) => timers.moment() <= moment && moment <= LAST_MOMENT,
            None => moment <= LAST_MOMENT,
        }
    }
}
