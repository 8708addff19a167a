//! A runner's call of a function, and what it gives back.
ghost use Rattle.std.specs.Prelude.{◌≡◌, ◌<◌, ◌≤◌, length, false, IsTrue};
ghost use Rattle.ca_value.specs.View.{views};
ghost use Rattle.ca_states.specs.Code.{code_view, function_at};
ghost use Rattle.ca_states.specs.Machine.{goes, leaves, read, returned, slots_from};
ghost use Rattle.ca_states.specs.Valid.{are_below};
ghost use Rattle.ca_states.specs.Standing.{calls_view, state_view, halts_at, HasRoom, Passed, TakesValue};
ghost use Rattle.ca_states.specs.declared.code.Exit.TheVariants.{Call, Return};

use crate::code::Code;
use crate::entry::{block_at, function_at};
use crate::leave::LAST_TURN;
use crate::runner::Runner;
use crate::stop::Stop;
use ca_term::fault::Fault;
use ca_term::place::Place;
use ca_value::memory::OutOfMemory;
use std::alloc::Global;

// The calls that a call may stand in.
const DEEPEST_CALL: u64 = 256;

impl Runner {
    /// A function begins with the values that are taken out of the slots.
    #[inline(never)]
    pub(crate) fn call(
        &mut self,
        alloc: Global,
        code: &Code,
        function: u64,
        from: u64,
        count: u64,
        answer: u64,
        next: u64,
        place: Place,
        stop: &mut Stop,
    ) -> bool
        requires turns { self.old.turns ≤ 999_999 }
        requires row { IsTrue (are_below (length self.old.slots.items) (slots_from from count)) }
        requires room { HasRoom (code_view code.now) (function_at (code_view code.now) function) count }
        ensures { Passed (leaves (code_view code.now) (Call function from count answer next place) (state_view self.old)) result stop.new self.new }
    {
        if LAST_TURN <= self.turns {
            *stop = Stop::Fault(Fault::Spun, place);
            return false;
        }
        if DEEPEST_CALL <= self.calls.len() {
            *stop = Stop::Fault(Fault::TooDeep, place);
            return false;
        }
        let entry = function_at(code, function);
        let width = block_at(code, entry.block).width;
        let Ok(()) = self
            .calls
            .enter(alloc, &mut self.slots, width, from, count, next, answer)
        else {
            *stop = Stop::OutOfMemory;
            return false;
        };
        self.turn_to(entry.block);
        true
    }

    /// A slot's value goes to the call that waits for it.
    #[inline(never)]
    pub(crate) fn give_back(&mut self, slot: u64)
        requires slot { slot < length self.old.slots.items }
        requires takes { TakesValue (calls_view self.old.calls) }
        requires waits { halts_at (Return slot) (calls_view self.old.calls) ≡ false }
        ensures { returned (read (views self.old.slots.items) slot) (calls_view self.old.calls) self.old.turns ≡ goes (state_view self.new) }
    {
        self.block = self.calls.leave(&mut self.slots, slot);
    }
}
