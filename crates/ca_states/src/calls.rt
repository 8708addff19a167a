//! The calls that a runner stands in.
ghost use Rattle.std.specs.Prelude.{◌≡◌, ◌≤◌, length};

use crate::slots::{fill, set_at, take_at, take_into};
use ca_value::memory::OutOfMemory;
use ca_value::value::Value;
use std::alloc::Global;
use std::mem;

/// A call that waits for its value: the block that goes on, the slot that the value comes into, and the slots.
#[derive(Drop)]
pub struct Frame {
    pub(crate) next: u64,
    pub(crate) answer: u64,
    pub(crate) slots: Vec<Value>,
}

/// The calls that wait, the innermost last. Behind them are the frames of calls that returned, whose room is used
/// again: so a call takes memory only where it stands deeper, or is wider, than those before it.
#[derive(Drop)]
pub struct Calls {
    frames: Vec<Frame>,
    depth: usize,
    ghost within: { depth ≤ length frames.items },
}

impl Calls {
    ghost use Rattle.std.specs.Prelude.{◌<◌, ◌∷◌, ℕ, [], false, IfOk, OnOk, IsTrue, ◌↔◌};
    ghost use Rattle.ca_value.specs.View.{views};
    ghost use Rattle.ca_states.specs.Machine.{begun, read, reads, returned, slots_from, taken_all};
    ghost use Rattle.ca_states.specs.Valid.{are_below};
    ghost use Rattle.ca_states.specs.Standing.{calls_view, frame_view, runner_goes, halts_at, TakesValue};
    ghost use Rattle.ca_states.specs.declared.code.Exit.TheVariants.{Return};

    /// None.
    pub(crate) fn new(alloc: Global) -> Calls
        ensures { calls_view result ≡ [] }
    {
        Calls {
            frames: Vec::new(alloc),
            depth: 0,
        }
    }

    /// That one alone.
    pub(crate) fn one(alloc: Global, frame: Frame) -> Result<Calls, OutOfMemory>
        ensures { IfOk result (λ c. calls_view c ≡ frame_view frame ∷ []) }
    {
        let mut frames = Vec::new(alloc);
        frames.push(frame)?;
        Ok(Calls { frames, depth: 1 })
    }

    /// How many wait.
    pub(crate) fn len(&self) -> u64
        ensures { result ≡ length (calls_view self.now) }
    {
        self.depth as u64
    }

    /// Whether none waits.
    #[inline(always)]
    pub(crate) fn is_empty(&self) -> bool
        ensures { IsTrue result ↔ (calls_view self.now ≡ []) }
    {
        self.depth == 0
    }

    /// A text of that width begins, with the values that are taken out of the slots, in place of which it has its own.
    /// They wait for its value.
    pub(crate) fn enter(
        &mut self,
        alloc: Global,
        slots: &mut Vec<Value>,
        width: u64,
        from: u64,
        count: u64,
        next: u64,
        answer: u64,
    ) -> Result<(), OutOfMemory>
        requires row { IsTrue (are_below (length slots.old.items) (slots_from from count)) }
        requires room { count ≤ width }
        ensures waits { OnOk result (calls_view self.new ≡ record { next = next; answer = answer; slots = taken_all (views slots.old.items) (slots_from from count) } ∷ calls_view self.old) }
        ensures begun { OnOk result (views slots.new.items ≡ begun width (reads (views slots.old.items) (slots_from from count))) }
    {
        if self.depth == self.frames.len() {
            self.frames.push(Frame {
                next,
                answer,
                slots: Vec::new(alloc),
            })?;
        }
        let frame = &mut self.frames[self.depth];
        frame.next = next;
        frame.answer = answer;
        frame.slots.clear();
        frame.slots.reserve_exact(width as usize)?;
        take_into(&mut frame.slots, slots.as_mut_slice(), from, count)?;
        fill(&mut frame.slots, width)?;
        mem::swap(&mut frame.slots, slots);
        self.depth += 1;
        Ok(())
    }

    /// The slot's value goes to the innermost call that waits, whose slots come back in place of these. The block that
    /// goes on.
    pub(crate) fn leave(&mut self, slots: &mut Vec<Value>, slot: u64) -> u64
        requires slot { slot < length slots.old.items }
        requires takes { TakesValue (calls_view self.old) }
        requires waits { halts_at (Return slot) (calls_view self.old) ≡ false }
        ensures { (turns : ℕ) → returned (read (views slots.old.items) slot) (calls_view self.old) turns ≡ runner_goes result (views slots.new.items) (calls_view self.new) turns }
    {
        self.depth -= 1;
        let frame = &mut self.frames[self.depth];
        mem::swap(&mut frame.slots, slots);
        let value = take_at(frame.slots.as_mut_slice(), slot);
        set_at(slots.as_mut_slice(), frame.answer, value);
        frame.slots.clear();
        frame.next
    }
}
