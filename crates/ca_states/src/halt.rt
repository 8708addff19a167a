//! What a runner halts as, and how it halts at a block's exit.
ghost use Rattle.std.specs.Prelude.{◌≡◌, ◌<◌, true, length, OnOk};
ghost use Rattle.ca_value.specs.View.{views};
ghost use Rattle.ca_states.specs.Code.{CodeView};
ghost use Rattle.ca_states.specs.Machine.{leaves, read};
ghost use Rattle.ca_states.specs.Standing.{calls_view, state_view, halts_at, FitsHalt, HaltedAs, EndsAs, HoldsStop, is_bare_halt};

use crate::code::Exit;
use crate::cutting::cut;
use crate::runner::{Halt, Runner};
use crate::slots::{is_bare, take_at};
use crate::stop::Stop;
use ca_term::operation::Op;
use ca_value::memory::OutOfMemory;
use ca_value::value::Value;
use std::alloc::Global;
use std::mem;

impl Halt {
    /// That of a runner that has not run yet.
    pub fn none() -> Halt
        ensures { is_bare_halt result ≡ true }
    {
        Halt::Ended(Value::Nil)
    }

    // Whether nothing is let go of where it is overwritten: so of most operations that were answered.
    #[inline(always)]
    fn is_bare(&self) -> bool
        ensures { result ≡ is_bare_halt self.now }
    {
        match self {
            Halt::Cut(want) => match &want.op {
                Op::Take(channel) => is_bare(channel),
                Op::Put(channel, value) => is_bare(channel) && is_bare(value),
                _ => false,
            },
            Halt::Ended(value) => is_bare(value),
            Halt::Faulted(_, _) => true,
        }
    }

    /// What it holds is let go; another may be written over it then.
    #[inline(always)]
    pub fn clear(&mut self)
        ensures { is_bare_halt self.new ≡ true }
    {
        if !self.is_bare() {
            self.let_go();
        }
    }

    #[inline(never)]
    fn let_go(&mut self)
        ensures { is_bare_halt self.new ≡ true }
    {
        *self = Halt::none();
    }
}

// At the end, with the slot's value.
#[inline(never)]
fn end(slots: &mut [Value], slot: u64, halt: &mut Halt)
    requires { slot < length slots.old }
    ensures { EndsAs halt.new (read (views slots.old) slot) }
{
    *halt = Halt::Ended(take_at(slots, slot));
}

/// By a fault; not where memory is wanted.
#[inline(never)]
pub(crate) fn halt_by(stop: Stop, halt: &mut Halt) -> Result<(), OutOfMemory>
    ensures { OnOk result (HoldsStop stop halt.new) }
{
    match stop {
        Stop::Fault(fault, place) => {
            *halt = Halt::Faulted(fault, place);
            Ok(())
        }
        Stop::OutOfMemory => Err(OutOfMemory),
    }
}

impl Runner {
    /// Halts at the exit.
    #[inline(always)]
    pub(crate) fn halt(
        &mut self,
        alloc: Global,
        exit: &Exit,
        halt: &mut Halt,
    ) -> Result<(), OutOfMemory>
        requires fits { FitsHalt exit.now (state_view self.old) }
        requires halts { halts_at exit.now (calls_view self.old.calls) ≡ true }
        requires bare { is_bare_halt halt.old ≡ true }
        ensures { OnOk result ((C : CodeView) → HaltedAs (leaves C exit.now (state_view self.old)) halt.new self.new) }
    {
        match exit {
            Exit::Return { slot } => {
                end(self.slots.as_mut_slice(), *slot, halt);
                Ok(())
            }
            Exit::Cut {
                head,
                from,
                count,
                answer,
                next,
                place,
            } => {
                self.block = *next;
                self.answer = *answer;
                cut(
                    alloc,
                    self.slots.as_mut_slice(),
                    head,
                    *from,
                    *count,
                    *place,
                    halt,
                )
            }
            _ => unreachable!(),
        }
    }
}
