//! How a runner leaves a block, and goes on.
ghost use Rattle.std.specs.Prelude.{◌≡◌, ◌<◌, ◌≤◌, suc, ◌∷◌, [], length, false, cond, IsTrue};
ghost use Rattle.std.specs.Bool.{OnTrue, OnFalse};
ghost use Rattle.ca_value.specs.Seq.{list};
ghost use Rattle.ca_value.specs.View.{view, views};
ghost use Rattle.ca_value.specs.Builtins.{admits_arguments};
ghost use Rattle.ca_value.specs.Outcome.{Outcome};
ghost use Rattle.ca_value.specs.Tree.{int};
ghost use Rattle.ca_term.specs.Operands.{truth};
ghost use Rattle.ca_term.specs.declared.fault.Fault.TheVariants.{Spun};
ghost use Rattle.ca_term.specs.declared.place.Place.{Place as PurePlace};
ghost use Rattle.ca_states.specs.Code.{code_view, CodeView};
ghost use Rattle.ca_states.specs.Machine.{builtin_applied, at_block, jumped, leaves, read, test_answered};
ghost use Rattle.ca_states.specs.Operands.{operand_value, IsThere};
ghost use Rattle.ca_states.specs.Standing.{calls_view, state_view, halts_at, FitsExit, Passed};

use crate::code::{Code, Exit};
use crate::instr::apply_to_two;
use crate::plain::truth_in_place;
use crate::runner::Runner;
use crate::slots::{Operand, value_at};
use crate::stop::Stop;
use ca_asking::judging::task_fault;
use ca_asking::operands::is_true;
use ca_term::fault::Fault;
use ca_term::place::Place;
use ca_value::builtin::Builtin;
use ca_value::fault::ApplyError;
use ca_value::value::Value;
use std::alloc::Global;

/// The turns that a runner has before its next one faults.
pub(crate) const LAST_TURN: u64 = 999_999;

impl Runner {
    /// Whether the exit halts the runner: an operation, or the return of a whole text.
    #[inline(always)]
    pub(crate) fn halts_at(&self, exit: &Exit) -> bool
        ensures { result ≡ halts_at exit.now (calls_view self.now.calls) }
    {
        match exit {
            Exit::Cut { .. } => true,
            Exit::Return { .. } => self.calls.is_empty(),
            _ => false,
        }
    }

    /// To a block, as a turn.
    #[inline(always)]
    pub(crate) fn turn_to(&mut self, block: u64)
        requires { self.old.turns < 999_999 }
        ensures { state_view self.new ≡ record (state_view self.old) { block = block; turns = suc self.old.turns } }
    {
        self.block = block;
        self.turns += 1;
    }

    // To a block, by a turn where its number isn't greater; the last turn faults.
    #[inline(always)]
    fn jump(&mut self, next: u64, place: Place, stop: &mut Stop) -> bool
        requires { self.old.turns ≤ 999_999 }
        ensures { Passed (jumped next place (state_view self.old)) result stop.new self.new }
    {
        if self.block < next {
            self.block = next;
            return true;
        }
        if LAST_TURN <= self.turns {
            *stop = Stop::Fault(Fault::Spun, place);
            return false;
        }
        self.turn_to(next);
        true
    }

    // To one of two blocks, by a truth.
    #[inline(always)]
    fn go_by(&mut self, truth: bool, yes: u64, no: u64)
        ensures { state_view self.new ≡ at_block (cond truth yes no) (state_view self.old) }
    {
        self.block = if truth { yes } else { no };
    }

    // By the truth of a builtin of a slot and another operand.
    #[inline(always)]
    fn test(
        &mut self,
        alloc: Global,
        builtin: Builtin,
        left: u64,
        right: Operand,
        yes: u64,
        no: u64,
        place: Place,
        stop: &mut Stop,
    ) -> bool
        requires counted { IsTrue (admits_arguments builtin 2) }
        requires left { left < length self.old.slots.items }
        requires right { IsThere right (length self.old.slots.items) }
        ensures { let s = views self.old.slots.items in Passed (test_answered place (state_view self.old) yes no (builtin_applied builtin (read s left ∷ operand_value right s ∷ []))) result stop.new self.new }
    {
        let Some(truth) = truth_in_place(self.slots.as_slice(), builtin, left, right) else {
            return self.test_values(alloc, builtin, left, right, yes, no, place, stop);
        };
        self.go_by(truth, yes, no);
        true
    }

    // The same of values of any kind.
    #[inline(never)]
    fn test_values(
        &mut self,
        alloc: Global,
        builtin: Builtin,
        left: u64,
        right: Operand,
        yes: u64,
        no: u64,
        place: Place,
        stop: &mut Stop,
    ) -> bool
        requires counted { IsTrue (admits_arguments builtin 2) }
        requires left { left < length self.old.slots.items }
        requires right { IsThere right (length self.old.slots.items) }
        ensures { let s = views self.old.slots.items in Passed (test_answered place (state_view self.old) yes no (builtin_applied builtin (read s left ∷ operand_value right s ∷ []))) result stop.new self.new }
    {
        match apply_to_two(alloc, self.slots.as_slice(), builtin, left, right) {
            Ok(value) => {
                self.go_by(is_true(&value), yes, no);
                true
            }
            Err(ApplyError::Fault(fault)) => {
                *stop = Stop::Fault(task_fault(fault), place);
                false
            }
            Err(ApplyError::OutOfMemory) => {
                *stop = Stop::OutOfMemory;
                false
            }
        }
    }

    /// Leaves the block by the exit, and goes on. Where that stops the runner, `stop` says why.
    #[inline(always)]
    pub(crate) fn leave(&mut self, alloc: Global, code: &Code, exit: &Exit, stop: &mut Stop) -> bool
        requires turns { self.old.turns ≤ 999_999 }
        requires fits { FitsExit (code_view code.now) exit.now (state_view self.old) }
        requires goes { halts_at exit.now (calls_view self.old.calls) ≡ false }
        ensures { Passed (leaves (code_view code.now) exit.now (state_view self.old)) result stop.new self.new }
    {
        match exit {
            Exit::Jump { next, place } => self.jump(*next, *place, stop),
            Exit::Branch { slot, yes, no } => {
                let truth = is_true(value_at(self.slots.as_slice(), *slot));
                self.go_by(truth, *yes, *no);
                true
            }
            Exit::Test {
                builtin,
                left,
                right,
                yes,
                no,
                place,
                ..
            } => {
                let right = Operand::Slot(*right);
                self.test(alloc, *builtin, *left, right, *yes, *no, *place, stop)
            }
            Exit::TestInt {
                builtin,
                left,
                right,
                yes,
                no,
                place,
                ..
            } => {
                let right = Operand::Int(*right);
                self.test(alloc, *builtin, *left, right, *yes, *no, *place, stop)
            }
            Exit::Call {
                function,
                from,
                count,
                answer,
                next,
                place,
            } => self.call(
                alloc, code, *function, *from, *count, *answer, *next, *place, stop,
            ),
            Exit::Return { slot } => {
                self.give_back(*slot);
                true
            }
            Exit::Cut { .. } => unreachable!(),
        }
    }
}
