//! A runner of valid code: it goes on from operation to operation.
ghost use Rattle.std.specs.Prelude.{◌≡◌, ◌<◌, ◌≤◌, true, length, IfOk, OnOk};
ghost use Rattle.ca_value.specs.Seq.{list};
ghost use Rattle.ca_value.specs.View.{view, views};
ghost use Rattle.ca_states.specs.Code.{code_view, CodeView};
ghost use Rattle.ca_states.specs.Machine.{runner_started, calling, resumed};
ghost use Rattle.ca_states.specs.Valid.{is_valid};
ghost use Rattle.ca_states.specs.ValidCode.{valid_code};
ghost use Rattle.ca_states.specs.declared.runner.Start.TheVariants.{Function};
ghost use Rattle.ca_states.specs.Standing.{state_view, waiting_slot, entry_at, is_start, IsStart, RunnerStands, HaltsAs, RunnerWaitsAt, is_bare_halt};

use crate::calls::{Calls, Frame};
use crate::code::Code;
use crate::entry::{begun, block_at, entry_point};
use crate::halt::halt_by;
use crate::range::takes;
use crate::slots::set_at;
use crate::stop::Stop;
use crate::valid_code::ValidCode;
use ca_term::fault::Fault;
use ca_term::operation::Want;
use ca_term::place::Place;
use ca_value::memory::OutOfMemory;
use ca_value::value::{Items, Value};
use std::alloc::Global;

/// Where a runner starts: at the main text, at a go body or at a function, by its number.
#[derive(Clone, Copy)]
pub enum Start {
    Main,
    Go(u64),
    Function(u64),
}

/// What a runner halts as: at an operation, at the end with a value, or by a fault at a place.
#[derive(Drop)]
pub enum Halt {
    Cut(Want),
    Ended(Value),
    Faulted(Fault, Place),
}

/// A runner: its block, the values in its slots, the calls that wait, and the turns since the last event. At an
/// operation `answer` is the slot that its answer comes into.
#[derive(Drop)]
pub struct Runner {
    pub(crate) block: u64,
    pub(crate) slots: Vec<Value>,
    pub(crate) calls: Calls,
    pub(crate) turns: u64,
    pub(crate) answer: u64,
}

impl ValidCode {
    /// Whether the start is one of the code's, and takes so many values.
    pub fn has_start(&self, start: Start, count: u64) -> bool
        ensures { result ≡ is_start (valid_code self.now) start count }
    {
        match start {
            Start::Main => count == 0,
            Start::Go(number) => takes(self.code.bodies.as_slice(), number, count),
            Start::Function(number) => takes(self.code.functions.as_slice(), number, count),
        }
    }
}

impl Runner {
    /// A new runner at the start, with these values.
    pub fn start(
        alloc: Global,
        code: &ValidCode,
        start: Start,
        values: Items,
    ) -> Result<Runner, OutOfMemory>
        requires { IsStart (valid_code code.now) start (length (list values)) }
        ensures started { IfOk result (λ r. state_view r ≡ runner_started (valid_code code.now) (entry_at (valid_code code.now) start) (views (list values))) }
        ensures stands { IfOk result (λ r. RunnerStands (valid_code code.now) (state_view r)) }
    {
        let code = code.code();
        let entry = entry_point(code, start);
        let slots = begun(values, block_at(code, entry.block).width)?;
        Ok(Runner {
            block: entry.block,
            slots,
            calls: Calls::new(alloc),
            turns: 0,
            answer: 0,
        })
    }

    /// A new runner that calls the function of that number, with these values, by itself. The call is a turn, and the
    /// function stands in it.
    pub fn start_call(
        alloc: Global,
        code: &ValidCode,
        function: u64,
        values: Items,
    ) -> Result<Runner, OutOfMemory>
        requires { IsStart (valid_code code.now) (Function function) (length (list values)) }
        ensures calling { IfOk result (λ r. state_view r ≡ calling (valid_code code.now) function (views (list values))) }
        ensures stands { IfOk result (λ r. RunnerStands (valid_code code.now) (state_view r)) }
    {
        let mut runner = Runner::start(alloc, code, Start::Function(function), values)?;
        let code = code.code();
        let next = code.identity;
        let slots = begun(Items::new(alloc), block_at(code, next).width)?;
        let outermost = Frame {
            next,
            answer: 0,
            slots,
        };
        let calls = Calls::one(alloc, outermost)?;
        runner.calls = calls;
        runner.turns = 1;
        Ok(runner)
    }

    /// Goes on to the next operation, the end or a fault. After `OutOfMemory` the runner is only dropped.
    pub fn run(&mut self, alloc: Global, code: &ValidCode) -> Result<Halt, OutOfMemory>
        requires { RunnerStands (valid_code code.now) (state_view self.old) }
        ensures halts { IfOk result (λ h. HaltsAs (valid_code code.now) (state_view self.old) h self.new) }
        ensures waits { IfOk result (λ h. RunnerWaitsAt (valid_code code.now) h self.new) }
    {
        let mut halt = Halt::none();
        self.run_to(alloc, code, &mut halt)?;
        Ok(halt)
    }

    /// The same, with the halt in its place: what was there is let go.
    #[inline(never)]
    pub fn run_to(
        &mut self,
        alloc: Global,
        code: &ValidCode,
        halt: &mut Halt,
    ) -> Result<(), OutOfMemory>
        requires { RunnerStands (valid_code code.now) (state_view self.old) }
        ensures halts { OnOk result (HaltsAs (valid_code code.now) (state_view self.old) halt.new self.new) }
        ensures waits { OnOk result (RunnerWaitsAt (valid_code code.now) halt.new self.new) }
    {
        let code = code.code();
        halt.clear();
        self.go_on(alloc, code, halt)
    }

    // Goes on, block by block, to one that halts it. In the halt nothing is left to let go.
    #[inline(always)]
    fn go_on(&mut self, alloc: Global, code: &Code, halt: &mut Halt) -> Result<(), OutOfMemory>
        requires valid { is_valid (code_view code.now) ≡ true }
        requires stands { RunnerStands (code_view code.now) (state_view self.old) }
        requires bare { is_bare_halt halt.old ≡ true }
        ensures halts { OnOk result (HaltsAs (code_view code.now) (state_view self.old) halt.new self.new) }
        ensures waits { OnOk result (RunnerWaitsAt (code_view code.now) halt.new self.new) }
    {
        let mut stop = Stop::OutOfMemory;
        loop {
            let block = block_at(code, self.block);
            if !self.run_block(alloc, block, &mut stop) {
                return halt_by(stop, halt);
            }
            if self.halts_at(&block.exit) {
                return self.halt(alloc, &block.exit, halt);
            }
            if !self.leave(alloc, code, &block.exit, &mut stop) {
                return halt_by(stop, halt);
            }
        }
    }

    /// The answer to the operation that it halted at.
    #[inline(always)]
    pub fn answer(&mut self, answer: Value)
        requires { waiting_slot self.old < length (state_view self.old).slots }
        ensures resumed { state_view self.new ≡ resumed (view answer) (waiting_slot self.old) (state_view self.old) }
        ensures stands { (C : CodeView) → RunnerStands C (state_view self.old) → RunnerStands C (state_view self.new) }
    {
        set_at(self.slots.as_mut_slice(), self.answer, answer);
        self.turns = 0;
    }
}
