ghost use Rattle.std.specs.Prelude.{◌≡◌, map};
ghost use Rattle.ca_states.specs.Code.{instruction, block_view};
ghost use Rattle.ca_states.specs.Machine.{slots_from};
ghost use Rattle.ca_states.specs.Touched.{targets};
ghost use Rattle.ca_states.specs.Valid.{each, are_below, takes, is_counted, is_applied, is_task, is_operation, is_counted_exit, is_target, is_instruction_in_range, is_exit_in_range, is_in_range, leads_forward};
ghost use Rattle.ca_states.specs.Views.{slot_numbers, texts_view};

use crate::code::{Block, EntryPoint, Exit, Instr};
use crate::touch::Numbers;
use ca_term::head::{Head, PlainFunction, SeedKind, SystemTask};
use ca_value::seq::Seq;

/// Code without its marks.
pub struct Texts {
    pub blocks: Seq<Block>,
    pub main: u64,
    pub identity: u64,
    pub bodies: Seq<EntryPoint>,
    pub functions: Seq<EntryPoint>,
    pub width: u64,
}

impl Numbers {
    /// Whether each of them is below the width.
    pub fn are_below(&self, width: u64) -> bool
        ensures { result ≡ are_below width (slot_numbers self.now) }
    {
        match self {
            Numbers::None => true,
            Numbers::One(a) => *a < width,
            Numbers::Two(a, b) => *a < width && *b < width,
            Numbers::Three(a, b, c) => *a < width && *b < width && *c < width,
            Numbers::Range { from, count } => is_row_below(width, *from, *count),
        }
    }
}

// Whether so many slots from one on are below the width.
#[tactic(auto, using(crate::proofs::RowLaws::row_none, crate::proofs::RowLaws::row_past, crate::proofs::RowLaws::row_test))]
fn is_row_below(width: u64, from: u64, count: u64) -> bool
    ensures { result ≡ are_below width (slots_from from count) }
{
    if count == 0 {
        return true;
    }
    if width <= from {
        return false;
    }
    count <= width - from
}

impl Instr {
    /// Whether its slots are below the width, and its builtin takes so many values.
    pub fn is_in_range(&self, width: u64) -> bool
        ensures { result ≡ is_instruction_in_range width (instruction self.now) }
    {
        self.reads().are_below(width)
            && self.empties().are_below(width)
            && self.writes().are_below(width)
            && self.is_counted()
    }

    // Whether its builtin takes so many values.
    fn is_counted(&self) -> bool
        ensures { result ≡ is_counted (instruction self.now) }
    {
        match self {
            Instr::One { builtin, .. } => builtin.admits(1),
            Instr::Two { builtin, .. } => builtin.admits(2),
            Instr::TwoInt { builtin, .. } => builtin.admits(2),
            Instr::Many { builtin, count, .. } => builtin.admits(*count),
            _ => true,
        }
    }
}

impl Exit {
    /// Whether each target of a branch has a greater number than the block.
    pub fn leads_forward(&self, block: u64) -> bool
        ensures { result ≡ leads_forward block self.now }
    {
        match self {
            Exit::Branch { yes, no, .. } => block < *yes && block < *no,
            Exit::Test { yes, no, .. } => block < *yes && block < *no,
            Exit::TestInt { yes, no, .. } => block < *yes && block < *no,
            _ => true,
        }
    }
}

// Whether the one of that number is there and takes so many values.
pub(crate) fn takes(entries: &[EntryPoint], number: u64, count: u64) -> bool
    ensures { result ≡ takes entries.now number count }
{
    match entries.get(number as usize) {
        Some(entry) => entry.values == count,
        None => false,
    }
}

impl Texts {
    // Whether a system task can apply the function.
    fn is_applied(&self, function: &PlainFunction) -> bool
        ensures { result ≡ is_applied (texts_view self.now) function.now }
    {
        match function {
            PlainFunction::Defined(number) => takes(self.functions.as_slice(), *number, 1),
            PlainFunction::Builtin(builtin) => builtin.admits(1),
            PlainFunction::Keyword => true,
        }
    }

    // Whether the function that the task applies, if any, is there.
    fn is_task(&self, task: &SystemTask) -> bool
        ensures { result ≡ is_task (texts_view self.now) task.now }
    {
        match task {
            SystemTask::Pub(function) => self.is_applied(function),
            SystemTask::Job(_, function) => self.is_applied(function),
            _ => true,
        }
    }

    // Whether the head is an operation, and what its new task begins with is there.
    fn is_operation(&self, count: u64, head: &Head) -> bool
        ensures { result ≡ is_operation (texts_view self.now) count head.now }
    {
        match head {
            Head::Recur => false,
            Head::Builtin(_) => false,
            Head::Call(_) => false,
            Head::Spawn(SeedKind::Go(number)) => takes(self.bodies.as_slice(), *number, count),
            Head::Spawn(SeedKind::System(task)) => self.is_task(task),
            _ => true,
        }
    }

    // Whether what the exit applies takes so many values.
    fn is_counted_exit(&self, exit: &Exit) -> bool
        ensures { result ≡ is_counted_exit (texts_view self.now) exit.now }
    {
        match exit {
            Exit::Test { builtin, .. } => builtin.admits(2),
            Exit::TestInt { builtin, .. } => builtin.admits(2),
            Exit::Call {
                function,
                count,
                ..
            } => takes(self.functions.as_slice(), *function, *count),
            Exit::Cut { head, count, .. } => self.is_operation(*count, head),
            _ => true,
        }
    }

    // Whether the block is there and has that width.
    fn is_target(&self, width: u64, number: u64) -> bool
        ensures { result ≡ is_target (texts_view self.now) width number }
    {
        match self.blocks.get(number) {
            Some(block) => block.width == width,
            None => false,
        }
    }

    // Whether the exit's targets in the same text are there.
    fn are_targets(&self, width: u64, exit: &Exit) -> bool
        ensures { result ≡ each (is_target (texts_view self.now) width) (targets exit.now) }
    {
        match exit {
            Exit::Jump { next, .. } => self.is_target(width, *next),
            Exit::Branch { yes, no, .. } => self.is_target(width, *yes)
                && self.is_target(width, *no),
            Exit::Test { yes, no, .. } => self.is_target(width, *yes) && self.is_target(width, *no),
            Exit::TestInt { yes, no, .. } => self.is_target(width, *yes)
                && self.is_target(width, *no),
            Exit::Call { next, .. } => self.is_target(width, *next),
            Exit::Return { .. } => true,
            Exit::Cut { next, .. } => self.is_target(width, *next),
        }
    }

    // Whether the exit's slots, targets and counts are in range.
    fn is_exit_in_range(&self, width: u64, exit: &Exit) -> bool
        ensures { result ≡ is_exit_in_range (texts_view self.now) width exit.now }
    {
        exit.reads().are_below(width)
            && exit.empties().are_below(width)
            && exit.answers().are_below(width)
            && self.is_counted_exit(exit)
            && self.are_targets(width, exit)
    }

    /// Whether the block's slots, targets and counts are in range.
    pub fn is_in_range(&self, block: &Block) -> bool
        ensures { result ≡ is_in_range (texts_view self.now) (block_view block.now) }
    {
        block.width <= self.width
            && block.entry.below <= block.width
            && are_in_range(block.width, block.instrs.as_slice())
            && self.is_exit_in_range(block.width, &block.exit)
    }
}

// Whether each instruction's slots are below the width, and its builtin takes so many values.
fn are_in_range(width: u64, instrs: &[Instr]) -> bool
    ensures { result ≡ each (is_instruction_in_range width) (map instruction instrs.now) }
{
    for instr in instrs {
        if !instr.is_in_range(width) {
            return false;
        }
    }
    true
}
