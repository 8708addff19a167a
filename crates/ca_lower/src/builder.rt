//! Code as it is laid out: blocks are appended, and none is changed afterwards.
ghost use Rattle.std.specs.Prelude.{◌≡◌, ◌+◌, ◌∷◌, [], suc, Some, IfOk, OnOk};
ghost use Rattle.ca_value.specs.Seq.{list};
ghost use Rattle.ca_value.specs.View.{view};
ghost use Rattle.ca_states.specs.Code.{constant, instruction};
ghost use Rattle.ca_states.specs.declared.code.Exit.TheVariants.{Jump, Branch};
ghost use Rattle.ca_lower.specs.Implements.{moves, slot_of};
ghost use Rattle.ca_lower.specs.Emit.{add, at_work, close, finish, without_place, recur_code, recur_exit};
ghost use Rattle.ca_lower.specs.Views.{builder_view, scope_view, target_view};

use crate::sizes::Split;
use ca_states::code::{Block, Exit, Instr, SlotSet};
use ca_term::head::Head;
use ca_term::place::Place;
use ca_value::memory::OutOfMemory;
use ca_value::seq::Seq;
use ca_value::value::Value;
use std::alloc::Global;
use std::mem;

/// The finished blocks, and the block at work: how many slots it begins with, and its instructions so far.
#[derive(Drop)]
pub(crate) struct Builder {
    pub(crate) blocks: Seq<Block>,
    pub(crate) below: u64,
    pub(crate) instrs: Seq<Instr>,
}

/// A loop that a recur goes back to: its first slot, how many values it takes, and its first block.
#[derive(Clone, Copy)]
pub(crate) struct Loop {
    pub(crate) first: u64,
    pub(crate) count: u64,
    pub(crate) head: u64,
}

/// A name in scope, and its slot.
#[derive(Clone, Copy)]
pub(crate) struct Name {
    pub(crate) name: u64,
    pub(crate) slot: u64,
}

/// The sum, of slots or of blocks. Where it passes 64 bits there is no memory for them: the code has a mark for each
/// slot, and each block stands in its list.
pub(crate) fn sum(a: u64, b: u64) -> Result<u64, OutOfMemory>
    ensures { IfOk result (λ n. n ≡ a + b) }
{
    match a.checked_add(b) {
        Some(n) => Ok(n),
        None => Err(OutOfMemory),
    }
}

/// The place of a jump that is no turn.
pub(crate) fn no_place() -> Place
    ensures { result ≡ without_place }
{
    Place { line: 0, column: 0 }
}

/// The slot of the name.
pub(crate) fn slot_of(names: &[Name], name: u64) -> u64
    ensures { result ≡ slot_of (scope_view names.now) name }
{
    for known in names {
        if known.name == name {
            return known.slot;
        }
    }
    0
}

impl Builder {
    /// The number of the block at work.
    pub(crate) fn number(&self) -> u64
        ensures { result ≡ at_work (builder_view self.now) }
    {
        self.blocks.len()
    }

    /// One more instruction.
    pub(crate) fn put(&mut self, instr: Instr) -> Result<(), OutOfMemory>
        ensures { OnOk result (builder_view self.new ≡ add (instruction instr ∷ []) (builder_view self.old)) }
    {
        self.instrs.reserve(1)?;
        self.instrs.push(instr);
        Ok(())
    }

    /// A value of the text comes into the slot.
    pub(crate) fn put_constant(
        &mut self,
        alloc: Global,
        to: u64,
        value: &Value,
    ) -> Result<(), OutOfMemory>
        ensures { OnOk result (builder_view self.new ≡ add (constant to (view value.now) ∷ []) (builder_view self.old)) }
    {
        let value = value.copy(alloc)?;
        self.put(Instr::Const { to, value })
    }

    /// So many values are moved, from slots to slots.
    pub(crate) fn put_moves(&mut self, to: u64, from: u64, count: u64) -> Result<(), OutOfMemory>
        ensures { OnOk result (builder_view self.new ≡ add (moves to from count) (builder_view self.old)) }
    {
        for i in 0..count {
            self.put(Instr::Move {
                to: sum(to, i)?,
                from: sum(from, i)?,
            })?;
        }
        Ok(())
    }

    /// The block at work ends, and another begins.
    pub(crate) fn close(
        &mut self,
        alloc: Global,
        width: u64,
        exit: Exit,
        next: u64,
    ) -> Result<(), OutOfMemory>
        ensures { OnOk result (builder_view self.new ≡ close width exit next (builder_view self.old)) }
    {
        self.blocks.reserve(1)?;
        let instrs = mem::replace(&mut self.instrs, Seq::new(alloc));
        self.blocks.push(Block {
            width,
            entry: SlotSet {
                below: self.below,
                holes: Seq::new(alloc),
            },
            instrs,
            exit,
        });
        self.below = next;
        Ok(())
    }

    /// The block at work leads on to one of a greater number, which is no turn.
    pub(crate) fn jump_to(
        &mut self,
        alloc: Global,
        width: u64,
        to: u64,
        next: u64,
    ) -> Result<(), OutOfMemory>
        ensures { OnOk result (builder_view self.new ≡ close width (Jump to without_place) next (builder_view self.old)) }
    {
        let place = no_place();
        self.close(alloc, width, Exit::Jump { next: to, place }, next)
    }

    /// The block at work leads to one side of a branch or to the other, by the slot's value. The answer is the number
    /// of the block behind both.
    pub(crate) fn branch_on(
        &mut self,
        alloc: Global,
        width: u64,
        slot: u64,
        split: Split,
    ) -> Result<u64, OutOfMemory>
        ensures code { let n = at_work (builder_view self.old) in OnOk result (builder_view self.new ≡ close width (Branch slot (n + 1) (n + 1 + split.then + 1)) slot (builder_view self.old)) }
        ensures behind { let n = at_work (builder_view self.old) in IfOk result (λ m. m ≡ n + 1 + split.then + 1 + split.otherwise + 1) }
    {
        let yes = sum(self.number(), 1)?;
        let no = sum(sum(yes, split.then)?, 1)?;
        let behind = sum(sum(no, split.otherwise)?, 1)?;
        self.close(alloc, width, Exit::Branch { slot, yes, no }, slot)?;
        Ok(behind)
    }

    /// The block at work leads to the first one of a loop, which takes so many values, from a slot on.
    pub(crate) fn enter_loop(
        &mut self,
        alloc: Global,
        width: u64,
        first: u64,
        count: u64,
    ) -> Result<Loop, OutOfMemory>
        ensures code { OnOk result (builder_view self.new ≡ close width (Jump (at_work (builder_view self.old) + 1) without_place) (first + count) (builder_view self.old)) }
        ensures target { IfOk result (λ l. target_view (Some l) ≡ Some (record { first = first; count = count; head = at_work (builder_view self.old) + 1 })) }
    {
        let head = sum(self.number(), 1)?;
        self.jump_to(alloc, width, head, sum(first, count)?)?;
        Ok(Loop { first, count, head })
    }

    // A recur goes back to its loop.
    fn recur(
        &mut self,
        alloc: Global,
        width: u64,
        target: Option<Loop>,
        slot: u64,
        place: Place,
    ) -> Result<(), OutOfMemory>
        ensures { OnOk result (builder_view self.new ≡ close width (recur_exit (target_view target) place) (suc slot) (add (recur_code (target_view target) slot) (builder_view self.old))) }
    {
        let next = sum(slot, 1)?;
        match target {
            None => self.close(alloc, width, Exit::Jump { next: 0, place }, next),
            Some(inner) => {
                self.put_moves(inner.first, slot, inner.count)?;
                let head = inner.head;
                self.close(alloc, width, Exit::Jump { next: head, place }, next)
            }
        }
    }

    /// What is done with the values of so many slots, from one on; the value comes into that slot.
    pub(crate) fn finish(
        &mut self,
        alloc: Global,
        width: u64,
        target: Option<Loop>,
        head: Head,
        slot: u64,
        count: u64,
        place: Place,
    ) -> Result<(), OutOfMemory>
        ensures { OnOk result (builder_view self.new ≡ finish width (target_view target) head slot count place (builder_view self.old)) }
    {
        let next = sum(self.number(), 1)?;
        let below = sum(slot, 1)?;
        match head {
            Head::Recur => self.recur(alloc, width, target, slot, place),
            Head::Builtin(builtin) => self.put(Instr::Many {
                builtin,
                to: slot,
                from: slot,
                count,
                place,
            }),
            Head::Call(function) => self.close(
                alloc,
                width,
                Exit::Call {
                    function,
                    from: slot,
                    count,
                    answer: slot,
                    next,
                    place,
                },
                below,
            ),
            _ => self.close(
                alloc,
                width,
                Exit::Cut {
                    head,
                    from: slot,
                    count,
                    answer: slot,
                    next,
                    place,
                },
                below,
            ),
        }
    }
}
