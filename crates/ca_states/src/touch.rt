ghost use Rattle.std.specs.Prelude.{◌≡◌};
ghost use Rattle.ca_states.specs.Code.{instruction};
ghost use Rattle.ca_states.specs.Touched.{read_by, emptied_by, written_by, read_at, emptied_at, answered_at};
ghost use Rattle.ca_states.specs.Views.{slot_numbers};

use crate::code::{Exit, Instr};

/// A few numbers of slots or blocks, in order.
#[derive(Clone, Copy)]
pub enum Numbers {
    None,
    One(u64),
    Two(u64, u64),
    Three(u64, u64, u64),
    /// So many, from a first one on.
    Range { from: u64, count: u64 },
}

impl Instr {
    /// The slots that it reads.
    pub fn reads(&self) -> Numbers
        ensures { slot_numbers result ≡ read_by (instruction self.now) }
    {
        match self {
            Instr::Const { to: _, value: _ } => Numbers::None,
            Instr::Copy { to: _, from } => Numbers::One(*from),
            Instr::Move { to: _, from } => Numbers::One(*from),
            Instr::Clear { slot: _ } => Numbers::None,
            Instr::One { operand, .. } => Numbers::One(*operand),
            Instr::Two { left, right, .. } => Numbers::Two(*left, *right),
            Instr::TwoInt { left, .. } => Numbers::One(*left),
            Instr::Push {
                collection,
                item,
                ..
            } => Numbers::Two(*collection, *item),
            Instr::Put {
                collection,
                key,
                value,
                ..
            } => Numbers::Three(*collection, *key, *value),
            Instr::Many { from, count, .. } => Numbers::Range {
                from: *from,
                count: *count,
            },
        }
    }

    /// The slots that it takes values out of.
    pub fn empties(&self) -> Numbers
        ensures { slot_numbers result ≡ emptied_by (instruction self.now) }
    {
        match self {
            Instr::Move { to: _, from } => Numbers::One(*from),
            Instr::Clear { slot } => Numbers::One(*slot),
            Instr::Push { collection, .. } => Numbers::One(*collection),
            Instr::Put { collection, .. } => Numbers::One(*collection),
            Instr::Many { from, count, .. } => Numbers::Range {
                from: *from,
                count: *count,
            },
            _ => Numbers::None,
        }
    }

    /// The slot that it writes, if any.
    pub fn writes(&self) -> Numbers
        ensures { slot_numbers result ≡ written_by (instruction self.now) }
    {
        match self {
            Instr::Const { to, .. } => Numbers::One(*to),
            Instr::Copy { to, .. } => Numbers::One(*to),
            Instr::Move { to, .. } => Numbers::One(*to),
            Instr::Clear { .. } => Numbers::None,
            Instr::One { to, .. } => Numbers::One(*to),
            Instr::Two { to, .. } => Numbers::One(*to),
            Instr::TwoInt { to, .. } => Numbers::One(*to),
            Instr::Push { to, .. } => Numbers::One(*to),
            Instr::Put { to, .. } => Numbers::One(*to),
            Instr::Many { to, .. } => Numbers::One(*to),
        }
    }
}

impl Exit {
    /// The slots that it reads.
    pub fn reads(&self) -> Numbers
        ensures { slot_numbers result ≡ read_at self.now }
    {
        match self {
            Exit::Jump { .. } => Numbers::None,
            Exit::Branch { slot, .. } => Numbers::One(*slot),
            Exit::Test { left, right, .. } => Numbers::Two(*left, *right),
            Exit::TestInt { left, .. } => Numbers::One(*left),
            Exit::Call { from, count, .. } => Numbers::Range {
                from: *from,
                count: *count,
            },
            Exit::Return { slot } => Numbers::One(*slot),
            Exit::Cut { from, count, .. } => Numbers::Range {
                from: *from,
                count: *count,
            },
        }
    }

    /// The slots that it takes values out of, or that are unknown behind it for another reason: a test's.
    pub fn empties(&self) -> Numbers
        ensures { slot_numbers result ≡ emptied_at self.now }
    {
        match self {
            Exit::Test { to, .. } => Numbers::One(*to),
            Exit::TestInt { to, .. } => Numbers::One(*to),
            Exit::Call { from, count, .. } => Numbers::Range {
                from: *from,
                count: *count,
            },
            Exit::Cut { from, count, .. } => Numbers::Range {
                from: *from,
                count: *count,
            },
            _ => Numbers::None,
        }
    }

    /// The slot that the value of its call or the answer to its operation comes into.
    pub fn answers(&self) -> Numbers
        ensures { slot_numbers result ≡ answered_at self.now }
    {
        match self {
            Exit::Call { answer, .. } => Numbers::One(*answer),
            Exit::Cut { answer, .. } => Numbers::One(*answer),
            _ => Numbers::None,
        }
    }
}
