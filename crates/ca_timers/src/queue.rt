//! The open deadlines in their order: the earlier ones in a tree, and behind it a row of those that came in order.
//!
//! A deadline that no other stands behind joins the row. Another one goes into the tree, after those of the row that
//! stand before it; so each deadline goes into the tree once at most.

ghost use Rattle.std.specs.Prelude.{◌≡◌, ◌+◌, ◌^◌, ◌<◌, ◌≤◌, [], ◌++◌, ◌∷◌, drop, true, length, map, slice_get, option_map, vec_len, vec_capacity, OnOk, IfNone, IfSome};
ghost use Rattle.std.specs.VecDeque.{deque_len, deque_capacity};
ghost use Rattle.ca_value.specs.Deadlines.{opened};
ghost use Rattle.ca_timers.specs.Timers.{deadline_view, AreOrdered, IsInFront};

use crate::deadline::OpenDeadline;
use crate::tree::{Node, Tree};
use ca_value::memory::OutOfMemory;
use ca_value::value::PortId;
use std::alloc::Global;
use std::collections::VecDeque;
use std::marker::Model;

/// Deadlines in the order in which they are due.
#[derive(Drop)]
pub(crate) struct DeadlineQueue {
    tree: Tree,
    row: VecDeque<OpenDeadline>,
    // A node for each deadline to come and for each of the row. Those of the tree have a place here too, for when they
    // leave it.
    unused: Vec<Box<Node>>,
    alloc: Global,
}

impl Model for DeadlineQueue {
    ghost use Rattle.ca_timers.specs.Queue.{QueueView};

    ghost Value = { QueueView };

    ghost use Rattle.ca_timers.specs.Queued.{queue_view, IsQueue};

    ghost view = { λ q. queue_view q };

    ghost invariant = { λ q. IsQueue q };
}

impl DeadlineQueue {
    /// No deadline, and no memory.
    pub(crate) fn new(alloc: Global) -> DeadlineQueue
        ensures { result.deadlines ≡ [] }
    {
        DeadlineQueue {
            tree: Tree::new(),
            row: VecDeque::new(alloc),
            unused: Vec::new(alloc),
            alloc,
        }
    }

    /// Makes room for one more deadline, and changes nothing else.
    pub(crate) fn reserve(&mut self) -> Result<(), OutOfMemory>
        ensures spare { OnOk result (0 < self.new.spare) }
        ensures kept { self.old.spare ≤ self.new.spare }
        ensures deadlines { self.new.deadlines ≡ self.old.deadlines }
    {
        if self.unused.len() == self.row.len() {
            let more = self.tree.count() as usize + 1;
            self.unused.reserve(more)?;
            self.row.reserve(more)?;
            let nothing = OpenDeadline {
                moment: 0,
                port: PortId { n: 0 },
            };
            let node = Box::new(self.alloc, Node::new(nothing))?;
            self.unused.push(node)?;
        }
        Ok(())
    }

    /// The deadline at the place, from 0, or None past the last one.
    pub(crate) fn get(&self, place: u64) -> Option<OpenDeadline>
        ensures deadline { option_map deadline_view result ≡ slice_get self.now.deadlines place }
        ensures ordered { AreOrdered self.now.deadlines }
    {
        let count = self.tree.count();
        if place < count {
            return self.tree.get(place);
        }
        match self.row.get((place - count) as usize) {
            Some(deadline) => Some(*deadline),
            None => None,
        }
    }

    // Whether none stands behind that deadline.
    fn stands_last(&self, deadline: OpenDeadline) -> bool
        ensures { result ≡ true → opened (deadline_view deadline) self.now.deadlines ≡ self.now.deadlines ++ deadline_view deadline ∷ [] }
    {
        let count = self.tree.count() + self.row.len() as u64;
        match self.get(count.saturating_sub(1)) {
            Some(last) => !deadline.is_before(&last),
            None => true,
        }
    }

    /// Opens a deadline.
    pub(crate) fn insert(&mut self, deadline: OpenDeadline)
        requires { 0 < self.old.spare }
        ensures opened { self.new.deadlines ≡ opened (deadline_view deadline) self.old.deadlines }
        ensures spare { self.old.spare ≤ self.new.spare + 1 }
    {
        if self.stands_last(deadline) {
            self.row.push_back_reserved(deadline);
        } else {
            pour(&mut self.row, &mut self.tree, &mut self.unused, deadline);
            stow(&mut self.tree, &mut self.unused, deadline);
        }
    }

    /// Takes the first deadline out, if there is one.
    pub(crate) fn drop_first(&mut self)
        ensures deadlines { self.new.deadlines ≡ drop 1 self.old.deadlines }
        ensures spare { self.old.spare ≤ self.new.spare }
    {
        if self.tree.count() == 0 {
            let _ = self.row.pop_front();
        } else if let Some(node) = self.tree.take_first() {
            match self.unused.push(node) {
                Ok(()) => {}
                Err(_) => unreachable!(),
            }
        }
    }
}

// Puts a deadline into the tree.
fn stow(tree: &mut Tree, unused: &mut Vec<Box<Node>>, deadline: OpenDeadline)
    requires ordered { AreOrdered tree.old.deadlines }
    requires room { length tree.old.deadlines + 1 < 2 ^ 64 }
    requires node { 0 < vec_len unused.old }
    ensures opened { tree.new.deadlines ≡ opened (deadline_view deadline) tree.old.deadlines }
    ensures unused { vec_len unused.new + 1 ≡ vec_len unused.old }
    ensures capacity { vec_capacity unused.new ≡ vec_capacity unused.old }
{
    let Some(mut node) = unused.pop() else {
        unreachable!()
    };
    *node = Node::new(deadline);
    tree.insert(node);
}

// Puts those of the row into the tree that the deadline doesn't stand before.
fn pour(
    row: &mut VecDeque<OpenDeadline>,
    tree: &mut Tree,
    unused: &mut Vec<Box<Node>>,
    deadline: OpenDeadline,
)
    requires ordered { AreOrdered (tree.old.deadlines ++ map deadline_view row.old.items) }
    requires room { length tree.old.deadlines + deque_len row.old + 1 < 2 ^ 64 }
    requires nodes { deque_len row.old ≤ vec_len unused.old }
    ensures same { tree.new.deadlines ++ map deadline_view row.new.items ≡ tree.old.deadlines ++ map deadline_view row.old.items }
    ensures front { IsInFront (deadline_view deadline) (map deadline_view row.new.items) }
    ensures unused { vec_len unused.new + deque_len row.old ≡ vec_len unused.old + deque_len row.new }
    ensures capacity { vec_capacity unused.new ≡ vec_capacity unused.old }
    ensures row { deque_capacity row.new ≡ deque_capacity row.old }
{
    while let Some(first) = pop_early(row, deadline) {
        stow(tree, unused, first);
    }
}

// Takes the first one of the row out, unless the deadline stands before it.
fn pop_early(row: &mut VecDeque<OpenDeadline>, deadline: OpenDeadline) -> Option<OpenDeadline>
    ensures popped { IfSome result (λ first. map deadline_view row.old.items ≡ deadline_view first ∷ map deadline_view row.new.items) }
    ensures len { IfSome result (λ _. deque_len row.new + 1 ≡ deque_len row.old) }
    ensures front { IfNone result (IsInFront (deadline_view deadline) (map deadline_view row.old.items)) }
    ensures none { IfNone result (row.new.items ≡ row.old.items) }
    ensures capacity { deque_capacity row.new ≡ deque_capacity row.old }
{
    let first = row.front()?;
    if deadline.is_before(first) {
        return None;
    }
    row.pop_front()
}
