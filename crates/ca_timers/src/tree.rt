ghost use Rattle.std.specs.Prelude.{◌≡◌, ◌+◌, ◌^◌, ◌<◌, ◌≤◌, [], ◌++◌, ◌∷◌, length, max, slice_get, option_map, IfSome, IfNone};
ghost use Rattle.ca_value.specs.Deadlines.{opened};
ghost use Rattle.ca_timers.specs.Timers.{deadline_view, AreOrdered};
ghost use Rattle.ca_timers.specs.Nodes.{node_deadlines, DifferByAtMost, Rebalances};

use crate::deadline::OpenDeadline;
use std::marker::Model;
use std::mem;

/// Deadlines in a row, as a balanced tree: the two sides of a node differ by one level at most.
///
/// The height and the count stand beside the link and not in the node, so that a node is joined with its
/// sides without a look at their nodes.
#[cycle(tree)]
#[derive(Drop)]
pub(crate) struct Tree {
    root: Root,
    height: u64,
    count: u64,
}

#[cycle(tree)]
#[derive(Drop)]
enum Root {
    Empty,
    Fork(Box<Node>),
}

/// A deadline, with those before it and those behind it.
#[cycle(tree)]
#[derive(Drop)]
pub(crate) struct Node {
    before: Tree,
    deadline: OpenDeadline,
    behind: Tree,
}

impl Model for Tree {
    ghost use Rattle.ca_timers.specs.Tree.{TreeView};

    ghost Value = { TreeView };

    ghost use Rattle.ca_timers.specs.Nodes.{tree_view, IsTree};

    ghost view = { λ t. tree_view t };

    ghost invariant = { λ t. IsTree t };

    ghost use Rattle.std.specs.Prelude.{length};

    ghost size = { λ t. length t.deadlines };

    ghost use Rattle.std.proofs.Common.{arith, length-append};

    ghost size_decreases = { λ t h. Prim.grind (arith, length-append) };
}

impl Node {
    /// A deadline alone.
    pub(crate) fn new(deadline: OpenDeadline) -> Node
        ensures { result.deadline ≡ deadline }
    {
        Node {
            before: Tree::new(),
            deadline,
            behind: Tree::new(),
        }
    }

    // Its sides; it keeps none.
    fn take_sides(&mut self) -> (Tree, Tree)
        ensures before { result.0 ≡ self.old.before }
        ensures behind { result.1 ≡ self.old.behind }
        ensures deadline { self.new.deadline ≡ self.old.deadline }
    {
        let before = mem::replace(&mut self.before, Tree::new());
        let behind = mem::replace(&mut self.behind, Tree::new());
        (before, behind)
    }
}

// The tree of a node between two sides whose heights differ by one at most.
fn joined(before: Tree, mut node: Box<Node>, behind: Tree) -> Tree
    requires balanced { DifferByAtMost 1 before.height behind.height }
    requires room { length before.deadlines + length behind.deadlines + 1 < 2 ^ 64 }
    ensures deadlines { result.deadlines ≡ before.deadlines ++ deadline_view node.value.deadline ∷ behind.deadlines }
    ensures height { result.height ≡ max before.height behind.height + 1 }
{
    let height = before.height.max(behind.height) + 1;
    let count = before.count + 1 + behind.count;
    node.before = before;
    node.behind = behind;
    Tree {
        root: Root::Fork(node),
        height,
        count,
    }
}

// The same where the side before is two levels higher.
fn lean_left(before: Tree, node: Box<Node>, behind: Tree) -> Tree
    requires two_higher { before.height ≡ behind.height + 2 }
    requires room { length before.deadlines + length behind.deadlines + 1 < 2 ^ 64 }
    ensures deadlines { result.deadlines ≡ before.deadlines ++ deadline_view node.value.deadline ∷ behind.deadlines }
    ensures not_lower { before.height ≤ result.height }
    ensures at_most_one_higher { result.height ≤ before.height + 1 }
{
    let Root::Fork(mut left) = before.root else {
        unreachable!()
    };
    let (first, second) = left.take_sides();
    if first.height >= second.height {
        return joined(first, left, joined(second, node, behind));
    }
    let Root::Fork(mut middle) = second.root else {
        unreachable!()
    };
    let (second, third) = middle.take_sides();
    let left = joined(first, left, second);
    let right = joined(third, node, behind);
    joined(left, middle, right)
}

// The same where the side behind is two levels higher.
fn lean_right(before: Tree, node: Box<Node>, behind: Tree) -> Tree
    requires two_higher { behind.height ≡ before.height + 2 }
    requires room { length before.deadlines + length behind.deadlines + 1 < 2 ^ 64 }
    ensures deadlines { result.deadlines ≡ before.deadlines ++ deadline_view node.value.deadline ∷ behind.deadlines }
    ensures not_lower { behind.height ≤ result.height }
    ensures at_most_one_higher { result.height ≤ behind.height + 1 }
{
    let Root::Fork(mut right) = behind.root else {
        unreachable!()
    };
    let (third, fourth) = right.take_sides();
    if fourth.height >= third.height {
        return joined(joined(before, node, third), right, fourth);
    }
    let Root::Fork(mut middle) = third.root else {
        unreachable!()
    };
    let (second, third) = middle.take_sides();
    let left = joined(before, node, second);
    let right = joined(third, right, fourth);
    joined(left, middle, right)
}

// The same where the heights differ by two.
#[inline(never)]
fn rotated(mut node: Box<Node>) -> Tree
    requires near { DifferByAtMost 2 node.value.before.height node.value.behind.height }
    requires apart { ¬ DifferByAtMost 1 node.value.before.height node.value.behind.height }
    requires room { length (node_deadlines node.value) < 2 ^ 64 }
    ensures deadlines { result.deadlines ≡ node_deadlines node.value }
    ensures height { Rebalances node.value.before.height node.value.behind.height result.height }
{
    let (before, behind) = node.take_sides();
    if before.height > behind.height {
        lean_left(before, node, behind)
    } else {
        lean_right(before, node, behind)
    }
}

// The tree of a node whose sides have changed by one deadline, balanced again.
fn settled(node: Box<Node>) -> Tree
    requires near { DifferByAtMost 2 node.value.before.height node.value.behind.height }
    requires room { length (node_deadlines node.value) < 2 ^ 64 }
    ensures deadlines { result.deadlines ≡ node_deadlines node.value }
    ensures height { Rebalances node.value.before.height node.value.behind.height result.height }
{
    let (before, behind) = (node.before.height, node.behind.height);
    if before > behind + 1 || behind > before + 1 {
        return rotated(node);
    }
    let count = node.before.count + 1 + node.behind.count;
    Tree {
        root: Root::Fork(node),
        height: before.max(behind) + 1,
        count,
    }
}

impl Tree {
    /// No deadline.
    pub(crate) fn new() -> Tree
        ensures deadlines { result.deadlines ≡ [] }
        ensures height { result.height ≡ 0 }
    {
        Tree {
            root: Root::Empty,
            height: 0,
            count: 0,
        }
    }

    /// How many deadlines there are.
    pub(crate) fn count(&self) -> u64
        ensures { result ≡ length self.now.deadlines }
    {
        self.count
    }

    /// The deadline at the place, from 0, or None past the last one.
    pub(crate) fn get(&self, place: u64) -> Option<OpenDeadline>
        ensures { option_map deadline_view result ≡ slice_get self.now.deadlines place }
    {
        let Root::Fork(node) = &self.root else {
            return None;
        };
        let before = node.before.count();
        if place < before {
            node.before.get(place)
        } else if place == before {
            Some(node.deadline)
        } else {
            node.behind.get(place - before - 1)
        }
    }

    /// Opens the node's deadline among the others.
    pub(crate) fn insert(&mut self, new: Box<Node>)
        requires ordered { AreOrdered self.old.deadlines }
        requires room { length self.old.deadlines + 1 < 2 ^ 64 }
        ensures opened { self.new.deadlines ≡ opened (deadline_view new.value.deadline) self.old.deadlines }
        ensures not_lower { self.old.height ≤ self.new.height }
        ensures at_most_one_higher { self.new.height ≤ self.old.height + 1 }
    {
        let Root::Fork(mut node) = mem::replace(&mut self.root, Root::Empty) else {
            *self = joined(Tree::new(), new, Tree::new());
            return;
        };
        if new.deadline.is_before(&node.deadline) {
            node.before.insert(new);
        } else {
            node.behind.insert(new);
        }
        *self = settled(node);
    }

    /// Takes the first deadline out, with its node; None where there is none.
    pub(crate) fn take_first(&mut self) -> Option<Box<Node>>
        requires { length self.old.deadlines < 2 ^ 64 }
        ensures none { IfNone result ((self.old.deadlines ≡ []) × (self.old.height ≡ 0)) }
        ensures first { IfSome result (λ n. self.old.deadlines ≡ deadline_view n.value.deadline ∷ self.new.deadlines) }
        ensures not_higher { self.new.height ≤ self.old.height }
        ensures at_most_one_lower { self.old.height ≤ self.new.height + 1 }
    {
        let Root::Fork(mut node) = mem::replace(&mut self.root, Root::Empty) else {
            return None;
        };
        match node.before.take_first() {
            Some(first) => {
                *self = settled(node);
                Some(first)
            }
            None => {
                *self = mem::replace(&mut node.behind, Tree::new());
                Some(node)
            }
        }
    }
}
