ghost use Rattle.ca_turns.specs.Steps.{OneHistoryIsOneRun};

use crate::object::Object;
use atomic_table::{Join, Play, Split, TableRule};
use crossbeam_utils::CachePadded;
use std::collections::LinkedList;
use std::marker::{Brand, PhantomData};
use std::snapshot::Snapshot;

/// A drawn event, with the contents of the parts that it touches before it and after it, in the
/// order in which the object names the parts. No value of it is made.
pub struct Turn<C, E> {
    pub number: u64,
    pub event: E,
    pub before: LinkedList<C>,
    pub after: LinkedList<C>,
}

/// What a hand knows. No value of it is made.
pub struct View<C, E> {
    // The contents of the parts and the number of hands that the table was opened with.
    pub opening: LinkedList<C>,
    pub hands: u64,
    // For each part that the hand has, its content as last settled.
    pub held: LinkedList<Option<C>>,
    // The events that it drew.
    pub turns: LinkedList<Turn<C, E>>,
    // The numbers of the hands that it stands for.
    pub stands_for: LinkedList<u64>,
    // The parts that it found held, the latest first.
    pub missed: LinkedList<u64>,
}

/// What the table was opened with.
#[derive(Drop)]
pub struct Start<P> {
    pub parts: Snapshot<Vec<P>>,
    pub hands: u64,
}

/// The one-history rule, under which a table of this object stands.
pub struct Turns<O> {
    object: PhantomData<O>,
}

/// What stands in a slot of the table, with nothing else on its lines of the cache.
pub type Slot<P> = CachePadded<Option<P>>;

impl<O: Object> TableRule<Slot<O::Part>, View<O::Content, O::Event>, Start<O::Part>> for Turns<O> {
    ghost use Rattle.std.specs.Prelude.{map};
    ghost use Rattle.ca_turns.specs.Lines.{InLines};
    ghost use Rattle.ca_turns.specs.OneHistory.{OneHistory};
    ghost use Rattle.ca_turns.specs.Views.{first_view};

    ghost holds = { λ k. InLines (OneHistory O.content O.touches O.moves (map O.content k.parts.value.items) k.hands) };

    ghost first = { λ k. first_view (map O.content k.parts.value.items) k.hands };
}

/// The law of the one-history rule: where it holds, all turns of all hands, in the order of their
/// numbers, are one run of the object from the opening parts, and each part's content, at home or as
/// last settled in its hand, is what the last turn that touches it left.
pub fn history_is_one_run<O: Object>()
    ensures { OneHistoryIsOneRun O.content O.touches O.moves }
{}

pub(crate) struct Take<O> {
    object: PhantomData<O>,
}

impl<O: Object> Play<Slot<O::Part>, View<O::Content, O::Event>> for Take<O> {
    ghost use Rattle.ca_turns.specs.Lines.{in_lines};
    ghost use Rattle.ca_turns.specs.Steps.{tried};

    ghost then = { in_lines (tried O.content O.touches O.moves) };
}

pub(crate) struct Free;

impl<P, C, E> Play<Slot<P>, View<C, E>> for Free {
    ghost use Rattle.ca_turns.specs.Lines.{in_lines};
    ghost use Rattle.ca_turns.specs.Steps.{freed};

    ghost then = { in_lines freed };
}

pub(crate) struct ToFront;

impl<P, C, E> Play<Slot<P>, View<C, E>> for ToFront {
    ghost use Rattle.ca_turns.specs.Lines.{in_lines};
    ghost use Rattle.ca_turns.specs.Steps.{fronted};

    ghost then = { in_lines fronted };
}

pub(crate) struct Short;

impl<P, C, E> Play<Slot<P>, View<C, E>> for Short {
    ghost use Rattle.ca_turns.specs.Lines.{in_lines};
    ghost use Rattle.ca_turns.specs.Steps.{told_short};

    ghost then = { in_lines told_short };
}

pub(crate) struct OneOff;

impl<C, E> Split<View<C, E>> for OneOff {
    ghost use Rattle.ca_turns.specs.Views.{left_view, right_view};

    ghost left = { left_view };

    ghost right = { right_view };
}

pub(crate) struct AsOne;

impl<C, E> Join<View<C, E>> for AsOne {
    ghost use Rattle.ca_turns.specs.Views.{both_views, spent_view};

    ghost both = { both_views };

    ghost spent = { spent_view };
}

// The turn that a draw will add, at number 0, for the proof alone. A call at `Brand` picks it.
pub(crate) trait Drawing<C, E> {
    ghost use Rattle.std.specs.Prelude.{List};
    ghost use Rattle.ca_turns.specs.declared.rule.Turn.{Turn};

    ghost turns: { List (Turn C E) };
}

impl<C, E> Drawing<C, E> for Brand {
    ghost use Rattle.std.specs.Prelude.{[]};

    ghost turns = { [] };
}

pub(crate) struct Draw<O, J> {
    object: PhantomData<(O, J)>,
}

impl<O: Object, J: Drawing<O::Content, O::Event>> Play<Slot<O::Part>, View<O::Content, O::Event>>
    for Draw<O, J> {
    ghost use Rattle.ca_turns.specs.Lines.{in_lines};
    ghost use Rattle.ca_turns.specs.Steps.{drew};

    ghost then = { in_lines (drew O.touches J.turns) };
}
