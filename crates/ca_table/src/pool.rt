use crate::drawn::Drawn;
use crate::part::Part;
use ca_agent::agent::Agent;
use ca_timers::clock::Clock;
use ca_turns::Object;
use std::marker::{Model, PhantomData};

/// What a contract of the table sees of a part. No value of it is made.
pub struct Seen<A> {
    agents: PhantomData<A>,
}

impl<A> Model for Seen<A> {
    ghost use Rattle.std.specs.Coded.{codes, coded_ℕ};
    ghost use Rattle.std.specs.FinMap.{code};
    ghost use Rattle.ca_value.specs.Code.{coded_tree};
    ghost use Rattle.ca_term.specs.contracts.term.Term as term_row;
    ghost use Rattle.ca_table.specs.Seen.{PartSeen, nothing_seen};

    ghost Value = { PartSeen A };

    ghost coded = { Prim.hlevel (codes, code, coded_ℕ, coded_tree, term_row.the_row.coded) };

    ghost view = { λ s. nothing_seen };
}

/// A run as an object in parts: what they have in them, and how its events move them.
pub struct Pool<A, C> {
    workers: PhantomData<(A, C)>,
}

impl<A: Agent, C: Clock + Drop> Object for Pool<A, C> {
    type Part = Part<A, C>;

    type Content = Seen<A>;

    type Event = Drawn;

    ghost use Rattle.ca_table.specs.Parts.{part_seen};
    ghost use Rattle.ca_table.specs.Draws.{drawn_allows, drawn_apart, drawn_moves, drawn_touches};

    ghost content = { part_seen C.least C.faults C.readings };

    ghost touches = { drawn_touches };

    ghost moves = { drawn_moves A.over A.place A.advances A.gives A.starts };

    ghost allows = { drawn_allows };

    ghost distinct = { drawn_apart };
}
