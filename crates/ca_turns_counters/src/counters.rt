use ca_turns::Object;

/// A row of counters.
pub struct Counters;

/// Adds 1 to one counter, or to it and the next.
#[derive(Drop)]
pub enum Event {
    One(u64),
    Pair(u64),
}

impl Object for Counters {
    type Part = u64;

    type Content = u64;

    type Event = Event;

    ghost use Rattle.ca_turns_counters.specs.Adding.{counters_added, Adds};
    ghost use Rattle.ca_turns_counters.specs.Apart.{added_distinct};

    ghost content = { λ n. n };

    ghost touches = { counters_added };

    ghost moves = { Adds };

    ghost allows = { λ _ _. Unit {0} };

    ghost distinct = { added_distinct };
}
