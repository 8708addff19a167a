ghost use Rattle.std.specs.Prelude.{ℕ, List};
ghost use Rattle.ca_turns.specs.Places.{IsDistinct};

/// What the parts are, and what the events do to them.
///
/// An event depends on the parts that it touches alone: `moves` is given their contents and no others.
pub trait Object {
    type Part: Drop;

    /// What a contract sees of a part: plain data, with no spare room in it. No value of it is made.
    type Content;

    type Event;

    ghost content: { Self.Part → Self.Content };

    // The numbers of the parts that an event touches.
    ghost touches: { Self.Event → List ℕ };

    // When an event moves the contents of the touched parts, in that order, to new ones.
    ghost moves: { Self.Event → List Self.Content → List Self.Content → Type 0 };

    // Which other parts a hand may hold while it draws an event.
    ghost allows: { Self.Event → ℕ → Type 0 };

    // An event touches no part twice.
    ghost distinct: { (e : Self.Event) → IsDistinct (touches e) };
}
