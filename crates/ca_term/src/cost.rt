ghost use Rattle.std.specs.Prelude.{◌≡◌, ◌<◌, ◌^◌};
ghost use Rattle.ca_value.specs.Measure.{weight_of_items};
ghost use Rattle.ca_value.specs.Seq.{list};
ghost use Rattle.ca_value.specs.View.{trees, view};
ghost use Rattle.ca_term.specs.Event.{branch_view, event_view};
ghost use Rattle.ca_term.specs.Cost.{cost_of, weight_shown, weight_of_branches, weight_done};
ghost use Rattle.std.specs.Prelude.{map};

use crate::event::{Branch, Event};
use ca_value::seq::Seq;
use ca_value::value::{Items, Value};

impl Event {
    /// What the event costs of a run's budget: 1, and 1 more for each 16 of the weight of the values that
    /// its journal line shows.
    pub fn cost(&self) -> u64
        requires { weight_shown (event_view self.now) < 2 ^ 64 }
        ensures { result ≡ cost_of (event_view self.now) }
    {
        1 + self.shown_weight() / 16
    }

    // The weight of the values that the event's line shows; a line of output is a text.
    fn shown_weight(&self) -> u64
        requires { weight_shown (event_view self.now) < 2 ^ 64 }
        ensures { result ≡ weight_shown (event_view self.now) }
    {
        match self {
            Event::Done {
                operation,
                answer,
                ..
            } => done_weight(operation, answer),
            Event::Meet { value, .. } => value.weight(),
            Event::Park { branches, .. } => branches_weight(branches),
            Event::Post { value, .. } => value.weight(),
            Event::Settle { value, .. } => value.weight(),
            Event::Default { value, .. } => value.weight(),
            Event::Register {
                arguments,
                answer,
                ..
            } => items_weight(arguments) + answer.weight(),
            Event::Print { line, .. } => line.len() + 1,
            Event::Make { .. } | Event::Spawn { .. } | Event::Close { .. } => 0,
            Event::Tick { .. } | Event::End { .. } => 0,
        }
    }
}

// At a put the value is shown, at a take the answer.
fn done_weight(operation: &Branch, answer: &Value) -> u64
    requires { weight_done (branch_view operation.now) (view answer.now) < 2 ^ 64 }
    ensures { result ≡ weight_done (branch_view operation.now) (view answer.now) }
{
    match operation {
        Branch::Take(_) => answer.weight(),
        Branch::Put(_, value) => value.weight(),
    }
}

// Of the branches only the values that are put.
fn branches_weight(branches: &Seq<Branch>) -> u64
    requires { weight_of_branches (map branch_view (list branches.now)) < 2 ^ 64 }
    ensures { result ≡ weight_of_branches (map branch_view (list branches.now)) }
{
    let mut total = 0;
    for branch in branches.as_slice() {
        if let Branch::Put(_, value) = branch {
            total += value.weight();
        }
    }
    total
}

// The weights of the values together.
fn items_weight(items: &Items) -> u64
    requires { weight_of_items (trees (list items.now)) < 2 ^ 64 }
    ensures { result ≡ weight_of_items (trees (list items.now)) }
{
    let mut total = 0;
    for value in items.as_slice() {
        total += value.weight();
    }
    total
}
