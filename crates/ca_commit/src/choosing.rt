//! Which branch of an alts decides, by what is seen in the channels alone: nothing is copied before that is known.

ghost use Rattle.std.specs.Prelude.{◌≡◌, ◌<◌, ◌≤◌, ℕ, drop, length, option_map, true};
ghost use Rattle.ca_value.specs.View.{view};
ghost use Rattle.ca_meaning.specs.BodyViews.{is_at_op};
ghost use Rattle.ca_meaning.specs.Choice.{branches_of};
ghost use Rattle.ca_commit.specs.Branching.{branch_by, branches_in};
ghost use Rattle.ca_commit.specs.Choosing.{ChoosesAs, IsChosen, IsSeenAt};
ghost use Rattle.ca_commit.specs.Finding.{Glance};
ghost use Rattle.ca_commit.specs.Planning.{found_of, first_from, in_turn};
ghost use Rattle.ca_commit.specs.Showing.{seen_by};
ghost use Rattle.ca_commit.specs.Sights.{found_by};
ghost use Rattle.ca_commit.specs.Standing.{nth_branch, op_at};

use crate::branching::parts_of;
use crate::held::Banks;
use crate::planning::first_number;
use crate::sight::{Sight, put_sight, take_sight};
use ca_agent::agent::Agent;
use ca_registry::fit::bad_choice;
use ca_term::operation::Op;
use ca_value::value::{PortId, Value};

/// What is seen of the branches of an alts, each in its channel.
#[derive(Clone, Copy)]
pub enum Choice {
    /// None is ready.
    Unready,
    /// This is the first that isn't unready: it is done at once, or meets the one in front, if that one's wait lives.
    Branch(u64, Sight),
    /// `plan` is to decide: a put hangs on one that waits before it, or the operands aren't right.
    Asks,
}

// What is seen of a branch; of what is no channel here, that it isn't ready.
fn seen_of(banks: &Banks, port: PortId, value: Option<&Value>) -> Sight
    ensures { (see : ℕ → Glance) → found_by result see ≡ found_of (seen_by banks.now see) (branch_by port.n (option_map (λ v. view v.now) value.entry)) }
{
    match banks.get(port.n % 16) {
        Some(held) => match held.bank.room(port) {
            Some(room) => match value {
                Some(_) => put_sight(room),
                None => take_sight(room),
            },
            None => Sight::Crowded,
        },
        None => Sight::Crowded,
    }
}

// The same of the port at that place of an alts.
#[tactic(auto, using(crate::proofs::InPlace::nth_is))]
fn look(banks: &Banks, ports: &[Value], place: usize) -> Sight
    requires { place < length ports.now }
    ensures { (see : ℕ → Glance) → found_by result see ≡ found_of (seen_by banks.now see) (nth_branch (branches_in ports.now) place) }
{
    let nil = Value::Nil;
    let (port, value) = parts_of(&ports[place], &nil);
    seen_of(banks, port, value)
}

// The branches from that number on.
fn in_turn(banks: &Banks, ports: &[Value], from: usize) -> Choice
    requires { from ≤ length ports.now }
    ensures choice { ChoosesAs (branches_in ports.now) (λ see rest. in_turn (seen_by banks.now see) true from (branches_in (drop from ports.now)) rest) result }
    ensures there { IsSeenAt banks.now (branches_in ports.now) result }
{
    for place in from..ports.len() {
        let sight = look(banks, ports, place);
        match sight {
            Sight::Unready | Sight::Crowded => {}
            Sight::Alone | Sight::Meets(_, _) => return Choice::Branch(place as u64, sight),
            Sight::Rivals(_) => return Choice::Asks,
        }
    }
    Choice::Unready
}

// The branches from that number on, and then those before it.
fn from_number(banks: &Banks, ports: &[Value], at: usize) -> Choice
    requires { at ≤ length ports.now }
    ensures choice { ChoosesAs (branches_in ports.now) (λ see rest. first_from (seen_by banks.now see) true at (branches_in ports.now) rest) result }
    ensures there { IsSeenAt banks.now (branches_in ports.now) result }
{
    match in_turn(banks, ports, at) {
        Choice::Unready => in_turn(banks, &ports[..at], 0),
        Choice::Branch(number, sight) => Choice::Branch(number, sight),
        Choice::Asks => Choice::Asks,
    }
}

/// Which branch decides of the alts at which the agent stands, its branches being looked at from number `start` on,
/// cyclically, or from 0 with priority. A port whose bank isn't among these counts as none.
pub fn choose<A: Agent>(banks: &Banks, agent: &A, start: u64) -> Choice
    requires { is_at_op (A.place agent.now) ≡ true }
    ensures chosen { IsChosen banks.now (A.place agent.now) start result }
    ensures there { IsSeenAt banks.now (branches_of (op_at (A.place agent.now))) result }
{
    match &agent.want().op {
        Op::Alts {
            ports,
            priority,
            ..
        } => {
            let items = ports.as_slice();
            match bad_choice(banks, items) {
                Some(_) => Choice::Asks,
                None => {
                    let at = first_number(*priority, start, items.len());
                    from_number(banks, items, at)
                }
            }
        }
        _ => Choice::Asks,
    }
}
