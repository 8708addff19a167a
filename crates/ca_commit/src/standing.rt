//! What a task stands at, read where the task lies: nothing of it is handed over, and so no clause ties a copy to it.

ghost use Rattle.std.specs.Prelude.{◌≡◌, ◌<◌, IfOk, length, option_map, true};
ghost use Rattle.ca_value.specs.View.{view};
ghost use Rattle.ca_term.specs.Event.{branch_view};
ghost use Rattle.ca_meaning.specs.BodyViews.{is_at_op};
ghost use Rattle.ca_meaning.specs.Choice.{parks};
ghost use Rattle.ca_meaning.specs.Wait.{port_of};
ghost use Rattle.ca_commit.specs.Branching.{branch_by, branches_in};
ghost use Rattle.ca_commit.specs.Standing.{IsAtBranch, IsAtOne, branch_no, is_alts_at, nth_branch, op_at};

use crate::branching::{branch, parts_of};
use ca_agent::agent::Agent;
use ca_asking::operands::port_of;
use ca_term::event::Branch;
use ca_term::operation::Op;
use ca_value::memory::OutOfMemory;
use ca_value::value::{PortId, Value};
use std::alloc::Global;

/// Whether the agent is paused at an alts.
pub(crate) fn is_alts<A: Agent>(agent: &A) -> bool
    requires { is_at_op (A.place agent.now) ≡ true }
    ensures { result ≡ is_alts_at (A.place agent.now) }
{
    match &agent.want().op {
        Op::Alts { .. } => true,
        _ => false,
    }
}

/// Whether the task itself waits where nothing is ready: not at a put that it posts.
pub fn parks<A: Agent>(agent: &A) -> bool
    requires { IsAtOne (A.place agent.now) }
    ensures { result ≡ parks (op_at (A.place agent.now)) }
{
    match &agent.want().op {
        Op::Take(_) | Op::Put(_, _) => true,
        _ => false,
    }
}

// The branch of that number among the ports of an alts.
#[tactic(auto, using(crate::proofs::InPlace::nth_is))]
fn port_branch(alloc: Global, ports: &[Value], number: u64) -> Result<Branch, OutOfMemory>
    requires { number < length ports.now }
    ensures { IfOk result (λ b. branch_view b ≡ nth_branch (branches_in ports.now) number) }
{
    let nil = Value::Nil;
    let (port, value) = parts_of(&ports[number as usize], &nil);
    branch(alloc, port, value)
}

/// The branch of that number of the operation at which the agent stands.
#[tactic(auto, using(crate::proofs::InPlace::only_one, crate::proofs::InPlace::within_ports, crate::proofs::InPlace::branch_is))]
pub(crate) fn branch_of<A: Agent>(
    alloc: Global,
    agent: &A,
    number: u64,
) -> Result<Branch, OutOfMemory>
    requires { IsAtBranch (A.place agent.now) number }
    ensures { IfOk result (λ b. branch_view b ≡ branch_no (A.place agent.now) number) }
{
    match &agent.want().op {
        Op::Take(channel) => Ok(Branch::Take(port_of(channel))),
        Op::Put(channel, value) => branch(alloc, port_of(channel), Some(value)),
        Op::Post(channel, value) => branch(alloc, port_of(channel), Some(value)),
        Op::Alts { ports, .. } => port_branch(alloc, ports.as_slice(), number),
        _ => Ok(Branch::Take(PortId { n: 0 })),
    }
}

/// The branch once more.
pub(crate) fn copy_of(alloc: Global, branch: &Branch) -> Result<Branch, OutOfMemory>
    ensures { IfOk result (λ b. branch_view b ≡ branch_view branch.now) }
{
    match branch {
        Branch::Take(port) => Ok(Branch::Take(*port)),
        Branch::Put(port, value) => Ok(Branch::Put(*port, value.copy(alloc)?)),
    }
}
