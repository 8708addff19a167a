// The branches of an operation: what is found of each, and their copies.
ghost use Rattle.std.specs.Prelude.{◌≡◌, ℕ, Some, None, option_map, map, IfOk};
ghost use Rattle.ca_value.specs.Seq.{list};
ghost use Rattle.ca_value.specs.Tree.{nil as nil_tree};
ghost use Rattle.ca_value.specs.View.{view, trees};
ghost use Rattle.ca_term.specs.Event.{branch_view, put_of};
ghost use Rattle.ca_meaning.specs.Operands.{port_of_value, first_of, second_of};
ghost use Rattle.ca_meaning.specs.Wait.{brought};
ghost use Rattle.ca_meaning.specs.Choice.{branch_of};
ghost use Rattle.ca_commit.specs.Found.{finding_view};
ghost use Rattle.ca_commit.specs.Showing.{seen};
ghost use Rattle.ca_commit.specs.Planning.{Planned, decided, found_of, counted_for};
ghost use Rattle.ca_commit.specs.Plans.{IsTwice};
ghost use Rattle.ca_commit.specs.Branching.{branch_by, branches_in, plan_or, HaveCopies};

use crate::counting::count;
use crate::finding::{Finding, find_put, find_take};
use crate::held::{Banks, Shards};
use crate::planned::{Chosen, Plan};
use ca_asking::operands::port_of;
use ca_term::event::{Branch, Side};
use ca_value::memory::OutOfMemory;
use ca_value::seq::Seq;
use ca_value::value::{PortId, Value};
use std::alloc::Global;

// The branch that a port of an alts is: its channel, and the value where it is a put.
pub(crate) fn parts_of<'a>(port: &'a Value, nil: &'a Value) -> (PortId, Option<&'a Value>)
    requires { view nil.now ≡ nil_tree }
    ensures { branch_by result.0.n (option_map (λ v. view v.now) result.1) ≡ branch_of (view port.now) }
{
    match port {
        Value::Vector(items) => pair_of(items.as_slice(), nil),
        Value::Port(port) => (*port, None),
        _ => (PortId { n: 0 }, None),
    }
}

fn pair_of<'a>(items: &'a [Value], nil: &'a Value) -> (PortId, Option<&'a Value>)
    requires { view nil.now ≡ nil_tree }
    ensures { branch_by result.0.n (option_map (λ v. view v.now) result.1) ≡ put_of (port_of_value (first_of (trees items.now))) (second_of (trees items.now)) }
{
    let value = match items.get(1) {
        Some(value) => value,
        None => nil,
    };
    match items.first() {
        Some(Value::Port(port)) => (*port, Some(value)),
        _ => (PortId { n: 0 }, Some(value)),
    }
}

// What is found of the branch.
fn find<A: Drop>(banks: &Banks, shards: &Shards<A>, port: PortId, value: Option<&Value>) -> Finding
    ensures { finding_view result ≡ found_of (seen banks.now shards.now) (branch_by port.n (option_map (λ v. view v.now) value.entry)) }
{
    match value {
        Some(_) => find_put(banks, shards, port),
        None => find_take(banks, shards, port),
    }
}

// A copy of the branch.
pub(crate) fn branch(
    alloc: Global,
    port: PortId,
    value: Option<&Value>,
) -> Result<Branch, OutOfMemory>
    ensures { IfOk result (λ b. branch_view b ≡ branch_by port.n (option_map (λ v. view v.now) value.entry)) }
{
    match value {
        Some(value) => Ok(Branch::Put(port, value.copy(alloc)?)),
        None => Ok(Branch::Take(port)),
    }
}

fn brought(alloc: Global, value: Option<&Value>) -> Result<Value, OutOfMemory>
    ensures { (p : ℕ) → IfOk result (λ v. view v ≡ brought (branch_by p (option_map (λ v. view v.now) value.entry))) }
{
    match value {
        Some(value) => Ok(value.copy(alloc)?),
        None => Ok(Value::Nil),
    }
}

#[inline(always)]
fn chosen(
    alloc: Global,
    number: u64,
    port: PortId,
    value: Option<&Value>,
    of_alts: bool,
) -> Result<Chosen, OutOfMemory>
    ensures branch { IfOk result (λ c. c.branch ≡ number) }
    ensures operation { IfOk result (λ c. branch_view c.operation ≡ branch_by port.n (option_map (λ v. view v.now) value.entry)) }
    ensures twice { IfOk result (λ c. IsTwice c) }
    ensures of_alts { IfOk result (λ c. c.of_alts ≡ of_alts) }
{
    Ok(Chosen {
        branch: number,
        operation: branch(alloc, port, value)?,
        value: brought(alloc, value)?,
        of_alts,
    })
}

// What the finding of a branch decides, if it does.
#[inline(always)]
fn decide(
    alloc: Global,
    finding: Finding,
    number: u64,
    port: PortId,
    value: Option<&Value>,
    of_alts: bool,
) -> Result<Option<Plan>, OutOfMemory>
    ensures plan { IfOk result (λ o. (rest : Planned) → plan_or o rest ≡ decided (finding_view finding) of_alts number (branch_by port.n (option_map (λ v. view v.now) value.entry)) rest) }
    ensures copies { IfOk result HaveCopies }
{
    match finding {
        Finding::Unready => Ok(None),
        Finding::Alone => Ok(Some(Plan::Done(chosen(alloc, number, port, value, of_alts)?))),
        Finding::Partner(wait, other) => Ok(Some(Plan::Meet(
            chosen(alloc, number, port, value, of_alts)?,
            wait,
            other,
        ))),
        Finding::Stale(side) => Ok(Some(Plan::Prune(port, side, 0))),
        Finding::Unheld(wait) => Ok(Some(Plan::Look(wait))),
    }
}

// What the branch of that number decides, if it does.
#[inline(always)]
pub(crate) fn look_at<A: Drop>(
    alloc: Global,
    banks: &Banks,
    shards: &Shards<A>,
    number: u64,
    port: PortId,
    value: Option<&Value>,
    of_alts: bool,
) -> Result<Option<Plan>, OutOfMemory>
    ensures plan { IfOk result (λ o. (rest : Planned) → plan_or o rest ≡ decided (found_of (seen banks.now shards.now) (branch_by port.n (option_map (λ v. view v.now) value.entry))) of_alts number (branch_by port.n (option_map (λ v. view v.now) value.entry)) rest) }
    ensures copies { IfOk result HaveCopies }
{
    let finding = find(banks, shards, port, value);
    decide(alloc, finding, number, port, value, of_alts)
}

// What keeps a wait with the branch from joining its queue, if anything does.
pub(crate) fn count_for<A: Drop>(
    banks: &Banks,
    shards: &Shards<A>,
    port: PortId,
    value: Option<&Value>,
) -> Option<Plan>
    ensures plan { (rest : Planned) → plan_or result rest ≡ counted_for (seen banks.now shards.now) (branch_by port.n (option_map (λ v. view v.now) value.entry)) rest }
    ensures copies { HaveCopies result }
{
    match value {
        Some(_) => count(banks, shards, port, Side::Put),
        None => count(banks, shards, port, Side::Take),
    }
}

// Copies of the branches of an alts over these ports.
pub(crate) fn branches(alloc: Global, ports: &[Value]) -> Result<Seq<Branch>, OutOfMemory>
    ensures { IfOk result (λ s. map branch_view (list s) ≡ branches_in ports.now) }
{
    let mut copies = Seq::new(alloc);
    copies.reserve(ports.len() as u64)?;
    for port in ports {
        let nil = Value::Nil;
        let (channel, value) = parts_of(port, &nil);
        copies.push(branch(alloc, channel, value)?);
    }
    Ok(copies)
}
