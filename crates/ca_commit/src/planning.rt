// Decision: what an operation becomes over the parts that are held.
ghost use Rattle.std.specs.Prelude.{◌≡◌, ◌≤◌, ◌<◌, ◌%◌, ◌+◌, ◌^◌, ℕ, Bool, Some, None, [], ◌∷◌, option_map, map, cond, length, true, false, IfOk};
ghost use Rattle.ca_value.specs.Seq.{list};
ghost use Rattle.ca_value.specs.View.{view, trees};
ghost use Rattle.ca_term.specs.Event.{branch_view};
ghost use Rattle.ca_term.specs.Operation.{op_view, what_view, seed_view, taking, choosing, making, spawning, closing, registering, printing};
ghost use Rattle.ca_commit.specs.Finding.{Glance};
ghost use Rattle.ca_commit.specs.Showing.{state_held, seen, seen_by};
ghost use Rattle.ca_commit.specs.Registering.{RegistersApart, AreApart};
ghost use Rattle.ca_commit.specs.Planning.{Planned, Seen, planned, in_turn, all_counted, otherwise, chosen, first_from, to_park};
ghost use Rattle.ca_commit.specs.Plans.{plan_view, HasCopies, AreTwice};
ghost use Rattle.ca_commit.specs.Branching.{branches_in, branch_by, plan_or, put_as, HaveCopies, single_branch};

use crate::branching::{branch, branches, count_for, look_at, parts_of};
use crate::held::{Banks, Held, Shards};
use crate::making::copy_what;
use crate::planned::{Handlers, Joining, Plan};
use crate::registering::bad_register;
use ca_asking::operands::port_of;
use ca_registry::fit::{bad_choice, bad_put, bad_seed, bad_what, not_a_channel};
use ca_registry::seed::{kind_of, result_of};
use ca_term::copy::copy_values;
use ca_term::event::Branch;
use ca_term::head::RegisterName;
use ca_term::operation::{Op, Seed, Want, What};
use ca_value::memory::OutOfMemory;
use ca_value::seq::{Seq, Text};
use ca_value::value::{Items, PortId, Value};
use std::alloc::Global;

// The ports of an alts in turn, which are numbered from base on: the first that isn't unready decides.
fn in_turn<A: Drop>(
    alloc: Global,
    banks: &Banks,
    shards: &Shards<A>,
    ports: &[Value],
    base: u64,
) -> Result<Option<Plan>, OutOfMemory>
    requires { base + length ports.now < 2 ^ 64 }
    ensures plan { IfOk result (λ o. (rest : Planned) → plan_or o rest ≡ in_turn (seen banks.now shards.now) true base (branches_in ports.now) rest) }
    ensures copies { IfOk result HaveCopies }
{
    for place in 0..ports.len() {
        let nil = Value::Nil;
        let (port, value) = parts_of(&ports[place], &nil);
        let number = base + place as u64;
        if let Some(plan) = look_at(alloc, banks, shards, number, port, value, true)? {
            return Ok(Some(plan));
        }
    }
    Ok(None)
}

// Each queue that a new wait of these branches would join has a place for it, or the first that hasn't decides.
fn all_counted<A: Drop>(banks: &Banks, shards: &Shards<A>, ports: &[Value]) -> Option<Plan>
    ensures plan { (rest : Planned) → plan_or result rest ≡ all_counted (seen banks.now shards.now) (branches_in ports.now) rest }
    ensures copies { HaveCopies result }
{
    for place in 0..ports.len() {
        let nil = Value::Nil;
        let (port, value) = parts_of(&ports[place], &nil);
        if let Some(plan) = count_for(banks, shards, port, value) {
            return Some(plan);
        }
    }
    None
}

fn only(alloc: Global, branch: Branch) -> Result<Seq<Branch>, OutOfMemory>
    ensures { IfOk result (λ s. list s ≡ branch ∷ []) }
{
    let mut branches = Seq::new(alloc);
    branches.reserve(1)?;
    branches.push(branch);
    Ok(branches)
}

// A new wait of this one branch.
#[inline(always)]
fn joining_one(alloc: Global, port: PortId, value: Option<&Value>) -> Result<Joining, OutOfMemory>
    ensures branches { IfOk result (λ j. map branch_view (list j.branches) ≡ branch_by port.n (option_map (λ v. view v.now) value.entry) ∷ []) }
    ensures twice { IfOk result AreTwice }
{
    Ok(Joining {
        branches: only(alloc, branch(alloc, port, value)?)?,
        handlers: Handlers::One(branch(alloc, port, value)?),
    })
}

// A take, or a put of the value: its one branch decides, or a new wait joins.
#[inline(always)]
fn one_branch<A: Drop>(
    alloc: Global,
    banks: &Banks,
    shards: &Shards<A>,
    port: PortId,
    value: Option<&Value>,
    parks: bool,
) -> Result<Plan, OutOfMemory>
    ensures plan { IfOk result (λ p. plan_view p ≡ single_branch (seen banks.now shards.now) parks (branch_by port.n (option_map (λ v. view v.now) value.entry))) }
    ensures copies { IfOk result HasCopies }
{
    if let Some(plan) = look_at(alloc, banks, shards, 0, port, value, false)? {
        return Ok(plan);
    }
    if let Some(plan) = count_for(banks, shards, port, value) {
        return Ok(plan);
    }
    let joining = joining_one(alloc, port, value)?;
    if parks {
        Ok(Plan::Park(joining))
    } else {
        Ok(Plan::Post(joining))
    }
}

fn plan_take<A: Drop>(
    alloc: Global,
    banks: &Banks,
    shards: &Shards<A>,
    channel: &Value,
) -> Result<Plan, OutOfMemory>
    ensures plan { (start : ℕ) → IfOk result (λ p. plan_view p ≡ planned (seen banks.now shards.now) (taking (view channel.now)) start) }
    ensures copies { IfOk result HasCopies }
{
    match not_a_channel(banks, channel) {
        Some(fault) => Ok(Plan::Refused(fault)),
        None => one_branch(alloc, banks, shards, port_of(channel), None, true),
    }
}

#[inline(always)]
fn plan_put<A: Drop>(
    alloc: Global,
    banks: &Banks,
    shards: &Shards<A>,
    channel: &Value,
    value: &Value,
    parks: bool,
) -> Result<Plan, OutOfMemory>
    ensures plan { (start : ℕ) → IfOk result (λ p. plan_view p ≡ planned (seen banks.now shards.now) (put_as parks (view channel.now) (view value.now)) start) }
    ensures copies { IfOk result HasCopies }
{
    match bad_put(banks, channel, value) {
        Some(fault) => Ok(Plan::Refused(fault)),
        None => one_branch(alloc, banks, shards, port_of(channel), Some(value), parks),
    }
}

/// The number of the branch that is looked at first.
pub(crate) fn first_number(priority: bool, start: u64, count: usize) -> usize
    requires { 0 < count }
    ensures number { result ≡ cond priority 0 (start % count) }
    ensures within { result ≤ count }
{
    if priority {
        0
    } else {
        (start % count as u64) as usize
    }
}

// A new wait of the branches of an alts, or what stands in its way.
fn joining_all<A: Drop>(
    alloc: Global,
    banks: &Banks,
    shards: &Shards<A>,
    ports: &[Value],
) -> Result<Plan, OutOfMemory>
    ensures plan { IfOk result (λ p. plan_view p ≡ all_counted (seen banks.now shards.now) (branches_in ports.now) (to_park (branches_in ports.now))) }
    ensures copies { IfOk result HasCopies }
{
    match all_counted(banks, shards, ports) {
        Some(plan) => Ok(plan),
        None => Ok(Plan::Park(Joining {
            branches: branches(alloc, ports)?,
            handlers: Handlers::Many(branches(alloc, ports)?),
        })),
    }
}

// An alts where no branch is ready.
fn unready_alts<A: Drop>(
    alloc: Global,
    banks: &Banks,
    shards: &Shards<A>,
    ports: &[Value],
    default: &Option<Value>,
) -> Result<Plan, OutOfMemory>
    ensures plan { (priority : Bool) → IfOk result (λ p. plan_view p ≡ otherwise (seen banks.now shards.now) (choosing (trees ports.now) priority (option_map view default.now)) (option_map view default.now)) }
    ensures copies { IfOk result HasCopies }
{
    match default {
        Some(value) => Ok(Plan::Default(value.copy(alloc)?)),
        None => joining_all(alloc, banks, shards, ports),
    }
}

// The branches of an alts from that number on, and then those before it.
fn from_number<A: Drop>(
    alloc: Global,
    banks: &Banks,
    shards: &Shards<A>,
    ports: &[Value],
    at: usize,
) -> Result<Option<Plan>, OutOfMemory>
    requires { at ≤ length ports.now }
    ensures plan { IfOk result (λ o. (rest : Planned) → plan_or o rest ≡ first_from (seen banks.now shards.now) true at (branches_in ports.now) rest) }
    ensures copies { IfOk result HaveCopies }
{
    match in_turn(alloc, banks, shards, &ports[at..], at as u64)? {
        Some(plan) => Ok(Some(plan)),
        None => in_turn(alloc, banks, shards, &ports[..at], 0),
    }
}

fn plan_fit_alts<A: Drop>(
    alloc: Global,
    banks: &Banks,
    shards: &Shards<A>,
    ports: &[Value],
    priority: bool,
    default: &Option<Value>,
    start: u64,
) -> Result<Plan, OutOfMemory>
    requires { 0 < length ports.now }
    ensures plan { IfOk result (λ p. plan_view p ≡ chosen (seen banks.now shards.now) (choosing (trees ports.now) priority (option_map view default.now)) start) }
    ensures copies { IfOk result HasCopies }
{
    let at = first_number(priority, start, ports.len());
    match from_number(alloc, banks, shards, ports, at)? {
        Some(plan) => Ok(plan),
        None => unready_alts(alloc, banks, shards, ports, default),
    }
}

fn plan_alts<A: Drop>(
    alloc: Global,
    banks: &Banks,
    shards: &Shards<A>,
    ports: &[Value],
    priority: bool,
    default: &Option<Value>,
    start: u64,
) -> Result<Plan, OutOfMemory>
    ensures plan { IfOk result (λ p. plan_view p ≡ planned (seen banks.now shards.now) (choosing (trees ports.now) priority (option_map view default.now)) start) }
    ensures copies { IfOk result HasCopies }
{
    match bad_choice(banks, ports) {
        Some(fault) => Ok(Plan::Refused(fault)),
        None => plan_fit_alts(alloc, banks, shards, ports, priority, default, start),
    }
}

// What is made at the new port, unless its operands are refused.
fn plan_make(alloc: Global, banks: &Banks, what: &What) -> Result<Plan, OutOfMemory>
    ensures plan { (see : ℕ → Glance) (start : ℕ) → IfOk result (λ p. plan_view p ≡ planned (seen_by banks.now see) (making (what_view what.now)) start) }
    ensures copies { IfOk result HasCopies }
{
    match bad_what(banks, what) {
        Some(fault) => Ok(Plan::Refused(fault)),
        None => Ok(Plan::Make(copy_what(alloc, what)?)),
    }
}

fn plan_spawn(banks: &Banks, seed: &Seed) -> Plan
    ensures plan { (see : ℕ → Glance) (start : ℕ) → plan_view result ≡ planned (seen_by banks.now see) (spawning (seed_view seed.now)) start }
    ensures copies { HasCopies result }
{
    match bad_seed(banks, seed) {
        Some(fault) => Plan::Refused(fault),
        None => Plan::Spawn(kind_of(seed), result_of(seed)),
    }
}

fn plan_close(banks: &Banks, channel: &Value) -> Plan
    ensures plan { (see : ℕ → Glance) (start : ℕ) → plan_view result ≡ planned (seen_by banks.now see) (closing (view channel.now)) start }
    ensures copies { HasCopies result }
{
    match not_a_channel(banks, channel) {
        Some(fault) => Plan::Refused(fault),
        None => Plan::Close(port_of(channel)),
    }
}

fn plan_print(alloc: Global, line: &Text) -> Result<Plan, OutOfMemory>
    ensures plan { (x : Seen) (start : ℕ) → IfOk result (λ p. plan_view p ≡ planned x (printing (list line.now)) start) }
    ensures copies { IfOk result HasCopies }
{
    Ok(Plan::Print(Text::from_bytes(alloc, line.as_slice())?))
}

fn plan_register(
    alloc: Global,
    banks: &Banks,
    name: RegisterName,
    args: &Items,
) -> Result<Plan, OutOfMemory>
    requires apart { RegistersApart (state_held banks.now) name (trees (list args.now)) }
    ensures plan { (see : ℕ → Glance) (start : ℕ) → IfOk result (λ p. plan_view p ≡ planned (seen_by banks.now see) (registering name (trees (list args.now))) start) }
    ensures copies { IfOk result HasCopies }
{
    match bad_register(alloc, banks, name, args.as_slice())? {
        Some(fault) => Ok(Plan::Refused(fault)),
        None => Ok(Plan::Register(
            name,
            copy_values(alloc, args.as_slice())?,
            copy_values(alloc, args.as_slice())?,
        )),
    }
}

/// What the operation becomes, its branches being looked at from number `start` on, cyclically, or from 0 with
/// priority.
///
/// What it answers is told by the ports of the held banks and the waits of the held shards alone; a port whose bank
/// isn't held counts as none. The keys of a toggle, where they are channels, are different ones, and a topic is equal to
/// itself: so it is of all values (`ca_registry::apart` has the tests).
pub fn plan<A: Drop>(
    alloc: Global,
    held: &Held<A>,
    want: &Want,
    start: u64,
) -> Result<Plan, OutOfMemory>
    requires apart { AreApart (state_held held.now.banks) (op_view want.now.op) }
    ensures plan { IfOk result (λ p. plan_view p ≡ planned (seen held.now.banks held.now.shards) (op_view want.now.op) start) }
    ensures copies { IfOk result HasCopies }
{
    let banks = &held.banks;
    let shards = &held.shards;
    match &want.op {
        Op::Take(channel) => plan_take(alloc, banks, shards, channel),
        Op::Put(channel, value) => plan_put(alloc, banks, shards, channel, value, true),
        Op::Post(channel, value) => plan_put(alloc, banks, shards, channel, value, false),
        Op::Alts {
            ports,
            priority,
            default,
        } => plan_alts(
            alloc,
            banks,
            shards,
            ports.as_slice(),
            *priority,
            default,
            start,
        ),
        Op::Make(what) => plan_make(alloc, banks, what),
        Op::Spawn(seed) => Ok(plan_spawn(banks, seed)),
        Op::Close(channel) => Ok(plan_close(banks, channel)),
        Op::Register(name, args) => plan_register(alloc, banks, *name, args),
        Op::Print(line) => plan_print(alloc, line),
    }
}
