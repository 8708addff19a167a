ghost use Rattle.std.specs.Prelude.{◌≡◌, ◌<◌, ◌^◌, ℕ, option_map};
ghost use Rattle.ca_value.specs.Seq.{list};
ghost use Rattle.ca_term.specs.Operation.{OpView};
ghost use Rattle.ca_term.specs.View.{kernel, kernels};
ghost use Rattle.ca_meaning.specs.Redex.{values_of};
ghost use Rattle.ca_meaning.specs.Body.{asking, standing, standing_with, standing_turn, at_turn, at_call, turns_after, depth_after};
ghost use Rattle.ca_value.specs.View.{view};
ghost use Rattle.ca_meaning.specs.BodyViews.{stand_of, ended_value};

use crate::body::Stand;
use crate::redex::is_ready_recur;
use ca_asking::judging::{alts_fault, size_fault, spawn_fault};
use ca_asking::line::line_fault;
use ca_asking::making::number_to_make;
use ca_asking::modes::register_fault;
use ca_asking::operands::operand;
use ca_term::fault::Fault;
use ca_term::head::Head;
use ca_term::place::Place;
use ca_term::term::Term;
use ca_value::seq::Seq;
use ca_value::value::Value;

// The turns that a task has before its next one faults, and the calls that a call may stand in.
const LAST_TURN: u64 = 999_999;

const DEEPEST_CALL: u64 = 256;

// Where a term stands whose redex is the whole of it. It takes no memory.
pub(crate) fn standing(turns: u64, depth: u64, redex: &Term) -> Stand
    ensures { result ≡ stand_of (standing turns depth (kernel redex.now)) }
{
    match redex {
        Term::Const(_) | Term::Var(_) => Stand::Ended,
        Term::If(_, _, _) | Term::Let(_, _) | Term::Loop(_, _, _) => Stand::Local,
        Term::Do(_) | Term::Frame(_) => Stand::Local,
        Term::Turn(_, _, now) => standing_turn(turns, now),
        Term::Apply(head, operands, place) => standing_with(turns, depth, operands, *place, *head),
    }
}

// The value that a term is whose redex is the whole of it, where it is one.
#[tactic(auto, using(crate::proofs::Endings::no_value_with, crate::proofs::Endings::no_value_turned))]
pub(crate) fn ended_with(redex: &Term) -> Option<&Value>
    ensures { (turns depth : ℕ) → option_map (λ v. view v.now) result ≡ ended_value (standing turns depth (kernel redex.now)) }
{
    match redex {
        Term::Const(value) => Some(value),
        _ => None,
    }
}

// A running loop, where its text has become this term.
fn standing_turn(turns: u64, now: &Term) -> Stand
    ensures { result ≡ stand_of (standing_turn turns (kernel now.now)) }
{
    match now {
        Term::Apply(Head::Recur, _, place) => at_turn(turns, *place),
        _ => Stand::Local,
    }
}

// A recur: the last turn faults.
fn at_turn(turns: u64, place: Place) -> Stand
    ensures { result ≡ stand_of (at_turn turns place) }
{
    if LAST_TURN <= turns {
        Stand::Faulted(Fault::Spun, place)
    } else {
        Stand::Local
    }
}

// A call: the last turn faults, and then the deepest call.
fn at_call(turns: u64, depth: u64, place: Place) -> Stand
    ensures { result ≡ stand_of (at_call turns depth place) }
{
    if LAST_TURN <= turns {
        Stand::Faulted(Fault::Spun, place)
    } else if DEEPEST_CALL <= depth {
        Stand::Faulted(Fault::TooDeep, place)
    } else {
        Stand::Local
    }
}

// A form whose operands are values.
#[tactic(auto, using(crate::proofs::OperandLaws::values_by))]
fn standing_with(turns: u64, depth: u64, operands: &Seq<Term>, place: Place, head: Head) -> Stand
    ensures { result ≡ stand_of (standing_with turns depth (values_of (kernels (list operands.now))) place head) }
{
    let nil = Value::Nil;
    let operands = operands.as_slice();
    match head {
        Head::Recur => Stand::Ended,
        Head::Builtin(_) => Stand::Local,
        Head::Call(_) => at_call(turns, depth, place),
        Head::Take | Head::Close => Stand::AtOp,
        Head::Put | Head::Post => asking(place, size_fault(operand(operands, 1, &nil))),
        Head::Alts(options) => asking(place, alts_fault(options, operands)),
        Head::Make(kind) => match number_to_make(kind, operands) {
            Ok(_) => Stand::AtOp,
            Err(fault) => Stand::Faulted(fault, place),
        },
        Head::Spawn(kind) => asking(place, spawn_fault(kind, operands)),
        Head::Register(name) => asking(place, register_fault(name, operands)),
        Head::Print => asking(place, line_fault(operands)),
    }
}

// At the operation, unless an operand faults.
fn asking(place: Place, fault: Option<Fault>) -> Stand
    ensures { (op : OpView) → result ≡ stand_of (asking place fault op) }
{
    match fault {
        None => Stand::AtOp,
        Some(fault) => Stand::Faulted(fault, place),
    }
}

// The turns after a local step: a call and a recur are turns.
pub(crate) fn turns_after(turns: u64, redex: &Term) -> u64
    requires { turns_after (kernel redex.now) turns < 2 ^ 64 }
    ensures { result ≡ turns_after (kernel redex.now) turns }
{
    match redex {
        Term::Apply(Head::Call(_), _, _) => turns + 1,
        Term::Turn(_, _, now) => {
            if is_ready_recur(now) {
                turns + 1
            } else {
                turns
            }
        }
        _ => turns,
    }
}

// The depth after a local step: a call goes one deeper, and is left again.
pub(crate) fn depth_after(depth: u64, redex: &Term) -> u64
    requires { depth_after (kernel redex.now) depth < 2 ^ 64 }
    ensures { result ≡ depth_after (kernel redex.now) depth }
{
    match redex {
        Term::Apply(Head::Call(_), _, _) => depth + 1,
        Term::Frame(_) => depth.saturating_sub(1),
        _ => depth,
    }
}
