//! How many blocks a term finishes, and the sides of its branches.
ghost use Rattle.std.specs.Prelude.{◌≡◌, ◌<◌, [], length, IfOk, OnOk};
ghost use Rattle.ca_value.specs.Seq.{list};
ghost use Rattle.ca_term.specs.View.{bindings as bindings_view, kernel, kernels};
ghost use Rattle.ca_lower.specs.Emit.{blocks, blocks_all, blocks_bound, blocks_by};
ghost use Rattle.ca_lower.specs.Splits.{on_top, stacked, stacked_all, stacked_bound};

use crate::builder::sum;
use ca_term::head::Head;
use ca_term::term::{Binding, Term};
use ca_value::memory::OutOfMemory;
use ca_value::seq::Seq;
use std::alloc::Global;

/// How many blocks the sides of a branch finish.
#[derive(Clone, Copy)]
pub(crate) struct Split {
    pub(crate) then: u64,
    pub(crate) otherwise: u64,
}

/// The split of each branch of the term, the one that is laid out first at the end.
pub(crate) fn splits_of(alloc: Global, term: &Term) -> Result<Seq<Split>, OutOfMemory>
    ensures { IfOk result (λ s. list s ≡ stacked (kernel term.now) []) }
{
    let mut splits = Seq::new(alloc);
    measure(&mut splits, term)?;
    Ok(splits)
}

/// Takes the split at the end.
pub(crate) fn next_split(splits: &mut Seq<Split>) -> Split
    requires { 0 < length (list splits.old) }
    ensures { list splits.old ≡ on_top result (list splits.new) }
{
    match splits.pop() {
        Some(split) => split,
        None => unreachable!(),
    }
}

// How many blocks the head finishes.
fn blocks_by(head: Head) -> u64
    ensures { result ≡ blocks_by head }
{
    match head {
        Head::Builtin(_) => 0,
        _ => 1,
    }
}

// How many blocks the term finishes; its splits are added. The walk goes from the term's end to its beginning.
#[cycle(measure)]
fn measure(splits: &mut Seq<Split>, term: &Term) -> Result<u64, OutOfMemory>
    ensures blocks { IfOk result (λ n. n ≡ blocks (kernel term.now)) }
    ensures splits { OnOk result (list splits.new ≡ stacked (kernel term.now) (list splits.old)) }
{
    match term {
        Term::Const(_) | Term::Var(_) | Term::Frame(_) | Term::Turn(_, _, _) => Ok(0),
        Term::If(test, then, otherwise) => {
            let otherwise = measure(splits, otherwise)?;
            let then = measure(splits, then)?;
            splits.reserve(1)?;
            splits.push(Split { then, otherwise });
            let test = sum(measure(splits, test)?, 1)?;
            let then = sum(then, 1)?;
            sum(sum(test, then)?, sum(otherwise, 1)?)
        }
        Term::Let(bindings, body) => {
            let body = measure(splits, body)?;
            sum(measure_bound(splits, bindings)?, body)
        }
        Term::Loop(_, bindings, body) => {
            let body = measure(splits, body)?;
            let first = sum(measure_bound(splits, bindings)?, 1)?;
            sum(first, body)
        }
        Term::Do(terms) => measure_all(splits, terms),
        Term::Apply(head, operands, _) => sum(measure_all(splits, operands)?, blocks_by(*head)),
    }
}

// How many blocks the terms finish; their splits are added.
#[cycle(measure)]
fn measure_all(splits: &mut Seq<Split>, terms: &Seq<Term>) -> Result<u64, OutOfMemory>
    ensures blocks { IfOk result (λ n. n ≡ blocks_all (kernels (list terms.now))) }
    ensures splits { OnOk result (list splits.new ≡ stacked_all (kernels (list terms.now)) (list splits.old)) }
{
    let terms = terms.as_slice();
    let mut count = 0;
    for place in (0..terms.len()).rev() {
        count = sum(measure(splits, &terms[place])?, count)?;
    }
    Ok(count)
}

// How many blocks the terms of the bindings finish; their splits are added.
#[cycle(measure)]
fn measure_bound(splits: &mut Seq<Split>, bindings: &Seq<Binding>) -> Result<u64, OutOfMemory>
    ensures blocks { IfOk result (λ n. n ≡ blocks_bound (bindings_view (list bindings.now))) }
    ensures splits { OnOk result (list splits.new ≡ stacked_bound (bindings_view (list bindings.now)) (list splits.old)) }
{
    let bindings = bindings.as_slice();
    let mut count = 0;
    for place in (0..bindings.len()).rev() {
        count = sum(measure(splits, &bindings[place].term)?, count)?;
    }
    Ok(count)
}
