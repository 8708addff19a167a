ghost use Rattle.std.specs.Prelude.{◌≡◌, ◌≤◌, ◌<◌, ◌+◌, ◌^◌, IfOk, IfErr, None, [], ◌∷◌, ◌++◌, length, map, true, codes};
ghost use Rattle.ca_value.specs.Seq.{list};
ghost use Rattle.ca_value.specs.Tree.{nil, bool, key};
ghost use Rattle.ca_value.specs.declared.builtin.Builtin.{Builtin};
ghost use Rattle.ca_term.specs.Kernel.{const, var, branch as branch_of, bind as bind_of, loop as loop_of, seq as seq_of, apply as apply_of};
ghost use Rattle.ca_term.specs.View.{kernel, kernels, kernels_of};
ghost use Rattle.ca_forms.specs.Channels.{built, make_call, spawn_call, register_call, whole_number, nth_call, alts_or_nil, unless_default};
ghost use Rattle.ca_forms.specs.Depth.{kernel_depth, kernels_depth};
ghost use Rattle.ca_forms.specs.Meaning.{numbered};
ghost use Rattle.ca_forms.specs.WalkView.{terms_of};
ghost use Rattle.ca_forms.specs.declared.error.CheckError.{CheckError};

use crate::error::CheckError;
use crate::gathered::{Bodies, Made};
use crate::operands::{single, with_names};
use ca_term::head::{AltsOptions, Head, MakeKind, RegisterName, SeedKind, SystemTask};
use ca_term::place::Place;
use ca_value::builtin::Builtin;
use ca_value::seq::{Seq, Text};
use ca_value::value::Value;
use std::alloc::Global;

// Small terms are made apart from any walk: none of them is too deep.
fn apart(alloc: Global) -> Bodies {
    Bodies {
        bodies: Seq::new(alloc),
        deep: false,
    }
}

/// Operands, and what is then done with them.
pub fn apply(
    alloc: Global,
    head: Head,
    operands: Seq<Made>,
    place: Place,
) -> Result<Made, CheckError>
    requires { kernels_depth (kernels (list operands)) < 400 }
    ensures ok { IfOk result (λ t. kernel t ≡ apply_of head (kernels (list operands)) place) }
    ensures err { IfErr result (λ e. e ≡ CheckError.OutOfMemory) }
{
    let term = apart(alloc).apply(alloc, head, operands, place)?;
    Ok(term)
}

/// An If.
pub fn branch(alloc: Global, test: Made, then: Made, otherwise: Made) -> Result<Made, CheckError>
    requires test { kernel_depth (kernel test) < 400 }
    requires then { kernel_depth (kernel then) < 400 }
    requires otherwise { kernel_depth (kernel otherwise) < 400 }
    ensures ok { IfOk result (λ t. kernel t ≡ branch_of (kernel test) (kernel then) (kernel otherwise)) }
    ensures err { IfErr result (λ e. e ≡ CheckError.OutOfMemory) }
{
    let term = apart(alloc).branch(alloc, test, then, otherwise)?;
    Ok(term)
}

/// A Do.
pub fn seq(alloc: Global, terms: Seq<Made>) -> Result<Made, CheckError>
    requires { kernels_depth (kernels (list terms)) < 400 }
    ensures ok { IfOk result (λ t. kernel t ≡ seq_of (kernels (list terms))) }
    ensures err { IfErr result (λ e. e ≡ CheckError.OutOfMemory) }
{
    let term = apart(alloc).seq(alloc, terms)?;
    Ok(term)
}

/// A Let of these values, from number `first` on.
pub fn bind(alloc: Global, first: u64, values: Seq<Made>, body: Made) -> Result<Made, CheckError>
    requires numbers { first + length (list values) < 2 ^ 64 }
    requires values { kernels_depth (kernels (list values)) < 400 }
    requires body { kernel_depth (kernel body) < 400 }
    ensures ok { IfOk result (λ t. kernel t ≡ bind_of (numbered first (terms_of (list values))) (kernel body)) }
    ensures err { IfErr result (λ e. e ≡ CheckError.OutOfMemory) }
{
    let term = apart(alloc).bind(alloc, first, values, body)?;
    Ok(term)
}

/// A Loop over these values, from number `first` on.
pub fn repeat(alloc: Global, first: u64, values: Seq<Made>, body: Made) -> Result<Made, CheckError>
    requires numbers { first + length (list values) < 2 ^ 64 }
    requires values { kernels_depth (kernels (list values)) < 400 }
    requires body { kernel_depth (kernel body) < 400 }
    ensures ok { IfOk result (λ t. kernel t ≡ loop_of [] (numbered first (terms_of (list values))) (kernel body)) }
    ensures err { IfErr result (λ e. e ≡ CheckError.OutOfMemory) }
{
    let term = apart(alloc).repeat(alloc, first, values, body)?;
    Ok(term)
}

/// Nil.
pub fn nothing() -> Made
    ensures { kernel result ≡ const nil }
{
    Made::constant(Value::Nil)
}

/// True.
pub fn yes() -> Made
    ensures { kernel result ≡ const (bool true) }
{
    Made::constant(Value::Bool(true))
}

/// A small number.
pub fn whole(number: u8) -> Made
    ensures { kernel result ≡ whole_number number }
{
    Made::constant(Value::Int(number as i64))
}

/// The terms, and one more behind them.
pub fn with_last(mut terms: Seq<Made>, term: Made) -> Result<Seq<Made>, CheckError>
    ensures ok { IfOk result (λ s. list s ≡ list terms ++ term ∷ []) }
    ensures err { IfErr result (λ e. e ≡ CheckError.OutOfMemory) }
{
    terms.reserve(1)?;
    terms.push(term);
    Ok(terms)
}

/// Two terms.
pub fn pair(alloc: Global, first: Made, second: Made) -> Result<Seq<Made>, CheckError>
    ensures ok { IfOk result (λ s. list s ≡ first ∷ second ∷ []) }
    ensures err { IfErr result (λ e. e ≡ CheckError.OutOfMemory) }
{
    let terms = single(alloc, first)?;
    with_last(terms, second)
}

/// The Do of two terms.
pub fn followed(alloc: Global, first: Made, second: Made) -> Result<Made, CheckError>
    requires first { kernel_depth (kernel first) < 400 }
    requires second { kernel_depth (kernel second) < 400 }
    ensures ok { IfOk result (λ t. kernel t ≡ seq_of (kernels_of (kernel first ∷ kernel second ∷ []))) }
    ensures err { IfErr result (λ e. e ≡ CheckError.OutOfMemory) }
{
    let terms = pair(alloc, first, second)?;
    seq(alloc, terms)
}

/// The names with these numbers.
pub fn locals(alloc: Global, numbers: &[u64]) -> Result<Seq<Made>, CheckError>
    ensures ok { IfOk result (λ s. terms_of (list s) ≡ map var numbers.now) }
    ensures err { IfErr result (λ e. e ≡ CheckError.OutOfMemory) }
{
    let terms = with_names(alloc, Seq::new(alloc), numbers)?;
    Ok(terms)
}

/// Names, and what is then done with them.
pub fn over(alloc: Global, head: Head, numbers: &[u64], place: Place) -> Result<Made, CheckError>
    ensures ok { IfOk result (λ t. kernel t ≡ apply_of head (kernels_of (map var numbers.now)) place) }
    ensures err { IfErr result (λ e. e ≡ CheckError.OutOfMemory) }
{
    let operands = locals(alloc, numbers)?;
    apply(alloc, head, operands, place)
}

/// A Make over names.
pub fn made(
    alloc: Global,
    kind: MakeKind,
    numbers: &[u64],
    place: Place,
) -> Result<Made, CheckError>
    ensures ok { IfOk result (λ t. kernel t ≡ make_call kind (map var numbers.now) place) }
    ensures err { IfErr result (λ e. e ≡ CheckError.OutOfMemory) }
{
    over(alloc, Head::Make(kind), numbers, place)
}

/// A new system task over names.
pub fn started(
    alloc: Global,
    task: SystemTask,
    numbers: &[u64],
    place: Place,
) -> Result<Made, CheckError>
    ensures ok { IfOk result (λ t. kernel t ≡ spawn_call task (map var numbers.now) place) }
    ensures err { IfErr result (λ e. e ≡ CheckError.OutOfMemory) }
{
    over(alloc, Head::Spawn(SeedKind::System(task)), numbers, place)
}

/// A Register over names.
pub fn registered(
    alloc: Global,
    name: RegisterName,
    numbers: &[u64],
    place: Place,
) -> Result<Made, CheckError>
    ensures ok { IfOk result (λ t. kernel t ≡ register_call name (map var numbers.now) place) }
    ensures err { IfErr result (λ e. e ≡ CheckError.OutOfMemory) }
{
    over(alloc, Head::Register(name), numbers, place)
}

/// Item `index` of the value of the name `vector`.
pub fn nth_of(alloc: Global, vector: u64, index: u8, place: Place) -> Result<Made, CheckError>
    ensures ok { IfOk result (λ t. kernel t ≡ nth_call vector index place) }
    ensures err { IfErr result (λ e. e ≡ CheckError.OutOfMemory) }
{
    let operands = pair(alloc, Made::local(vector), whole(index))?;
    apply(alloc, Head::Builtin(Builtin::Nth), operands, place)
}

/// What a Make of that kind makes of the number 1.
pub fn made_of_one(alloc: Global, kind: MakeKind, place: Place) -> Result<Made, CheckError>
    ensures ok { IfOk result (λ t. kernel t ≡ make_call kind (whole_number 1 ∷ []) place) }
    ensures err { IfErr result (λ e. e ≡ CheckError.OutOfMemory) }
{
    let operands = single(alloc, whole(1))?;
    apply(alloc, Head::Make(kind), operands, place)
}

/// An alts of one port, with the default nil.
pub fn tried(alloc: Global, port: Made, place: Place) -> Result<Made, CheckError>
    requires { kernel_depth (kernel port) ≤ 2 }
    ensures ok { IfOk result (λ t. kernel t ≡ alts_or_nil (kernel port ∷ []) place) }
    ensures err { IfErr result (λ e. e ≡ CheckError.OutOfMemory) }
{
    let ports = single(alloc, port)?;
    let ports = apply(alloc, Head::Builtin(Builtin::Vector), ports, place)?;
    let operands = pair(alloc, ports, nothing())?;
    apply(alloc, Head::Alts(AltsOptions::Default), operands, place)
}

// Whether the answer of an alts is the default.
fn is_default(alloc: Global, answer: u64, place: Place) -> Result<Made, CheckError>
    ensures ok { IfOk result (λ t. kernel t ≡ built Builtin.Equal (nth_call answer 1 place ∷ const (key (codes "default")) ∷ []) place) }
    ensures err { IfErr result (λ e. e ≡ CheckError.OutOfMemory) }
{
    let word = Value::key(alloc, Text::from_bytes(alloc, b"default")?)?;
    let port = nth_of(alloc, answer, 1, place)?;
    let sides = pair(alloc, port, Made::constant(word))?;
    apply(alloc, Head::Builtin(Builtin::Equal), sides, place)
}

/// The value that the answer of an alts holds, nil for the default.
pub fn unless_default(alloc: Global, answer: u64, place: Place) -> Result<Made, CheckError>
    ensures ok { IfOk result (λ t. kernel t ≡ unless_default answer place) }
    ensures err { IfErr result (λ e. e ≡ CheckError.OutOfMemory) }
{
    let test = is_default(alloc, answer, place)?;
    let value = nth_of(alloc, answer, 0, place)?;
    branch(alloc, test, nothing(), value)
}
