ghost use Rattle.std.specs.Prelude.{◌≡◌, ◌<◌, ◌+◌, ◌^◌, IfOk, IfErr, [], ◌∷◌, ◌++◌};
ghost use Rattle.ca_value.specs.Seq.{list};
ghost use Rattle.ca_value.specs.Tree.{nil};
ghost use Rattle.ca_value.specs.declared.builtin.Builtin.{Builtin};
ghost use Rattle.ca_term.specs.Kernel.{const, var, branch as branch_of, seq as seq_of};
ghost use Rattle.ca_term.specs.View.{kernel, kernels_of};
ghost use Rattle.ca_term.specs.declared.head.MakeKind.{MakeKind};
ghost use Rattle.ca_term.specs.declared.head.SystemTask.{SystemTask};
ghost use Rattle.ca_term.specs.declared.head.RegisterName.{RegisterName};
ghost use Rattle.ca_forms.specs.Channels.{built, make_call, spawn_call, register_call, nth_call, topic_placed};
ghost use Rattle.ca_forms.specs.GivenView.{keyword_terms};
ghost use Rattle.ca_forms.specs.WalkView.{terms_of};
ghost use Rattle.ca_forms.specs.declared.error.CheckError.{CheckError};

use crate::channels::Hidden;
use crate::error::CheckError;
use crate::fixed::{
    apply, bind, branch, followed, made, nothing, nth_of, over, pair, registered, started,
    with_last,
};
use crate::gathered::Made;
use crate::given::Applied;
use crate::operands::single;
use crate::pipelines::applying;
use ca_term::head::{Head, MakeKind, RegisterName, SystemTask};
use ca_term::place::Place;
use ca_value::builtin::Builtin;
use ca_value::seq::Seq;
use std::alloc::Global;

/// `(pub c f)`, behind the source.
pub fn publication(
    alloc: Global,
    first: u64,
    given: Applied,
    place: Place,
) -> Result<Hidden, CheckError>
    requires { first + 2 < 2 ^ 64 }
    ensures more { IfOk result (λ r. terms_of (list r.more) ≡ make_call MakeKind.Pub (var first ∷ []) place ∷ []) }
    ensures body { IfOk result (λ r. kernel r.body ≡ seq_of (kernels_of (spawn_call (SystemTask.Pub given.function) (var (first + 1) ∷ var first ∷ keyword_terms given.keyword) place ∷ var (first + 1) ∷ []))) }
    ensures err { IfErr result (λ e. e ≡ CheckError.OutOfMemory) }
{
    let Applied { function, keyword } = given;
    let entry = made(alloc, MakeKind::Pub, &[first], place)?;
    let more = single(alloc, entry)?;
    let task = applying(
        alloc,
        SystemTask::Pub(function),
        &[first + 1, first],
        keyword,
        place,
    )?;
    let body = followed(alloc, task, Made::local(first + 1))?;
    Ok(Hidden { more, body })
}

/// `(sub p t c z)`, behind the publication, the topic, the port and whether to close.
pub fn sub(alloc: Global, first: u64, place: Place) -> Result<Hidden, CheckError>
    requires { first + 9 < 2 ^ 64 }
    ensures more { IfOk result (λ r. terms_of (list r.more) ≡ register_call RegisterName.Find (var first ∷ var (first + 1) ∷ []) place ∷ branch_of (built Builtin.IsNil (var (first + 4) ∷ []) place) (topic_placed first (first + 1) (first + 5) place) (var (first + 4)) ∷ []) }
    ensures body { IfOk result (λ r. kernel r.body ≡ seq_of (kernels_of (register_call RegisterName.Tap (nth_call (first + 5) 0 place ∷ var (first + 2) ∷ var (first + 3) ∷ []) place ∷ const nil ∷ []))) }
    ensures err { IfErr result (λ e. e ≡ CheckError.OutOfMemory) }
{
    let found = registered(alloc, RegisterName::Find, &[first, first + 1], place)?;
    let entry = entered(alloc, first, place)?;
    let more = pair(alloc, found, entry)?;
    let body = tapped(alloc, first, place)?;
    Ok(Hidden { more, body })
}

// The topic's entry: the one that was found, else a new one.
fn entered(alloc: Global, first: u64, place: Place) -> Result<Made, CheckError>
    requires { first + 9 < 2 ^ 64 }
    ensures ok { IfOk result (λ t. kernel t ≡ branch_of (built Builtin.IsNil (var (first + 4) ∷ []) place) (topic_placed first (first + 1) (first + 5) place) (var (first + 4))) }
    ensures err { IfErr result (λ e. e ≡ CheckError.OutOfMemory) }
{
    let test = over(alloc, Head::Builtin(Builtin::IsNil), &[first + 4], place)?;
    let new = placed(alloc, first, first + 1, first + 5, place)?;
    branch(alloc, test, new, Made::local(first + 4))
}

// A tap of the topic's mult, and nil.
fn tapped(alloc: Global, first: u64, place: Place) -> Result<Made, CheckError>
    requires { first + 9 < 2 ^ 64 }
    ensures ok { IfOk result (λ t. kernel t ≡ seq_of (kernels_of (register_call RegisterName.Tap (nth_call (first + 5) 0 place ∷ var (first + 2) ∷ var (first + 3) ∷ []) place ∷ const nil ∷ []))) }
    ensures err { IfErr result (λ e. e ≡ CheckError.OutOfMemory) }
{
    let entry = nth_of(alloc, first + 5, 0, place)?;
    let operands = pair(alloc, entry, Made::local(first + 2))?;
    let operands = with_last(operands, Made::local(first + 3))?;
    let tap = apply(alloc, Head::Register(RegisterName::Tap), operands, place)?;
    followed(alloc, tap, nothing())
}

// The topic's mult in a pair, placed where the topic has none, from number `first` on.
fn placed(
    alloc: Global,
    publication: u64,
    topic: u64,
    first: u64,
    place: Place,
) -> Result<Made, CheckError>
    requires { first + 4 < 2 ^ 64 }
    ensures ok { IfOk result (λ t. kernel t ≡ topic_placed publication topic first place) }
    ensures err { IfErr result (λ e. e ≡ CheckError.OutOfMemory) }
{
    let values = placing(alloc, publication, topic, first, place)?;
    let test = is_placed(alloc, first, place)?;
    let task = started(
        alloc,
        SystemTask::Mult,
        &[first + 2, first, first + 1],
        place,
    )?;
    let task = branch(alloc, test, task, nothing())?;
    let body = followed(alloc, task, Made::local(first + 3))?;
    bind(alloc, first, values, body)
}

// Whether the topic's entry holds the mult, the numbers being those from `first` on.
fn is_placed(alloc: Global, first: u64, place: Place) -> Result<Made, CheckError>
    requires { first + 4 < 2 ^ 64 }
    ensures ok { IfOk result (λ t. kernel t ≡ built Builtin.Equal (nth_call (first + 3) 0 place ∷ var (first + 2) ∷ []) place) }
    ensures err { IfErr result (λ e. e ≡ CheckError.OutOfMemory) }
{
    let found = nth_of(alloc, first + 3, 0, place)?;
    let sides = pair(alloc, found, Made::local(first + 2))?;
    apply(alloc, Head::Builtin(Builtin::Equal), sides, place)
}

// A new mult, and the entry of the topic once the mult is placed there.
fn placing(
    alloc: Global,
    publication: u64,
    topic: u64,
    first: u64,
    place: Place,
) -> Result<Seq<Made>, CheckError>
    requires { first + 4 < 2 ^ 64 }
    ensures ok { IfOk result (λ s. terms_of (list s) ≡ make_call MakeKind.Unbuffered [] place ∷ make_call MakeKind.Unbuffered [] place ∷ make_call MakeKind.Mult (var first ∷ []) place ∷ register_call RegisterName.Place (var publication ∷ var topic ∷ var (first + 2) ∷ var first ∷ []) place ∷ []) }
    ensures err { IfErr result (λ e. e ≡ CheckError.OutOfMemory) }
{
    let source = made(alloc, MakeKind::Unbuffered, &[], place)?;
    let answers = made(alloc, MakeKind::Unbuffered, &[], place)?;
    let ports = pair(alloc, source, answers)?;
    let mult = made(alloc, MakeKind::Mult, &[first], place)?;
    let mult = with_last(ports, mult)?;
    let entry = registered(
        alloc,
        RegisterName::Place,
        &[publication, topic, first + 2, first],
        place,
    )?;
    with_last(mult, entry)
}
