ghost use Rattle.std.specs.Prelude.{◌≡◌, ◌≤◌, ◌<◌, ◌+◌, ◌^◌, IfOk, IfErr, [], ◌∷◌, length, map, true};
ghost use Rattle.ca_value.specs.Seq.{list};
ghost use Rattle.ca_value.specs.Tree.{nil, bool};
ghost use Rattle.ca_value.specs.declared.builtin.Builtin.{Builtin};
ghost use Rattle.ca_term.specs.Kernel.{const, var, branch as branch_of, bind as bind_of, seq as seq_of, apply as apply_of};
ghost use Rattle.ca_term.specs.View.{kernel, kernels_of};
ghost use Rattle.ca_term.specs.declared.head.Head.{Head};
ghost use Rattle.ca_term.specs.declared.head.MakeKind.{MakeKind};
ghost use Rattle.ca_term.specs.declared.head.SystemTask.{SystemTask};
ghost use Rattle.ca_term.specs.declared.head.RegisterName.{RegisterName};
ghost use Rattle.ca_forms.specs.Channels.{built, make_call, spawn_call, register_call, whole_number, nth_call, alts_or_nil, unless_default};
ghost use Rattle.ca_forms.specs.Depth.{kernel_depth};
ghost use Rattle.ca_forms.specs.Meaning.{bindings_joined, numbered};
ghost use Rattle.ca_forms.specs.Outcome.{done, limited};
ghost use Rattle.ca_forms.specs.WalkView.{gathered, terms_of};
ghost use Rattle.ca_forms.specs.declared.error.CheckError.{CheckError};

use crate::error::CheckError;
use crate::fixed::{
    apply, branch, followed, made, made_of_one, nothing, nth_of, over, pair, registered, seq,
    started, tried, unless_default, whole, with_last, yes,
};
use crate::gathered::{Bodies, Made};
use crate::operands::{joined_terms, single};
use ca_term::head::{Head, MakeKind, RegisterName, SeedKind, SystemTask};
use ca_term::place::Place;
use ca_value::builtin::Builtin;
use ca_value::seq::Seq;
use std::alloc::Global;

/// What a form adds behind its operands, which have the first hidden names: further terms under hidden names,
/// and the body of the Let.
#[derive(Drop)]
pub struct Hidden {
    pub more: Seq<Made>,
    pub body: Made,
}

impl Hidden {
    /// The Let of the operands, from number `first` on, and of the further terms behind them.
    pub fn bind(
        self,
        alloc: Global,
        bodies: &mut Bodies,
        first: u64,
        operands: Seq<Made>,
    ) -> Result<Made, CheckError>
        requires { first + length (list operands) + length (list self.more) < 2 ^ 64 }
        ensures ok { IfOk result (λ t. limited (bind_of (bindings_joined (numbered first (terms_of (list operands))) (numbered (first + length (list operands)) (terms_of (list self.more)))) (kernel self.body)) (gathered bodies.old) ≡ done (kernel t) (gathered bodies.new)) }
        ensures err { IfErr result (λ e. e ≡ CheckError.OutOfMemory) }
    {
        let Hidden { more, body } = self;
        let values = joined_terms(operands, more)?;
        let text = bodies.bind(alloc, first, values, body)?;
        Ok(text)
    }
}

/// `(offer! c v)`, behind the port and the value.
pub fn offer(alloc: Global, first: u64, place: Place) -> Result<Hidden, CheckError>
    requires { first + 3 < 2 ^ 64 }
    ensures more { IfOk result (λ r. terms_of (list r.more) ≡ alts_or_nil (built Builtin.Vector (var first ∷ var (first + 1) ∷ []) place ∷ []) place ∷ []) }
    ensures body { IfOk result (λ r. kernel r.body ≡ seq_of (kernels_of (unless_default (first + 2) place ∷ []))) }
    ensures err { IfErr result (λ e. e ≡ CheckError.OutOfMemory) }
{
    let port = over(
        alloc,
        Head::Builtin(Builtin::Vector),
        &[first, first + 1],
        place,
    )?;
    trying(alloc, port, first + 2, place)
}

/// `(poll! c)`, behind the port.
pub fn poll(alloc: Global, first: u64, place: Place) -> Result<Hidden, CheckError>
    requires { first + 2 < 2 ^ 64 }
    ensures more { IfOk result (λ r. terms_of (list r.more) ≡ alts_or_nil (var first ∷ []) place ∷ []) }
    ensures body { IfOk result (λ r. kernel r.body ≡ seq_of (kernels_of (unless_default (first + 1) place ∷ []))) }
    ensures err { IfErr result (λ e. e ≡ CheckError.OutOfMemory) }
{
    trying(alloc, Made::local(first), first + 1, place)
}

// An alts of the port, whose answer has that number.
fn trying(alloc: Global, port: Made, answer: u64, place: Place) -> Result<Hidden, CheckError>
    requires { kernel_depth (kernel port) ≤ 2 }
    ensures more { IfOk result (λ r. terms_of (list r.more) ≡ alts_or_nil (kernel port ∷ []) place ∷ []) }
    ensures body { IfOk result (λ r. kernel r.body ≡ seq_of (kernels_of (unless_default answer place ∷ []))) }
    ensures err { IfErr result (λ e. e ≡ CheckError.OutOfMemory) }
{
    let alts = tried(alloc, port, place)?;
    let more = single(alloc, alts)?;
    let value = unless_default(alloc, answer, place)?;
    let values = single(alloc, value)?;
    let body = seq(alloc, values)?;
    Ok(Hidden { more, body })
}

// The further terms, a system task over names, and the name of that number as the value.
#[tactic(auto, using(crate::proofs::FixedLaws::vars_depth))]
fn answered(
    alloc: Global,
    more: Seq<Made>,
    task: SystemTask,
    numbers: &[u64],
    answer: u64,
    place: Place,
) -> Result<Hidden, CheckError>
    ensures more { IfOk result (λ r. list r.more ≡ list more) }
    ensures body { IfOk result (λ r. kernel r.body ≡ seq_of (kernels_of (spawn_call task (map var numbers.now) place ∷ var answer ∷ []))) }
    ensures err { IfErr result (λ e. e ≡ CheckError.OutOfMemory) }
{
    let term = started(alloc, task, numbers, place)?;
    let body = followed(alloc, term, Made::local(answer))?;
    Ok(Hidden { more, body })
}

/// `(mult c)`, behind the source.
pub fn mult(alloc: Global, first: u64, place: Place) -> Result<Hidden, CheckError>
    requires { first + 3 < 2 ^ 64 }
    ensures more { IfOk result (λ r. terms_of (list r.more) ≡ make_call MakeKind.Unbuffered [] place ∷ make_call MakeKind.Mult (var first ∷ []) place ∷ []) }
    ensures body { IfOk result (λ r. kernel r.body ≡ seq_of (kernels_of (spawn_call SystemTask.Mult (var (first + 2) ∷ var first ∷ var (first + 1) ∷ []) place ∷ var (first + 2) ∷ []))) }
    ensures err { IfErr result (λ e. e ≡ CheckError.OutOfMemory) }
{
    let answers = made(alloc, MakeKind::Unbuffered, &[], place)?;
    let entry = made(alloc, MakeKind::Mult, &[first], place)?;
    let more = pair(alloc, answers, entry)?;
    answered(
        alloc,
        more,
        SystemTask::Mult,
        &[first + 2, first, first + 1],
        first + 2,
        place,
    )
}

/// `(mix o)`, behind the output.
pub fn mix(alloc: Global, first: u64, place: Place) -> Result<Hidden, CheckError>
    requires { first + 3 < 2 ^ 64 }
    ensures more { IfOk result (λ r. terms_of (list r.more) ≡ make_call MakeKind.Sliding (whole_number 1 ∷ []) place ∷ make_call MakeKind.Mix (var first ∷ var (first + 1) ∷ []) place ∷ []) }
    ensures body { IfOk result (λ r. kernel r.body ≡ seq_of (kernels_of (spawn_call SystemTask.Mix (var (first + 2) ∷ var first ∷ var (first + 1) ∷ []) place ∷ var (first + 2) ∷ []))) }
    ensures err { IfErr result (λ e. e ≡ CheckError.OutOfMemory) }
{
    let changes = made_of_one(alloc, MakeKind::Sliding, place)?;
    let entry = made(alloc, MakeKind::Mix, &[first, first + 1], place)?;
    let more = pair(alloc, changes, entry)?;
    answered(
        alloc,
        more,
        SystemTask::Mix,
        &[first + 2, first, first + 1],
        first + 2,
        place,
    )
}

/// A change of a mix, behind the Register, whose value is the port that the mix hears of changes on.
pub fn changing(alloc: Global, first: u64, place: Place) -> Result<Hidden, CheckError>
    ensures more { IfOk result (λ r. terms_of (list r.more) ≡ []) }
    ensures body { IfOk result (λ r. kernel r.body ≡ seq_of (kernels_of (apply_of Head.Post (kernels_of (var first ∷ const (bool true) ∷ [])) place ∷ const nil ∷ []))) }
    ensures err { IfErr result (λ e. e ≡ CheckError.OutOfMemory) }
{
    let operands = pair(alloc, Made::local(first), yes())?;
    let notice = apply(alloc, Head::Post, operands, place)?;
    let body = followed(alloc, notice, nothing())?;
    Ok(Hidden {
        more: Seq::new(alloc),
        body,
    })
}

/// `(unsub p t c)`, behind the publication, the topic and the port.
pub fn unsub(alloc: Global, first: u64, place: Place) -> Result<Hidden, CheckError>
    requires { first + 4 < 2 ^ 64 }
    ensures more { IfOk result (λ r. terms_of (list r.more) ≡ register_call RegisterName.Find (var first ∷ var (first + 1) ∷ []) place ∷ []) }
    ensures body { IfOk result (λ r. kernel r.body ≡ seq_of (kernels_of (branch_of (built Builtin.IsSome (var (first + 3) ∷ []) place) (register_call RegisterName.Untap (nth_call (first + 3) 0 place ∷ var (first + 2) ∷ []) place) (const nil) ∷ const nil ∷ []))) }
    ensures err { IfErr result (λ e. e ≡ CheckError.OutOfMemory) }
{
    let found = registered(alloc, RegisterName::Find, &[first, first + 1], place)?;
    let more = single(alloc, found)?;
    let untap = untapped(alloc, first, place)?;
    let body = followed(alloc, untap, nothing())?;
    Ok(Hidden { more, body })
}

// The port is taken from the topic's mult, where the topic has an entry.
fn untapped(alloc: Global, first: u64, place: Place) -> Result<Made, CheckError>
    requires { first + 4 < 2 ^ 64 }
    ensures ok { IfOk result (λ t. kernel t ≡ branch_of (built Builtin.IsSome (var (first + 3) ∷ []) place) (register_call RegisterName.Untap (nth_call (first + 3) 0 place ∷ var (first + 2) ∷ []) place) (const nil)) }
    ensures err { IfErr result (λ e. e ≡ CheckError.OutOfMemory) }
{
    let entry = nth_of(alloc, first + 3, 0, place)?;
    let operands = pair(alloc, entry, Made::local(first + 2))?;
    let untap = apply(alloc, Head::Register(RegisterName::Untap), operands, place)?;
    let test = over(alloc, Head::Builtin(Builtin::IsSome), &[first + 3], place)?;
    branch(alloc, test, untap, nothing())
}

/// `(pipe f t z)`, behind the source, the target and whether to close.
pub fn pipe(alloc: Global, first: u64, place: Place) -> Result<Hidden, CheckError>
    requires { first + 3 < 2 ^ 64 }
    ensures more { IfOk result (λ r. terms_of (list r.more) ≡ []) }
    ensures body { IfOk result (λ r. kernel r.body ≡ seq_of (kernels_of (spawn_call SystemTask.Pipe (var first ∷ var (first + 1) ∷ var (first + 2) ∷ []) place ∷ var (first + 1) ∷ []))) }
    ensures err { IfErr result (λ e. e ≡ CheckError.OutOfMemory) }
{
    answered(
        alloc,
        Seq::new(alloc),
        SystemTask::Pipe,
        &[first, first + 1, first + 2],
        first + 1,
        place,
    )
}

/// `(merge v b)`, behind the vector of sources and the output.
pub fn merge(alloc: Global, first: u64, place: Place) -> Result<Hidden, CheckError>
    requires { first + 2 < 2 ^ 64 }
    ensures more { IfOk result (λ r. terms_of (list r.more) ≡ []) }
    ensures body { IfOk result (λ r. kernel r.body ≡ seq_of (kernels_of (spawn_call SystemTask.Merge (var first ∷ var (first + 1) ∷ []) place ∷ var (first + 1) ∷ []))) }
    ensures err { IfErr result (λ e. e ≡ CheckError.OutOfMemory) }
{
    answered(
        alloc,
        Seq::new(alloc),
        SystemTask::Merge,
        &[first, first + 1],
        first + 1,
        place,
    )
}

/// `(onto-chan! c v z)`, behind the port, the values and whether to close.
pub fn onto(alloc: Global, first: u64, place: Place) -> Result<Hidden, CheckError>
    requires { first + 4 < 2 ^ 64 }
    ensures more { IfOk result (λ r. terms_of (list r.more) ≡ make_call MakeKind.Fixed (whole_number 1 ∷ []) place ∷ []) }
    ensures body { IfOk result (λ r. kernel r.body ≡ seq_of (kernels_of (spawn_call SystemTask.Onto (var first ∷ var (first + 1) ∷ var (first + 2) ∷ var (first + 3) ∷ []) place ∷ var (first + 3) ∷ []))) }
    ensures err { IfErr result (λ e. e ≡ CheckError.OutOfMemory) }
{
    let answer = made_of_one(alloc, MakeKind::Fixed, place)?;
    let more = single(alloc, answer)?;
    answered(
        alloc,
        more,
        SystemTask::Onto,
        &[first, first + 1, first + 2, first + 3],
        first + 3,
        place,
    )
}

/// `(to-chan! v)`, behind the values.
pub fn to(alloc: Global, first: u64, place: Place) -> Result<Hidden, CheckError>
    requires { first + 3 < 2 ^ 64 }
    ensures more { IfOk result (λ r. terms_of (list r.more) ≡ make_call MakeKind.Sized (built Builtin.Min (whole_number 100 ∷ built Builtin.Count (var first ∷ []) place ∷ []) place ∷ []) place ∷ make_call MakeKind.Fixed (whole_number 1 ∷ []) place ∷ []) }
    ensures body { IfOk result (λ r. kernel r.body ≡ seq_of (kernels_of (spawn_call SystemTask.Onto (var (first + 1) ∷ var first ∷ const (bool true) ∷ var (first + 2) ∷ []) place ∷ var (first + 1) ∷ []))) }
    ensures err { IfErr result (λ e. e ≡ CheckError.OutOfMemory) }
{
    let port = sized_for(alloc, first, place)?;
    let answer = made_of_one(alloc, MakeKind::Fixed, place)?;
    let more = pair(alloc, port, answer)?;
    let task = putting(alloc, first, place)?;
    let body = followed(alloc, task, Made::local(first + 1))?;
    Ok(Hidden { more, body })
}

// The task that puts the values onto the port behind them, and closes it.
fn putting(alloc: Global, values: u64, place: Place) -> Result<Made, CheckError>
    requires { values + 3 < 2 ^ 64 }
    ensures ok { IfOk result (λ t. kernel t ≡ spawn_call SystemTask.Onto (var (values + 1) ∷ var values ∷ const (bool true) ∷ var (values + 2) ∷ []) place) }
    ensures err { IfErr result (λ e. e ≡ CheckError.OutOfMemory) }
{
    let operands = pair(alloc, Made::local(values + 1), Made::local(values))?;
    let operands = with_last(operands, yes())?;
    let operands = with_last(operands, Made::local(values + 2))?;
    apply(
        alloc,
        Head::Spawn(SeedKind::System(SystemTask::Onto)),
        operands,
        place,
    )
}

// A channel with room for the values of the name, and for 100 at most.
fn sized_for(alloc: Global, values: u64, place: Place) -> Result<Made, CheckError>
    ensures ok { IfOk result (λ t. kernel t ≡ make_call MakeKind.Sized (built Builtin.Min (whole_number 100 ∷ built Builtin.Count (var values ∷ []) place ∷ []) place ∷ []) place) }
    ensures err { IfErr result (λ e. e ≡ CheckError.OutOfMemory) }
{
    let count = over(alloc, Head::Builtin(Builtin::Count), &[values], place)?;
    let sides = pair(alloc, whole(100), count)?;
    let size = apply(alloc, Head::Builtin(Builtin::Min), sides, place)?;
    let operands = single(alloc, size)?;
    apply(alloc, Head::Make(MakeKind::Sized), operands, place)
}
