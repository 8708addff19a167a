ghost use Rattle.std.specs.Prelude.{◌≡◌, ◌≤◌, ◌<◌, ◌+◌, ◌^◌, IfOk, IfErr, [], ◌∷◌, ◌++◌, map};
ghost use Rattle.ca_value.specs.Seq.{list};
ghost use Rattle.ca_value.specs.Tree.{nil};
ghost use Rattle.ca_value.specs.declared.builtin.Builtin.{Builtin};
ghost use Rattle.ca_term.specs.Kernel.{const, var, branch as branch_of, seq as seq_of};
ghost use Rattle.ca_term.specs.View.{kernel, kernels_of};
ghost use Rattle.ca_term.specs.declared.head.MakeKind.{MakeKind};
ghost use Rattle.ca_term.specs.declared.head.SystemTask.{SystemTask};
ghost use Rattle.ca_forms.specs.Channels.{built, make_call, spawn_call, whole_number, repeated};
ghost use Rattle.ca_forms.specs.Depth.{kernel_depth};
ghost use Rattle.ca_forms.specs.GivenView.{keyword_terms};
ghost use Rattle.ca_forms.specs.Rounds.{recur_term, next_term};
ghost use Rattle.ca_forms.specs.WalkView.{terms_of};
ghost use Rattle.ca_forms.specs.declared.error.CheckError.{CheckError};

use crate::channels::Hidden;
use crate::error::CheckError;
use crate::fixed::{
    apply, branch, followed, locals, made, made_of_one, nothing, over, pair, repeat, seq, started,
    whole, with_last,
};
use crate::gathered::Made;
use crate::given::Applied;
use crate::operands::single;
use crate::rounds::recur_with_next;
use ca_term::head::{Head, MakeKind, SeedKind, SystemTask, Transform};
use ca_term::place::Place;
use ca_value::builtin::Builtin;
use ca_value::seq::{Seq, Text};
use ca_value::value::Value;
use std::alloc::Global;

// The operands, and the keyword behind them.
fn with_keyword(
    alloc: Global,
    operands: Seq<Made>,
    keyword: Option<Text>,
) -> Result<Seq<Made>, CheckError>
    ensures ok { IfOk result (λ s. terms_of (list s) ≡ terms_of (list operands) ++ keyword_terms keyword) }
    ensures err { IfErr result (λ e. e ≡ CheckError.OutOfMemory) }
{
    match keyword {
        None => Ok(operands),
        Some(name) => with_last(operands, Made::constant(Value::key(alloc, name)?)),
    }
}

/// A new system task over names, and a keyword that it applies.
#[tactic(auto, using(crate::proofs::FixedLaws::vars_and_keyword))]
pub fn applying(
    alloc: Global,
    task: SystemTask,
    numbers: &[u64],
    keyword: Option<Text>,
    place: Place,
) -> Result<Made, CheckError>
    ensures ok { IfOk result (λ t. kernel t ≡ spawn_call task (map var numbers.now ++ keyword_terms keyword) place) }
    ensures small { IfOk result (λ t. kernel_depth (kernel t) ≤ 2) }
    ensures err { IfErr result (λ e. e ≡ CheckError.OutOfMemory) }
{
    let operands = locals(alloc, numbers)?;
    let operands = with_keyword(alloc, operands, keyword)?;
    apply(alloc, Head::Spawn(SeedKind::System(task)), operands, place)
}

// What is done while the index is below the count: the job, and then the next round.
fn round(alloc: Global, count: u64, index: u64, job: Made, place: Place) -> Result<Made, CheckError>
    requires { kernel_depth (kernel job) ≤ 2 }
    ensures ok { IfOk result (λ t. kernel t ≡ branch_of (built Builtin.Less (var index ∷ var count ∷ []) place) (seq_of (kernels_of (kernel job ∷ recur_term (next_term index place ∷ []) place ∷ []))) (const nil)) }
    ensures err { IfErr result (λ e. e ≡ CheckError.OutOfMemory) }
{
    let again = recur_with_next(alloc, index, place)?;
    let turn = followed(alloc, job, again)?;
    let test = over(alloc, Head::Builtin(Builtin::Less), &[index, count], place)?;
    branch(alloc, test, turn, nothing())
}

// What is done as often as the name `count` says, `index` being the next number.
fn repeated(
    alloc: Global,
    count: u64,
    index: u64,
    job: Made,
    place: Place,
) -> Result<Made, CheckError>
    requires number { index + 1 < 2 ^ 64 }
    requires small { kernel_depth (kernel job) ≤ 2 }
    ensures ok { IfOk result (λ t. kernel t ≡ repeated count index (kernel job) place) }
    ensures err { IfErr result (λ e. e ≡ CheckError.OutOfMemory) }
{
    let turn = round(alloc, count, index, job, place)?;
    let turns = single(alloc, turn)?;
    let start = single(alloc, whole(0))?;
    let body = seq(alloc, turns)?;
    repeat(alloc, index, start, body)
}

/// `(pipeline n t xf f z)`, behind the count of workers, the target, the source and whether to close.
pub fn pipeline(
    alloc: Global,
    first: u64,
    transform: Transform,
    given: Applied,
    place: Place,
) -> Result<Hidden, CheckError>
    requires { first + 8 < 2 ^ 64 }
    ensures more { IfOk result (λ r. terms_of (list r.more) ≡ make_call MakeKind.Fixed (var first ∷ []) place ∷ make_call MakeKind.Fixed (var first ∷ []) place ∷ make_call MakeKind.Fixed (whole_number 1 ∷ []) place ∷ []) }
    ensures body { IfOk result (λ r. kernel r.body ≡ seq_of (kernels_of (repeated first (first + 7) (spawn_call (SystemTask.Job transform given.function) (var (first + 4) ∷ keyword_terms given.keyword) place) place
        ∷ spawn_call SystemTask.Feed (var (first + 2) ∷ var (first + 4) ∷ var (first + 5) ∷ []) place
        ∷ spawn_call SystemTask.Collect (var (first + 5) ∷ var (first + 1) ∷ var (first + 3) ∷ var (first + 6) ∷ []) place
        ∷ var (first + 6) ∷ []))) }
    ensures err { IfErr result (λ e. e ≡ CheckError.OutOfMemory) }
{
    let more = pipes(alloc, first, place)?;
    let Applied { function, keyword } = given;
    let job = applying(
        alloc,
        SystemTask::Job(transform, function),
        &[first + 4],
        keyword,
        place,
    )?;
    let jobs = repeated(alloc, first, first + 7, job, place)?;
    let feed = started(
        alloc,
        SystemTask::Feed,
        &[first + 2, first + 4, first + 5],
        place,
    )?;
    let tasks = pair(alloc, jobs, feed)?;
    let collect = started(
        alloc,
        SystemTask::Collect,
        &[first + 5, first + 1, first + 3, first + 6],
        place,
    )?;
    let tasks = with_last(tasks, collect)?;
    let terms = with_last(tasks, Made::local(first + 6))?;
    let body = seq(alloc, terms)?;
    Ok(Hidden { more, body })
}

// The channels of jobs and of results, and the port that answers at the end.
fn pipes(alloc: Global, workers: u64, place: Place) -> Result<Seq<Made>, CheckError>
    ensures ok { IfOk result (λ s. terms_of (list s) ≡ make_call MakeKind.Fixed (var workers ∷ []) place ∷ make_call MakeKind.Fixed (var workers ∷ []) place ∷ make_call MakeKind.Fixed (whole_number 1 ∷ []) place ∷ []) }
    ensures err { IfErr result (λ e. e ≡ CheckError.OutOfMemory) }
{
    let jobs = made(alloc, MakeKind::Fixed, &[workers], place)?;
    let results = made(alloc, MakeKind::Fixed, &[workers], place)?;
    let both = pair(alloc, jobs, results)?;
    let answer = made_of_one(alloc, MakeKind::Fixed, place)?;
    with_last(both, answer)
}
