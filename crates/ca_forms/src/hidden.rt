ghost use Rattle.std.specs.Prelude.{◌≡◌, ◌≤◌, ◌<◌, ◌+◌, ◌^◌, IfOk, IfErr, [], ◌∷◌, ◌++◌, length, true};
ghost use Rattle.ca_value.specs.Seq.{list};
ghost use Rattle.ca_value.specs.Tree.{nil, bool};
ghost use Rattle.ca_term.specs.Kernel.{const, var, seq as seq_of, apply as apply_of};
ghost use Rattle.ca_term.specs.View.{kernel, kernels_of};
ghost use Rattle.ca_term.specs.declared.head.Head.{Head};
ghost use Rattle.ca_term.specs.declared.head.MakeKind.{MakeKind};
ghost use Rattle.ca_term.specs.declared.head.SystemTask.{SystemTask};
ghost use Rattle.ca_forms.specs.Channels.{make_call, spawn_call, whole_number, repeated};
ghost use Rattle.ca_forms.specs.GivenView.{keyword_terms};
ghost use Rattle.ca_forms.specs.Outcome.{done};
ghost use Rattle.ca_forms.specs.Planned.{further, hidden_form_body, hidden_let, and_true};
ghost use Rattle.ca_forms.specs.WalkView.{gathered, terms_of};
ghost use Rattle.ca_forms.specs.declared.error.CheckError.{CheckError};

use crate::channels::{self, Hidden};
use crate::error::CheckError;
use crate::fixed::{with_last, yes};
use crate::gathered::{Bodies, Made};
use crate::given::Applied;
use crate::operands::single;
use crate::planned::HiddenForm;
use crate::{pipelines, publications};
use ca_term::head::Transform;
use ca_term::place::Place;
use ca_value::seq::Seq;
use std::alloc::Global;

// What stands behind the operands of such a form, the first of which has the number `first`.
fn behind(alloc: Global, form: HiddenForm, first: u64, place: Place) -> Result<Hidden, CheckError>
    requires { first + 9 < 2 ^ 64 }
    ensures more { IfOk result (λ r. terms_of (list r.more) ≡ further form place first) }
    ensures body { IfOk result (λ r. kernel r.body ≡ seq_of (kernels_of (hidden_form_body form place first))) }
    ensures err { IfErr result (λ e. e ≡ CheckError.OutOfMemory) }
{
    match form {
        HiddenForm::Offer => channels::offer(alloc, first, place),
        HiddenForm::Poll => channels::poll(alloc, first, place),
        HiddenForm::Mult => channels::mult(alloc, first, place),
        HiddenForm::Mix => channels::mix(alloc, first, place),
        HiddenForm::Sub => publications::sub(alloc, first, place),
        HiddenForm::Unsub => channels::unsub(alloc, first, place),
        HiddenForm::Pipe => channels::pipe(alloc, first, place),
        HiddenForm::Onto => channels::onto(alloc, first, place),
        HiddenForm::To => channels::to(alloc, first, place),
    }
}

/// The Let of the operands of such a form, from number `first` on.
pub fn hiding(
    alloc: Global,
    bodies: &mut Bodies,
    form: HiddenForm,
    first: u64,
    operands: Seq<Made>,
    place: Place,
) -> Result<Made, CheckError>
    requires { first + length (list operands) ≤ 2 ^ 63 }
    ensures ok { IfOk result (λ t. hidden_let first (terms_of (list operands)) (further form place first) (hidden_form_body form place first) (gathered bodies.old) ≡ done (kernel t) (gathered bodies.new)) }
    ensures err { IfErr result (λ e. e ≡ CheckError.OutOfMemory) }
{
    let behind = behind(alloc, form, first, place)?;
    behind.bind(alloc, bodies, first, operands)
}

/// A change of a mix, `entry` being the Register.
pub fn changing(
    alloc: Global,
    bodies: &mut Bodies,
    first: u64,
    entry: Made,
    place: Place,
) -> Result<Made, CheckError>
    requires { first < 2 ^ 63 }
    ensures ok { IfOk result (λ t. hidden_let first (kernel entry ∷ []) [] (apply_of Head.Post (kernels_of (var first ∷ const (bool true) ∷ [])) place ∷ const nil ∷ []) (gathered bodies.old) ≡ done (kernel t) (gathered bodies.new)) }
    ensures err { IfErr result (λ e. e ≡ CheckError.OutOfMemory) }
{
    let operands = single(alloc, entry)?;
    let behind = channels::changing(alloc, first, place)?;
    behind.bind(alloc, bodies, first, operands)
}

/// A merge of the sources that the first operand has, into the second.
pub fn merging(
    alloc: Global,
    bodies: &mut Bodies,
    first: u64,
    operands: Seq<Made>,
    place: Place,
) -> Result<Made, CheckError>
    requires { first + length (list operands) ≤ 2 ^ 63 }
    ensures ok { IfOk result (λ t. hidden_let first (terms_of (list operands)) [] (spawn_call SystemTask.Merge (var first ∷ var (first + 1) ∷ []) place ∷ var (first + 1) ∷ []) (gathered bodies.old) ≡ done (kernel t) (gathered bodies.new)) }
    ensures err { IfErr result (λ e. e ≡ CheckError.OutOfMemory) }
{
    let behind = channels::merge(alloc, first, place)?;
    behind.bind(alloc, bodies, first, operands)
}

/// A publication of what the operand gives, by the given function.
pub fn publishing(
    alloc: Global,
    bodies: &mut Bodies,
    first: u64,
    given: Applied,
    operands: Seq<Made>,
    place: Place,
) -> Result<Made, CheckError>
    requires { first + length (list operands) ≤ 2 ^ 63 }
    ensures ok { IfOk result (λ t. hidden_let first (terms_of (list operands)) (make_call MakeKind.Pub (var first ∷ []) place ∷ []) (spawn_call (SystemTask.Pub given.function) (var (first + 1) ∷ var first ∷ keyword_terms given.keyword) place ∷ var (first + 1) ∷ []) (gathered bodies.old) ≡ done (kernel t) (gathered bodies.new)) }
    ensures err { IfErr result (λ e. e ≡ CheckError.OutOfMemory) }
{
    let behind = publications::publication(alloc, first, given, place)?;
    behind.bind(alloc, bodies, first, operands)
}

/// A pipeline between the operands: the count of workers, the target, the source and whether to close.
pub fn pipelining(
    alloc: Global,
    bodies: &mut Bodies,
    first: u64,
    transform: Transform,
    given: Applied,
    operands: Seq<Made>,
    place: Place,
) -> Result<Made, CheckError>
    requires { first + length (list operands) ≤ 2 ^ 63 }
    ensures ok { IfOk result (λ t. hidden_let first (terms_of (list operands)) (make_call MakeKind.Fixed (var first ∷ []) place ∷ make_call MakeKind.Fixed (var first ∷ []) place ∷ make_call MakeKind.Fixed (whole_number 1 ∷ []) place ∷ [])
        (repeated first (first + 7) (spawn_call (SystemTask.Job transform given.function) (var (first + 4) ∷ keyword_terms given.keyword) place) place
        ∷ spawn_call SystemTask.Feed (var (first + 2) ∷ var (first + 4) ∷ var (first + 5) ∷ []) place
        ∷ spawn_call SystemTask.Collect (var (first + 5) ∷ var (first + 1) ∷ var (first + 3) ∷ var (first + 6) ∷ []) place
        ∷ var (first + 6) ∷ []) (gathered bodies.old) ≡ done (kernel t) (gathered bodies.new)) }
    ensures err { IfErr result (λ e. e ≡ CheckError.OutOfMemory) }
{
    let behind = pipelines::pipeline(alloc, first, transform, given, place)?;
    behind.bind(alloc, bodies, first, operands)
}

/// The operands, and `true` behind them for an option that isn't written.
#[tactic(auto, using(crate::proofs::BindLaws::terms_append))]
pub fn and_true(unwritten: bool, operands: Seq<Made>) -> Result<Seq<Made>, CheckError>
    ensures ok { IfOk result (λ s. terms_of (list s) ≡ and_true unwritten (terms_of (list operands))) }
    ensures longer { IfOk result (λ s. length (list s) ≤ length (list operands) + 1) }
    ensures err { IfErr result (λ e. e ≡ CheckError.OutOfMemory) }
{
    if unwritten {
        with_last(operands, yes())
    } else {
        Ok(operands)
    }
}
