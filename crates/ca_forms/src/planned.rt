ghost use Rattle.std.specs.Prelude.{◌≡◌, ◌<◌, [], ◌∷◌, length, drop, cond, Some, option_map};
ghost use Rattle.ca_reader.specs.View.{form_tree};
ghost use Rattle.ca_forms.specs.Walk.{within};
ghost use Rattle.ca_forms.specs.Channels.{transform_named, word_of_part};
ghost use Rattle.ca_forms.specs.declared.planned.Planned.{Planned};
ghost use Rattle.ca_forms.specs.Planned.{misshapen, shaped, only_in_go_text, blocked, plan_of, plan_of_entry, plan_of_flow, plan_of_alts, plan_of_merge, plan_of_transform, plan_of_pipeline, function_within};
ghost use Rattle.ca_forms.specs.WalkView.{part, form_parts, form_pairs};

use crate::context::Context;
use crate::error::CheckErrorKind;
use crate::options::{is_sized, options_in, transform_named, word_in};
use crate::special::Special;
use ca_reader::form::{Form, Shape};
use ca_term::head::{AltsOptions, Head, MakeKind, RegisterName, Transform};

/// A form that binds its operands to hidden names, by what stands behind them.
#[derive(Clone, Copy)]
pub enum HiddenForm {
    Offer,
    Poll,
    Mult,
    Mix,
    Sub,
    Unsub,
    Pipe,
    Onto,
    To,
}

/// What a form of core.async is, once its shape and its place are judged.
#[derive(Clone, Copy)]
pub enum Planned {
    /// The form's own error.
    Wrong(CheckErrorKind),
    /// One operation over all parts.
    Operands(Head),
    /// One operation over all parts and `true`, for an option that isn't written.
    OperandsAndYes(Head),
    /// An alts: the keywords of its options are no operands.
    Alts(AltsOptions),
    /// A new channel, its shape yet to be judged.
    Chan,
    /// All parts under hidden names.
    Hidden(HiddenForm),
    /// All parts and `true` under hidden names.
    HiddenAndYes(HiddenForm),
    /// A change of a mix.
    Changing(RegisterName),
    Pub,
    Merge,
    Pipeline(Transform),
}

const WRONG: Planned = Planned::Wrong(CheckErrorKind::BadForm);

// By how many parts stand behind the word, from none on.
#[tactic(auto, using(crate::proofs::PlanLaws::shaped_some, crate::proofs::PlanLaws::shaped_none))]
fn shaped(choices: &[Planned], parts: &[Form]) -> Planned
    requires { 0 < length parts.now }
    ensures { result ≡ shaped choices.now (form_parts (drop 1 parts.now)) }
{
    match choices.get(parts.len() - 1) {
        Some(planned) => *planned,
        None => WRONG,
    }
}

// One part stands behind the word.
fn of_one(planned: Planned, parts: &[Form]) -> Planned
    requires { 0 < length parts.now }
    ensures { result ≡ shaped (misshapen ∷ planned ∷ []) (form_parts (drop 1 parts.now)) }
{
    shaped(&[WRONG, planned], parts)
}

// Two parts do.
fn of_two(planned: Planned, parts: &[Form]) -> Planned
    requires { 0 < length parts.now }
    ensures { result ≡ shaped (misshapen ∷ misshapen ∷ planned ∷ []) (form_parts (drop 1 parts.now)) }
{
    shaped(&[WRONG, WRONG, planned], parts)
}

// Two parts do, or an option as the third.
fn with_option(unwritten: Planned, written: Planned, parts: &[Form]) -> Planned
    requires { 0 < length parts.now }
    ensures { result ≡ shaped (misshapen ∷ misshapen ∷ unwritten ∷ written ∷ []) (form_parts (drop 1 parts.now)) }
{
    shaped(&[WRONG, WRONG, unwritten, written], parts)
}

fn parked(context: Context, planned: Planned) -> Planned
    ensures { result ≡ only_in_go_text context planned }
{
    match (planned, context) {
        (Planned::Wrong(kind), _) => Planned::Wrong(kind),
        (_, Context::Go) => planned,
        (_, Context::Main | Context::Function) => Planned::Wrong(CheckErrorKind::ParkOutsideGo),
    }
}

fn blocked(context: Context, planned: Planned) -> Planned
    ensures { result ≡ blocked context planned }
{
    match (planned, context) {
        (Planned::Wrong(kind), _) => Planned::Wrong(kind),
        (_, Context::Main) => planned,
        (_, Context::Go | Context::Function) => Planned::Wrong(CheckErrorKind::BlockOutsideMain),
    }
}

fn plan_of_alts(options: Option<AltsOptions>) -> Planned
    ensures { result ≡ plan_of_alts options }
{
    match options {
        Some(options) => Planned::Alts(options),
        None => WRONG,
    }
}

// A buffer's word has one size behind it.
#[tactic(auto, using(crate::proofs::PlanLaws::merge_one, crate::proofs::PlanLaws::merge_two, crate::proofs::PlanLaws::merge_off))]
fn plan_of_merge(parts: &[Form]) -> Planned
    ensures { result ≡ plan_of_merge (form_parts (drop 1 parts.now)) }
{
    match parts {
        [_, _] => Planned::Merge,
        [_, _, buffer] => sized_merge(is_sized(buffer)),
        _ => WRONG,
    }
}

fn sized_merge(sized: bool) -> Planned
    ensures { result ≡ cond sized Planned.Merge misshapen }
{
    if sized { Planned::Merge } else { WRONG }
}

// One function stands behind the transform's word.
fn plan_of_transform(form: &Form) -> Planned
    ensures { result ≡ plan_of_transform (transform_named (word_of_part (part form.now))) (part form.now).within }
{
    match transform_named(word_in(form)) {
        Some(transform) => plan_over(transform, form),
        None => WRONG,
    }
}

fn plan_over(transform: Transform, form: &Form) -> Planned
    ensures { result ≡ plan_of_transform (Some transform) (part form.now).within }
{
    match &form.shape {
        Shape::List(forms) => plan_within(transform, forms.as_slice()),
        Shape::Vector(forms) => plan_within(transform, forms.as_slice()),
        Shape::Map(forms) => plan_within(transform, forms.as_slice()),
        Shape::Nil | Shape::Bool(_) | Shape::Int(_) => WRONG,
        Shape::Text(_) | Shape::Key(_) | Shape::Symbol(_) => WRONG,
    }
}

#[tactic(auto, using(crate::proofs::PlanLaws::transform_on, crate::proofs::PlanLaws::transform_off))]
fn plan_within(transform: Transform, forms: &[Form]) -> Planned
    ensures { result ≡ plan_of_transform (Some transform) (form_pairs forms.now) }
{
    if forms.len() == 2 {
        Planned::Pipeline(transform)
    } else {
        WRONG
    }
}

#[tactic(auto, using(crate::proofs::PlanLaws::pipeline_four, crate::proofs::PlanLaws::pipeline_five, crate::proofs::PlanLaws::pipeline_off))]
fn plan_of_pipeline(parts: &[Form]) -> Planned
    ensures { result ≡ plan_of_pipeline (form_parts (drop 1 parts.now)) }
{
    match parts {
        [_, _, _, transform, _] => plan_of_transform(transform),
        [_, _, _, transform, _, _] => plan_of_transform(transform),
        _ => WRONG,
    }
}

// What is done once: new tasks between channels.
fn plan_of_flow(word: Special, parts: &[Form]) -> Planned
    requires { 0 < length parts.now }
    ensures { result ≡ plan_of_flow word (form_parts (drop 1 parts.now)) }
{
    match word {
        Special::Pub => of_two(Planned::Pub, parts),
        Special::Pipe => with_option(
            Planned::HiddenAndYes(HiddenForm::Pipe),
            Planned::Hidden(HiddenForm::Pipe),
            parts,
        ),
        Special::Merge => plan_of_merge(parts),
        Special::Pipeline => plan_of_pipeline(parts),
        Special::OntoChan => with_option(
            Planned::HiddenAndYes(HiddenForm::Onto),
            Planned::Hidden(HiddenForm::Onto),
            parts,
        ),
        Special::ToChan => of_one(Planned::Hidden(HiddenForm::To), parts),
        _ => WRONG,
    }
}

// Mults, mixes and publications.
fn plan_of_entry(word: Special, parts: &[Form]) -> Planned
    requires { 0 < length parts.now }
    ensures { result ≡ plan_of_entry word (form_parts (drop 1 parts.now)) }
{
    match word {
        Special::Mult => of_one(Planned::Hidden(HiddenForm::Mult), parts),
        Special::Tap => with_option(
            Planned::OperandsAndYes(Head::Register(RegisterName::Tap)),
            Planned::Operands(Head::Register(RegisterName::Tap)),
            parts,
        ),
        Special::Untap => of_two(
            Planned::Operands(Head::Register(RegisterName::Untap)),
            parts,
        ),
        Special::UntapAll => of_one(
            Planned::Operands(Head::Register(RegisterName::UntapAll)),
            parts,
        ),
        Special::Mix => of_one(Planned::Hidden(HiddenForm::Mix), parts),
        Special::Admix => of_two(Planned::Changing(RegisterName::Admix), parts),
        Special::Unmix => of_two(Planned::Changing(RegisterName::Unmix), parts),
        Special::UnmixAll => of_one(Planned::Changing(RegisterName::UnmixAll), parts),
        Special::Toggle => of_two(Planned::Changing(RegisterName::Toggle), parts),
        Special::SoloMode => of_two(Planned::Changing(RegisterName::SoloMode), parts),
        Special::Sub => shaped(
            &[
                WRONG,
                WRONG,
                WRONG,
                Planned::HiddenAndYes(HiddenForm::Sub),
                Planned::Hidden(HiddenForm::Sub),
            ],
            parts,
        ),
        Special::Unsub => shaped(
            &[WRONG, WRONG, WRONG, Planned::Hidden(HiddenForm::Unsub)],
            parts,
        ),
        Special::UnsubAll => shaped(
            &[
                WRONG,
                Planned::Operands(Head::Register(RegisterName::Clear)),
                Planned::Operands(Head::Register(RegisterName::Drop)),
            ],
            parts,
        ),
        _ => plan_of_flow(word, parts),
    }
}

/// What the form of that word is, its word standing first among its parts.
pub fn plan_of(word: Special, context: Context, parts: &[Form]) -> Planned
    requires { 0 < length parts.now }
    ensures { result ≡ plan_of word context (form_parts (drop 1 parts.now)) }
{
    match word {
        Special::Take => parked(context, of_one(Planned::Operands(Head::Take), parts)),
        Special::TakeBlocking => blocked(context, of_one(Planned::Operands(Head::Take), parts)),
        Special::Put => parked(context, of_two(Planned::Operands(Head::Put), parts)),
        Special::PutBlocking => blocked(context, of_two(Planned::Operands(Head::Put), parts)),
        Special::Alts => parked(context, plan_of_alts(options_in(parts))),
        Special::AltsBlocking => blocked(context, plan_of_alts(options_in(parts))),
        Special::Offer => of_two(Planned::Hidden(HiddenForm::Offer), parts),
        Special::Poll => of_one(Planned::Hidden(HiddenForm::Poll), parts),
        Special::Post => of_two(Planned::Operands(Head::Post), parts),
        Special::Close => of_one(Planned::Operands(Head::Close), parts),
        Special::Chan => Planned::Chan,
        Special::PromiseChan => shaped(&[Planned::Operands(Head::Make(MakeKind::Promise))], parts),
        Special::Timeout => of_one(Planned::Operands(Head::Make(MakeKind::Timeout)), parts),
        _ => plan_of_entry(word, parts),
    }
}

/// The function behind the word of a transform, where it is the only part.
pub fn function_in(form: &Form) -> Option<&Form>
    ensures { option_map (λ f. form_tree f.now) result ≡ function_within (within (form_tree form.now)) }
{
    match &form.shape {
        Shape::List(forms) => second_of_two(forms.as_slice()),
        Shape::Vector(forms) => second_of_two(forms.as_slice()),
        Shape::Map(forms) => second_of_two(forms.as_slice()),
        Shape::Nil | Shape::Bool(_) | Shape::Int(_) => None,
        Shape::Text(_) | Shape::Key(_) | Shape::Symbol(_) => None,
    }
}

#[tactic(auto, using(crate::proofs::PlanLaws::second_on, crate::proofs::PlanLaws::second_off))]
fn second_of_two(forms: &[Form]) -> Option<&Form>
    ensures { option_map (λ f. form_tree f.now) result ≡ function_within (form_pairs forms.now) }
{
    match forms {
        [_, second] => Some(second),
        _ => None,
    }
}
