ghost use Rattle.std.specs.Prelude.{◌≡◌, ◌++◌, ◌∷◌, [], IsTrue, IfOk, None, cond, option_map};
ghost use Rattle.ca_value.specs.Seq.{list};
ghost use Rattle.ca_value.specs.View.{view, trees};
ghost use Rattle.ca_value.specs.Builtins.{admits_arguments, builtin_result};
ghost use Rattle.ca_term.specs.Fits.{count_terms};
ghost use Rattle.ca_term.specs.Kernel.{const, apply, frame};
ghost use Rattle.ca_term.specs.Program.{program_view};
ghost use Rattle.ca_term.specs.View.{kernel, kernels, bindings, founds};
ghost use Rattle.ca_meaning.specs.Redex.{value_of, values_of};
ghost use Rattle.ca_meaning.specs.Operands.{truth, values_in};
ghost use Rattle.ca_meaning.specs.Started.{procedure_at, started};
ghost use Rattle.ca_meaning.specs.Body.{contract, after_let, after_loop, after_do, after_turn, after_apply, value_in, outcome_fault, fault_of};
ghost use Rattle.ca_meaning.specs.Parts.{IsAdmitted, recur_operands};

use crate::body::FaultAt;
use crate::started::{loop_text, names_of, text_with};
use ca_asking::judging::task_fault;
use ca_asking::operands::{AsOperand, copies, is_true};
use ca_term::copy::{copy_found, copy_names, copy_terms};
use ca_term::head::Head;
use ca_term::place::Place;
use ca_term::program::Program;
use ca_term::put::bindings_with;
use ca_term::term::{Binding, Found, Term};
use ca_value::builtin::{Builtin, apply_builtin};
use ca_value::fault::ApplyError;
use ca_value::memory::OutOfMemory;
use ca_value::seq::Seq;
use ca_value::value::{Items, Value};
use std::alloc::Global;

// What a local step makes of a redex, and the fault that a builtin came to.
#[derive(Drop)]
pub(crate) struct Contractum {
    pub(crate) term: Term,
    pub(crate) fault: Option<FaultAt>,
}

impl Contractum {
    fn of(term: Term) -> Contractum
        ensures { result ≡ record { term = term; fault = None } }
    {
        Contractum { term, fault: None }
    }
}

// What a local step makes of a redex, in memory of its own.
pub(crate) fn contracted(
    alloc: Global,
    program: &Program,
    redex: &Term,
) -> Result<Contractum, OutOfMemory>
    requires { IsAdmitted (kernel redex.now) }
    ensures term { IfOk result (λ c. kernel c.term ≡ contract (program_view program.now) (kernel redex.now)) }
    ensures fault { IfOk result (λ c. c.fault ≡ fault_of (kernel redex.now)) }
{
    match redex {
        Term::Const(_) | Term::Var(_) => Ok(Contractum::of(redex.copy(alloc)?)),
        Term::If(test, then, otherwise) => {
            Ok(Contractum::of(contracted_if(alloc, test, then, otherwise)?))
        }
        Term::Let(rest, body) => Ok(Contractum::of(contracted_let(alloc, rest, body)?)),
        Term::Loop(known, rest, text) => {
            Ok(Contractum::of(contracted_loop(alloc, known, rest, text)?))
        }
        Term::Do(terms) => Ok(Contractum::of(contracted_do(alloc, terms)?)),
        Term::Frame(body) => Ok(Contractum::of(body.copy(alloc)?)),
        Term::Turn(names, text, now) => {
            Ok(Contractum::of(contracted_turn(alloc, names, text, now)?))
        }
        Term::Apply(head, operands, place) => {
            contracted_apply(alloc, program, *head, operands, *place)
        }
    }
}

fn contracted_if(
    alloc: Global,
    test: &Term,
    then: &Term,
    otherwise: &Term,
) -> Result<Term, OutOfMemory>
    ensures { IfOk result (λ t. kernel t ≡ cond (truth (value_of (kernel test.now))) (kernel then.now) (kernel otherwise.now)) }
{
    let nil = Value::Nil;
    if is_true(test.value(&nil)) {
        then.copy(alloc)
    } else {
        otherwise.copy(alloc)
    }
}

// The first binding's value is put into the others and into the body.
fn contracted_let(alloc: Global, rest: &Seq<Binding>, body: &Term) -> Result<Term, OutOfMemory>
    ensures { IfOk result (λ t. kernel t ≡ after_let (bindings (list rest.now)) (kernel body.now)) }
{
    let Some((first, later)) = rest.as_slice().split_first() else {
        return body.copy(alloc);
    };
    let nil = Value::Nil;
    let value = first.term.value(&nil);
    let later = bindings_with(alloc, later, first.name, value)?;
    let body = body.with(alloc, first.name, value)?;
    Ok(Term::Let(later, Box::new(alloc, body)?))
}

// The first binding's value is put into the others alone, and kept for the text. With no binding left the loop
// runs.
fn contracted_loop(
    alloc: Global,
    known: &Seq<Found>,
    rest: &Seq<Binding>,
    text: &Term,
) -> Result<Term, OutOfMemory>
    ensures { IfOk result (λ t. kernel t ≡ after_loop (founds (list known.now)) (bindings (list rest.now)) (kernel text.now)) }
{
    let again = Box::new(alloc, text.copy(alloc)?)?;
    let Some((first, later)) = rest.as_slice().split_first() else {
        let now = Box::new(alloc, loop_text(alloc, known, text)?)?;
        return Ok(Term::Turn(names_of(alloc, known)?, again, now));
    };
    let nil = Value::Nil;
    let value = first.term.value(&nil);
    let others = bindings_with(alloc, later, first.name, value)?;
    Ok(Term::Loop(found_more(alloc, known, first.name, value)?, others, again))
}

// The names that have their values, and one more.
#[tactic(auto, using(crate::proofs::OperandLaws::founds_append))]
fn found_more(
    alloc: Global,
    known: &Seq<Found>,
    name: u64,
    value: &Value,
) -> Result<Seq<Found>, OutOfMemory>
    ensures { IfOk result (λ s. founds (list s) ≡ founds (list known.now) ++ (name, view value.now) ∷ []) }
{
    let mut found = copy_found(alloc, known)?;
    found.reserve(1)?;
    found.push(Found {
        name,
        value: value.copy(alloc)?,
    });
    Ok(found)
}

// The first term is left behind; the last one stands alone.
fn contracted_do(alloc: Global, terms: &Seq<Term>) -> Result<Term, OutOfMemory>
    ensures { IfOk result (λ t. kernel t ≡ after_do (kernels (list terms.now))) }
{
    match terms.as_slice().split_first() {
        None => Ok(Term::Const(Value::Nil)),
        Some((first, rest)) => {
            if rest.is_empty() {
                first.copy(alloc)
            } else {
                Ok(Term::Do(copy_terms(alloc, rest)?))
            }
        }
    }
}

// A recur begins the text again with its values; a value leaves the loop.
fn contracted_turn(
    alloc: Global,
    names: &Seq<u64>,
    text: &Term,
    now: &Term,
) -> Result<Term, OutOfMemory>
    ensures { IfOk result (λ t. kernel t ≡ after_turn (list names.now) (kernel text.now) (kernel now.now)) }
{
    match recur_operands(now) {
        Some(operands) => {
            let now = Box::new(alloc, text_with(alloc, names, operands, text)?)?;
            let text = Box::new(alloc, text.copy(alloc)?)?;
            Ok(Term::Turn(copy_names(alloc, names)?, text, now))
        }
        None => now.copy(alloc),
    }
}

// The operands of a recur.
fn recur_operands(term: &Term) -> Option<&Seq<Term>>
    ensures { option_map (λ s. kernels (list s.now)) result ≡ recur_operands (kernel term.now) }
{
    match term {
        Term::Apply(Head::Recur, operands, _) => Some(operands),
        _ => None,
    }
}

// A form whose operands are values.
fn contracted_apply(
    alloc: Global,
    program: &Program,
    head: Head,
    operands: &Seq<Term>,
    place: Place,
) -> Result<Contractum, OutOfMemory>
    requires { IsAdmitted (apply head (kernels (list operands.now)) place) }
    ensures term { IfOk result (λ c. kernel c.term ≡ after_apply (program_view program.now) (kernels (list operands.now)) place head) }
    ensures fault { IfOk result (λ c. c.fault ≡ fault_of (apply head (kernels (list operands.now)) place)) }
{
    match head {
        Head::Builtin(builtin) => evaluated(alloc, builtin, operands, place),
        Head::Call(number) => Ok(Contractum::of(called(alloc, program, number, operands)?)),
        Head::Recur | Head::Take | Head::Put | Head::Alts(_) | Head::Make(_) | Head::Spawn(_) => {
            Ok(Contractum::of(unchanged(alloc, head, operands, place)?))
        }
        Head::Close | Head::Register(_) | Head::Print | Head::Post => {
            Ok(Contractum::of(unchanged(alloc, head, operands, place)?))
        }
    }
}

// No local step changes an operation.
fn unchanged(
    alloc: Global,
    head: Head,
    operands: &Seq<Term>,
    place: Place,
) -> Result<Term, OutOfMemory>
    ensures { IfOk result (λ t. kernel t ≡ apply head (kernels (list operands.now)) place) }
{
    Ok(Term::Apply(head, copy_terms(alloc, operands.as_slice())?, place))
}

// Copies of the operands' values.
fn values(alloc: Global, operands: &Seq<Term>) -> Result<Items, OutOfMemory>
    ensures { IfOk result (λ s. trees (list s) ≡ values_of (kernels (list operands.now))) }
{
    copies(alloc, operands.as_slice())
}

// A builtin's value, or its fault.
fn evaluated(
    alloc: Global,
    builtin: Builtin,
    operands: &Seq<Term>,
    place: Place,
) -> Result<Contractum, OutOfMemory>
    requires { IsTrue (admits_arguments builtin (count_terms (kernels (list operands.now)))) }
    ensures term { IfOk result (λ c. kernel c.term ≡ const (value_in (builtin_result builtin (values_of (kernels (list operands.now)))))) }
    ensures fault { IfOk result (λ c. c.fault ≡ outcome_fault place (builtin_result builtin (values_of (kernels (list operands.now))))) }
{
    let args = values(alloc, operands)?;
    match apply_builtin(alloc, builtin, args) {
        Ok(value) => Ok(Contractum::of(Term::Const(value))),
        Err(ApplyError::Fault(fault)) => Ok(Contractum {
            term: Term::Const(Value::Nil),
            fault: Some(FaultAt {
                fault: task_fault(fault),
                place,
            }),
        }),
        Err(ApplyError::OutOfMemory) => Err(OutOfMemory),
    }
}

// A call becomes a frame of the function's text, with the values in place of its parameters.
fn called(
    alloc: Global,
    program: &Program,
    number: u64,
    operands: &Seq<Term>,
) -> Result<Term, OutOfMemory>
    ensures { IfOk result (λ t. kernel t ≡ frame (started (procedure_at (program_view program.now).functions number) (values_in (values_of (kernels (list operands.now)))))) }
{
    let body = function_text(alloc, program, number, operands)?;
    Ok(Term::Frame(Box::new(alloc, body)?))
}

// The function's text with the values in place of its parameters.
fn function_text(
    alloc: Global,
    program: &Program,
    number: u64,
    operands: &Seq<Term>,
) -> Result<Term, OutOfMemory>
    ensures { IfOk result (λ t. kernel t ≡ started (procedure_at (program_view program.now).functions number) (values_in (values_of (kernels (list operands.now))))) }
{
    match program.function(number) {
        None => Ok(Term::Const(Value::Nil)),
        Some(function) => text_with(alloc, &function.parameters, operands, &function.body),
    }
}
