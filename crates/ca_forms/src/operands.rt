ghost use Rattle.std.specs.Prelude.{◌≡◌, ◌≤◌, ◌<◌, IfOk, IfErr, OnOk, [], ◌∷◌, ◌++◌, length, map, nat_lt, cond};
ghost use Rattle.ca_value.specs.Seq.{list};
ghost use Rattle.ca_value.specs.Tree.{text, key};
ghost use Rattle.ca_term.specs.Kernel.{const, item};
ghost use Rattle.ca_term.specs.View.{kernel, kernels};
ghost use Rattle.ca_forms.specs.declared.error.CheckError.{CheckError};
ghost use Rattle.ca_forms.specs.Meaning.{Env, constant_value};
ghost use Rattle.ca_forms.specs.Names.{written_text, is_known};
ghost use Rattle.ca_forms.specs.Outcome.{Gathered, done};
ghost use Rattle.ca_forms.specs.Operands.{with_vars, with_second};
ghost use Rattle.ca_forms.specs.WalkView.{Fails};

use crate::error::{CheckError, CheckErrorKind};
use crate::functions::Functions;
use crate::gathered::Made;
use crate::special::Special;
use crate::words;
use ca_term::place::Place;
use ca_value::seq::{Seq, Text};
use ca_value::value::Value;
use std::alloc::Global;

/// The text as a constant; `TooMany` where it is longer than 65,535 bytes.
pub fn text_constant(alloc: Global, bytes: &Text, place: Place) -> Result<Made, CheckError>
    ensures ok { IfOk result (λ t. (env : Env) (s : Gathered) → written_text (list bytes.now) place (constant_value (text (list bytes.now))) env s ≡ done (kernel t) s) }
    ensures err { IfErr result (λ e. (env : Env) (s : Gathered) → Fails e (written_text (list bytes.now) place (constant_value (text (list bytes.now))) env s)) }
{
    if 65535 < bytes.len() {
        return Err(CheckError::Fault(CheckErrorKind::TooMany, place));
    }
    Ok(Made::constant(Value::text(alloc, bytes.copy(alloc)?)?))
}

/// The keyword as a constant; `TooMany` where it is longer than 65,535 bytes.
pub fn key_constant(alloc: Global, bytes: &Text, place: Place) -> Result<Made, CheckError>
    ensures ok { IfOk result (λ t. (env : Env) (s : Gathered) → written_text (list bytes.now) place (constant_value (key (list bytes.now))) env s ≡ done (kernel t) s) }
    ensures is { IfOk result (λ t. kernel t ≡ const (key (list bytes.now))) }
    ensures short { OnOk result (length (list bytes.now) ≤ 65535) }
    ensures err { IfErr result (λ e. (env : Env) (s : Gathered) → Fails e (written_text (list bytes.now) place (constant_value (key (list bytes.now))) env s)) }
{
    if 65535 < bytes.len() {
        return Err(CheckError::Fault(CheckErrorKind::TooMany, place));
    }
    Ok(Made::constant(Value::key(alloc, bytes.copy(alloc)?)?))
}

/// The operands, and the names behind them.
pub fn with_names(
    alloc: Global,
    mut operands: Seq<Made>,
    names: &[u64],
) -> Result<Seq<Made>, CheckError>
    ensures ok { IfOk result (λ s. kernels (list s) ≡ with_vars (kernels (list operands)) names.now) }
    ensures err { IfErr result (λ e. e ≡ CheckError.OutOfMemory) }
{
    operands.reserve(names.len() as u64)?;
    for name in names {
        operands.push(Made::local(*name));
    }
    Ok(operands)
}

/// The operands with another in second place, where there is a first.
pub fn with_second(operands: Seq<Made>, second: Made) -> Result<Seq<Made>, CheckError>
    ensures ok { IfOk result (λ s. kernels (list s) ≡ with_second (kernels (list operands)) (kernel second)) }
    ensures err { IfErr result (λ e. e ≡ CheckError.OutOfMemory) }
{
    let mut items = operands.into_vec();
    if 0 < items.len() {
        let Ok(()) = items.insert(1, second) else {
            return Err(CheckError::OutOfMemory);
        };
    }
    Ok(Seq::from_vec(items))
}

/// One term alone.
pub fn single(alloc: Global, term: Made) -> Result<Seq<Made>, CheckError>
    ensures ok { IfOk result (λ s. list s ≡ term ∷ []) }
    ensures err { IfErr result (λ e. e ≡ CheckError.OutOfMemory) }
{
    let mut terms = Seq::new(alloc);
    terms.reserve(1)?;
    terms.push(term);
    Ok(terms)
}

/// The name is that of a function, a builtin or a form.
pub fn is_known(functions: &Functions, name: &[u8]) -> bool
    ensures { result ≡ is_known name.now functions.now }
{
    functions.find(name).is_some()
        || words::builtin(name).is_some()
        || Special::named(name).is_some()
}

/// The terms, and others behind them.
pub fn joined_terms(mut terms: Seq<Made>, more: Seq<Made>) -> Result<Seq<Made>, CheckError>
    ensures ok { IfOk result (λ s. list s ≡ list terms ++ list more) }
    ensures err { IfErr result (λ e. e ≡ CheckError.OutOfMemory) }
{
    terms.reserve(more.len())?;
    for term in more.into_vec() {
        terms.push(term);
    }
    Ok(terms)
}
