ghost use Rattle.std.specs.Prelude.{◌≡◌, IfOk, IfErr, is_some};
ghost use Rattle.ca_value.specs.Seq.{list};
ghost use Rattle.ca_reader.specs.Form.{form_place};
ghost use Rattle.ca_reader.specs.View.{form_tree};
ghost use Rattle.ca_forms.specs.declared.context.At.{At};
ghost use Rattle.ca_forms.specs.declared.error.CheckError.{CheckError};
ghost use Rattle.ca_forms.specs.declared.error.CheckErrorKind.{CheckErrorKind};
ghost use Rattle.ca_forms.specs.GivenView.{given_keyword, given_view, IsWrong};
ghost use Rattle.ca_forms.specs.Meaning.{lookup};
ghost use Rattle.ca_forms.specs.Names.{given, given_builtin, given_name};
ghost use Rattle.ca_forms.specs.Words.{builtin, special};
ghost use Rattle.ca_forms.specs.WalkView.{env};

use crate::error::{CheckError, CheckErrorKind};
use crate::functions::Functions;
use crate::scope::Scope;
use crate::special::Special;
use crate::words;
use ca_reader::form::{Form, Shape};
use ca_term::head::PlainFunction;
use ca_term::place::Place;
use ca_value::seq::Text;
use std::alloc::Global;

/// A function that a system task applies. A keyword is its own operand.
#[derive(Drop)]
pub struct Applied {
    pub function: PlainFunction,
    pub keyword: Option<Text>,
}

fn not_plain(place: Place) -> CheckError
    ensures { result ≡ CheckError.Fault CheckErrorKind.NotPlain place }
{
    CheckError::Fault(CheckErrorKind::NotPlain, place)
}

/// The function that a publication or a pipeline is given: a plain function of one parameter, a builtin that
/// takes one argument, or a keyword.
pub fn given(
    alloc: Global,
    functions: &Functions,
    scope: &Scope,
    form: &Form,
) -> Result<Applied, CheckError>
    ensures ok { IfOk result (λ a. (at : At) → given (form_tree form.now) (env scope.now functions.now at) ≡ given_view a) }
    ensures err { IfErr result (λ e. (at : At) → IsWrong e (form_place (form_tree form.now)) (given (form_tree form.now) (env scope.now functions.now at))) }
{
    match &form.shape {
        Shape::Symbol(name) => named(functions, scope, name, form.place),
        Shape::Key(name) => keyword(alloc, name, form.place),
        Shape::Nil | Shape::Bool(_) | Shape::Int(_) | Shape::Text(_) => Err(not_plain(form.place)),
        Shape::List(_) | Shape::Vector(_) | Shape::Map(_) => Err(not_plain(form.place)),
    }
}

fn keyword(alloc: Global, name: &Text, place: Place) -> Result<Applied, CheckError>
    ensures ok { IfOk result (λ a. given_keyword (list name.now) ≡ given_view a) }
    ensures err { IfErr result (λ e. IsWrong e place (given_keyword (list name.now))) }
{
    if 65535 < name.len() {
        return Err(CheckError::Fault(CheckErrorKind::TooMany, place));
    }
    Ok(Applied {
        function: PlainFunction::Keyword,
        keyword: Some(Text::from_bytes(alloc, name.as_slice())?),
    })
}

fn named(
    functions: &Functions,
    scope: &Scope,
    name: &Text,
    place: Place,
) -> Result<Applied, CheckError>
    ensures ok { IfOk result (λ a. given_name (lookup (list name.now) scope.now) (list name.now) functions.now ≡ given_view a) }
    ensures err { IfErr result (λ e. IsWrong e place (given_name (lookup (list name.now) scope.now) (list name.now) functions.now)) }
{
    if scope.find(name.as_slice()).is_some() {
        return Err(not_plain(place));
    }
    match functions.find(name.as_slice()) {
        Some((number, function)) => {
            if function.plain && function.arity == 1 {
                Ok(Applied {
                    function: PlainFunction::Defined(number),
                    keyword: None,
                })
            } else {
                Err(not_plain(place))
            }
        }
        None => builtin_named(name, place),
    }
}

fn builtin_named(name: &Text, place: Place) -> Result<Applied, CheckError>
    ensures ok { IfOk result (λ a. given_builtin (builtin (list name.now)) (is_some (special (list name.now))) ≡ given_view a) }
    ensures err { IfErr result (λ e. IsWrong e place (given_builtin (builtin (list name.now)) (is_some (special (list name.now))))) }
{
    match words::builtin(name.as_slice()) {
        Some(builtin) => {
            if builtin.admits(1) {
                Ok(Applied {
                    function: PlainFunction::Builtin(builtin),
                    keyword: None,
                })
            } else {
                Err(not_plain(place))
            }
        }
        None => {
            if Special::named(name.as_slice()).is_some() {
                Err(not_plain(place))
            } else {
                Err(CheckError::Fault(CheckErrorKind::UnknownName, place))
            }
        }
    }
}
