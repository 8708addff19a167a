ghost use Rattle.std.specs.Prelude.{◌≡◌, ◌==◌, is_some};
ghost use Rattle.std.specs.List.{list_any};
ghost use Rattle.ca_reader.specs.View.{form_tree, form_trees};
ghost use Rattle.ca_forms.specs.Binders.{is_odd, is_reserved, name_in, names_in, binder, bounds, bindings_in, is_pattern};
ghost use Rattle.ca_forms.specs.Judged.{bounds_error, over_long, pattern_of, total_binder, total_bounds};
ghost use Rattle.ca_forms.specs.Plain.{binders};
ghost use Rattle.ca_forms.specs.Walk.{within};
ghost use Rattle.ca_forms.specs.WalkView.{part, form_pairs};

use crate::error::CheckErrorKind;
use crate::special::Special;
use ca_reader::form::{Form, Shape};

fn has_slash(name: &[u8]) -> bool
    ensures { result ≡ list_any (λ b. b == 47) name.now }
{
    name.iter().any(|byte| *byte == b'/')
}

/// `&`, or a name with a `/` in it.
pub fn is_odd(name: &[u8]) -> bool
    ensures { result ≡ is_odd name.now }
{
    if has_slash(name) {
        true
    } else {
        name == b"&".as_slice()
    }
}

/// A name that no local can have.
pub fn is_reserved(name: &[u8]) -> bool
    ensures { result ≡ is_reserved name.now }
{
    match Special::named(name) {
        Some(word) => !word.is_inner() || is_odd(name),
        None => is_odd(name),
    }
}

/// Whether the form is a name that a local can have.
pub fn is_name(form: &Form) -> bool
    ensures { result ≡ is_some (name_in (form_tree form.now)) }
{
    match &form.shape {
        Shape::Symbol(name) => !is_reserved(name.as_slice()),
        Shape::Nil | Shape::Bool(_) | Shape::Int(_) | Shape::Text(_) | Shape::Key(_) => false,
        Shape::List(_) | Shape::Vector(_) | Shape::Map(_) => false,
    }
}

fn are_names(forms: &[Form]) -> bool
    ensures { result ≡ is_some (names_in (form_trees forms.now)) }
{
    for form in forms {
        if !is_name(form) {
            return false;
        }
    }
    true
}

/// Whether the form binds names: a name, or a vector of names.
pub fn is_binder(form: &Form) -> bool
    ensures { result ≡ is_some (binder (form_tree form.now)) }
{
    match &form.shape {
        Shape::Symbol(_) => is_name(form),
        Shape::Vector(names) => are_names(names.as_slice()),
        Shape::Nil | Shape::Bool(_) | Shape::Int(_) | Shape::Text(_) | Shape::Key(_) => false,
        Shape::List(_) | Shape::Map(_) => false,
    }
}

// Whether each second form binds names, and each has its value behind it.
fn are_bounds(forms: &[Form]) -> bool
    ensures { result ≡ is_some (bounds (form_pairs forms.now)) }
{
    let mut i = 0;
    while i + 1 < forms.len() {
        if !is_binder(&forms[i]) {
            return false;
        }
        i += 2;
    }
    i == forms.len()
}

#[tactic(auto, using(crate::proofs::ShapeLaws::items_bad, crate::proofs::ShapeLaws::items_good))]
fn items_error(forms: &[Form]) -> Option<CheckErrorKind>
    ensures { result ≡ bounds_error (bounds (form_pairs forms.now)) }
{
    if !are_bounds(forms) {
        Some(CheckErrorKind::BadForm)
    } else if 64 < forms.len() / 2 {
        Some(CheckErrorKind::TooMany)
    } else {
        None
    }
}

/// What is wrong with the bindings of a `let` or a `loop`: another form than a vector of binders with their
/// values is `BadForm`, more than 64 bindings are `TooMany`.
pub fn bounds_error(form: &Form) -> Option<CheckErrorKind>
    ensures { result ≡ bounds_error (bindings_in (part form.now)) }
{
    match &form.shape {
        Shape::Vector(forms) => items_error(forms.as_slice()),
        Shape::Nil | Shape::Bool(_) | Shape::Int(_) => Some(CheckErrorKind::BadForm),
        Shape::Text(_) | Shape::Key(_) | Shape::Symbol(_) => Some(CheckErrorKind::BadForm),
        Shape::List(_) | Shape::Map(_) => Some(CheckErrorKind::BadForm),
    }
}

/// Whether the form is a pattern of more than 4,096 names.
#[tactic(auto, using(crate::proofs::ShapeLaws::names_count))]
pub fn is_over_long(form: &Form) -> bool
    ensures { result ≡ over_long (total_binder (form_tree form.now)) }
{
    match &form.shape {
        Shape::Vector(names) => 4096 < names.len(),
        Shape::Nil | Shape::Bool(_) | Shape::Int(_) | Shape::Text(_) | Shape::Key(_) => false,
        Shape::List(_) | Shape::Map(_) | Shape::Symbol(_) => false,
    }
}

/// Whether the form is a pattern.
pub fn is_pattern(form: &Form) -> bool
    ensures { result ≡ is_pattern (total_binder (form_tree form.now)) }
{
    match &form.shape {
        Shape::Vector(_) => true,
        Shape::Nil | Shape::Bool(_) | Shape::Int(_) | Shape::Text(_) | Shape::Key(_) => false,
        Shape::Symbol(_) | Shape::List(_) | Shape::Map(_) => false,
    }
}

/// The names of a pattern; none of another form.
pub fn pattern_items(form: &Form) -> &[Form]
    ensures { form_trees result.now ≡ pattern_of (form_tree form.now) }
{
    match &form.shape {
        Shape::Vector(names) => names.as_slice(),
        Shape::Nil | Shape::Bool(_) | Shape::Int(_) => &[],
        Shape::Text(_) | Shape::Key(_) | Shape::Symbol(_) => &[],
        Shape::List(_) | Shape::Map(_) => &[],
    }
}

fn binds_pattern(items: &[Form]) -> bool
    ensures { result ≡ list_any is_pattern (binders (total_bounds (form_pairs items.now))) }
{
    for i in 0..items.len() / 2 {
        if is_pattern(&items[2 * i]) {
            return true;
        }
    }
    false
}

/// Whether one of the bindings in the form binds a pattern.
pub fn have_pattern(bindings: &Form) -> bool
    ensures { result ≡ list_any is_pattern (binders (total_bounds (within (form_tree bindings.now)))) }
{
    match &bindings.shape {
        Shape::Vector(items) => binds_pattern(items.as_slice()),
        Shape::List(items) => binds_pattern(items.as_slice()),
        Shape::Map(items) => binds_pattern(items.as_slice()),
        Shape::Nil | Shape::Bool(_) | Shape::Int(_) => false,
        Shape::Text(_) | Shape::Key(_) | Shape::Symbol(_) => false,
    }
}
