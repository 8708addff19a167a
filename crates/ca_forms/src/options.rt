ghost use Rattle.std.specs.Prelude.{◌≡◌, drop};
ghost use Rattle.ca_reader.specs.View.{form_tree};
ghost use Rattle.ca_forms.specs.Channels.{is_key, option_of, both_options, options_in, buffer_named, head_word, word_of, word_of_part, is_sized, transform_named};
ghost use Rattle.ca_forms.specs.WalkView.{part, form_parts, form_pairs};

use crate::special::Special;
use ca_reader::form::{Form, Shape};
use ca_term::head::{AltsOptions, MakeKind, Transform};

fn is_key(form: &Form, name: &[u8]) -> bool
    ensures { result ≡ is_key name.now (form_tree form.now) }
{
    match &form.shape {
        Shape::Key(key) => key.as_slice() == name,
        Shape::Nil | Shape::Bool(_) | Shape::Int(_) | Shape::Text(_) | Shape::Symbol(_) => false,
        Shape::List(_) | Shape::Vector(_) | Shape::Map(_) => false,
    }
}

// The option that the keyword names.
fn option_of(form: &Form) -> Option<AltsOptions>
    ensures { result ≡ option_of (form_tree form.now) }
{
    if is_key(form, b"priority") {
        Some(AltsOptions::Priority)
    } else if is_key(form, b"default") {
        Some(AltsOptions::Default)
    } else {
        None
    }
}

fn both_options(first: Option<AltsOptions>, second: Option<AltsOptions>) -> Option<AltsOptions>
    ensures { result ≡ both_options first second }
{
    match (first, second) {
        (Some(AltsOptions::Priority), Some(AltsOptions::Default)) => Some(
            AltsOptions::PriorityThenDefault,
        ),
        (Some(AltsOptions::Default), Some(AltsOptions::Priority)) => Some(
            AltsOptions::DefaultThenPriority,
        ),
        _ => None,
    }
}

/// The options of an alts, whose word stands first among its parts; None where they are wrong.
#[tactic(auto, using(crate::proofs::OptionLaws::options_off, crate::proofs::OptionLaws::options_one, crate::proofs::OptionLaws::options_two, crate::proofs::OptionLaws::options_three))]
pub fn options_in(parts: &[Form]) -> Option<AltsOptions>
    ensures { result ≡ options_in (form_parts (drop 1 parts.now)) }
{
    match parts {
        [_, _] => Some(AltsOptions::None),
        [_, _, option, _] => option_of(option),
        [_, _, first, _, second, _] => both_options(option_of(first), option_of(second)),
        _ => None,
    }
}

// The word that a symbol is.
fn head_word(form: &Form) -> Option<Special>
    ensures { result ≡ head_word (form_tree form.now) }
{
    match &form.shape {
        Shape::Symbol(name) => Special::named(name.as_slice()),
        Shape::Nil | Shape::Bool(_) | Shape::Int(_) | Shape::Text(_) | Shape::Key(_) => None,
        Shape::List(_) | Shape::Vector(_) | Shape::Map(_) => None,
    }
}

fn word_of(forms: &[Form]) -> Option<Special>
    ensures { result ≡ word_of (form_pairs forms.now) }
{
    match forms {
        [] => None,
        [head, ..] => head_word(head),
    }
}

/// The word at the head of a form that is a list.
pub fn word_in(form: &Form) -> Option<Special>
    ensures { result ≡ word_of_part (part form.now) }
{
    match &form.shape {
        Shape::List(forms) => word_of(forms.as_slice()),
        Shape::Nil | Shape::Bool(_) | Shape::Int(_) | Shape::Text(_) | Shape::Key(_) => None,
        Shape::Symbol(_) | Shape::Vector(_) | Shape::Map(_) => None,
    }
}

/// The kind of buffer that a word names.
pub fn buffer_named(word: Option<Special>) -> Option<MakeKind>
    ensures { result ≡ buffer_named word }
{
    match word {
        Some(Special::Buffer) => Some(MakeKind::Fixed),
        Some(Special::DroppingBuffer) => Some(MakeKind::Dropping),
        Some(Special::SlidingBuffer) => Some(MakeKind::Sliding),
        _ => None,
    }
}

/// The transform that a word names.
pub fn transform_named(word: Option<Special>) -> Option<Transform>
    ensures { result ≡ transform_named word }
{
    match word {
        Some(Special::Map) => Some(Transform::Map),
        Some(Special::Filter) => Some(Transform::Filter),
        Some(Special::Mapcat) => Some(Transform::Mapcat),
        _ => None,
    }
}

// Whether a buffer's word at the head has one size behind it.
fn is_sized_list(forms: &[Form]) -> bool
    ensures { result ≡ is_sized (buffer_named (word_of (form_pairs forms.now))) (form_pairs forms.now) }
{
    match buffer_named(word_of(forms)) {
        Some(_) => forms.len() == 2,
        None => true,
    }
}

/// Whether a buffer's word has one size behind it; a form without such a word is right too.
pub fn is_sized(form: &Form) -> bool
    ensures { result ≡ is_sized (buffer_named (word_of_part (part form.now))) (part form.now).within }
{
    match &form.shape {
        Shape::List(forms) => is_sized_list(forms.as_slice()),
        Shape::Nil | Shape::Bool(_) | Shape::Int(_) | Shape::Text(_) | Shape::Key(_) => true,
        Shape::Symbol(_) | Shape::Vector(_) | Shape::Map(_) => true,
    }
}
