ghost use Rattle.std.specs.Prelude.{◌≡◌, ◌∷◌};
ghost use Rattle.ca_check.specs.Words.{List, drop, option_map, is_some, cond, IfErr, OnOk, MatchOption, Pass, form_tree, form_trees, Binder, Meaning, Env, Gathered, top_name, binders_in, parameters_in, note_in, function_top, defn_top, word_at_head, list_parts, counted_patterns, judged_body, noted_text, function, wrong, total_binder, total_binders, note_of, written_as, AreCounted, form_parts, Fails};

use ca_forms::error::{CheckError, CheckErrorKind};
use ca_forms::shapes::{is_binder, is_odd};
use ca_forms::special::Special;
use ca_reader::form::{Form, Shape};

/// A function as a `defn` writes it.
#[derive(Clone, Copy)]
pub struct Defn<'a> {
    pub name: &'a [u8],
    /// The text before the parameters, if there is one.
    pub note: Option<&'a Form>,
    pub parameters: &'a [Form],
    pub body: &'a [Form],
}

/// How the body of a function is walked.
#[derive(Clone, Copy)]
pub enum Pass {
    /// To meet each error: a `recur` aims at the function.
    First,
    /// For good, where no `recur` aims at the function.
    Straight,
    /// For good, in a loop over the parameters, at which a `recur` aims.
    Looped,
}

impl Pass {
    /// The pass for good, in a loop or not.
    pub fn for_good(looping: bool) -> Pass
        ensures { result ≡ cond looping Pass.Looped Pass.Straight }
    {
        if looping {
            Pass::Looped
        } else {
            Pass::Straight
        }
    }
}

/// The items of a list; none of another form.
pub fn list_items(form: &Form) -> &[Form]
    ensures { form_parts result.now ≡ list_parts (form_tree form.now) }
{
    match &form.shape {
        Shape::List(parts) => parts.as_slice(),
        Shape::Nil | Shape::Bool(_) | Shape::Int(_) => &[],
        Shape::Text(_) | Shape::Key(_) | Shape::Symbol(_) => &[],
        Shape::Vector(_) | Shape::Map(_) => &[],
    }
}

/// The word at the head of a list of these items.
pub fn word_at_head(parts: &[Form]) -> Option<Special>
    ensures { result ≡ word_at_head (form_parts parts.now) }
{
    if parts.is_empty() {
        return None;
    }
    match &parts[0].shape {
        Shape::Symbol(name) => Special::named(name.as_slice()),
        Shape::Nil | Shape::Bool(_) | Shape::Int(_) | Shape::Text(_) | Shape::Key(_) => None,
        Shape::List(_) | Shape::Vector(_) | Shape::Map(_) => None,
    }
}

/// The name that a `def` or a `defn` gives, if the form is one.
pub fn top_name(form: &Form) -> Option<&[u8]>
    ensures { option_map (λ s. s.now) result ≡ top_name (form_tree form.now) }
{
    match &form.shape {
        Shape::Symbol(name) => {
            if is_odd(name.as_slice()) {
                None
            } else {
                Some(name.as_slice())
            }
        }
        Shape::Nil | Shape::Bool(_) | Shape::Int(_) | Shape::Text(_) | Shape::Key(_) => None,
        Shape::List(_) | Shape::Vector(_) | Shape::Map(_) => None,
    }
}

fn are_binders(forms: &[Form]) -> bool
    ensures { result ≡ is_some (binders_in (form_trees forms.now)) }
{
    for form in forms {
        if !is_binder(form) {
            return false;
        }
    }
    true
}

// The parameters of a function, if the form is a vector of what binds names.
fn parameters(form: &Form) -> Option<&[Form]>
    ensures { option_map (λ fs. total_binders (form_trees fs.now)) result ≡ parameters_in (form_tree form.now) }
{
    match &form.shape {
        Shape::Vector(forms) => {
            let forms = forms.as_slice();
            if are_binders(forms) {
                Some(forms)
            } else {
                None
            }
        }
        Shape::Nil | Shape::Bool(_) | Shape::Int(_) | Shape::Text(_) | Shape::Key(_) => None,
        Shape::Symbol(_) | Shape::List(_) | Shape::Map(_) => None,
    }
}

fn is_text(form: &Form) -> bool
    ensures { result ≡ is_some (note_in (form_tree form.now)) }
{
    match &form.shape {
        Shape::Text(_) => true,
        Shape::Nil | Shape::Bool(_) | Shape::Int(_) | Shape::Key(_) | Shape::Symbol(_) => false,
        Shape::List(_) | Shape::Vector(_) | Shape::Map(_) => false,
    }
}

impl<'a> Defn<'a> {
    /// The function that a `defn` of these parts writes, if they have its shape.
    pub fn of(parts: &'a [Form]) -> Option<Defn<'a>>
        ensures { MatchOption result (defn_top (form_parts (drop 1 parts.now)) ≡ wrong) (λ d. defn_top (form_parts (drop 1 parts.now)) ≡ function (written_as d)) }
    {
        if parts.len() < 3 {
            None
        } else if !is_text(&parts[2]) {
            Defn::with(&parts[1], None, &parts[2], &parts[3..])
        } else if parts.len() < 4 {
            None
        } else {
            Defn::with(&parts[1], Some(&parts[2]), &parts[3], &parts[4..])
        }
    }

    fn with(
        name: &'a Form,
        note: Option<&'a Form>,
        binders: &'a Form,
        body: &'a [Form],
    ) -> Option<Defn<'a>>
        ensures { MatchOption result (function_top (top_name (form_tree name.now)) (parameters_in (form_tree binders.now)) (note_of note.entry) (form_parts body.now) ≡ wrong)
            (λ d. function_top (top_name (form_tree name.now)) (parameters_in (form_tree binders.now)) (note_of note.entry) (form_parts body.now) ≡ function (written_as d)) }
    {
        let name = top_name(name)?;
        let parameters = parameters(binders)?;
        Some(Defn {
            name,
            note,
            parameters,
            body,
        })
    }

    /// `TooMany` where the text before the parameters is longer than 65,535 bytes, or a pattern among the
    /// parameters has more than 4,096 names.
    pub fn judge(&self) -> Result<(), CheckError>
        ensures ok { OnOk result ((m : Meaning) (e : Env) (s : Gathered) → judged_body (written_as self.now) m e s ≡ m e s) }
        ensures err { IfErr result (λ x. (m : Meaning) (e : Env) (s : Gathered) → Fails x (judged_body (written_as self.now) m e s)) }
        ensures short { OnOk result (AreCounted (written_as self.now).parameters) }
    {
        judge_note(self.note)?;
        judge_patterns(self.parameters)?;
        Ok(())
    }
}

fn judge_note(note: Option<&Form>) -> Result<(), CheckError>
    ensures ok { OnOk result ((m : Meaning) (e : Env) (s : Gathered) → noted_text (note_of note.entry) m e s ≡ m e s) }
    ensures err { IfErr result (λ x. (m : Meaning) (e : Env) (s : Gathered) → Fails x (noted_text (note_of note.entry) m e s)) }
{
    match note {
        None => Ok(()),
        Some(form) => match &form.shape {
            Shape::Text(text) => {
                if 65535 < text.len() {
                    Err(CheckError::Fault(CheckErrorKind::TooMany, form.place))
                } else {
                    Ok(())
                }
            }
            Shape::Nil | Shape::Bool(_) | Shape::Int(_) | Shape::Key(_) | Shape::Symbol(_) => Ok(
                (),
            ),
            Shape::List(_) | Shape::Vector(_) | Shape::Map(_) => Ok(()),
        },
    }
}

fn judge_pattern(form: &Form) -> Result<(), CheckError>
    ensures ok { OnOk result ((bs : List Binder) (m : Meaning) (e : Env) (s : Gathered) → counted_patterns (total_binder (form_tree form.now) ∷ bs) m e s ≡ counted_patterns bs m e s) }
    ensures err { IfErr result (λ x. (bs : List Binder) (m : Meaning) (e : Env) (s : Gathered) → Fails x (counted_patterns (total_binder (form_tree form.now) ∷ bs) m e s)) }
    ensures short { OnOk result ((bs : List Binder) → AreCounted bs → AreCounted (total_binder (form_tree form.now) ∷ bs)) }
{
    match &form.shape {
        Shape::Vector(names) => {
            if 4096 < names.len() {
                Err(CheckError::Fault(CheckErrorKind::TooMany, form.place))
            } else {
                Ok(())
            }
        }
        Shape::Nil | Shape::Bool(_) | Shape::Int(_) | Shape::Text(_) | Shape::Key(_) => Ok(()),
        Shape::Symbol(_) | Shape::List(_) | Shape::Map(_) => Ok(()),
    }
}

fn judge_patterns(forms: &[Form]) -> Result<(), CheckError>
    ensures ok { OnOk result ((m : Meaning) (e : Env) (s : Gathered) → counted_patterns (total_binders (form_trees forms.now)) m e s ≡ m e s) }
    ensures err { IfErr result (λ x. (m : Meaning) (e : Env) (s : Gathered) → Fails x (counted_patterns (total_binders (form_trees forms.now)) m e s)) }
    ensures short { OnOk result (AreCounted (total_binders (form_trees forms.now))) }
{
    for form in forms {
        judge_pattern(form)?;
    }
    Ok(())
}
