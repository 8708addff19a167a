ghost use Rattle.std.specs.Prelude.{◌≡◌, IfOk, OnOk, [], ◌∷◌, ◌++◌, length, map, get_or, slice_set};
ghost use Rattle.ca_value.specs.Seq.{list};
ghost use Rattle.ca_reader.specs.View.{form_tree};
ghost use Rattle.ca_derived.specs.Forms.{round, square, name as named, nil_form};
ghost use Rattle.ca_derived.specs.Rows.{call, number_form};
ghost use Rattle.ca_derived.specs.Templates.{filled, template_name, forms_before, last, first_form};
ghost use Rattle.ca_derived.specs.DraftView.{drafted};

use crate::name::Name;
use ca_reader::form::{Form, Forms, Shape};
use ca_term::place::Place;
use ca_value::memory::OutOfMemory;
use ca_value::seq::Text;
use std::alloc::Global;

/// What adds one form behind those so far.
#[derive(Clone, Copy)]
pub enum Token {
    Named(Name),
    /// The form of that number among those that are given.
    Given(u64),
    Nothing,
    Number(u8),
    /// A list of the last so many forms.
    Round(usize),
    /// A vector of them.
    Square(usize),
}

/// Forms that are being put together, all at one place.
#[derive(Drop)]
pub struct Draft {
    pub forms: Vec<Form>,
}

/// A name, at the place.
pub fn symbol(alloc: Global, place: Place, name: &[u8]) -> Result<Form, OutOfMemory>
    ensures { IfOk result (λ f. form_tree f ≡ named place name.now) }
{
    let text = Text::from_bytes(alloc, name)?;
    Ok(Form::new(Shape::Symbol(text), place))
}

/// Nil, at the place.
pub fn nothing(place: Place) -> Form
    ensures { form_tree result ≡ nil_form place }
{
    Form::new(Shape::Nil, place)
}

/// The forms behind a name.
pub fn behind(alloc: Global, place: Place, name: Name, forms: Forms) -> Result<Forms, OutOfMemory>
    ensures { IfOk result (λ fs. map form_tree (list fs) ≡ named place (template_name name) ∷ map form_tree (list forms)) }
{
    let mut forms = forms.into_vec();
    let head = symbol(alloc, place, name.bytes())?;
    forms.insert(0, head)?;
    Ok(Forms::from_vec(forms))
}

/// A list of these forms behind a name.
pub fn headed(alloc: Global, place: Place, name: Name, forms: Forms) -> Result<Form, OutOfMemory>
    ensures { IfOk result (λ f. form_tree f ≡ call place (template_name name) (map form_tree (list forms))) }
{
    let forms = behind(alloc, place, name, forms)?;
    Ok(Form::new(Shape::List(forms), place))
}

impl Draft {
    /// Nothing yet.
    pub fn new(alloc: Global) -> Draft
        ensures { drafted result ≡ [] }
    {
        Draft {
            forms: Vec::new(alloc),
        }
    }

    /// A name behind the others.
    pub fn name(&mut self, alloc: Global, place: Place, name: Name) -> Result<(), OutOfMemory>
        ensures { OnOk result (drafted self.new ≡ drafted self.old ++ named place (template_name name) ∷ []) }
    {
        let form = symbol(alloc, place, name.bytes())?;
        self.add(form)
    }

    /// A form behind the others.
    pub fn add(&mut self, form: Form) -> Result<(), OutOfMemory>
        ensures { OnOk result (drafted self.new ≡ drafted self.old ++ form_tree form ∷ []) }
    {
        self.forms.push(form)?;
        Ok(())
    }

    /// Two forms behind the others.
    pub fn pair(&mut self, first: Form, second: Form) -> Result<(), OutOfMemory>
        ensures { OnOk result (drafted self.new ≡ drafted self.old ++ form_tree first ∷ form_tree second ∷ []) }
    {
        self.add(first)?;
        self.add(second)?;
        Ok(())
    }

    /// How many forms there are.
    pub fn len(&self) -> usize
        ensures { result ≡ length (drafted self.now) }
    {
        self.forms.len()
    }

    // The last so many forms, which leave the draft.
    fn cut(&mut self, count: usize) -> Result<Forms, OutOfMemory>
        ensures ok { IfOk result (λ fs. map form_tree (list fs) ≡ last count (drafted self.old)) }
        ensures rest { OnOk result (drafted self.new ≡ forms_before count (drafted self.old)) }
    {
        let from = self.forms.len().saturating_sub(count);
        let last = self.forms.split_off(from)?;
        Ok(Forms::from_vec(last))
    }

    /// The last so many forms as a list.
    pub fn round(&mut self, place: Place, count: usize) -> Result<(), OutOfMemory>
        ensures { OnOk result (drafted self.new ≡ forms_before count (drafted self.old) ++ round place (last count (drafted self.old)) ∷ []) }
    {
        let inner = self.cut(count)?;
        self.add(Form::new(Shape::List(inner), place))
    }

    /// All forms as one list.
    pub fn whole(self, place: Place) -> Form
        ensures { form_tree result ≡ round place (drafted self) }
    {
        let Draft { forms } = self;
        Form::new(Shape::List(Forms::from_vec(forms)), place)
    }

    /// All forms as one vector.
    pub fn vector(self, place: Place) -> Form
        ensures { form_tree result ≡ square place (drafted self) }
    {
        let Draft { forms } = self;
        Form::new(Shape::Vector(Forms::from_vec(forms)), place)
    }

    /// The last so many forms as a vector.
    pub fn square(&mut self, place: Place, count: usize) -> Result<(), OutOfMemory>
        ensures { OnOk result (drafted self.new ≡ forms_before count (drafted self.old) ++ square place (last count (drafted self.old)) ∷ []) }
    {
        let inner = self.cut(count)?;
        self.add(Form::new(Shape::Vector(inner), place))
    }
}

/// The draft after the tokens, with the forms that are given; each of these is used once.
pub fn fill(
    alloc: Global,
    place: Place,
    template: &[Token],
    mut given: Forms,
) -> Result<Draft, OutOfMemory>
    ensures { IfOk result (λ d. drafted d ≡ filled place template.now (map form_tree (list given)) []) }
{
    let mut draft = Draft::new(alloc);
    for token in template {
        match *token {
            Token::Named(name) => draft.name(alloc, place, name)?,
            Token::Given(number) => {
                let form = given_form(&mut given, number, place);
                draft.add(form)?;
            }
            Token::Nothing => draft.add(nothing(place))?,
            Token::Number(number) => draft.add(Form::new(Shape::Int(number as i64), place))?,
            Token::Round(count) => draft.round(place, count)?,
            Token::Square(count) => draft.square(place, count)?,
        }
    }
    Ok(draft)
}

/// The form of that number, which leaves its place to nil; nil where there is none.
pub fn given_form(given: &mut Forms, number: u64, place: Place) -> Form
    ensures form { form_tree result ≡ get_or (map form_tree (list given.old)) number (nil_form place) }
    ensures rest { map form_tree (list given.new) ≡ slice_set (map form_tree (list given.old)) number (nil_form place) }
{
    let nil = nothing(place);
    if number < given.len() {
        given.replace(number, nil)
    } else {
        nil
    }
}

/// The first form of the draft, or nil.
pub fn only(draft: Draft, place: Place) -> Form
    ensures { form_tree result ≡ first_form place (drafted draft) }
{
    let Draft { mut forms } = draft;
    if forms.len() == 0 {
        nothing(place)
    } else {
        forms.swap_remove(0)
    }
}
