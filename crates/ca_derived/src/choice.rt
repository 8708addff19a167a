ghost use Rattle.std.specs.Prelude.{◌≡◌, ◌≤◌, ◌-◌, IfOk, OnOk, [], ◌∷◌, map, codes, true};
ghost use Rattle.ca_value.specs.Seq.{list};
ghost use Rattle.ca_reader.specs.declared.form.Bracket.TheVariants.{Square};
ghost use Rattle.ca_reader.specs.Form.{form, group};
ghost use Rattle.ca_reader.specs.View.{form_tree, form_trees, form_trees_of};
ghost use Rattle.ca_derived.specs.Forms.{lettered, square};
ghost use Rattle.ca_derived.specs.Rows.{call};
ghost use Rattle.ca_derived.specs.Templates.{template_name};
ghost use Rattle.ca_derived.specs.Choice.{no_choice, port_name, value_name, key_at, test, with_take, with_put, with_operation, with_operations, is_put, form_items, is_names, begins_with_names, binds_answer, bound_result, form_kind, with_clause, options_of, tests, clause_result, with_many, with_port_clause, with_priority, with_default_clause, with_pair, with_pairs, row_choose};
ghost use Rattle.ca_derived.specs.ChoiceView.{choice_view};
ghost use Rattle.ca_derived.specs.DraftView.{drafted};

use crate::name::Name;
use crate::template::{Draft, Token, fill, given_form, headed, only};
use ca_reader::form::{Form, Forms, Shape};
use ca_term::place::Place;
use ca_value::memory::OutOfMemory;
use ca_value::seq::Text;
use std::alloc::Global;

// (= (nth #answer 1) $0)
const TEST: [Token; 7] = [
    Token::Named(Name::Equal),
    Token::Named(Name::Nth),
    Token::Named(Name::Answer),
    Token::Number(1),
    Token::Round(3),
    Token::Given(0),
    Token::Round(3),
];

/// What the pairs so far give.
#[derive(Drop)]
pub struct Choice {
    pub bindings: Draft,
    pub operations: Draft,
    pub clauses: Draft,
    pub priority: bool,
    pub default: bool,
}

// A name with the small letter of that number behind it.
fn lettered(alloc: Global, place: Place, name: &[u8], number: usize) -> Result<Form, OutOfMemory>
    ensures { IfOk result (λ f. form_tree f ≡ lettered place name.now number) }
{
    let letter = if number < 25 { number as u8 } else { 25 };
    let mut text = Text::from_bytes(alloc, name)?;
    text.append(&[97 + letter])?;
    Ok(Form::new(Shape::Symbol(text), place))
}

fn port_name(alloc: Global, place: Place, number: usize) -> Result<Form, OutOfMemory>
    ensures { IfOk result (λ f. form_tree f ≡ port_name place number) }
{
    lettered(alloc, place, b"#port-", number)
}

fn value_name(alloc: Global, place: Place, number: usize) -> Result<Form, OutOfMemory>
    ensures { IfOk result (λ f. form_tree f ≡ value_name place number) }
{
    lettered(alloc, place, b"#value-", number)
}

fn keyword(alloc: Global, place: Place, name: &[u8]) -> Result<Form, OutOfMemory>
    ensures { IfOk result (λ f. form_tree f ≡ key_at place name.now) }
{
    let text = Text::from_bytes(alloc, name)?;
    Ok(Form::new(Shape::Key(text), place))
}

// The form alone.
fn single(alloc: Global, form: Form) -> Result<Forms, OutOfMemory>
    ensures { IfOk result (λ fs. list fs ≡ form ∷ []) }
{
    let mut forms = Forms::new(alloc);
    forms.reserve(1)?;
    forms.push(form);
    Ok(forms)
}

// The answer's port is that.
fn test(alloc: Global, place: Place, form: Form) -> Result<Form, OutOfMemory>
    ensures { IfOk result (λ f. form_tree f ≡ test place (form_tree form)) }
{
    let given = single(alloc, form)?;
    let draft = fill(alloc, place, &TEST, given)?;
    Ok(only(draft, place))
}

// The tests of the operations from one number up to another, in an `or`.
fn tests(alloc: Global, place: Place, from: usize, to: usize) -> Result<Form, OutOfMemory>
    requires { from ≤ to }
    ensures { IfOk result (λ f. form_tree f ≡ call place (codes "or") (tests place from (to - from))) }
{
    let mut draft = Draft::new(alloc);
    draft.name(alloc, place, Name::Or)?;
    for number in from..to {
        let port = port_name(alloc, place, number)?;
        let form = test(alloc, place, port)?;
        draft.add(form)?;
    }
    Ok(draft.whole(place))
}

impl Choice {
    fn new(alloc: Global) -> Choice
        ensures { choice_view result ≡ no_choice }
    {
        Choice {
            bindings: Draft::new(alloc),
            operations: Draft::new(alloc),
            clauses: Draft::new(alloc),
            priority: false,
            default: false,
        }
    }

    fn take(&mut self, alloc: Global, place: Place, port: Form) -> Result<(), OutOfMemory>
        ensures { OnOk result (choice_view self.new ≡ with_take place (form_tree port) (choice_view self.old)) }
    {
        let number = self.operations.len();
        let name = port_name(alloc, place, number)?;
        self.bindings.pair(name, port)?;
        let name = port_name(alloc, place, number)?;
        self.operations.add(name)?;
        Ok(())
    }

    fn put(
        &mut self,
        alloc: Global,
        place: Place,
        port: Form,
        value: Form,
    ) -> Result<(), OutOfMemory>
        ensures { OnOk result (choice_view self.new ≡ with_put place (form_tree port) (form_tree value) (choice_view self.old)) }
    {
        let number = self.operations.len();
        let name = port_name(alloc, place, number)?;
        self.bindings.pair(name, port)?;
        let name = value_name(alloc, place, number)?;
        self.bindings.pair(name, value)?;
        let pair = named_pair(alloc, place, number)?;
        self.operations.add(pair)?;
        Ok(())
    }

    // An operation of a vector form.
    fn operation(&mut self, alloc: Global, place: Place, form: Form) -> Result<(), OutOfMemory>
        ensures { OnOk result (choice_view self.new ≡ with_operation place (form_tree form) (choice_view self.old)) }
    {
        if is_put(&form) {
            let mut items = items_of(alloc, form);
            let port = given_form(&mut items, 0, place);
            let value = given_form(&mut items, 1, place);
            self.put(alloc, place, port, value)
        } else {
            self.take(alloc, place, form)
        }
    }

    fn operations(&mut self, alloc: Global, place: Place, forms: Forms) -> Result<(), OutOfMemory>
        ensures { OnOk result (choice_view self.new ≡ with_operations place (form_trees (list forms)) (choice_view self.old)) }
    {
        let mut forms = forms;
        let count = forms.len();
        for i in 0..count {
            let form = given_form(&mut forms, i, place);
            self.operation(alloc, place, form)?;
        }
        Ok(())
    }

    // A pair whose first form is a vector form of operations.
    fn many(
        &mut self,
        alloc: Global,
        place: Place,
        forms: Forms,
        outcome: Form,
    ) -> Result<(), OutOfMemory>
        ensures { OnOk result (choice_view self.new ≡ with_many place (form_trees (list forms)) (form_tree outcome) (choice_view self.old)) }
    {
        let from = self.operations.len();
        self.operations(alloc, place, forms)?;
        let form = tests(alloc, place, from, self.operations.len())?;
        self.clause(alloc, form, outcome)
    }

    // A clause of the cond whose result may bind the answer.
    fn clause(&mut self, alloc: Global, test: Form, outcome: Form) -> Result<(), OutOfMemory>
        ensures { OnOk result (choice_view self.new ≡ with_clause (form_tree test) (clause_result (form_tree outcome)) (choice_view self.old)) }
    {
        let form = result_of(alloc, outcome)?;
        self.clauses.pair(test, form)?;
        Ok(())
    }

    fn port(
        &mut self,
        alloc: Global,
        place: Place,
        port: Form,
        outcome: Form,
    ) -> Result<(), OutOfMemory>
        ensures { OnOk result (choice_view self.new ≡ with_port_clause place (form_tree port) (form_tree outcome) (choice_view self.old)) }
    {
        let name = port_name(alloc, place, self.operations.len())?;
        self.take(alloc, place, port)?;
        let form = test(alloc, place, name)?;
        self.clause(alloc, form, outcome)
    }

    fn priority(&mut self, alloc: Global, place: Place, form: Form) -> Result<(), OutOfMemory>
        ensures { OnOk result (choice_view self.new ≡ with_priority place (form_tree form) (choice_view self.old)) }
    {
        self.bindings.name(alloc, place, Name::Priority)?;
        self.bindings.add(form)?;
        self.priority = true;
        Ok(())
    }

    fn default(&mut self, alloc: Global, place: Place, form: Form) -> Result<(), OutOfMemory>
        ensures { OnOk result (choice_view self.new ≡ with_default_clause place (form_tree form) (choice_view self.old)) }
    {
        let key = keyword(alloc, place, b"default")?;
        let test = test(alloc, place, key)?;
        self.clauses.pair(test, form)?;
        self.default = true;
        Ok(())
    }

    fn pair(
        &mut self,
        alloc: Global,
        place: Place,
        first: Form,
        outcome: Form,
    ) -> Result<(), OutOfMemory>
        ensures { OnOk result (choice_view self.new ≡ with_pair place (form_tree first) (form_tree outcome) (choice_view self.old)) }
    {
        match kind_of(&first) {
            Kind::Default => self.default(alloc, place, outcome),
            Kind::Priority => self.priority(alloc, place, outcome),
            Kind::Many => {
                let forms = items_of(alloc, first);
                self.many(alloc, place, forms, outcome)
            }
            Kind::Port => self.port(alloc, place, first, outcome),
        }
    }
}

/// What the first form of a pair is.
#[derive(Clone, Copy)]
pub enum Kind {
    Default,
    Priority,
    Many,
    Port,
}

fn kind_of(form: &Form) -> Kind
    ensures { result ≡ form_kind (form_tree form.now) }
{
    match &form.shape {
        Shape::Key(name) => {
            if name.as_slice() == b"default".as_slice() {
                Kind::Default
            } else if name.as_slice() == b"priority".as_slice() {
                Kind::Priority
            } else {
                Kind::Port
            }
        }
        Shape::Vector(_) => Kind::Many,
        Shape::Nil | Shape::Bool(_) | Shape::Int(_) | Shape::Text(_) => Kind::Port,
        Shape::Symbol(_) | Shape::List(_) | Shape::Map(_) => Kind::Port,
    }
}

fn is_put(form: &Form) -> bool
    ensures { result ≡ is_put (form_tree form.now) }
{
    match &form.shape {
        Shape::Vector(parts) => parts.len() == 2,
        Shape::Nil | Shape::Bool(_) | Shape::Int(_) | Shape::Text(_) => false,
        Shape::Key(_) | Shape::Symbol(_) | Shape::List(_) | Shape::Map(_) => false,
    }
}

// What stands in the form's brackets.
fn items_of(alloc: Global, form: Form) -> Forms
    ensures { form_trees (list result) ≡ form_items (form_tree form) }
{
    let Form { shape, .. } = form;
    match shape {
        Shape::List(items) => items,
        Shape::Vector(items) => items,
        Shape::Map(items) => items,
        Shape::Nil | Shape::Bool(_) | Shape::Int(_) => Forms::new(alloc),
        Shape::Text(_) | Shape::Key(_) | Shape::Symbol(_) => Forms::new(alloc),
    }
}

// One or two names in a vector.
fn is_names(form: &Form) -> bool
    ensures { result ≡ is_names (form_tree form.now) }
{
    match &form.shape {
        Shape::Vector(parts) => parts.len() == 1 || parts.len() == 2,
        Shape::Nil | Shape::Bool(_) | Shape::Int(_) | Shape::Text(_) => false,
        Shape::Key(_) | Shape::Symbol(_) | Shape::List(_) | Shape::Map(_) => false,
    }
}

fn begins_with_names(parts: &[Form]) -> bool
    ensures { result ≡ begins_with_names (form_trees parts.now) }
{
    if parts.len() == 0 {
        return false;
    }
    is_names(&parts[0])
}

fn binds_answer(form: &Form) -> bool
    ensures { result ≡ binds_answer (form_tree form.now) }
{
    match &form.shape {
        Shape::List(parts) => begins_with_names(parts.as_slice()),
        Shape::Nil | Shape::Bool(_) | Shape::Int(_) | Shape::Text(_) => false,
        Shape::Key(_) | Shape::Symbol(_) | Shape::Vector(_) | Shape::Map(_) => false,
    }
}

// (let [names #answer] ..) of the parts of a list that begins with names.
fn bound_result(alloc: Global, place: Place, parts: Forms) -> Result<Form, OutOfMemory>
    requires { begins_with_names (form_trees (list parts)) ≡ true }
    ensures { IfOk result (λ f. form_tree f ≡ bound_result place (form_trees (list parts))) }
{
    let mut parts = parts;
    let mut binding = Draft::new(alloc);
    let names = given_form(&mut parts, 0, place);
    binding.add(names)?;
    binding.name(alloc, place, Name::Answer)?;
    let binding = binding.vector(place);
    parts.set(0, binding);
    let form = headed(alloc, place, Name::Let, parts)?;
    Ok(form)
}

fn result_of(alloc: Global, form: Form) -> Result<Form, OutOfMemory>
    ensures { IfOk result (λ f. form_tree f ≡ clause_result (form_tree form)) }
{
    if binds_answer(&form) {
        let place = form.place;
        let parts = items_of(alloc, form);
        bound_result(alloc, place, parts)
    } else {
        Ok(form)
    }
}

fn pairs(alloc: Global, place: Place, parts: Forms) -> Result<Choice, OutOfMemory>
    ensures { IfOk result (λ x. choice_view x ≡ with_pairs place (form_trees (list parts)) no_choice) }
{
    let mut parts = parts;
    let mut choice = Choice::new(alloc);
    let count = parts.len() / 2;
    for i in 0..count {
        let first = given_form(&mut parts, 2 * i, place);
        let outcome = given_form(&mut parts, 2 * i + 1, place);
        choice.pair(alloc, place, first, outcome)?;
    }
    Ok(choice)
}

// (alts! [operation ..] option ..)
fn choosing(
    alloc: Global,
    name: Name,
    place: Place,
    operations: Draft,
    priority: bool,
    default: bool,
) -> Result<Form, OutOfMemory>
    ensures { IfOk result (λ f. form_tree f ≡ call place (template_name name) (square place (drafted operations) ∷ options_of place priority default)) }
{
    let mut alts = Draft::new(alloc);
    alts.name(alloc, place, name)?;
    alts.add(operations.vector(place))?;
    if priority {
        let key = keyword(alloc, place, b"priority")?;
        alts.add(key)?;
        alts.name(alloc, place, Name::Priority)?;
    }
    if default {
        let key = keyword(alloc, place, b"default")?;
        alts.add(key)?;
        let key = keyword(alloc, place, b"default")?;
        alts.add(key)?;
    }
    Ok(alts.whole(place))
}

/// The list of an `alt!`, or of an `alt!!` by its name.
pub fn choose(alloc: Global, name: Name, place: Place, parts: Forms) -> Result<Form, OutOfMemory>
    ensures { IfOk result (λ f. form_tree f ≡ row_choose place (template_name name) (form_trees (list parts))) }
{
    let choice = pairs(alloc, place, parts)?;
    let Choice {
        mut bindings,
        operations,
        clauses,
        priority,
        default,
    } = choice;
    let alts = choosing(alloc, name, place, operations, priority, default)?;
    bindings.name(alloc, place, Name::Answer)?;
    bindings.add(alts)?;
    let mut whole = Draft::new(alloc);
    whole.name(alloc, place, Name::Let)?;
    whole.add(bindings.vector(place))?;
    let clauses = headed(alloc, place, Name::Cond, Forms::from_vec(clauses.forms))?;
    whole.add(clauses)?;
    Ok(whole.whole(place))
}

// The vector of the names of a put.
fn named_pair(alloc: Global, place: Place, number: usize) -> Result<Form, OutOfMemory>
    ensures { IfOk result (λ f. form_tree f ≡ form (group Square (form_trees_of (port_name place number ∷ value_name place number ∷ []))) place) }
{
    let mut draft = Draft::new(alloc);
    let port = port_name(alloc, place, number)?;
    draft.add(port)?;
    let value = value_name(alloc, place, number)?;
    draft.add(value)?;
    Ok(draft.vector(place))
}
