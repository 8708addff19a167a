ghost use Rattle.std.specs.Prelude.{◌≡◌};
ghost use Rattle.ca_term.specs.View.{kernel, binding_view};

use crate::head::Head;
use crate::place::Place;
use ca_value::seq::Seq;
use ca_value::value::Value;

/// A kernel term, and what a task is while it runs. `Frame` and `Turn` stand in running terms alone.
#[cycle(term)]
#[derive(Drop)]
pub enum Term {
    Const(Value),
    /// The name of that number.
    Var(u64),
    /// The test, then what is done where it is true, then what is done where it is nil or false.
    If(Box<Term>, Box<Term>, Box<Term>),
    /// Bindings in order, each in scope of those behind it, and the body.
    Let(Seq<Binding>, Box<Term>),
    /// The names that have their values, the bindings still to come, and the text to repeat.
    Loop(Seq<Found>, Seq<Binding>, Box<Term>),
    /// The terms in order; the value is that of the last one, nil where there is none.
    Do(Seq<Term>),
    /// The body of a function within its call.
    Frame(Box<Term>),
    /// A running loop: the names of its text, the text, and the term that the text has become.
    Turn(Seq<u64>, Box<Term>, Box<Term>),
    /// Operands, evaluated from left to right, and what is then done with them.
    Apply(Head, Seq<Term>, Place),
}

/// A name and the term that gives its value.
#[cycle(term)]
#[derive(Drop)]
pub struct Binding {
    pub name: u64,
    pub term: Term,
}

/// A name and its value.
#[derive(Drop)]
pub struct Found {
    pub name: u64,
    pub value: Value,
}

impl Binding {
    /// The binding of that name to that term.
    pub fn new(name: u64, term: Term) -> Binding
        ensures { binding_view result ≡ (name, kernel term) }
    {
        Binding { name, term }
    }
}
