ghost use Rattle.std.specs.Prelude.{◌≡◌};
ghost use Rattle.ca_reader.specs.Words.{form, form_tree, shape_tree};

use ca_term::place::Place;
use ca_value::seq::{Seq, Text};

/// What a script is made of, with the place of its first byte.
#[cycle(form)]
#[derive(Drop)]
pub struct Form {
    pub shape: Shape,
    pub place: Place,
}

/// Forms in order: a whole script, or what stands between two brackets.
pub type Forms = Seq<Form>;

/// The kind of a form, with what it is made of.
#[cycle(form)]
#[derive(Drop)]
pub enum Shape {
    Nil,
    Bool(bool),
    Int(i64),
    /// The bytes between the quotes, escapes read.
    Text(Text),
    /// The bytes behind the colon.
    Key(Text),
    Symbol(Text),
    List(Seq<Form>),
    Vector(Seq<Form>),
    /// Keys and values in turn.
    Map(Seq<Form>),
}

/// The three kinds of brackets: round ones make lists, square ones vectors, curly ones maps.
#[derive(Clone, Copy)]
pub enum Bracket {
    Round,
    Square,
    Curly,
}

impl Form {
    /// The form of that shape, whose first byte stands at that place.
    pub fn new(shape: Shape, place: Place) -> Form
        ensures { form_tree result ≡ form (shape_tree shape) place }
    {
        Form { shape, place }
    }
}
