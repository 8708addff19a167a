ghost use Rattle.std.specs.Prelude.{◌≡◌};

use crate::error::ReadErrorKind;
use crate::form::{Bracket, Shape};
use ca_value::seq::Text;

/// What one text or token says.
#[derive(Drop)]
pub enum Atom {
    Nil,
    Bool(bool),
    Int(i64),
    Text(Text),
    Key(Text),
    Symbol(Text),
}

/// A text or a token, an opening bracket or a closing one.
#[derive(Drop)]
pub enum Piece {
    One(Atom),
    Opener(Bracket),
    Closer(Bracket),
}

/// What the rest of a script begins with.
#[derive(Drop)]
pub enum First {
    /// Its end.
    Over,
    /// A separator or a comment of so many bytes.
    Blank(usize),
    /// A piece of so many bytes.
    Found(Piece, usize),
    /// What no rule admits; so many bytes stand before the fault.
    Wrong(ReadErrorKind, usize),
}

impl Atom {
    ghost use Rattle.ca_reader.specs.Form.{atom};
    ghost use Rattle.ca_reader.specs.View.{shape_tree};
    ghost use Rattle.ca_reader.specs.PieceView.{atom_view};

    /// The shape of the form that the text or token is.
    pub fn shape(self) -> Shape
        ensures { shape_tree result ≡ atom (atom_view self) }
    {
        match self {
            Atom::Nil => Shape::Nil,
            Atom::Bool(value) => Shape::Bool(value),
            Atom::Int(number) => Shape::Int(number),
            Atom::Text(text) => Shape::Text(text),
            Atom::Key(name) => Shape::Key(name),
            Atom::Symbol(name) => Shape::Symbol(name),
        }
    }
}
