ghost use Rattle.std.specs.Prelude.{◌≡◌, ◌++◌, ◌∷◌};
ghost use Rattle.ca_reader.specs.Words.{[], None, OnOk, IfOk, IfErr, list, FormTrees, atom, group, none, form_tree, form_trees, shape_tree, atom_view, piece_view, opener, outside, inside, piece_fault, closing_fault, end_fault, is_paired, same_bracket, form_count, next, bracket_shut, with_form, innermost, context, IsNest, TellsFault};

use crate::error::{ReadError, ReadErrorKind};
use crate::form::{Bracket, Form, Forms, Shape};
use crate::piece::Piece;
use ca_term::place::Place;
use ca_value::memory::OutOfMemory;
use std::alloc::Global;

/// How many brackets may stand open.
const MOST_OPEN: usize = 200;

/// A bracket that stands open, and how many forms stand before it on its own level.
#[derive(Clone, Copy)]
pub struct Opened {
    before: usize,
    bracket: Bracket,
    place: Place,
}

/// Where a reading stands: the open brackets, the outermost first, and the forms of all levels, of which
/// those from `base` on stand behind the last bracket.
#[derive(Drop)]
pub struct Nest {
    open: Vec<Opened>,
    base: usize,
    forms: Vec<Form>,
}

impl Nest {
    /// A reading that has seen nothing.
    pub fn new(alloc: Global) -> Nest
        ensures nothing { context result ≡ outside none }
        ensures sound { IsNest result }
    {
        Nest {
            open: Vec::new(alloc),
            base: 0,
            forms: Vec::new(alloc),
        }
    }

    /// Takes the next piece.
    pub fn add(&mut self, piece: Piece, place: Place) -> Result<(), ReadError>
        requires { IsNest self.old }
        ensures ok { OnOk result (piece_fault (context self.old) (piece_view piece) place ≡ None) }
        ensures becomes { OnOk result (context self.new ≡ next (context self.old) (piece_view piece) place) }
        ensures sound { OnOk result (IsNest self.new) }
        ensures err { IfErr result (λ e. TellsFault e (piece_fault (context self.old) (piece_view piece) place)) }
    {
        match piece {
            Piece::One(atom) => Ok(self.push(Form::new(atom.shape(), place))?),
            Piece::Opener(bracket) => self.open(bracket, place),
            Piece::Closer(bracket) => self.close(bracket, place),
        }
    }

    /// The forms, where no bracket stands open.
    pub fn finish(self) -> Result<Forms, ReadError>
        ensures ok { IfOk result (λ fs. form_trees (list fs) ≡ innermost (context self)) }
        ensures whole { OnOk result (end_fault (context self) ≡ None) }
        ensures err { IfErr result (λ e. TellsFault e (end_fault (context self))) }
    {
        let Nest {
            mut open,
            forms,
            ..
        } = self;
        match open.pop() {
            None => Ok(Forms::from_vec(forms)),
            Some(opened) => Err(ReadError::Fault(ReadErrorKind::UnclosedList, opened.place)),
        }
    }

    /// Adds a form behind the last one.
    fn push(&mut self, form: Form) -> Result<(), OutOfMemory>
        requires { IsNest self.old }
        ensures ok { OnOk result (context self.new ≡ with_form (context self.old) (form_tree form)) }
        ensures sound { OnOk result (IsNest self.new) }
    {
        self.forms.push(form)?;
        Ok(())
    }

    fn open(&mut self, bracket: Bracket, place: Place) -> Result<(), ReadError>
        requires { IsNest self.old }
        ensures ok { OnOk result (piece_fault (context self.old) (opener bracket) place ≡ None) }
        ensures becomes { OnOk result (context self.new ≡ inside (context self.old) bracket place none) }
        ensures sound { OnOk result (IsNest self.new) }
        ensures err { IfErr result (λ e. TellsFault e (piece_fault (context self.old) (opener bracket) place)) }
    {
        if self.open.len() >= MOST_OPEN {
            return Err(ReadError::Fault(ReadErrorKind::TooDeep, place));
        }
        let before = self.forms.len() - self.base;
        let Ok(()) = self.open.push(Opened {
            before,
            bracket,
            place,
        })
        else {
            return Err(ReadError::OutOfMemory);
        };
        self.base = self.forms.len();
        Ok(())
    }

    fn close(&mut self, bracket: Bracket, place: Place) -> Result<(), ReadError>
        requires { IsNest self.old }
        ensures ok { OnOk result (closing_fault (context self.old) bracket place ≡ None) }
        ensures becomes { OnOk result (context self.new ≡ bracket_shut (context self.old)) }
        ensures sound { OnOk result (IsNest self.new) }
        ensures err { IfErr result (λ e. TellsFault e (closing_fault (context self.old) bracket place)) }
    {
        let Some(opened) = self.open.pop() else {
            return Err(ReadError::Fault(ReadErrorKind::StrayClose, place));
        };
        if !closes(bracket, opened.bracket) {
            return Err(ReadError::Fault(ReadErrorKind::StrayClose, place));
        }
        if !is_paired(bracket, self.forms.len() - self.base) {
            return Err(ReadError::Fault(ReadErrorKind::OddMap, opened.place));
        }
        let Ok(tail) = self.forms.split_off(self.base) else {
            return Err(ReadError::OutOfMemory);
        };
        let inner = Forms::from_vec(tail);
        self.base -= opened.before;
        Ok(self.push(Form::new(grouped(bracket, inner), opened.place))?)
    }
}

/// Whether a closing bracket is of the kind that stands open.
fn closes(closing: Bracket, opening: Bracket) -> bool
    ensures { result ≡ same_bracket opening closing }
{
    opening == closing
}

/// A map has a value for each key.
fn is_paired(bracket: Bracket, length: usize) -> bool
    ensures { (fs : FormTrees) → form_count fs ≡ length → result ≡ is_paired bracket fs }
{
    match bracket {
        Bracket::Round | Bracket::Square => true,
        Bracket::Curly => length % 2 == 0,
    }
}

fn grouped(bracket: Bracket, forms: Forms) -> Shape
    ensures { shape_tree result ≡ group bracket (form_trees (list forms)) }
{
    match bracket {
        Bracket::Round => Shape::List(forms),
        Bracket::Square => Shape::Vector(forms),
        Bracket::Curly => Shape::Map(forms),
    }
}
