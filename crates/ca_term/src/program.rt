ghost use Rattle.std.specs.Prelude.{◌≡◌, slice_get, option_map, map};
ghost use Rattle.ca_value.specs.Seq.{list};
ghost use Rattle.ca_term.specs.View.{kernel};
ghost use Rattle.ca_term.specs.Program.{IsProgram, ProgramParts, program_view, procedure_view};

use crate::term::Term;
use ca_value::seq::Seq;
use std::marker::Model;

/// A text that is started with values: a function, or the body of a go block. The parameters are the
/// numbers of the names that the values are put in for.
#[derive(Drop)]
pub struct Procedure {
    pub parameters: Seq<u64>,
    pub body: Term,
}

/// A checked script: its functions and its go bodies, each by number, and its main text. Every name in it
/// is bound, once on each path; every `recur` stands in tail position of its loop and has its arity; every
/// function, builtin and go body that it names is there and takes so many values; a function that a system
/// task applies has no operation.
#[derive(Drop)]
pub struct Program {
    functions: Seq<Procedure>,
    bodies: Seq<Procedure>,
    main: Term,
}

impl Model for Program {
    ghost use Rattle.ca_term.specs.contracts.term.Term as term_row;
    ghost use Rattle.std.specs.Coded.{codes};
    ghost use Rattle.ca_term.specs.Program.{IsProgram, ProgramParts, program_view};

    ghost Value = { ProgramParts };

    ghost coded = { Prim.hlevel (codes, term_row.the_row.coded) };

    ghost view = { λ p. record { functions = p.functions; bodies = p.bodies; main = p.main } };

    ghost invariant = { λ p. IsProgram (program_view (record { functions = p.functions; bodies = p.bodies; main = p.main })) };
}

impl Program {
    /// The program of these texts.
    pub fn of(functions: Seq<Procedure>, bodies: Seq<Procedure>, main: Term) -> Program
        requires { IsProgram (program_view (record { functions = functions; bodies = bodies; main = main })) }
        ensures { result ≡ record { functions = functions; bodies = bodies; main = main } }
    {
        Program {
            functions,
            bodies,
            main,
        }
    }

    /// It is a checked one, as each program is.
    pub fn checked(&self)
        ensures { IsProgram (program_view self.now) }
    {
        let _checked = &self.main;
    }

    /// The main text.
    pub fn main(&self) -> &Term
        ensures text { kernel result.now ≡ (program_view self.now).main }
        ensures checked { IsProgram (program_view self.now) }
    {
        &self.main
    }

    /// The functions, by number.
    pub fn functions(&self) -> &[Procedure]
        ensures { map procedure_view result.now ≡ (program_view self.now).functions }
    {
        self.functions.as_slice()
    }

    /// The go bodies, by number.
    pub fn bodies(&self) -> &[Procedure]
        ensures { map procedure_view result.now ≡ (program_view self.now).bodies }
    {
        self.bodies.as_slice()
    }

    /// The function of that number; None exactly past the last.
    pub fn function(&self, number: u64) -> Option<&Procedure>
        ensures { option_map (λ t. procedure_view t.now) result ≡ slice_get (program_view self.now).functions number }
    {
        self.functions.get(number)
    }

    /// The go body of that number; None exactly past the last.
    pub fn body(&self, number: u64) -> Option<&Procedure>
        ensures text { option_map (λ t. procedure_view t.now) result ≡ slice_get (program_view self.now).bodies number }
        ensures checked { IsProgram (program_view self.now) }
    {
        self.bodies.get(number)
    }
}
