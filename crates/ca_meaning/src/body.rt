ghost use Rattle.std.specs.Prelude.{◌≡◌, ◌≢◌, true, OnOk, OnErr, IfOk, IsTrue, ◌↔◌, option_map};
ghost use Rattle.ca_value.specs.View.{view};
ghost use Rattle.ca_term.specs.Program.{ProgramView, program_view};
ghost use Rattle.ca_term.specs.View.{kernel};
ghost use Rattle.ca_term.specs.Operation.{want_view};
ghost use Rattle.ca_meaning.specs.Body.{at, local, at_op, nowhere, step, fill, new_body};
ghost use Rattle.ca_meaning.specs.BodyViews.{body_view, stand_of, is_at_op, ended_value};
ghost use Rattle.ca_meaning.specs.IsBody.{IsBody, IsBodyOf};
ghost use Rattle.ca_meaning.specs.Rest.{Rest};

use crate::contract::contracted;
use crate::redex::redex;
use crate::replace::replaced;
use crate::standing::{depth_after, ended_with, standing, turns_after};
use crate::want::want_of;
use ca_term::fault::Fault;
use ca_term::operation::Want;
use ca_term::place::Place;
use ca_term::program::Program;
use ca_term::term::Term;
use ca_value::memory::OutOfMemory;
use ca_value::value::Value;
use std::alloc::Global;
use std::marker::Model;
use std::mem;

/// Where a body stands: it goes on by a local step, or it stands at an operation, or it is over.
#[derive(Clone, Copy)]
pub enum Stand {
    Local,
    AtOp,
    Ended,
    Faulted(Fault, Place),
}

/// A fault, and the place of the form that came to it.
#[derive(Clone, Copy)]
pub struct FaultAt {
    pub fault: Fault,
    pub place: Place,
}

/// What a task does, as a term that is rewritten whole. `turns` counts the calls and recurs since the
/// last event, `depth` the calls that the term stands in. A builtin's fault is met by a local step, and
/// ends the body.
#[derive(Drop)]
pub struct Body {
    term: Term,
    turns: u64,
    depth: u64,
    fault: Option<FaultAt>,
}

impl Model for Body {
    ghost use Rattle.ca_term.specs.contracts.term.Term as term_row;
    ghost use Rattle.std.specs.Coded.{codes};
    ghost use Rattle.ca_term.specs.View.{kernel};
    ghost use Rattle.ca_meaning.specs.BodyParts.{BodyParts};
    ghost use Rattle.ca_meaning.specs.IsBody.{IsBody};

    ghost Value = { BodyParts };

    ghost coded = { Prim.hlevel (codes, term_row.the_row.coded) };

    ghost view = { λ b. record { term = b.term; turns = b.turns; depth = b.depth; fault = b.fault } };

    ghost invariant = { λ b. IsBody (kernel b.term) };
}

impl Body {
    /// A new body of the term.
    pub fn of(term: Term) -> Body
        requires { IsBody (kernel term) }
        ensures { body_view result ≡ new_body (kernel term) }
    {
        Body {
            term,
            turns: 0,
            depth: 0,
            fault: None,
        }
    }

    /// Where the body stands.
    pub fn at(&self) -> Stand
        ensures stand { result ≡ stand_of (at (body_view self.now)) }
        ensures somewhere { at (body_view self.now) ≢ nowhere }
    {
        match self.fault {
            Some(met) => Stand::Faulted(met.fault, met.place),
            None => standing(self.turns, self.depth, redex(&self.term)),
        }
    }

    /// The operation that the body stands at, with its values.
    pub fn want(&self, alloc: Global) -> Result<Want, OutOfMemory>
        requires { is_at_op (at (body_view self.now)) ≡ true }
        ensures { IfOk result (λ w. at (body_view self.now) ≡ at_op (want_view w)) }
    {
        want_of(alloc, redex(&self.term))
    }

    /// The value that the body came to, where it stands at its end.
    pub fn value(&self) -> Option<&Value>
        ensures { option_map (λ v. view v.now) result ≡ ended_value (at (body_view self.now)) }
    {
        match self.fault {
            Some(_) => None,
            None => ended_with(redex(&self.term)),
        }
    }

    /// One local step; a refusal leaves the body as it was.
    pub fn step(&mut self, alloc: Global, program: &Program) -> Result<(), OutOfMemory>
        requires stands { at (body_view self.old) ≡ local }
        requires known { IsBodyOf (program_view program.now) (kernel self.old.term) }
        ensures ok { OnOk result (body_view self.new ≡ step (program_view program.now) (body_view self.old)) }
        ensures err { OnErr result (self.new ≡ self.old) }
        ensures known { IsBodyOf (program_view program.now) (kernel self.new.term) }
    {
        let redex = redex(&self.term);
        let next = contracted(alloc, program, redex)?;
        let turns = turns_after(self.turns, redex);
        let depth = depth_after(self.depth, redex);
        // All memory is taken: from here on nothing can fail.
        let term = mem::replace(&mut self.term, Term::Var(0));
        self.term = replaced(term, next.term);
        self.turns = turns;
        self.depth = depth;
        self.fault = next.fault;
        Ok(())
    }

    /// The operation is replaced by its answer, and the turns are 0. It takes no memory.
    pub fn fill(&mut self, answer: Value)
        requires { is_at_op (at (body_view self.old)) ≡ true }
        ensures filled { body_view self.new ≡ fill (view answer) (body_view self.old) }
        ensures known { (program : ProgramView) → IsBodyOf program (kernel self.old.term) → IsBodyOf program (kernel self.new.term) }
    {
        let term = mem::replace(&mut self.term, Term::Var(0));
        self.term = replaced(term, Term::Const(answer));
        self.turns = 0;
    }

    /// Goes on by local steps to the next operation or the end; after a refusal the body stands
    /// somewhere on the way.
    pub fn rest(&mut self, alloc: Global, program: &Program) -> Result<(), OutOfMemory>
        requires { IsBodyOf (program_view program.now) (kernel self.old.term) }
        ensures rest { OnOk result (Rest (program_view program.now) (body_view self.old) (body_view self.new)) }
        ensures known { IsBodyOf (program_view program.now) (kernel self.new.term) }
    {
        while self.is_local() {
            self.step(alloc, program)?;
        }
        Ok(())
    }

    fn is_local(&self) -> bool
        ensures { IsTrue result ↔ (at (body_view self.now) ≡ local) }
    {
        matches!(self.at(), Stand::Local)
    }
}
