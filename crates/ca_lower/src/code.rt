//! The code of a program.
ghost use Rattle.std.specs.Prelude.{◌≡◌, length, option_map, slice_get, IfOk, OnOk};
ghost use Rattle.ca_value.specs.Seq.{list};
ghost use Rattle.ca_term.specs.Program.{procedure_view, program_view};
ghost use Rattle.ca_states.specs.Code.{code_view};
ghost use Rattle.ca_lower.specs.Implements.{identity_text};
ghost use Rattle.ca_lower.specs.Emit.{code_of, emit_text, emit_texts, text_entries, widest, width_of};
ghost use Rattle.ca_lower.specs.Views.{builder_view, texts_of};

use crate::builder::{Builder, sum};
use crate::text::emit_text;
use crate::width::greater;
use ca_states::code::{Code, EntryPoint, Mark};
use ca_term::program::{Procedure, Program};
use ca_term::term::Term;
use ca_value::memory::OutOfMemory;
use ca_value::seq::Seq;
use std::alloc::Global;

// The functions of a program, or its go bodies.
#[derive(Clone, Copy)]
enum Texts {
    Functions,
    Bodies,
}

// Where texts begin, and how many slots the widest of them needs.
#[derive(Drop)]
struct Laid {
    entries: Seq<EntryPoint>,
    widest: u64,
}

// The text of that number; None exactly past the last.
fn text_at(program: &Program, texts: Texts, number: u64) -> Option<&Procedure>
    ensures { option_map (λ t. procedure_view t.now) result ≡ slice_get (texts_of (program_view program.now) texts) number }
{
    match texts {
        Texts::Functions => program.function(number),
        Texts::Bodies => program.body(number),
    }
}

// The blocks of all these texts.
fn emit_texts(
    alloc: Global,
    builder: &mut Builder,
    program: &Program,
    texts: Texts,
) -> Result<Laid, OutOfMemory>
    ensures code { OnOk result (builder_view builder.new ≡ emit_texts (texts_of (program_view program.now) texts) (builder_view builder.old)) }
    ensures begin { IfOk result (λ l. list l.entries ≡ text_entries (texts_of (program_view program.now) texts) (builder_view builder.old)) }
    ensures wide { IfOk result (λ l. l.widest ≡ widest (texts_of (program_view program.now) texts)) }
{
    let mut laid = Laid {
        entries: Seq::new(alloc),
        widest: 0,
    };
    let mut number = 0;
    loop {
        let Some(text) = text_at(program, texts, number) else {
            return Ok(laid);
        };
        laid.entries.reserve(1)?;
        laid.entries.push(EntryPoint {
            block: builder.number(),
            values: text.parameters.len(),
        });
        let width = emit_text(alloc, builder, text.parameters.as_slice(), &text.body)?;
        laid.widest = greater(laid.widest, width);
        number = sum(number, 1)?;
    }
}

// So many marks, which say nothing.
fn marks(alloc: Global, count: u64) -> Result<Seq<Mark>, OutOfMemory>
    ensures { IfOk result (λ s. length (list s) ≡ count) }
{
    let mut marks = Seq::new(alloc);
    marks.reserve(count)?;
    for _slot in 0..count {
        marks.push(Mark {
            block: 0,
            known: false,
        });
    }
    Ok(marks)
}

// The text that has the one value which it takes.
fn emit_identity(alloc: Global, builder: &mut Builder) -> Result<u64, OutOfMemory>
    ensures code { OnOk result (builder_view builder.new ≡ emit_text identity_text (builder_view builder.old)) }
    ensures width { IfOk result (λ n. n ≡ width_of identity_text) }
{
    emit_text(alloc, builder, &[0], &Term::Var(0))
}

/// The code of the program: its functions, its go bodies, its main text, and the text that has the value which it takes.
pub fn code_for(alloc: Global, program: &Program) -> Result<Code, OutOfMemory>
    ensures { IfOk result (λ c. code_view c ≡ code_of (program_view program.now)) }
{
    let mut builder = Builder {
        blocks: Seq::new(alloc),
        below: 0,
        instrs: Seq::new(alloc),
    };
    let functions = emit_texts(alloc, &mut builder, program, Texts::Functions)?;
    let bodies = emit_texts(alloc, &mut builder, program, Texts::Bodies)?;
    let main = builder.number();
    let own = emit_text(alloc, &mut builder, &[], program.main())?;
    let identity = builder.number();
    let giving = emit_identity(alloc, &mut builder)?;
    let width = greater(
        giving,
        greater(own, greater(functions.widest, bodies.widest)),
    );
    Ok(Code {
        blocks: builder.blocks,
        main,
        identity,
        bodies: bodies.entries,
        functions: functions.entries,
        marks: marks(alloc, width)?,
    })
}
