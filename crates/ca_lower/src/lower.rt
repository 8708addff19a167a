//! The code of a program, which stands for it.
ghost use Rattle.std.specs.Prelude.{IfOk};
ghost use Rattle.ca_term.specs.Program.{program_view};
ghost use Rattle.ca_states.specs.ValidCode.{valid_code};
ghost use Rattle.ca_lower.specs.Gos.{SameGos};
ghost use Rattle.ca_lower.specs.Lowered.{Lowered};

use crate::code::code_for;
use ca_states::valid_code::ValidCode;
use ca_states::validate::validate;
use ca_term::program::Program;
use ca_value::memory::OutOfMemory;
use std::alloc::Global;

/// The code of the program. Its runners stand for the program's terms: at the main text, at each go body and at
/// each function they come to the same operations with the same values, faults, places and turns, after any answers.
/// It has no other go bodies than the program.
pub fn lower(alloc: Global, program: &Program) -> Result<ValidCode, OutOfMemory>
    ensures lowered { IfOk result (λ c. Lowered (program_view program.now) (valid_code c)) }
    ensures gos { IfOk result (λ c. SameGos (program_view program.now) (valid_code c)) }
{
    program.checked();
    match validate(code_for(alloc, program)?) {
        Ok(code) => Ok(code),
        Err(_) => unreachable!(),
    }
}
