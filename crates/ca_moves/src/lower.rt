//! The code of a program, with values moved at their last use.
ghost use Rattle.std.specs.Prelude.{◌≡◌, IfOk, true};
ghost use Rattle.ca_term.specs.Program.{program_view};
ghost use Rattle.ca_states.specs.Code.{code_view};
ghost use Rattle.ca_states.specs.Valid.{is_valid};
ghost use Rattle.ca_states.specs.ValidCode.{valid_code};
ghost use Rattle.ca_lower.specs.Gos.{SameGos};
ghost use Rattle.ca_lower.specs.Lowered.{Lowered};

use crate::moves::moves;
use ca_lower::code::code_for;
use ca_lower::lower::lower;
use ca_states::code::Code;
use ca_states::valid_code::ValidCode;
use ca_term::program::Program;
use ca_value::memory::OutOfMemory;
use std::alloc::Global;

// The code of a program as it is laid out.
fn laid_out(alloc: Global, program: &Program) -> Result<Code, OutOfMemory>
    ensures valid { IfOk result (λ c. is_valid (code_view c) ≡ true) }
    ensures lowered { IfOk result (λ c. Lowered (program_view program.now) (code_view c)) }
    ensures gos { IfOk result (λ c. SameGos (program_view program.now) (code_view c)) }
{
    program.checked();
    code_for(alloc, program)
}

/// The code of the program, as `lower` gives it, but that a value is moved where it is read for the last time.
pub fn lower_moving(alloc: Global, program: &Program) -> Result<ValidCode, OutOfMemory>
    ensures lowered { IfOk result (λ c. Lowered (program_view program.now) (valid_code c)) }
    ensures gos { IfOk result (λ c. SameGos (program_view program.now) (valid_code c)) }
{
    match moves(alloc, laid_out(alloc, program)?)? {
        Some(code) => Ok(code),
        None => lower(alloc, program),
    }
}
