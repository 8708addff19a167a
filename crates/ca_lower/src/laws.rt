//! The theorem of lowered code, as contracts of functions that do nothing.
ghost use Rattle.std.specs.Prelude.{◌≡◌, true};
ghost use Rattle.ca_term.specs.Program.{IsProgram, ProgramView};
ghost use Rattle.ca_meaning.specs.Body.{BodyView};
ghost use Rattle.ca_states.specs.Code.{CodeView};
ghost use Rattle.ca_states.specs.Machine.{RunnerState, Move, ComesTo};
ghost use Rattle.ca_states.specs.Valid.{is_valid};
ghost use Rattle.ca_lower.specs.Emit.{code_of};
ghost use Rattle.ca_lower.specs.Implements.{ImplementsProgram};
ghost use Rattle.ca_lower.specs.Lowered.{After, Lowered, StandsFor};

/// Code that implements each text of a program stands for the program: at the main text, at each go body and
/// at each function, with any values and after any answers.
pub fn implementing_code_is_lowered()
    ensures { (P : ProgramView) (C : CodeView) → ImplementsProgram C P → Lowered P C }
{}

/// The code that is laid out for a checked program stands for the program.
pub fn code_is_lowered()
    ensures { (P : ProgramView) → IsProgram P → Lowered P (code_of P) }
{}

/// The code that is laid out for a checked program meets the five rules.
pub fn code_is_valid()
    ensures { (P : ProgramView) → IsProgram P → is_valid (code_of P) ≡ true }
{}

/// What a runner that stands for a body comes to, the body comes to; after any answer it stands for the body
/// with that answer filled in.
pub fn runners_halt_as_their_bodies()
    ensures { (P : ProgramView) (C : CodeView) (c : RunnerState) (b : BodyView) (m : Move) → StandsFor P C c b → ComesTo C c m → After P (StandsFor P C) m b }
{}
