//! What the pass rests on, as contracts of functions that do nothing.
ghost use Rattle.std.specs.Prelude.{◌≡◌, true};
ghost use Rattle.ca_term.specs.Program.{ProgramView};
ghost use Rattle.ca_states.specs.Code.{CodeView};
ghost use Rattle.ca_states.specs.Valid.{is_valid};
ghost use Rattle.ca_lower.specs.Lowered.{Lowered};
ghost use Rattle.ca_moves.specs.Plain.{plain_code};

/// Valid codes that differ only in what they move, and in the entry slots that their blocks name, stand for the same
/// programs.
pub fn moved_code_is_lowered()
    ensures { (P : ProgramView) (C D : CodeView) → is_valid C ≡ true → is_valid D ≡ true → plain_code C ≡ plain_code D → Lowered P C → Lowered P D }
{}
