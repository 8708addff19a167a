ghost use Rattle.std.specs.Prelude.{IsTrue};
ghost use Rattle.ca_states.specs.Code.{code_view};
ghost use Rattle.ca_states.specs.Valid.{is_valid};

use crate::code::Code;

/// Code that meets the five rules.
#[derive(Drop)]
pub struct ValidCode {
    pub(crate) code: Code,
    ghost valid: { IsTrue (is_valid (code_view code)) },
}
