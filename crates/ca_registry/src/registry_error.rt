ghost use Rattle.std.specs.Prelude.{◌≡◌};

use ca_value::memory::OutOfMemory;

/// Why an operation on a registry has no answer.
#[derive(Clone, Copy)]
pub enum RegisterError {
    /// The port is no registry of the kind that the operation needs.
    NotAPort,
    /// It would have more members than a registry of its kind may have.
    TooManyMembers,
    OutOfMemory,
}

impl From<OutOfMemory> for RegisterError {
    ghost use Rattle.ca_registry.specs.declared.registry_error.RegisterError.TheVariants.{OutOfMemory};

    ghost from_gives = { λ _ e. e ≡ OutOfMemory };

    fn from(_: OutOfMemory) -> RegisterError {
        RegisterError::OutOfMemory
    }
}
