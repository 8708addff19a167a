ghost use Rattle.std.specs.Prelude.{◌≡◌};
ghost use Rattle.ca_derived.specs.Kind.{forms_error_name};

use ca_term::place::Place;
use ca_value::memory::OutOfMemory as NoMemory;

/// What can be wrong with one of the six words, each at one of its forms.
#[derive(Clone, Copy)]
pub enum FormsErrorKind {
    /// A list unlike its row, or a word that heads no list.
    BadForm,
    /// More than 24 operations in one list.
    TooMany,
}

impl FormsErrorKind {
    /// The word that a runner prints for it.
    pub fn name(self) -> &'static str
        ensures { result.now ≡ forms_error_name self }
    {
        match self {
            FormsErrorKind::BadForm => "BadForm",
            FormsErrorKind::TooMany => "TooMany",
        }
    }
}

/// Why forms can't be rewritten: the first error in them with its place, or want of memory.
#[derive(Clone, Copy)]
pub enum FormsError {
    Fault(FormsErrorKind, Place),
    OutOfMemory,
}

impl From<NoMemory> for FormsError {
    ghost use Rattle.ca_derived.specs.declared.error.FormsError.TheVariants.{OutOfMemory};

    ghost from_gives = { λ _ e. e ≡ OutOfMemory };

    fn from(_: NoMemory) -> FormsError {
        FormsError::OutOfMemory
    }
}
