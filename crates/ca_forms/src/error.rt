ghost use Rattle.std.specs.Prelude.{◌≡◌};
ghost use Rattle.ca_forms.specs.Kind.{check_error_name};

use ca_term::place::Place;
use ca_value::memory::OutOfMemory as NoMemory;

/// What can be wrong with a script, each at one of its forms.
#[derive(Clone, Copy)]
pub enum CheckErrorKind {
    /// A symbol that is no local, no earlier `def`, function or builtin, and no form.
    UnknownName,
    /// A `def` or `defn` of a name that is defined, a builtin or a form.
    Redefined,
    /// A function, a builtin or a `recur` with a wrong number of arguments.
    BadArity,
    /// A form unlike its row of the table.
    BadForm,
    /// A `recur` outside tail position, or without a loop or function that it goes back to.
    RecurNotTail,
    /// `<!`, `>!` or `alts!` outside the visible text of a go block.
    ParkOutsideGo,
    /// `<!!`, `>!!` or `alts!!` in a go block or a `defn`.
    BlockOutsideMain,
    /// A function given to `pub` or `pipeline` that isn't a plain one of one parameter.
    NotPlain,
    /// A number past its limit.
    TooMany,
}

impl CheckErrorKind {
    /// The word that a runner prints for it.
    pub fn name(self) -> &'static str
        ensures { result.now ≡ check_error_name self }
    {
        match self {
            CheckErrorKind::UnknownName => "UnknownName",
            CheckErrorKind::Redefined => "Redefined",
            CheckErrorKind::BadArity => "BadArity",
            CheckErrorKind::BadForm => "BadForm",
            CheckErrorKind::RecurNotTail => "RecurNotTail",
            CheckErrorKind::ParkOutsideGo => "ParkOutsideGo",
            CheckErrorKind::BlockOutsideMain => "BlockOutsideMain",
            CheckErrorKind::NotPlain => "NotPlain",
            CheckErrorKind::TooMany => "TooMany",
        }
    }
}

/// Why a script has no program: the first error in it with its place, or want of memory.
#[derive(Clone, Copy)]
pub enum CheckError {
    Fault(CheckErrorKind, Place),
    OutOfMemory,
}

impl From<NoMemory> for CheckError {
    ghost use Rattle.ca_forms.specs.declared.error.CheckError.TheVariants.{OutOfMemory};

    ghost from_gives = { λ _ e. e ≡ OutOfMemory };

    fn from(_: NoMemory) -> CheckError {
        CheckError::OutOfMemory
    }
}
