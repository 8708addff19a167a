ghost use Rattle.std.specs.Prelude.{◌≡◌};
ghost use Rattle.ca_reader.specs.Words.{kind_name};

use ca_term::place::Place;
use ca_value::memory::OutOfMemory as NoMemory;

/// What can be wrong with a text, each at one of its bytes.
#[derive(Clone, Copy, Debug)]
pub enum ReadErrorKind {
    /// A byte that has no place where it stands.
    BadByte,
    /// An opening bracket that nothing closes.
    UnclosedList,
    /// A closing bracket whose kind isn't open innermost.
    StrayClose,
    /// A text without its closing quote.
    UnclosedText,
    /// A backslash in a text that begins no escape.
    BadEscape,
    /// A number that is badly written, or that doesn't fit 64 bits.
    BadNumber,
    /// A map in which a key has no value.
    OddMap,
    /// An opening bracket inside 200 others.
    TooDeep,
}

impl ReadErrorKind {
    /// The word that a runner prints for it.
    pub fn name(self) -> &'static str
        ensures { result.now ≡ kind_name self }
    {
        match self {
            ReadErrorKind::BadByte => "BadByte",
            ReadErrorKind::UnclosedList => "UnclosedList",
            ReadErrorKind::StrayClose => "StrayClose",
            ReadErrorKind::UnclosedText => "UnclosedText",
            ReadErrorKind::BadEscape => "BadEscape",
            ReadErrorKind::BadNumber => "BadNumber",
            ReadErrorKind::OddMap => "OddMap",
            ReadErrorKind::TooDeep => "TooDeep",
        }
    }
}

/// Why a text has no forms: the first fault in it with its place, or want of memory.
#[derive(Clone, Copy, Debug)]
pub enum ReadError {
    Fault(ReadErrorKind, Place),
    OutOfMemory,
}

impl From<NoMemory> for ReadError {
    ghost use Rattle.ca_reader.specs.declared.error.ReadError.TheVariants.{OutOfMemory};

    ghost from_gives = { λ _ e. e ≡ OutOfMemory };

    fn from(_: NoMemory) -> ReadError {
        ReadError::OutOfMemory
    }
}
