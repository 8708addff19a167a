ghost use Rattle.std.specs.Prelude.{◌≡◌, find};
ghost use Rattle.std.specs.Str.{bytes_eq};
ghost use Rattle.ca_forms.specs.Words.{special, builtin, form_name, is_inner};

use crate::special::Special;
use ca_value::builtin::Builtin;

const SPECIALS: [Special; 61] = [
    Special::Def,
    Special::Defn,
    Special::Do,
    Special::Let,
    Special::If,
    Special::IfNot,
    Special::When,
    Special::WhenNot,
    Special::Cond,
    Special::And,
    Special::Or,
    Special::IfLet,
    Special::WhenLet,
    Special::IfSome,
    Special::WhenSome,
    Special::Loop,
    Special::Recur,
    Special::While,
    Special::Dotimes,
    Special::Doseq,
    Special::Go,
    Special::GoLoop,
    Special::Take,
    Special::TakeBlocking,
    Special::Put,
    Special::PutBlocking,
    Special::Alts,
    Special::AltsBlocking,
    Special::Offer,
    Special::Poll,
    Special::Post,
    Special::Close,
    Special::Print,
    Special::Chan,
    Special::PromiseChan,
    Special::Timeout,
    Special::Mult,
    Special::Tap,
    Special::Untap,
    Special::UntapAll,
    Special::Mix,
    Special::Admix,
    Special::Unmix,
    Special::UnmixAll,
    Special::Toggle,
    Special::SoloMode,
    Special::Pub,
    Special::Sub,
    Special::Unsub,
    Special::UnsubAll,
    Special::Pipe,
    Special::Merge,
    Special::Pipeline,
    Special::OntoChan,
    Special::ToChan,
    Special::Buffer,
    Special::DroppingBuffer,
    Special::SlidingBuffer,
    Special::Map,
    Special::Filter,
    Special::Mapcat,
];

impl Special {
    /// The form or inner word of that name.
    pub fn named(name: &[u8]) -> Option<Special>
        ensures { result ≡ special name.now }
    {
        find_named(&SPECIALS, name)
    }

    /// The word in scripts.
    pub fn name(self) -> &'static str
        ensures { result.now ≡ form_name self }
    {
        match self {
            Special::Def => "def",
            Special::Defn => "defn",
            Special::Do => "do",
            Special::Let => "let",
            Special::If => "if",
            Special::IfNot => "if-not",
            Special::When => "when",
            Special::WhenNot => "when-not",
            Special::Cond => "cond",
            Special::And => "and",
            Special::Or => "or",
            Special::IfLet => "if-let",
            Special::WhenLet => "when-let",
            Special::IfSome => "if-some",
            Special::WhenSome => "when-some",
            Special::Loop => "loop",
            Special::Recur => "recur",
            Special::While => "while",
            Special::Dotimes => "dotimes",
            Special::Doseq => "doseq",
            Special::Go => "go",
            Special::GoLoop => "go-loop",
            Special::Take => "<!",
            Special::TakeBlocking => "<!!",
            Special::Put => ">!",
            Special::PutBlocking => ">!!",
            Special::Alts => "alts!",
            Special::AltsBlocking => "alts!!",
            Special::Offer => "offer!",
            Special::Poll => "poll!",
            Special::Post => "put!",
            Special::Close => "close!",
            Special::Print => "println",
            Special::Chan => "chan",
            Special::PromiseChan => "promise-chan",
            Special::Timeout => "timeout",
            Special::Mult => "mult",
            Special::Tap => "tap",
            Special::Untap => "untap",
            Special::UntapAll => "untap-all",
            Special::Mix => "mix",
            Special::Admix => "admix",
            Special::Unmix => "unmix",
            Special::UnmixAll => "unmix-all",
            Special::Toggle => "toggle",
            Special::SoloMode => "solo-mode",
            Special::Pub => "pub",
            Special::Sub => "sub",
            Special::Unsub => "unsub",
            Special::UnsubAll => "unsub-all",
            Special::Pipe => "pipe",
            Special::Merge => "merge",
            Special::Pipeline => "pipeline",
            Special::OntoChan => "onto-chan!",
            Special::ToChan => "to-chan!",
            Special::Buffer => "buffer",
            Special::DroppingBuffer => "dropping-buffer",
            Special::SlidingBuffer => "sliding-buffer",
            Special::Map => "map",
            Special::Filter => "filter",
            Special::Mapcat => "mapcat",
        }
    }

    /// Whether it stands inside a form alone.
    pub fn is_inner(self) -> bool
        ensures { result ≡ is_inner self }
    {
        match self {
            Special::Buffer | Special::DroppingBuffer | Special::SlidingBuffer => true,
            Special::Map | Special::Filter | Special::Mapcat => true,
            _ => false,
        }
    }
}

fn find_named(among: &[Special], name: &[u8]) -> Option<Special>
    ensures { result ≡ find (λ k. bytes_eq name.now (form_name k)) among.now }
{
    for special in among {
        if name == special.name().as_bytes() {
            return Some(*special);
        }
    }
    None
}

/// The builtin of that name, if a script can name it.
pub fn builtin(name: &[u8]) -> Option<Builtin>
    ensures { result ≡ builtin name.now }
{
    Builtin::named(name)
}
