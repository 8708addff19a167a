ghost use Rattle.std.specs.Prelude.{◌≡◌};
ghost use Rattle.ca_derived.specs.Templates.{template_name};

/// The names in the forms that stand for others. Those with a `#` are hidden: no script can name them.
#[derive(Clone, Copy)]
pub enum Name {
    Let,
    Go,
    GoLoop,
    Loop,
    TakeFrom,
    PutInto,
    If,
    When,
    IfSome,
    Do,
    Recur,
    Close,
    Chan,
    IsNil,
    Less,
    Inc,
    Equal,
    Nth,
    Conj,
    Or,
    Cond,
    Alts,
    AltsBlocking,
    Initial,
    Channel,
    Result,
    Value,
    Bound,
    Count,
    Out,
    Yes,
    No,
    Answer,
    Priority,
}

impl Name {
    /// How it is written.
    pub fn bytes(self) -> &'static [u8]
        ensures { result.now ≡ template_name self }
    {
        match self {
            Name::Let => b"let",
            Name::Go => b"go",
            Name::GoLoop => b"go-loop",
            Name::Loop => b"loop",
            Name::TakeFrom => b"<!",
            Name::PutInto => b">!",
            Name::If => b"if",
            Name::When => b"when",
            Name::IfSome => b"if-some",
            Name::Do => b"do",
            Name::Recur => b"recur",
            Name::Close => b"close!",
            Name::Chan => b"chan",
            Name::IsNil => b"nil?",
            Name::Less => b"<",
            Name::Inc => b"inc",
            Name::Equal => b"=",
            Name::Nth => b"nth",
            Name::Conj => b"conj",
            Name::Or => b"or",
            Name::Cond => b"cond",
            Name::Alts => b"alts!",
            Name::AltsBlocking => b"alts!!",
            Name::Initial => b"#initial",
            Name::Channel => b"#channel",
            Name::Result => b"#result",
            Name::Value => b"#value",
            Name::Bound => b"#bound",
            Name::Count => b"#count",
            Name::Out => b"#out",
            Name::Yes => b"#true",
            Name::No => b"#false",
            Name::Answer => b"#answer",
            Name::Priority => b"#priority",
        }
    }
}
