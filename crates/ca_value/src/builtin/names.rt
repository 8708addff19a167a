ghost use Rattle.std.specs.Prelude.{◌≡◌, ◌≢◌, false, IfSome, All, Contains};
ghost use Rattle.ca_value.specs.declared.builtin.Builtin.{Builtin};
ghost use Rattle.ca_value.specs.Names.{name_of, is_hidden};
ghost use Rattle.ca_value.specs.Builtins.{admits_arguments};

use super::Builtin;

/// The builtins that a script can name.
const NAMED: [Builtin; 45] = [
    Builtin::Add,
    Builtin::Multiply,
    Builtin::Subtract,
    Builtin::Inc,
    Builtin::Dec,
    Builtin::Quot,
    Builtin::Rem,
    Builtin::Mod,
    Builtin::Equal,
    Builtin::NotEqual,
    Builtin::Less,
    Builtin::Greater,
    Builtin::LessOrEqual,
    Builtin::GreaterOrEqual,
    Builtin::Min,
    Builtin::Max,
    Builtin::Not,
    Builtin::IsNil,
    Builtin::IsSome,
    Builtin::IsTrue,
    Builtin::IsFalse,
    Builtin::IsZero,
    Builtin::IsPos,
    Builtin::IsNeg,
    Builtin::IsEven,
    Builtin::IsOdd,
    Builtin::Str,
    Builtin::Vector,
    Builtin::HashMap,
    Builtin::Conj,
    Builtin::Nth,
    Builtin::Get,
    Builtin::Count,
    Builtin::IsEmpty,
    Builtin::First,
    Builtin::Last,
    Builtin::Peek,
    Builtin::Pop,
    Builtin::Subvec,
    Builtin::Assoc,
    Builtin::Dissoc,
    Builtin::Keys,
    Builtin::Vals,
    Builtin::Contains,
    Builtin::Range,
];

impl Builtin {
    /// The builtin of this name, if a script can name one so.
    pub fn named(name: &[u8]) -> Option<Builtin>
        ensures found { IfSome result (λ b. (name_of b ≡ name.now) × (is_hidden b ≡ false)) }
        ensures missing { result ≡ None → (b : Builtin) → is_hidden b ≡ false → name_of b ≢ name.now }
    {
        find_named(&NAMED, name)
    }

    /// The name in scripts.
    pub fn name(self) -> &'static str
        ensures { result.now ≡ name_of self }
    {
        match self {
            Builtin::Add => "+",
            Builtin::Multiply => "*",
            Builtin::Subtract => "-",
            Builtin::Inc => "inc",
            Builtin::Dec => "dec",
            Builtin::Quot => "quot",
            Builtin::Rem => "rem",
            Builtin::Mod => "mod",
            Builtin::Equal => "=",
            Builtin::NotEqual => "not=",
            Builtin::Less => "<",
            Builtin::Greater => ">",
            Builtin::LessOrEqual => "<=",
            Builtin::GreaterOrEqual => ">=",
            Builtin::Min => "min",
            Builtin::Max => "max",
            Builtin::Not => "not",
            Builtin::IsNil => "nil?",
            Builtin::IsSome => "some?",
            Builtin::IsTrue => "true?",
            Builtin::IsFalse => "false?",
            Builtin::IsZero => "zero?",
            Builtin::IsPos => "pos?",
            Builtin::IsNeg => "neg?",
            Builtin::IsEven => "even?",
            Builtin::IsOdd => "odd?",
            Builtin::Str => "str",
            Builtin::Vector => "vector",
            Builtin::HashMap => "hash-map",
            Builtin::Conj => "conj",
            Builtin::Nth => "nth",
            Builtin::Get => "get",
            Builtin::Count => "count",
            Builtin::IsEmpty => "empty?",
            Builtin::First => "first",
            Builtin::Last => "last",
            Builtin::Peek => "peek",
            Builtin::Pop => "pop",
            Builtin::Subvec => "subvec",
            Builtin::Assoc => "assoc",
            Builtin::Dissoc => "dissoc",
            Builtin::Keys => "keys",
            Builtin::Vals => "vals",
            Builtin::Contains => "contains?",
            Builtin::Range => "range",
            Builtin::Part => "part",
            Builtin::Items => "items",
            Builtin::WorkerCount => "worker-count",
        }
    }

    /// Whether the builtin takes so many arguments.
    pub fn admits(self, count: u64) -> bool
        ensures { result ≡ admits_arguments self count }
    {
        match self {
            Builtin::Add | Builtin::Multiply | Builtin::Str | Builtin::Vector => true,
            Builtin::HashMap => count % 2 == 0,
            Builtin::Subtract
            | Builtin::Equal
            | Builtin::NotEqual
            | Builtin::Less
            | Builtin::Greater
            | Builtin::LessOrEqual
            | Builtin::GreaterOrEqual
            | Builtin::Min
            | Builtin::Max
            | Builtin::Dissoc => 1 <= count,
            Builtin::Conj => 2 <= count,
            Builtin::Assoc => 3 <= count && count % 2 == 1,
            Builtin::Quot | Builtin::Rem | Builtin::Mod | Builtin::Contains | Builtin::Part => {
                count == 2
            }
            Builtin::Range => 1 <= count && count <= 2,
            Builtin::Nth | Builtin::Get | Builtin::Subvec => 2 <= count && count <= 3,
            _ => count == 1,
        }
    }
}

// The first of the builtins that has this name.
fn find_named(among: &[Builtin], name: &[u8]) -> Option<Builtin>
    ensures found { IfSome result (λ b. (name_of b ≡ name.now) × Contains among.now b) }
    ensures missing { result ≡ None → All (λ b. name_of b ≢ name.now) among.now }
{
    for builtin in among {
        if builtin.name().as_bytes() == name {
            return Some(*builtin);
        }
    }
    None
}
