ghost use Rattle.std.specs.Prelude.{◌≡◌};
ghost use Rattle.ca_meaning.specs.Texts.{fault_text};
ghost use Rattle.ca_meaning.specs.Journal.{side_text};

use ca_term::event::Side;
use ca_term::fault::Fault;

/// A fault's name, as output and journals write it.
pub fn fault_name(fault: Fault) -> &'static str
    ensures { result.now ≡ fault_text fault }
{
    match fault {
        Fault::Overflow => "Overflow",
        Fault::ZeroDivisor => "ZeroDivisor",
        Fault::WrongKind => "WrongKind",
        Fault::OutOfRange => "OutOfRange",
        Fault::TooHeavy => "TooHeavy",
        Fault::TooNested => "TooNested",
        Fault::Spun => "Spun",
        Fault::TooDeep => "TooDeep",
        Fault::TooManyTakes => "TooManyTakes",
        Fault::TooManyPuts => "TooManyPuts",
        Fault::NilPut => "NilPut",
        Fault::NoPorts => "NoPorts",
        Fault::NotAPort => "NotAPort",
        Fault::TooManyPorts => "TooManyPorts",
        Fault::TooManyMembers => "TooManyMembers",
    }
}

/// A side, as journals write it.
pub fn side_name(side: Side) -> &'static str
    ensures { result.now ≡ side_text side }
{
    match side {
        Side::Take => "take",
        Side::Put => "put",
    }
}
