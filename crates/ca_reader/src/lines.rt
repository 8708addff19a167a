ghost use Rattle.std.specs.Prelude.{◌≡◌, ◌+◌, ◌<◌, ◌≤◌, ◌^◌};
ghost use Rattle.ca_reader.specs.Words.{length, past};

use ca_term::place::Place;

/// The place behind these bytes, of which the first is at `place`.
pub fn past(place: Place, bytes: &[u8]) -> Place
    requires line { place.line + length bytes.now < 2 ^ 64 }
    requires column { place.column + length bytes.now < 2 ^ 64 }
    ensures value { result ≡ past place bytes.now }
    ensures line { result.line ≤ place.line + length bytes.now }
    ensures column { result.column ≤ place.column + length bytes.now }
{
    let mut at = place;
    for byte in bytes {
        if *byte == b'\n' {
            at = Place {
                line: at.line + 1,
                column: 1,
            };
        } else {
            at.column += 1;
        }
    }
    at
}
