//! An input of a script and a journal, parted at the marker line.
ghost use Rattle.std.specs.Prelude.{◌≡◌, ◌≢◌, ◌<◌, ◌+◌, ℕ, List, length, slice_index, IfNone, IfSome};
ghost use Rattle.ca_run.specs.Marker.{IsParted, IsUnparted};

/// The script before the first line that is exactly `;;; journal`, even inside a text of the script, and the journal behind
/// it. None where there is no such line.
pub fn parted<'a>(input: &'a [u8]) -> Option<(&'a [u8], &'a [u8])>
    ensures parts { IfSome result (λ p. IsParted input.now p.0.now p.1.now) }
    ensures none { IfNone result (IsUnparted input.now) }
{
    let mut start = 0;
    while start < input.len() {
        let rest = &input[start..];
        if let Some(journal) = rest.strip_prefix(b";;; journal\n") {
            return Some((&input[..start], journal));
        }
        match line_feed(rest) {
            Some(place) => start += place + 1,
            None => return None,
        }
    }
    None
}

// The place of the first line feed.
fn line_feed(text: &[u8]) -> Option<usize>
    ensures there { IfSome result (λ i. (i < length text.now) × (slice_index text.now i ≡ 10)) }
    ensures first { IfSome result (λ i. (k : ℕ) → k < i → slice_index text.now k ≢ 10) }
    ensures none { IfNone result ((k : ℕ) → k < length text.now → slice_index text.now k ≢ 10) }
{
    for (place, byte) in text.iter().enumerate() {
        if *byte == b'\n' {
            return Some(place);
        }
    }
    None
}
