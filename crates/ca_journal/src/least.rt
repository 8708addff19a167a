// Which of several lists goes on, in order of number.
ghost use Rattle.std.specs.Prelude.{◌≡◌, ◌<◌, [], ◌++◌, length, map, drop, IfNone, IfSome, option_map, option_to_list, slice_get, slice_set, slice_index_or, vec_len, vec_capacity};
ghost use Rattle.ca_journal.specs.Merge.{entry_view, in_order, joined, EachAscends};
ghost use Rattle.ca_journal.specs.Least.{nearer, least_from};
ghost use Rattle.ca_journal.specs.Left.{entries_waiting};

use crate::entries::Entries;
use crate::entry::{Entry, Spot};
use crate::walk::Front;

// The place of a front, and the number of the entry there.
#[derive(Clone, Copy)]
struct Least {
    place: usize,
    number: u64,
}

// The entry with the least number, which isn't left any more; or None where none is left.
pub(crate) fn next<'a>(lists: &'a [Entries], fronts: &mut Vec<Front>) -> Option<&'a Entry>
    requires { EachAscends (map (entries_waiting lists.now) fronts.old.items) }
    ensures order { in_order (joined (map (entries_waiting lists.now) fronts.old.items)) ≡ option_to_list (option_map (λ e. entry_view e.now) result) ++ in_order (joined (map (entries_waiting lists.now) fronts.new.items)) }
    ensures none { IfNone result (joined (map (entries_waiting lists.now) fronts.old.items) ≡ []) }
    ensures ascends { EachAscends (map (entries_waiting lists.now) fronts.new.items) }
    ensures room { vec_capacity fronts.new ≡ vec_capacity fronts.old }
{
    match least_of(lists, fronts.as_slice()) {
        Some(least) => pop_at(lists, fronts, least.place),
        None => None,
    }
}

// The entry of the front at the place, which goes on behind it.
fn pop_at<'a>(lists: &'a [Entries], fronts: &mut Vec<Front>, place: usize) -> Option<&'a Entry>
    requires { place < vec_len fronts.old }
    ensures front { option_map (λ e. entry_view e.now) result ≡ slice_get (slice_index_or (map (entries_waiting lists.now) fronts.old.items) place []) 0 }
    ensures rest { map (entries_waiting lists.now) fronts.new.items ≡ slice_set (map (entries_waiting lists.now) fronts.old.items) place (drop 1 (slice_index_or (map (entries_waiting lists.now) fronts.old.items) place [])) }
    ensures room { vec_capacity fronts.new ≡ vec_capacity fronts.old }
{
    let front = &mut fronts[place];
    pop(lists, front)
}

// The entry at the front, which goes on behind it.
fn pop<'a>(lists: &'a [Entries], front: &mut Front) -> Option<&'a Entry>
    ensures front { option_map (λ e. entry_view e.now) result ≡ slice_get (entries_waiting lists.now front.old) 0 }
    ensures rest { entries_waiting lists.now front.new ≡ drop 1 (entries_waiting lists.now front.old) }
{
    let (entry, spot) = first_of(lists, *front)?;
    front.spot = spot;
    Some(entry)
}

// The first of the fronts whose entry has the least number.
fn least_of(lists: &[Entries], fronts: &[Front]) -> Option<Least>
    ensures least { result ≡ least_from 0 (map (entries_waiting lists.now) fronts.now) }
    ensures within { IfSome result (λ l. l.place < length fronts.now) }
{
    let mut least = None;
    let mut place = fronts.len();
    while place > 0 {
        place -= 1;
        if let Some((entry, _)) = first_of(lists, fronts[place]) {
            least = nearer(place, entry.number, least);
        }
    }
    least
}

// The entry at the front, and the place behind it.
fn first_of<'a>(lists: &'a [Entries], front: Front) -> Option<(&'a Entry, Spot)>
    ensures front { option_map (λ r. entry_view r.0.now) result ≡ slice_get (entries_waiting lists.now front) 0 }
    ensures rest { IfSome result (λ r. entries_waiting lists.now (record { list = front.list; spot = r.1 }) ≡ drop 1 (entries_waiting lists.now front)) }
{
    lists.get(front.list)?.first_from(front.spot)
}

// The front at the place, with the number of its entry, unless that found behind it has a lower number.
fn nearer(place: usize, number: u64, found: Option<Least>) -> Option<Least>
    ensures { result ≡ nearer place (Some number) found }
{
    match found {
        Some(least) if least.number < number => found,
        _ => Some(Least { place, number }),
    }
}
