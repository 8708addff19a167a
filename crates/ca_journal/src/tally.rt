// What lists of entries come to together.
ghost use Rattle.std.specs.Prelude.{◌≡◌, ◌-◌, ◌<◌, ◌≤◌, ◌^◌, map, option_map};
ghost use Rattle.ca_meaning.specs.Cost.{cost};
ghost use Rattle.ca_journal.specs.Latest.{later, latest};
ghost use Rattle.ca_journal.specs.Mains.{mains};
ghost use Rattle.ca_journal.specs.Merge.{entries, entry_view, events_of, joined};

use crate::entries::Entries;
use crate::entry::Entry;

// What all entries cost, and how often the main text is over; each the greatest number where it is more.
pub(crate) fn tally_of(lists: &[Entries]) -> (u64, u64)
    ensures spent { result.0 < 2 ^ 64 - 1 → cost (events_of (joined (map entries lists.now))) ≤ result.0 }
    ensures ends { result.1 < 2 ^ 64 - 1 → mains (events_of (joined (map entries lists.now))) ≡ result.1 }
{
    let mut spent: u64 = 0;
    let mut ends: u64 = 0;
    for list in lists {
        spent = spent.saturating_add(list.spent);
        ends = ends.saturating_add(list.ends);
    }
    (spent, ends)
}

// The last entry of all in order.
pub(crate) fn latest_of(lists: &[Entries]) -> Option<&Entry>
    ensures { option_map (λ e. entry_view e.now) result ≡ latest (map entries lists.now) }
{
    let mut found = None;
    let mut place = lists.len();
    while place > 0 {
        place -= 1;
        found = later(lists[place].last_entry(), found);
    }
    found
}

// The entry of the list in front, unless that found behind it has no lower number.
fn later<'a>(here: Option<&'a Entry>, found: Option<&'a Entry>) -> Option<&'a Entry>
    ensures { option_map (λ e. entry_view e.now) result ≡ later (option_map (λ e. entry_view e.now) here.entry) (option_map (λ e. entry_view e.now) found.entry) }
{
    match (here, found) {
        (Some(here), Some(found)) => {
            if found.number < here.number {
                Some(here)
            } else {
                Some(found)
            }
        }
        (Some(here), None) => Some(here),
        (None, found) => found,
    }
}
