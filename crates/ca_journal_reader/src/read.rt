//! A journal from its text, line by line. A line is read leniently, and what was read is then printed again and compared
//! with the line: so a number with a zero in front, a blank too many or a byte that prints otherwise is refused.
ghost use Rattle.std.specs.Prelude.{◌≡◌, ◌<◌, ◌∷◌, [], ◌++◌, ℕ, List, OnOk, IfOk, IfErr, Err, Some, None};
ghost use Rattle.ca_term.specs.Event.{EventView, event_view};
ghost use Rattle.ca_meaning.specs.Journal.{event_line};
ghost use Rattle.ca_value.specs.Seq.{list};
ghost use Rattle.ca_journal.specs.Events.{events};
ghost use Rattle.ca_journal.specs.Merge.{entries, room};
ghost use Rattle.ca_journal_reader.specs.declared.refused.Refused.TheVariants.{Bad};
ghost use Rattle.ca_journal_reader.specs.Words.{word_behind};
ghost use Rattle.ca_journal_reader.specs.EventText.{entry_in};
ghost use Rattle.ca_journal_reader.specs.Input.{JournalReads, IsBadLine, HasNoLine};
ghost use Rattle.ca_journal_reader.specs.Front.{HasLine};
ghost use Rattle.ca_journal_reader.specs.Errors.{IsErrorOf};

use crate::cursor::Cursor;
use crate::error::JournalError;
use crate::refused::Refused;
use ca_journal::entries::Entries;
use ca_journal::journal::Journal;
use ca_journal::line::append_event_line;
use ca_term::event::Event;
use ca_value::memory::OutOfMemory;
use ca_value::seq::Text;
use std::alloc::Global;

/// The journal of these bytes, or the first line that is none of a journal; `OutOfMemory` at any time.
///
/// Goes through the bytes once and prints each line once, in time linear in their number but for the keys of a map, each of
/// which is compared with those before it.
pub fn read_journal(alloc: Global, bytes: &[u8]) -> Result<Journal, JournalError>
    ensures reads { IfOk result (λ j. JournalReads bytes.now (events j)) }
    ensures bad { IfErr result (λ e. IsErrorOf bytes.now e) }
{
    let mut noted = Entries::new(alloc);
    let mut printed = Text::new(alloc);
    let mut rest = bytes;
    let mut number: u64 = 0;
    'lines: while !rest.is_empty() {
        match line(alloc, rest, number, &mut noted, &mut printed) {
            Ok(behind) => rest = behind,
            Err(Refused::Bad) => return Err(JournalError::BadLine(number)),
            Err(Refused::OutOfMemory) => return Err(JournalError::OutOfMemory),
        }
        number += 1;
    }
    Ok(Journal::of(alloc, noted)?)
}

/// Notes the event of the line in front, which has this number, and gives the bytes behind the line. The text is for what
/// is printed.
fn line<'a>(
    alloc: Global,
    bytes: &'a [u8],
    number: u64,
    noted: &mut Entries,
    printed: &mut Text,
) -> Result<&'a [u8], Refused>
    ensures line { IfOk result (λ r. HasLine number bytes.now r.now (entries noted.old) (entries noted.new)) }
    ensures bad { result ≡ Err Bad → HasNoLine number bytes.now }
{
    noted.reserve()?;
    let event = entry(alloc, bytes)?;
    note(number, event, noted, printed)?;
    behind(bytes, printed.as_slice())
}

/// The event in front, behind a line's number.
fn entry(alloc: Global, bytes: &[u8]) -> Result<Event, Refused>
    ensures there { IfOk result (λ e. entry_in bytes.now ≡ Some (event_view e)) }
    ensures bad { result ≡ Err Bad → entry_in bytes.now ≡ None }
{
    let mut cursor = Cursor { rest: bytes };
    let event = cursor.entry(alloc);
    let Cursor { rest: _ } = cursor;
    event
}

/// Prints the line of the event in place of what was printed before, and adds the event last.
fn note(
    number: u64,
    event: Event,
    noted: &mut Entries,
    printed: &mut Text,
) -> Result<(), OutOfMemory>
    requires { 0 < room noted.old }
    ensures added { entries noted.new ≡ entries noted.old ++ record { number = number; event = event_view event } ∷ [] }
    ensures printed { OnOk result (list printed.new ≡ event_line number (event_view event)) }
{
    let outcome = print_over(number, &event, printed);
    noted.push(number, event);
    outcome
}

/// The bytes behind what was printed.
fn behind<'a>(bytes: &'a [u8], printed: &[u8]) -> Result<&'a [u8], Refused>
    ensures there { IfOk result (λ r. word_behind printed.now bytes.now ≡ Some (tt, r.now)) }
    ensures bad { result ≡ Err Bad → word_behind printed.now bytes.now ≡ None }
{
    let mut cursor = Cursor { rest: bytes };
    let passed = cursor.pass(printed);
    let Cursor { rest } = cursor;
    passed?;
    Ok(rest)
}

/// The line of the event, in place of what was printed before.
fn print_over(number: u64, event: &Event, printed: &mut Text) -> Result<(), OutOfMemory>
    ensures { OnOk result (list printed.new ≡ event_line number (event_view event.now)) }
{
    printed.truncate(0);
    append_event_line(number, event, printed)
}

/// Bytes are the text of no two journals, and have no two first bad lines, nor one beside a journal.
pub fn one_journal()
    ensures journals { (bytes : List ℕ) (es fs : List EventView) → JournalReads bytes es → JournalReads bytes fs → es ≡ fs }
    ensures lines { (bytes : List ℕ) (j k : ℕ) → IsBadLine j bytes → IsBadLine k bytes → j ≡ k }
    ensures not_both { (bytes : List ℕ) (es : List EventView) (k : ℕ) → JournalReads bytes es → IsBadLine k bytes → ⊥ }
{}
