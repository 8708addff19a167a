ghost use Rattle.std.specs.Prelude.{◌≡◌, ℕ, ◌+◌, ◌-◌, ◌<◌, ◌≤◌, ◌^◌, [], ◌∷◌, ◌++◌, cond, length, map, option_map};
ghost use Rattle.std.specs.Vec.{vec_len, vec_capacity};
ghost use Rattle.ca_term.specs.Cost.{cost_of};
ghost use Rattle.ca_meaning.specs.Cost.{cost};
ghost use Rattle.ca_journal.specs.Mains.{mains};
ghost use Rattle.ca_journal.specs.Note.{note_view};
ghost use Rattle.ca_journal.specs.Latest.{last_listed};
ghost use Rattle.ca_journal.specs.Numbered.{entry_view, events_of, joined, laid, piece_entries};
ghost use Rattle.ca_journal.specs.Said.{said_spots};
ghost use Rattle.ca_journal.specs.Spoken.{found_at};

use crate::entry::{Entry, Spot};
use crate::fits::cost_noted;
use crate::main_end::main_end_of;
use crate::note::Note;
use ca_term::event::{Ending, Event};
use ca_value::memory::OutOfMemory;
use std::alloc::Global;
use std::mem;

/// How many entries a piece has room for at the least.
const LEAST_PIECE: usize = 16;

/// How many entries a piece has room for at the most: some hundred kilobytes, which go back to the system
/// when the piece is let go.
const GREATEST_PIECE: usize = 4_096;

/// What one worker drew, in its order. It is kept in pieces that never grow, so that no entry is moved when
/// more come.
#[derive(Drop)]
pub struct Entries {
    // The pieces that are full, in order.
    pub(crate) full: Vec<Vec<Entry>>,
    // The piece behind them, which takes the next entry.
    pub(crate) last: Vec<Entry>,
    // Where those lie that the run writes or that end a task, in order.
    pub(crate) said: Vec<Spot>,
    // What all cost; the greatest number where that is more, or where the weight of some doesn't fit, as in no run.
    pub(crate) spent: u64,
    // How often the main text is over; the greatest number where that is more.
    pub(crate) ends: u64,
    // The box that the next rare event goes into.
    space: Option<Box<Event>>,
    ghost told: { said.items ≡ said_spots full.items last },
    ghost counted: { spent < 2 ^ 64 - 1 → cost (events_of (laid full.items last)) ≤ spent },
    ghost ended: { ends < 2 ^ 64 - 1 → mains (events_of (laid full.items last)) ≡ ends },
}

impl Entries {
    ghost use Rattle.std.specs.Prelude.{drop, slice_get, IfSome, OnOk};
    ghost use Rattle.ca_term.specs.Event.{event_view};
    ghost use Rattle.ca_journal.specs.Left.{left_from};
    ghost use Rattle.ca_journal.specs.Merge.{boxes, entries, room};

    /// No entries, in no memory.
    pub fn new(alloc: Global) -> Entries
        ensures { entries result ≡ [] }
    {
        Entries {
            full: Vec::new(alloc),
            last: Vec::new(alloc),
            said: Vec::new(alloc),
            spent: 0,
            ends: 0,
            space: None,
        }
    }

    /// Makes room for one more entry, whatever its event: in the last piece, among the places of what is said, and
    /// a box for it. Where the last piece is full, a new one has twice its room, but room for 16 entries at the least
    /// and 4,096 at the most.
    #[inline(always)]
    pub fn reserve(&mut self) -> Result<(), OutOfMemory>
        ensures same { entries self.new ≡ entries self.old }
        ensures room { OnOk result (0 < room self.new) }
        ensures keeps { room self.old ≤ room self.new }
    {
        if self.last.len() == self.last.capacity() {
            self.add_piece()?;
        }
        if self.said.len() == self.said.capacity() {
            self.said.reserve(1)?;
        }
        if self.space.is_none() {
            self.add_space()?;
        }
        Ok(())
    }

    /// Adds the event last, taking no memory.
    pub fn push(&mut self, number: u64, event: Event)
        requires { 0 < room self.old }
        ensures added { entries self.new ≡ entries self.old ++ record { number = number; event = event_view event } ∷ [] }
        ensures room { room self.old ≤ room self.new + 1 }
    {
        let note = match Note::of(event) {
            Ok(note) => note,
            Err(event) => self.boxed(event),
        };
        self.add(Entry { number, note });
    }

    // The entry at the place.
    pub(crate) fn at(&self, spot: Spot) -> Option<&Entry>
        ensures { option_map (λ e. entry_view e.now) result ≡ found_at self.now.full.items self.now.last spot }
    {
        if spot.piece < self.full.len() {
            self.full[spot.piece].get(spot.place)
        } else {
            self.last.get(spot.place)
        }
    }

    // The first entry that lies there or behind, and the place behind that.
    pub(crate) fn first_from(&self, spot: Spot) -> Option<(&Entry, Spot)>
        ensures entry { option_map (λ r. entry_view r.0.now) result ≡ slice_get (left_from self.now.full.items self.now.last spot) 0 }
        ensures rest { IfSome result (λ r. left_from self.now.full.items self.now.last r.1 ≡ drop 1 (left_from self.now.full.items self.now.last spot)) }
    {
        let mut spot = spot;
        while spot.piece < self.full.len() {
            let piece = &self.full[spot.piece];
            if spot.place < piece.len() {
                let behind = Spot {
                    piece: spot.piece,
                    place: spot.place + 1,
                };
                return Some((&piece[spot.place], behind));
            }
            spot = Spot {
                piece: spot.piece + 1,
                place: spot.place - piece.len(),
            };
        }
        let entry = self.last.get(spot.place)?;
        let behind = Spot {
            piece: spot.piece,
            place: spot.place + 1,
        };
        Some((entry, behind))
    }

    // The last entry.
    pub(crate) fn last_entry(&self) -> Option<&Entry>
        ensures { option_map (λ e. entry_view e.now) result ≡ last_listed (entries self.now) }
    {
        match self.last.last() {
            Some(entry) => Some(entry),
            None => last_in(self.full.as_slice()),
        }
    }

    // Adds the entry, where the last piece and the places of what is said have room.
    #[inline(always)]
    fn add(&mut self, entry: Entry)
        requires piece { vec_len self.old.last < vec_capacity self.old.last }
        requires said { vec_len self.old.said < vec_capacity self.old.said }
        ensures { entries self.new ≡ entries self.old ++ entry_view entry ∷ [] }
    {
        let spot = Spot {
            piece: self.full.len(),
            place: self.last.len(),
        };
        note_spot(&mut self.said, entry.note.is_said(), spot);
        self.spent = spent_with(self.spent, &entry.note);
        self.ends = ends_with(self.ends, &entry.note);
        self.last.push_reserved(entry);
    }

    // The event in the box that is there for it.
    fn boxed(&mut self, event: Event) -> Note
        requires { 0 < boxes self.old.space }
        ensures note { note_view result ≡ event_view event }
        ensures same { entries self.new ≡ entries self.old }
        ensures last { self.new.last ≡ self.old.last }
        ensures said { self.new.said ≡ self.old.said }
    {
        match self.space.take() {
            Some(space) => {
                let mut space = space;
                *space = event;
                Note::Rare(space)
            }
            None => unreachable!(),
        }
    }

    // A box, with some event in it.
    #[inline(never)]
    fn add_space(&mut self) -> Result<(), OutOfMemory>
        ensures same { entries self.new ≡ entries self.old }
        ensures space { OnOk result (boxes self.new.space ≡ 1) }
        ensures keeps { boxes self.old.space ≤ boxes self.new.space }
        ensures last { self.new.last ≡ self.old.last }
        ensures said { self.new.said ≡ self.old.said }
    {
        let any = Event::End {
            task: 0,
            ending: Ending::Ended,
        };
        self.space = Some(Box::new(*self.last.allocator(), any)?);
        Ok(())
    }

    // A new last piece, with some room. The one so far counts as full.
    #[inline(never)]
    fn add_piece(&mut self) -> Result<(), OutOfMemory>
        requires { vec_len self.old.last ≡ vec_capacity self.old.last }
        ensures same { entries self.new ≡ entries self.old }
        ensures room { OnOk result (vec_len self.new.last < vec_capacity self.new.last) }
        ensures said { self.new.said ≡ self.old.said }
        ensures space { self.new.space ≡ self.old.space }
    {
        let size = self
            .last
            .capacity()
            .saturating_mul(2)
            .clamp(LEAST_PIECE, GREATEST_PIECE);
        let piece = Vec::with_capacity(*self.last.allocator(), size)?;
        self.full.reserve(1)?;
        let last = mem::replace(&mut self.last, piece);
        self.full.push_reserved(last);
        Ok(())
    }
}

// The place comes behind the others, where it is one of what is said.
#[inline(always)]
fn note_spot(said: &mut Vec<Spot>, is_said: bool, spot: Spot)
    requires { vec_len said.old < vec_capacity said.old }
    ensures { said.new.items ≡ said.old.items ++ cond is_said (spot ∷ []) [] }
{
    if is_said {
        said.push_reserved(spot);
    }
}

// What is spent with one note more.
#[inline(always)]
fn spent_with(spent: u64, note: &Note) -> u64
    ensures { result < 2 ^ 64 - 1 → spent + cost_of (note_view note.now) ≤ result }
{
    match cost_noted(note) {
        Some(cost) => spent.saturating_add(cost),
        None => u64::MAX,
    }
}

// How often the main text is over with one note more.
#[inline(always)]
fn ends_with(ends: u64, note: &Note) -> u64
    ensures { result < 2 ^ 64 - 1 → ends + mains (note_view note.now ∷ []) ≡ result }
{
    if main_end_of(note).is_some() {
        ends.saturating_add(1)
    } else {
        ends
    }
}

// The last entry in these pieces.
fn last_in(pieces: &[Vec<Entry>]) -> Option<&Entry>
    ensures { option_map (λ e. entry_view e.now) result ≡ last_listed (joined (map piece_entries pieces.now)) }
{
    let mut left = pieces;
    while let Some((piece, more)) = left.split_last() {
        if let Some(entry) = piece.last() {
            return Some(entry);
        }
        left = more;
    }
    None
}
