ghost use Rattle.std.specs.Prelude.{◌≡◌, ℕ, ◌+◌, ◌<◌, ◌≤◌, [], ◌∷◌, ◌++◌, length, IfOk, IfSome, IfNone, OnOk, None, option_map};
ghost use Rattle.ca_commit.specs.Listing.{listed, NoneBefore, IsFirst};

use ca_value::memory::OutOfMemory;
use std::alloc::Global;

/// A part with its number among those of its kind.
pub trait Numbered: Drop {
    ghost number: { Self → ℕ };

    /// Its number.
    fn number(&self) -> u64
        ensures { result ≡ number self.now };
}

/// Parts of one kind with their numbers. Where two have one number, the first counts.
#[derive(Drop)]
pub struct Listing<T> {
    pub(crate) items: Vec<T>,
}

impl<T: Numbered> Listing<T> {
    ghost use Rattle.std.specs.Vec.{vec_len, vec_capacity};
    ghost use Rattle.ca_commit.specs.Listings.{parts, spare_parts};

    /// No part, with room for so many.
    pub fn with_room(alloc: Global, count: u64) -> Result<Listing<T>, OutOfMemory>
        requires { count ≤ 16 }
        ensures parts { IfOk result (λ l. parts l ≡ []) }
        ensures room { IfOk result (λ l. count ≤ spare_parts l) }
    {
        Ok(Listing {
            items: Vec::with_capacity(alloc, count as usize)?,
        })
    }

    /// Makes room for so many parts more. No memory is taken where it is there.
    pub fn reserve(&mut self, count: u64) -> Result<(), OutOfMemory>
        requires { count ≤ 16 }
        ensures parts { parts self.new ≡ parts self.old }
        ensures room { OnOk result (count ≤ spare_parts self.new) }
    {
        self.items.reserve(count as usize)?;
        Ok(())
    }

    /// Adds the part last. It takes no memory.
    pub fn push(&mut self, part: T)
        requires { 0 < spare_parts self.old }
        ensures parts { parts self.new ≡ parts self.old ++ part ∷ [] }
        ensures spare { spare_parts self.old ≤ spare_parts self.new + 1 }
    {
        self.items.push_reserved(part);
    }

    /// Takes the last part out.
    pub fn pop(&mut self) -> Option<T>
        ensures some { IfSome result (λ x. parts self.old ≡ parts self.new ++ x ∷ []) }
        ensures none { IfNone result ((parts self.old ≡ []) × (parts self.new ≡ [])) }
        ensures spare { spare_parts self.old ≤ spare_parts self.new }
        ensures room { IfSome result (λ x. spare_parts self.old + 1 ≤ spare_parts self.new) }
    {
        self.items.pop()
    }

    // The place of the first part with that number.
    pub(crate) fn place(&self, number: u64) -> Option<usize>
        ensures found { IfSome result (λ i. IsFirst T.number (parts self.now) number i) }
        ensures none { IfNone result (NoneBefore T.number (parts self.now) number (length (parts self.now))) }
    {
        for i in 0..self.items.len() {
            if self.items[i].number() == number {
                return Some(i);
            }
        }
        None
    }

    /// The first part with that number.
    pub fn get(&self, number: u64) -> Option<&T>
        ensures { option_map (λ x. x.now) result ≡ listed T.number (parts self.now) number }
    {
        match self.place(number) {
            Some(place) => Some(&self.items[place]),
            None => None,
        }
    }
}
