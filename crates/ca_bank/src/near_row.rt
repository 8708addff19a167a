//! The waits that stand at the place that their number tells.

ghost use Rattle.std.specs.Prelude.{◌≡◌, ℕ, ◌/◌, ◌%◌, None, Some, eqb, option_map, slice_get, true, vec_len};
ghost use Rattle.std.specs.Map.{update};

use ca_value::memory::OutOfMemory;
use std::alloc::Global;
use std::mem;

/// Values by number, one at each of sixteen places.
#[derive(Drop)]
pub(crate) struct NearRow<V> {
    // None of the places is there before memory is taken.
    places: Vec<Option<(u64, V)>>,
    ghost seats: { (i : ℕ) (e : ℕ × V) → slice_get places.items i ≡ Some (Some e) → (e.0 / 16) % 16 ≡ i },
}

// The place that the number tells. The numbers of a shard are those that leave the same when divided by sixteen, so as
// many that follow each other have a place each.
#[inline(always)]
fn near_place(number: u64) -> usize
    ensures { result ≡ (number / 16) % 16 }
{
    (number / 16 % 16) as usize
}

impl<V> NearRow<V> {
    ghost use Rattle.ca_bank.specs.NearRow.{near_at, near_entries, is_free_at};

    /// No value, and no memory.
    pub(crate) fn new(alloc: Global) -> NearRow<V>
        ensures { (n : ℕ) → near_at result n ≡ None }
    {
        NearRow {
            places: Vec::new(alloc),
        }
    }

    /// Makes the places, where there are none, and changes nothing else.
    #[inline(always)]
    pub(crate) fn reserve(&mut self) -> Result<(), OutOfMemory>
        ensures values { (n : ℕ) → near_at self.new n ≡ near_at self.old n }
        ensures entries { near_entries self.new ≡ near_entries self.old }
    {
        if self.places.is_empty() {
            self.fill()
        } else {
            Ok(())
        }
    }

    #[inline(never)]
    #[tactic(auto, using(crate::proofs::Seats::last_seat, crate::proofs::Seats::last_value, crate::proofs::Seats::last_entries))]
    fn fill(&mut self) -> Result<(), OutOfMemory>
        requires { vec_len self.old.places ≡ 0 }
        ensures values { (n : ℕ) → near_at self.new n ≡ near_at self.old n }
        ensures entries { near_entries self.new ≡ near_entries self.old }
    {
        self.places.reserve(16)?;
        for _ in 0..16usize {
            self.places.push_reserved(None);
        }
        Ok(())
    }

    /// The value of that number; None where it doesn't stand at its place.
    #[inline(always)]
    pub(crate) fn get(&self, number: u64) -> Option<&V>
        ensures { option_map (λ v. v.now) result ≡ near_at self.now number }
    {
        match self.places.get(near_place(number)) {
            Some(Some((there, value))) if *there == number => Some(value),
            _ => None,
        }
    }

    /// Whether nothing stands at the place of that number.
    #[inline(always)]
    pub(crate) fn is_free(&self, number: u64) -> bool
        ensures { result ≡ is_free_at self.now number }
    {
        match self.places.get(near_place(number)) {
            Some(seat) => seat.is_none(),
            None => false,
        }
    }

    /// Takes the value out; None where it doesn't stand at its place.
    #[inline(always)]
    pub(crate) fn take(&mut self, number: u64) -> Option<V>
        ensures value { result ≡ near_at self.old number }
        ensures values { (n : ℕ) → near_at self.new n ≡ update eqb (near_at self.old) number None n }
    {
        let _ = self.get(number)?;
        match self.places[near_place(number)].take() {
            Some((_, value)) => Some(value),
            None => unreachable!(),
        }
    }

    /// Puts the value at the place of the number.
    #[inline(always)]
    pub(crate) fn put(&mut self, number: u64, value: V)
    where
        V: Drop,
        requires { is_free_at self.old number ≡ true }
        ensures { (n : ℕ) → near_at self.new n ≡ update eqb (near_at self.old) number (Some value) n }
    {
        let nothing = mem::replace(&mut self.places[near_place(number)], Some((number, value)));
        mem::forget(nothing);
    }
}
