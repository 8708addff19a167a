//! Values by the number of a wait: each at the place that its number tells, or, where another one stands there, in a
//! table by hash. Numbers come in order, so that one above all that ever went into the table isn't looked for there.

ghost use Rattle.std.specs.Prelude.{◌≡◌, ℕ, ◌+◌, ◌<◌, ◌≤◌, None, Some, option_map, OnOk, eqb, nat_eq};
ghost use Rattle.std.specs.Map.{update};
ghost use Rattle.indexmap.specs.IndexMap.{get, spare};
ghost use Rattle.ca_bank.specs.NearRow.{near_at};

use crate::near_row::NearRow;
use ca_value::memory::OutOfMemory;
use indexmap::IndexMap;
use std::alloc::Global;
use std::marker::Model;

/// Values by number.
#[derive(Drop)]
pub(crate) struct WaitTable<V> {
    near: NearRow<V>,
    far: IndexMap<u64, V>,
    // No number above it is in the table.
    last: u64,
}

impl<V> Model for WaitTable<V> {
    ghost use Rattle.ca_bank.specs.Waits.{WaitMap, waits_code};

    ghost Value = { WaitMap V };

    ghost coded = { waits_code V.code };

    ghost use Rattle.ca_bank.specs.WaitTable.{table_view, IsWaitTable};

    ghost view = { λ t. table_view t };

    ghost invariant = { λ t. IsWaitTable t };
}

impl<V> WaitTable<V> {
    /// No value, and no memory.
    pub(crate) fn new(alloc: Global) -> WaitTable<V>
        ensures { (n : ℕ) → get nat_eq result n ≡ None }
    {
        WaitTable {
            near: NearRow::new(alloc),
            far: IndexMap::new(alloc),
            last: 0,
        }
    }

    /// Makes room for one more value, and changes nothing else.
    pub(crate) fn reserve(&mut self) -> Result<(), OutOfMemory>
        ensures spare { OnOk result (0 < spare self.new) }
        ensures kept { spare self.old ≤ spare self.new }
        ensures values { (n : ℕ) → get nat_eq self.new n ≡ get nat_eq self.old n }
    {
        self.near.reserve()?;
        self.far.reserve(1)?;
        Ok(())
    }

    /// The value of that number, to look at.
    pub(crate) fn get(&self, number: u64) -> Option<&V>
        ensures { option_map (λ v. v.now) result ≡ get nat_eq self.now number }
    {
        match self.near.get(number) {
            Some(value) => Some(value),
            None if self.last < number => None,
            None => far_get(&self.far, number),
        }
    }

    /// Takes the value of that number out.
    pub(crate) fn take(&mut self, number: u64) -> Option<V>
        ensures value { result ≡ get nat_eq self.old number }
        ensures values { (n : ℕ) → get nat_eq self.new n ≡ update eqb (get nat_eq self.old) number None n }
        ensures spare { spare self.old ≤ spare self.new }
    {
        match self.near.take(number) {
            Some(value) => Some(value),
            None => far_take(&mut self.far, number),
        }
    }

    /// Puts a value in. It takes no memory.
    pub(crate) fn put(&mut self, number: u64, value: V)
    where
        V: Drop,
        requires { 0 < spare self.old }
        ensures values { (n : ℕ) → get nat_eq self.new n ≡ update eqb (get nat_eq self.old) number (Some value) n }
        ensures spare { spare self.old ≤ spare self.new + 1 }
    {
        if self.last < number && self.near.is_free(number) {
            self.near.put(number, value);
        } else {
            far_put(&mut self.near, &mut self.far, number, value);
            self.last = self.last.max(number);
        }
    }
}

// What few waits come to stands in functions of its own, so that the others don't pay for what it keeps in memory.
#[inline(never)]
fn far_get<V>(far: &IndexMap<u64, V>, number: u64) -> Option<&V>
    ensures { option_map (λ v. v.now) result ≡ get nat_eq far.now number }
{
    far.get(&number)
}

#[inline(never)]
fn far_take<V>(far: &mut IndexMap<u64, V>, number: u64) -> Option<V>
    ensures value { result ≡ get nat_eq far.old number }
    ensures values { (n : ℕ) → get nat_eq far.new n ≡ update eqb (get nat_eq far.old) number None n }
    ensures spare { spare far.old ≤ spare far.new }
{
    far.swap_remove(&number)
}

// Puts it into the table, and what stood at its place under its number is gone.
#[inline(never)]
fn far_put<V: Drop>(near: &mut NearRow<V>, far: &mut IndexMap<u64, V>, number: u64, value: V)
    requires { 0 < spare far.old }
    ensures near { (n : ℕ) → near_at near.new n ≡ update eqb (near_at near.old) number None n }
    ensures far { (n : ℕ) → get nat_eq far.new n ≡ update eqb (get nat_eq far.old) number (Some value) n }
    ensures spare { spare far.old ≤ spare far.new + 1 }
{
    let _ = near.take(number);
    match far.insert(number, value) {
        Ok(_) => {}
        Err(_) => unreachable!(),
    }
}
