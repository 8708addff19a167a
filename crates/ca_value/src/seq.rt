ghost use Rattle.std.specs.Prelude.{◌≡◌, ◌+◌, ◌<◌, ◌≤◌, [], ◌∷◌, ◌++◌, ◌↔◌, IsTrue, length, take, OnOk, OnErr, IfOk, IfSome, None, slice_get, slice_range, slice_set, option_map};
ghost use Rattle.ca_value.specs.Seq.{list, spare};

use crate::memory::OutOfMemory;
use std::alloc::Global;
use std::mem;

/// A list that grows only where it is asked to: a push needs room that `reserve` made before.
///
/// Places count from 0.
#[derive(Drop)]
pub struct Seq<T> {
    items: Vec<T>,
}

/// Bytes: a text, or a keyword without its colon.
pub type Text = Seq<u8>;

impl<T> Seq<T> {
    /// The empty list, which takes no memory.
    pub fn new(alloc: Global) -> Seq<T>
        ensures { list result ≡ [] }
    {
        Seq {
            items: Vec::new(alloc),
        }
    }

    /// Makes room for `n` more items at the least: just that where the list is empty, since most lists are made at once;
    /// one that grows gets room for several at a time.
    pub fn reserve(&mut self, n: u64) -> Result<(), OutOfMemory>
        ensures same { list self.new ≡ list self.old }
        ensures spare { OnOk result (n ≤ spare self.new) }
        ensures keeps { spare self.old ≤ spare self.new }
    {
        if self.items.is_empty() {
            self.items.reserve_exact(n as usize)?;
        } else {
            self.items.reserve(n as usize)?;
        }
        Ok(())
    }

    /// Adds the item last, taking no memory.
    pub fn push(&mut self, item: T)
    where
        T: Drop,
        requires { 0 < spare self.old }
        ensures added { list self.new ≡ list self.old ++ item ∷ [] }
        ensures spare { spare self.old ≤ spare self.new + 1 }
    {
        match self.items.push(item) {
            Ok(()) => {}
            Err(_) => unreachable!(),
        }
    }

    /// Takes the last item out.
    pub fn pop(&mut self) -> Option<T>
        ensures none { result ≡ None → (list self.old ≡ []) × (list self.new ≡ []) }
        ensures some { IfSome result (λ x. list self.old ≡ list self.new ++ x ∷ []) }
        ensures spare { spare self.old ≤ spare self.new }
    {
        self.items.pop()
    }

    /// Keeps the first `n` items, or all where there are fewer.
    pub fn truncate(&mut self, n: u64)
    where
        T: Drop,
        ensures first { list self.new ≡ take n (list self.old) }
        ensures spare { spare self.old ≤ spare self.new }
    {
        self.items.truncate(n as usize);
    }

    /// The item at the place, or None past the last one.
    pub fn get(&self, place: u64) -> Option<&T>
        ensures { option_map (λ x. x.now) result ≡ slice_get (list self.now) place }
    {
        self.items.get(place as usize)
    }

    /// The item at the place alone, or None past the last one. The other items are let go.
    pub fn into_item(self, place: u64) -> Option<T>
    where
        T: Drop,
        ensures { result ≡ slice_get (list self) place }
    {
        let Seq { mut items } = self;
        if place < items.len() as u64 {
            Some(items.swap_remove(place as usize))
        } else {
            None
        }
    }

    /// The items from one place up to, not including, another, in the same memory.
    pub fn into_range(self, start: u64, end: u64) -> Seq<T>
    where
        T: Drop,
        requires order { start ≤ end }
        requires within { end ≤ length (list self) }
        ensures { list result ≡ slice_range (list self) start end }
    {
        let Seq { mut items } = self;
        items.truncate(end as usize);
        // What stands before the start falls off the end of the reversed list.
        items.reverse();
        items.truncate((end - start) as usize);
        items.reverse();
        Seq { items }
    }

    /// Puts the item at a place within the list.
    pub fn set(&mut self, place: u64, item: T)
    where
        T: Drop,
        requires { place < length (list self.old) }
        ensures set { list self.new ≡ slice_set (list self.old) place item }
        ensures spare { spare self.old ≤ spare self.new }
    {
        self.items[place as usize] = item;
    }

    /// Puts the item at a place within the list, and gives the one that stood there.
    pub fn replace(&mut self, place: u64, item: T) -> T
        requires { place < length (list self.old) }
        ensures old { slice_get (list self.old) place ≡ Some result }
        ensures set { list self.new ≡ slice_set (list self.old) place item }
        ensures spare { spare self.old ≤ spare self.new }
    {
        mem::replace(&mut self.items[place as usize], item)
    }

    /// How many items there are, in items and not in bytes. Spare room does not count.
    pub fn len(&self) -> u64
        ensures { result ≡ length (list self.now) }
    {
        self.items.len() as u64
    }

    /// Whether there is no item; there may be room for some.
    pub fn is_empty(&self) -> bool
        ensures { IsTrue result ↔ (list self.now ≡ []) }
    {
        self.items.is_empty()
    }

    /// The items in order, borrowed where they lie, with no copy.
    pub fn as_slice(&self) -> &[T]
        ensures { result.now ≡ list self.now }
    {
        self.items.as_slice()
    }

    /// The vector that holds the items, with no copy.
    pub fn into_vec(self) -> Vec<T>
        ensures { result.items ≡ list self }
    {
        let Seq { items } = self;
        items
    }

    /// The items of the vector, with no copy.
    pub fn from_vec(items: Vec<T>) -> Seq<T>
        ensures { list result ≡ items.items }
    {
        Seq { items }
    }
}

impl Seq<u8> {
    /// A list of these bytes.
    pub fn from_bytes(alloc: Global, bytes: &[u8]) -> Result<Seq<u8>, OutOfMemory>
        ensures { IfOk result (λ s. list s ≡ bytes.now) }
    {
        Ok(Seq {
            items: Vec::from_slice(alloc, bytes)?,
        })
    }

    /// Adds the bytes at the end; a refusal adds none.
    pub fn append(&mut self, more: &[u8]) -> Result<(), OutOfMemory>
        ensures ok { OnOk result (list self.new ≡ list self.old ++ more.now) }
        ensures err { OnErr result (list self.new ≡ list self.old) }
    {
        self.items.extend_from_slice(more)?;
        Ok(())
    }
}
