ghost use Rattle.std.specs.Prelude.{◌≡◌, ◌≤◌, ◌<◌, ◌^◌, [], ◌∷◌, ◌++◌, length, take, ◌-◌, OnOk, OnErr, List, ℕ};
ghost use Rattle.ca_value.specs.Seq.{list};
ghost use Rattle.ca_forms.specs.Meaning.{lookup};

use ca_value::memory::OutOfMemory;
use ca_value::seq::{Seq, Text};
use indexmap::IndexMap;
use std::alloc::Global;
use std::marker::Model;

/// A name in scope, and the number that this name had before.
#[derive(Drop)]
pub struct Bound {
    name: Text,
    hides: Option<u64>,
}

/// The names in scope, the oldest first; a hidden one is empty. The number of a name is its place.
///
/// Binding, finding and leaving a name take constant time.
#[derive(Drop)]
pub struct Scope {
    numbers: IndexMap<Vec<u8>, Option<u64>>,
    names: Seq<Bound>,
}

impl Model for Scope {
    ghost use Rattle.ca_value.specs.Seq.{list};
    ghost use Rattle.std.specs.Prelude.{ℕ, List, []};
    ghost use Rattle.ca_forms.specs.ScopeView.{names_of_bounds, FindsLastPlaces, Hide};

    ghost Value = { List (List ℕ) };

    ghost view = { λ s. names_of_bounds (list s.names) };

    ghost invariant = { λ s. FindsLastPlaces (λ v. v.items) s.numbers.entries (names_of_bounds (list s.names)) × Hide [] (list s.names) };
}

impl Scope {
    /// No name.
    pub fn new(alloc: Global) -> Scope
        ensures { result ≡ [] }
    {
        Scope {
            numbers: IndexMap::new(alloc),
            names: Seq::new(alloc),
        }
    }

    /// How many names are in scope, hidden ones among them: the number of the next.
    pub fn len(&self) -> u64
        ensures { result ≡ length self.now }
    {
        self.names.len()
    }

    /// The number of the next name. A scope that fits memory has fewer than 2^63 names.
    pub fn next_number(&self) -> u64
        ensures is { result ≡ length self.now }
        ensures most { result < 2 ^ 63 }
    {
        self.names.len()
    }

    /// The number of the innermost name.
    pub fn find(&self, name: &[u8]) -> Option<u64>
        ensures { result ≡ lookup name.now self.now }
    {
        match self.numbers.get(name) {
            Some(number) => *number,
            None => None,
        }
    }

    /// Binds the name.
    pub fn bind(&mut self, alloc: Global, name: &[u8]) -> Result<(), OutOfMemory>
        ensures ok { OnOk result (self.new ≡ self.old ++ name.now ∷ []) }
        ensures err { OnErr result (self.new ≡ self.old) }
    {
        let number = self.names.len();
        self.names.reserve(1)?;
        let text = Text::from_bytes(alloc, name)?;
        let key = Vec::from_slice(alloc, name)?;
        let hides = self.numbers.insert(key, Some(number))?.unwrap_or(None);
        self.names.push(Bound { name: text, hides });
        Ok(())
    }

    /// Binds a hidden name, which no script can meet.
    pub fn hide(&mut self, alloc: Global) -> Result<(), OutOfMemory>
        ensures ok { OnOk result (self.new ≡ self.old ++ [] ∷ []) }
        ensures err { OnErr result (self.new ≡ self.old) }
    {
        self.bind(alloc, b"")
    }

    /// Leaves all names but the first `size`. A scope that fits memory has fewer than 2^63 names.
    pub fn leave(&mut self, size: u64)
        ensures left { self.new ≡ take size self.old }
        ensures most { length self.old < 2 ^ 63 }
    {
        let mut left = self.next_number();
        while size < left {
            self.leave_last();
            left -= 1;
        }
    }

    fn leave_last(&mut self)
        requires { 0 < length self.old }
        ensures { self.new ≡ take (length self.old - 1) self.old }
    {
        if let Some(bound) = self.names.pop() {
            match self.numbers.insert(bound.name.into_vec(), bound.hides) {
                Ok(_) => {}
                Err(_) => unreachable!(),
            }
        }
    }
}
