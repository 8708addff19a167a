//! The items of a vector, which its copies share: in place for a sole owner, else in a spine of its own.
ghost use Rattle.std.specs.Prelude.{◌≡◌, ℕ, ◌+◌, ◌≤◌, ◌<◌, [], ◌∷◌, ◌++◌, length, IfOk, OnOk, OnErr, slice_set};
ghost use Rattle.ca_value.specs.Seq.{list};
ghost use Rattle.ca_value.specs.Tree.{trees_of};
ghost use Rattle.ca_value.specs.Measure.{weight_of_items, depth_of_items};
ghost use Rattle.ca_value.specs.Measured.{capped, IsDepthAfter};
ghost use Rattle.ca_value.specs.View.{view, views, vector_trees};

use crate::copy::copies;
use crate::measure::{depth_after, weight_after};
use crate::memory::OutOfMemory;
use crate::value::{Items, Spine, Value, Vector};
use std::alloc::Global;
use std::sync::Arc;

impl Vector {
    /// The vector of the items.
    pub fn of(alloc: Global, items: Items) -> Result<Vector, OutOfMemory>
        ensures { IfOk result (λ v. vector_trees v ≡ views (list items)) }
    {
        Ok(Vector {
            spine: Arc::new(alloc, Spine::of(items))?,
        })
    }

    /// The same items, shared.
    pub fn copy(&self) -> Result<Vector, OutOfMemory>
        ensures { IfOk result (λ v. vector_trees v ≡ vector_trees self.now) }
    {
        Ok(Vector {
            spine: Arc::try_clone(&self.spine)?,
        })
    }

    /// The items, borrowed.
    pub fn as_slice(&self) -> &[Value]
        ensures { views result.now ≡ vector_trees self.now }
    {
        self.spine.as_slice()
    }

    /// Adds the item last: in place where no copy shares the items, else to items of its own.
    pub fn push(&mut self, alloc: Global, value: Value) -> Result<(), OutOfMemory>
        ensures ok { OnOk result (vector_trees self.new ≡ vector_trees self.old ++ view value ∷ []) }
        ensures err { OnErr result (vector_trees self.new ≡ vector_trees self.old) }
    {
        match Arc::get_mut(&mut self.spine) {
            Some(spine) => spine.push(value),
            None => {
                let mut spine = self.unshared(alloc)?;
                spine.push(value)?;
                self.spine = Arc::new(alloc, spine)?;
                Ok(())
            }
        }
    }

    /// Puts the item at a place: in place where no copy shares the items, else into items of its own.
    pub fn set(&mut self, alloc: Global, place: u64, value: Value) -> Result<(), OutOfMemory>
        requires { place < length (vector_trees self.old) }
        ensures ok { OnOk result (vector_trees self.new ≡ slice_set (vector_trees self.old) place (view value)) }
        ensures err { OnErr result (vector_trees self.new ≡ vector_trees self.old) }
    {
        match Arc::get_mut(&mut self.spine) {
            Some(spine) => {
                spine.set(place, value);
                Ok(())
            }
            None => {
                let mut spine = self.unshared(alloc)?;
                spine.set(place, value);
                self.spine = Arc::new(alloc, spine)?;
                Ok(())
            }
        }
    }

    // A spine of its own with copies of the items.
    fn unshared(&self, alloc: Global) -> Result<Spine, OutOfMemory>
        ensures { IfOk result (λ s. s ≡ vector_trees self.now) }
    {
        let spine: &Spine = &self.spine;
        Ok(Spine {
            items: copies(alloc, spine.items.as_slice())?,
            weight: spine.weight,
            depth: spine.depth,
        })
    }

    /// The items as a list of its own: the very one where no copy shares it, else copies.
    pub fn into_items(self, alloc: Global) -> Result<Items, OutOfMemory>
        ensures { IfOk result (λ s. views (list s) ≡ vector_trees self) }
    {
        let Vector { spine } = self;
        match Arc::try_unwrap(spine) {
            Ok(spine) => Ok(spine.into_items()),
            Err(spine) => copies(alloc, spine.as_slice()),
        }
    }

    // What the items weigh together.
    pub(crate) fn weight(&self) -> u64
        ensures { result ≡ capped (weight_of_items (trees_of (vector_trees self.now))) }
    {
        let spine: &Spine = &self.spine;
        spine.weight
    }

    // How deep the deepest is.
    pub(crate) fn depth(&self) -> u64
        ensures { result ≡ capped (depth_of_items (trees_of (vector_trees self.now))) }
    {
        let spine: &Spine = &self.spine;
        spine.depth
    }
}

impl Spine {
    // These items, measured.
    fn of(items: Items) -> Spine
        ensures { result ≡ views (list items) }
    {
        let weight = items_weight(items.as_slice());
        let depth = items_depth(items.as_slice());
        Spine {
            items,
            weight,
            depth,
        }
    }

    // Adds the item last.
    fn push(&mut self, value: Value) -> Result<(), OutOfMemory>
        ensures ok { OnOk result (self.new ≡ self.old ++ view value ∷ []) }
        ensures err { OnErr result (self.new ≡ self.old) }
    {
        let weight = self.weight.saturating_add(value.capped_weight());
        let depth = self.depth.max(value.capped_depth());
        self.items.reserve(1)?;
        self.items.push(value);
        self.weight = weight;
        self.depth = depth;
        Ok(())
    }

    // Puts the item at a place within the list.
    fn set(&mut self, place: u64, value: Value)
        requires { place < length self.old }
        ensures { self.new ≡ slice_set self.old place (view value) }
    {
        let (weight, depth) = (value.capped_weight(), value.capped_depth());
        let old = self.items.replace(place, value);
        let items = self.items.as_slice();
        let weight = items_weight_after(self.weight, old.capped_weight(), weight, items);
        let depth = items_depth_after(self.depth, old.capped_depth(), depth, items);
        self.weight = weight;
        self.depth = depth;
    }

    fn as_slice(&self) -> &[Value]
        ensures { views result.now ≡ self.now }
    {
        self.items.as_slice()
    }

    fn into_items(self) -> Items
        ensures { views (list result) ≡ self }
    {
        self.items
    }
}

// The weight of the items together, or the greatest number.
fn items_weight(values: &[Value]) -> u64
    ensures { result ≡ capped (weight_of_items (trees_of (views values.now))) }
{
    let mut total: u64 = 0;
    for value in values {
        total = total.saturating_add(value.capped_weight());
    }
    total
}

// The depth of the deepest item, or 0.
fn items_depth(values: &[Value]) -> u64
    ensures { result ≡ capped (depth_of_items (trees_of (views values.now))) }
{
    let mut deepest: u64 = 0;
    for value in values {
        deepest = deepest.max(value.capped_depth());
    }
    deepest
}

// The weight of the items, where they weighed so much before one of them gave way to another.
fn items_weight_after(before: u64, old: u64, new: u64, items: &[Value]) -> u64
    ensures { (w o n : ℕ) → before ≡ capped w → old ≡ capped o → new ≡ capped n → o ≤ w → weight_of_items (trees_of (views items.now)) + o ≡ w + n → result ≡ capped (weight_of_items (trees_of (views items.now))) }
{
    match weight_after(before, old, new) {
        Some(weight) => weight,
        None => items_weight(items),
    }
}

// The depth of the deepest item, where it was so deep before one of them gave way to another.
fn items_depth_after(before: u64, old: u64, new: u64, items: &[Value]) -> u64
    ensures { (d o n : ℕ) → before ≡ capped d → old ≡ capped o → new ≡ capped n → IsDepthAfter d o n (depth_of_items (trees_of (views items.now))) → result ≡ capped (depth_of_items (trees_of (views items.now))) }
{
    match depth_after(before, old, new) {
        Some(depth) => depth,
        None => items_depth(items),
    }
}
