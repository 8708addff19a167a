ghost use Rattle.std.specs.Prelude.{◌≡◌, ℕ, List, Some, None, drop, slice_get};
ghost use Rattle.ca_value.specs.Deadlines.{Deadline, due, open_after};
ghost use Rattle.ca_timers.specs.Timers.{AreOrdered};

/// What popping the due deadlines one by one comes to: without the first the others are due and the same
/// ones stay open, and where none is due those that are left are the ones that stay open.
pub fn popping_leaves_the_open_ones()
    ensures some { (m : ℕ) (ds : List Deadline) (p : ℕ) → AreOrdered ds → slice_get (due m ds) 0 ≡ Some p → (due m (drop 1 ds) ≡ drop 1 (due m ds)) × (open_after m (drop 1 ds) ≡ open_after m ds) }
    ensures none { (m : ℕ) (ds : List Deadline) → AreOrdered ds → slice_get (due m ds) 0 ≡ None → open_after m ds ≡ ds }
{}
