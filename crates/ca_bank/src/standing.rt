ghost use Rattle.std.specs.Prelude.{◌≡◌, ℕ, Option, None, Some, is_some, eqb};
ghost use Rattle.std.specs.Map.{update};
ghost use Rattle.ca_bank.specs.Holds.{and_wait, but_wait};
ghost use Rattle.ca_bank.specs.Standing.{together, ChangesEntry, SameStands, PortMade, ChannelClosed, ValueAdded, ValueRemoved, StalePruned, WaitLeaves, WaitJoins, RegistryChanged, RegistryKept, QueuesJoined};

/// One entry changes in its bank or shard, so it is that entry alone that changes in all of them together.
pub fn one_part_changes_alone<A>()
    ensures { (count n : ℕ) (x : Option A) (old new : ℕ → ℕ → Option A) → ChangesEntry count n x old new → (q : ℕ) → together count new q ≡ update eqb (together count old) n x q }
{}

/// A wait is live exactly while it stands in its shard: what `take_out` and `put_in` leave of that.
pub fn waits_live_in_their_shards<A>()
    ensures taken { (old new : ℕ → Option A) (w : ℕ) → ((q : ℕ) → new q ≡ update eqb old w None q) → (v : ℕ) → is_some (new v) ≡ but_wait (λ u. is_some (old u)) w v }
    ensures put { (old new : ℕ → Option A) (w : ℕ) (x : A) → ((q : ℕ) → new q ≡ update eqb old w (Some x) q) → (v : ℕ) → is_some (new v) ≡ and_wait (λ u. is_some (old u)) w v }
{}

/// Room is made, and what stood stands.
pub fn room_changes_nothing()
    ensures { SameStands }
{}

/// A port is made in its bank and in the state.
pub fn a_port_is_made()
    ensures { PortMade }
{}

/// A channel is closed in its bank and in the state.
pub fn a_channel_is_closed()
    ensures { ChannelClosed }
{}

/// A buffer gets a value in its bank and in the state.
pub fn a_value_is_added()
    ensures { ValueAdded }
{}

/// A buffer gives a value in its bank and in the state.
pub fn a_value_is_removed()
    ensures { ValueRemoved }
{}

/// A stale handler is pruned in its bank, and the state stays.
pub fn a_stale_handler_is_pruned()
    ensures { StalePruned }
{}

/// A wait leaves its shard and the state's list.
pub fn a_wait_leaves()
    ensures { WaitLeaves }
{}

/// A new wait is put into its shard and its handlers into their queues, one by one.
pub fn a_wait_joins()
    ensures queues { QueuesJoined }
    ensures stands { WaitJoins }
{}

/// A registry changes by its table in its bank and in the state; a fault changes neither.
pub fn a_registry_changes()
    ensures answered { RegistryChanged }
    ensures refused { RegistryKept }
{}
