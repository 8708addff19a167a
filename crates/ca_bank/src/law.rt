ghost use Rattle.ca_bank.specs.Holds.{WaitTakenOut, WaitParked, HandlerPruned, ChannelMade, ChannelChanged, RowSeen, SettleSeen, PendingCounted};

/// Taking a wait out of its shard leaves every queue right as it is, in banks that nobody holds too.
pub fn a_wait_leaves_all_queues_right()
    ensures { WaitTakenOut }
{}

/// A new wait joins the queues of its branches, and makes no stale handler live.
pub fn a_new_wait_joins_its_queues()
    ensures { WaitParked }
{}

/// Pruning a stale handler changes nothing that the state shows.
pub fn a_stale_handler_may_go()
    ensures { HandlerPruned }
{}

/// A new channel stands in its bank with nothing waiting.
pub fn a_new_channel_has_no_queue()
    ensures { ChannelMade }
{}

/// A channel's values and mark change without its queues.
pub fn a_channel_changes_alone()
    ensures { ChannelChanged }
{}

/// What becomes of a branch can be read off its bank, where the handlers that are asked are live.
pub fn first_handlers_tell_the_row()
    ensures { RowSeen }
{}

/// What a channel settles can be read off its bank in the same way.
pub fn first_handlers_tell_the_settling()
    ensures { SettleSeen }
{}

/// How many waits are pending on a side can be counted along its queue.
pub fn waits_are_counted_along_a_queue()
    ensures { PendingCounted }
{}
