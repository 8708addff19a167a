ghost use Rattle.ca_derived_kernels.specs.Walked.{TakesWalked, TextsStart, TakeBinds};
ghost use Rattle.ca_derived_kernels.specs.WalkedReduce.{ReduceWalked, ReduceStarts, ReduceBinds};
ghost use Rattle.ca_derived_kernels.specs.WalkedSplit.{SplitWalked, SplitStarts, SplitBinds};

/// The go form of a take comes to a Spawn of a text, which with its values is the task of the law. The names that it
/// needs are bound behind the row's own `let`.
pub fn takes_come_to_their_task()
    ensures walked { TakesWalked }
    ensures started { TextsStart }
    ensures bound { TakeBinds }
{}

/// The same of a reduce.
pub fn reduces_come_to_their_task()
    ensures walked { ReduceWalked }
    ensures started { ReduceStarts }
    ensures bound { ReduceBinds }
{}

/// The same of a split.
pub fn splits_come_to_their_task()
    ensures walked { SplitWalked }
    ensures started { SplitStarts }
    ensures bound { SplitBinds }
{}
