// Going round the branches of an alts.
ghost use Rattle.std.specs.Prelude.{ℕ, ◌<◌, ◌%◌, List, length};
ghost use Rattle.ca_term.specs.Event.{BranchView};
ghost use Rattle.ca_meaning.specs.State.{State};
ghost use Rattle.ca_meaning.specs.Solo.{IsFirstFrom};
ghost use Rattle.ca_solo.specs.Rounds.{UnreadyBefore, in_round};

/// Going round the branches from the number of the task's earlier alts on comes to the branch of the schedule.
pub fn rounds_come_to_the_first_ready_branch()
    ensures { (s : State) (bs : List BranchView) (turns i : ℕ) → i < length bs → UnreadyBefore s bs (turns % length bs) i → IsFirstFrom s bs turns (in_round (length bs) (turns % length bs) i) }
{}
