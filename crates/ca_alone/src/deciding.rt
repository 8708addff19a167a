// What a lone worker decides over held parts is the schedule's choice.
ghost use Rattle.std.specs.Prelude.{◌≡◌, ℕ, List, Option, Some, false};
ghost use Rattle.ca_term.specs.Operation.{OpView};
ghost use Rattle.ca_term.specs.Program.{ProgramView};
ghost use Rattle.ca_meaning.specs.Choice.{branches_of, has_priority};
ghost use Rattle.ca_meaning.specs.Solo.{CanSettle, IsFirstFrom};
ghost use Rattle.ca_meaning.specs.State.{State};
ghost use Rattle.ca_commit.specs.Agents.{TaskAgent};
ghost use Rattle.ca_commit.specs.Contents.{Content, Kept, home, whole};
ghost use Rattle.ca_commit.specs.Deciding.{seen_in};
ghost use Rattle.ca_commit.specs.Finding.{glance, rests, settle_at};
ghost use Rattle.ca_commit.specs.Gathered.{parts_of, pick};
ghost use Rattle.ca_commit.specs.Planning.{planned};
ghost use Rattle.ca_commit.specs.Running.{AreAt, RunStands};
ghost use Rattle.ca_alone.specs.OwnTurn.{branch_taken};

use ca_agent::agent::Agent;

/// The branch that a plan takes without priority, over parts `is` of a run that stands for the state, is the first that
/// is ready there, going round from the start on which the branches were looked at.
pub fn plans_take_the_first_branch<A: Agent>()
    ensures { (program : ProgramView) (n : ℕ) (now : ℕ → Option (Content (TaskAgent A))) (s : State) (is : List ℕ) (cs : List (Content (TaskAgent A))) (op : OpView) (start k : ℕ) → RunStands A.place A.stands program n now s → AreAt now is cs → branch_taken (planned (seen_in (parts_of n (pick is cs))) op start) ≡ Some k → has_priority op ≡ false → IsFirstFrom s (branches_of op) start k }
{}

/// A channel that these parts show at rest can't settle in the state, if its bank is among them.
pub fn resting_channels_settle_not<A: Agent>()
    ensures { (program : ProgramView) (n : ℕ) (now : ℕ → Option (Content (TaskAgent A))) (s : State) (is : List ℕ) (cs : List (Content (TaskAgent A))) (p : ℕ) (f : ℕ → Option Kept) → RunStands A.place A.stands program n now s → AreAt now is cs → (parts_of n (pick is cs)).bank (home p) ≡ Some f → settle_at (glance (parts_of n (pick is cs)).shard) (whole (parts_of n (pick is cs)).bank p) ≡ rests → CanSettle s p → ⊥ }
{}
