ghost use Rattle.std.specs.Prelude.{◌≡◌, ◌≤◌, ℕ, List, Some, true};
ghost use Rattle.ca_value.specs.Tree.{Tree, Trees, TreePairs, entries_of};
ghost use Rattle.ca_value.specs.Equality.{equals};
ghost use Rattle.ca_value.specs.IsValue.{Scalars, any, IsRegular, KeysDiffer};
ghost use Rattle.ca_term.specs.declared.head.RegisterName.{RegisterName};
ghost use Rattle.ca_term.specs.Operation.{registering};
ghost use Rattle.ca_term.specs.Program.{ProgramView, IsProgram};
ghost use Rattle.ca_term.specs.Constants.{ProgramHasScalars};
ghost use Rattle.ca_term.specs.Event.{EventView};
ghost use Rattle.ca_term.specs.Cost.{cost_of};
ghost use Rattle.ca_meaning.specs.State.{State, Task};
ghost use Rattle.ca_meaning.specs.Going.{IsAtOp};
ghost use Rattle.ca_meaning.specs.Sound.{Each};
ghost use Rattle.ca_meaning.specs.Registry.{all_channels, channels_differ};
ghost use Rattle.ca_meaning.specs.Refusal.{is_channel};
ghost use Rattle.ca_meaning.specs.Legal.{Reaches};
ghost use Rattle.ca_meaning.specs.RunValues.{Holds, EventHas, ShowsLittle, BringsApart};

/// Along every legal journal of a checked program all that its states and its events hold are values: at most 80 deep,
/// of a weight of at most 131,072, and with the keys of each map apart. Where each integer among the program's constants
/// lies in 64 bits and each keyword is one, so it is with all of them. The values that one event shows weigh at most
/// 655,360 together, as four arguments and an answer do, and it costs at most 40,961.
pub fn values_of_a_run_are_values()
    ensures state { (scalars : Scalars) (program : ProgramView) → IsProgram program → ProgramHasScalars scalars program → (journal : List EventView) (s : State) → Reaches program journal s → Holds scalars s }
    ensures events { (scalars : Scalars) (program : ProgramView) → IsProgram program → ProgramHasScalars scalars program → (journal : List EventView) (s : State) → Reaches program journal s → Each (EventHas scalars) journal }
    ensures any_constants { (program : ProgramView) → ProgramHasScalars any program }
    ensures light { (program : ProgramView) (journal : List EventView) (s : State) → IsProgram program → Reaches program journal s → Each ShowsLittle journal }
    ensures shown { (scalars : Scalars) (e : EventView) → EventHas scalars e → ShowsLittle e }
    ensures costs { (scalars : Scalars) (e : EventView) → EventHas scalars e → cost_of e ≤ 40_961 }
{}

/// A value is equal to itself. Where each key of a map names a channel, no two of them name the same one. So the
/// channels and the topic that a task's operation on a registry brings are apart, in whatever state it is judged.
pub fn keys_are_apart()
    ensures itself { (scalars : Scalars) (t : Tree) → IsRegular scalars t → equals t t ≡ true }
    ensures apart { (s : State) (ps : TreePairs) → KeysDiffer (entries_of ps) → all_channels (is_channel s) ps ≡ true → channels_differ ps ≡ true }
    ensures brings { (scalars : Scalars) (s : State) (t : ℕ) (x : Task) (name : RegisterName) (args : Trees) → Holds scalars s → s.tasks t ≡ Some x → IsAtOp x.body (registering name args) → BringsApart args }
{}
