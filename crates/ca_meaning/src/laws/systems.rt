ghost use Rattle.std.specs.Prelude.{◌≡◌, ◌≢◌, [], ◌∷◌};
ghost use Rattle.ca_value.specs.declared.builtin.Builtin.{Builtin};
ghost use Rattle.ca_value.specs.Tree.{Trees, port};
ghost use Rattle.ca_term.specs.declared.head.PlainFunction.{PlainFunction};
ghost use Rattle.ca_term.specs.declared.head.SystemTask.{SystemTask};
ghost use Rattle.ca_term.specs.declared.head.Transform.TheVariants.{Filter};
ghost use Rattle.ca_term.specs.declared.place.Place.{Place};
ghost use Rattle.ca_term.specs.Program.{ProgramView};
ghost use Rattle.ca_meaning.specs.Body.{local, nowhere};
ghost use Rattle.ca_meaning.specs.System.{SystemBody, new_system, system_at, SystemRest};
ghost use Rattle.ca_meaning.specs.WorkedTables.{Works, true_value, seven, eight, list_of, mult_rows, deliver_rows, mix_rows, pub_rows, pipe_rows, merge_rows, onto_rows, feed_rows, job_rows, collect_rows};

/// Each system task comes to rest, and in one way alone. There it stands at an operation, at its end or at a fault. A
/// new one is at rest.
pub fn system_tasks_rest_once()
    ensures rests { (program : ProgramView) (b : SystemBody) → (c : SystemBody) × SystemRest program b c }
    ensures once { (program : ProgramView) (b : SystemBody) (c : SystemBody) (d : SystemBody) → SystemRest program b c → SystemRest program b d → c ≡ d }
    ensures off { (program : ProgramView) (b : SystemBody) (c : SystemBody) → SystemRest program b c → system_at c ≢ local }
    ensures somewhere { (program : ProgramView) (b : SystemBody) (c : SystemBody) → SystemRest program b c → system_at c ≢ nowhere }
    ensures begins { (program : ProgramView) (kind : SystemTask) (values : Trees) (place : Place) → SystemRest program (new_system kind values place) (new_system kind values place) }
{}

/// The ten tables, each followed from a new task to its end, whatever the program and the place.
pub fn worked_tables()
    ensures mult { (program : ProgramView) (p : Place) → Works program p SystemTask.Mult (port 1 ∷ port 2 ∷ port 3 ∷ []) (mult_rows p) }
    ensures delivery { (program : ProgramView) (p : Place) → Works program p SystemTask.Deliver (port 1 ∷ port 4 ∷ seven ∷ port 3 ∷ []) deliver_rows }
    ensures mix { (program : ProgramView) (p : Place) → Works program p SystemTask.Mix (port 1 ∷ port 2 ∷ port 3 ∷ []) mix_rows }
    ensures publication { (program : ProgramView) (p : Place) → Works program p (SystemTask.Pub (PlainFunction.Builtin Builtin.IsOdd)) (port 1 ∷ port 2 ∷ []) pub_rows }
    ensures pipe { (program : ProgramView) (p : Place) → Works program p SystemTask.Pipe (port 1 ∷ port 2 ∷ true_value ∷ []) pipe_rows }
    ensures merge { (program : ProgramView) (p : Place) → Works program p SystemTask.Merge (list_of (port 3 ∷ port 4 ∷ port 3 ∷ []) ∷ port 2 ∷ []) merge_rows }
    ensures onto { (program : ProgramView) (p : Place) → Works program p SystemTask.Onto (port 1 ∷ list_of (seven ∷ eight ∷ seven ∷ []) ∷ true_value ∷ port 2 ∷ []) onto_rows }
    ensures feed { (program : ProgramView) (p : Place) → Works program p SystemTask.Feed (port 1 ∷ port 2 ∷ port 3 ∷ []) feed_rows }
    ensures job { (program : ProgramView) (p : Place) → Works program p (SystemTask.Job Filter (PlainFunction.Builtin Builtin.IsOdd)) (port 1 ∷ []) job_rows }
    ensures collect { (program : ProgramView) (p : Place) → Works program p SystemTask.Collect (port 1 ∷ port 2 ∷ true_value ∷ port 3 ∷ []) collect_rows }
{}
