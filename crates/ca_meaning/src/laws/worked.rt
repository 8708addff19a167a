ghost use Rattle.std.specs.Prelude.{◌≡◌, ℕ, List, [], ◌∷◌, Option, Some, None, pos, true, false, codes, option_map};
ghost use Rattle.ca_value.specs.Tree.{Tree, nil, bool, int};
ghost use Rattle.ca_value.specs.Buffer.{fixed_buffer};
ghost use Rattle.ca_value.specs.declared.value.PortId.{PortId};
ghost use Rattle.ca_term.specs.declared.fault.Fault.{Fault as FaultKind};
ghost use Rattle.ca_term.specs.declared.fault.Fault.TheVariants.{ZeroDivisor};
ghost use Rattle.ca_term.specs.declared.place.Place.{Place};
ghost use Rattle.ca_term.specs.declared.event.Side.{Side};
ghost use Rattle.ca_term.specs.declared.event.Side.TheVariants.{Take, Put};
ghost use Rattle.ca_term.specs.declared.event.Ending.TheVariants.{Ended, Faulted};
ghost use Rattle.ca_term.specs.Program.{ProgramView};
ghost use Rattle.ca_term.specs.Event.{BranchView, take_of, put_of, done, met, parked, settled, ticked, over};
ghost use Rattle.ca_meaning.specs.Cost.{cost};
ghost use Rattle.ca_meaning.specs.State.{State, Task};
ghost use Rattle.ca_meaning.specs.Channel.{shut};
ghost use Rattle.ca_meaning.specs.Legal.{is_end_of_main, Legal};
ghost use Rattle.ca_meaning.specs.Steps.{Step};
ghost use Rattle.ca_meaning.specs.Texts.{output};
ghost use Rattle.ca_meaning.specs.Journal.{journal_text};
ghost use Rattle.ca_meaning.specs.History.{channel_in};
ghost use Rattle.ca_meaning.specs.Solo.{Solo};
ghost use Rattle.ca_meaning.specs.Scripts.{putting_once, timing_out, faulting, putting_late, taking_twice};
ghost use Rattle.ca_meaning.specs.Worked.{lines, put_and_take, put_and_take_lines, timed_out, timed_out_lines, go_faulted, go_faulted_lines, put_late, put_late_lines, first_taker, first_taker_lines, Never, AtMeeting, AtClosed, AtTimeout, AtFault};

/// Five worked journals, line by line, and what they write.
pub fn worked_journals()
    ensures put_and_take { journal_text put_and_take ≡ lines put_and_take_lines }
    ensures timed_out { journal_text timed_out ≡ lines timed_out_lines }
    ensures go_faulted { journal_text go_faulted ≡ lines go_faulted_lines }
    ensures put_late { journal_text put_late ≡ lines put_late_lines }
    ensures first_taker { journal_text first_taker ≡ lines first_taker_lines }
    ensures written { output go_faulted ≡ lines (codes "fault ZeroDivisor at 1:12" ∷ codes "nil" ∷ []) }
    ensures costs { cost put_and_take ≡ 10 }
    ensures result_port { channel_in 2 put_and_take ≡ Some (record { policy = fixed_buffer; capacity = 1; held = bool true ∷ []; closed = true }) }
{}

/// The worked journal of `(def c (chan)) (go (>! c 42)) (println (<!! c))` is a run of it. Where the go
/// block puts 42 and the main text waits to take, no run goes on with another value, another wait, or a
/// Done in place of the Meet.
pub fn worked_put_and_take()
    ensures legal { Legal putting_once put_and_take }
    ensures one_worker { Solo putting_once [] put_and_take }
    ensures other_value { Never putting_once 4 put_and_take (met 1 0 Put 1 (int (pos 43)) 1 0) }
    ensures other_wait { Never putting_once 4 put_and_take (met 1 0 Put 1 (int (pos 42)) 2 0) }
    ensures no_done { Never putting_once 4 put_and_take (done 1 0 (put_of 1 (int (pos 42))) (bool true)) }
{}

/// The worked journal of `(def t (timeout 100)) (def r (alts!! [(chan) t])) (println (first r) (= (nth r 1) t))`
/// is a run of it. No Tick comes before its moment, and no Settle before the Tick; then no run goes on with
/// the other branch of the alts, or with another answer.
pub fn worked_timed_out()
    ensures legal { Legal timing_out timed_out }
    ensures one_worker { Solo timing_out (0 ∷ 100 ∷ []) timed_out }
    ensures too_early { Never timing_out 3 timed_out (ticked 99 (1 ∷ [])) }
    ensures before_tick { Never timing_out 3 timed_out (settled 1 1 Take 1 nil) }
    ensures other_branch { Never timing_out 4 timed_out (settled 1 0 Take 2 nil) }
    ensures other_answer { Never timing_out 4 timed_out (settled 1 1 Take 1 (bool true)) }
{}

/// The worked journal of `(def g (go (quot 1 0))) (println (<!! g))` is a run of it. The fault names its
/// task's result port, and the task has no other end; who waits for the result gets nil, and not before.
pub fn worked_go_faulted()
    ensures legal { Legal faulting go_faulted }
    ensures one_worker { Solo faulting [] go_faulted }
    ensures no_port { Never faulting 3 go_faulted (over 1 (Faulted ZeroDivisor (record { line = 1; column = 12 }) None)) }
    ensures no_value { Never faulting 3 go_faulted (over 1 Ended) }
    ensures before_fault { Never faulting 3 go_faulted (settled 1 0 Take 1 nil) }
    ensures other_value { Never faulting 4 go_faulted (settled 1 0 Take 1 (int (pos 7))) }
{}

/// The worked journal of `(def c (chan)) (close! c) (println (>!! c 1))` is a run of it. After the close the
/// put isn't answered true, puts no other value, and doesn't wait.
pub fn worked_put_late()
    ensures legal { Legal putting_late put_late }
    ensures one_worker { Solo putting_late [] put_late }
    ensures put_true { Never putting_late 2 put_late (done 0 0 (put_of 1 (int (pos 1))) (bool true)) }
    ensures other_value { Never putting_late 2 put_late (done 0 0 (put_of 1 (int (pos 2))) (bool false)) }
    ensures no_wait { Never putting_late 2 put_late (parked 0 1 (put_of 1 (int (pos 1)) ∷ [])) }
{}

/// The worked journal of `(def c (chan)) (go (<! c)) (go (<! c)) (>!! c 42)` is a run of it. Where two tasks
/// wait to take, the put doesn't meet the newest, passes no other value, and isn't done alone.
pub fn worked_first_taker()
    ensures legal { Legal taking_twice first_taker }
    ensures newest_taker { Never taking_twice 7 first_taker (met 0 0 Put 1 (int (pos 42)) 2 0) }
    ensures other_value { Never taking_twice 7 first_taker (met 0 0 Put 1 (int (pos 43)) 1 0) }
    ensures no_done { Never taking_twice 7 first_taker (done 0 0 (put_of 1 (int (pos 42))) (bool true)) }
{}

/// Where 42 is put and two tasks wait to take, the event is the Meet of 42 with the first of them, and no
/// other Meet and no Done is one.
pub fn worked_meeting()
    ensures allowed { (program : ProgramView) (s : State) (x : Task) → AtMeeting s x → (s2 : State) × Step program s (met 1 0 Put 1 (int (pos 42)) 1 0) s2 }
    ensures only { (program : ProgramView) (s s2 : State) (x : Task) (v : Tree) (w o : ℕ) → AtMeeting s x → Step program s (met 1 0 Put 1 v w o) s2 → (v ≡ int (pos 42)) × (w ≡ 1) × (o ≡ 0) }
    ensures never_done { (program : ProgramView) (s s2 : State) (x : Task) (k : ℕ) (b : BranchView) (a : Tree) → AtMeeting s x → Step program s (done 1 k b a) s2 → ⊥ }
{}

/// A put into a closed channel is answered false.
pub fn worked_closed_put()
    ensures { (program : ProgramView) (s s2 : State) (x : Task) (b : BranchView) (a : Tree) → AtClosed s x → Step program s (done 1 0 b a) s2 → a ≡ bool false }
{}

/// Where a timeout has closed its channel, the one Settle is that of the branch on it, with nil.
pub fn worked_timeout()
    ensures allowed { (program : ProgramView) (s : State) → AtTimeout s → (s2 : State) × Step program s (settled 1 1 Take 1 nil) s2 }
    ensures only { (program : ProgramView) (s s2 : State) (w k : ℕ) (side : Side) (v : Tree) → AtTimeout s → Step program s (settled w k side 1 v) s2 → (w ≡ 1) × (k ≡ 1) × (side ≡ Take) × (v ≡ nil) }
    ensures no_other { (program : ProgramView) (s s2 : State) (w k : ℕ) (side : Side) (v : Tree) → AtTimeout s → Step program s (settled w k side 2 v) s2 → ⊥ }
{}

/// The fault of a task but the main text closes the task's result port, and its line names that port; it
/// doesn't end the run.
pub fn worked_fault()
    ensures closes { (program : ProgramView) (s s2 : State) (x : Task) (f : FaultKind) (p : Place) (r : Option PortId) → AtFault s x f p → Step program s (over 1 (Faulted f p r)) s2 → (r ≡ Some (record { n = 1 })) × (s2.channels 1 ≡ option_map shut (s.channels 1)) }
    ensures allowed { (program : ProgramView) (s : State) (x : Task) (f : FaultKind) (p : Place) → AtFault s x f p → (s2 : State) × Step program s (over 1 (Faulted f p (Some (record { n = 1 })))) s2 }
    ensures run_goes_on { (f : FaultKind) (p : Place) (r : Option PortId) → is_end_of_main (over 1 (Faulted f p r)) ≡ false }
{}
