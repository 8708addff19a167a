//! The laws of what a report tells.
ghost use Rattle.std.specs.Prelude.{◌≡◌, ◌↔◌, ℕ, List, [], ◌∷◌, Some, IsSome};
ghost use Rattle.ca_term.specs.Program.{ProgramView};
ghost use Rattle.ca_term.specs.Event.{EventView};
ghost use Rattle.ca_meaning.specs.Channel.{Channel};
ghost use Rattle.ca_meaning.specs.Legal.{Reaches};
ghost use Rattle.ca_meaning.specs.State.{State};
ghost use Rattle.ca_meaning.specs.Worked.{lines, put_and_take};
ghost use Rattle.ca_report.specs.Drops.{DropsBy};
ghost use Rattle.ca_report.specs.Made.{channels_made, IsAmong, Rising};
ghost use Rattle.ca_report.specs.Report.{report_text};
ghost use Rattle.ca_report.specs.Tallied.{IsTally, tally_text};
ghost use Rattle.ca_report.specs.declared.tally.Tally.{Tally};
ghost use Rattle.ca_report.specs.Worked.{told_by, put_twice, put_twice_lines, both_sides, both_sides_wait, both_sides_lines, put_and_take_report};

/// What a channel that isn't a promise gave and holds it accepted, and it dropped nothing where it has no buffer or a fixed
/// one. A promise dropped all that it accepted but the first.
pub fn channels_drop_by_their_policy()
    ensures { (program : ProgramView) (journal : List EventView) (s : State) (p : ℕ) (c : Channel) → Reaches program journal s → s.channels p ≡ Some c → DropsBy c.policy journal p c }
{}

/// A report has a line for each channel of the state, in order of number.
pub fn reports_tell_each_channel()
    ensures order { (program : ProgramView) (journal : List EventView) (s : State) → Reaches program journal s → Rising (channels_made journal) }
    ensures each { (program : ProgramView) (journal : List EventView) (s : State) (p : ℕ) → Reaches program journal s → IsAmong p (channels_made journal) ↔ IsSome (s.channels p) }
{}

/// A tally of all events of a legal journal makes, with the state that they lead to, the report.
pub fn tallies_make_the_report()
    ensures { (program : ProgramView) (journal : List EventView) (s : State) (t : Tally) → Reaches program journal s → IsTally t journal → tally_text s t ≡ report_text journal s }
{}

/// Worked reports: of `(def c (chan (dropping-buffer 1))) (println (>!! c 1) (>!! c 2)) (close! c) (println (<!! c) (<!! c))`,
/// of `(def c (chan)) (alts!! [c [c 1]])`, which is stuck, and of `(def c (chan)) (go (>! c 42)) (println (<!! c))`.
pub fn worked_reports()
    ensures put_twice { report_text put_twice (told_by put_twice []) ≡ lines put_twice_lines }
    ensures both_sides { report_text both_sides (told_by both_sides (both_sides_wait ∷ [])) ≡ lines both_sides_lines }
    ensures put_and_take { report_text put_and_take (told_by put_and_take []) ≡ lines put_and_take_report }
{}
