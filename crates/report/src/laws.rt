//! What follows from the definitions. Each function has an empty body: what it ensures holds of every job and history.
ghost use Rattle.std.specs.Prelude.{◌≡◌, ◌<◌, ℕ, List, length, Some};
ghost use Rattle.run_script.specs.Jobs.{JobView, IsJob};
ghost use Rattle.step_registry.specs.declared.event.Event.{Event};
ghost use Rattle.step_registry.specs.Core.{IsLegal, IsWhole};
ghost use Rattle.report.specs.Report.{report_text, listed};
ghost use Rattle.report.specs.Last.{NeedsLast, answered_last};
ghost use Rattle.report.specs.Printed.{printed_journal};
ghost use Rattle.report.specs.Headline.{PinsNeverFall, BoxesInOrder, AnswersAreTrue, FreesExactly, IsWholeRun, Reports};

/// The journal lines of a report print its history.
pub fn journals_are_printed()
    ensures { (job : JobView) (h : List Event) → IsJob job → IsWhole job h
        → printed_journal (report_text job h) ≡ Some h }
{}

/// The steps that a session pins never fall, and each is at least the need of its turn.
pub fn pins_never_fall()
    ensures { (job : JobView) (h : List Event) → IsLegal job h → PinsNeverFall job h }
{}

/// The report of a whole history has a line for each box of each session, in their order.
pub fn boxes_are_listed()
    ensures { (job : JobView) (h : List Event) → IsWhole job h → BoxesInOrder job h }
{}

/// Each listed answer is ascending, lies in the scan of the step that it names, and is that scan where the box is
/// covered.
pub fn listed_answers_are_true()
    ensures { (job : JobView) (h : List Event) → IsWhole job h → AnswersAreTrue job h }
{}

/// After each front of a legal history exactly the steps below newest that nobody has out were freed, each once.
pub fn freed_steps_are_exact()
    ensures { (job : JobView) (h : List Event) → IsLegal job h → FreesExactly job h }
{}

/// All of this is true of a whole history.
pub fn whole_runs_are_true()
    ensures { (job : JobView) (h : List Event) → IsWhole job h → IsWholeRun job h }
{}

/// The report of a whole history tells all of it.
pub fn reports_hold()
    ensures { (job : JobView) (h : List Event) → IsJob job → IsWhole job h → Reports job (report_text job h) }
{}

/// A session whose turns all need the last step has its answers at that step, whatever the history.
pub fn last_steps_are_met()
    ensures { (job : JobView) (h : List Event) (s : ℕ) → IsWhole job h → s < length job.sessions → NeedsLast job s
        → listed job h s ≡ answered_last job s }
{}
