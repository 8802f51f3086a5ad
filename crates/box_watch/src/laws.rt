//! What follows from the definitions. Each function has an empty body: what it ensures holds of every job and history.
ghost use Rattle.std.specs.Prelude.{◌≡◌, List, Some};
ghost use Rattle.run_script.specs.Jobs.{JobView, IsJob};
ghost use Rattle.step_registry.specs.declared.event.Event.{Event};
ghost use Rattle.step_registry.specs.Core.{IsWhole};
ghost use Rattle.report.specs.Printed.{printed_journal};
ghost use Rattle.box_watch.specs.Watches.{watches_of};
ghost use Rattle.box_watch.specs.Replay.{IsWatchList, Follows, answered};
ghost use Rattle.box_watch.specs.WatchText.{watched_text, Watches};

/// What each watch of a whole history makes of the answer of the box before is the answer of its box. So whoever keeps
/// the watches has the answers.
pub fn answers_are_replayed()
    ensures { (job : JobView) (h : List Event) → IsWhole job h → Follows (watches_of job h) (answered job h) }
{}

/// The watches of a whole history may be replayed.
pub fn watches_are_in_order()
    ensures { (job : JobView) (h : List Event) → IsWhole job h → IsWatchList (watches_of job h) }
{}

/// The text of the watches of a whole history tells all of it.
pub fn watch_texts_hold()
    ensures { (job : JobView) (h : List Event) → IsJob job → IsWhole job h → Watches job (watched_text job h) }
{}
