//! What follows from the words of this crate, as the contract of a function that does nothing.
ghost use Rattle.std.specs.Prelude.{◌≡◌, ℕ, ◌+◌, ◌*◌, ◌<◌, List, length, true};
ghost use Rattle.run_script.specs.Jobs.{JobView, steps};
ghost use Rattle.step_registry.specs.declared.event.Event.{Event};
ghost use Rattle.step_registry.specs.Core.{after, IsLegal, IsWhole};
ghost use Rattle.step_registry.specs.SeatLaws.{Says};
ghost use Rattle.step_table.specs.Seats.{SessionView, PublisherView, published_of, closed_of, Follows, Reaches, HasEnded};

/// What the words of a table tell of a history of which they are true, and what of the seats makes a history whole.
///
/// `ended`: the word 2 n + 1 tells that the plan is closed and n its last step. `told`: each word names a published
/// step. `whole`: a legal history that follows the seats is whole where the publisher has published all steps and
/// closed, and each session has all its turns done and nothing out.
pub fn table_laws()
    ensures ended { (job : JobView) (h : List Event) (n : ℕ) → Says h (2 * n + 1)
        → ((after job h).newest ≡ n) × ((after job h).closed ≡ true) }
    ensures told { (job : JobView) (h : List Event) (w : ℕ) → Says h w → Reaches job h w }
    ensures whole { (job : JobView) (h : List Event) (p : PublisherView) (each : ℕ → SessionView) → IsLegal job h
        → p.job ≡ job → Follows 0 p.seen p.words h → published_of p ≡ steps job → closed_of p ≡ true
        → ((s : ℕ) → s < length job.sessions → HasEnded job h s (each s)) → IsWhole job h }
{}
