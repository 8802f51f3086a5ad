//! Laws of the core, as the contract of a function that does nothing.
ghost use Rattle.std.specs.Prelude.{◌≡◌, ℕ, ◌+◌, ◌≤◌, ◌<◌, ◌⊎◌, List, [], ◌∷◌, ◌++◌, length, take, false};
ghost use Rattle.std.specs.List.{sum_by, filter, range_with_len};
ghost use Rattle.step_registry.specs.Worked.{two_sessions};
ghost use Rattle.step_registry.specs.Lines.{of_session, turns_at, steps_of};
ghost use Rattle.mesh_base.specs.Numbers.{IsListOf};
ghost use Rattle.run_script.specs.Jobs.{JobView, turns_of, all_boxes};
ghost use Rattle.step_registry.specs.declared.event.Event.{Event};
ghost use Rattle.step_registry.specs.Core.{first, after, IsLegal, IsWhole, HasOut, held, freed, answers_of, session_of};
ghost use Rattle.step_registry.specs.CoreLaws.{most_events};
ghost use Rattle.step_registry.specs.SeatLaws.{times, live, born, PinsRise, answered_by, publishes, own};

/// What follows for legal histories and for whole ones.
pub fn core_laws()
    ensures begins { (job : JobView) (g h : List Event) → IsLegal job (g ++ h) → IsLegal job g }
    ensures rises { (job : JobView) (g h : List Event) → IsLegal job (g ++ h)
        → (after job g).newest ≤ (after job (g ++ h)).newest }
    ensures events { (job : JobView) (h : List Event) → IsLegal job h → length h ≤ most_events job }
    ensures answers { (job : JobView) (h : List Event) → IsLegal job h → length (answers_of job h) ≤ all_boxes job }
    ensures goes { (job : JobView) (h : List Event) (s : ℕ) → IsWhole job h → s < length job.sessions
        → (session_of (after job h) s).is_stopped ≡ false }
    ensures each_done { (job : JobView) (h : List Event) (s : ℕ) → IsWhole job h → s < length job.sessions
        → sum_by (answered_by s) h ≡ length (turns_of job s) }
    ensures freed_once { (job : JobView) (h : List Event) (k : ℕ) → IsLegal job h
        → times k (freed job h) + live (after job h) k ≡ born (after job h) k }
    ensures held { (job : JobView) (h : List Event) → IsLegal job h
        → IsListOf (λ k. (k ≡ (after job h).newest) ⊎ HasOut job (after job h) k) (held (after job h)) }
    ensures held_few { (job : JobView) (h : List Event) → IsLegal job h
        → length (held (after job h)) ≤ length job.sessions + 1 }
    ensures pins_rise { (job : JobView) (h : List Event) (s : ℕ) → IsLegal job h → PinsRise job (first job) s 0 h }
    ensures publishes { (job : JobView) (h : List Event) → IsLegal job h
        → publishes h ≡ range_with_len 1 (after job h).newest }
    ensures publisher { (job : JobView) (h : List Event)
        → ((after job (own 0 h)).newest ≡ (after job h).newest)
        × ((after job (own 0 h)).closed ≡ (after job h).closed) }
    ensures session { (job : JobView) (h : List Event) (s : ℕ) → s < length job.sessions
        → session_of (after job h) s ≡ session_of (after job (own (s + 1) h)) s }
    ensures lines { (job : JobView) (h : List Event) (s : ℕ) → s < length job.sessions
        → filter (of_session s) (answers_of job h) ≡ turns_at job s 0 (steps_of s h) }
{}

/// Two sessions on two steps, one event after the other: how many steps are held, and that the last event alone hands a
/// step out.
pub fn a_step_is_handed_out_by_the_last_to_hold_it()
    ensures pinned { (job : JobView) → length job.sessions ≡ 2 → held (after job (take 1 two_sessions)) ≡ 0 ∷ [] }
    ensures published { (job : JobView) → length job.sessions ≡ 2
        → held (after job (take 2 two_sessions)) ≡ 0 ∷ 1 ∷ [] }
    ensures both { (job : JobView) → length job.sessions ≡ 2 → held (after job (take 3 two_sessions)) ≡ 0 ∷ 1 ∷ [] }
    ensures none { (job : JobView) → length job.sessions ≡ 2 → freed job (take 3 two_sessions) ≡ [] }
    ensures back { (job : JobView) → length job.sessions ≡ 2 → held (after job two_sessions) ≡ 1 ∷ [] }
    ensures handed { (job : JobView) → length job.sessions ≡ 2 → freed job two_sessions ≡ 0 ∷ [] }
{}
