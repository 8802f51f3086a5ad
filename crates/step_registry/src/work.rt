//! What makes steps and answers for a core.
ghost use Rattle.std.specs.Prelude.{◌≡◌, ℕ, ◌+◌, ◌≤◌, ◌<◌, length, IfOk, OnOk, OnErr};
ghost use Rattle.run_script.specs.Jobs.{JobView, steps, turns_of, box_count};
ghost use Rattle.step_view.specs.Rows.{all_shares};
ghost use Rattle.step_registry.specs.Runs.{answer_at};

use crate::pins::StepPin;
use mesh_base::{Answer, NoMemory};
use std::alloc::Global;
use step_view::Shares;

/// Makes the steps of one job in their order, and answers the boxes of its sessions.
pub trait Work {
    // The job, which never changes.
    ghost job: { Self → JobView };

    // The number of the next step to be made.
    ghost next: { Self → ℕ };

    /// The number of the next step to be made.
    fn upcoming(&self) -> u32
        ensures { result ≡ next self.now };

    /// All shares of the next step. After NoMemory the next step is the same.
    fn make(&mut self, alloc: Global) -> Result<Shares, NoMemory>
        requires { next self.old ≤ steps (job self.old) }
        ensures shares { IfOk result (λ s. s ≡ all_shares (job self.old) (next self.old)) }
        ensures same { job self.new ≡ job self.old }
        ensures made { OnOk result (next self.new ≡ next self.old + 1) }
        ensures refused { OnErr result (next self.new ≡ next self.old) };

    /// The answer of box `query` of the pin's session, counted from 0 over all its turns, on the pinned step.
    fn answer(&mut self, alloc: Global, pin: &StepPin, query: u32) -> Result<Answer, NoMemory>
        requires of_job { pin.now.step.job ≡ job self.old }
        requires asked { query < box_count (turns_of (job self.old) pin.now.session) }
        ensures answer { IfOk result (λ a. a ≡ answer_at (job self.old) pin.now.session query pin.now.step.number) }
        ensures same { job self.new ≡ job self.old }
        ensures stays { next self.new ≡ next self.old };
}
