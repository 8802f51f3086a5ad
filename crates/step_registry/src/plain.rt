//! Work for a core on the thread that asks.
ghost use Rattle.std.specs.Prelude.{◌≡◌, ◌+◌, ◌<◌, ◌≤◌, length, IfOk};
ghost use Rattle.std.specs.Arc.{arc_value};
ghost use Rattle.run_script.specs.Jobs.{box_count};
ghost use Rattle.step_view.specs.Rows.{all_shares};
ghost use Rattle.job_steps.specs.MakerView.{maker_at};
ghost use Rattle.step_registry.specs.Runs.{area_at};

use crate::pins::StepPin;
use crate::work::Work;
use box_crawl::Marks;
use box_query::answer_plain;
use job_steps::{Maker, first_step};
use mesh_base::{Answer, BoxQ, NoMemory};
use run_script::{Job, SessionTurn};
use std::alloc::{AllocError, Global};
use std::marker::Model;
use std::sync::Arc;
use step_view::Shares;

/// Makes the steps of a job by a maker, and answers each box when it is asked.
///
/// Contracts see its job and the number of the next step.
#[derive(Drop)]
pub struct PlainWork {
    job: Arc<Job>,
    // The maker is one ahead where memory for the shares of its last step was refused.
    next: u32,
    maker: Maker,
    marks: Marks,
}

impl Model for PlainWork {
    ghost use Rattle.std.specs.Prelude.{◌≡◌, ◌+◌, ◌≤◌};
    ghost use Rattle.std.specs.Arc.{arc_value};
    ghost use Rattle.step_registry.specs.Runs.{WorkView};

    ghost Value = { WorkView };

    ghost view = { λ w. record { job = arc_value w.job; next = w.next } };

    ghost invariant = { λ w. (w.maker.job ≡ arc_value w.job) × (w.next ≤ w.maker.made + 1) };
}

impl PlainWork {
    ghost use Rattle.step_registry.specs.Runs.{WorkView};

    /// All shares of step 0 of a job, and work for its other steps and its boxes. After NoMemory the job is let go.
    ///
    /// It copies the mesh, and builds its surface and its neighbours.
    pub fn new(alloc: Global, job: Arc<Job>) -> Result<(Shares, PlainWork), NoMemory>
        ensures shares { IfOk result (λ r. r.0 ≡ all_shares (arc_value job) 0) }
        ensures job { IfOk result (λ r. r.1.job ≡ arc_value job) }
        ensures next { IfOk result (λ r. r.1.next ≡ 1) }
    {
        let (step, maker) = first_step(alloc, job.clone()?)?;
        let marks = Marks::new(alloc, step.points())?;
        let shares = Shares::make(alloc, step)?;
        let work = PlainWork {
            job,
            next: 1,
            maker,
            marks,
        };
        Ok((shares, work))
    }
}

impl Work for PlainWork {
    ghost use Rattle.std.specs.Arc.{arc_value};

    ghost job = { λ w. w.job };

    ghost next = { λ w. w.next };

    fn upcoming(&self) -> u32 {
        self.next
    }

    fn make(&mut self, alloc: Global) -> Result<Shares, NoMemory> {
        if self.maker.made() >= self.next {
            return Err(AllocError);
        }
        let _few = self.job.steps();
        let step = self.maker.next_plain(alloc)?;
        let shares = Shares::make(alloc, step)?;
        self.next += 1;
        Ok(shares)
    }

    fn answer(&mut self, alloc: Global, pin: &StepPin, query: u32) -> Result<Answer, NoMemory> {
        let session = pin.session();
        let number = pin.number();
        let step = pin.step();
        let area = area_of(self.job.turns(session), query);
        self.marks.reach(alloc, step.points())?;
        let (route, vertices) = answer_plain(alloc, step, area, &mut self.marks)?;
        Ok(Answer {
            session,
            query,
            step: number,
            route,
            vertices,
        })
    }
}

// Box `query` of these turns, one after the other.
fn area_of(turns: &[SessionTurn], query: u32) -> &BoxQ
    requires { query < box_count turns.now }
    ensures { result.now ≡ area_at turns.now query }
{
    let mut rest = query as usize;
    for turn in turns {
        let areas = turn.areas.items();
        if rest < areas.len() {
            return &areas[rest];
        }
        rest -= areas.len();
    }
    unreachable!()
}
