//! Makers of steps.
ghost use Rattle.std.specs.Prelude.{◌≡◌, ◌+◌, ◌<◌, ◌≤◌, true, All, IsErr, IfOk, OnOk, OnErr};
ghost use Rattle.std.specs.Arc.{arc_value};
ghost use Rattle.mesh_base.specs.Place.{IsPlace};
ghost use Rattle.topo.specs.Topology.{IsTopologyOf};
ghost use Rattle.run_script.specs.Jobs.{steps};
ghost use Rattle.step_view.specs.StepView.{step_of};
ghost use Rattle.job_steps.specs.MakerView.{maker_at};

use crate::ground::{edited, moved_alone, moved_in_threads, places_alone};
use mesh_base::{Mesh, NoMemory, Point};
use run_script::Job;
use std::alloc::{AllocError, Global};
use std::marker::{Model, Sync};
use std::sync::Arc;
use std::thread::Threads;
use step_view::Step;
use topo::{Positions, Topo};

/// Makes the steps of one job in order: each call makes one step more, from the last one, by the job's next plan.
///
/// It keeps the topology of the last step, and edits it in place for the next. Where memory is refused the topology may
/// be between two steps: then the maker is lost, and makes no step more. Contracts see its job, the number of the last
/// step made, and whether it is lost.
#[derive(Drop)]
pub struct Maker {
    job: Arc<Job>,
    made: u32,
    lost: bool,
    topo: Topo,
    places: Arc<Positions>,
}

impl Model for Maker {
    ghost use Rattle.std.specs.Arc.{arc_value};
    ghost use Rattle.job_steps.specs.MakerView.{MakerView, IsMaker};

    ghost Value = { MakerView };

    ghost view = { λ m. record { job = arc_value m.job; made = m.made; lost = m.lost } };

    ghost invariant = { λ m. IsMaker (record { job = arc_value m.job; made = m.made; lost = m.lost }) m.topo
        (arc_value m.places) };
}

// The coordinates of a point are in range, which its type says. Nothing is computed.
fn are_places(points: &[Point])
    ensures { All IsPlace points.now }
{
    for point in points {
        let _place = (point.x(), point.y(), point.z());
    }
}

// The topology of a mesh, which shares its cells, and the places, which are copied.
fn parts_of(alloc: Global, mesh: &Arc<Mesh>) -> Result<(Topo, Arc<Positions>), NoMemory>
    ensures topology { IfOk result (λ r. IsTopologyOf (arc_value mesh.now) r.0) }
    ensures places { IfOk result (λ r. arc_value r.1 ≡ (arc_value mesh.now).points) }
    ensures in_range { IfOk result (λ r. All IsPlace (arc_value r.1)) }
{
    are_places(mesh.points());
    let places = Positions::copied(alloc, mesh.points())?;
    let topo = Topo::of_mesh(alloc, mesh.clone()?)?;
    Ok((topo, places))
}

/// Step 0, which has the job's mesh, and a maker of the steps after it. After NoMemory the job is let go.
///
/// It builds the surface and the neighbours of the mesh, and copies its places. The cells are shared with the job.
pub fn first_step(alloc: Global, job: Arc<Job>) -> Result<(Step, Maker), NoMemory>
    ensures step { IfOk result (λ r. r.0 ≡ step_of (arc_value job) 0) }
    ensures maker { IfOk result (λ r. r.1 ≡ maker_at (arc_value job) 0) }
{
    let mut maker = Maker::new(alloc, job)?;
    let step = maker.last_step(alloc)?;
    Ok((step, maker))
}

// The body of `next` and of `next_plain`, which differ in the call that moves the points.
macro_rules! next_step {
    ($maker:expr, $alloc:expr, $ground:ident => $moved:expr) => {{
        if $maker.lost {
            return Err(AllocError);
        }
        $maker.lost = true;
        let $ground = edited(
            $alloc,
            &$maker.job,
            $maker.made,
            &mut $maker.topo,
            &$maker.places,
        )?;
        let places = $moved?;
        let step = Step::new(
            $maker.job.clone()?,
            $ground.step,
            $ground.shape.clone()?,
            places.clone()?,
        );
        $maker.made = $ground.step;
        $maker.places = places;
        $maker.lost = false;
        Ok(step)
    }};
}

impl Maker {
    /// A maker of the steps of this job, of which step 0 is made. After NoMemory the job is let go.
    ///
    /// It costs what `first_step` costs, but for the step: no neighbours and no surface are copied for it.
    pub fn new(alloc: Global, job: Arc<Job>) -> Result<Maker, NoMemory>
        ensures { IfOk result (λ maker. maker ≡ maker_at (arc_value job) 0) }
    {
        let (topo, places) = parts_of(alloc, job.shared_mesh())?;
        Ok(Maker {
            job,
            made: 0,
            lost: false,
            topo,
            places,
        })
    }

    /// The number of the last step made.
    pub fn made(&self) -> u32
        ensures made { result ≡ self.now.made }
        ensures few { result ≤ steps self.now.job }
    {
        self.made
    }

    /// The last step made. After NoMemory the maker is as it was. A lost maker answers NoMemory.
    ///
    /// It copies the chunks that the edits since the last step that was handed out have changed, and the surface. The
    /// other chunks are shared with that step, and cells that no edit of the job has changed with the job.
    pub fn last_step(&mut self, alloc: Global) -> Result<Step, NoMemory>
        ensures step { IfOk result (λ step. step ≡ step_of self.old.job self.old.made) }
        ensures same { self.new ≡ self.old }
        ensures lost { self.old.lost ≡ true → IsErr result }
    {
        if self.lost {
            return Err(AllocError);
        }
        let shape = self.topo.freeze_next(alloc)?;
        Ok(Step::new(self.job.clone()?, self.made, shape, self.places.clone()?))
    }

    /// Makes the next step and hands nothing out, on the thread that asks: `last_step` gives that step. After NoMemory
    /// the maker is lost, as after a refused `next`.
    ///
    /// It costs what `next_plain` costs. Where the plan stays, nothing is copied for the step.
    pub fn pass_plain(&mut self, alloc: Global) -> Result<(), NoMemory>
        requires { self.old.made < steps self.old.job }
        ensures made { OnOk result (self.new ≡ maker_at self.old.job (self.old.made + 1)) }
        ensures err { OnErr result (self.new ≡ record self.old { lost = true }) }
        ensures lost { self.old.lost ≡ true → IsErr result }
    {
        if self.lost {
            return Err(AllocError);
        }
        self.lost = true;
        let places = places_alone(alloc, &self.job, self.made, &mut self.topo, &self.places)?;
        self.made += 1;
        self.places = places;
        self.lost = false;
        Ok(())
    }

    /// The next step, by as many threads as there are processors: the step after the last one made. After NoMemory the
    /// maker is lost: it has made as many steps as before, and every later call of `next` and `next_plain` answers
    /// NoMemory.
    ///
    /// The edits of the plan cost what they cost in place, and of the cells and the neighbours the chunks that they
    /// change are copied. Where the plan adds points, the places behind the full chunks are copied. The new places are
    /// computed in one pass over the points, by the threads together, and for a relaxation over all neighbours; a plan
    /// that stays computes none.
    pub fn next<R: Threads + Sync>(&mut self, rt: &R, alloc: Global) -> Result<Step, NoMemory>
        requires { self.old.made < steps self.old.job }
        ensures step { IfOk result (λ step. step ≡ step_of self.old.job (self.old.made + 1)) }
        ensures made { OnOk result (self.new ≡ maker_at self.old.job (self.old.made + 1)) }
        ensures err { OnErr result (self.new ≡ record self.old { lost = true }) }
        ensures lost { self.old.lost ≡ true → IsErr result }
    {
        next_step!(self, alloc, ground => moved_in_threads(rt, alloc, &ground))
    }

    /// The same as `next`, on the thread that asks.
    pub fn next_plain(&mut self, alloc: Global) -> Result<Step, NoMemory>
        requires { self.old.made < steps self.old.job }
        ensures step { IfOk result (λ step. step ≡ step_of self.old.job (self.old.made + 1)) }
        ensures made { OnOk result (self.new ≡ maker_at self.old.job (self.old.made + 1)) }
        ensures err { OnErr result (self.new ≡ record self.old { lost = true }) }
        ensures lost { self.old.lost ≡ true → IsErr result }
    {
        next_step!(self, alloc, ground => moved_alone(alloc, &ground))
    }
}
