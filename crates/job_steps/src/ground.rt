//! What a motion reads: the mesh after the edits of a plan.
ghost use Rattle.std.specs.Prelude.{◌≡◌, ◌+◌, ◌<◌, length, All, IfOk};
ghost use Rattle.std.specs.Arc.{arc_value};
ghost use Rattle.mesh_base.specs.Place.{IsPlace};
ghost use Rattle.mesh_base.specs.Kernel.{moved};
ghost use Rattle.topo.specs.Topology.{mesh_at};
ghost use Rattle.move_kernels.specs.Motions.{HasDivisor};
ghost use Rattle.run_script.specs.Jobs.{IsJob, all_edited, plan_at, step_at, steps};
ghost use Rattle.step_view.specs.StepView.{IsStepOf};

use crate::edits::{make_edits, with_added};
use mesh_base::{Kernel, NoMemory};
use move_kernels::{moved, moved_par};
use run_script::Job;
use std::alloc::Global;
use std::marker::Sync;
use std::sync::Arc;
use std::thread::Threads;
use topo::{Positions, Shape, Topo};

/// The mesh that a step has before its points move, the motion, and the number of the step.
#[derive(Drop)]
pub struct Ground {
    pub shape: Arc<Shape>,
    pub places: Arc<Positions>,
    pub kernel: Kernel,
    pub step: u32,
    ghost points: { length (arc_value places) ≡ (arc_value shape).points },
    ghost in_range: { All IsPlace (arc_value places) },
}

// Makes the edits of plan k, and gives the places after them.
fn edited_places(
    alloc: Global,
    job: &Job,
    k: u32,
    topo: &mut Topo,
    places: &Arc<Positions>,
) -> Result<Arc<Positions>, NoMemory>
    requires job { IsJob job.now }
    requires more { k < steps job.now }
    requires now { IsStepOf job.now k topo.old (arc_value places.now) }
    requires in_range { All IsPlace (arc_value places.now) }
    ensures mesh { IfOk result (λ before. mesh_at (arc_value before) topo.new
        ≡ all_edited (step_at job.now k) (plan_at job.now k).edits) }
    ensures points { IfOk result (λ before. length (arc_value before) ≡ topo.new.points) }
    ensures in_range { IfOk result (λ before. All IsPlace (arc_value before)) }
{
    let edits = &job.plan(k).edits;
    let added = make_edits(alloc, topo, edits.items())?;
    let _few = topo.points();
    let after = with_added(alloc, places, &added)?;
    Ok(after)
}

/// Makes the edits of plan k, where the topology and the places are those of step k. After NoMemory the topology may
/// have any of the edits.
pub fn edited(
    alloc: Global,
    job: &Job,
    k: u32,
    topo: &mut Topo,
    places: &Arc<Positions>,
) -> Result<Ground, NoMemory>
    requires job { IsJob job.now }
    requires more { k < steps job.now }
    requires now { IsStepOf job.now k topo.old (arc_value places.now) }
    requires in_range { All IsPlace (arc_value places.now) }
    ensures shape { IfOk result (λ ground. arc_value ground.shape ≡ topo.new) }
    ensures mesh { IfOk result (λ ground. mesh_at (arc_value ground.places) topo.new
        ≡ all_edited (step_at job.now k) (plan_at job.now k).edits) }
    ensures kernel { IfOk result (λ ground. ground.kernel ≡ (plan_at job.now k).kernel) }
    ensures step { IfOk result (λ ground. ground.step ≡ k + 1) }
    ensures fits { IfOk result (λ ground. HasDivisor ground.kernel) }
{
    let plan = job.plan(k);
    let places = edited_places(alloc, job, k, topo, places)?;
    let shape = topo.freeze_next(alloc)?;
    Ok(Ground {
        shape,
        places,
        kernel: plan.kernel,
        step: k + 1,
    })
}

// A motion that moves no point leaves the places as they are, and they are shared.
macro_rules! places_after {
    ($alloc:expr, $ground:expr, $moved:expr) => {
        match $ground.kernel {
            Kernel::Stay => Ok($ground.places.clone()?),
            _ => {
                let _few = $ground.places.len();
                let moved = $moved?;
                Positions::after($alloc, &$ground.places, moved)
            }
        }
    };
}

/// Makes the edits of plan k, and gives the places of step k + 1, where the topology and the places are those of step
/// k. After NoMemory the topology may have any of the edits.
///
/// A shape is made only for a plan that moves points.
pub fn places_alone(
    alloc: Global,
    job: &Job,
    k: u32,
    topo: &mut Topo,
    places: &Arc<Positions>,
) -> Result<Arc<Positions>, NoMemory>
    requires job { IsJob job.now }
    requires more { k < steps job.now }
    requires now { IsStepOf job.now k topo.old (arc_value places.now) }
    requires in_range { All IsPlace (arc_value places.now) }
    ensures next { IfOk result (λ next. IsStepOf job.now (k + 1) topo.new (arc_value next)) }
    ensures in_range { IfOk result (λ next. All IsPlace (arc_value next)) }
{
    match job.plan(k).kernel {
        Kernel::Stay => Ok(edited_places(alloc, job, k, topo, places)?),
        _ => {
            let ground = edited(alloc, job, k, topo, places)?;
            Ok(moved_alone(alloc, &ground)?)
        }
    }
}

/// Where the motion puts the points, found by the thread that asks.
pub fn moved_alone(alloc: Global, ground: &Ground) -> Result<Arc<Positions>, NoMemory>
    requires { HasDivisor ground.now.kernel }
    ensures { IfOk result (λ places. arc_value places
        ≡ moved (mesh_at (arc_value ground.now.places)
        (arc_value ground.now.shape)) ground.now.kernel ground.now.step) }
{
    places_after!(
        alloc,
        ground,
        moved(
            alloc,
            &ground.kernel,
            ground.step,
            &ground.places,
            &ground.shape
        )
    )
}

/// The same places, found by as many threads as there are processors.
pub fn moved_in_threads<R: Threads + Sync>(
    rt: &R,
    alloc: Global,
    ground: &Ground,
) -> Result<Arc<Positions>, NoMemory>
    requires { HasDivisor ground.now.kernel }
    ensures { IfOk result (λ places. arc_value places
        ≡ moved (mesh_at (arc_value ground.now.places)
        (arc_value ground.now.shape)) ground.now.kernel ground.now.step) }
{
    places_after!(
        alloc,
        ground,
        moved_par(
            rt,
            alloc,
            &ground.kernel,
            ground.step,
            &ground.places,
            &ground.shape
        )
    )
}
