//! The steps of a job.
ghost use Rattle.std.specs.Prelude.{◌≡◌, ◌+◌, ◌<◌, ◌≤◌, length, IfOk};
ghost use Rattle.std.specs.Arc.{arc_value};
ghost use Rattle.mesh_base.specs.Mesh.{IsMesh, surface, neighbours, place};
ghost use Rattle.topo.specs.Topology.{IsTopologyOf};
ghost use Rattle.run_script.specs.Jobs.{steps, step_at};
ghost use Rattle.step_view.specs.StepView.{step_of};

use crate::reads::Steps;
use mesh_base::{NoMemory, Point};
use run_script::Job;
use std::marker::Model;
use std::sync::Arc;
use std::sync::ledger::Ledger;
use topo::{Positions, Shape};

/// A step of a job: its mesh, which never changes. Step 0 is the job's mesh, and step k + 1 is made of step k by plan
/// k.
///
/// Contracts see its number, its job and its mesh, and the mesh is always that of this step of the job.
#[derive(Drop)]
pub struct Step {
    job: Arc<Job>,
    number: u32,
    shape: Arc<Shape>,
    points: Arc<Positions>,
}

impl Model for Step {
    ghost use Rattle.std.specs.Arc.{arc_value};
    ghost use Rattle.topo.specs.Topology.{mesh_at};
    ghost use Rattle.step_view.specs.StepView.{StepView, IsStepOf};

    ghost Value = { StepView };

    ghost view = { λ s. record {
      number = s.number;
      job = arc_value s.job;
      mesh = mesh_at (arc_value s.points) (arc_value s.shape);
    } };

    ghost invariant = { λ s. IsStepOf (arc_value s.job) s.number (arc_value s.shape) (arc_value s.points) };
}

impl Step {
    /// The step of a job with this number, whose cells are those of the shape and whose places are these. Nothing is
    /// copied.
    pub fn new(job: Arc<Job>, number: u32, shape: Arc<Shape>, points: Arc<Positions>) -> Step
        requires few { number ≤ steps (arc_value job) }
        requires shape { IsTopologyOf (step_at (arc_value job) number) (arc_value shape) }
        requires places { arc_value points ≡ (step_at (arc_value job) number).points }
        ensures { result ≡ step_of (arc_value job) number }
    {
        Step {
            job,
            number,
            shape,
            points,
        }
    }

    /// Its number: 0 for the mesh that the run begins with.
    pub fn number(&self) -> u32
        ensures number { result ≡ self.now.number }
        ensures few { result ≤ steps self.now.job }
    {
        self.number
    }

    /// Its job.
    pub fn job(&self) -> &Arc<Job>
        ensures job { arc_value result.now ≡ self.now.job }
        ensures step { self.now ≡ step_of self.now.job self.now.number }
    {
        &self.job
    }

    /// How many points it has.
    pub fn points(&self) -> u32
        ensures points { result ≡ length self.now.mesh.points }
        ensures valid { IsMesh self.now.mesh.points self.now.mesh.cells }
    {
        let _cells = self.shape.cells();
        self.shape.points()
    }

    /// What its mesh is without the places: cells, surface and neighbours.
    pub fn shape(&self) -> &Shape
        ensures shape { IsTopologyOf self.now.mesh result.now }
    {
        &self.shape
    }

    /// The vertices of the surface, ascending: those on a face that exactly one live cell has. Nothing is searched or
    /// copied.
    pub fn surface(&self) -> &[u32]
        ensures { result.now ≡ surface self.now.mesh }
    {
        self.shape.surface()
    }

    /// The neighbours of point v, ascending: the other corners of the live cells that have it. Nothing is searched or
    /// copied.
    pub fn neighbours(&self, v: u32) -> &[u32]
        requires { v < length self.now.mesh.points }
        ensures { result.now ≡ neighbours self.now.mesh v }
    {
        self.shape.neighbours(v)
    }

    /// The place of point v. It counts as one read, and is the only way to a place. It takes constant time.
    pub fn at<L: Ledger>(&self, v: u32, reads: &mut Steps<L>) -> Point
        requires { v < length self.now.mesh.points }
        ensures place { result ≡ place self.now.mesh v }
        ensures reads { reads.new ≡ reads.old + 1 }
    {
        reads.tick();
        self.points.get(v)
    }

    /// One more share of this step. No place or cell is copied.
    pub(crate) fn share(&self) -> Result<Step, NoMemory>
        ensures { IfOk result (λ step. step ≡ self.now) }
    {
        Ok(Step {
            job: self.job.clone()?,
            number: self.number,
            shape: self.shape.clone()?,
            points: self.points.clone()?,
        })
    }
}
