//! The library by example: reads a mesh text, makes its one step and answers a box.
#![tactic(auto)]

ghost use Rattle.std.specs.Prelude.{◌≡◌, IfOk};
ghost use Rattle.mesh_base.specs.Query.{answer};

use anyhow::{Context, Result};
use box_crawl::Marks;
use box_query::answer_plain;
use job_steps::first_step;
use mesh_base::{BoxQ, Mesh, NoMemory, Point, VertexList};
use run_script::Job;
use std::alloc::Global;
use std::sync::Arc;
use vtk_legacy::read_mesh;

// One tetrahedron, with edges of 4 along the axes.
const MESH: &[u8] = b"# vtk DataFile Version 3.0
one
ASCII
DATASET UNSTRUCTURED_GRID
POINTS 4 int
0 0 0 4 0 0 0 4 0 0 0 4
CELLS 1 5
4 0 1 2 3
CELL_TYPES 1
10
";

// The box round the edge on the x axis.
fn edge_box() -> Option<BoxQ> {
    BoxQ::new(Point::new(0, 0, 0)?, Point::new(4, 0, 0)?)
}

// The vertices that the surface of the mesh, a walk or a scan leads to inside the box.
#[tactic(auto, unfolding(run_script::specs::Jobs::step_at))]
fn vertices_inside(alloc: Global, mesh: Mesh, area: &BoxQ) -> Result<VertexList, NoMemory>
    ensures { IfOk result (λ vertices. vertices ≡ answer mesh area.now) }
{
    let job = Arc::new(alloc, Job::still(alloc, mesh)?)?;
    let (step, _maker) = first_step(alloc, job)?;
    let mut marks = Marks::new(alloc, step.points())?;
    let (_route, vertices) = answer_plain(alloc, &step, area, &mut marks)?;
    Ok(vertices)
}

fn main(rt: HostRuntime) -> Result<()> {
    let mesh = read_mesh(rt.alloc(), MESH)?;
    let area = edge_box().context("no box")?;
    let inside = vertices_inside(rt.alloc(), mesh, &area)?;
    println!(rt; "{:?}", inside.items())?;
    Ok(())
}
