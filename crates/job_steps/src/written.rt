//! The mesh of a step.
ghost use Rattle.std.specs.Prelude.{◌≡◌, ◌<◌, IfOk};

use mesh_base::{CellList, Mesh, NoMemory, PointList};
use std::alloc::Global;
use std::marker::Brand;
use std::sync::ledger::{Blank, Ledger};
use step_view::{Step, Steps};

// The places of the points, each read once.
fn read_places<L: Ledger>(alloc: Global, blank: Blank, step: &Step) -> Result<PointList, NoMemory>
    requires name { blank.name ≡ L.name }
    requires parts { blank.parts ≡ L.parts }
    requires some { 0 < L.parts }
    ensures { IfOk result (λ places. places ≡ step.now.mesh.points) }
{
    let mut reads = Steps::<L>::open(blank);
    let mut places = Vec::with_capacity(alloc, step.points() as usize)?;
    for v in 0..step.points() {
        places.push_reserved(step.at(v, &mut reads));
    }
    Ok(PointList::of(places))
}

/// The places of the step's points, copied. It reads each once.
pub fn places_of(alloc: Global, step: &Step) -> Result<PointList, NoMemory>
    ensures { IfOk result (λ places. places ≡ step.now.mesh.points) }
{
    read_places::<Brand>(alloc, Blank::new(1), step)
}

/// The step's mesh, copied: an absent cell is there as such. It reads each place once.
pub fn mesh_of(alloc: Global, step: &Step) -> Result<Mesh, NoMemory>
    ensures { IfOk result (λ mesh. mesh ≡ step.now.mesh) }
{
    let places = places_of(alloc, step)?;
    let shape = step.shape();
    let _valid = shape.cells();
    let cells = CellList::of(shape.to_cells(alloc)?);
    Ok(Mesh::new(places, cells).unwrap())
}
