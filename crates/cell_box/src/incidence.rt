//! The cells of each point.
ghost use Rattle.std.specs.Prelude.{◌≡◌, ◌-◌, ◌<◌, ◌≤◌, [], length, slice_index_or, IfOk};
ghost use Rattle.mesh_base.specs.Mesh.{MeshView};
ghost use Rattle.cell_box.specs.Cells.{rows_of, incidence_of, cells_with};

use crate::rows::{place_all, starts_of};
use mesh_base::NoMemory;
use std::alloc::Global;
use std::marker::Model;
use step_view::Step;
use topo::Shape;

/// For each point the live cells that have it, ascending: all rows in one list, and where each row begins. It takes 8
/// bytes a point and 16 bytes a live cell.
///
/// Contracts see the list of the rows.
#[derive(Drop)]
pub struct Incidence {
    starts: Vec<usize>,
    numbers: Vec<u32>,
}

impl Model for Incidence {
    ghost use Rattle.std.specs.Prelude.{ℕ, List};
    ghost use Rattle.cell_box.specs.Rows.{AreRows, rows_between};

    ghost Value = { List (List ℕ) };

    ghost view = { λ s. rows_between s.starts.items s.numbers.items };

    ghost invariant = { λ s. AreRows s.starts.items s.numbers.items };
}

impl Incidence {
    // The incidence of a shape.
    fn of(alloc: Global, shape: &Shape) -> Result<Incidence, NoMemory>
        ensures { IfOk result (λ incidence. incidence ≡ rows_of shape.now.points shape.now.cells) }
    {
        let _cells = shape.cells();
        let (mut starts, total) = starts_of(alloc, shape)?;
        let mut numbers = vec![in alloc; 0u32; total]?;
        place_all(shape, &mut starts, &mut numbers);
        Ok(Incidence { starts, numbers })
    }

    /// The incidence of a step's mesh. It goes twice over the cells and once over the points, and copies no list of
    /// cells.
    pub fn build(alloc: Global, step: &Step) -> Result<Incidence, NoMemory>
        ensures { IfOk result (λ incidence. incidence ≡ incidence_of step.now.mesh) }
    {
        Incidence::of(alloc, step.shape())
    }

    /// How many points there are rows for.
    pub fn points(&self) -> u32
        ensures { result ≡ length self.now }
    {
        (self.starts.len() - 1) as u32
    }

    /// The live cells that have point v, ascending. A point that is no vertex has none. Nothing is searched or copied.
    pub fn cells_at(&self, v: u32) -> &[u32]
        requires { v < length self.now }
        ensures row { result.now ≡ slice_index_or self.now v [] }
        ensures mesh { (mesh : MeshView) → self.now ≡ incidence_of mesh → result.now ≡ cells_with mesh.cells v }
    {
        let start = self.starts[v as usize];
        let end = self.starts[v as usize + 1];
        &self.numbers[start..end]
    }
}
