//! Meshes within their limits.
ghost use Rattle.std.specs.Prelude.{◌≡◌, ◌↔◌, IsTrue, IfSome, SomeIff};
ghost use Rattle.mesh_base.specs.Mesh.{AreWithin, AreAllDifferent, AreDifferent, IsWithin, IsMesh};

use crate::cell::Cell;
use crate::lists::{CellList, PointList};
use crate::point::Point;
use std::marker::Model;

/// The most points that a mesh may have.
pub const MOST_POINTS: usize = 1_000_000;

/// The most cells that a mesh may have, the absent ones included.
pub const MOST_CELLS: usize = 4_000_000;

/// A tetrahedral mesh: its points, and its cells, of which some are absent. Points and cells are numbered from 0 by
/// their places in the lists. The corners of each live cell are numbers of points of the mesh.
///
/// A vertex is a point number that some live cell has. There may be points that no cell has.
#[derive(Drop)]
pub struct Mesh {
    points: PointList,
    cells: CellList,
}

impl Model for Mesh {
    ghost use Rattle.mesh_base.specs.Mesh.{MeshView, IsMesh};

    ghost Value = { MeshView };

    ghost view = { λ m. record { points = m.points; cells = m.cells } };

    ghost invariant = { λ m. IsMesh m.points m.cells };
}

// Whether the cell is absent, or all its corners are below the number of points.
fn is_within(points: usize, cell: &Option<Cell>) -> bool
    ensures within { IsTrue result ↔ IfSome cell.now (IsWithin points) }
    ensures different { IfSome cell.now AreDifferent }
{
    match cell {
        None => true,
        Some(cell) => {
            let [a, b, c, d] = cell.corners();
            (a as usize) < points
                && (b as usize) < points
                && (c as usize) < points
                && (d as usize) < points
        }
    }
}

// Whether so are those of each live cell.
fn are_within(points: usize, cells: &[Option<Cell>]) -> bool
    ensures within { IsTrue result ↔ AreWithin points cells.now }
    ensures different { IsTrue result → AreAllDifferent cells.now }
{
    for cell in cells {
        if !is_within(points, cell) {
            return false;
        }
    }
    true
}

impl Mesh {
    /// The mesh of these points and cells. None where there are more than 1,000,000 points or 4,000,000 cells, or where
    /// a live cell has a number that isn't below the number of points. It goes once over the cells and takes no memory.
    pub fn new(points: PointList, cells: CellList) -> Option<Mesh>
        ensures { SomeIff result (IsMesh points cells) (record { points = points; cells = cells }) }
    {
        let count = points.items().len();
        if count <= MOST_POINTS
            && cells.items().len() <= MOST_CELLS
            && are_within(count, cells.items())
        {
            Some(Mesh { points, cells })
        } else {
            None
        }
    }

    /// Its points, by their numbers.
    pub fn points(&self) -> &[Point]
        ensures points { result.now ≡ self.now.points }
        ensures valid { IsMesh self.now.points self.now.cells }
    {
        self.points.items()
    }

    /// Its cells, by their numbers. An absent one is None.
    pub fn cells(&self) -> &[Option<Cell>]
        ensures cells { result.now ≡ self.now.cells }
        ensures valid { IsMesh self.now.points self.now.cells }
    {
        self.cells.items()
    }
}
