//! The cells that were read, in one list.
ghost use Rattle.std.specs.Prelude.{◌≡◌};
ghost use Rattle.mesh_base.specs.Mesh.{corners_of};
ghost use Rattle.vtk_legacy.specs.Kept.{tetrahedron};

use crate::fault::MeshFault;
use crate::gathered::CellRow;
use mesh_base::{Cell, CellList};
use std::alloc::Global;
use std::marker::Model;

/// How many points a tetrahedron has.
pub const CORNERS: u32 = 4;

/// The cells in the order of the text. Up to `kept` they are finished: the tetrahedra among those whose types came.
/// From `used` on their types are still to come. One that isn't of four different points is absent there, and has its
/// number of points in `sizes`, from `passed` on. So a cell is finished in the place of one that was used.
#[derive(Drop)]
pub struct CellTable {
    entries: Vec<Option<Cell>>,
    kept: usize,
    used: usize,
    sizes: Vec<u32>,
    passed: usize,
}

impl Model for CellTable {
    ghost use Rattle.std.specs.Prelude.{drop, take};
    ghost use Rattle.vtk_legacy.specs.Table.{Rows, IsTable, weave};

    ghost Value = { Rows };

    ghost view = { λ t. record {
      waiting = weave (drop t.used t.entries.items) (drop t.passed t.sizes.items);
      done = take t.kept t.entries.items;
    } };

    ghost invariant = { λ t. IsTable t.entries.items t.kept t.used t.sizes.items t.passed };
}

impl CellTable {
    ghost use Rattle.std.specs.Prelude.{◌≡◌, [], length, OnOk, IfErr, IsTrue, IsFalse, IsSome, None};
    ghost use Rattle.vtk_legacy.specs.declared.fault.MeshFault.TheVariants.{NoMemory};
    ghost use Rattle.vtk_legacy.specs.Kept.{ended, first_row};
    ghost use Rattle.vtk_legacy.specs.Table.{with_waiting, first_done, first_out};

    /// No cell came yet.
    pub fn new(alloc: Global) -> CellTable
        ensures { result ≡ record { waiting = []; done = [] } }
    {
        CellTable {
            entries: Vec::new(alloc),
            kept: 0,
            used: 0,
            sizes: Vec::new(alloc),
            passed: 0,
        }
    }

    /// How many cells still wait for their types.
    pub fn waiting(&self) -> usize
        ensures { result ≡ length self.now.waiting }
    {
        self.entries.len() - self.used
    }

    /// One more cell, whose type is still to come.
    pub fn push(&mut self, row: CellRow) -> Result<(), MeshFault>
        ensures ok { OnOk result (self.new ≡ with_waiting (ended row) self.old) }
        ensures err { IfErr result (λ e. e ≡ NoMemory) }
    {
        match tetrahedron_of(row) {
            Some(cell) => {
                self.entries.push(Some(cell))?;
                Ok(())
            }
            None => self.push_size(row.count),
        }
    }

    // One more cell of so many points, which is no tetrahedron.
    fn push_size(&mut self, size: u32) -> Result<(), MeshFault>
        ensures ok { OnOk result (self.new ≡ with_waiting (record { size = size; cell = None }) self.old) }
        ensures err { IfErr result (λ e. e ≡ NoMemory) }
    {
        self.sizes.push(size)?;
        if let Err(e) = self.entries.push(None) {
            self.sizes.pop();
            return Err(e.into());
        }
        Ok(())
    }

    /// How many points the first cell has that waits for its type.
    pub fn first_size(&self) -> u32
        ensures { result ≡ (first_row self.now.waiting).size }
    {
        if self.used >= self.entries.len() {
            return 0;
        }
        match self.entries[self.used] {
            Some(_) => CORNERS,
            None => self.sizes[self.passed],
        }
    }

    /// The first cell that waits is finished, if it has four different points. Says whether it has.
    pub fn keep_first(&mut self) -> bool
        ensures yes { IsTrue result → (self.new ≡ first_done self.old) × ((first_row self.old.waiting).size ≡ 4)
            × IsSome (first_row self.old.waiting).cell }
        ensures no { IsFalse result → (self.new ≡ self.old) × ((first_row self.old.waiting).cell ≡ None) }
    {
        if self.used >= self.entries.len() {
            return false;
        }
        let Some(cell) = self.entries[self.used] else {
            return false;
        };
        self.entries[self.kept] = Some(cell);
        self.kept += 1;
        self.used += 1;
        true
    }

    /// The first cell that waits is left out.
    pub fn skip_first(&mut self)
        ensures { self.new ≡ first_out self.old }
    {
        if self.used >= self.entries.len() {
            return;
        }
        if self.entries[self.used].is_none() {
            self.passed += 1;
        }
        self.used += 1;
    }

    /// The finished cells.
    pub fn into_cells(self) -> CellList
        ensures { result ≡ self.done }
    {
        let CellTable {
            mut entries,
            kept,
            used: _,
            sizes: _,
            passed: _,
        } = self;
        entries.truncate(kept);
        CellList::of(entries)
    }
}

// The cell of the row, if it has four different points.
fn tetrahedron_of(row: CellRow) -> Option<Cell>
    ensures { result ≡ tetrahedron row.count (corners_of row.corners) }
{
    if row.count == CORNERS {
        Cell::new(row.corners)
    } else {
        None
    }
}
