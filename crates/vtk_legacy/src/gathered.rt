//! What was read so far.
use crate::fault::MeshFault;
use crate::table::CellTable;
use mesh_base::{CellList, Point, PointList};
use std::alloc::Global;
use std::marker::Model;

/// In which form a text gives its cells.
#[derive(Clone, Copy)]
pub enum CellForm {
    /// Versions 1 to 4: each cell begins with its number of points.
    Counts,
    /// Version 5.1: a list of offsets, and a list of all point numbers.
    Offsets,
}

/// A cell that is read: how many points it has, and the first four.
#[derive(Clone, Copy)]
pub struct CellRow {
    pub count: u32,
    pub corners: [u32; 4],
}

/// A row in work, of which so many point numbers came.
#[derive(Clone, Copy)]
pub struct Filling {
    pub row: CellRow,
    pub at: u32,
}

impl CellRow {
    ghost use Rattle.std.specs.Prelude.{◌≡◌};
    ghost use Rattle.vtk_legacy.specs.Kept.{empty_row, with_corner};

    /// A row of so many points, none of which has come.
    pub fn empty(count: u32) -> CellRow
        ensures { result ≡ empty_row count }
    {
        let corners = [0; 4];
        CellRow { count, corners }
    }

    /// The point number goes to this place, where that is one of the first four.
    pub fn put(&mut self, at: u32, point: u32)
        ensures { self.new ≡ with_corner self.old at point }
    {
        if at < 4 {
            self.corners[at as usize] = point;
        }
    }
}

/// The parts that were read so far.
#[derive(Drop)]
pub struct Gathered {
    form: CellForm,
    number: u32,
    points: Vec<Point>,
    /// How many points the cells have whose numbers come later. They are read from `begun` on.
    sizes: Vec<u32>,
    begun: usize,
    table: CellTable,
}

impl Model for Gathered {
    ghost use Rattle.std.specs.Prelude.{drop, ◌≤◌, length};
    ghost use Rattle.vtk_legacy.specs.Kept.{Parts};

    ghost Value = { Parts };

    ghost view = { λ g. record {
      form = g.form;
      number = g.number;
      points = g.points.items;
      sizes = drop g.begun g.sizes.items;
      rows = g.table.waiting;
      cells = g.table.done;
    } };

    ghost invariant = { λ g. g.begun ≤ length g.sizes.items };
}

impl Gathered {
    ghost use Rattle.std.specs.Prelude.{◌≡◌, ◌∷◌, [], length, map, OnOk, IfErr, IfOk, IsTrue, IsFalse, IsSome, None};
    ghost use Rattle.vtk_legacy.specs.declared.gathered.CellForm.TheVariants.{Counts};
    ghost use Rattle.vtk_legacy.specs.declared.fault.MeshFault.TheVariants.{NoMemory};
    ghost use Rattle.vtk_legacy.specs.Kept.{nothing_in, with_form, with_number, with_points, with_sizes, with_rows, with_next, with_filled, with_first_kept, without_first, ended, bare, empty_row, next_size, first_row, filling_after, got_after};

    /// Nothing was read yet.
    pub fn new(alloc: Global) -> Gathered
        ensures { result ≡ nothing_in Counts }
    {
        Gathered {
            form: CellForm::Counts,
            number: 0,
            points: Vec::new(alloc),
            sizes: Vec::new(alloc),
            begun: 0,
            table: CellTable::new(alloc),
        }
    }

    pub fn form(&self) -> CellForm
        ensures { result ≡ self.now.form }
    {
        self.form
    }

    /// How many points the text says it has.
    pub fn number(&self) -> u32
        ensures { result ≡ self.now.number }
    {
        self.number
    }

    pub fn set_number(&mut self, number: u32)
        ensures { self.new ≡ with_number number self.old }
    {
        self.number = number;
    }

    /// How many cells wait for their types.
    pub fn rows(&self) -> usize
        ensures { result ≡ length self.now.rows }
    {
        self.table.waiting()
    }

    pub fn set_form(&mut self, form: CellForm)
        ensures { self.new ≡ with_form form self.old }
    {
        self.form = form;
    }

    pub fn push_point(&mut self, point: Point) -> Result<(), MeshFault>
        ensures ok { OnOk result (self.new ≡ with_points (point ∷ []) self.old) }
        ensures err { IfErr result (λ e. e ≡ NoMemory) }
    {
        self.points.push(point)?;
        Ok(())
    }

    /// One more cell has so many points, whose numbers come later.
    pub fn push_size(&mut self, size: u32) -> Result<(), MeshFault>
        ensures ok { OnOk result (self.new ≡ with_sizes (size ∷ []) self.old) }
        ensures err { IfErr result (λ e. e ≡ NoMemory) }
    {
        self.sizes.push(size)?;
        Ok(())
    }

    /// One more cell has all its numbers.
    pub fn push_row(&mut self, row: CellRow) -> Result<(), MeshFault>
        ensures ok { OnOk result (self.new ≡ with_rows (ended row ∷ []) self.old) }
        ensures err { IfErr result (λ e. e ≡ NoMemory) }
    {
        self.table.push(row)
    }

    /// Begins the next row that has points. Those before it have all their numbers.
    pub fn next_row(&mut self) -> Result<CellRow, MeshFault>
        ensures row { IfOk result (λ row. row ≡ empty_row (next_size self.old.sizes)) }
        ensures ok { OnOk result (self.new ≡ with_next self.old) }
        ensures err { IfErr result (λ e. e ≡ NoMemory) }
    {
        while self.begun < self.sizes.len() {
            let size = self.sizes[self.begun];
            if size > 0 {
                self.begun += 1;
                return Ok(CellRow::empty(size));
            }
            self.table.push(CellRow::empty(0))?;
            self.begun += 1;
        }
        Ok(CellRow::empty(0))
    }

    /// The rows that haven't begun get no numbers.
    pub fn push_rest(&mut self) -> Result<(), MeshFault>
        ensures ok { OnOk result (self.new ≡ with_filled (map bare self.old.sizes) self.old) }
        ensures err { IfErr result (λ e. e ≡ NoMemory) }
    {
        while self.begun < self.sizes.len() {
            self.table.push(CellRow::empty(self.sizes[self.begun]))?;
            self.begun += 1;
        }
        Ok(())
    }

    /// The point number goes into the row in work, or where that is full into the next one.
    pub fn fill(&mut self, filling: Filling, point: u32) -> Result<Filling, MeshFault>
        ensures filling { IfOk result (λ after. after ≡ filling_after filling point self.old.sizes) }
        ensures ok { OnOk result (self.new ≡ got_after filling self.old) }
        ensures err { IfErr result (λ e. e ≡ NoMemory) }
    {
        let Filling { mut row, mut at } = filling;
        if at >= row.count {
            self.push_row(row)?;
            row = self.next_row()?;
            at = 0;
        }
        row.put(at, point);
        Ok(Filling { row, at: at + 1 })
    }

    /// How many points the first cell has that waits for its type.
    pub fn first_size(&self) -> u32
        ensures { result ≡ (first_row self.now.rows).size }
    {
        self.table.first_size()
    }

    /// The first cell that waits is finished, if it has four different points. Says whether it has.
    pub fn keep_first(&mut self) -> bool
        ensures yes { IsTrue result → (self.new ≡ with_first_kept self.old) × ((first_row self.old.rows).size ≡ 4)
            × IsSome (first_row self.old.rows).cell }
        ensures no { IsFalse result → (self.new ≡ self.old) × ((first_row self.old.rows).cell ≡ None) }
    {
        self.table.keep_first()
    }

    /// The first cell that waits is left out.
    pub fn skip_first(&mut self)
        ensures { self.new ≡ without_first self.old }
    {
        self.table.skip_first();
    }

    /// The points and the cells.
    pub fn into_lists(self) -> (PointList, CellList)
        ensures points { result.0 ≡ self.points }
        ensures cells { result.1 ≡ self.cells }
    {
        let Gathered {
            form: _,
            number: _,
            points,
            sizes: _,
            begun: _,
            table,
        } = self;
        (PointList::of(points), table.into_cells())
    }
}
