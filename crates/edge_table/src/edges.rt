//! The table of all points.
ghost use Rattle.std.specs.Prelude.{◌≡◌, ℕ, List, Option, Some, None, [], ◌∷◌, ◌++◌, ◌+◌, ◌<◌, ◌≤◌, ◌-◌, false, length, take, IfOk, filter, slice_set, OnOk, OnErr};
ghost use Rattle.std.specs.List.{range_with_len};
ghost use Rattle.mesh_base.specs.Numbers.{IsListOf};
ghost use Rattle.mesh_base.specs.Edit.{cell_at, split_cells};
ghost use Rattle.mesh_base.specs.Mesh.{Corners, IsWithin, AreWithin, are_neighbours, is_vertex};
ghost use Rattle.edge_table.specs.Pairs.{pair_count, pair_share, IsPairsOf, HasCell, HasFreePoint, HasRoom};

use crate::groups::count_cells;
use crate::row::{Row, row_inside};
use crate::table::{put_pairs, reserve_pairs, split_pairs, take_pairs};
use mesh_base::{Cell, MOST_CELLS, NoMemory};
use smallvec::SmallVec;
use std::alloc::Global;
use std::marker::Model;

/// The neighbours of each point in ascending order, and beside each how many live cells have both.
///
/// A point takes 176 bytes while it has at most 15 neighbours. The lists of a point with more have allocations of their
/// own, which they keep as long as the point is there.
#[derive(Drop)]
pub struct EdgeTable {
    rows: Vec<Row>,
}

impl Model for EdgeTable {
    ghost use Rattle.std.specs.Prelude.{List};
    ghost use Rattle.edge_table.specs.Pairs.{RowView};

    ghost Value = { List RowView };

    ghost use Rattle.edge_table.specs.Rows.{shown, AreRows};

    ghost view = { λ t. shown t.rows.items };

    ghost invariant = { λ t. AreRows (shown t.rows.items) };
}

impl EdgeTable {
    /// The table of these cells, of which the absent ones count for nothing. It takes room for all points at once.
    ///
    /// It passes twice over the cells, and looks at each cell again for each range of points that it has corners in. It
    /// counts the neighbours of one point after the other, and searches a row once for each.
    pub fn build(alloc: Global, points: u32, cells: &[Option<Cell>]) -> Result<EdgeTable, NoMemory>
        requires few_cells { length cells.now ≤ MOST_CELLS }
        requires within { AreWithin points cells.now }
        ensures points { IfOk result (λ table. length table ≡ points) }
        ensures cells { IfOk result (IsPairsOf cells.now) }
    {
        let mut table = EdgeTable::with_points(alloc, points)?;
        count_cells(alloc, &mut table.rows, points, cells)?;
        Ok(table)
    }

    // A table of points that no cell has.
    fn with_points(alloc: Global, points: u32) -> Result<EdgeTable, NoMemory>
        ensures points { IfOk result (λ table. length table ≡ points) }
        ensures empty { IfOk result (λ table. (v w : ℕ) → pair_count table v w ≡ 0) }
    {
        let mut table = EdgeTable {
            rows: Vec::with_capacity(alloc, points as usize)?,
        };
        for _point in 0..points {
            table.put_point(alloc)?;
        }
        Ok(table)
    }

    /// Adds a point that no cell has, with the next number. After NoMemory the table is as it was. It takes memory only
    /// where the table of points has to grow, which doubles.
    pub fn put_point(&mut self, alloc: Global) -> Result<(), NoMemory>
        ensures points { OnOk result (length self.new ≡ length self.old + 1) }
        ensures rows { OnOk result (self.new ≡ self.old ++ ([], []) ∷ []) }
        ensures cells { OnOk result ((cells : List (Option Corners)) →
            IsPairsOf cells self.old → IsPairsOf cells self.new) }
        ensures err { OnErr result (self.new ≡ self.old) }
    {
        self.rows.reserve(1)?;
        self.rows.push_reserved(Row {
            near: SmallVec::new(alloc),
            counts: SmallVec::new(alloc),
        });
        Ok(())
    }

    /// Puts in a cell, whose corners are points of the table. The same cell may be put in again: each counts.
    ///
    /// It searches twelve times in lists of neighbours, and makes at most twelve insertions. It takes memory, from the
    /// allocator that the lists keep, only where one of the four lists has to grow, and does so before any change.
    /// After NoMemory the table is as it was.
    pub fn put_cell(&mut self, _alloc: Global, cell: Cell) -> Result<(), NoMemory>
        requires room { HasRoom self.old }
        requires within { IsWithin (length self.old) cell }
        ensures points { length self.new ≡ length self.old }
        ensures pairs { OnOk result ((v u : ℕ) →
            pair_count self.new v u ≡ pair_count self.old v u + pair_share cell v u) }
        ensures cells { OnOk result ((cells : List (Option Corners)) →
            IsPairsOf cells self.old → IsPairsOf (cells ++ Some cell ∷ []) self.new) }
        ensures err { OnErr result (self.new ≡ self.old) }
    {
        reserve_pairs(&mut self.rows, &cell, 3)?;
        put_pairs(&mut self.rows, &cell);
        Ok(())
    }

    /// Takes out a cell that is in. It searches twelve times in lists of neighbours, makes at most twelve removals, and
    /// takes no memory.
    pub fn take_cell(&mut self, cell: Cell)
        requires there { HasCell self.old cell }
        ensures points { length self.new ≡ length self.old }
        ensures pairs { (v u : ℕ) → pair_count self.new v u + pair_share cell v u ≡ pair_count self.old v u }
        ensures cells { (cells : List (Option Corners)) (i : ℕ) →
            IsPairsOf cells self.old → cell_at cells i ≡ Some cell → IsPairsOf (slice_set cells i None) self.new }
    {
        take_pairs(&mut self.rows, &cell);
    }

    /// Replaces a cell that is in by the four that have a new point in place of one of its corners. The point gets the
    /// next number. After NoMemory the table is as it was.
    ///
    /// It searches twelve times in lists of neighbours, and appends the point to four. It takes memory, before any
    /// change, only where one of the four lists or the table of points has to grow.
    pub fn split_cell(&mut self, alloc: Global, point: u32, cell: Cell) -> Result<(), NoMemory>
        requires next { point ≡ length self.old }
        requires room { HasRoom self.old }
        requires there { HasCell self.old cell }
        ensures points { OnOk result (length self.new ≡ point + 1) }
        ensures cells { OnOk result ((cells : List (Option Corners)) (i : ℕ) →
            IsPairsOf cells self.old → cell_at cells i ≡ Some cell
            → IsPairsOf (split_cells cells point i cell) self.new) }
        ensures err { OnErr result (self.new ≡ self.old) }
    {
        let corners = cell.corners();
        reserve_pairs(&mut self.rows, &cell, 1)?;
        self.rows.reserve(1)?;
        split_pairs(&mut self.rows, point, &cell);
        self.rows.push_reserved(row_inside(alloc, corners));
        Ok(())
    }

    /// Takes away the last point, which no cell has. It takes no memory, and costs the same for each table.
    pub fn drop_point(&mut self)
        requires some { 0 < length self.old }
        requires free { HasFreePoint self.old }
        ensures rows { self.new ≡ take (length self.old - 1) self.old }
        ensures points { length self.new + 1 ≡ length self.old }
        ensures cells { (cells : List (Option Corners)) →
            is_vertex cells (length self.old - 1) ≡ false → IsPairsOf cells self.old → IsPairsOf cells self.new }
    {
        let count = self.rows.len();
        self.rows.truncate(count - 1);
    }

    /// The neighbours of point v, ascending: the other corners of the live cells that have it. Nothing is searched or
    /// copied.
    pub fn neighbours(&self, v: u32) -> &[u32]
        requires { v < length self.now }
        ensures listed { IsListOf (λ w. 0 < pair_count self.now v w) result.now }
        ensures cells { (cells : List (Option Corners)) → IsPairsOf cells self.now
            → result.now ≡ filter (are_neighbours cells v) (range_with_len 0 (length self.now)) }
    {
        self.rows[v as usize].near.as_slice()
    }
}
