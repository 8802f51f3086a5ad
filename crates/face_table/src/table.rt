//! The table of faces.
ghost use Rattle.std.specs.Prelude.{◌≡◌, ℕ, List, Option, None, [], ◌∷◌, ◌++◌, ◌+◌, ◌<◌, ◌≤◌, true, false, length, IfOk, count_by, filter, slice_set, OnOk, OnErr};
ghost use Rattle.std.specs.List.{range_with_len};
ghost use Rattle.mesh_base.specs.Edit.{cell_at, split_cells};
ghost use Rattle.mesh_base.specs.Mesh.{Face as PlainFace, Corners, IsWithin, AreWithin, AreAllDifferent, face_eq, faces, count, is_surface};
ghost use Rattle.mesh_base.specs.Numbers.{IsListOf};
ghost use Rattle.face_table.specs.Tally.{tally_of, IsOnSurface, IsTallyOf, HasCell, HasFreePoint, HasRoom};

use crate::face_counts::{FaceCounts, count_split};
use crate::groups::count_cells;
use crate::singles::{list_singles, put_faces, take_faces};
use crate::surface::{list_surface, reserve_point, settle_corners};
use mesh_base::{Cell, Face, MOST_CELLS, MOST_POINTS, NoMemory};
use std::alloc::Global;
use std::marker::Model;

/// How many live cells have each face, and the surface: the vertices on faces that a single live cell has.
///
/// It keeps no cells. Contracts speak of each list of cells of which this is the table, that is, whose faces it counts.
/// It takes 16 bytes for each face of the cells that it is built from, 31 to 62 for each other face that is counted,
/// and 16 to 28 for each point.
#[derive(Drop)]
pub struct FaceTable {
    counts: FaceCounts,
    singles: Vec<usize>,
    surface: Vec<u32>,
    // Whether `reserve_split` made room and nothing came since.
    ready: bool,
}

impl Model for FaceTable {
    ghost use Rattle.std.specs.Prelude.{◌≡◌, true, length};
    ghost use Rattle.face_table.specs.Tally.{Tally, IsFaceTable, HasSplitRoom};

    ghost Value = { Tally };

    ghost view = { λ t. record { points = length t.singles.items; counts = t.counts.entries; ready = t.ready } };

    ghost invariant = { λ t. IsFaceTable t.counts.entries t.singles.items t.surface
        × (t.ready ≡ true → HasSplitRoom t.counts t.singles t.surface) };
}

impl FaceTable {
    /// The table of these cells over points numbered from 0. An absent cell, None, counts for nothing.
    ///
    /// It passes three times over the cells, and looks at each again for each range of points that it has corners in.
    /// It gathers and sorts the faces point by point, and then passes twice over the faces and twice over the points.
    pub fn build(alloc: Global, points: u32, cells: &[Option<Cell>]) -> Result<FaceTable, NoMemory>
        requires few_points { points ≤ MOST_POINTS }
        requires few_cells { length cells.now ≤ MOST_CELLS }
        requires within { AreWithin points cells.now }
        ensures points { IfOk result (λ table. table.points ≡ points) }
        ensures cells { IfOk result (IsTallyOf cells.now) }
        ensures ready { IfOk result (λ table. table.ready ≡ false) }
    {
        let counts = count_cells(alloc, points, cells)?;
        let singles = list_singles(alloc, points, &counts)?;
        let surface = list_surface(alloc, &singles)?;
        Ok(FaceTable {
            counts,
            singles,
            surface,
            ready: false,
        })
    }

    /// How many live cells have the face. It looks the face up once, among the faces with the same least number and in
    /// a map of faces that came later, and takes no memory.
    pub fn tally(&self, face: Face) -> u32
        ensures tally { result ≡ tally_of self.now face }
        ensures cells { (cells : List (Option Corners)) → AreAllDifferent cells → IsTallyOf cells self.now
            → result ≡ count cells face }
    {
        let _numbers = face.numbers();
        self.counts.count_of(&face)
    }

    /// Counts the faces of a cell that comes. After `NoMemory` the table is as it was.
    ///
    /// It looks each of the four faces up once. A corner that comes to the surface or leaves it is found by halving the
    /// surface, and moves what stands after it.
    pub fn put_cell(&mut self, _alloc: Global, cell: Cell) -> Result<(), NoMemory>
        requires room { HasRoom self.old }
        requires within { IsWithin self.old.points cell }
        ensures points { self.new.points ≡ self.old.points }
        ensures tally { OnOk result ((f : PlainFace)
            → tally_of self.new f ≡ tally_of self.old f + count_by (λ g. face_eq g f) (faces cell)) }
        ensures cells { OnOk result ((cells : List (Option Corners)) → IsTallyOf cells self.old
            → IsTallyOf (cells ++ Some cell ∷ []) self.new) }
        ensures ready { OnOk result (self.new.ready ≡ false) }
        ensures err { OnErr result (self.new ≡ self.old) }
    {
        self.counts.reserve(4)?;
        put_faces(&mut self.counts, &mut self.singles, &cell);
        settle_corners(&self.singles, &mut self.surface, &cell);
        self.ready = false;
        Ok(())
    }

    /// Counts the faces of a live cell no more. It costs what `put_cell` does and takes no memory.
    pub fn take_cell(&mut self, cell: Cell)
        requires there { HasCell self.old cell }
        ensures points { self.new.points ≡ self.old.points }
        ensures tally { (f : PlainFace) → tally_of self.new f + count_by (λ g. face_eq g f) (faces cell)
            ≡ tally_of self.old f }
        ensures cells { (cells : List (Option Corners)) (i : ℕ) → IsTallyOf cells self.old
            → cell_at cells i ≡ Some cell → IsTallyOf (slice_set cells i None) self.new }
        ensures ready { self.new.ready ≡ false }
    {
        take_faces(&mut self.counts, &mut self.singles, &cell);
        settle_corners(&self.singles, &mut self.surface, &cell);
        self.ready = false;
    }

    /// Makes room for a split, so that `split_cell` can't be refused. After `NoMemory` the table is as it was.
    ///
    /// It costs nothing to speak of, but where a list has to grow. The room is there until the next change.
    pub fn reserve_split(&mut self, _alloc: Global) -> Result<(), NoMemory>
        ensures points { self.new.points ≡ self.old.points }
        ensures counts { self.new.counts ≡ self.old.counts }
        ensures ready { OnOk result (self.new.ready ≡ true) }
        ensures err { OnErr result (self.new ≡ self.old) }
    {
        self.counts.reserve(6)?;
        reserve_point(&mut self.singles, &mut self.surface)?;
        self.ready = true;
        Ok(())
    }

    /// Replaces a live cell by the four that have a new point in place of one of its corners. `reserve_split` comes
    /// first.
    ///
    /// It looks up six faces, those of the new point that two of the four cells have, and takes no memory. Each face of
    /// the old cell goes to one of the four and keeps its count, so no vertex comes to the surface or leaves it.
    pub fn split_cell(&mut self, point: u32, cell: Cell)
        requires ready { self.old.ready ≡ true }
        requires next { point ≡ self.old.points }
        requires there { HasCell self.old cell }
        ensures points { self.new.points ≡ point + 1 }
        ensures cells { (cells : List (Option Corners)) (i : ℕ) → IsTallyOf cells self.old
            → cell_at cells i ≡ Some cell → IsTallyOf (split_cells cells point i cell) self.new }
        ensures ready { self.new.ready ≡ false }
    {
        count_split(&mut self.counts, point, &cell);
        self.singles.push_reserved(0usize);
        self.ready = false;
    }

    /// One point more, which no cell has. After `NoMemory` the table is as it was.
    ///
    /// It takes the room that the surface needs should every point come to it, so that `take_cell` takes none.
    pub fn put_point(&mut self, _alloc: Global) -> Result<(), NoMemory>
        ensures counts { self.new.counts ≡ self.old.counts }
        ensures points { OnOk result (self.new.points ≡ self.old.points + 1) }
        ensures cells { (cells : List (Option Corners)) → IsTallyOf cells self.old → IsTallyOf cells self.new }
        ensures ready { OnOk result (self.new.ready ≡ false) }
        ensures err { OnErr result (self.new ≡ self.old) }
    {
        reserve_point(&mut self.singles, &mut self.surface)?;
        self.singles.push_reserved(0);
        self.ready = false;
        Ok(())
    }

    /// One point less: the last, which no cell has. It takes no memory and no time to speak of.
    pub fn drop_point(&mut self)
        requires some { 0 < self.old.points }
        requires free { HasFreePoint self.old }
        ensures points { self.new.points + 1 ≡ self.old.points }
        ensures counts { self.new.counts ≡ self.old.counts }
        ensures cells { (cells : List (Option Corners)) → IsTallyOf cells self.old → IsTallyOf cells self.new }
        ensures ready { self.new.ready ≡ false }
    {
        let _len = self.counts.len();
        let count = self.singles.len();
        self.singles.truncate(count - 1);
        self.ready = false;
    }

    /// The vertices of the surface, ascending. It takes no memory and no time to speak of.
    pub fn surface(&self) -> &[u32]
        ensures listed { IsListOf (IsOnSurface self.now) result.now }
        ensures cells { (cells : List (Option Corners)) → AreAllDifferent cells → IsTallyOf cells self.now
            → result.now ≡ filter (is_surface cells) (range_with_len 0 self.now.points) }
    {
        let _len = self.counts.len();
        self.surface.as_slice()
    }
}
