//! The buffer for the corners of one range after the other.
ghost use Rattle.std.specs.Prelude.{◌≡◌, [], ◌+◌, ◌*◌, ◌<◌, ◌≤◌, length, IfOk, OnOk, OnErr};
ghost use Rattle.corner_ranges.specs.Ranges.{corners_in, AreSlotsOf};

use crate::slots::{fill_slots, first_slots};
use crate::visits::list_cells;
use crate::{Corner, RANGE};
use mesh_base::{Cell, MOST_CELLS, NoMemory};
use std::alloc::Global;
use std::marker::Model;

// How many ranges so many points have.
fn count_ranges(points: u32) -> u32
    ensures covers { points ≤ result * 32768 }
    ensures needed { result * 32768 < points + 32768 }
{
    points.div_ceil(RANGE)
}

/// A buffer for the corners of the live cells at the points of a range, which is filled anew for each range.
///
/// It takes four bytes for each point, 20 for each corner of the range with the most, and four to eight for each cell
/// and each range that the cell has corners in.
#[derive(Drop)]
pub struct CornerRanges<'a> {
    cells: &'a [Option<Cell>],
    count: u32,
    starts: Vec<u32>,
    visits: Vec<Vec<u32>>,
    next: Vec<u32>,
    slots: Vec<Option<Corner>>,
}

impl<'a> Model for CornerRanges<'a> {
    ghost use Rattle.corner_ranges.specs.Ranges.{Buffer};

    ghost Value = { Buffer };

    ghost use Rattle.std.specs.Prelude.{◌≡◌, length};
    ghost use Rattle.corner_ranges.specs.Visits.{HaveRanges};

    ghost view = { λ t. record { cells = t.cells.now; count = t.count; slots = t.slots.items } };

    ghost invariant = { λ t. (length t.visits.items ≡ t.count) × HaveRanges t.cells.now t.count t.visits.items };
}

impl<'a> CornerRanges<'a> {
    /// An empty buffer for these cells over so many points. It passes twice over the cells and once over the points.
    ///
    /// Corners past the points belong to no range that is counted, or stand behind the others of theirs.
    pub fn new(
        alloc: Global,
        points: u32,
        cells: &'a [Option<Cell>],
    ) -> Result<CornerRanges<'a>, NoMemory>
        requires few_cells { length cells.now ≤ MOST_CELLS }
        ensures cells { IfOk result (λ ranges. ranges.cells ≡ cells.now) }
        ensures covers { IfOk result (λ ranges. points ≤ ranges.count * 32768) }
        ensures needed { IfOk result (λ ranges. ranges.count * 32768 < points + 32768) }
        ensures slots { IfOk result (λ ranges. ranges.slots ≡ []) }
    {
        let count = count_ranges(points);
        Ok(CornerRanges {
            cells,
            count,
            starts: first_slots(alloc, points, cells)?,
            visits: list_cells(alloc, count, cells)?,
            next: Vec::new(alloc),
            slots: Vec::new(alloc),
        })
    }

    /// How many ranges the points have.
    pub fn count(&self) -> u32
        ensures { result ≡ self.now.count }
    {
        self.count
    }

    /// Fills the buffer with the corners at the points of the range, and with nothing else. After `NoMemory` it is
    /// empty.
    ///
    /// It looks at the cells with a corner in the range, in their order, and takes memory only for a range with more
    /// corners than each before it.
    pub fn fill(&mut self, range: u32) -> Result<(), NoMemory>
        requires there { range < self.old.count }
        ensures cells { self.new.cells ≡ self.old.cells }
        ensures count { self.new.count ≡ self.old.count }
        ensures corners { OnOk result (AreSlotsOf (corners_in range self.old.cells) self.new.slots) }
        ensures err { OnErr result (self.new.slots ≡ []) }
    {
        let numbers = &self.visits[range as usize];
        let filled = fill_slots(
            &self.starts,
            &mut self.next,
            &mut self.slots,
            self.cells,
            numbers,
            range,
        );
        if filled.is_err() {
            self.slots.clear();
        }
        filled
    }

    /// The slots, of which some may be empty. The corners of each point stand side by side, the points in ascending
    /// order. It costs nothing.
    pub fn slots(&self) -> &[Option<Corner>]
        ensures { result.now ≡ self.now.slots }
    {
        self.slots.as_slice()
    }
}
