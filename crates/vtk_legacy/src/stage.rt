//! Where a reader stands.

use crate::coordinate::Coordinate;
use crate::gathered::{CellRow, Filling};

/// Where a reader stands within a FIELD block. The numbers of arrays count those after the one that is being read.
#[derive(Clone, Copy)]
pub enum Block {
    Name,
    Count,
    ArrayName { after: u32 },
    ArrayComponents { after: u32 },
    ArrayTuples { after: u32, components: u32 },
    ArrayType { after: u32, values: u64 },
    /// So many values come after the next one.
    ArrayValues { after: u32, more: u64 },
}

/// What comes behind the blocks.
#[derive(Clone, Copy)]
pub enum Section {
    Points,
    Cells,
    /// So many point numbers.
    Connectivity { numbers: u32 },
    Types,
    Attributes,
}

/// Which token or line a reader wants next. `more` counts what comes after the next one.
#[derive(Clone, Copy)]
pub enum Stage {
    /// The first line.
    Version,
    /// The second line.
    Title,
    Format,
    Dataset,
    Grid,
    /// Between two blocks.
    Between {
        section: Section,
    },
    Within {
        section: Section,
        block: Block,
    },
    /// Behind the word METADATA.
    MetadataLine {
        section: Section,
    },
    /// Up to a line of blanks.
    MetadataLines {
        section: Section,
    },
    PointCount,
    PointType {
        count: u32,
    },
    PointX {
        more: u32,
    },
    PointY {
        more: u32,
        x: Coordinate,
    },
    PointZ {
        more: u32,
        x: Coordinate,
        y: Coordinate,
    },
    CellCount,
    CellSize {
        cells: u32,
    },
    /// The count in front of a cell. So much room is left of the size, which stands at this place.
    CellHead {
        more: u32,
        room: u64,
        place: u64,
    },
    /// A point number of this cell, behind which so many cells come.
    CellPoint {
        row: CellRow,
        more: u32,
        cells: u32,
        room: u64,
        place: u64,
    },
    OffsetCount,
    NumberCount {
        offsets: u32,
    },
    /// Without offsets the word OFFSETS may be missing.
    MaybeOffsets,
    OffsetWord {
        offsets: u32,
        numbers: u32,
    },
    OffsetType {
        offsets: u32,
        numbers: u32,
    },
    Offset {
        more: u32,
        first: bool,
        before: u32,
        numbers: u32,
    },
    NumberType {
        numbers: u32,
    },
    /// A point number that goes into this row, or behind it.
    Number {
        more: u32,
        filling: Filling,
    },
    TypeCount,
    CellType {
        more: u32,
    },
    /// The rest of the text is passed over.
    Passed,
}
