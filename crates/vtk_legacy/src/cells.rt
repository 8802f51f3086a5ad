//! The cells of versions 1 to 4.
ghost use Rattle.std.specs.Prelude.{◌≡◌};
ghost use Rattle.oct_text.specs.Taken.{token_taken};
ghost use Rattle.vtk_legacy.specs.Kept.{Parts};
ghost use Rattle.vtk_legacy.specs.Machine.{Moves, taking, in_heads, in_row};

use crate::fault::{MeshFault, MeshKind};
use crate::gathered::{CellRow, Gathered};
use crate::stage::{Section, Stage};
use crate::values::{COUNT_MAX, count_at, fault, index_at};

/// Where so many cells are left, with this room, of a size that stands at this place.
#[tactic(auto, unfolding(crate::specs::Machine::goes_on, crate::specs::Machine::in_heads, crate::specs::Machine::in_between, crate::specs::Machine::in_section, crate::specs::MeshText::counted_rows))]
fn cells_left(cells: u32, room: u64, place: u64) -> Result<Stage, MeshFault>
    ensures { (got : Parts) → Moves (in_heads cells room place got) result got }
{
    if cells > 0 {
        let more = cells - 1;
        return Ok(Stage::CellHead { more, room, place });
    }
    if room > 0 {
        return fault(MeshKind::Size, place);
    }
    Ok(Stage::Between {
        section: Section::Types,
    })
}

/// Where so many point numbers of this cell are left.
#[tactic(auto, unfolding(crate::specs::Machine::goes_on, crate::specs::Machine::in_row, crate::specs::MeshText::indices, crate::specs::Kept::fill_last))]
fn row_left(
    row: CellRow,
    count: u32,
    cells: u32,
    room: u64,
    place: u64,
    got: &mut Gathered,
) -> Result<Stage, MeshFault>
    ensures { Moves (in_row row count cells room place got.old) result got.new }
{
    if count == 0 {
        got.push_row(row)?;
        return cells_left(cells, room, place);
    }
    let more = count - 1;
    Ok(Stage::CellPoint {
        row,
        more,
        cells,
        room,
        place,
    })
}

/// The size of all cells.
#[tactic(auto, unfolding(crate::specs::Machine::goes_on, crate::specs::Machine::taking))]
pub fn size_step(cells: u32, place: u64, text: &[u8]) -> Result<Stage, MeshFault>
    ensures { (got : Parts) → Moves (λ after. taking (Stage.CellSize cells) got
        (token_taken place text.now, after)) result got }
{
    let room = count_at(place, text, COUNT_MAX)?;
    cells_left(cells, room, place)
}

/// The count in front of a cell.
#[tactic(auto, unfolding(crate::specs::Machine::goes_on, crate::specs::Machine::taking))]
pub fn head_step(
    more: u32,
    room: u64,
    size_place: u64,
    got: &mut Gathered,
    place: u64,
    text: &[u8],
) -> Result<Stage, MeshFault>
    ensures { Moves (λ after. taking (Stage.CellHead more room size_place) got.old
        (token_taken place text.now, after)) result got.new }
{
    let count = count_at(place, text, COUNT_MAX)?;
    if room < 1 + count {
        return fault(MeshKind::Size, place);
    }
    let left = room - (1 + count);
    let count = count as u32;
    row_left(CellRow::empty(count), count, more, left, size_place, got)
}

/// A point number of this cell.
#[tactic(auto, unfolding(crate::specs::Machine::goes_on, crate::specs::Machine::taking))]
pub fn cell_point_step(
    mut row: CellRow,
    more: u32,
    cells: u32,
    room: u64,
    size_place: u64,
    got: &mut Gathered,
    place: u64,
    text: &[u8],
) -> Result<Stage, MeshFault>
    ensures { Moves (λ after. taking (Stage.CellPoint row more cells room size_place) got.old
        (token_taken place text.now, after)) result got.new }
{
    let point = index_at(place, text, got.number())?;
    let at = row.count.saturating_sub(more).saturating_sub(1);
    row.put(at, point);
    row_left(row, more, cells, room, size_place, got)
}
