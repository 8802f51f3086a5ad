//! What a token does to a reader.
ghost use Rattle.std.specs.Prelude.{◌≡◌};
ghost use Rattle.oct_text.specs.Taken.{token_taken};
ghost use Rattle.vtk_legacy.specs.Kept.{Parts};
ghost use Rattle.vtk_legacy.specs.Machine.{Moves, goes_on, taking, taking_section, taking_between, in_form};
ghost use Rattle.oct_text.specs.Rest.{Left};

use crate::blocks::block_step;
use crate::cells::{cell_point_step, head_step, size_step};
use crate::fault::{MeshFault, MeshKind};
use crate::gathered::{CellForm, Gathered};
use crate::offsets::{number_count_step, number_step, numbers_left, offset_step, offsets_left};
use crate::points::{point_count_step, points_left, z_step};
use crate::stage::{Block, Section, Stage};
use crate::types::{type_count_step, type_step};
use crate::values::{
    CELLS_MAX, OFFSETS_MAX, coordinate_at, count_at, fault, format_at, numeric_at, word_at,
};
use crate::words::is_word;

/// The first count of the cells in this form.
#[tactic(auto, unfolding(crate::specs::Machine::goes_on))]
fn first_count(form: CellForm) -> Stage
    ensures { (got : Parts) (l : Left) → goes_on result got l ≡ in_form form got l }
{
    match form {
        CellForm::Counts => Stage::CellCount,
        CellForm::Offsets => Stage::OffsetCount,
    }
}

/// The attributes begin.
#[tactic(auto, unfolding(crate::specs::Machine::goes_on, crate::specs::Machine::taking_section))]
fn attributes_step(place: u64, text: &[u8]) -> Result<Stage, MeshFault>
    ensures { (got : Parts) → Moves (λ after. taking_section Section.Attributes got
        (token_taken place text.now, after)) result got }
{
    if is_word(text, b"point_data") || is_word(text, b"cell_data") {
        Ok(Stage::Passed)
    } else {
        fault(MeshKind::Keyword, place)
    }
}

/// What comes behind the blocks begins with this token.
#[tactic(auto, unfolding(crate::specs::Machine::goes_on, crate::specs::Machine::taking_section))]
fn section_step(
    section: Section,
    got: &Gathered,
    place: u64,
    text: &[u8],
) -> Result<Stage, MeshFault>
    ensures { Moves (λ after. taking_section section got.now (token_taken place text.now, after)) result got.now }
{
    match section {
        Section::Points => {
            word_at(place, text, b"points", MeshKind::Keyword)?;
            Ok(Stage::PointCount)
        }
        Section::Cells => {
            word_at(place, text, b"cells", MeshKind::Keyword)?;
            Ok(first_count(got.form()))
        }
        Section::Connectivity { numbers } => {
            word_at(place, text, b"connectivity", MeshKind::Keyword)?;
            Ok(Stage::NumberType { numbers })
        }
        Section::Types => {
            word_at(place, text, b"cell_types", MeshKind::Keyword)?;
            Ok(Stage::TypeCount)
        }
        Section::Attributes => attributes_step(place, text),
    }
}

/// Between two blocks.
#[tactic(auto, unfolding(crate::specs::Machine::goes_on, crate::specs::Machine::taking_between))]
fn between_step(
    section: Section,
    got: &Gathered,
    place: u64,
    text: &[u8],
) -> Result<Stage, MeshFault>
    ensures { Moves (λ after. taking_between section got.now (token_taken place text.now, after)) result got.now }
{
    if is_word(text, b"field") {
        let block = Block::Name;
        return Ok(Stage::Within { section, block });
    }
    if is_word(text, b"metadata") {
        return Ok(Stage::MetadataLine { section });
    }
    section_step(section, got, place, text)
}

/// The word OFFSETS, or what comes behind cells of which there are none.
#[tactic(auto, unfolding(crate::specs::Machine::goes_on, crate::specs::Machine::taking))]
fn maybe_step(got: &Gathered, place: u64, text: &[u8]) -> Result<Stage, MeshFault>
    ensures { Moves (λ after. taking Stage.MaybeOffsets got.now (token_taken place text.now, after)) result got.now }
{
    if is_word(text, b"offsets") {
        return Ok(Stage::OffsetType {
            offsets: 0,
            numbers: 0,
        });
    }
    let section = Section::Types;
    between_step(section, got, place, text)
}

/// Where a word or a type has to come.
#[tactic(auto, unfolding(crate::specs::Machine::goes_on, crate::specs::Machine::taking))]
fn format_step(place: u64, text: &[u8]) -> Result<Stage, MeshFault>
    ensures { (got : Parts) → Moves (λ after. taking Stage.Format got (token_taken place text.now, after)) result got }
{
    format_at(place, text)?;
    Ok(Stage::Dataset)
}

/// With a token the stage goes on to a new one, or to a fault.
#[tactic(auto, unfolding(crate::specs::Machine::goes_on, crate::specs::Machine::taking))]
pub fn step(stage: Stage, got: &mut Gathered, place: u64, text: &[u8]) -> Result<Stage, MeshFault>
    ensures { Moves (λ after. taking stage got.old (token_taken place text.now, after)) result got.new }
{
    match stage {
        Stage::Format => format_step(place, text),
        Stage::Dataset => {
            word_at(place, text, b"dataset", MeshKind::Keyword)?;
            Ok(Stage::Grid)
        }
        Stage::Grid => {
            word_at(place, text, b"unstructured_grid", MeshKind::DataSet)?;
            let section = Section::Points;
            Ok(Stage::Between { section })
        }
        Stage::Between { section } => between_step(section, got, place, text),
        Stage::Within { section, block } => block_step(section, block, place, text),
        Stage::PointCount => point_count_step(got, place, text),
        Stage::PointType { count } => {
            numeric_at(place, text, MeshKind::Keyword)?;
            Ok(points_left(count))
        }
        Stage::PointX { more } => {
            let x = coordinate_at(place, text)?;
            Ok(Stage::PointY { more, x })
        }
        Stage::PointY { more, x } => {
            let y = coordinate_at(place, text)?;
            Ok(Stage::PointZ { more, x, y })
        }
        Stage::PointZ { more, x, y } => z_step(more, x, y, got, place, text),
        Stage::CellCount => {
            let cells = count_at(place, text, CELLS_MAX)? as u32;
            Ok(Stage::CellSize { cells })
        }
        Stage::CellSize { cells } => size_step(cells, place, text),
        Stage::CellHead {
            more,
            room,
            place: size_place,
        } => head_step(more, room, size_place, got, place, text),
        Stage::CellPoint {
            row,
            more,
            cells,
            room,
            place: size_place,
        } => cell_point_step(row, more, cells, room, size_place, got, place, text),
        Stage::OffsetCount => {
            let offsets = count_at(place, text, OFFSETS_MAX)? as u32;
            Ok(Stage::NumberCount { offsets })
        }
        Stage::NumberCount { offsets } => number_count_step(offsets, place, text),
        Stage::MaybeOffsets => maybe_step(got, place, text),
        Stage::OffsetWord { offsets, numbers } => {
            word_at(place, text, b"offsets", MeshKind::Keyword)?;
            Ok(Stage::OffsetType { offsets, numbers })
        }
        Stage::OffsetType { offsets, numbers } => {
            numeric_at(place, text, MeshKind::Keyword)?;
            Ok(offsets_left(offsets, true, 0, numbers))
        }
        Stage::Offset {
            more,
            first,
            before,
            numbers,
        } => offset_step(more, first, before, numbers, got, place, text),
        Stage::NumberType { numbers } => {
            numeric_at(place, text, MeshKind::Keyword)?;
            numbers_left(numbers, got)
        }
        Stage::Number { more, filling } => number_step(more, filling, got, place, text),
        Stage::TypeCount => type_count_step(got, place, text),
        Stage::CellType { more } => type_step(more, got, place, text),
        Stage::Version
        | Stage::Title
        | Stage::MetadataLine { section: _ }
        | Stage::MetadataLines { section: _ }
        | Stage::Passed => Ok(Stage::Passed),
    }
}
