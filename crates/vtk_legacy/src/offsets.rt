//! The cells of version 5.1.
ghost use Rattle.std.specs.Prelude.{◌≡◌};
ghost use Rattle.oct_text.specs.Rest.{Left};
ghost use Rattle.oct_text.specs.Taken.{token_taken};
ghost use Rattle.vtk_legacy.specs.MeshText.{offset_fits};
ghost use Rattle.vtk_legacy.specs.Kept.{Parts};
ghost use Rattle.vtk_legacy.specs.Machine.{Moves, goes_on, taking, in_offsets, in_numbers, in_filling};

use crate::fault::{MeshFault, MeshKind};
use crate::gathered::{Filling, Gathered};
use crate::stage::{Section, Stage};
use crate::values::{COUNT_MAX, count_at, fault, index_at};

/// How many point numbers there are, behind so many offsets.
#[tactic(auto, unfolding(crate::specs::Machine::goes_on, crate::specs::Machine::taking))]
pub fn number_count_step(offsets: u32, place: u64, text: &[u8]) -> Result<Stage, MeshFault>
    ensures { (got : Parts) → Moves (λ after. taking (Stage.NumberCount offsets) got
        (token_taken place text.now, after)) result got }
{
    let numbers = count_at(place, text, COUNT_MAX)? as u32;
    if offsets > 0 {
        return Ok(Stage::OffsetWord { offsets, numbers });
    }
    if numbers > 0 {
        return fault(MeshKind::Size, place);
    }
    Ok(Stage::MaybeOffsets)
}

/// Where so many offsets are left.
#[tactic(auto, unfolding(crate::specs::Machine::goes_on), using(crate::proofs::StepLemmas::in_offsets_none))]
pub fn offsets_left(count: u32, first: bool, before: u32, numbers: u32) -> Stage
    ensures { (got : Parts) (l : Left) → goes_on result got l ≡ in_offsets count first before numbers got l }
{
    if count == 0 {
        Stage::Between {
            section: Section::Connectivity { numbers },
        }
    } else {
        Stage::Offset {
            more: count - 1,
            first,
            before,
            numbers,
        }
    }
}

/// Whether an offset can follow the one before it.
fn is_offset(first: bool, last: bool, before: u32, numbers: u32, offset: u32) -> bool
    ensures { result ≡ offset_fits first last before numbers offset }
{
    let follows = if first { offset == 0 } else { before <= offset };
    let ends = if last { offset == numbers } else { true };
    follows && offset <= numbers && ends
}

/// An offset: with the one before it it says how many points a cell has.
#[tactic(auto, unfolding(crate::specs::Machine::goes_on, crate::specs::Machine::taking))]
pub fn offset_step(
    more: u32,
    first: bool,
    before: u32,
    numbers: u32,
    got: &mut Gathered,
    place: u64,
    text: &[u8],
) -> Result<Stage, MeshFault>
    ensures { Moves (λ after. taking (Stage.Offset more first before numbers) got.old
        (token_taken place text.now, after)) result got.new }
{
    let offset = count_at(place, text, COUNT_MAX)? as u32;
    if !is_offset(first, more == 0, before, numbers, offset) {
        return fault(MeshKind::Size, place);
    }
    if first {
        return Ok(offsets_left(more, false, offset, numbers));
    }
    got.push_size(offset.saturating_sub(before))?;
    Ok(offsets_left(more, false, offset, numbers))
}

/// Where all of so many point numbers are left.
#[tactic(auto, unfolding(crate::specs::Machine::goes_on), using(crate::proofs::StepLemmas::in_numbers_none, crate::proofs::StepLemmas::in_numbers_some))]
pub fn numbers_left(count: u32, got: &mut Gathered) -> Result<Stage, MeshFault>
    ensures { Moves (in_numbers count got.old) result got.new }
{
    if count == 0 {
        got.push_rest()?;
        return Ok(Stage::Between {
            section: Section::Types,
        });
    }
    let row = got.next_row()?;
    Ok(Stage::Number {
        more: count - 1,
        filling: Filling { row, at: 0 },
    })
}

/// Where so many point numbers are left, and this row is in work.
#[tactic(auto, unfolding(crate::specs::Machine::goes_on), using(crate::proofs::StepLemmas::in_filling_none))]
fn filling_left(count: u32, filling: Filling, got: &mut Gathered) -> Result<Stage, MeshFault>
    ensures { Moves (in_filling count filling got.old) result got.new }
{
    if count == 0 {
        got.push_row(filling.row)?;
        got.push_rest()?;
        return Ok(Stage::Between {
            section: Section::Types,
        });
    }
    let more = count - 1;
    Ok(Stage::Number { more, filling })
}

/// A point number, which goes into this row or behind it.
#[tactic(auto, unfolding(crate::specs::Machine::goes_on, crate::specs::Machine::taking))]
pub fn number_step(
    more: u32,
    filling: Filling,
    got: &mut Gathered,
    place: u64,
    text: &[u8],
) -> Result<Stage, MeshFault>
    ensures { Moves (λ after. taking (Stage.Number more filling) got.old
        (token_taken place text.now, after)) result got.new }
{
    let point = index_at(place, text, got.number())?;
    let after = got.fill(filling, point)?;
    filling_left(more, after, got)
}
