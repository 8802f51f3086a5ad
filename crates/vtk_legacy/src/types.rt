//! The types of the cells.
ghost use Rattle.std.specs.Prelude.{◌≡◌, true, Ok, Err};
ghost use Rattle.oct_text.specs.Rest.{Left};
ghost use Rattle.oct_text.specs.Taken.{token_taken};
ghost use Rattle.vtk_legacy.specs.MeshText.{size_fits, tested, known_type};
ghost use Rattle.vtk_legacy.specs.Kept.{Parts};
ghost use Rattle.vtk_legacy.specs.Machine.{Moves, goes_on, taking, in_types};
ghost use Rattle.vtk_legacy.specs.Outcome.{Agrees};
ghost use Rattle.oct_text.specs.Numbers.{is_numeral};
ghost use Rattle.std.specs.Str.Parse.{digits_value};

use crate::fault::{MeshFault, MeshKind};
use crate::gathered::Gathered;
use crate::stage::{Section, Stage};
use crate::values::{COUNT_MAX, count_at, fault};
use oct_text::{CountFault, count};

/// Where so many types are left.
#[tactic(auto, unfolding(crate::specs::Machine::goes_on), using(crate::proofs::StepLemmas::in_types_none))]
fn types_left(count: u32) -> Stage
    ensures { (got : Parts) (l : Left) → goes_on result got l ≡ in_types count got l }
{
    if count == 0 {
        Stage::Between {
            section: Section::Attributes,
        }
    } else {
        Stage::CellType { more: count - 1 }
    }
}

/// The number of the cells again.
#[tactic(auto, unfolding(crate::specs::Machine::goes_on, crate::specs::Machine::taking))]
pub fn type_count_step(got: &Gathered, place: u64, text: &[u8]) -> Result<Stage, MeshFault>
    ensures { Moves (λ after. taking Stage.TypeCount got.now (token_taken place text.now, after)) result got.now }
{
    let count = count_at(place, text, COUNT_MAX)?;
    if count != got.rows() as u64 {
        return fault(MeshKind::Count, place);
    }
    Ok(types_left(count as u32))
}

/// Whether a cell of this type can have so many points.
fn fits_size(kind: u64, count: u32) -> bool
    ensures { result ≡ size_fits kind count }
{
    match kind {
        1 => count == 1,
        3 => count == 2,
        5 => count == 3,
        8 | 9 | 10 => count == 4,
        _ => true,
    }
}

/// A type, from 1 to 10, of a cell with so many points.
#[tactic(auto, unfolding(oct_text::specs::Numbers::count_of))]
fn type_at(place: u64, text: &[u8], size: u32) -> Result<u64, MeshFault>
    ensures { (after : Left) → let v = digits_value 10 text.now in Agrees (λ kind. (kind, after)) result
        (tested (is_numeral text.now) (known_type v) (size_fits v size) true v (token_taken place text.now, after)) }
{
    let kind = match count(text, u64::MAX) {
        Ok(kind) => kind,
        Err(CountFault::Bad) => return fault(MeshKind::Number, place),
        Err(CountFault::Over) => return fault(MeshKind::CellType, place),
    };
    if kind == 0 || kind > 10 {
        return fault(MeshKind::CellType, place);
    }
    if fits_size(kind, size) {
        Ok(kind)
    } else {
        fault(MeshKind::CellSize, place)
    }
}

/// The type of a cell: a tetrahedron is one more cell of the mesh.
#[tactic(auto, unfolding(crate::specs::Machine::goes_on, crate::specs::Machine::taking))]
pub fn type_step(more: u32, got: &mut Gathered, place: u64, text: &[u8]) -> Result<Stage, MeshFault>
    ensures { Moves (λ after. taking (Stage.CellType more) got.old (token_taken place text.now, after)) result got.new }
{
    if type_at(place, text, got.first_size())? != 10 {
        got.skip_first();
        return Ok(types_left(more));
    }
    if !got.keep_first() {
        return fault(MeshKind::SameVertex, place);
    }
    Ok(types_left(more))
}
