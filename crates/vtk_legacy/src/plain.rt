//! Parts that are spelled plainly: a short cut in front of the steps by single tokens.
//!
//! Each call looks ahead and takes a whole part (a point, a cell of four points, the type of a tetrahedron, an offset
//! or a point number) where the steps by tokens would take it with the same outcome. A part in another spelling, one
//! that is faulty or not there as a whole, and the last part of its section are left to those steps: so they alone tell
//! faults and ends of sections.
ghost use Rattle.std.specs.Prelude.{◌≡◌, ℕ, ◌-◌, ◌<◌, length, IfSome, IsTrue, IsFalse, false};
ghost use Rattle.vtk_legacy.specs.Kept.{AreBelow};
ghost use Rattle.vtk_legacy.specs.Machine.{Steps, StepsTo, Passes, PassesTo};

use crate::fault::MeshFault;
use crate::gathered::{CellRow, Filling, Gathered};
use crate::stage::Stage;
use crate::table::CORNERS;
use mesh_base::Point;
use oct_text::Tokens;

/// The type of a tetrahedron.
const TETRAHEDRON: u64 = 10;

// The corners, where each is below the number of points.
fn corners_below(values: [u64; 4], number: u32) -> Option<[u32; 4]>
    ensures { IfSome result (λ corners. (corners ≡ values) × AreBelow number values × (length values ≡ 4)) }
{
    let [a, b, c, d] = values;
    let number = u64::from(number);
    if a < number && b < number && c < number && d < number {
        Some([a as u32, b as u32, c as u32, d as u32])
    } else {
        None
    }
}

// Takes a point, where one is ahead, and says whether one was.
fn take_point(tokens: &mut Tokens, got: &mut Gathered, more: u32) -> Result<bool, MeshFault>
    requires { 0 < more }
    ensures { Steps (Stage.PointX more) got.old tokens.old result (Stage.PointX (more - 1)) got.new tokens.new }
{
    let Some(ahead) = tokens.point_ahead() else {
        return Ok(false);
    };
    let Some(point) = Point::new(ahead.x, ahead.y, ahead.z) else {
        return Ok(false);
    };
    got.push_point(point)?;
    tokens.pass(ahead.len);
    Ok(true)
}

/// Takes points as long as one is ahead, but for the last. Where none is, this costs one look ahead.
pub fn take_points(tokens: &mut Tokens, got: &mut Gathered, more: u32) -> Result<Stage, MeshFault>
    ensures { PassesTo (Stage.PointX more) got.old tokens.old result got.new tokens.new }
{
    let mut left = more;
    while left > 0 {
        if !take_point(tokens, got, left)? {
            return Ok(Stage::PointX { more: left });
        }
        left -= 1;
    }
    Ok(Stage::PointX { more: left })
}

// Takes a cell of four points, where one is ahead that fits, and says whether one was.
fn take_row(
    tokens: &mut Tokens,
    got: &mut Gathered,
    more: u32,
    room: u64,
) -> Result<bool, MeshFault>
    requires { 0 < more }
    ensures { (place : ℕ) → Steps (Stage.CellHead more room place) got.old tokens.old result
        (Stage.CellHead (more - 1) (room - 5) place) got.new tokens.new }
{
    if room < 5 {
        return Ok(false);
    }
    let Some(ahead) = tokens.row_ahead(4) else {
        return Ok(false);
    };
    let Some(corners) = corners_below(ahead.values, got.number()) else {
        return Ok(false);
    };
    let row = CellRow {
        count: CORNERS,
        corners,
    };
    got.push_row(row)?;
    tokens.pass(ahead.len);
    Ok(true)
}

/// Takes cells as long as one of four points is ahead, but for the last. Where none is, this costs one look ahead,
/// which ends at the count where that isn't four.
pub fn take_rows(
    tokens: &mut Tokens,
    got: &mut Gathered,
    more: u32,
    room: u64,
    place: u64,
) -> Result<Stage, MeshFault>
    ensures { PassesTo (Stage.CellHead more room place) got.old tokens.old result got.new tokens.new }
{
    let mut left = more;
    let mut space = room;
    while left > 0 {
        if !take_row(tokens, got, left, space)? {
            return Ok(Stage::CellHead {
                more: left,
                room: space,
                place,
            });
        }
        left -= 1;
        space = space.saturating_sub(5);
    }
    Ok(Stage::CellHead {
        more: left,
        room: space,
        place,
    })
}

// Takes the type of a tetrahedron, where that is ahead and fits, and says whether it was.
fn take_type(tokens: &mut Tokens, got: &mut Gathered, more: u32) -> bool
    requires { 0 < more }
    ensures yes { IsTrue result → Passes (Stage.CellType more) got.old tokens.old
        (Stage.CellType (more - 1)) got.new tokens.new }
    ensures no { IsFalse result → (got.new ≡ got.old) × (tokens.new ≡ tokens.old) }
{
    let Some(ahead) = tokens.count_ahead() else {
        return false;
    };
    if ahead.value != TETRAHEDRON {
        return false;
    }
    if !got.keep_first() {
        return false;
    }
    tokens.pass(ahead.len);
    true
}

/// Takes types as long as that of a tetrahedron is ahead, but for the last. Where it isn't, this costs one look ahead.
pub fn take_types(tokens: &mut Tokens, got: &mut Gathered, more: u32) -> Stage
    ensures { Passes (Stage.CellType more) got.old tokens.old result got.new tokens.new }
{
    let mut left = more;
    while left > 0 {
        if !take_type(tokens, got, left) {
            return Stage::CellType { more: left };
        }
        left -= 1;
    }
    Stage::CellType { more: left }
}

// Takes an offset behind the first, where one is ahead that fits, and gives it.
fn take_offset(
    tokens: &mut Tokens,
    got: &mut Gathered,
    more: u32,
    before: u32,
    numbers: u32,
) -> Result<Option<u32>, MeshFault>
    requires { 0 < more }
    ensures { StepsTo (Stage.Offset more false before numbers) got.old tokens.old
        (λ offset. Stage.Offset (more - 1) false offset numbers) result got.new tokens.new }
{
    let Some(ahead) = tokens.count_ahead() else {
        return Ok(None);
    };
    if ahead.value < u64::from(before) || ahead.value > u64::from(numbers) {
        return Ok(None);
    }
    let offset = ahead.value as u32;
    got.push_size(offset - before)?;
    tokens.pass(ahead.len);
    Ok(Some(offset))
}

/// Takes offsets as long as one is ahead, but for the last. Where none is, this costs one look ahead.
pub fn take_offsets(
    tokens: &mut Tokens,
    got: &mut Gathered,
    more: u32,
    before: u32,
    numbers: u32,
) -> Result<Stage, MeshFault>
    ensures { PassesTo (Stage.Offset more false before numbers) got.old tokens.old result got.new tokens.new }
{
    let mut left = more;
    let mut last = before;
    while left > 0 {
        match take_offset(tokens, got, left, last, numbers)? {
            Some(offset) => last = offset,
            None => {
                return Ok(Stage::Offset {
                    more: left,
                    first: false,
                    before: last,
                    numbers,
                });
            }
        }
        left -= 1;
    }
    Ok(Stage::Offset {
        more: left,
        first: false,
        before: last,
        numbers,
    })
}

// Takes a point number, where one is ahead that fits, and gives the row that it went into.
fn take_number(
    tokens: &mut Tokens,
    got: &mut Gathered,
    more: u32,
    filling: Filling,
) -> Result<Option<Filling>, MeshFault>
    requires { 0 < more }
    ensures { StepsTo (Stage.Number more filling) got.old tokens.old
        (λ after. Stage.Number (more - 1) after) result got.new tokens.new }
{
    let Some(ahead) = tokens.count_ahead() else {
        return Ok(None);
    };
    if ahead.value >= u64::from(got.number()) {
        return Ok(None);
    }
    let after = got.fill(filling, ahead.value as u32)?;
    tokens.pass(ahead.len);
    Ok(Some(after))
}

/// Takes point numbers as long as one is ahead, but for the last. Where none is, this costs one look ahead.
pub fn take_numbers(
    tokens: &mut Tokens,
    got: &mut Gathered,
    more: u32,
    filling: Filling,
) -> Result<Stage, MeshFault>
    ensures { PassesTo (Stage.Number more filling) got.old tokens.old result got.new tokens.new }
{
    let mut left = more;
    let mut here = filling;
    while left > 0 {
        match take_number(tokens, got, left, here)? {
            Some(after) => here = after,
            None => {
                return Ok(Stage::Number {
                    more: left,
                    filling: here,
                });
            }
        }
        left -= 1;
    }
    Ok(Stage::Number {
        more: left,
        filling: here,
    })
}
