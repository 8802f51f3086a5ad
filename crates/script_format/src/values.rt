//! The values of a line, from the left to the right.
ghost use Rattle.std.specs.Prelude.{◌≡◌, ◌≤◌, ◌≤ℤ◌, pos, IfOk, Ok};
ghost use Rattle.mesh_base.specs.Place.{IsCoordinate, IsPlace};
ghost use Rattle.script_format.specs.Reads.{Reads};
ghost use Rattle.script_format.specs.ScriptText.{words, signed as signed_values, number, coordinate, place, corners, axis_of, area_of};

use crate::cuts::next_word;
use mesh_base::{Axis, BoxQ, Point};
use oct_text::{CountFault, signed};
use run_script::ScriptKind;

/// A signed number in its range, and what is left of the line.
#[derive(Clone, Copy)]
pub struct Signed<'a> {
    pub value: i32,
    pub rest: &'a [u8],
}

/// A number in its range, and what is left of the line.
#[derive(Clone, Copy)]
pub struct Natural<'a> {
    pub value: u32,
    pub rest: &'a [u8],
}

/// Three coordinates, and what is left of the line.
#[derive(Clone, Copy)]
pub struct Placed<'a> {
    pub x: i32,
    pub y: i32,
    pub z: i32,
    pub rest: &'a [u8],
}

/// The point at coordinates that were read.
pub fn point(placed: Placed<'_>) -> Point
    requires { IsPlace (placed.x, placed.y, placed.z) }
    ensures { result ≡ (placed.entry.x, placed.entry.y, placed.entry.z) }
{
    match Point::new(placed.x, placed.y, placed.z) {
        Some(point) => point,
        None => unreachable!(),
    }
}

/// The number that comes next, from `least` to `most`.
pub fn signed_at(values: &[u8], least: i32, most: i32) -> Result<Signed<'_>, ScriptKind>
    ensures reads { Reads (λ r. r.value) (λ r. r.rest.now) result (signed_values least most (words values.now)) }
    ensures within { IfOk result (λ r. (least ≤ℤ r.value) × (r.value ≤ℤ most)) }
{
    let Some(word) = next_word(values) else {
        return Err(ScriptKind::Word);
    };
    match signed(word.front, i64::from(least), i64::from(most)) {
        Ok(value) => Ok(Signed {
            value: value as i32,
            rest: word.rest,
        }),
        Err(CountFault::Bad) => Err(ScriptKind::Number),
        Err(CountFault::Over) => Err(ScriptKind::Range),
    }
}

/// The number that comes next, from 0 to `most`.
pub fn natural_at(values: &[u8], most: u32) -> Result<Natural<'_>, ScriptKind>
    ensures reads { Reads (λ r. r.value) (λ r. r.rest.now) result (number most (words values.now)) }
    ensures within { IfOk result (λ r. r.value ≤ most) }
{
    let Some(word) = next_word(values) else {
        return Err(ScriptKind::Word);
    };
    match signed(word.front, 0, i64::from(most)) {
        Ok(value) => Ok(Natural {
            value: value.unsigned_abs() as u32,
            rest: word.rest,
        }),
        Err(CountFault::Bad) => Err(ScriptKind::Number),
        Err(CountFault::Over) => Err(ScriptKind::Range),
    }
}

/// The number of a point or of a cell.
pub fn index_at(values: &[u8]) -> Result<Natural<'_>, ScriptKind>
    ensures { Reads (λ r. r.value) (λ r. r.rest.now) result (number 4294967295 (words values.now)) }
{
    natural_at(values, u32::MAX)
}

// A coordinate.
fn coordinate_at(values: &[u8]) -> Result<Signed<'_>, ScriptKind>
    ensures reads { Reads (λ r. r.value) (λ r. r.rest.now) result (coordinate (words values.now)) }
    ensures in_range { IfOk result (λ r. IsCoordinate r.value) }
{
    signed_at(values, -(1 << 30), 1 << 30)
}

/// Three coordinates.
#[tactic(auto, unfolding(crate::specs::ScriptText::place))]
pub fn place_at(values: &[u8]) -> Result<Placed<'_>, ScriptKind>
    ensures reads { Reads (λ r. (r.x, r.y, r.z)) (λ r. r.rest.now) result (place (words values.now)) }
    ensures in_range { IfOk result (λ r. IsPlace (r.x, r.y, r.z)) }
{
    let x = coordinate_at(values)?;
    let y = coordinate_at(x.rest)?;
    let z = coordinate_at(y.rest)?;
    Ok(Placed {
        x: x.value,
        y: y.value,
        z: z.value,
        rest: z.rest,
    })
}

/// The four corners of a cell.
#[tactic(auto, unfolding(crate::specs::ScriptText::corners))]
pub fn corners_at(values: &[u8]) -> Result<[u32; 4], ScriptKind>
    ensures { result ≡ corners (words values.now) }
{
    let a = index_at(values)?;
    let b = index_at(a.rest)?;
    let c = index_at(b.rest)?;
    let d = index_at(c.rest)?;
    Ok([a.value, b.value, c.value, d.value])
}

/// An axis.
pub fn axis_at(values: &[u8]) -> Result<Axis, ScriptKind>
    ensures { result ≡ axis_of (words values.now) }
{
    let Some(word) = next_word(values) else {
        return Err(ScriptKind::Word);
    };
    if word.front == b"x".as_slice() {
        return Ok(Axis::X);
    }
    if word.front == b"y".as_slice() {
        return Ok(Axis::Y);
    }
    if word.front == b"z".as_slice() {
        return Ok(Axis::Z);
    }
    Err(ScriptKind::Word)
}

/// The box between two corners.
pub fn area_between(lo: Point, hi: Point) -> Result<BoxQ, ScriptKind>
    ensures { result ≡ area_of lo hi }
{
    match BoxQ::new(lo, hi) {
        Some(area) => Ok(area),
        None => Err(ScriptKind::Box),
    }
}
