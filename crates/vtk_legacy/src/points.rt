//! The points.
ghost use Rattle.std.specs.Prelude.{◌≡◌};
ghost use Rattle.oct_text.specs.Rest.{Left};
ghost use Rattle.oct_text.specs.Taken.{token_taken};
ghost use Rattle.vtk_legacy.specs.Kept.{Parts};
ghost use Rattle.vtk_legacy.specs.Machine.{Moves, goes_on, taking, in_places};

use crate::coordinate::Coordinate;
use crate::fault::{MeshFault, MeshKind};
use crate::gathered::Gathered;
use crate::stage::{Section, Stage};
use crate::values::{POINTS_MAX, coordinate_at, count_at, fault};
use mesh_base::Point;

/// Where so many points are left.
#[tactic(auto, unfolding(crate::specs::Machine::goes_on), using(crate::proofs::StepLemmas::in_places_none))]
pub fn points_left(count: u32) -> Stage
    ensures { (got : Parts) (l : Left) → goes_on result got l ≡ in_places count got l }
{
    if count == 0 {
        Stage::Between {
            section: Section::Cells,
        }
    } else {
        Stage::PointX { more: count - 1 }
    }
}

#[tactic(auto, unfolding(crate::specs::Machine::goes_on, crate::specs::Machine::taking))]
pub fn point_count_step(got: &mut Gathered, place: u64, text: &[u8]) -> Result<Stage, MeshFault>
    ensures { Moves (λ after. taking Stage.PointCount got.old (token_taken place text.now, after)) result got.new }
{
    let count = count_at(place, text, POINTS_MAX)? as u32;
    got.set_number(count);
    Ok(Stage::PointType { count })
}

/// The last coordinate of a point.
#[tactic(auto, unfolding(crate::specs::Machine::goes_on, crate::specs::Machine::taking))]
pub fn z_step(
    more: u32,
    x: Coordinate,
    y: Coordinate,
    got: &mut Gathered,
    place: u64,
    text: &[u8],
) -> Result<Stage, MeshFault>
    ensures { Moves (λ after. taking (Stage.PointZ more x y) got.old
        (token_taken place text.now, after)) result got.new }
{
    let z = coordinate_at(place, text)?;
    match Point::new(x.value(), y.value(), z.value()) {
        Some(point) => {
            got.push_point(point)?;
            Ok(points_left(more))
        }
        None => fault(MeshKind::Range, place),
    }
}
