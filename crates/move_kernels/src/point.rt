//! Points whose coordinates are held in range.
ghost use Rattle.std.specs.Prelude.{◌≡◌};
ghost use Rattle.mesh_base.specs.Place.{IsCoordinate};
ghost use Rattle.mesh_base.specs.Kernel.{held, held_place};

use mesh_base::{MOST_COORDINATE, Point};

const MOST: i64 = MOST_COORDINATE as i64;

// The coordinate in range that is nearest to c.
fn held(c: i64) -> i32
    ensures value { result ≡ held c }
    ensures in_range { IsCoordinate result }
{
    c.clamp(-MOST, MOST) as i32
}

/// The point of these coordinates, each held in range.
pub fn held_point(x: i64, y: i64, z: i64) -> Point
    ensures { result ≡ held_place (x, y, z) }
{
    Point::new(held(x), held(y), held(z)).unwrap()
}
