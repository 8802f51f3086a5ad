//! Points with whole coordinates, and the range of these.
ghost use Rattle.std.specs.Prelude.{◌≡◌, ◌↔◌, IsTrue, SomeIff};
ghost use Rattle.mesh_base.specs.Place.{IsPlace, IsCoordinate};

use std::marker::Model;

/// The greatest coordinate, 2^30. The least one is its opposite.
pub const MOST_COORDINATE: i32 = 1 << 30;

/// A point. Each of its coordinates is a whole number from -2^30 to 2^30.
#[derive(Clone, Copy, Debug, PartialEq, Eq)]
pub struct Point {
    x: i32,
    y: i32,
    z: i32,
}

impl Model for Point {
    ghost use Rattle.mesh_base.specs.Place.{Place, IsPlace};

    ghost Value = { Place };

    ghost view = { λ p. (p.x, p.y, p.z) };

    ghost invariant = { λ p. IsPlace (p.x, p.y, p.z) };

    ghost inverse = { λ p. record { x = p.0; y = p.1; z = p.2 } };
}

fn is_coordinate(c: i32) -> bool
    ensures { IsTrue result ↔ IsCoordinate c }
{
    -MOST_COORDINATE <= c && c <= MOST_COORDINATE
}

impl Point {
    /// The point of these coordinates. None where one of them is out of range.
    pub fn new(x: i32, y: i32, z: i32) -> Option<Point>
        ensures { SomeIff result (IsPlace (x, y, z)) (x, y, z) }
    {
        if is_coordinate(x) && is_coordinate(y) && is_coordinate(z) {
            Some(Point { x, y, z })
        } else {
            None
        }
    }

    /// The coordinate on the x axis.
    pub fn x(&self) -> i32
        ensures value { result ≡ self.now.0 }
        ensures in_range { IsCoordinate result }
    {
        self.x
    }

    /// The coordinate on the y axis.
    pub fn y(&self) -> i32
        ensures value { result ≡ self.now.1 }
        ensures in_range { IsCoordinate result }
    {
        self.y
    }

    /// The coordinate on the z axis.
    pub fn z(&self) -> i32
        ensures value { result ≡ self.now.2 }
        ensures in_range { IsCoordinate result }
    {
        self.z
    }
}
