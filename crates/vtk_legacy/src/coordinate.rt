//! Coordinates in their range.

use std::marker::Model;

/// A whole coordinate from -2^30 to 2^30.
#[derive(Clone, Copy)]
pub struct Coordinate {
    value: i32,
}

impl Model for Coordinate {
    ghost use Rattle.std.specs.Prelude.{ℤ};
    ghost use Rattle.mesh_base.specs.Place.{IsCoordinate};

    ghost Value = { ℤ };

    ghost view = { λ c. c.value };

    ghost invariant = { λ c. IsCoordinate c.value };

    ghost inverse = { λ z. record { value = z } };
}

impl Coordinate {
    ghost use Rattle.std.specs.Prelude.{◌≡◌};
    ghost use Rattle.mesh_base.specs.Place.{IsCoordinate};

    pub fn new(value: i32) -> Coordinate
        requires { IsCoordinate value }
        ensures { result ≡ value }
    {
        Coordinate { value }
    }

    pub fn value(self) -> i32
        ensures value { result ≡ self }
        ensures in_range { IsCoordinate result }
    {
        self.value
    }
}
