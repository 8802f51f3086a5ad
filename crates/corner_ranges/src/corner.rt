//! Corners of cells.
ghost use Rattle.std.specs.Prelude.{◌≡◌, [], ◌∷◌, slice_get, option_and_then};
ghost use Rattle.std.specs.Option.{option_map};
ghost use Rattle.mesh_base.specs.Mesh.{AreDifferent};

use std::marker::Model;

/// A corner of a cell: its point, and the three other corners in their order.
#[derive(Clone, Copy, Debug, PartialEq, Eq)]
pub struct Corner {
    point: u32,
    first: u32,
    second: u32,
    third: u32,
}

impl Model for Corner {
    ghost use Rattle.mesh_base.specs.Mesh.{Corners, AreDifferent};

    ghost Value = { Corners };

    ghost view = { λ k. (k.point, k.first, k.second, k.third) };

    ghost invariant = { λ k. AreDifferent (k.point, k.first, k.second, k.third) };

    ghost inverse = { λ k. record { point = k.0; first = k.1; second = k.2; third = k.3 } };
}

impl Corner {
    pub(crate) fn new(point: u32, first: u32, second: u32, third: u32) -> Corner
        requires different { AreDifferent (point, first, second, third) }
        ensures { result ≡ (point, first, second, third) }
    {
        Corner {
            point,
            first,
            second,
            third,
        }
    }

    /// The point.
    pub fn point(&self) -> u32
        ensures { result ≡ self.now.0 }
    {
        self.point
    }

    /// The point, and the three others.
    pub fn numbers(&self) -> [u32; 4]
        ensures numbers { result ≡ self.now.0 ∷ self.now.1 ∷ self.now.2 ∷ self.now.3 ∷ [] }
        ensures different { AreDifferent self.now }
    {
        [self.point, self.first, self.second, self.third]
    }
}

/// The point of the corner in slot i, if the slot is there and not empty.
pub fn point_at(slots: &[Option<Corner>], i: usize) -> Option<u32>
    ensures { result ≡ option_and_then (option_map (λ corner. corner.0)) (slice_get slots.now i) }
{
    match slots.get(i) {
        Some(Some(corner)) => Some(corner.point()),
        _ => None,
    }
}
