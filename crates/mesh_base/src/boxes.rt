//! Boxes with sides along the axes.
ghost use Rattle.std.specs.Prelude.{◌≡◌, ◌+◌, ◌*◌, ◌^◌, ◌≤◌, ◌≤ℤ◌, SomeIff};
ghost use Rattle.mesh_base.specs.Place.{IsArea, IsCoordinate, is_inside, is_between, dist2, gap};

use crate::point::Point;
use std::marker::Model;

/// A box between a low and a high corner. Its six sides belong to it, so it may be as thin as a point.
#[derive(Clone, Copy, Debug, PartialEq, Eq)]
pub struct BoxQ {
    lo: Point,
    hi: Point,
}

impl Model for BoxQ {
    ghost use Rattle.mesh_base.specs.Place.{Area, IsArea};

    ghost Value = { Area };

    ghost view = { λ b. record { lo = b.lo; hi = b.hi } };

    ghost invariant = { λ b. IsArea b.lo b.hi };

    ghost inverse = { λ a. record { lo = a.lo; hi = a.hi } };
}

fn is_from_to(low: i32, high: i32, c: i32) -> bool
    ensures { result ≡ is_between low high c }
{
    low <= c && c <= high
}

// How far c lies outside, on one axis.
fn gap_of(low: i32, high: i32, c: i32) -> u64
    requires low_in { IsCoordinate low }
    requires high_in { IsCoordinate high }
    requires c_in { IsCoordinate c }
    requires ordered { low ≤ℤ high }
    ensures value { result ≡ gap low high c }
    ensures most { result ≤ 2 ^ 31 }
{
    if c < low {
        low.abs_diff(c) as u64
    } else if high < c {
        c.abs_diff(high) as u64
    } else {
        0
    }
}

impl BoxQ {
    /// The box between two corners. None where the low one has a coordinate above that of the high one.
    pub fn new(lo: Point, hi: Point) -> Option<BoxQ>
        ensures { SomeIff result (IsArea lo hi) (record { lo = lo; hi = hi }) }
    {
        if lo.x() <= hi.x() && lo.y() <= hi.y() && lo.z() <= hi.z() {
            Some(BoxQ { lo, hi })
        } else {
            None
        }
    }

    /// The low corner.
    pub fn lo(&self) -> Point
        ensures { result ≡ self.now.lo }
    {
        self.lo
    }

    /// The high corner.
    pub fn hi(&self) -> Point
        ensures { result ≡ self.now.hi }
    {
        self.hi
    }

    /// Whether the point is inside the box or on one of its sides.
    pub fn has(&self, p: Point) -> bool
        ensures { result ≡ is_inside self.now p }
    {
        let x = is_from_to(self.lo.x(), self.hi.x(), p.x());
        let y = is_from_to(self.lo.y(), self.hi.y(), p.y());
        let z = is_from_to(self.lo.z(), self.hi.z(), p.z());
        x && y && z
    }

    /// The squared distance from the point to the nearest point of the box: 0 for a point inside, and at most 3·2^62.
    pub fn dist2(&self, p: Point) -> u64
        ensures value { result ≡ dist2 self.now p }
        ensures most { result ≤ 3 * 2 ^ 62 }
    {
        let x = gap_of(self.lo.x(), self.hi.x(), p.x());
        let y = gap_of(self.lo.y(), self.hi.y(), p.y());
        let z = gap_of(self.lo.z(), self.hi.z(), p.z());
        x * x + y * y + z * z
    }
}
