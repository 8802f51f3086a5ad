//! The motions, each over the places before it.
ghost use Rattle.std.specs.Prelude.{◌≡◌, ◌<◌, ◌≤◌, ℕ, ◌^◌, pos, neg_ℤ, ◌*ℤ◌, ◌<ℤ◌, ◌≤ℤ◌, All, fold, map, length, slice_index_or};
ghost use Rattle.mesh_base.specs.Place.{Place, IsCoordinate};
ghost use Rattle.mesh_base.specs.Kernel.{floor_of, held_place, plus, pulled, shaken, turned, place_by};
ghost use Rattle.mesh_base.specs.declared.edit.Kernel.TheVariants.{Relax};
ghost use Rattle.mesh_base.specs.Limits.{most_points};
ghost use Rattle.topo.specs.Topology.{mesh_at};

use crate::motion::Motion;
use crate::point::held_point;
use mesh_base::{Axis, MOST_POINTS, Point};
use topo::{Positions, Shape};

/// Every point stays.
#[derive(Drop)]
pub struct Still<'a> {
    pub old: &'a Positions,
}

impl Motion for Still<'_> {
    ghost count = { λ m. length m.old.now };

    ghost place_of = { λ m v. held_place (slice_index_or m.old.now v (pos 0, pos 0, pos 0)) };

    fn place(&self, v: u32) -> Point {
        let p = self.old.get(v);
        held_point(p.x() as i64, p.y() as i64, p.z() as i64)
    }
}

/// Every point moves by so much on each axis.
#[derive(Drop)]
pub struct Shifted<'a> {
    pub old: &'a Positions,
    pub dx: i32,
    pub dy: i32,
    pub dz: i32,
}

impl Motion for Shifted<'_> {
    ghost count = { λ m. length m.old.now };

    ghost place_of = { λ m v. held_place (plus (slice_index_or m.old.now v (pos 0, pos 0, pos 0)) (m.dx, m.dy, m.dz)) };

    fn place(&self, v: u32) -> Point {
        let p = self.old.get(v);
        held_point(
            p.x() as i64 + self.dx as i64,
            p.y() as i64 + self.dy as i64,
            p.z() as i64 + self.dz as i64,
        )
    }
}

/// Every point moves `num` in `den` parts of the way to `to`.
#[derive(Drop)]
pub struct Pulled<'a> {
    pub old: &'a Positions,
    pub to: Point,
    pub num: i32,
    pub den: i32,
    ghost divides: { pos 0 <ℤ den },
}

// `num` in `den` parts of a way, towards the smaller number.
fn part_of(way: i64, num: i64, den: i64) -> i64
    requires way { (neg_ℤ (pos (2 ^ 31)) ≤ℤ way) × (way ≤ℤ pos (2 ^ 31)) }
    requires num { (neg_ℤ (pos (2 ^ 31)) ≤ℤ num) × (num ≤ℤ pos (2 ^ 31)) }
    requires den { pos 0 <ℤ den }
    ensures value { result ≡ floor_of (way *ℤ num) den }
    ensures small { (neg_ℤ (pos (2 ^ 62)) ≤ℤ result) × (result ≤ℤ pos (2 ^ 62)) }
{
    (way * num).div_euclid(den)
}

// One coordinate of such a point, before it is held in range.
fn pulled_to(to: i32, num: i32, den: i32, c: i32) -> i64
    requires to { IsCoordinate to }
    requires c { IsCoordinate c }
    requires den { pos 0 <ℤ den }
    ensures { result ≡ pulled to num den c }
{
    c as i64 + part_of(to as i64 - c as i64, num as i64, den as i64)
}

impl Motion for Pulled<'_> {
    ghost count = { λ m. length m.old.now };

    ghost place_of = { λ m v. let p = slice_index_or m.old.now v (pos 0, pos 0, pos 0) in
        held_place (pulled m.to.0 m.num m.den p.0, pulled m.to.1 m.num m.den p.1, pulled m.to.2 m.num m.den p.2) };

    fn place(&self, v: u32) -> Point {
        let p = self.old.get(v);
        held_point(
            pulled_to(self.to.x(), self.num, self.den, p.x()),
            pulled_to(self.to.y(), self.num, self.den, p.y()),
            pulled_to(self.to.z(), self.num, self.den, p.z()),
        )
    }
}

/// Every coordinate moves by a number from `-amp` to `amp`, which depends on `seed` and on step, point and axis.
#[derive(Drop)]
pub struct Shaken<'a> {
    pub old: &'a Positions,
    pub seed: u32,
    pub amp: u32,
    pub step: u32,
}

// One coordinate of such a point, before it is held in range. The axes are numbered from 0.
fn shaken_by(seed: u32, amp: u32, step: u32, v: u32, axis: u8, c: i32) -> i64
    ensures { result ≡ shaken seed amp step v axis c }
{
    let sum = seed as u64 + 40503 * v as u64 + 30011 * step as u64 + 9973 * axis as u64;
    let h = sum % 65536;
    let t = h * (h + 1) / 2 % 65536;
    c as i64 + (t % (2 * amp as u64 + 1)) as i64 - amp as i64
}

impl Motion for Shaken<'_> {
    ghost count = { λ m. length m.old.now };

    ghost place_of = { λ m v. let p = slice_index_or m.old.now v (pos 0, pos 0, pos 0) in
        held_place (shaken m.seed m.amp m.step v 0 p.0, shaken m.seed m.amp m.step v 1 p.1, shaken m.seed m.amp m.step v 2 p.2) };

    fn place(&self, v: u32) -> Point {
        let p = self.old.get(v);
        held_point(
            shaken_by(self.seed, self.amp, self.step, v, 0, p.x()),
            shaken_by(self.seed, self.amp, self.step, v, 1, p.y()),
            shaken_by(self.seed, self.amp, self.step, v, 2, p.z()),
        )
    }
}

/// A quarter turn round an axis.
#[derive(Drop)]
pub struct Turned<'a> {
    pub old: &'a Positions,
    pub axis: Axis,
}

impl Motion for Turned<'_> {
    ghost count = { λ m. length m.old.now };

    ghost place_of = { λ m v. held_place (turned m.axis (slice_index_or m.old.now v (pos 0, pos 0, pos 0))) };

    fn place(&self, v: u32) -> Point {
        let p = self.old.get(v);
        let (x, y, z) = (p.x() as i64, p.y() as i64, p.z() as i64);
        match self.axis {
            Axis::X => held_point(x, -z, y),
            Axis::Y => held_point(z, y, -x),
            Axis::Z => held_point(-y, x, z),
        }
    }
}

/// Every vertex goes to the mean of its neighbours.
#[derive(Drop)]
pub struct Relaxed<'a> {
    pub old: &'a Positions,
    pub shape: &'a Shape,
    ghost each_has_one: { length old.now ≡ shape.now.points },
    ghost few: { length old.now ≤ most_points },
}

// The sum of the places of these points on each axis.
fn sum_of(old: &Positions, near: &[u32]) -> (i64, i64, i64)
    requires within { All (λ w. w < length old.now) near.now }
    requires few { length near.now ≤ MOST_POINTS }
    ensures { result ≡ fold plus (pos 0, pos 0, pos 0)
        (map (λ w. slice_index_or old.now w (pos 0, pos 0, pos 0)) near.now) }
{
    let mut x = 0;
    let mut y = 0;
    let mut z = 0;
    for w in near {
        let p = old.get(*w);
        x += p.x() as i64;
        y += p.y() as i64;
        z += p.z() as i64;
    }
    (x, y, z)
}

impl Motion for Relaxed<'_> {
    ghost count = { λ m. length m.old.now };

    ghost place_of = { λ m v. held_place (place_by (mesh_at m.old.now m.shape.now) Relax 0 v) };

    fn place(&self, v: u32) -> Point {
        let near = self.shape.neighbours(v);
        if near.is_empty() {
            let p = self.old.get(v);
            return held_point(p.x() as i64, p.y() as i64, p.z() as i64);
        }
        let count = near.len() as i64;
        let (x, y, z) = sum_of(self.old, near);
        held_point(
            x.div_euclid(count),
            y.div_euclid(count),
            z.div_euclid(count),
        )
    }
}
