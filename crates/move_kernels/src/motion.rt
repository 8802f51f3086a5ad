//! One place for each point, in one pass or in parallel pieces.
ghost use Rattle.std.specs.Prelude.{◌≡◌, ◌<◌, ◌^◌, ℕ, length, IfOk};
ghost use Rattle.mesh_base.specs.Place.{Place};
ghost use Rattle.move_kernels.specs.Motions.{listed};

use mesh_base::{NoMemory, Point, PointList};
use rayon::prelude::*;
use std::alloc::Global;
use std::marker::Sync;
use std::thread::Threads;

/// Gives each point its new place.
pub trait Motion {
    // how many points there are
    ghost count: { Self → ℕ };

    // where point v goes
    ghost place_of: { Self → ℕ → Place };

    /// The new place of point v.
    fn place(&self, v: u32) -> Point
        requires { v < count self.now }
        ensures { result ≡ place_of self.now v };
}

/// The new places of all points, one after the other.
pub fn one_by_one<M: Motion>(alloc: Global, count: u32, motion: &M) -> Result<PointList, NoMemory>
    requires { count ≡ M.count motion.now }
    ensures { IfOk result (λ places. places ≡ listed count (M.place_of motion.now)) }
{
    let mut places = Vec::with_capacity(alloc, count as usize)?;
    for v in 0..count {
        places.push_reserved(motion.place(v));
    }
    Ok(PointList::of(places))
}

// Writes the new place of each point, by as many threads as there are processors.
fn place_all<R: Threads + Sync, M: Motion + Sync>(rt: &R, places: &mut [Point], motion: &M)
    requires count { length places.old ≡ M.count motion.now }
    requires few { length places.old < 2 ^ 32 }
    ensures len { length places.new ≡ length places.old }
    ensures placed { places.new ≡ listed (length places.old) (M.place_of motion.now) }
{
    par_for_each_mut(
        rt,
        places,
        |v: usize, place: &mut Point|
            requires { (v < M.count motion.now) × (v < 2 ^ 32) }
            ensures { place.new ≡ M.place_of motion.entry.now v }
        {
            *place = motion.place(v as u32);
        },
    );
}

/// The same places, by as many threads as there are processors.
pub fn in_parallel<R: Threads + Sync, M: Motion + Sync>(
    rt: &R,
    alloc: Global,
    count: u32,
    motion: &M,
) -> Result<PointList, NoMemory>
    requires { count ≡ M.count motion.now }
    ensures { IfOk result (λ places. places ≡ listed count (M.place_of motion.now)) }
{
    let origin = Point::new(0, 0, 0).unwrap();
    let mut places = vec![in alloc; origin; count as usize]?;
    place_all(rt, &mut places, motion);
    Ok(PointList::of(places))
}
