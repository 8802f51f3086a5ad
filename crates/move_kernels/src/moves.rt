//! Where the kernels put the points of a mesh.
ghost use Rattle.std.specs.Prelude.{◌≡◌, length, IfOk};
ghost use Rattle.mesh_base.specs.Kernel.{moved};
ghost use Rattle.topo.specs.Topology.{mesh_at};
ghost use Rattle.move_kernels.specs.Motions.{HasDivisor};

use crate::kernels::{Pulled, Relaxed, Shaken, Shifted, Still, Turned};
use crate::motion::{in_parallel, one_by_one};
use mesh_base::{Kernel, NoMemory, PointList};
use std::alloc::Global;
use std::marker::Sync;
use std::thread::Threads;
use topo::{Positions, Shape};

// The kernel is looked at once: each has a pass of its own, over its motion.
macro_rules! with_motion {
    ($kernel:expr, $k:expr, $old:expr, $shape:expr, $motion:ident => $pass:expr) => {
        match *$kernel {
            Kernel::Stay => {
                let $motion = &Still { old: $old };
                $pass
            }
            Kernel::Shift { dx, dy, dz } => {
                let $motion = &Shifted { old: $old, dx, dy, dz };
                $pass
            }
            Kernel::Pull { to, num, den } => {
                let $motion = &Pulled { old: $old, to, num, den };
                $pass
            }
            Kernel::Shake { seed, amp } => {
                let $motion = &Shaken { old: $old, seed, amp, step: $k };
                $pass
            }
            Kernel::Relax => {
                let $motion = &Relaxed { old: $old, shape: $shape };
                $pass
            }
            Kernel::Turn { axis } => {
                let $motion = &Turned { old: $old, axis };
                $pass
            }
        }
    };
}

/// The places of all points after the kernel has moved them, for the step k that is being made. Every new place comes
/// from the old places alone, and from the neighbours of the shape. A pull has a positive `den`.
///
/// It passes once over the points, and for a relaxation over all neighbours, and takes memory for the list alone.
pub fn moved(
    alloc: Global,
    kernel: &Kernel,
    k: u32,
    old: &Positions,
    shape: &Shape,
) -> Result<PointList, NoMemory>
    requires points { length old.now ≡ shape.now.points }
    requires kernel { HasDivisor kernel.now }
    ensures { IfOk result (λ places. places ≡ moved (mesh_at old.now shape.now) kernel.now k) }
{
    let count = old.len();
    with_motion!(kernel, k, old, shape, motion => one_by_one(alloc, count, motion))
}

/// The same places as `moved`, by as many threads as there are processors. They share the points among them.
pub fn moved_par<R: Threads + Sync>(
    rt: &R,
    alloc: Global,
    kernel: &Kernel,
    k: u32,
    old: &Positions,
    shape: &Shape,
) -> Result<PointList, NoMemory>
    requires points { length old.now ≡ shape.now.points }
    requires kernel { HasDivisor kernel.now }
    ensures { IfOk result (λ places. places ≡ moved (mesh_at old.now shape.now) kernel.now k) }
{
    let count = old.len();
    with_motion!(kernel, k, old, shape, motion => in_parallel(rt, alloc, count, motion))
}
