//! The nearest of a list of vertices.
ghost use Rattle.std.specs.Prelude.{◌≡◌, ℕ, ◌+◌, ◌<◌, ◌≤◌, length, Contains};
ghost use Rattle.std.specs.List.Sorted.{IsStrictlyIncreasing};
ghost use Rattle.mesh_base.specs.Query.{distance};
ghost use Rattle.probe_walk.specs.Nearest.{better, IsBest};

use mesh_base::BoxQ;
use std::sync::ledger::Ledger;
use step_view::{Step, Steps};

/// A vertex and its distance from the box, squared.
#[derive(Clone, Copy)]
pub(crate) struct Near {
    pub vertex: u32,
    pub distance: u64,
}

// The best so far, or this one, which has a greater number: it comes first only where it is nearer.
pub(crate) fn better_of(best: Option<Near>, near: Near) -> Near
    ensures { result ≡ better best near }
{
    match best {
        Some(best) if best.distance <= near.distance => best,
        _ => near,
    }
}

// The vertex with its distance.
pub(crate) fn near_of<L: Ledger>(step: &Step, area: &BoxQ, v: u32, reads: &mut Steps<L>) -> Near
    requires { v < length step.now.mesh.points }
    ensures vertex { result.vertex ≡ v }
    ensures distance { result.distance ≡ distance step.now.mesh area.now v }
    ensures reads { reads.new ≡ reads.old + 1 }
{
    let distance = area.dist2(step.at(v, reads));
    Near {
        vertex: v,
        distance,
    }
}

// The nearest of the list, which ascends.
pub(crate) fn nearest_of<L: Ledger>(
    step: &Step,
    area: &BoxQ,
    list: &[u32],
    reads: &mut Steps<L>,
) -> Option<Near>
    requires ascending { IsStrictlyIncreasing list.now }
    requires points { (v : ℕ) → Contains list.now v → v < length step.now.mesh.points }
    ensures best { IsBest step.now.mesh area.now list.now result }
    ensures reads { reads.new ≡ reads.old + length list.now }
{
    let mut best = None;
    for v in list {
        let near = near_of(step, area, *v, reads);
        best = Some(better_of(best, near));
    }
    best
}
