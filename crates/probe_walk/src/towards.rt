//! The walk towards the box.
ghost use Rattle.std.specs.Prelude.{◌≡◌, ℕ, ◌+◌, ◌<◌, ◌≤◌, length, Contains, IfSome};
ghost use Rattle.std.specs.Option.{option_map};
ghost use Rattle.mesh_base.specs.Mesh.{vertices, degree};
ghost use Rattle.mesh_base.specs.Query.{distance, next, walk, degrees};
ghost use Rattle.probe_walk.specs.WalkEnds.{IsEndOf};

use crate::near::{Near, nearest_of};
use mesh_base::BoxQ;
use std::sync::ledger::Ledger;
use step_view::{Step, Steps};

/// Where a walk towards a box ends.
#[derive(Clone, Copy, Debug, PartialEq, Eq)]
pub enum WalkEnd {
    /// At this vertex, which is inside the box.
    Inside { vertex: u32 },
    /// At this vertex, which is outside and has no neighbour that is nearer.
    Stuck { vertex: u32 },
}

// The nearest neighbour of v, if it is nearer than v.
fn next_of<L: Ledger>(
    step: &Step,
    area: &BoxQ,
    v: u32,
    below: u64,
    reads: &mut Steps<L>,
) -> Option<Near>
    requires point { v < length step.now.mesh.points }
    requires below { below ≡ distance step.now.mesh area.now v }
    ensures vertex { option_map (λ n. n.vertex) result ≡ next step.now.mesh area.now v }
    ensures distance { IfSome result (λ n. n.distance ≡ distance step.now.mesh area.now n.vertex) }
    ensures nearer { IfSome result (λ n. n.distance < below) }
    ensures point { IfSome result (λ n. n.vertex < length step.now.mesh.points) }
    ensures reads { reads.new ≡ reads.old + degree step.now.mesh v }
{
    let near = nearest_of(step, area, step.neighbours(v), reads)?;
    if near.distance < below {
        Some(near)
    } else {
        None
    }
}

/// The end of the walk from a vertex: on to the nearest of its neighbours, if that is nearer to the box than it is, and
/// so on. It reads the place of the first vertex and those of the neighbours of each vertex on the way, and takes no
/// memory.
pub fn walk<L: Ledger>(step: &Step, area: &BoxQ, from: u32, reads: &mut Steps<L>) -> WalkEnd
    requires from { Contains (vertices step.now.mesh) from }
    ensures end { IsEndOf step.now.mesh area.now from result }
    ensures reads { reads.new ≤ reads.old + (1 + degrees step.now.mesh area.now (walk step.now.mesh area.now from)) }
{
    let mut at = from;
    let mut far = area.dist2(step.at(from, reads));
    while far > 0 {
        match next_of(step, area, at, far, reads) {
            Some(near) => {
                at = near.vertex;
                far = near.distance;
            }
            None => return WalkEnd::Stuck { vertex: at },
        }
    }
    WalkEnd::Inside { vertex: at }
}
