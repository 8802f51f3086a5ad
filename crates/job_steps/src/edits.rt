//! The edits of a plan: over the topology in place, and the points that they add.
ghost use Rattle.std.specs.Prelude.{◌≡◌, ◌≤◌, ◌+◌, ◌++◌, length, IfOk, OnOk};
ghost use Rattle.std.specs.Arc.{arc_value};
ghost use Rattle.mesh_base.specs.Mesh.{MeshView};
ghost use Rattle.topo.specs.Topology.{IsTopologyOf};
ghost use Rattle.run_script.specs.Jobs.{all_edited};
ghost use Rattle.job_steps.specs.Added.{new_point, new_points, AllFit};

use mesh_base::{Edit, MOST_POINTS, NoMemory, Point};
use run_script::LinedEdit;
use std::alloc::Global;
use std::sync::Arc;
use topo::{Positions, Topo};

// The place of the point that the edit adds, if it adds one.
fn new_point(edit: &Edit) -> Option<Point>
    ensures { result ≡ new_point edit.now }
{
    match *edit {
        Edit::Point { at } => Some(at),
        Edit::Split { cell: _, at } => Some(at),
        Edit::Add { corners: _ } => None,
        Edit::Remove { cell: _ } => None,
    }
}

/// Makes the edits in order, and gives the places of the points that they add. After NoMemory some are made.
pub fn make_edits(
    alloc: Global,
    topo: &mut Topo,
    edits: &[LinedEdit],
) -> Result<Vec<Point>, NoMemory>
    requires fit { AllFit topo.old edits.now }
    ensures edited { OnOk result ((mesh : MeshView) → IsTopologyOf mesh topo.old
        → IsTopologyOf (all_edited mesh edits.now) topo.new) }
    ensures added { IfOk result (λ added. added.items ≡ new_points edits.now) }
{
    let mut added = Vec::new(alloc);
    for lined in edits {
        topo.edit(alloc, &lined.edit)?;
        if let Some(at) = new_point(&lined.edit) {
            added.push(at)?;
        }
    }
    Ok(added)
}

/// The places of before, and behind them those of new points. Without new points they are shared, and nothing is
/// copied.
pub fn with_added(
    alloc: Global,
    old: &Arc<Positions>,
    added: &[Point],
) -> Result<Arc<Positions>, NoMemory>
    requires { length (arc_value old.now) + length added.now ≤ MOST_POINTS }
    ensures { IfOk result (λ places. arc_value places ≡ arc_value old.now ++ added.now) }
{
    if added.is_empty() {
        Ok(old.clone()?)
    } else {
        old.joined(alloc, added)
    }
}
