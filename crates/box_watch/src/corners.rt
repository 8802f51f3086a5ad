//! Which box was last asked with the same corners.
ghost use Rattle.std.specs.Prelude.{◌≡◌, ◌≤◌, length, IfOk, flat_map};
ghost use Rattle.run_script.specs.Jobs.{box_count};
ghost use Rattle.box_watch.specs.Corners.{corners_of};
ghost use Rattle.box_watch.specs.Priors.{priors_of};
ghost use Rattle.box_watch.specs.Watches.{boxes_in};

use crate::NoMemory;
use mesh_base::BoxQ;
use run_script::SessionTurn;
use std::alloc::Global;
use std::collections::HashMap;

/// The corners of a box, by which it is looked up.
#[derive(Clone, Copy, PartialEq, Eq, Hash)]
pub struct Corners {
    low_x: i32,
    low_y: i32,
    low_z: i32,
    high_x: i32,
    high_y: i32,
    high_z: i32,
}

// The corners of this box.
fn corners_at(area: &BoxQ) -> Corners
    ensures { result ≡ corners_of area.now }
{
    let low = area.lo();
    let high = area.hi();
    Corners {
        low_x: low.x(),
        low_y: low.y(),
        low_z: low.z(),
        high_x: high.x(),
        high_y: high.y(),
        high_z: high.z(),
    }
}

/// The boxes of these turns, in their order. It copies each once.
pub fn list_boxes(alloc: Global, turns: &[SessionTurn]) -> Result<Vec<BoxQ>, NoMemory>
    ensures { IfOk result (λ list. list.items ≡ boxes_in turns.now) }
{
    let mut boxes = Vec::new(alloc);
    for turn in turns {
        boxes.extend_from_slice(turn.areas.items())?;
    }
    Ok(boxes)
}

/// For each box the last one before it with equal corners. It looks each box up once.
pub fn list_priors(alloc: Global, boxes: &[BoxQ]) -> Result<Vec<Option<u32>>, NoMemory>
    requires { length boxes.now ≤ 100000 }
    ensures { IfOk result (λ list. list.items ≡ priors_of boxes.now) }
{
    let mut last = HashMap::new(alloc);
    let mut priors = Vec::with_capacity(alloc, boxes.len())?;
    for number in 0..boxes.len() {
        let prior = last.insert(corners_at(&boxes[number]), number as u32)?;
        priors.push(prior)?;
    }
    Ok(priors)
}
