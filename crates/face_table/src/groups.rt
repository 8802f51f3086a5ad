//! Counts the faces of cells point by point.
ghost use Rattle.std.specs.Prelude.{◌≡◌, ◌≢◌, ◌+◌, ◌^◌, ◌<◌, ◌≤◌, true, [], length, sum_by, slice_index_or, if◌then◌else◌, IfSome, IfOk, OnOk};
ghost use Rattle.mesh_base.specs.Mesh.{Face as PlainFace, AreWithin, face_eq, face_count};
ghost use Rattle.corner_ranges.specs.Ranges.{slot_share};
ghost use Rattle.face_table.specs.Tally.{tally_in};
ghost use Rattle.face_table.specs.Corner.{least_share, share_at, corner_share, seen_of};

use crate::face_counts::FaceCounts;
use crate::known::rank;
use corner_ranges::{Corner, CornerRanges, point_at};
use mesh_base::{Cell, Face, MOST_CELLS, NoMemory, are_all_different};
use std::alloc::Global;

// Notes the face of v, x and y, where v is the least of them.
fn note_least(seen: &mut Vec<Face>, v: u32, x: u32, y: u32) -> Result<(), NoMemory>
    requires different { x ≢ y }
    ensures seen { OnOk result ((f : PlainFace) →
        seen_of seen.new.items f ≡ seen_of seen.old.items f + least_share v x y f) }
{
    if v < x && v < y {
        seen.push(Face::new(v, x, y))?;
    }
    Ok(())
}

// Notes the faces of a corner v, of which it is the least number.
fn note_at(seen: &mut Vec<Face>, v: u32, x: u32, y: u32, z: u32) -> Result<(), NoMemory>
    requires xy { x ≢ y }
    requires xz { x ≢ z }
    requires yz { y ≢ z }
    ensures seen { OnOk result ((f : PlainFace) →
        seen_of seen.new.items f ≡ seen_of seen.old.items f + share_at v x y z f) }
{
    note_least(seen, v, x, y)?;
    note_least(seen, v, x, z)?;
    note_least(seen, v, y, z)
}

// Notes the faces at the corner in the slot, if it isn't empty.
fn note_slot(seen: &mut Vec<Face>, slot: &Option<Corner>) -> Result<(), NoMemory>
    ensures seen { OnOk result ((f : PlainFace) →
        seen_of seen.new.items f ≡ seen_of seen.old.items f + slot_share (corner_share f) slot.now) }
{
    if let Some(corner) = slot {
        let [v, x, y, z] = corner.numbers();
        note_at(seen, v, x, y, z)?;
    }
    Ok(())
}

// Puts the faces in ascending order.
fn sort(seen: &mut Vec<Face>)
    ensures { (f : PlainFace) → seen_of seen.new.items f ≡ seen_of seen.old.items f }
{
    seen.sort_unstable_by_key(|face| rank(face));
}

// Counts the faces that were seen, which then are done with.
fn count_seen(counts: &mut FaceCounts, seen: &mut Vec<Face>) -> Result<(), NoMemory>
    requires fits { (f : PlainFace) → tally_in counts.old.entries f + seen_of seen.old.items f < 2 ^ 32 }
    ensures seen { OnOk result (seen.new.items ≡ []) }
    ensures tally { OnOk result ((f : PlainFace) →
        tally_in counts.new.entries f ≡ tally_in counts.old.entries f + seen_of seen.old.items f) }
{
    sort(seen);
    for i in 0..seen.len() {
        counts.put(seen[i])?;
    }
    seen.truncate(0);
    Ok(())
}

// Counts the faces at the corners in these slots, those of the corners of one point together where these stand side by
// side.
fn count_slots(
    counts: &mut FaceCounts,
    seen: &mut Vec<Face>,
    slots: &[Option<Corner>],
) -> Result<(), NoMemory>
    requires seen { seen.old.items ≡ [] }
    requires fits { (f : PlainFace) →
        tally_in counts.old.entries f + sum_by (slot_share (corner_share f)) slots.now < 2 ^ 32 }
    ensures seen { OnOk result (seen.new.items ≡ []) }
    ensures tally { OnOk result ((f : PlainFace) → tally_in counts.new.entries f
        ≡ tally_in counts.old.entries f + sum_by (slot_share (corner_share f)) slots.now) }
{
    for i in 0..slots.len() {
        note_slot(seen, &slots[i])?;
        if point_at(slots, i) != point_at(slots, i + 1) {
            count_seen(counts, seen)?;
        }
    }
    count_seen(counts, seen)
}

// No counts, with room for two faces a live cell and an eighth of one more where memory allows.
fn no_counts(alloc: Global, cells: &[Option<Cell>]) -> FaceCounts
    ensures { (f : PlainFace) → tally_in result.entries f ≡ 0 }
{
    let live = cells.iter().flatten().count();
    FaceCounts::with_room(alloc, live.saturating_mul(2).saturating_add(live / 8))
}

/// The counts of the faces of these cells.
///
/// It goes through the points range by range, and appends the faces of each point in ascending order. It first takes
/// room for two faces a live cell and some more, as most meshes need; the list grows past that, or where that room is
/// refused, as faces come.
pub fn count_cells(
    alloc: Global,
    points: u32,
    cells: &[Option<Cell>],
) -> Result<FaceCounts, NoMemory>
    requires few_cells { length cells.now ≤ MOST_CELLS }
    requires within { AreWithin points cells.now }
    ensures tally { IfOk result (λ counts. (f : PlainFace) → tally_in counts.entries f ≡ face_count cells.now f) }
{
    are_all_different(cells);
    let mut counts = no_counts(alloc, cells);
    let mut ranges = CornerRanges::new(alloc, points, cells)?;
    let mut seen = Vec::new(alloc);
    let count = ranges.count();
    for range in 0..count {
        ranges.fill(range)?;
        count_slots(&mut counts, &mut seen, ranges.slots())?;
    }
    counts.note_starts(alloc, points)?;
    Ok(counts)
}
