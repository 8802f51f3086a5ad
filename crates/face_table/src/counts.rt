//! A map from faces to their counts.
ghost use Rattle.std.specs.Prelude.{◌≡◌, ℕ, ◌+◌, ◌^◌, ◌<◌, ◌≤◌, ◌-◌, false, None, if◌then◌else◌, IsOk, IfOk, OnOk};
ghost use Rattle.std.specs.Map.{lookup};
ghost use Rattle.indexmap.specs.IndexMap.{spare};
ghost use Rattle.mesh_base.specs.Mesh.{Face as PlainFace, face_eq};
ghost use Rattle.face_table.specs.Tally.{tally_in, single_share, single_count};

use indexmap::IndexMap;
use mesh_base::{Face, NoMemory};

/// The counted faces with their counts, of which none is 0.
pub type Counts = IndexMap<Face, u32>;

/// How often the face is counted.
pub fn count_of(counts: &Counts, face: &Face) -> u32
    ensures { result ≡ tally_in counts.now.entries face.now }
{
    counts.get(face).copied().unwrap_or(0)
}

/// Counts the face once more, and gives its count before. It looks the face up once.
pub fn count_up(counts: &mut Counts, face: Face) -> Result<u32, NoMemory>
    requires fits { tally_in counts.old.entries face + 1 < 2 ^ 32 }
    ensures before { IfOk result (λ n. n ≡ tally_in counts.old.entries face) }
    ensures tally { OnOk result ((f : PlainFace) → tally_in counts.new.entries f
        ≡ tally_in counts.old.entries f + (if face_eq face f then 1 else 0)) }
    ensures singles { OnOk result ((v : ℕ) → single_count counts.new.entries v
        + single_share v (face, tally_in counts.old.entries face)
        ≡ single_count counts.old.entries v + single_share v (face, tally_in counts.old.entries face + 1)) }
    ensures room { spare counts.old ≤ spare counts.new + 1 }
    ensures others { (f : PlainFace) → face_eq face f ≡ false → lookup (face_eq f) counts.old.entries ≡ None
        → lookup (face_eq f) counts.new.entries ≡ None }
    ensures succeeds { 0 < spare counts.old → IsOk result }
{
    let (place, before) = counts.insert_full(face, 1)?;
    match before {
        Some(n) => {
            counts[place] = n + 1;
            Ok(n)
        }
        None => Ok(0),
    }
}

/// Counts the face once less, and gives its count before. It looks the face up once and takes no memory.
pub fn count_down(counts: &mut Counts, face: &Face) -> u32
    requires there { 0 < tally_in counts.old.entries face.now }
    ensures before { result ≡ tally_in counts.old.entries face.now }
    ensures tally { (f : PlainFace) → tally_in counts.new.entries f + (if face_eq face.now f then 1 else 0)
        ≡ tally_in counts.old.entries f }
    ensures singles { (v : ℕ) → single_count counts.new.entries v + single_share v (face.now, result)
        ≡ single_count counts.old.entries v + single_share v (face.now, result - 1) }
    ensures others { (f : PlainFace) → face_eq face.now f ≡ false → lookup (face_eq f) counts.old.entries ≡ None
        → lookup (face_eq f) counts.new.entries ≡ None }
{
    let place = counts.get_index_of(face).unwrap();
    let before = counts[place];
    if before == 1 {
        counts.swap_remove_index(place);
    } else {
        counts[place] = before - 1;
    }
    before
}

/// Counts a new face twice. It looks the face up once.
pub fn count_new(counts: &mut Counts, face: Face)
    requires room { 0 < spare counts.old }
    requires new { tally_in counts.old.entries face ≡ 0 }
    ensures tally { (f : PlainFace) → tally_in counts.new.entries f
        ≡ tally_in counts.old.entries f + (if face_eq face f then 2 else 0) }
    ensures singles { (v : ℕ) → single_count counts.new.entries v ≡ single_count counts.old.entries v }
    ensures room { spare counts.old ≤ spare counts.new + 1 }
    ensures others { (f : PlainFace) → face_eq face f ≡ false → lookup (face_eq f) counts.old.entries ≡ None
        → lookup (face_eq f) counts.new.entries ≡ None }
{
    let _ = counts.insert(face, 2);
}
