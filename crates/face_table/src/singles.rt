//! For each vertex, how many faces of count one it is on.
ghost use Rattle.std.specs.Prelude.{◌≡◌, ℕ, ◌+◌, ◌^◌, ◌<◌, ◌≤◌, true, false, slice_index, count_by, vec_len, if◌then◌else◌, IfOk};
ghost use Rattle.mesh_base.specs.Mesh.{Face as PlainFace, IsWithin, is_on, has_corner, face_eq, faces};
ghost use Rattle.face_table.specs.Tally.{tally_in, single_share, single_count, AreSingles};

use crate::face_counts::FaceCounts;
use mesh_base::{Cell, Face, NoMemory};
use std::alloc::Global;

// One more for each of the face's three vertices.
fn raise(singles: &mut Vec<usize>, face: &Face)
    requires within { face.now.2 < vec_len singles.old }
    requires fits { (v : ℕ) → v < vec_len singles.old → is_on face.now v ≡ true
        → slice_index singles.old.items v + 1 < 2 ^ 64 }
    ensures len { vec_len singles.new ≡ vec_len singles.old }
    ensures raised { (v : ℕ) → slice_index singles.new.items v
        ≡ slice_index singles.old.items v + (if is_on face.now v then 1 else 0) }
{
    let [a, b, c] = face.numbers();
    singles[a as usize] += 1;
    singles[b as usize] += 1;
    singles[c as usize] += 1;
}

// One less.
fn lower(singles: &mut Vec<usize>, face: &Face)
    requires within { face.now.2 < vec_len singles.old }
    requires some { (v : ℕ) → v < vec_len singles.old → is_on face.now v ≡ true → 0 < slice_index singles.old.items v }
    ensures len { vec_len singles.new ≡ vec_len singles.old }
    ensures lowered { (v : ℕ) → slice_index singles.new.items v + (if is_on face.now v then 1 else 0)
        ≡ slice_index singles.old.items v }
{
    let [a, b, c] = face.numbers();
    singles[a as usize] -= 1;
    singles[b as usize] -= 1;
    singles[c as usize] -= 1;
}

// Follows a change of the face's count.
fn follow(singles: &mut Vec<usize>, face: &Face, before: u32, after: u32)
    requires before_within { before ≡ 1 → face.now.2 < vec_len singles.old }
    requires after_within { after ≡ 1 → face.now.2 < vec_len singles.old }
    requires fits { (v : ℕ) → v < vec_len singles.old → slice_index singles.old.items v + 1 < 2 ^ 64 }
    requires held { (v : ℕ) → v < vec_len singles.old
        → single_share v (face.now, before) ≤ slice_index singles.old.items v }
    ensures len { vec_len singles.new ≡ vec_len singles.old }
    ensures followed { (v : ℕ) → slice_index singles.new.items v + single_share v (face.now, before)
        ≡ slice_index singles.old.items v + single_share v (face.now, after) }
{
    if before == 1 {
        lower(singles, face);
    }
    if after == 1 {
        raise(singles, face);
    }
}

// Counts the face once more.
fn put_face(counts: &mut FaceCounts, singles: &mut Vec<usize>, face: Face)
    requires room { 0 < counts.old.spare }
    requires fits { tally_in counts.old.entries face + 1 < 2 ^ 32 }
    requires within { face.2 < vec_len singles.old }
    requires singles { AreSingles counts.old.entries singles.old.items }
    ensures tally { (f : PlainFace) → tally_in counts.new.entries f
        ≡ tally_in counts.old.entries f + (if face_eq face f then 1 else 0) }
    ensures grows { (f : PlainFace) → tally_in counts.new.entries f ≤ tally_in counts.old.entries f + 1 }
    ensures room { counts.old.spare ≤ counts.new.spare + 1 }
    ensures len { vec_len singles.new ≡ vec_len singles.old }
    ensures singles { AreSingles counts.new.entries singles.new.items }
    ensures others { (v : ℕ) → is_on face v ≡ false
        → single_count counts.new.entries v ≡ single_count counts.old.entries v }
{
    let _few = counts.len();
    let before = counts.count_up(face).unwrap();
    follow(singles, &face, before, before + 1);
}

// Counts the face once less.
fn take_face(counts: &mut FaceCounts, singles: &mut Vec<usize>, face: Face)
    requires there { 0 < tally_in counts.old.entries face }
    requires within { face.2 < vec_len singles.old }
    requires singles { AreSingles counts.old.entries singles.old.items }
    ensures tally { (f : PlainFace) → tally_in counts.new.entries f + (if face_eq face f then 1 else 0)
        ≡ tally_in counts.old.entries f }
    ensures len { vec_len singles.new ≡ vec_len singles.old }
    ensures singles { AreSingles counts.new.entries singles.new.items }
    ensures others { (v : ℕ) → is_on face v ≡ false
        → single_count counts.new.entries v ≡ single_count counts.old.entries v }
{
    let _few = counts.len();
    let before = counts.count_down(&face);
    follow(singles, &face, before, before - 1);
}

/// Counts each face of the cell once more.
pub fn put_faces(counts: &mut FaceCounts, singles: &mut Vec<usize>, cell: &Cell)
    requires room { 4 ≤ counts.old.spare }
    requires fits { (f : PlainFace) → tally_in counts.old.entries f < 2 ^ 31 }
    requires within { IsWithin (vec_len singles.old) cell.now }
    requires singles { AreSingles counts.old.entries singles.old.items }
    ensures tally { (f : PlainFace) → tally_in counts.new.entries f
        ≡ tally_in counts.old.entries f + count_by (λ g. face_eq g f) (faces cell.now) }
    ensures len { vec_len singles.new ≡ vec_len singles.old }
    ensures singles { AreSingles counts.new.entries singles.new.items }
    ensures others { (v : ℕ) → has_corner cell.now v ≡ false
        → single_count counts.new.entries v ≡ single_count counts.old.entries v }
{
    let [f, g, h, i] = cell.faces();
    put_face(counts, singles, f);
    put_face(counts, singles, g);
    put_face(counts, singles, h);
    put_face(counts, singles, i);
}

/// Counts each face of the cell once less. It takes no memory.
pub fn take_faces(counts: &mut FaceCounts, singles: &mut Vec<usize>, cell: &Cell)
    requires there { (f : PlainFace) → count_by (λ g. face_eq g f) (faces cell.now) ≤ tally_in counts.old.entries f }
    requires within { IsWithin (vec_len singles.old) cell.now }
    requires singles { AreSingles counts.old.entries singles.old.items }
    ensures tally { (f : PlainFace) → tally_in counts.new.entries f + count_by (λ g. face_eq g f) (faces cell.now)
        ≡ tally_in counts.old.entries f }
    ensures len { vec_len singles.new ≡ vec_len singles.old }
    ensures singles { AreSingles counts.new.entries singles.new.items }
    ensures others { (v : ℕ) → has_corner cell.now v ≡ false
        → single_count counts.new.entries v ≡ single_count counts.old.entries v }
{
    let [f, g, h, i] = cell.faces();
    take_face(counts, singles, f);
    take_face(counts, singles, g);
    take_face(counts, singles, h);
    take_face(counts, singles, i);
}

/// The numbers of all points, by one pass over the counts.
pub fn list_singles(alloc: Global, points: u32, counts: &FaceCounts) -> Result<Vec<usize>, NoMemory>
    requires within { (f : PlainFace) → 0 < tally_in counts.now.entries f → f.2 < points }
    ensures len { IfOk result (λ singles. vec_len singles ≡ points) }
    ensures singles { IfOk result (λ singles. AreSingles counts.now.entries singles.items) }
{
    let mut singles = vec![in alloc; 0usize; points as usize]?;
    for i in 0..counts.len() {
        let (face, n) = counts.entry(i);
        follow(&mut singles, &face, 0, n);
    }
    Ok(singles)
}
