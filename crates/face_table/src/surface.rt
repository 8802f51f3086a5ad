//! The surface: the vertices with a single face, ascending.
ghost use Rattle.std.specs.Prelude.{◌≡◌, ◌≢◌, ◌⊎◌, ◌↔◌, ℕ, ◌+◌, ◌<◌, ◌≤◌, slice_index, vec_len, vec_capacity, Contains, length, false, IfOk, OnOk, [], ◌∷◌, ◌++◌, if◌then◌else◌, nat_lt};
ghost use Rattle.mesh_base.specs.Mesh.{IsWithin, has_corner};
ghost use Rattle.mesh_base.specs.Numbers.{IsPlaceOf};
ghost use Rattle.std.specs.List.Sorted.{IsStrictlyIncreasing};
ghost use Rattle.face_table.specs.Tally.{IsBelow, Matches};

use mesh_base::{Cell, MOST_POINTS, NoMemory, place_of};
use std::alloc::Global;

// Takes out the number at i.
fn remove_at(surface: &mut Vec<u32>, i: usize)
    requires there { i < vec_len surface.old }
    requires ascending { IsStrictlyIncreasing surface.old.items }
    ensures ascending { IsStrictlyIncreasing surface.new.items }
    ensures only { (w : ℕ) → Contains surface.new.items w
        → Contains surface.old.items w × (w ≢ slice_index surface.old.items i) }
    ensures every { (w : ℕ) → w ≢ slice_index surface.old.items i → Contains surface.old.items w
        → Contains surface.new.items w }
    ensures room { vec_capacity surface.new ≡ vec_capacity surface.old }
{
    surface.remove(i);
}

// Puts the number in at i, where there is room.
fn insert_at(surface: &mut Vec<u32>, i: usize, v: u32)
    requires place { IsPlaceOf v surface.old.items i }
    requires room { vec_len surface.old < vec_capacity surface.old }
    requires ascending { IsStrictlyIncreasing surface.old.items }
    ensures ascending { IsStrictlyIncreasing surface.new.items }
    ensures only { (w : ℕ) → Contains surface.new.items w → (v ≡ w) ⊎ Contains surface.old.items w }
    ensures every { (w : ℕ) → (v ≡ w) ⊎ Contains surface.old.items w → Contains surface.new.items w }
    ensures room { vec_capacity surface.old ≤ vec_capacity surface.new }
{
    let _ = surface.insert(i, v);
}

// Puts v in or takes it out, so that it is listed where it has a single face.
pub fn settle(singles: &Vec<usize>, surface: &mut Vec<u32>, v: u32)
    requires point { v < vec_len singles.now }
    requires below { IsBelow (vec_len singles.now) surface.old }
    ensures below { IsBelow (vec_len singles.now) surface.new }
    ensures here { Matches singles.now.items surface.new.items v }
    ensures others { (w : ℕ) → w ≢ v → Matches singles.now.items surface.old.items w
        → Matches singles.now.items surface.new.items w }
{
    let wanted = singles[v as usize] != 0;
    match place_of(surface, v) {
        Ok(i) => {
            if !wanted {
                remove_at(surface, i);
            }
        }
        Err(i) => {
            if wanted {
                insert_at(surface, i, v);
            }
        }
    }
}

// Settles the corners of the cell.
pub fn settle_corners(singles: &Vec<usize>, surface: &mut Vec<u32>, cell: &Cell)
    requires within { IsWithin (vec_len singles.now) cell.now }
    requires below { IsBelow (vec_len singles.now) surface.old }
    requires others { (w : ℕ) → has_corner cell.now w ≡ false → Matches singles.now.items surface.old.items w }
    ensures below { IsBelow (vec_len singles.now) surface.new }
    ensures all { (w : ℕ) → Matches singles.now.items surface.new.items w }
{
    let [a, b, c, d] = cell.corners();
    settle(singles, surface, a);
    settle(singles, surface, b);
    settle(singles, surface, c);
    settle(singles, surface, d);
}

/// Makes room for one more point, should every point come to the surface. Both lists stay the same.
pub fn reserve_point(singles: &mut Vec<usize>, surface: &mut Vec<u32>) -> Result<(), NoMemory>
    ensures singles { singles.new.items ≡ singles.old.items }
    ensures surface { surface.new.items ≡ surface.old.items }
    ensures single_capacity { vec_capacity singles.old ≤ vec_capacity singles.new }
    ensures surface_capacity { vec_capacity surface.old ≤ vec_capacity surface.new }
    ensures single_room { OnOk result (vec_len singles.new < vec_capacity singles.new) }
    ensures surface_room { OnOk result (vec_len singles.new < vec_capacity surface.new) }
{
    singles.reserve(1)?;
    let missing = (singles.len() + 1).saturating_sub(surface.len());
    surface.reserve(missing)?;
    Ok(())
}

// Appends v if it is wanted, where there is room.
fn push_if(surface: &mut Vec<u32>, v: u32, wanted: bool)
    requires room { vec_len surface.old < vec_capacity surface.old }
    ensures items { surface.new.items ≡ surface.old.items ++ (if wanted then v ∷ [] else []) }
    ensures len { length surface.new.items ≤ length surface.old.items + 1 }
    ensures capacity { vec_capacity surface.new ≡ vec_capacity surface.old }
{
    if wanted {
        surface.push_reserved(v);
    }
}

// Whether v has a single face.
fn is_single(singles: &Vec<usize>, v: usize) -> bool
    requires { v < vec_len singles.now }
    ensures { result ≡ nat_lt 0 (slice_index singles.now.items v) }
{
    0 < singles[v]
}

// The vertices with a single face, ascending, with room for all points.
pub fn list_surface(alloc: Global, singles: &Vec<usize>) -> Result<Vec<u32>, NoMemory>
    requires few { vec_len singles.now ≤ MOST_POINTS }
    ensures below { IfOk result (λ surface. IsBelow (vec_len singles.now) surface) }
    ensures all { IfOk result (λ surface. (w : ℕ) → Matches singles.now.items surface.items w) }
{
    let mut surface = Vec::with_capacity(alloc, singles.len())?;
    for v in 0..singles.len() {
        let wanted = is_single(singles, v);
        push_if(&mut surface, v as u32, wanted);
    }
    Ok(surface)
}
