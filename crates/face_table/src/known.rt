//! Counted faces in ascending order, in one list.
ghost use Rattle.std.specs.Prelude.{◌≡◌, ◌↔◌, ℕ, ◌^◌, ◌-◌, ◌<◌, ◌≤◌, length, IsTrue, MatchOption, None, vec_len};
ghost use Rattle.std.specs.Map.{lookup};
ghost use Rattle.mesh_base.specs.Mesh.{face_eq};
ghost use Rattle.face_table.specs.Known.{rank_of, IsAscending, IsBetween, IsFirstAt};

use mesh_base::{Face, NoMemory};
use std::alloc::Global;

/// A face with its count.
pub type Known = (Face, u32);

/// A number that ascends with the face: by its least number, then by the middle one, then by the greatest.
pub fn rank(face: &Face) -> u128
    ensures rank { result ≡ rank_of face.now }
    ensures middle { face.now.1 < 2 ^ 32 }
    ensures high { face.now.2 < 2 ^ 32 }
{
    let [low, middle, high] = face.numbers();
    u128::from(low) * 0x1_0000_0000_0000_0000
        + u128::from(middle) * 0x1_0000_0000
        + u128::from(high)
}

// Where the face is, if it can only stand in from..to.
fn find_between(known: &Vec<Known>, from: usize, to: usize, face: &Face) -> Option<usize>
    requires ascending { IsAscending known.now.items }
    requires between { IsBetween known.now.items from to face.now }
    ensures { MatchOption result (lookup (face_eq face.now) known.now.items ≡ None)
        (IsFirstAt known.now.items face.now) }
{
    let wanted = rank(face);
    let mut low = from;
    let mut high = to;
    while low < high {
        let middle = low + (high - low) / 2;
        let here = rank(&known[middle].0);
        if here == wanted {
            return Some(middle);
        }
        if here < wanted {
            low = middle + 1;
        } else {
            high = middle;
        }
    }
    None
}

// Whether the face can only stand from low on and before high, as its neighbours there tell.
fn is_between(known: &Vec<Known>, low: usize, high: usize, face: &Face) -> bool
    requires ascending { IsAscending known.now.items }
    ensures { IsTrue result → IsBetween known.now.items low high face.now }
{
    let wanted = rank(face);
    low <= high
        && high <= known.len()
        && (low == 0 || rank(&known[low - 1].0) < wanted)
        && (high == known.len() || wanted < rank(&known[high].0))
}

// Where the faces with the least number v should begin.
fn start_of(starts: &[u32], v: usize, end: usize) -> usize {
    match starts.get(v) {
        Some(start) => *start as usize,
        None => end,
    }
}

// Whether the face is the last of the known ones.
fn is_last(known: &Vec<Known>, face: &Face) -> bool
    requires ascending { IsAscending known.now.items }
    ensures { IsTrue result → IsFirstAt known.now.items face.now (vec_len known.now - 1) }
{
    let end = known.len();
    end > 0 && known[end - 1].0 == *face
}

/// Where the face is among the known ones.
///
/// It looks at the last one first, and then halves those with the same least number, which `starts` tells, and all of
/// them where that tells wrong.
pub fn find(known: &Vec<Known>, starts: &[u32], face: &Face) -> Option<usize>
    requires ascending { IsAscending known.now.items }
    ensures { MatchOption result (lookup (face_eq face.now) known.now.items ≡ None)
        (IsFirstAt known.now.items face.now) }
{
    let [v, _, _] = face.numbers();
    let v = v as usize;
    let end = known.len();
    if is_last(known, face) {
        return Some(end - 1);
    }
    let low = start_of(starts, v, end);
    let high = start_of(starts, v + 1, end);
    if is_between(known, low, high, face) {
        find_between(known, low, high, face)
    } else {
        find_between(known, 0, end, face)
    }
}

/// Whether the face comes after all known ones.
pub fn is_past(known: &Vec<Known>, face: &Face) -> bool
    requires ascending { IsAscending known.now.items }
    ensures { IsTrue result → IsBetween known.now.items (vec_len known.now) (vec_len known.now) face.now }
{
    let end = known.len();
    is_between(known, end, end, face)
}

/// Where the faces with each point as their least number begin, and where those of all points end. It is a hint alone.
pub fn list_starts(alloc: Global, points: u32, known: &[Known]) -> Result<Vec<u32>, NoMemory> {
    let mut starts = vec![in alloc; 0u32; (points as usize).saturating_add(1)]?;
    for (face, _count) in known {
        let [v, _, _] = face.numbers();
        if let Some(n) = starts.get_mut((v as usize).saturating_add(1)) {
            *n = n.wrapping_add(1);
        }
    }
    let mut sum = 0u32;
    for n in starts.iter_mut() {
        sum = sum.wrapping_add(*n);
        *n = sum;
    }
    Ok(starts)
}
