//! How often each face is counted: a list in ascending order for the faces that were there first, and a map for the
//! others.
//!
//! A face keeps its home. One of the list is counted there, down to 0 and up again; any other is in the map.
ghost use Rattle.std.specs.Prelude.{◌≡◌, ℕ, ◌+◌, ◌^◌, ◌<◌, ◌≤◌, ◌-◌, true, false, Some, length, slice_get, count_by, [], ◌∷◌, if◌then◌else◌, IsOk, IfOk, OnOk, OnErr};
ghost use Rattle.std.specs.List.{IsDistinct};
ghost use Rattle.std.specs.Map.{keys_of};
ghost use Rattle.mesh_base.specs.Edit.{quarters};
ghost use Rattle.mesh_base.specs.Mesh.{Face as PlainFace, is_on, has_corner, faces, face_eq, face_count};
ghost use Rattle.face_table.specs.Tally.{tally_in, single_share, single_count};

use crate::counts::{self, Counts};
use crate::known::{Known, find, is_past, list_starts};
use indexmap::IndexMap;
use mesh_base::{Cell, Face, NoMemory};
use std::alloc::Global;
use std::marker::Model;

/// The counted faces with their counts.
#[derive(Drop)]
pub struct FaceCounts {
    known: Vec<Known>,
    // Where the faces with each least number begin. Nothing rests on it.
    starts: Vec<u32>,
    more: Counts,
}

impl Model for FaceCounts {
    ghost use Rattle.std.specs.Prelude.{◌++◌};
    ghost use Rattle.indexmap.specs.IndexMap.{spare as room_of};
    ghost use Rattle.face_table.specs.Tally.{CountsView};
    ghost use Rattle.face_table.specs.Known.{AreHomes};

    ghost Value = { CountsView };

    ghost view = { λ t. record { entries = t.known.items ++ t.more.entries; spare = room_of t.more } };

    ghost invariant = { λ t. AreHomes t.known.items t.more.entries };
}

impl FaceCounts {
    /// No counts, with room for so many faces in the list where memory allows.
    pub fn with_room(alloc: Global, faces: usize) -> FaceCounts
        ensures { (f : PlainFace) → tally_in result.entries f ≡ 0 }
    {
        let mut known = Vec::new(alloc);
        let _ = known.reserve(faces);
        FaceCounts {
            known,
            starts: Vec::new(alloc),
            more: IndexMap::new(alloc),
        }
    }

    /// Notes where the list has the faces of each point, so that they are found sooner.
    pub fn note_starts(&mut self, alloc: Global, points: u32) -> Result<(), NoMemory>
        ensures { self.new.entries ≡ self.old.entries }
    {
        self.starts = list_starts(alloc, points, self.known.as_slice())?;
        Ok(())
    }

    /// How many entries there are. No two have the same face.
    pub fn len(&self) -> usize
        ensures len { result ≡ length self.now.entries }
        ensures few { (v : ℕ) → single_count self.now.entries v + 1 < 2 ^ 64 }
        ensures unique { IsDistinct face_eq (keys_of self.now.entries) }
    {
        self.known.len() + self.more.len()
    }

    /// Entry i.
    pub fn entry(&self, i: usize) -> (Face, u32)
        requires there { i < length self.now.entries }
        ensures entry { slice_get self.now.entries i ≡ Some result }
        ensures counted { tally_in self.now.entries result.0 ≡ result.1 }
    {
        let count = self.known.len();
        if i < count {
            self.known[i]
        } else {
            let (face, n) = self.more.get_index(i - count).unwrap();
            (*face, *n)
        }
    }

    /// Makes room for so many more faces. The counts stay the same.
    pub fn reserve(&mut self, faces: usize) -> Result<(), NoMemory>
        ensures entries { self.new.entries ≡ self.old.entries }
        ensures ok { OnOk result (faces ≤ self.new.spare) }
        ensures room { self.old.spare ≤ self.new.spare }
    {
        self.more.reserve(faces)?;
        Ok(())
    }

    /// How often the face is counted.
    pub fn count_of(&self, face: &Face) -> u32
        ensures { result ≡ tally_in self.now.entries face.now }
    {
        match find(&self.known, &self.starts, face) {
            Some(i) => self.known[i].1,
            None => counts::count_of(&self.more, face),
        }
    }

    /// Counts the face once more, and gives its count before.
    pub fn count_up(&mut self, face: Face) -> Result<u32, NoMemory>
        requires fits { tally_in self.old.entries face + 1 < 2 ^ 32 }
        ensures before { IfOk result (λ n. n ≡ tally_in self.old.entries face) }
        ensures tally { OnOk result ((f : PlainFace)
            → tally_in self.new.entries f ≡ tally_in self.old.entries f + (if face_eq face f then 1 else 0)) }
        ensures singles { OnOk result ((v : ℕ) → single_count self.new.entries v
            + single_share v (face, tally_in self.old.entries face)
            ≡ single_count self.old.entries v + single_share v (face, tally_in self.old.entries face + 1)) }
        ensures room { self.old.spare ≤ self.new.spare + 1 }
        ensures succeeds { 0 < self.old.spare → IsOk result }
    {
        match find(&self.known, &self.starts, &face) {
            Some(i) => {
                let before = self.known[i].1;
                self.known[i] = (face, before + 1);
                Ok(before)
            }
            None => counts::count_up(&mut self.more, face),
        }
    }

    /// Counts the face once less, and gives its count before. It takes no memory.
    pub fn count_down(&mut self, face: &Face) -> u32
        requires there { 0 < tally_in self.old.entries face.now }
        ensures before { result ≡ tally_in self.old.entries face.now }
        ensures tally { (f : PlainFace) → tally_in self.new.entries f + (if face_eq face.now f then 1 else 0)
            ≡ tally_in self.old.entries f }
        ensures singles { (v : ℕ) → single_count self.new.entries v + single_share v (face.now, result)
            ≡ single_count self.old.entries v + single_share v (face.now, result - 1) }
    {
        match find(&self.known, &self.starts, face) {
            Some(i) => {
                let before = self.known[i].1;
                self.known[i] = (*face, before - 1);
                before
            }
            None => counts::count_down(&mut self.more, face),
        }
    }

    // Counts a new face twice.
    fn count_new(&mut self, face: Face)
        requires room { 0 < self.old.spare }
        requires new { tally_in self.old.entries face ≡ 0 }
        ensures tally { (f : PlainFace) → tally_in self.new.entries f
            ≡ tally_in self.old.entries f + (if face_eq face f then 2 else 0) }
        ensures singles { (v : ℕ) → single_count self.new.entries v ≡ single_count self.old.entries v }
        ensures room { self.old.spare ≤ self.new.spare + 1 }
    {
        match find(&self.known, &self.starts, &face) {
            Some(i) => self.known[i] = (face, 2),
            None => counts::count_new(&mut self.more, face),
        }
    }

    /// Counts the face once more. One that comes after all others goes to the end of the list.
    pub fn put(&mut self, face: Face) -> Result<(), NoMemory>
        requires fits { tally_in self.old.entries face + 1 < 2 ^ 32 }
        ensures tally { OnOk result ((f : PlainFace)
            → tally_in self.new.entries f ≡ tally_in self.old.entries f + (if face_eq face f then 1 else 0)) }
    {
        if self.more.is_empty() && is_past(&self.known, &face) {
            self.known.push((face, 1))?;
            return Ok(());
        }
        self.count_up(face)?;
        Ok(())
    }
}

/// Counts the six faces that a new point has with two corners of a cell. Two of the four cells round the point have
/// each.
pub fn count_split(counts: &mut FaceCounts, point: u32, cell: &Cell)
    requires room { 6 ≤ counts.old.spare }
    requires new { (f : PlainFace) → is_on f point ≡ true → tally_in counts.old.entries f ≡ 0 }
    requires beside { has_corner cell.now point ≡ false }
    ensures tally { (f : PlainFace) → tally_in counts.new.entries f + count_by (λ g. face_eq g f) (faces cell.now)
        ≡ tally_in counts.old.entries f + face_count (quarters point cell.now) f }
    ensures singles { (v : ℕ) → single_count counts.new.entries v ≡ single_count counts.old.entries v }
{
    let [a, b, c, d] = cell.corners();
    counts.count_new(Face::new(a, b, point));
    counts.count_new(Face::new(a, c, point));
    counts.count_new(Face::new(a, d, point));
    counts.count_new(Face::new(b, c, point));
    counts.count_new(Face::new(b, d, point));
    counts.count_new(Face::new(c, d, point));
}
