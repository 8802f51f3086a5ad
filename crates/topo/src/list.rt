//! The cells of a topology.
ghost use Rattle.std.specs.Prelude.{◌≡◌, ◌+◌, ◌<◌, ◌≤◌, [], ◌∷◌, ◌++◌, Some, None, length, vec_len, vec_capacity, map, slice_set, IfOk, OnOk};
ghost use Rattle.topo.specs.Cells.{listed, HasRoom};

use mesh_base::{Cell, MOST_CELLS, Mesh, NoMemory};
use std::alloc::Global;
use std::sync::Arc;

/// The cells of a topology: those of a mesh as long as no edit changes any, and from then on a list of its own.
#[derive(Drop)]
pub enum Cells {
    Shared(Arc<Mesh>),
    Own(Vec<Option<Cell>>),
}

// A copy of these, with room for so many more.
fn copied(alloc: Global, cells: &[Option<Cell>], more: usize) -> Result<Vec<Option<Cell>>, NoMemory>
    requires few { length cells.now ≤ MOST_CELLS }
    requires little { more ≤ 4 }
    ensures cells { IfOk result (λ own. own.items ≡ cells.now) }
    ensures room { IfOk result (λ own. vec_len own + more ≤ vec_capacity own) }
{
    let mut own = Vec::with_capacity(alloc, cells.len() + more)?;
    own.extend_from_slice(cells)?;
    Ok(own)
}

// One entry becomes absent, and these cells come at the end, where there is room.
fn split_list(cells: &mut Vec<Option<Cell>>, split: u32, quarters: &[Cell])
    requires live { split < vec_len cells.old }
    requires room { vec_len cells.old + length quarters.now ≤ vec_capacity cells.old }
    ensures { cells.new.items ≡ slice_set cells.old.items split None ++ map Some quarters.now }
{
    cells[split as usize] = None;
    for cell in quarters {
        cells.push_reserved(Some(*cell));
    }
}

impl Cells {
    /// The cells, by their numbers. An absent one is None.
    pub fn as_slice(&self) -> &[Option<Cell>]
        ensures { result.now ≡ listed self.now }
    {
        match self {
            Cells::Shared(mesh) => mesh.cells(),
            Cells::Own(list) => list.as_slice(),
        }
    }

    /// Makes room for so many cells more. Those of a mesh are copied, and are the topology's own from now on.
    pub fn reserve(&mut self, alloc: Global, more: usize) -> Result<(), NoMemory>
        requires little { more ≤ 4 }
        ensures room { OnOk result (HasRoom more self.new) }
        ensures same { listed self.new ≡ listed self.old }
    {
        let own = match self {
            Cells::Shared(mesh) => copied(alloc, mesh.cells(), more)?,
            Cells::Own(list) => return list.reserve(more),
        };
        *self = Cells::Own(own);
        Ok(())
    }

    /// One cell more, at the end.
    pub fn push_reserved(&mut self, cell: Cell)
        requires { HasRoom 1 self.old }
        ensures { listed self.new ≡ listed self.old ++ Some cell ∷ [] }
    {
        match self {
            Cells::Own(list) => list.push_reserved(Some(cell)),
            Cells::Shared(_) => unreachable!(),
        }
    }

    /// Cell i becomes absent.
    pub fn remove(&mut self, i: u32)
        requires own { HasRoom 0 self.old }
        requires there { i < length (listed self.old) }
        ensures { listed self.new ≡ slice_set (listed self.old) i None }
    {
        match self {
            Cells::Own(list) => list[i as usize] = None,
            Cells::Shared(_) => unreachable!(),
        }
    }

    /// Cell i becomes absent, and these cells come at the end.
    pub fn split(&mut self, i: u32, quarters: &[Cell])
        requires room { HasRoom (length quarters.now) self.old }
        requires there { i < length (listed self.old) }
        ensures { listed self.new ≡ slice_set (listed self.old) i None ++ map Some quarters.now }
    {
        match self {
            Cells::Own(list) => split_list(list, i, quarters),
            Cells::Shared(_) => unreachable!(),
        }
    }
}
