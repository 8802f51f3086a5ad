//! Rings of vertices.
ghost use Rattle.std.specs.Prelude.{◌≡◌};

use mesh_base::VertexList;
use std::marker::Model;

/// The vertices at one distance from the vertices that rings are made round, in edges of the mesh.
#[derive(Drop)]
pub struct Ring {
    /// The vertices, ascending, each once.
    pub vertices: VertexList,
    /// For each of them, in their order, its least neighbour in the ring before. Ring 0 has none.
    pub sources: VertexList,
}

/// A list of rings, from ring 0 on. Its calls take no memory and copy nothing.
#[derive(Drop)]
pub struct RingList {
    items: Vec<Ring>,
}

impl Model for RingList {
    ghost use Rattle.std.specs.Prelude.{List};
    ghost use Rattle.hop_rings.specs.declared.ring.Ring.{Ring};

    ghost Value = { List Ring };

    ghost view = { λ l. l.items.items };
}

impl RingList {
    /// The list of these rings, in their order.
    pub fn of(items: Vec<Ring>) -> RingList
        ensures { result ≡ items.items }
    {
        RingList { items }
    }

    /// The rings, in their order.
    pub fn items(&self) -> &[Ring]
        ensures { result.now ≡ self.now }
    {
        self.items.as_slice()
    }

    /// The rings as a vector, in their order.
    pub fn into_items(self) -> Vec<Ring>
        ensures { result.items ≡ self }
    {
        let RingList { items } = self;
        items
    }
}
