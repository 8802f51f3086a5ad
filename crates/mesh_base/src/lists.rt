//! Lists of points, of cells and of point numbers. Their calls take no memory and copy nothing.
ghost use Rattle.std.specs.Prelude.{◌≡◌};

use crate::cell::Cell;
use crate::point::Point;
use std::marker::Model;

/// A list of points.
#[derive(Drop)]
pub struct PointList {
    items: Vec<Point>,
}

impl Model for PointList {
    ghost use Rattle.std.specs.Prelude.{List};
    ghost use Rattle.mesh_base.specs.Place.{Place};

    ghost Value = { List Place };

    ghost view = { λ l. l.items.items };
}

impl PointList {
    /// The list of these points, in their order.
    pub fn of(items: Vec<Point>) -> PointList
        ensures { result ≡ items.items }
    {
        PointList { items }
    }

    /// The points, in their order.
    pub fn items(&self) -> &[Point]
        ensures { result.now ≡ self.now }
    {
        self.items.as_slice()
    }

    /// The points as a vector, in their order.
    pub fn into_items(self) -> Vec<Point>
        ensures { result.items ≡ self }
    {
        let PointList { items } = self;
        items
    }
}

/// A list of cells, of which some are absent: an absent cell is None, and keeps the numbers of those after it.
#[derive(Drop)]
pub struct CellList {
    items: Vec<Option<Cell>>,
}

impl Model for CellList {
    ghost use Rattle.std.specs.Prelude.{List, Option};
    ghost use Rattle.mesh_base.specs.Mesh.{Corners};

    ghost Value = { List (Option Corners) };

    ghost view = { λ l. l.items.items };
}

impl CellList {
    /// The list of these cells, in their order.
    pub fn of(items: Vec<Option<Cell>>) -> CellList
        ensures { result ≡ items.items }
    {
        CellList { items }
    }

    /// The cells, in their order.
    pub fn items(&self) -> &[Option<Cell>]
        ensures { result.now ≡ self.now }
    {
        self.items.as_slice()
    }

    /// The cells as a vector, in their order.
    pub fn into_items(self) -> Vec<Option<Cell>>
        ensures { result.items ≡ self }
    {
        let CellList { items } = self;
        items
    }
}

/// A list of point numbers, mostly of vertices.
#[derive(Drop)]
pub struct VertexList {
    items: Vec<u32>,
}

impl Model for VertexList {
    ghost use Rattle.std.specs.Prelude.{List, ℕ};

    ghost Value = { List ℕ };

    ghost view = { λ l. l.items.items };
}

impl VertexList {
    /// The list of these numbers, in their order.
    pub fn of(items: Vec<u32>) -> VertexList
        ensures { result ≡ items.items }
    {
        VertexList { items }
    }

    /// The numbers, in their order.
    pub fn items(&self) -> &[u32]
        ensures { result.now ≡ self.now }
    {
        self.items.as_slice()
    }

    /// The numbers as a vector, in their order.
    pub fn into_items(self) -> Vec<u32>
        ensures { result.items ≡ self }
    {
        let VertexList { items } = self;
        items
    }
}
