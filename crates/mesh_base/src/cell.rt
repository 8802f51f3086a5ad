//! Tetrahedra and their faces.
ghost use Rattle.std.specs.Prelude.{◌≡◌, ◌≢◌, ◌<◌, [], ◌∷◌, SomeIff};
ghost use Rattle.mesh_base.specs.Mesh.{AreDifferent, corners_of, faces, face_of};

use std::marker::Model;

/// A tetrahedron: the numbers of its four corners, all different. It keeps their order.
#[derive(Clone, Copy, Debug, PartialEq, Eq)]
pub struct Cell {
    a: u32,
    b: u32,
    c: u32,
    d: u32,
}

impl Model for Cell {
    ghost use Rattle.mesh_base.specs.Mesh.{Corners, AreDifferent};

    ghost Value = { Corners };

    ghost view = { λ c. (c.a, c.b, c.c, c.d) };

    ghost invariant = { λ c. AreDifferent (c.a, c.b, c.c, c.d) };

    ghost inverse = { λ c. record { a = c.0; b = c.1; c = c.2; d = c.3 } };
}

/// Three point numbers in ascending order.
#[derive(Clone, Copy, Debug, PartialEq, Eq, Hash)]
pub struct Face {
    low: u32,
    middle: u32,
    high: u32,
}

impl Model for Face {
    ghost use Rattle.std.specs.Prelude.{◌<◌};
    ghost use Rattle.mesh_base.specs.Mesh.{Face as Three};

    ghost Value = { Three };

    ghost view = { λ f. (f.low, f.middle, f.high) };

    ghost invariant = { λ f. (f.low < f.middle) × (f.middle < f.high) };

    ghost inverse = { λ f. record { low = f.0; middle = f.1; high = f.2 } };
}

impl Face {
    /// The face of three different point numbers, in any order.
    pub fn new(a: u32, b: u32, c: u32) -> Face
        requires ab { a ≢ b }
        requires ac { a ≢ c }
        requires bc { b ≢ c }
        ensures { result ≡ face_of a b c }
    {
        let low = a.min(b.min(c));
        let middle = a.min(b).max(a.max(b).min(c));
        let high = a.max(b.max(c));
        Face { low, middle, high }
    }

    /// Its three point numbers, ascending.
    pub fn numbers(&self) -> [u32; 3]
        ensures numbers { result ≡ self.now.0 ∷ self.now.1 ∷ self.now.2 ∷ [] }
        ensures ascending { (self.now.0 < self.now.1) × (self.now.1 < self.now.2) }
    {
        [self.low, self.middle, self.high]
    }
}

impl Cell {
    /// The cell with these corners. None where two of them are equal.
    pub fn new(corners: [u32; 4]) -> Option<Cell>
        ensures { let c = corners_of corners in SomeIff result (AreDifferent c) c }
    {
        let [a, b, c, d] = corners;
        if a != b && a != c && a != d && b != c && b != d && c != d {
            Some(Cell { a, b, c, d })
        } else {
            None
        }
    }

    /// Its corners, in the order in which they were given.
    pub fn corners(&self) -> [u32; 4]
        ensures corners { result ≡ self.now.0 ∷ self.now.1 ∷ self.now.2 ∷ self.now.3 ∷ [] }
        ensures different { AreDifferent self.now }
    {
        [self.a, self.b, self.c, self.d]
    }

    /// Its four faces: that without the first corner, the second, the third and the fourth.
    pub fn faces(&self) -> [Face; 4]
        ensures { result ≡ faces self.now }
    {
        [
            Face::new(self.b, self.c, self.d),
            Face::new(self.a, self.c, self.d),
            Face::new(self.a, self.b, self.d),
            Face::new(self.a, self.b, self.c),
        ]
    }
}
