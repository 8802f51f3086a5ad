//! How far rings go.
ghost use Rattle.std.specs.Prelude.{◌≡◌, ◌≤◌, ℕ};
ghost use Rattle.command_words.specs.Hops.{most_hops};

use std::marker::Model;

/// The most edges to the last ring.
pub const MOST_HOPS: u32 = 1_000;

/// How many edges away the last ring is, from 0 to 1,000.
#[derive(Clone, Copy, Debug, PartialEq, Eq)]
pub struct Hops {
    edges: u32,
}

impl Model for Hops {
    ghost Value = { ℕ };

    ghost view = { λ hops. hops.edges };

    ghost invariant = { λ hops. hops.edges ≤ most_hops };

    ghost inverse = { λ n. record { edges = n } };
}

impl Hops {
    /// So many edges.
    pub fn new(edges: u32) -> Hops
        requires { edges ≤ most_hops }
        ensures { result ≡ edges }
    {
        Hops { edges }
    }

    /// The number of edges.
    pub fn edges(self) -> u32
        ensures number { result ≡ self }
        ensures range { result ≤ most_hops }
    {
        self.edges
    }
}
