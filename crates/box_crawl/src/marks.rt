//! Marks on point numbers, all of which one step takes away.
ghost use Rattle.std.specs.Prelude.{◌≡◌, ◌==◌, ◌<◌, ◌≤◌, max, true, false, length, take, slice_set, replicate, IfOk, OnOk, OnErr};
ghost use Rattle.box_crawl.specs.Marked.{is_marked};

use mesh_base::NoMemory;
use std::alloc::Global;
use std::marker::Model;

/// A mark for each point number. It keeps a number for each point, and a round: a point is marked where its number is
/// the round. So the next round takes all marks away at once.
///
/// Contracts see which points are marked.
#[derive(Drop)]
pub struct Marks {
    numbers: Vec<u32>,
    round: u32,
}

impl Model for Marks {
    ghost use Rattle.std.specs.Prelude.{◌==◌, List, Bool, map};
    ghost use Rattle.box_crawl.specs.Marked.{AreNumbers};

    ghost Value = { List Bool };

    ghost view = { λ m. map (λ n. n == m.round) m.numbers.items };

    ghost invariant = { λ m. AreNumbers m.numbers.items m.round };
}

impl Marks {
    /// Marks for so many points, none of which is marked. It takes 4 bytes a point.
    pub fn new(alloc: Global, points: u32) -> Result<Marks, NoMemory>
        ensures marks { IfOk result (λ marks. marks ≡ replicate points false) }
        ensures len { IfOk result (λ marks. length marks ≡ points) }
    {
        Marks::with_round(alloc, points, 1)
    }

    /// Marks for so many points whose numbers are all 0, with this round: with round 0 all are marked, and else none.
    /// A crawl may take any marks. It takes 4 bytes a point.
    pub fn with_round(alloc: Global, points: u32, round: u32) -> Result<Marks, NoMemory>
        ensures marks { IfOk result (λ marks. marks ≡ replicate points (0 == round)) }
        ensures len { IfOk result (λ marks. length marks ≡ points) }
    {
        let numbers = vec![in alloc; 0u32; points as usize]?;
        Ok(Marks { numbers, round })
    }

    /// Makes room for so many points, where there is less. The marks that were there stay. After NoMemory nothing
    /// has changed.
    pub fn reach(&mut self, _alloc: Global, points: u32) -> Result<(), NoMemory>
        ensures ok { OnOk result (points ≤ length self.new) }
        ensures kept { OnOk result (take (length self.old) self.new ≡ self.old) }
        ensures len { OnOk result (length self.new ≡ max points (length self.old)) }
        ensures err { OnErr result (self.new ≡ self.old) }
    {
        let points = points as usize;
        if self.numbers.len() < points {
            self.numbers.resize(points, 0)?;
        }
        Ok(())
    }

    /// How many points it has marks for.
    pub fn len(&self) -> u32
        ensures { result ≡ length self.now }
    {
        self.numbers.len() as u32
    }

    /// Whether that is none.
    pub fn is_empty(&self) -> bool
        ensures { result ≡ (length self.now == 0) }
    {
        self.numbers.is_empty()
    }

    // Whether v is marked.
    pub(crate) fn is_marked(&self, v: u32) -> bool
        requires { v < length self.now }
        ensures { result ≡ is_marked self.now v }
    {
        self.numbers[v as usize] == self.round
    }

    // Marks v.
    pub(crate) fn mark(&mut self, v: u32)
        requires { v < length self.old }
        ensures { self.new ≡ slice_set self.old v true }
    {
        self.numbers[v as usize] = self.round;
    }

    // The next round, in which no point is marked.
    pub(crate) fn clear(&mut self)
        ensures { self.new ≡ replicate (length self.old) false }
    {
        if self.round == u32::MAX {
            self.numbers.fill(0);
            self.round = 1;
        } else {
            self.round += 1;
        }
    }
}
