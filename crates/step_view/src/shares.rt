//! Shares of one step.
ghost use Rattle.std.specs.Prelude.{◌≡◌, ◌+◌, ◌<◌, ◌≤◌, length, IfOk};
ghost use Rattle.step_view.specs.Rows.{all_shares};

use crate::step::Step;
use arrayvec::ArrayVec;
use mesh_base::NoMemory;
use std::alloc::Global;
use std::marker::Model;

/// Shares of one step, at least one and at most nine. To move one, in or out, takes no memory.
///
/// Contracts see which step it is, and how many shares there are.
#[derive(Drop)]
pub struct Shares {
    row: ArrayVec<Option<Step>, 9>,
}

impl Model for Shares {
    ghost use Rattle.std.specs.Prelude.{length};
    ghost use Rattle.step_view.specs.Rows.{SharesView, IsRow, front_step};

    ghost Value = { SharesView };

    ghost view = { λ s. record { step = front_step s.row.items; count = length s.row.items } };

    ghost invariant = { λ s. IsRow s.row.items };
}

impl Shares {
    /// All shares of the step: one for each session of its job, and one more. After NoMemory the step is gone. It costs
    /// three counts a share, and copies no place and no cell.
    pub fn make(_alloc: Global, step: Step) -> Result<Shares, NoMemory>
        ensures { IfOk result (λ shares. shares ≡ all_shares step.job step.number) }
    {
        let mut row = ArrayVec::new();
        for _session in 0..step.job().sessions() {
            row.push(Some(step.share()?));
        }
        row.push(Some(step));
        Ok(Shares { row })
    }

    /// The step that they are shares of.
    pub fn step(&self) -> &Step
        ensures { result.now ≡ self.now.step }
    {
        match self.row.first() {
            Some(Some(step)) => step,
            _ => unreachable!(),
        }
    }

    /// How many there are.
    pub fn count(&self) -> u32
        ensures count { result ≡ self.now.count }
        ensures some { 0 < result }
        ensures few { result ≤ 9 }
    {
        self.row.len() as u32
    }

    /// Takes one share out, of at least two. It can't be refused.
    pub fn take(&mut self) -> Step
        requires { 1 < self.old.count }
        ensures share { result ≡ self.old.step }
        ensures step { self.new.step ≡ self.old.step }
        ensures count { self.new.count + 1 ≡ self.old.count }
    {
        match self.row.pop() {
            Some(Some(step)) => step,
            _ => unreachable!(),
        }
    }

    /// Puts a share of the same step back, where there are at most eight. It can't be refused.
    pub fn put(&mut self, share: Step)
        requires same { share ≡ self.old.step }
        requires room { self.old.count ≤ 8 }
        ensures step { self.new.step ≡ self.old.step }
        ensures count { self.new.count ≡ self.old.count + 1 }
    {
        self.row.push(Some(share));
    }
}
