//! The numbers that stand often in a list.
ghost use Rattle.std.specs.Prelude.{◌≡◌, ℕ, ◌+◌, ◌<◌, ◌≤◌, length, take, slice_index, IfOk};
ghost use Rattle.std.specs.List.Sorted.{IsNonDecreasing};
ghost use Rattle.mesh_base.specs.Numbers.{IsListOf};
ghost use Rattle.cell_box.specs.Often.{times};

use mesh_base::NoMemory;
use std::alloc::Global;

// How often the number at k stands up to there, where `run` says it of the number before.
fn run_at(numbers: &[u32], k: usize, run: usize) -> usize
    requires sorted { IsNonDecreasing numbers.now }
    requires place { k < length numbers.now }
    requires run { (j : ℕ) → k ≡ j + 1 → run ≡ times (take k numbers.now) (slice_index numbers.now j) }
    ensures { result ≡ times (take (k + 1) numbers.now) (slice_index numbers.now k) }
{
    if k > 0 && numbers[k - 1] == numbers[k] {
        run + 1
    } else {
        1
    }
}

// The numbers that stand at least so often in a list in order, ascending, each once.
pub(crate) fn often(alloc: Global, numbers: &[u32], least: usize) -> Result<Vec<u32>, NoMemory>
    requires sorted { IsNonDecreasing numbers.now }
    requires some { 0 < least }
    ensures { IfOk result (λ found. IsListOf (λ i. least ≤ times numbers.now i) found.items) }
{
    let mut found = Vec::new(alloc);
    let mut run = 0;
    for k in 0..numbers.len() {
        run = run_at(numbers, k, run);
        if run == least {
            found.push(numbers[k])?;
        }
    }
    Ok(found)
}
