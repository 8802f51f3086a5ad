//! Ascending lists, one without the other.
ghost use Rattle.std.specs.Prelude.{◌≡◌, ◌≤◌, ◌<◌, ◌++◌, ◌∷◌, [], ℕ, length, slice_index, IfOk, OnOk, IsTrue, ◌↔◌, if◌then◌else◌};
ghost use Rattle.std.specs.List.Sorted.{IsStrictlyIncreasing};
ghost use Rattle.box_watch.specs.Lists.{without};

use crate::NoMemory;
use std::alloc::Global;

// The first place from `from` on whose number isn't below x.
fn first_from(numbers: &[u32], from: usize, x: u32) -> usize
    requires { from ≤ length numbers.now }
    ensures from { from ≤ result }
    ensures within { result ≤ length numbers.now }
    ensures below { (k : ℕ) → from ≤ k → k < result → slice_index numbers.now k < x }
    ensures found { result < length numbers.now → x ≤ slice_index numbers.now result }
{
    for place in from..numbers.len() {
        if x <= numbers[place] {
            return place;
        }
    }
    numbers.len()
}

// Whether x stands at the place.
fn is_at(numbers: &[u32], place: usize, x: u32) -> bool
    ensures { IsTrue result ↔ (place < length numbers.now) × (slice_index numbers.now place ≡ x) }
{
    place < numbers.len() && numbers[place] == x
}

// Appends x, unless it is there.
fn push_unless(kept: &mut Vec<u32>, x: u32, is_there: bool) -> Result<(), NoMemory>
    ensures { OnOk result (kept.new.items ≡ kept.old.items ++ (if is_there then [] else x ∷ [])) }
{
    if !is_there {
        kept.push(x)?;
    }
    Ok(())
}

/// The numbers of the first list that the second one doesn't have. Both ascend. It goes once over both.
pub fn difference(alloc: Global, numbers: &[u32], others: &[u32]) -> Result<Vec<u32>, NoMemory>
    requires numbers { IsStrictlyIncreasing numbers.now }
    requires others { IsStrictlyIncreasing others.now }
    ensures { IfOk result (λ list. list.items ≡ without numbers.now others.now) }
{
    let mut kept = Vec::new(alloc);
    let mut place = 0;
    for number in numbers {
        place = first_from(others, place, *number);
        push_unless(&mut kept, *number, is_at(others, place, *number))?;
    }
    Ok(kept)
}
