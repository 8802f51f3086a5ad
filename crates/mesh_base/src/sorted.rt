//! Places in ascending lists.
ghost use Rattle.std.specs.Prelude.{◌≡◌, ◌<◌, length, slice_index, MatchResult};
ghost use Rattle.std.specs.List.Sorted.{IsStrictlyIncreasing};
ghost use Rattle.mesh_base.specs.Numbers.{IsPlaceOf};

/// The place of a number in an ascending list, or else the place where it belongs.
///
/// It makes one comparison for each time that the length can be halved.
pub fn place_of(numbers: &[u32], v: u32) -> Result<usize, usize>
    requires ascending { IsStrictlyIncreasing numbers.now }
    ensures { MatchResult result
        (λ i. (i < length numbers.now) × (slice_index numbers.now i ≡ v))
        (IsPlaceOf v numbers.now) }
{
    numbers.binary_search(&v)
}
