ghost use Rattle.std.specs.Prelude.{ℕ, ◌*◌, ◌^◌, ◌<◌};
ghost use Rattle.oct_text.specs.Scan.{IsCapped};

const LIMIT: u64 = 1073741824;

/// The value times ten, so often.
pub fn times_ten(value: u64, count: u32) -> u64
    requires { value < 2 ^ 40 }
    ensures { (n : ℕ) → IsCapped n value → IsCapped (n * 10 ^ count) result }
{
    let mut more = value;
    for _i in 0..count {
        if more == 0 || more > LIMIT {
            return more;
        }
        more *= 10;
    }
    more
}
