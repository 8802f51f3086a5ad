ghost use Rattle.std.specs.Prelude.{◌≡◌, ℕ, ◌+◌, ◌*◌, ◌^◌, ◌<◌, ◌≤◌, length, take, true};
ghost use Rattle.std.specs.List.{prefix_len};
ghost use Rattle.std.specs.Char.{digit_value};
ghost use Rattle.std.specs.Str.Parse.{digits_value};
ghost use Rattle.oct_text.specs.Numbers.{is_digit};
ghost use Rattle.oct_text.specs.Scan.{IsCapped};

use crate::numbers::is_digit_byte;

const LIMIT: u64 = 1073741824;

/// The digits at the front of a text.
#[derive(Clone, Copy)]
pub struct DigitRun {
    pub len: usize,
    /// The number that they spell; above LIMIT it is no more exact.
    pub value: u64,
}

/// The value with one more digit.
fn with_digit(value: u64, b: u8) -> u64
    requires digit { is_digit b ≡ true }
    requires bounded { value < 2 ^ 40 }
    ensures bounded { result < 2 ^ 40 }
    ensures capped { (n : ℕ) → IsCapped n value → IsCapped (n * 10 + digit_value b) result }
{
    if value > LIMIT {
        value
    } else {
        value * 10 + u64::from(b - b'0')
    }
}

/// The digits at the front.
pub fn leading_digits(text: &[u8]) -> DigitRun
    ensures within { result.len ≤ length text.now }
    ensures exact { result.len ≡ prefix_len is_digit text.now }
    ensures value { IsCapped (digits_value 10 (take result.len text.now)) result.value }
{
    let mut value: u64 = 0;
    for (i, b) in text.iter().enumerate() {
        if !is_digit_byte(*b) {
            return DigitRun { len: i, value };
        }
        value = with_digit(value, *b);
    }
    DigitRun {
        len: text.len(),
        value,
    }
}
