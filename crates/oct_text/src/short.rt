//! Digits of a short text, read without a bound on the value.
ghost use Rattle.std.specs.Prelude.{◌≡◌, ◌≤◌, length, take};
ghost use Rattle.std.specs.List.{prefix_len};
ghost use Rattle.std.specs.Str.Parse.{digits_value};
ghost use Rattle.oct_text.specs.Numbers.{is_digit};

use crate::numbers::is_digit_byte;

/// The digits at the front of a text of at most ten bytes: how many they are, and exactly the number that they spell.
#[derive(Clone, Copy)]
pub struct ShortRun {
    pub len: usize,
    pub value: u64,
}

/// The digits at the front. It looks at each of them once.
pub fn short_digits(text: &[u8]) -> ShortRun
    requires { length text.now ≤ 10 }
    ensures within { result.len ≤ length text.now }
    ensures exact { result.len ≡ prefix_len is_digit text.now }
    ensures value { result.value ≡ digits_value 10 (take result.len text.now) }
{
    let mut value: u64 = 0;
    for (i, b) in text.iter().enumerate() {
        if !is_digit_byte(*b) {
            return ShortRun { len: i, value };
        }
        value = value * 10 + u64::from(*b - b'0');
    }
    ShortRun {
        len: text.len(),
        value,
    }
}
