ghost use Rattle.std.specs.Prelude.{FitsSigned, ◌≤ℤ◌, ◌≡◌, ◌+◌, ◌*◌, ◌^◌, ◌<◌, ◌≤◌, true, Option, Some, None, IfOk, SomeIff};
ghost use Rattle.std.specs.Int.{w64};
ghost use Rattle.std.specs.Str.Parse.{digits_value};
ghost use Rattle.std.specs.Char.{digit_value};
ghost use Rattle.oct_text.specs.Numbers.{is_digit, are_digits, count_of, signed_of, signed_size};

use crate::signs::{has_minus, unsigned};

/// Why a text spells no coordinate.
#[derive(Clone, Copy, Debug, PartialEq, Eq)]
pub enum NumFault {
    /// It is no number, or has more than 40 bytes.
    Bad,
    /// Its value is not whole.
    NotWhole,
    /// Its value is whole, and below -2^30 or above 2^30.
    Range,
}

/// Why a text spells no count, or no signed number.
#[derive(Clone, Copy, Debug, PartialEq, Eq)]
pub enum CountFault {
    /// It is no such number, or has more than 40 bytes.
    Bad,
    /// Its value is out of the stated range.
    Over,
}

pub fn is_digit_byte(b: u8) -> bool
    ensures { result ≡ is_digit b }
{
    b >= b'0' && b <= b'9'
}

pub fn only_digits(text: &[u8]) -> bool
    ensures { result ≡ are_digits text.now }
{
    text.iter().all(|b| is_digit_byte(*b))
}

/// The value with one more digit, where it fits.
fn with_digit(value: u64, b: u8) -> Option<u64>
    requires { is_digit b ≡ true }
    ensures { SomeIff result (value * 10 + digit_value b < 2 ^ 64) (value * 10 + digit_value b) }
{
    match value.checked_mul(10) {
        Some(tens) => tens.checked_add(u64::from(b - b'0')),
        None => None,
    }
}

/// The number that the digits spell, where it fits.
fn value_of(digits: &[u8]) -> Option<u64>
    requires { are_digits digits.now ≡ true }
    ensures { SomeIff result (digits_value 10 digits.now < 2 ^ 64) (digits_value 10 digits.now) }
{
    let mut value: u64 = 0;
    for b in digits {
        match with_digit(value, *b) {
            Some(more) => value = more,
            None => return None,
        }
    }
    Some(value)
}

/// The count that the text spells: 1 to 40 digits, of at most this value.
///
/// It looks at each byte at most twice.
#[tactic(auto, unfolding(crate::specs::Numbers::count_of))]
pub fn count(text: &[u8], most: u64) -> Result<u64, CountFault>
    ensures exact { result ≡ count_of text.now most }
    ensures within { IfOk result (λ n. n ≤ most) }
{
    if text.is_empty() || text.len() > 40 || !only_digits(text) {
        return Err(CountFault::Bad);
    }
    match value_of(text) {
        Some(value) if value <= most => Ok(value),
        _ => Err(CountFault::Over),
    }
}

/// The size with its sign, where it fits.
fn with_sign(negative: bool, size: u64) -> Option<i64>
    ensures { SomeIff result (FitsSigned w64 (signed_size negative size)) (signed_size negative size) }
{
    const LOWEST: u64 = 9223372036854775808;
    if size < LOWEST {
        let value = size as i64;
        return Some(if negative { -value } else { value });
    }
    if negative && size == LOWEST {
        return Some(i64::MIN);
    }
    None
}

/// The signed number that the text spells: a sign or none and digits, at most 40 bytes, with a value in this range.
///
/// It looks at each byte at most twice.
#[tactic(auto, unfolding(crate::specs::Numbers::signed_of))]
pub fn signed(text: &[u8], least: i64, most: i64) -> Result<i64, CountFault>
    ensures exact { result ≡ signed_of text.now least most }
    ensures within { IfOk result (λ z. (least ≤ℤ z) × (z ≤ℤ most)) }
{
    let digits = unsigned(text);
    if digits.is_empty() || text.len() > 40 || !only_digits(digits) {
        return Err(CountFault::Bad);
    }
    let Some(size) = value_of(digits) else {
        return Err(CountFault::Over);
    };
    match with_sign(has_minus(text), size) {
        Some(value) if least <= value && value <= most => Ok(value),
        _ => Err(CountFault::Over),
    }
}
