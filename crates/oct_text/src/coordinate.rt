ghost use Rattle.std.specs.Prelude.{◌≡◌, ℕ, ◌+◌, ◌-◌, ◌*◌, ◌^◌, ◌<◌, ◌≤◌, length, [], ◌++◌, true, false, min, drop, None, IfSome, IfOk, nat_lt, ◌&&◌};
ghost use Rattle.std.specs.List.{prefix_len, before_first};
ghost use Rattle.oct_text.specs.Numbers.{is_digit, are_digits, whole_quotient, is_e, coordinate_of, exponent_fits, mantissa_fits, size_spelled, scaled_by};
ghost use Rattle.std.specs.Str.Parse.{digits_value};
ghost use Rattle.oct_text.specs.Scan.{IsCapped};
ghost use Rattle.oct_text.specs.Parts.{in_range, IsFraction, IsMantissa, Says, ends_mantissa};

use crate::leading::leading_digits;
use crate::numbers::{NumFault, is_digit_byte, only_digits};
use crate::scan::Scan;
use crate::signs::{has_minus, unsigned};
use crate::times::times_ten;

const LIMIT: u64 = 1073741824;

/// What the digits before and behind a point say, times ten so often, by ten so often.
fn sized(front: &[u8], back: &[u8], up: u32, down: u32) -> Result<u64, NumFault>
    requires front_digits { are_digits front.now ≡ true }
    requires back_digits { are_digits back.now ≡ true }
    requires short { length front.now + length back.now ≤ 40 }
    requires near { up ≤ 1000 }
    ensures exact { result ≡ whole_quotient (digits_value 10 (front.now ++ back.now) * 10 ^ up) (10 ^ down) }
    ensures within { IfOk result (λ n. n ≤ 2 ^ 30) }
{
    let count = (front.len() + back.len()) as u32;
    let place = (count + up).saturating_sub(down);
    let scan = Scan::new(place).digits(front).digits(back);
    if scan.clean {
        let value = times_ten(scan.value, scan.left);
        if value > LIMIT {
            Err(NumFault::Range)
        } else {
            Ok(value)
        }
    } else {
        Err(NumFault::NotWhole)
    }
}

fn is_e_byte(b: u8) -> bool
    ensures { result ≡ is_e b }
{
    b == b'e' || b == b'E'
}

/// How many digits stand at the front.
fn digits_len(text: &[u8]) -> usize
    ensures within { result ≤ length text.now }
    ensures exact { result ≡ prefix_len is_digit text.now }
{
    for (i, b) in text.iter().enumerate() {
        if !is_digit_byte(*b) {
            return i;
        }
    }
    text.len()
}

/// The digits behind a point at the front, and what comes behind them. Without a point there are none.
fn fraction(text: &[u8]) -> (&[u8], &[u8])
    ensures { IsFraction text.now result.0.now result.1.now }
{
    match text {
        [b'.', after @ ..] => after.split_at(digits_len(after)),
        _ => (&text[..0], text),
    }
}

/// Whether the mantissa ends here, with the text or with an e.
fn is_mantissa_end(rest: &[u8]) -> bool
    ensures { result ≡ ends_mantissa rest.now }
{
    match rest {
        [] => true,
        [b, ..] => is_e_byte(*b),
    }
}

/// Whether so many digits, with this behind them, are a mantissa.
fn is_mantissa(digits: usize, rest: &[u8]) -> bool
    ensures { result ≡ (ends_mantissa rest.now && nat_lt 0 digits) }
{
    is_mantissa_end(rest) && digits > 0
}

/// The digits before and behind a point, and what comes behind them: nothing, or an exponent from its e on.
fn mantissa(text: &[u8], front_len: usize) -> Option<(&[u8], &[u8], &[u8])>
    requires within { front_len ≤ length text.now }
    requires digits { front_len ≡ prefix_len is_digit text.now }
    ensures none { result ≡ None → mantissa_fits (before_first is_e text.now) ≡ false }
    ensures some { IfSome result (λ m. IsMantissa text.now m.0.now m.1.now m.2.now) }
{
    let (front, behind) = text.split_at(front_len);
    let (back, rest) = fraction(behind);
    if is_mantissa(front.len() + back.len(), rest) {
        Some((front, back, rest))
    } else {
        None
    }
}

/// The number that the digits spell, or 1000 where that is less.
fn capped(digits: &[u8]) -> u32
    requires { are_digits digits.now ≡ true }
    ensures { result ≡ min (digits_value 10 digits.now) 1000 }
{
    let mut value: u32 = 0;
    for b in digits {
        value = (value * 10 + u32::from(*b - b'0')).min(1000);
    }
    value
}

/// What an exponent says: its sign, and its size up to 1000.
#[derive(Clone, Copy)]
struct Exponent {
    negative: bool,
    size: u32,
}

/// What the exponent says, from its e on; with no e, 0.
fn exponent_of(rest: &[u8]) -> Option<Exponent>
    ensures none { result ≡ None → (nat_lt 0 (length rest.now) ≡ true) × (exponent_fits (drop 1 rest.now) ≡ false) }
    ensures some { IfSome result (λ e. Says (nat_lt 0 (length rest.now)) (drop 1 rest.now) e.negative e.size) }
{
    let [_, text @ ..] = rest else {
        return Some(Exponent {
            negative: false,
            size: 0,
        });
    };
    let digits = unsigned(text);
    if digits.is_empty() || !only_digits(digits) {
        return None;
    }
    Some(Exponent {
        negative: has_minus(text),
        size: capped(digits),
    })
}

/// The digits with their exponent.
fn with_exponent(front: &[u8], back: &[u8], e: Exponent) -> Result<u64, NumFault>
    requires front_digits { are_digits front.now ≡ true }
    requires back_digits { are_digits back.now ≡ true }
    requires short { length front.now + length back.now ≤ 40 }
    requires near { e.size ≤ 1000 }
    ensures exact { (size : ℕ) → e.size ≡ min size 1000
        → result ≡ scaled_by (front.now ++ back.now) (length back.now) e.negative size }
    ensures within { IfOk result (λ n. n ≤ 2 ^ 30) }
{
    if e.negative {
        sized(front, back, 0, back.len() as u32 + e.size)
    } else {
        sized(front, back, e.size, back.len() as u32)
    }
}

/// The number that digits alone spell, of which this is known.
fn plain(value: u64) -> Result<u64, NumFault>
    ensures exact { (n : ℕ) → IsCapped n value → result ≡ in_range n }
    ensures within { IfOk result (λ n. n ≤ 2 ^ 30) }
{
    if value > LIMIT {
        Err(NumFault::Range)
    } else {
        Ok(value)
    }
}

/// The number without its sign.
#[tactic(auto, unfolding(crate::specs::Numbers::size_spelled))]
fn size_of_number(text: &[u8]) -> Result<u64, NumFault>
    requires { length text.now ≤ 40 }
    ensures exact { result ≡ size_spelled text.now }
    ensures within { IfOk result (λ n. n ≤ 2 ^ 30) }
{
    let digits = leading_digits(text);
    if digits.len == text.len() && digits.len > 0 {
        return plain(digits.value);
    }
    let Some((front, back, rest)) = mantissa(text, digits.len) else {
        return Err(NumFault::Bad);
    };
    match exponent_of(rest) {
        Some(e) => with_exponent(front, back, e),
        None => Err(NumFault::Bad),
    }
}

/// The coordinate that the text spells: a whole number from -2^30 to 2^30, of at most 40 bytes.
///
/// A sign or none, digits with perhaps a point among them, before or behind them, and perhaps an exponent, `e` or `E`
/// with a sign or none and digits. The value is taken as an exact fraction: `-0` and `0e999` are 0, `250e-1` is 25,
/// `5e-1` is not whole. It looks at each byte at most twice, whatever the exponent is.
#[tactic(auto, unfolding(crate::specs::Numbers::coordinate_of))]
pub fn whole(text: &[u8]) -> Result<i32, NumFault>
    ensures { result ≡ coordinate_of text.now }
{
    if text.len() > 40 {
        return Err(NumFault::Bad);
    }
    let size = size_of_number(unsigned(text))?;
    if has_minus(text) {
        Ok(-(size as i32))
    } else {
        Ok(size as i32)
    }
}
