//! Numbers at the front of the bytes that came, where they are spelled plainly. None of it changes anything.
ghost use Rattle.std.specs.Prelude.{◌≡◌, ◌-◌, ◌≤◌, length, take, drop, IfSome};
ghost use Rattle.oct_text.specs.Ahead.{HasCount, HasWhole};

use crate::bounds::{blanks, is_blank_byte, word_end};
use crate::coordinate::whole;
use crate::short::short_digits;

/// A count at the front.
#[derive(Clone, Copy)]
pub struct CountFront {
    pub value: u64,
    /// How many bytes it takes, with the blanks before it.
    pub len: usize,
}

/// A coordinate at the front.
#[derive(Clone, Copy)]
pub struct WholeFront {
    pub value: i32,
    /// How many bytes it takes, with the blanks before it.
    pub len: usize,
}

// The first bytes.
fn first(bytes: &[u8], count: usize) -> &[u8]
    requires { count ≤ length bytes.now }
    ensures bytes { result.now ≡ take count bytes.now }
    ensures len { length result.now ≡ count }
{
    &bytes[..count]
}

/// What stands behind the first bytes.
pub fn behind(bytes: &[u8], count: usize) -> &[u8]
    requires { count ≤ length bytes.now }
    ensures bytes { result.now ≡ drop count bytes.now }
    ensures len { length result.now ≡ length bytes.now - count }
{
    &bytes[count..]
}

/// The count at the front, where it has at most nine digits, at most three blanks before it and a blank behind it, and
/// at least 16 bytes are there. It looks at 14 bytes at most.
#[inline(always)]
pub fn count_front(bytes: &[u8]) -> Option<CountFront>
    ensures within { IfSome result (λ f. f.len ≤ length bytes.now) }
    ensures exact { IfSome result (λ f. HasCount bytes.now f.value f.len) }
{
    if bytes.len() < 16 {
        return None;
    }
    let start = blanks(first(bytes, 3));
    let word = behind(bytes, start);
    let digits = short_digits(first(word, 10));
    if digits.len == 0 || digits.len > 9 || !is_blank_byte(word[digits.len]) {
        return None;
    }
    Some(CountFront {
        value: digits.value,
        len: start + digits.len,
    })
}

/// The coordinate at the front, where it has at most 40 bytes, at most three blanks before it and a blank behind it,
/// and at least 64 bytes are there. It looks at 44 bytes at most, each at most three times.
pub fn whole_front(bytes: &[u8]) -> Option<WholeFront>
    ensures within { IfSome result (λ f. f.len ≤ length bytes.now) }
    ensures exact { IfSome result (λ f. HasWhole bytes.now f.value f.len) }
{
    if bytes.len() < 64 {
        return None;
    }
    let start = blanks(first(bytes, 3));
    let word = behind(bytes, start);
    let len = word_end(first(word, 41), 0);
    if len == 0 || len > 40 {
        return None;
    }
    match whole(first(word, len)) {
        Ok(value) => Some(WholeFront {
            value,
            len: start + len,
        }),
        Err(_) => None,
    }
}
