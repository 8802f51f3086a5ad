//! The buffer over the pieces of a text.
ghost use Rattle.std.specs.Prelude.{◌≡◌, ◌+◌, ◌-◌, ◌^◌, ◌<◌, ◌≤◌, ◌++◌, [], length, take, drop, true, false, ◌∷◌, IfSome, OnOk, OnErr, vec_len, nat_lt, ◌&&◌, ◌||◌, if◌then◌else◌, min};
ghost use Rattle.std.specs.Borrow.{sem};
ghost use Rattle.oct_text.specs.Rest.{Rest, past_blanks, behind, front_of};
ghost use Rattle.oct_text.specs.Ahead.{TakesCount, TakesCounts, TakesWholes};
ghost use Rattle.oct_text.specs.Line.{LineBy};
ghost use Rattle.oct_text.specs.Taken.{front_taken, LeftBy, SkippedBy};
ghost use Rattle.oct_text.specs.contracts.tokens.Tokens.{the_row};
ghost use Rattle.std.specs.Io.BufRead.{Rests};

use crate::NoMemory;
use crate::ahead::{CountFront, behind as from_place, count_front, whole_front};
use crate::bounds::{all_blank, blanks, chomped, line_end, word_end};
use std::alloc::Global;
use std::marker::Model;

/// The tokens and lines of a text that comes in pieces of any size, with their byte places, counted from 0.
///
/// Contracts see it as the bytes that came and were not passed yet, the place of the first of them, and whether the
/// text ends with them. Bytes that were passed are given up; a token or a line in work is held whole.
#[derive(Drop)]
pub struct Tokens {
    kept: Vec<u8>,
    at: usize,
    place: u64,
    ended: bool,
    /// So many bytes from `at` on are no blanks.
    solid: usize,
    /// So many bytes from `at` on are no LF.
    unbroken: usize,
}

impl Model for Tokens {
    ghost use Rattle.std.specs.Prelude.{◌+◌, ◌-◌, ◌^◌, ◌<◌, ◌≤◌, drop, vec_len};
    ghost use Rattle.oct_text.specs.Rest.{Rest};
    ghost use Rattle.oct_text.specs.Kept.{IsKept};

    ghost Value = { Rest };

    ghost view = { λ t. record { place = t.place; bytes = drop t.at t.kept.items; ended = t.ended } };

    ghost invariant = { λ t. IsKept t.kept.items (vec_len t.kept) t.at t.place t.solid t.unbroken };
}

/// What `next` found.
#[derive(Clone, Copy, Debug, PartialEq, Eq)]
pub enum Taken<'a> {
    /// A token, and the place of its first byte.
    Token { place: u64, text: &'a [u8] },
    /// Further bytes, or `finish`, decide what comes.
    More,
    /// The text has ended; its length.
    End { place: u64 },
}

/// What `row_ahead` saw.
#[derive(Clone, Copy)]
pub struct RowAhead {
    /// The four counts behind the size.
    pub values: [u64; 4],
    /// How many bytes the size and the counts take, with the blanks before them.
    pub len: usize,
}

/// What `point_ahead` saw.
#[derive(Clone, Copy)]
pub struct PointAhead {
    pub x: i32,
    pub y: i32,
    pub z: i32,
    /// How many bytes the three take, with the blanks before them.
    pub len: usize,
}

/// What `line` found.
#[derive(Clone, Copy, Debug, PartialEq, Eq)]
pub enum LineTaken<'a> {
    /// A line without its LF and without one CR before it, and the place of its first byte.
    Line { place: u64, text: &'a [u8] },
    /// The line that begins at this place is too long.
    Long { place: u64 },
    /// Further bytes, or `finish`, decide what comes.
    More,
    /// The text ends with no further LF; its length.
    End { place: u64 },
}

/// What `skip_line` passed.
#[derive(Clone, Copy, Debug, PartialEq, Eq)]
pub enum Skipped {
    /// A line of blanks, or an empty one.
    Blank,
    /// Another line.
    Text,
    /// The end of the line did not come yet. Nothing was passed.
    More,
    /// The text has ended, and nothing was left.
    End,
}

fn passed(blank: bool) -> Skipped
    ensures { result ≡ (if blank then Skipped.Blank else Skipped.Text) }
{
    if blank { Skipped::Blank } else { Skipped::Text }
}

impl Tokens {
    /// A text of which nothing has come yet. It takes no memory.
    pub fn new(alloc: Global) -> Tokens
        ensures { result ≡ record { place = 0; bytes = []; ended = false } }
    {
        Tokens {
            kept: Vec::new(alloc),
            at: 0,
            place: 0,
            ended: false,
            solid: 0,
            unbroken: 0,
        }
    }

    /// Gives up the bytes that were passed, once they are as many as the others: a byte is moved only for one that was
    /// passed.
    fn forget(&mut self)
        ensures { self.new ≡ self.old }
    {
        let at = self.at;
        let left = self.kept.len() - at;
        if at >= left {
            let (passed, rest) = self.kept.split_at_mut(at);
            passed[..left].copy_from_slice(rest);
            self.kept.truncate(left);
            self.at = 0;
        }
    }

    /// Adds bytes at the end. After an error nothing has changed.
    ///
    /// It copies the piece; on the whole a byte that was left is moved only for a byte that was passed.
    pub fn feed(&mut self, alloc: Global, piece: &[u8]) -> Result<(), NoMemory>
        requires open { self.old.ended ≡ false }
        requires room { self.old.place + length self.old.bytes + length piece.now < 2 ^ 64 }
        ensures ok { OnOk result (self.new ≡ record self.old { bytes = self.old.bytes ++ piece.now }) }
        ensures err { OnErr result (self.new ≡ self.old) }
    {
        let _ = alloc;
        self.forget();
        self.kept.extend_from_slice(piece)?;
        Ok(())
    }

    /// Tells that no more bytes will come.
    pub fn finish(&mut self)
        ensures { self.new ≡ record self.old { ended = true } }
    {
        self.ended = true;
    }

    /// Whether `finish` was called.
    pub fn is_finished(&self) -> bool
        ensures { result ≡ self.now.ended }
    {
        self.ended
    }

    /// Passes the blanks at the front.
    fn pass_blanks(&mut self)
        ensures { self.new ≡ past_blanks self.old }
    {
        let count = blanks(&self.kept[self.at..]);
        if count > 0 {
            self.pass(count);
        }
    }

    /// The bytes that were not taken.
    fn rest(&self) -> &[u8]
        ensures { result.now ≡ self.now.bytes }
    {
        &self.kept[self.at..]
    }

    /// The place of the first byte that was not taken.
    pub fn place(&self) -> u64
        ensures { result ≡ self.now.place }
    {
        self.place
    }

    /// The place behind the last byte that came.
    pub fn end(&self) -> u64
        ensures { result ≡ self.now.place + length self.now.bytes }
    {
        self.place + (self.kept.len() - self.at) as u64
    }

    /// The count that the next token spells, where that is plain: at most nine digits, with at most three blanks before
    /// them and a blank behind them, and at least 16 bytes came. `None` tells nothing: read the token by `next`.
    ///
    /// Nothing is taken: `pass` does that. It looks at 14 bytes at most and takes no memory.
    pub fn count_ahead(&self) -> Option<CountFront>
        ensures within { IfSome result (λ ahead. ahead.len ≤ length self.now.bytes) }
        ensures exact { IfSome result (λ ahead. TakesCount self.now ahead.value (behind ahead.len self.now)) }
    {
        count_front(self.rest())
    }

    /// The next five counts, where the first is `size` and each is plain, as for `count_ahead`. `None` tells nothing.
    ///
    /// Nothing is taken. It looks at 70 bytes at most, and at 14 where the first count is another; it takes no memory.
    pub fn row_ahead(&self, size: u64) -> Option<RowAhead>
        ensures within { IfSome result (λ ahead. ahead.len ≤ length self.now.bytes) }
        ensures exact { IfSome result (λ ahead. TakesCounts self.now (size ∷ ahead.values)
            (behind ahead.len self.now)) }
    {
        let rest = self.rest();
        let head = count_front(rest)?;
        if head.value != size {
            return None;
        }
        let mut len = head.len;
        let mut values = [0; 4];
        for i in 0..4usize {
            let next = count_front(from_place(rest, len))?;
            values[i] = next.value;
            len += next.len;
        }
        Some(RowAhead { values, len })
    }

    /// The next three coordinates, where each has at most 40 bytes, at most three blanks before it and a blank behind
    /// it, and at least 64 bytes came from its blanks on. `None` tells nothing.
    ///
    /// Nothing is taken. It looks at 132 bytes at most, each at most three times, and takes no memory.
    pub fn point_ahead(&self) -> Option<PointAhead>
        ensures within { IfSome result (λ ahead. ahead.len ≤ length self.now.bytes) }
        ensures exact { IfSome result (λ ahead. TakesWholes self.now (ahead.x ∷ ahead.y ∷ ahead.z ∷ [])
            (behind ahead.len self.now)) }
    {
        let rest = self.rest();
        let x = whole_front(rest)?;
        let behind_x = from_place(rest, x.len);
        let y = whole_front(behind_x)?;
        let behind_y = from_place(behind_x, y.len);
        let z = whole_front(behind_y)?;
        Some(PointAhead {
            x: x.value,
            y: y.value,
            z: z.value,
            len: x.len + y.len + z.len,
        })
    }

    /// Passes so many bytes, of those that came. It looks at none of them.
    pub fn pass(&mut self, count: usize)
        requires { count ≤ length self.old.bytes }
        ensures { self.new ≡ behind count self.old }
    {
        self.at += count;
        self.place += count as u64;
        self.solid = 0;
        self.unbroken = 0;
    }

    /// The next line, of at most so many bytes without its LF and one CR before it.
    ///
    /// The first `most + 2` bytes decide: with an LF among them the line ends there, and it is long where it has more
    /// than `most` bytes; with so many bytes and no LF it is long; with fewer bytes more have to come, or the text
    /// ends. After `Long`, `More` and `End` nothing has changed. It looks at each byte once, however often it answers
    /// `More`.
    pub fn line(&mut self, most: usize) -> LineTaken<'_>
        ensures* after { sem 𝓛 (Rests the_row self.entry (λ new. LineBy most self.old result new)) }
    {
        let rest = self.rest();
        let left = rest.len();
        let front = &rest[..seen_len(left, most)];
        let len = line_end(front, self.unbroken.min(front.len()));
        let place = self.place;
        if len == front.len() {
            if left.saturating_sub(most) >= 2 {
                return LineTaken::Long { place };
            }
            if self.ended {
                return LineTaken::End {
                    place: place + left as u64,
                };
            }
            self.unbroken = len;
            return LineTaken::More;
        }
        if chomped(&rest[..len]).len() > most {
            return LineTaken::Long { place };
        }
        let start = self.at;
        self.at += len + 1;
        self.place += len as u64 + 1;
        self.solid = 0;
        self.unbroken = 0;
        LineTaken::Line {
            place,
            text: chomped(part(&self.kept, start, len)),
        }
    }

    /// Passes the next line, whatever its length, and tells whether it had only blanks. A last line ends with the text.
    ///
    /// It looks at each byte at most twice, however often it answers `More`.
    pub fn skip_line(&mut self) -> Skipped
        ensures { SkippedBy self.old result self.new }
    {
        let rest = self.rest();
        let left = rest.len();
        let len = line_end(rest, self.unbroken);
        if len < left {
            let blank = all_blank(&rest[..len]);
            self.pass(len + 1);
            return passed(blank);
        }
        if !self.ended {
            self.unbroken = len;
            return Skipped::More;
        }
        if left == 0 {
            return Skipped::End;
        }
        let blank = all_blank(&rest[..len]);
        self.pass(len);
        passed(blank)
    }

    /// The next token of the whole text: a longest run of bytes that are not blanks.
    ///
    /// The blanks in front are passed with every answer. It looks at each byte once, however often it answers `More`.
    pub fn next(&mut self) -> Taken<'_>
        ensures found { front_taken result ≡ front_of (past_blanks self.old) }
        ensures* after { sem 𝓛 (Rests the_row self.entry (λ new. LeftBy self.old result new)) }
    {
        self.pass_blanks();
        let rest = self.rest();
        let left = rest.len();
        let len = word_end(rest, self.solid);
        let place = self.place;
        if is_whole(len, left, self.ended) {
            let start = self.at;
            self.at += len;
            self.place += len as u64;
            self.solid = 0;
            self.unbroken = 0;
            return Taken::Token {
                place,
                text: part(&self.kept, start, len),
            };
        }
        if self.ended {
            return Taken::End { place };
        }
        self.solid = len;
        Taken::More
    }
}

/// How many bytes are looked at for a line of at most `most` bytes: those of the line, a CR and an LF.
fn seen_len(left: usize, most: usize) -> usize
    ensures { result ≡ min left (most + 2) }
{
    if left.saturating_sub(most) < 2 {
        left
    } else {
        most + 2
    }
}

fn part(kept: &Vec<u8>, start: usize, len: usize) -> &[u8]
    requires { start + len ≤ vec_len kept.now }
    ensures { result.now ≡ take len (drop start kept.now.items) }
{
    &kept[start..start + len]
}

/// Whether a token of this length is whole, in front of so many bytes.
fn is_whole(len: usize, left: usize, ended: bool) -> bool
    ensures { result ≡ (nat_lt len left || (ended && nat_lt 0 left)) }
{
    len < left || (ended && left > 0)
}
