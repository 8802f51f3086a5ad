//! The outside in memory, which tells all that it holds.
ghost use Rattle.std.specs.Prelude.{◌≡◌, ℕ, ◌+◌, ◌-◌, ◌^◌, ◌<◌, ◌≤◌, List, [], length, take, min, IfOk, Some, None, MatchOption, is_err, replicate};
ghost use Rattle.std.specs.Io.KnownBytes.{ReadConsumes, WriteAppends};
ghost use Rattle.oct_edge.specs.Causes.{raised, HasCause};
ghost use Rattle.oct_edge.specs.Outside.{Files, Selects, TakesPart};
ghost use Rattle.oct_edge.specs.Memory.{is_failing, FolderState, EndlessState, text_of, files_of, rest_at, read_len, select_fails, SinkState, write_fails, write_len, IsFolderCall, IsSinkCall};

use crate::edge::{Failed, Folder, Sink};
use crate::lists::{CallList, FileList, NamedFile};
use std::alloc::{AllocError, Global};
use std::marker::Model;

/// The allocator had no memory.
pub type NoMemory = AllocError;

fn is_among(numbers: &[u64], number: u64) -> bool
    ensures { result ≡ is_failing numbers.now number }
{
    numbers.contains(&number)
}

/// The index of the first file with this name.
fn find(files: &[NamedFile], name: &[u8]) -> Option<usize>
    ensures { MatchOption result (text_of name.now files.now ≡ None)
        (λ i. text_of name.now files.now ≡ Some (rest_at files.now i 0)) }
{
    for (i, file) in files.iter().enumerate() {
        if file.name.items() == name {
            return Some(i);
        }
    }
    None
}

/// Copies what is left of a file, as far as there is room.
fn copy_rest(files: &[NamedFile], chosen: usize, at: usize, most: usize, buf: &mut [u8]) -> usize
    ensures len { result ≡ min (min (length buf.new) most) (length (rest_at files.now chosen at)) }
    ensures bytes { take result buf.new ≡ take result (rest_at files.now chosen at) }
    ensures fits { at + result < 2 ^ 64 }
{
    let Some(file) = files.get(chosen) else {
        return 0;
    };
    let bytes = file.bytes.items();
    if at > bytes.len() {
        return 0;
    }
    let count = buf.len().min(most).min(bytes.len() - at);
    buf[..count].copy_from_slice(&bytes[at..at + count]);
    count
}

/// Files in memory. A call fails exactly where its number, counted from 0 over `select` and `read`
/// together, stands in the list of those that fail, or where it selects a name that isn't there.
/// The number stays at 2^64 - 1 once it is there. No call takes memory.
#[derive(Drop)]
pub struct MemFolder {
    files: FileList,
    failing: CallList,
    call: u64,
    chosen: usize,
    at: usize,
    most: usize,
    faults: u64,
    opened: u64,
}

impl Model for MemFolder {
    ghost Value = { FolderState };

    ghost invariant = { λ s. 1 ≤ s.most };

    ghost view = { λ s. record {
      files = s.files;
      failing = s.failing;
      call = s.call;
      rest = rest_at s.files s.chosen s.at;
      most = s.most;
      faults = s.faults;
      opened = s.opened;
    } };
}

impl MemFolder {
    /// No file is the current one, no call was made, and a read gives as much as there is.
    pub fn new(files: FileList, failing: CallList) -> MemFolder
        ensures { result ≡ record {
          files = files;
          failing = failing;
          call = 0;
          rest = [];
          most = 2 ^ 64 - 1;
          faults = 0;
          opened = 0;
        } }
    {
        let chosen = files.items().len();
        MemFolder {
            files,
            failing,
            call: 0,
            chosen,
            at: 0,
            most: usize::MAX,
            faults: 0,
            opened: 0,
        }
    }

    /// The same, but that each read gives at most so many bytes.
    pub fn with_most(self, most: u32) -> MemFolder
        requires { 1 ≤ most }
        ensures { result ≡ record self { most = most } }
    {
        let MemFolder {
            files,
            failing,
            call,
            chosen,
            at,
            most: _,
            faults,
            opened,
        } = self;
        MemFolder {
            files,
            failing,
            call,
            chosen,
            at,
            most: most as usize,
            faults,
            opened,
        }
    }
}

impl Folder for MemFolder {
    ghost files = { λ s. Some (files_of s.files) };

    ghost rest = { λ s. Some s.rest };

    ghost faults = { λ s. s.faults };

    ghost opened = { λ s. s.opened };

    fn select(&mut self, name: &str) -> Result<(), Failed>
        ensures files { self.new.files ≡ self.old.files }
        ensures selected { Selects (Some (files_of self.old.files)) name.now result (Some self.new.rest) }
        ensures opened { self.new.opened ≡ raised self.old.opened }
        ensures cause { HasCause self.old.faults self.new.faults result }
        ensures exact { is_err result ≡ select_fails self.old name.now }
        ensures counted { IsFolderCall self.old self.new }
    {
        let number = self.call;
        self.call = number.saturating_add(1);
        self.opened = self.opened.saturating_add(1);
        let found = if is_among(self.failing.items(), number) {
            None
        } else {
            find(self.files.items(), name.as_bytes())
        };
        self.at = 0;
        match found {
            Some(i) => {
                self.chosen = i;
                Ok(())
            }
            None => {
                self.chosen = self.files.items().len();
                self.faults = self.faults.saturating_add(1);
                Err(Failed)
            }
        }
    }

    fn read(&mut self, buf: &mut [u8]) -> Result<usize, Failed>
        ensures bound { IfOk result (λ n. n ≤ length buf.new) }
        ensures files { self.new.files ≡ self.old.files }
        ensures opened { self.new.opened ≡ self.old.opened }
        ensures bytes { ReadConsumes (Some self.old.rest) (Some self.new.rest) result buf.new }
        ensures cause { HasCause self.old.faults self.new.faults result }
        ensures exact { is_err result ≡ is_failing self.old.failing self.old.call }
        ensures count { IfOk result (λ n. n ≡ read_len self.old (length buf.new)) }
        ensures counted { IsFolderCall self.old self.new }
    {
        let number = self.call;
        self.call = number.saturating_add(1);
        if is_among(self.failing.items(), number) {
            self.faults = self.faults.saturating_add(1);
            return Err(Failed);
        }
        let count = copy_rest(self.files.items(), self.chosen, self.at, self.most, buf);
        self.at += count;
        Ok(count)
    }
}

/// Bytes that are kept in memory. A write fails exactly where its number, counted from 0, stands in
/// the list of those that fail, or where the piece isn't empty and the room is used up. The number
/// stays at 2^64 - 1 once it is there. A write takes no memory.
#[derive(Drop)]
pub struct MemSink {
    bytes: Vec<u8>,
    room: usize,
    failing: CallList,
    call: u64,
    most: usize,
    faults: u64,
}

impl Model for MemSink {
    ghost use Rattle.std.specs.Prelude.{◌≤◌, length};
    ghost use Rattle.std.specs.Vec.{vec_capacity};
    ghost use Rattle.oct_edge.specs.Memory.{SinkState};

    ghost Value = { SinkState };

    ghost view = { λ s. record {
      written = s.bytes.items;
      room = s.room;
      failing = s.failing;
      call = s.call;
      most = s.most;
      faults = s.faults;
    } };

    ghost invariant = { λ s. (s.room ≤ vec_capacity s.bytes) × (length s.bytes.items ≤ s.room) × (1 ≤ s.most) };
}

impl MemSink {
    /// Nothing was written. The room for all bytes is taken at once; only that can fail.
    pub fn new(alloc: Global, room: usize, failing: CallList) -> Result<MemSink, NoMemory>
        ensures { IfOk result (λ s. s ≡ record {
          written = [];
          room = room;
          failing = failing;
          call = 0;
          most = 2 ^ 64 - 1;
          faults = 0;
        }) }
    {
        let bytes = Vec::with_capacity(alloc, room)?;
        Ok(MemSink {
            bytes,
            room,
            failing,
            call: 0,
            most: usize::MAX,
            faults: 0,
        })
    }

    /// The same, but that each write takes at most so many bytes.
    pub fn with_most(self, most: u32) -> MemSink
        requires { 1 ≤ most }
        ensures { result ≡ record self { most = most } }
    {
        let MemSink {
            bytes,
            room,
            failing,
            call,
            most: _,
            faults,
        } = self;
        MemSink {
            bytes,
            room,
            failing,
            call,
            most: most as usize,
            faults,
        }
    }

    /// All that was written.
    pub fn bytes(&self) -> &[u8]
        ensures { result.now ≡ self.now.written }
    {
        &self.bytes
    }
}

impl Sink for MemSink {
    ghost written = { λ s. Some s.written };

    ghost faults = { λ s. s.faults };

    fn write(&mut self, piece: &[u8]) -> Result<usize, Failed>
        ensures part { TakesPart result piece.now }
        ensures bytes { WriteAppends (Some self.old.written) (Some self.new.written) result piece.now }
        ensures cause { HasCause self.old.faults self.new.faults result }
        ensures exact { is_err result ≡ write_fails self.old piece.now }
        ensures count { IfOk result (λ n. n ≡ write_len self.old piece.now) }
        ensures counted { IsSinkCall self.old self.new }
    {
        let number = self.call;
        self.call = number.saturating_add(1);
        let left = self.room - self.bytes.len();
        if is_among(self.failing.items(), number) || (!piece.is_empty() && left == 0) {
            self.faults = self.faults.saturating_add(1);
            return Err(Failed);
        }
        let count = piece.len().min(self.most).min(left);
        // There is room, so this can't be refused.
        if self.bytes.extend_from_slice(&piece[..count]).is_err() {
            unreachable!();
        }
        Ok(count)
    }
}

/// A folder in which each name is a file of one byte, repeated without end. No call fails. It tells
/// nothing of its files, since they have no whole text; contracts see the byte.
#[derive(Drop)]
pub struct EndlessFolder {
    byte: u8,
    opened: u64,
}

impl Model for EndlessFolder {
    ghost Value = { EndlessState };

    ghost view = { λ s. record { byte = s.byte; opened = s.opened } };
}

impl EndlessFolder {
    /// Each file repeats this byte. No file was selected.
    pub fn new(byte: u8) -> EndlessFolder
        ensures { result ≡ record { byte = byte; opened = 0 } }
    {
        EndlessFolder { byte, opened: 0 }
    }
}

impl Folder for EndlessFolder {
    ghost files = { λ _. None };

    ghost rest = { λ _. None };

    ghost faults = { λ _. 0 };

    ghost opened = { λ s. s.opened };

    fn select(&mut self, _name: &str) -> Result<(), Failed>
        ensures counted { self.new ≡ record self.old { opened = raised self.old.opened } }
        ensures ok { result ≡ Ok tt }
    {
        self.opened = self.opened.saturating_add(1);
        Ok(())
    }

    fn read(&mut self, buf: &mut [u8]) -> Result<usize, Failed>
        ensures same { self.new ≡ self.old }
        ensures full { result ≡ Ok (length buf.new) }
        ensures bytes { buf.new ≡ replicate (length buf.old) self.old.byte }
    {
        buf.fill(self.byte);
        Ok(buf.len())
    }
}
