//! Real files and the standard output. They tell nothing of content.
ghost use Rattle.std.specs.Prelude.{◌≡◌, None};

use crate::edge::{Failed, Folder, Sink};
use std::fs;
use std::io::{Read, Write};
use std::marker::Model;
use std::rt::Files;

/// The files of the system. A name is a path, taken from the folder that the process runs in.
/// At most one file is open at a time. Contracts see how many files were selected, and how many calls have failed.
#[derive(Drop)]
pub struct DiskFolder<'a, R: Files> {
    rt: &'a R,
    current: Option<R::File>,
    faults: u64,
    opened: u64,
}

impl<'a, R: Files> Model for DiskFolder<'a, R> {
    ghost use Rattle.oct_edge.specs.Counted.{CallCounts};

    ghost Value = { CallCounts };

    ghost view = { λ s. record { faults = s.faults; opened = s.opened } };
}

impl<'a, R: Files> DiskFolder<'a, R> {
    /// No file is open, no call was made, and so none has failed.
    pub fn new(rt: &'a R) -> DiskFolder<'a, R>
        ensures { result ≡ record { faults = 0; opened = 0 } }
    {
        DiskFolder {
            rt,
            current: None,
            faults: 0,
            opened: 0,
        }
    }
}

impl<'a, R: Files> Folder for DiskFolder<'a, R> {
    ghost files = { λ _. None };

    ghost rest = { λ _. None };

    ghost faults = { λ s. s.faults };

    ghost opened = { λ s. s.opened };

    /// Opens the file. One call of the system.
    fn select(&mut self, name: &str) -> Result<(), Failed> {
        self.opened = self.opened.saturating_add(1);
        match fs::open(self.rt, name) {
            Ok(file) => {
                self.current = Some(file);
                Ok(())
            }
            Err(_) => {
                self.current = None;
                self.faults = self.faults.saturating_add(1);
                Err(Failed)
            }
        }
    }

    /// Reads from the open file. One call of the system, and none where no file is open.
    fn read(&mut self, buf: &mut [u8]) -> Result<usize, Failed> {
        let Some(file) = &mut self.current else {
            return Ok(0);
        };
        match file.read(buf) {
            Ok(count) => Ok(count),
            Err(_) => {
                self.faults = self.faults.saturating_add(1);
                Err(Failed)
            }
        }
    }
}

/// The standard output. Contracts see how many calls have failed.
#[derive(Drop)]
pub struct StdSink<'a, R: Print> {
    rt: &'a R,
    faults: u64,
}

impl<'a, R: Print> Model for StdSink<'a, R> {
    ghost use Rattle.std.specs.Prelude.{ℕ};

    ghost Value = { ℕ };

    ghost view = { λ s. s.faults };
}

impl<'a, R: Print> StdSink<'a, R> {
    /// No call has failed.
    pub fn new(rt: &'a R) -> StdSink<'a, R>
        ensures { result ≡ 0 }
    {
        StdSink { rt, faults: 0 }
    }
}

impl<'a, R: Print> Sink for StdSink<'a, R> {
    ghost written = { λ _. None };

    ghost faults = { λ s. s };

    /// Writes to the standard output, with no buffer between. A call that takes nothing of a piece
    /// that has bytes counts as failed.
    fn write(&mut self, piece: &[u8]) -> Result<usize, Failed> {
        if piece.is_empty() {
            return Ok(0);
        }
        match std::io::writer(self.rt).write(piece) {
            Ok(count) if count > 0 => Ok(count),
            _ => {
                self.faults = self.faults.saturating_add(1);
                Err(Failed)
            }
        }
    }
}
