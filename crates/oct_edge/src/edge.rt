//! The outside as the program sees it: files that are read, and bytes that are written.
ghost use Rattle.std.specs.Prelude.{◌≡◌, ℕ, ◌≤◌, List, Option, length, IfOk};
ghost use Rattle.std.specs.Io.KnownBytes.{ReadConsumes, WriteAppends};
ghost use Rattle.oct_edge.specs.Causes.{raised, HasCause};
ghost use Rattle.oct_edge.specs.Outside.{Files, Selects, TakesPart};

/// A call on the outside failed: a file isn't there, or a read or a write was refused.
#[derive(Clone, Copy, Debug, PartialEq, Eq)]
pub struct Failed;

/// Files that are read one at a time, each from its first byte to its end.
///
/// An implementation says of itself, in ghost members, what its files hold. One that can't know
/// (a disk) says `None`, and then no clause says anything of the bytes.
pub trait Folder {
    /// The texts of the files by their names, where the folder tells them. No call changes them.
    ghost files: { Self → Option Files };

    /// What is left of the current file, where the folder tells it. Before the first `select` nothing is.
    ghost rest: { Self → Option (List ℕ) };

    /// How many calls have failed: one more for each. The count stays at 2^64 - 1 once it is there.
    ghost faults: { Self → ℕ };

    /// How many files were selected, those that aren't there among them. The count stays at 2^64 - 1 once it is there.
    ghost opened: { Self → ℕ };

    /// Makes a file the current one, from its first byte. A missing file is a failure.
    /// After `Failed` the current file is empty.
    fn select(&mut self, name: &str) -> Result<(), Failed>
        ensures files { files self.new ≡ files self.old }
        ensures selected { Selects (files self.old) name.now result (rest self.new) }
        ensures opened { opened self.new ≡ raised (opened self.old) }
        ensures cause { HasCause (faults self.old) (faults self.new) result };

    /// Reads on in the current file, into the front of `buf`, and says how many bytes it put there:
    /// 0 only at the end of the file or where `buf` is empty. After `Failed` what is left of the
    /// current file is as before.
    fn read(&mut self, buf: &mut [u8]) -> Result<usize, Failed>
        ensures bound { IfOk result (λ n. n ≤ length buf.new) }
        ensures files { files self.new ≡ files self.old }
        ensures opened { opened self.new ≡ opened self.old }
        ensures bytes { ReadConsumes (rest self.old) (rest self.new) result buf.new }
        ensures cause { HasCause (faults self.old) (faults self.new) result };
}

/// Where bytes are written.
pub trait Sink {
    /// All that was written, where the sink tells it.
    ghost written: { Self → Option (List ℕ) };

    /// How many calls have failed: one more for each. The count stays at 2^64 - 1 once it is there.
    ghost faults: { Self → ℕ };

    /// Writes a front part of `piece` and says how many bytes it took: 0 only of an empty piece.
    /// After `Failed` nothing was written.
    fn write(&mut self, piece: &[u8]) -> Result<usize, Failed>
        ensures part { TakesPart result piece.now }
        ensures bytes { WriteAppends (written self.old) (written self.new) result piece.now }
        ensures cause { HasCause (faults self.old) (faults self.new) result };
}
