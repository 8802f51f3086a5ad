//! Lines of words and numbers.
ghost use Rattle.std.specs.Prelude.{◌≡◌, ◌++◌, codes, OnOk};
ghost use Rattle.std.specs.Fmt.{decimal};
ghost use Rattle.report.specs.Report.{line, list_line, sizes_text};

use crate::NoMemory;
use itoa::Buffer;
use oct_text::{put_list, put_text};
use run_script::Job;
use std::alloc::Global;

/// Appends a label and a number. After an error a part of it may stand in `out`.
pub fn put_labelled(
    alloc: Global,
    out: &mut Vec<u8>,
    label: &[u8],
    value: u64,
) -> Result<(), NoMemory>
    ensures { OnOk result (out.new.items ≡ out.old.items ++ label.now ++ decimal value) }
{
    let mut buffer = Buffer::new();
    put_text(alloc, out, label)?;
    put_text(alloc, out, buffer.format(value).as_bytes())
}

/// Appends a label, a number and a line feed. After an error a part of it may stand in `out`.
pub fn put_labelled_line(
    alloc: Global,
    out: &mut Vec<u8>,
    label: &[u8],
    value: u64,
) -> Result<(), NoMemory>
    ensures { OnOk result (out.new.items ≡ out.old.items ++ line (label.now ++ decimal value)) }
{
    put_labelled(alloc, out, label, value)?;
    put_text(alloc, out, b"\n")
}

/// Appends a label, two numbers with a space between them, and a line feed.
pub(crate) fn put_pair_line(
    alloc: Global,
    out: &mut Vec<u8>,
    label: &[u8],
    first: u32,
    second: u32,
) -> Result<(), NoMemory>
    ensures { OnOk result (out.new.items ≡ out.old.items
        ++ line (label.now ++ decimal first ++ codes " " ++ decimal second)) }
{
    put_labelled(alloc, out, label, u64::from(first))?;
    put_labelled_line(alloc, out, b" ", u64::from(second))
}

/// Appends a line of numbers, or nothing where there are none. After an error a part of it may stand in `out`.
pub fn put_list_line(alloc: Global, out: &mut Vec<u8>, numbers: &[u32]) -> Result<(), NoMemory>
    ensures { OnOk result (out.new.items ≡ out.old.items ++ list_line numbers.now) }
{
    if numbers.is_empty() {
        return Ok(());
    }
    put_list(alloc, out, numbers)?;
    put_text(alloc, out, b"\n")
}

/// Appends the lines that say how many steps and how many sessions a job has. After an error a part of them may stand
/// in `out`.
pub fn put_sizes(alloc: Global, out: &mut Vec<u8>, job: &Job) -> Result<(), NoMemory>
    ensures { OnOk result (out.new.items ≡ out.old.items ++ sizes_text job.now) }
{
    put_labelled_line(alloc, out, b"steps ", u64::from(job.steps()))?;
    put_labelled_line(alloc, out, b"sessions ", u64::from(job.sessions()))
}
