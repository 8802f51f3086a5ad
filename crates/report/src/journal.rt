//! The lines of a journal.
ghost use Rattle.std.specs.Prelude.{◌≡◌, ◌++◌, OnOk};
ghost use Rattle.report.specs.Report.{event_text, journal_text};

use crate::NoMemory;
use crate::lines::{put_labelled_line, put_pair_line};
use oct_text::put_text;
use std::alloc::Global;
use step_registry::Event;

/// Appends the line of an event. After an error a part of it may stand in `out`.
pub fn put_event(alloc: Global, out: &mut Vec<u8>, event: &Event) -> Result<(), NoMemory>
    ensures { OnOk result (out.new.items ≡ out.old.items ++ event_text event.now) }
{
    match *event {
        Event::Publish { step } => put_labelled_line(alloc, out, b"publish ", u64::from(step)),
        Event::Pin { session, step } => put_pair_line(alloc, out, b"pin ", session, step),
        Event::Unpin { session, step, .. } => put_pair_line(alloc, out, b"unpin ", session, step),
        Event::Close => put_text(alloc, out, b"close\n"),
    }
}

/// Appends how many events there are, and the line of each. After an error a part of it may stand in `out`.
pub fn put_journal(alloc: Global, out: &mut Vec<u8>, journal: &[Event]) -> Result<(), NoMemory>
    ensures { OnOk result (out.new.items ≡ out.old.items ++ journal_text journal.now) }
{
    put_labelled_line(alloc, out, b"journal ", journal.len() as u64)?;
    for event in journal {
        put_event(alloc, out, event)?;
    }
    Ok(())
}
