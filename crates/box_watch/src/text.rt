//! The text of the watches of a run.
ghost use Rattle.std.specs.Prelude.{◌≡◌, ◌++◌, ◌<◌, length, flat_map, codes, OnOk, OnErr, IfOk};
ghost use Rattle.std.specs.List.{range_with_len};
ghost use Rattle.std.specs.Fmt.{decimal};
ghost use Rattle.step_registry.specs.Core.{IsWhole};
ghost use Rattle.report.specs.Report.{line, sizes_text};
ghost use Rattle.box_watch.specs.WatchText.{prior_word, watch_words, watch_lines, watched_session, watched_text, Watches};

use crate::NoMemory;
use crate::listing::session_list;
use crate::watch::Watch;
use oct_text::put_text;
use report::{
    put_journal, put_labelled, put_labelled_line, put_list_line, put_session_line, put_sizes,
};
use std::alloc::Global;
use step_registry::Registry;

// Which box it is, at which step it was asked.
fn put_place(alloc: Global, out: &mut Vec<u8>, watch: &Watch) -> Result<(), NoMemory>
    ensures { OnOk result (out.new.items ≡ out.old.items
        ++ (codes "box " ++ decimal watch.now.query ++ codes " step " ++ decimal watch.now.step)) }
{
    put_labelled(alloc, out, b"box ", u64::from(watch.query))?;
    put_labelled(alloc, out, b" step ", u64::from(watch.step))
}

// Which box was asked before.
fn put_prior(alloc: Global, out: &mut Vec<u8>, prior: Option<u32>) -> Result<(), NoMemory>
    ensures { OnOk result (out.new.items ≡ out.old.items ++ (codes " from " ++ prior_word prior)) }
{
    match prior {
        Some(query) => put_labelled(alloc, out, b" from ", u64::from(query)),
        None => put_text(alloc, out, b" from -"),
    }
}

// How many entered and how many left, and a line feed.
fn put_counts(alloc: Global, out: &mut Vec<u8>, entered: usize, left: usize) -> Result<(), NoMemory>
    ensures { OnOk result (out.new.items ≡ out.old.items
        ++ line (codes " entered " ++ decimal entered ++ codes " left " ++ decimal left)) }
{
    put_labelled(alloc, out, b" entered ", entered as u64)?;
    put_labelled_line(alloc, out, b" left ", left as u64)
}

// The line of a box.
fn put_watch_line(alloc: Global, out: &mut Vec<u8>, watch: &Watch) -> Result<(), NoMemory>
    ensures { OnOk result (out.new.items ≡ out.old.items ++ line (watch_words watch.now)) }
{
    put_place(alloc, out, watch)?;
    put_prior(alloc, out, watch.prior)?;
    put_counts(
        alloc,
        out,
        watch.entered.items().len(),
        watch.left.items().len(),
    )
}

// The line of a box, and the lines of what entered and of what left.
fn put_watch(alloc: Global, out: &mut Vec<u8>, watch: &Watch) -> Result<(), NoMemory>
    ensures { OnOk result (out.new.items ≡ out.old.items ++ watch_lines watch.now) }
{
    put_watch_line(alloc, out, watch)?;
    put_list_line(alloc, out, watch.entered.items())?;
    put_list_line(alloc, out, watch.left.items())
}

// All lines of these watches.
fn put_watches(alloc: Global, out: &mut Vec<u8>, list: &[Watch]) -> Result<(), NoMemory>
    ensures { OnOk result (out.new.items ≡ out.old.items ++ flat_map watch_lines list.now) }
{
    for watch in list {
        put_watch(alloc, out, watch)?;
    }
    Ok(())
}

// The part of one session.
fn put_session(
    alloc: Global,
    out: &mut Vec<u8>,
    registry: &Registry,
    session: u32,
) -> Result<(), NoMemory>
    requires whole { IsWhole registry.now.job registry.now.journal }
    requires there { session < length registry.now.job.sessions }
    ensures { OnOk result (out.new.items ≡ out.old.items
        ++ watched_session registry.now.job registry.now.journal session) }
{
    let list = session_list(alloc, registry, session)?;
    put_session_line(alloc, out, registry.job(), session)?;
    put_watches(alloc, out, &list)
}

// The parts of all sessions.
fn put_sessions(alloc: Global, out: &mut Vec<u8>, registry: &Registry) -> Result<(), NoMemory>
    requires { IsWhole registry.now.job registry.now.journal }
    ensures { OnOk result (out.new.items ≡ out.old.items
        ++ flat_map (watched_session registry.now.job registry.now.journal)
        (range_with_len 0 (length registry.now.job.sessions))) }
{
    for session in 0..registry.job().sessions() {
        put_session(alloc, out, registry, session)?;
    }
    Ok(())
}

// The text up to the sessions.
fn put_head(alloc: Global, out: &mut Vec<u8>, registry: &Registry) -> Result<(), NoMemory>
    ensures { OnOk result (out.new.items ≡ out.old.items
        ++ (line (codes "octopus watch 1") ++ sizes_text registry.now.job)) }
{
    put_text(alloc, out, b"octopus watch 1\n")?;
    put_sizes(alloc, out, registry.job())
}

// The text of the watches of a run.
#[tactic(auto, unfolding(crate::specs::WatchText::watched_text))]
fn text_of(alloc: Global, registry: &Registry) -> Result<Vec<u8>, NoMemory>
    requires { IsWhole registry.now.job registry.now.journal }
    ensures { IfOk result (λ text. text.items ≡ watched_text registry.now.job registry.now.journal) }
{
    let mut out = Vec::new(alloc);
    put_head(alloc, &mut out, registry)?;
    put_sessions(alloc, &mut out, registry)?;
    put_journal(alloc, &mut out, registry.journal())?;
    put_text(alloc, &mut out, b"end\n")?;
    Ok(out)
}

/// The text of the watches of a run whose journal is whole.
///
/// The text's journal lines print the journal, and all that is said of a whole run is true of it. It makes the watches
/// of one session at a time.
pub fn whole_watch(alloc: Global, registry: &Registry) -> Result<Vec<u8>, NoMemory>
    requires { IsWhole registry.now.job registry.now.journal }
    ensures text { IfOk result (λ text. text.items ≡ watched_text registry.now.job registry.now.journal) }
    ensures tells { IfOk result (λ text. Watches registry.now.job text.items) }
{
    let _steps = registry.job().steps();
    text_of(alloc, registry)
}

/// Appends the text of the watches of a run whose journal is whole.
///
/// After an error `out` holds what it held. The text is made as by `whole_watch` and copied once.
pub fn watch_text(alloc: Global, registry: &Registry, out: &mut Vec<u8>) -> Result<(), NoMemory>
    requires { IsWhole registry.now.job registry.now.journal }
    ensures ok { OnOk result (out.new.items ≡ out.old.items ++ watched_text registry.now.job registry.now.journal) }
    ensures err { OnErr result (out.new.items ≡ out.old.items) }
{
    let text = text_of(alloc, registry)?;
    put_text(alloc, out, &text)
}
