//! The text of a report.
ghost use Rattle.std.specs.Prelude.{◌≡◌, ◌++◌, [], OnOk, OnErr, IfOk};
ghost use Rattle.step_registry.specs.Core.{IsWhole};
ghost use Rattle.report.specs.Headline.{Reports};
ghost use Rattle.report.specs.Report.{report_text};
ghost use Rattle.report.specs.ByAnswers.{front_part, text_by};

use crate::NoMemory;
use crate::answers::put_sessions;
use crate::journal::put_journal;
use crate::lines::put_sizes;
use mesh_base::Answer;
use oct_text::put_text;
use run_script::Job;
use std::alloc::Global;
use step_registry::{Event, Registry};

// Room in bytes for the lines that each report has, for the line of an event, for the line of a box, and for a vertex
// and what stands behind it. A vertex is below 1,000,000 and a step at most 10,000, so a report seldom needs more.
const FRONT_ROOM: usize = 1024;

const EVENT_ROOM: usize = 16;

const BOX_ROOM: usize = 64;

const VERTEX_ROOM: usize = 7;

// A text of nothing yet, with room for a report of these answers and this journal.
fn roomy_text(alloc: Global, answers: &[Answer], journal: &[Event]) -> Result<Vec<u8>, NoMemory>
    ensures { IfOk result (λ text. text.items ≡ []) }
{
    let mut room = journal.len().saturating_mul(EVENT_ROOM);
    room = room.saturating_add(FRONT_ROOM);
    for answer in answers {
        let list = answer.vertices.items().len().saturating_mul(VERTEX_ROOM);
        room = room.saturating_add(list).saturating_add(BOX_ROOM);
    }
    Vec::with_capacity(alloc, room)
}

// The text up to its journal.
fn put_front(
    alloc: Global,
    out: &mut Vec<u8>,
    job: &Job,
    answers: &[Answer],
) -> Result<(), NoMemory>
    ensures { OnOk result (out.new.items ≡ out.old.items ++ front_part job.now answers.now) }
{
    put_text(alloc, out, b"octopus report 1\n")?;
    put_sizes(alloc, out, job)?;
    put_sessions(alloc, out, job, answers)
}

// The report by the answers and the journal.
pub(crate) fn text_of(
    alloc: Global,
    job: &Job,
    answers: &[Answer],
    journal: &[Event],
) -> Result<Vec<u8>, NoMemory>
    ensures { IfOk result (λ text. text.items ≡ text_by job.now answers.now journal.now) }
{
    let mut out = roomy_text(alloc, answers, journal)?;
    put_front(alloc, &mut out, job, answers)?;
    put_journal(alloc, &mut out, journal)?;
    put_text(alloc, &mut out, b"end\n")?;
    Ok(out)
}

// The report of a registry.
fn report_of(alloc: Global, registry: &Registry) -> Result<Vec<u8>, NoMemory>
    ensures { IfOk result (λ text. text.items ≡ report_text registry.now.job registry.now.journal) }
{
    text_of(
        alloc,
        registry.job(),
        registry.answers(),
        registry.journal(),
    )
}

/// The report of a registry whose journal is whole.
///
/// The text's journal lines print the journal, and all that is said of a whole run is true of it. It goes over the
/// answers once for each session and over the journal once, after one pass that finds how much room the text needs; the
/// text is reserved at once.
pub fn whole_report(alloc: Global, registry: &Registry) -> Result<Vec<u8>, NoMemory>
    requires { IsWhole registry.now.job registry.now.journal }
    ensures text { IfOk result (λ text. text.items ≡ report_text registry.now.job registry.now.journal) }
    ensures tells { IfOk result (λ text. Reports registry.now.job text.items) }
{
    let _steps = registry.job().steps();
    report_of(alloc, registry)
}

/// Appends the report of a registry whose journal is whole.
///
/// After an error `out` holds what it held. The text is made by `whole_report` and copied once.
pub fn report(alloc: Global, registry: &Registry, out: &mut Vec<u8>) -> Result<(), NoMemory>
    requires { IsWhole registry.now.job registry.now.journal }
    ensures ok { OnOk result (out.new.items ≡ out.old.items ++ report_text registry.now.job registry.now.journal) }
    ensures err { OnErr result (out.new.items ≡ out.old.items) }
{
    let text = report_of(alloc, registry)?;
    put_text(alloc, out, &text)
}
