//! The lines of the sessions and their answers.
ghost use Rattle.std.specs.Prelude.{◌≡◌, ◌++◌, ◌∷◌, [], ◌<◌, ◌≤◌, length, flat_map, filter, codes, OnOk};
ghost use Rattle.std.specs.Fmt.{decimal};
ghost use Rattle.run_script.specs.Jobs.{box_count};
ghost use Rattle.step_registry.specs.Lines.{of_session};
ghost use Rattle.report.specs.Report.{line, route_word, answer_words, answer_text, session_words};
ghost use Rattle.report.specs.ByAnswers.{session_part, sessions_part};

use crate::NoMemory;
use crate::lines::{put_labelled, put_labelled_line, put_list_line};
use mesh_base::{Answer, Route};
use oct_text::put_text;
use run_script::{Job, SessionTurn};
use std::alloc::Global;

/// How an answer was found, as a word.
pub fn name_of_route(route: Route) -> &'static str
    ensures { result.now ≡ route_word route }
{
    match route {
        Route::Probe => "probe",
        Route::Walk => "walk",
        Route::Scan => "scan",
    }
}

/// The boxes of these turns together. It goes once over the turns.
pub fn count_boxes(turns: &[SessionTurn]) -> u32
    requires { box_count turns.now ≤ 100000 }
    ensures { result ≡ box_count turns.now }
{
    let mut count = 0;
    for turn in turns {
        count += turn.areas.items().len() as u32;
    }
    count
}

// Which box it is, and at which step it was answered.
fn put_place(alloc: Global, out: &mut Vec<u8>, answer: &Answer) -> Result<(), NoMemory>
    ensures { OnOk result (out.new.items ≡ out.old.items
        ++ (codes "box " ++ decimal answer.now.query ++ codes " step " ++ decimal answer.now.step)) }
{
    put_labelled(alloc, out, b"box ", u64::from(answer.query))?;
    put_labelled(alloc, out, b" step ", u64::from(answer.step))
}

// How an answer was found, how many vertices it has, and a line feed.
fn put_found(alloc: Global, out: &mut Vec<u8>, route: Route, count: usize) -> Result<(), NoMemory>
    ensures { OnOk result (out.new.items ≡ out.old.items
        ++ line (codes " route " ++ route_word route ++ codes " count " ++ decimal count)) }
{
    put_text(alloc, out, b" route ")?;
    put_text(alloc, out, name_of_route(route).as_bytes())?;
    put_labelled_line(alloc, out, b" count ", count as u64)
}

// The line of a box.
fn put_answer_line(alloc: Global, out: &mut Vec<u8>, answer: &Answer) -> Result<(), NoMemory>
    ensures { OnOk result (out.new.items ≡ out.old.items ++ line (answer_words answer.now)) }
{
    put_place(alloc, out, answer)?;
    put_found(alloc, out, answer.route, answer.vertices.items().len())
}

// The line of a box, and the line of its vertices.
fn put_answer(alloc: Global, out: &mut Vec<u8>, answer: &Answer) -> Result<(), NoMemory>
    ensures { OnOk result (out.new.items ≡ out.old.items ++ answer_text answer.now) }
{
    put_answer_line(alloc, out, answer)?;
    put_list_line(alloc, out, answer.vertices.items())
}

// An answer, if it is of this session.
fn put_answer_of(
    alloc: Global,
    out: &mut Vec<u8>,
    answer: &Answer,
    session: u32,
) -> Result<(), NoMemory>
    ensures { OnOk result (out.new.items ≡ out.old.items
        ++ flat_map answer_text (filter (of_session session) (answer.now ∷ []))) }
{
    if answer.session == session {
        put_answer(alloc, out, answer)
    } else {
        Ok(())
    }
}

// The answers of one session.
fn put_answers(
    alloc: Global,
    out: &mut Vec<u8>,
    answers: &[Answer],
    session: u32,
) -> Result<(), NoMemory>
    ensures { OnOk result (out.new.items ≡ out.old.items
        ++ flat_map answer_text (filter (of_session session) answers.now)) }
{
    for answer in answers {
        put_answer_of(alloc, out, answer, session)?;
    }
    Ok(())
}

/// Appends the line that says how many boxes a session has. After an error a part of it may stand in `out`.
pub fn put_session_line(
    alloc: Global,
    out: &mut Vec<u8>,
    job: &Job,
    session: u32,
) -> Result<(), NoMemory>
    requires { session < length job.now.sessions }
    ensures { OnOk result (out.new.items ≡ out.old.items ++ line (session_words job.now session)) }
{
    let boxes = count_boxes(job.turns(session));
    put_labelled(alloc, out, b"session ", u64::from(session))?;
    put_labelled_line(alloc, out, b" boxes ", u64::from(boxes))
}

// The part of one session.
fn put_session(
    alloc: Global,
    out: &mut Vec<u8>,
    job: &Job,
    answers: &[Answer],
    session: u32,
) -> Result<(), NoMemory>
    requires { session < length job.now.sessions }
    ensures { OnOk result (out.new.items ≡ out.old.items ++ session_part job.now answers.now session) }
{
    put_session_line(alloc, out, job, session)?;
    put_answers(alloc, out, answers, session)
}

/// Appends the parts of all sessions. It goes over the answers once for each session.
pub(crate) fn put_sessions(
    alloc: Global,
    out: &mut Vec<u8>,
    job: &Job,
    answers: &[Answer],
) -> Result<(), NoMemory>
    ensures { OnOk result (out.new.items ≡ out.old.items
        ++ sessions_part job.now answers.now (length job.now.sessions)) }
{
    for session in 0..job.sessions() {
        put_session(alloc, out, job, answers, session)?;
    }
    Ok(())
}
