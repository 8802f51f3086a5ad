//! The rules of a journal, read a second time.
use run_script::Job;
use step_registry::Event;

// What a reader of a journal knows after some of its events.
#[derive(Drop)]
struct Reader {
    newest: u32,
    is_closed: bool,
    out: [Option<u32>; 8],
    done: [usize; 8],
}

// The steps are published in order, up to the last one of the job.
fn publish(reader: &mut Reader, job: &Job, step: u32) -> bool {
    let next = reader.newest.wrapping_add(1);
    reader.newest = step;
    !reader.is_closed && step == next && step <= job.steps()
}

// A session pins the newest step, where it has none and its next turn needs no later one.
fn pin(reader: &mut Reader, job: &Job, session: u32, step: u32) -> bool {
    let s = session as usize;
    if s >= 8 || session >= job.sessions() || reader.out[s].is_some() {
        return false;
    }
    reader.out[s] = Some(step);
    match job.turns(session).get(reader.done[s]) {
        Some(turn) => step == reader.newest && turn.need <= step,
        None => false,
    }
}

// It gives back what it has, with the answers of its turn.
fn unpin(reader: &mut Reader, session: u32, step: u32) -> bool {
    let s = session as usize;
    if s >= 8 || reader.out[s] != Some(step) {
        return false;
    }
    reader.out[s] = None;
    reader.done[s] = reader.done[s].wrapping_add(1);
    true
}

fn take(reader: &mut Reader, job: &Job, event: &Event) -> bool {
    match *event {
        Event::Publish { step } => publish(reader, job, step),
        Event::Pin { session, step } => pin(reader, job, session, step),
        Event::Unpin {
            session,
            step,
            answered,
        } => answered && unpin(reader, session, step),
        Event::Close => {
            let was_open = !reader.is_closed;
            reader.is_closed = true;
            was_open
        }
    }
}

// Whether session s has all its turns done, and nothing out.
fn has_ended(reader: &Reader, job: &Job, session: u32) -> bool {
    let s = session as usize;
    s < 8
        && session < job.sessions()
        && reader.out[s].is_none()
        && reader.done[s] == job.turns(session).len()
}

// Whether each event of the journal may follow those before it, and nothing is left to do after them.
pub fn is_whole(job: &Job, journal: &[Event]) -> bool {
    let mut reader = Reader {
        newest: 0,
        is_closed: false,
        out: [None; 8],
        done: [0; 8],
    };
    for event in journal {
        if !take(&mut reader, job, event) {
            return false;
        }
    }
    for session in 0..job.sessions() {
        if !has_ended(&reader, job, session) {
            return false;
        }
    }
    reader.is_closed && reader.newest == job.steps()
}
