//! One order of calls on a table, made by one thread.
ghost use Rattle.std.specs.Prelude.{◌≡◌, ◌+◌, ◌<◌, ◌≤◌, length, true, false};
ghost use Rattle.std.specs.Option.{IfSome};
ghost use Rattle.std.specs.Arc.{arc_value};
ghost use Rattle.run_script.specs.Jobs.{steps, turns_of};
ghost use Rattle.step_view.specs.Rows.{all_shares};
ghost use Rattle.step_registry.specs.Core.{turn_answers};
ghost use Rattle.step_table.specs.Seats.{published_of, closed_of};
ghost use Rattle.step_table.specs.Tests.{Asks, IsReady, HasOut};

use crate::{PublisherSeat, SessionSeat, SessionSeats, StepTable};
use mesh_base::{AnswerList, NoMemory};
use run_script::Job;
use sample_meshes::one_cell;
use script_format::read_script;
use std::alloc::Global;
use std::sync::{Arc, Wait};
use std::test::Fail;
use step_registry::{Event, PlainWork, Registry, StepPin, Work};
use step_view::Shares;

// One cell, one step that moves nothing, and two sessions of one box each.
const SCRIPT: &[u8] =
    b"octopus script 1\nstay\nsession\nbox 0 0 0 4 0 0\nsession\nbox 0 0 0 4 0 0\nend\n";

fn small_job(alloc: Global) -> Result<Arc<Job>, Fail> {
    let mesh = one_cell(alloc)?;
    match read_script(alloc, SCRIPT) {
        Ok(script) => match Job::check(alloc, mesh, script) {
            Ok(job) => Ok(Arc::new(alloc, job)?),
            Err(_) => Err(Fail::new("job")),
        },
        Err(_) => Err(Fail::new("script")),
    }
}

// Whether session s begins with a turn of one box that needs no step.
fn asks(job: &Job, s: u32) -> bool
    ensures { result ≡ true → Asks job.now s }
{
    if s >= job.sessions() {
        return false;
    }
    match job.turns(s).first() {
        Some(turn) => turn.need == 0 && turn.areas.items().len() == 1,
        None => false,
    }
}

// The first pin of a session.
fn pin_first<R: Wait>(rt: &R, table: &StepTable, seat: &mut SessionSeat) -> StepPin
    requires { IsReady table.now.lock seat.old }
    ensures out { HasOut table.now.lock result seat.new }
    ensures same { (seat.new.session ≡ seat.old.session) × (seat.new.job ≡ seat.old.job) }
{
    table.pin(rt, seat)
}

// The answer of the one box of a first turn.
fn answer_first(alloc: Global, work: &mut PlainWork, pin: &StepPin) -> Option<AnswerList>
    requires of_job { pin.now.step.job ≡ work.old.job }
    requires asks { Asks pin.now.step.job pin.now.session }
    ensures { IfSome result (λ list. list ≡ turn_answers pin.now.step.job pin.now.session 0 pin.now.step.number) }
{
    let answer = work.answer(alloc, pin, 0).ok()?;
    let mut list = Vec::new(alloc);
    list.push(answer).ok()?;
    Some(AnswerList::of(list))
}

// Gives the first pin back, and says whether the step was handed out.
fn unpin_first<R: Wait>(
    rt: &R,
    table: &StepTable,
    seat: &mut SessionSeat,
    pin: StepPin,
    answers: Option<AnswerList>,
) -> bool
    requires out { HasOut table.now.lock pin seat.old }
    requires answers { IfSome answers (λ list. list ≡ turn_answers pin.step.job pin.session 0 pin.step.number) }
    ensures same { (seat.new.table ≡ table.now.lock) × (seat.new.session ≡ seat.old.session)
        × (seat.new.job ≡ seat.old.job) }
{
    table.unpin(rt, seat, pin, answers).is_some()
}

// Session 0 pins step 0, step 1 is published, session 1 pins it, and both give back, the second without answers. It
// says of the last three of the publisher's and the sessions' calls whether a step was handed out.
fn five_calls<R: Wait>(
    rt: &R,
    alloc: Global,
    table: &StepTable,
    mut work: PlainWork,
    step: Shares,
    publisher: &mut PublisherSeat,
    first: &mut SessionSeat,
    second: &mut SessionSeat,
) -> [bool; 3]
    requires publisher { (publisher.old.table ≡ table.now.lock) × (publisher.old.job ≡ work.job)
        × (published_of publisher.old ≡ 0) × (closed_of publisher.old ≡ false) }
    requires step { step ≡ all_shares work.job 1 }
    requires first { IsReady table.now.lock first.old × (first.old.job ≡ work.job) }
    requires second { IsReady table.now.lock second.old × (second.old.job ≡ work.job) }
    ensures publisher { (publisher.new.table ≡ table.now.lock) × (publisher.new.job ≡ publisher.old.job) }
    ensures first { (first.new.table ≡ table.now.lock) × (first.new.session ≡ first.old.session) }
    ensures second { (second.new.table ≡ table.now.lock) × (second.new.session ≡ second.old.session) }
{
    let one = pin_first(rt, table, first);
    let none = table.publish(rt, publisher, step).is_some();
    let two = pin_first(rt, table, second);
    let answers = answer_first(alloc, &mut work, &one);
    let zero = unpin_first(rt, table, first, one, answers);
    let last = unpin_first(rt, table, second, two, None);
    [none, zero, last]
}

// The registry after these calls, and what was handed out.
fn played<R: Wait>(rt: &R, alloc: Global, job: Arc<Job>) -> Result<(Registry, [bool; 3]), NoMemory>
    requires sessions { length (arc_value job).sessions ≡ 2 }
    requires steps { 1 ≤ steps (arc_value job) }
    requires asks { Asks (arc_value job) 0 × Asks (arc_value job) 1 }
{
    let (shares, mut work) = PlainWork::new(alloc, job)?;
    let registry = Registry::new(alloc, shares)?;
    let (table, mut publisher, seats) = StepTable::new(alloc, registry)?;
    let step = work.make(alloc)?;
    let mut back = Vec::with_capacity(alloc, 2)?;
    let mut items = seats.into_items();
    let mut first = items.remove(0);
    let mut second = items.remove(0);
    let freed = five_calls(
        rt,
        alloc,
        &table,
        work,
        step,
        &mut publisher,
        &mut first,
        &mut second,
    );
    back.push_reserved(first);
    back.push_reserved(second);
    Ok((table.finish(publisher, SessionSeats::of(back)), freed))
}

// Whether the journal has exactly these five events.
fn has_five(journal: &[Event]) -> bool {
    matches!(
        journal,
        [
            Event::Pin {
                session: 0,
                step: 0
            },
            Event::Publish { step: 1 },
            Event::Pin {
                session: 1,
                step: 1
            },
            Event::Unpin {
                session: 0,
                step: 0,
                answered: true
            },
            Event::Unpin {
                session: 1,
                step: 1,
                answered: false
            },
        ]
    )
}

// A step that a session has out while the next one is published is handed out when it comes back, and not before.
#[test]
fn a_step_goes_when_its_last_pin_comes_back(rt: HostRuntime) -> Result<(), Fail> {
    let job = small_job(rt.alloc())?;
    if job.sessions() != 2 || job.steps() != 1 || !asks(&job, 0) || !asks(&job, 1) {
        return Err(Fail::new("job"));
    }
    let (registry, freed) = played(&rt, rt.alloc(), job)?;
    assert_eq!(rt; freed, [false, true, false]);
    assert!(rt; has_five(registry.journal()));
    assert_eq!(rt; registry.answers().len(), 1);
    Ok(())
}
