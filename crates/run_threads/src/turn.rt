//! One turn of a session: a pin, its answers, and the pin back.
ghost use Rattle.std.specs.Prelude.{◌≡◌, ◌+◌, ◌<◌, ◌≤◌, length, IfOk, OnOk, OnErr, true, false};
ghost use Rattle.run_script.specs.Jobs.{turns_of};
ghost use Rattle.step_registry.specs.Core.{answer_run, first_query, unpinned};
ghost use Rattle.step_table.specs.Seats.{state_of, next_turn};
ghost use Rattle.run_threads.specs.Ends.{IsSame, IsOver, Idle};

use box_crawl::Marks;
use box_query::answer_plain;
use mesh_base::{Answer, AnswerList, BoxQ, NoMemory};
use oct_edge::Gate;
use run_script::SessionTurn;
use std::alloc::Global;
use std::sync::Wait;
use step_registry::StepPin;
use step_table::{Reached, SessionSeat, StepTable};
use step_view::Shares;

/// Gives back the memory of a step that nobody holds.
pub fn let_go(shares: Option<Shares>) {
    let _ = shares;
}

/// Waits until the step is published. False where the plan ends before it.
pub fn reach<R: Wait>(rt: &R, table: &StepTable, seat: &mut SessionSeat, need: u32) -> bool
    requires table { seat.old.table ≡ table.now.lock }
    ensures same { IsSame seat.old seat.new }
    ensures state { state_of seat.new ≡ state_of seat.old }
    ensures there { result ≡ true → need ≤ seat.new.known }
    ensures over { result ≡ false → IsOver need seat.new.words }
{
    if need <= seat.known() {
        return true;
    }
    match table.wait_for(rt, seat, need) {
        Reached::At { .. } => true,
        Reached::Ended { .. } => false,
    }
}

// The answers of these boxes, which are counted from `first`.
fn answer_areas(
    alloc: Global,
    pin: &StepPin,
    areas: &[BoxQ],
    first: u32,
    marks: &mut Marks,
) -> Result<AnswerList, NoMemory>
    requires reach { length pin.now.step.mesh.points ≤ length marks.old }
    requires few { first + length areas.now ≤ 100000 }
    ensures answers { IfOk result (λ list. list
        ≡ answer_run pin.now.step.job pin.now.session pin.now.step.number first areas.now) }
{
    let _job = pin.step().job();
    let mut list = Vec::new(alloc);
    let mut query = first;
    for area in areas {
        let (route, vertices) = answer_plain(alloc, pin.step(), area, marks)?;
        list.push(Answer {
            session: pin.session(),
            query,
            step: pin.number(),
            route,
            vertices,
        })?;
        query += 1;
    }
    Ok(AnswerList::of(list))
}

// The answers of a turn. The marks are made for the first one, and grow with the steps.
fn answer_turn(
    alloc: Global,
    pin: &StepPin,
    areas: &[BoxQ],
    first: u32,
    marks: &mut Option<Marks>,
) -> Result<AnswerList, NoMemory>
    requires few { first + length areas.now ≤ 100000 }
    ensures answers { IfOk result (λ list. list
        ≡ answer_run pin.now.step.job pin.now.session pin.now.step.number first areas.now) }
{
    let points = pin.step().points();
    let mut own = match marks.take() {
        Some(own) => own,
        None => Marks::new(alloc, points)?,
    };
    own.reach(alloc, points)?;
    let answers = answer_areas(alloc, pin, areas, first, &mut own);
    *marks = Some(own);
    answers
}

/// Pins, answers the boxes of the turn, and gives the pin back: with the answers, or without where memory was refused.
/// Between the pin and the answers it is at the gate, by the numbers of the session and of the pinned step.
pub fn ask_turn<R: Wait, G: Gate>(
    rt: &R,
    alloc: Global,
    table: &StepTable,
    gate: &G,
    seat: &mut SessionSeat,
    turn: &SessionTurn,
    first: u32,
    marks: &mut Option<Marks>,
) -> Result<(), NoMemory>
    requires table { seat.old.table ≡ table.now.lock }
    requires idle { Idle (state_of seat.old) }
    requires left { (state_of seat.old).done < length (turns_of seat.old.job seat.old.session) }
    requires turn { turn.now ≡ next_turn seat.old }
    requires need { turn.now.need ≤ seat.old.known }
    requires first { first ≡ first_query (turns_of seat.old.job seat.old.session) (state_of seat.old).done }
    requires few { first + length turn.now.areas ≤ 100000 }
    ensures same { IsSame seat.old seat.new }
    ensures done { OnOk result (state_of seat.new ≡ unpinned true (state_of seat.old)) }
    ensures refused { OnErr result (state_of seat.new ≡ unpinned false (state_of seat.old)) }
{
    let pin = table.pin(rt, seat);
    gate.at(rt, pin.session(), pin.number());
    match answer_turn(alloc, &pin, turn.areas.items(), first, marks) {
        Ok(list) => {
            let_go(table.unpin(rt, seat, pin, Some(list)));
            Ok(())
        }
        Err(refused) => {
            let_go(table.unpin(rt, seat, pin, None));
            Err(refused)
        }
    }
}
