//! A session: its turns in order.
ghost use Rattle.std.specs.Prelude.{◌≡◌, ◌+◌, ◌<◌, ◌≤◌, length, OnOk, OnErr, true, false};
ghost use Rattle.run_script.specs.Jobs.{turns_of};
ghost use Rattle.step_table.specs.Seats.{state_of};
ghost use Rattle.run_threads.specs.Ends.{IsSame, HasEnded, IsFresh, Stops};

use crate::turn::{ask_turn, reach};
use crossbeam_utils::CachePadded;
use mesh_base::NoMemory;
use oct_edge::Gate;
use run_script::Job;
use std::alloc::Global;
use std::sync::Wait;
use step_table::{SessionSeat, StepTable};

// Asks all turns, up to one whose need the plan doesn't reach or that is refused memory. The marks have a cache line of
// their own, so that sessions on different processors do not slow each other down.
fn ask_all<R: Wait, G: Gate>(
    rt: &R,
    alloc: Global,
    table: &StepTable,
    job: &Job,
    gate: &G,
    seat: &mut SessionSeat,
) -> Result<(), NoMemory>
    requires new { IsFresh table.now.lock job.now seat.old }
    ensures same { IsSame seat.old seat.new }
    ensures ends { OnOk result (Stops false seat.new) }
    ensures refused { OnErr result (Stops true seat.new) }
{
    let turns = job.turns(seat.session());
    let mut marks = CachePadded::new(None);
    let mut first = 0;
    for turn in turns {
        if !reach(rt, table, seat, turn.need) {
            return Ok(());
        }
        ask_turn(rt, alloc, table, gate, seat, turn, first, &mut marks)?;
        first += turn.areas.items().len() as u32;
    }
    Ok(())
}

/// The part of a session in a run: all its turns, up to one whose need the plan doesn't reach or that is refused
/// memory.
pub fn play_session<R: Wait, G: Gate>(
    rt: &R,
    alloc: Global,
    table: &StepTable,
    job: &Job,
    gate: &G,
    seat: &mut SessionSeat,
)
    requires new { IsFresh table.now.lock job.now seat.old }
    ensures session { seat.new.session ≡ seat.old.session }
    ensures ended { HasEnded table.now.lock job.now seat.new }
{
    let _ = ask_all(rt, alloc, table, job, gate, seat);
}
