//! The publisher: the steps in order, and the close of the plan.
ghost use Rattle.std.specs.Prelude.{◌≡◌, ◌+◌, ◌<◌, ◌≤◌, length, OnOk, true, false};
ghost use Rattle.run_script.specs.Jobs.{steps};
ghost use Rattle.step_table.specs.Seats.{published_of, closed_of};
ghost use Rattle.run_threads.specs.Ends.{IsPublisher, IsReady};

use crate::turn::let_go;
use job_steps::Maker;
use mesh_base::NoMemory;
use oct_edge::Gate;
use run_script::Job;
use std::alloc::Global;
use std::marker::Sync;
use std::sync::Wait;
use std::thread::Threads;
use step_table::{PublisherSeat, StepTable};
use step_view::Shares;

// Makes the next step, and publishes it. Before that it is at the gate, by the number of sessions and that of the step.
fn publish_next<R: Threads + Wait + Sync, G: Gate>(
    rt: &R,
    alloc: Global,
    table: &StepTable,
    gate: &G,
    seat: &mut PublisherSeat,
    maker: &mut Maker,
) -> Result<(), NoMemory>
    requires ready { IsReady table.now.lock seat.old maker.old }
    requires more { maker.old.made < steps maker.old.job }
    ensures ready { OnOk result (IsReady table.now.lock seat.new maker.new) }
    ensures made { OnOk result (maker.new.made ≡ maker.old.made + 1) }
    ensures seat { IsPublisher table.now.lock maker.old.job seat.new }
    ensures open { closed_of seat.new ≡ false }
    ensures job { maker.new.job ≡ maker.old.job }
{
    let step = maker.next(rt, alloc)?;
    let number = step.number();
    let sessions = step.job().sessions();
    let shares = Shares::make(alloc, step)?;
    gate.at(rt, sessions, number);
    let_go(table.publish(rt, seat, shares));
    Ok(())
}

// Publishes all steps, up to one that is refused memory.
fn publish_all<R: Threads + Wait + Sync, G: Gate>(
    rt: &R,
    alloc: Global,
    table: &StepTable,
    job: &Job,
    gate: &G,
    seat: &mut PublisherSeat,
    maker: &mut Maker,
) -> Result<(), NoMemory>
    requires ready { IsReady table.now.lock seat.old maker.old }
    requires job { maker.old.job ≡ job.now }
    requires none { maker.old.made ≡ 0 }
    ensures seat { IsPublisher table.now.lock job.now seat.new }
    ensures open { closed_of seat.new ≡ false }
    ensures all { OnOk result (published_of seat.new ≡ steps job.now) }
{
    for _step in 0..job.steps() {
        publish_next(rt, alloc, table, gate, seat, maker)?;
    }
    Ok(())
}

/// The part of the publisher in a run: it publishes the steps up to the last one, or to one that is refused memory, and
/// then closes the plan in every case, so that no session waits for good.
pub fn play_publisher<R: Threads + Wait + Sync, G: Gate>(
    rt: &R,
    alloc: Global,
    table: &StepTable,
    job: &Job,
    gate: &G,
    mut seat: PublisherSeat,
    mut maker: Maker,
) -> PublisherSeat
    requires ready { IsReady table.now.lock seat maker }
    requires job { maker.job ≡ job.now }
    requires none { maker.made ≡ 0 }
    ensures seat { IsPublisher table.now.lock job.now result }
    ensures closed { closed_of result ≡ true }
{
    let _ = publish_all(rt, alloc, table, job, gate, &mut seat, &mut maker);
    table.close_plan(rt, &mut seat);
    seat
}
