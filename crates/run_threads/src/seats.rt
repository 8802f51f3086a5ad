//! The workers beside each other, each on a seat of its own.
ghost use Rattle.std.specs.Prelude.{◌≡◌, length, true};
ghost use Rattle.step_table.specs.Seats.{EachSession, closed_of};
ghost use Rattle.run_threads.specs.Ends.{IsPublisher, IsReady, IsFresh, HasEnded};

use crate::publisher::play_publisher;
use crate::session::play_session;
use job_steps::Maker;
use oct_edge::Gate;
use run_script::Job;
use std::alloc::Global;
use std::marker::Sync;
use std::sync::Wait;
use std::thread::{Threads, for_each_mut, join};
use step_table::{PublisherSeat, SessionSeat, SessionSeats, StepTable};

// The sessions, in as many threads.
fn play_sessions<R: Threads + Wait + Sync, G: Gate>(
    rt: &R,
    alloc: Global,
    table: &StepTable,
    job: &Job,
    gate: &G,
    seats: &mut [SessionSeat],
)
    requires new { EachSession (λ s v. (v.session ≡ s) × IsFresh table.now.lock job.now v) seats.old }
    requires count { length seats.old ≡ length job.now.sessions }
    ensures ended { EachSession (λ s v. (v.session ≡ s) × HasEnded table.now.lock job.now v) seats.new }
{
    let threads = seats.len().max(1);
    for_each_mut(
        rt,
        seats,
        threads,
        &|s: usize, seat: &mut SessionSeat|
            requires { (seat.old.session ≡ s) × IsFresh table.now.lock job.now seat.old }
            ensures { (seat.new.session ≡ s) × HasEnded table.entry.now.lock job.entry.now seat.new }
        { play_session(rt, alloc, table, job, gate, seat) },
    );
}

/// The publisher and the sessions, in threads. Each seat comes back from its worker.
pub fn play_seats<R: Threads + Wait + Sync, G: Gate>(
    rt: &R,
    alloc: Global,
    table: &StepTable,
    job: &Job,
    gate: &G,
    publisher: PublisherSeat,
    maker: Maker,
    mut sessions: SessionSeats,
) -> (PublisherSeat, SessionSeats)
    requires ready { IsReady table.now.lock publisher maker }
    requires job { maker.job ≡ job.now }
    requires none { maker.made ≡ 0 }
    requires new { EachSession (λ s v. (v.session ≡ s) × IsFresh table.now.lock job.now v) sessions }
    requires count { length sessions ≡ length job.now.sessions }
    ensures publisher { IsPublisher table.now.lock job.now result.0 }
    ensures closed { closed_of result.0 ≡ true }
    ensures sessions { EachSession (λ s v. (v.session ≡ s) × HasEnded table.now.lock job.now v) result.1 }
    ensures count { length result.1 ≡ length sessions }
{
    // Where no thread can be made, the first closure runs after the second: then all steps are there before a session
    // waits.
    let (sessions, publisher) = join(
        rt,
        || -> SessionSeats
            requires { EachSession (λ s v. (v.session ≡ s) × IsFresh table.now.lock job.now v) sessions
                × (length sessions ≡ length job.now.sessions) }
            ensures { EachSession (λ s v. (v.session ≡ s) × HasEnded table.entry.now.lock job.entry.now v) result
                × (length result ≡ length sessions) }
        {
            play_sessions(rt, alloc, table, job, gate, sessions.items_mut());
            sessions
        },
        || -> PublisherSeat
            requires { IsReady table.now.lock publisher maker × (maker.job ≡ job.now) × (maker.made ≡ 0) }
            ensures { IsPublisher table.entry.now.lock job.entry.now result × (closed_of result ≡ true) }
        { play_publisher(rt, alloc, table, job, gate, publisher, maker) },
    );
    (publisher, sessions)
}
