//! Gates that lead a run through one order of events.
ghost use Rattle.std.specs.Prelude.{◌<◌};

use oct_edge::Gate;
use std::sync::Wait;
use std::sync::atomic::{AtomicU64, Ordering};

// How often a gate looks before it gives up and notes that.
const PATIENCE: u64 = 1_000_000_000;

// Who is where.
pub type At = (u32, u32);

// Holds workers at places, each until another worker was at another place.
#[derive(Drop)]
pub struct Meetings {
    // Who waits where, and for whom.
    holds: [(At, At); 2],
    met: [AtomicU64; 2],
    notes: AtomicU64,
}

impl Meetings {
    pub fn of(holds: [(At, At); 2]) -> Meetings {
        Meetings {
            holds,
            met: [AtomicU64::new(0), AtomicU64::new(0)],
            notes: AtomicU64::new(0),
        }
    }

    // Whether somebody waited for nothing.
    pub fn has_note(&self) -> bool {
        self.notes.load(Ordering::SeqCst) > 0
    }

    fn wait(&self, i: usize)
        requires { i < 2 }
    {
        for _ in 0..PATIENCE {
            if self.met[i].load(Ordering::SeqCst) > 0 {
                return;
            }
        }
        self.notes.store(1, Ordering::SeqCst);
    }
}

impl Gate for Meetings {
    fn at<R: Wait>(&self, _rt: &R, who: u32, place: u32) {
        for i in 0..2 {
            if self.holds[i].1 == (who, place) {
                self.met[i].store(1, Ordering::SeqCst);
            }
        }
        for i in 0..2 {
            if self.holds[i].0 == (who, place) {
                self.wait(i);
            }
        }
    }
}

// Holds one worker before a place until another one was anywhere.
#[derive(Drop)]
pub struct Late {
    held: At,
    other: u32,
    met: AtomicU64,
}

impl Late {
    pub fn of(held: At, other: u32) -> Late {
        Late {
            held,
            other,
            met: AtomicU64::new(0),
        }
    }
}

impl Gate for Late {
    fn at<R: Wait>(&self, _rt: &R, who: u32, place: u32) {
        if who == self.other {
            self.met.store(1, Ordering::SeqCst);
        }
        if (who, place) == self.held {
            for _ in 0..PATIENCE {
                if self.met.load(Ordering::SeqCst) > 0 {
                    return;
                }
            }
        }
    }
}
