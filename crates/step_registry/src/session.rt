//! What the core knows of the sessions, and its changes.
ghost use Rattle.std.specs.Prelude.{◌≡◌, ◌+◌, ◌<◌, ◌^◌, ◌≤◌, length, slice_set, slice_index_or, Some, None, vec_len, IsTrue, ◌↔◌, false, IfOk, replicate};
ghost use Rattle.run_script.specs.Jobs.{JobView, turns_of};
ghost use Rattle.step_registry.specs.Core.{pinned, unpinned, fresh, turn_at, AllDone};

use crate::event::SessionState;
use mesh_base::NoMemory;
use run_script::Job;
use std::alloc::Global;

pub fn pin_session(sessions: &mut Vec<SessionState>, s: u32, step: u32)
    requires { s < length sessions.old.items }
    ensures { sessions.new.items ≡ slice_set sessions.old.items s
        (pinned step (slice_index_or sessions.old.items s fresh)) }
{
    let me = sessions[s as usize];
    sessions[s as usize] = SessionState {
        out: Some(step),
        done: me.done,
        is_stopped: me.is_stopped,
    };
}

pub fn unpin_session(sessions: &mut Vec<SessionState>, s: u32, answered: bool)
    requires there { s < length sessions.old.items }
    requires fits { (slice_index_or sessions.old.items s fresh).done < 100000 }
    ensures { sessions.new.items ≡ slice_set sessions.old.items s
        (unpinned answered (slice_index_or sessions.old.items s fresh)) }
{
    let me = sessions[s as usize];
    sessions[s as usize] = if answered {
        SessionState {
            out: None,
            done: me.done + 1,
            is_stopped: me.is_stopped,
        }
    } else {
        SessionState {
            out: None,
            done: me.done,
            is_stopped: true,
        }
    };
}

// Whether a session may pin the newest step.
pub fn can_pin(job: &Job, sessions: &[SessionState], s: u32, newest: u32) -> bool
    requires there { (s < length sessions.now) × (s < length job.now.sessions) }
    ensures { let me = slice_index_or sessions.now s fresh in IsTrue result ↔
        ((me.out ≡ None) × (me.is_stopped ≡ false) × (me.done < length (turns_of job.now s))
        × ((turn_at job.now s me.done).need ≤ newest)) }
{
    let me = sessions[s as usize];
    let turns = job.turns(s);
    me.out.is_none()
        && !me.is_stopped
        && u64::from(me.done) < turns.len() as u64
        && turns[me.done as usize].need <= newest
}

// Whether a session has this step out.
pub fn has_pinned(sessions: &[SessionState], s: u32, step: u32) -> bool
    requires { s < length sessions.now }
    ensures { IsTrue result ↔ ((slice_index_or sessions.now s fresh).out ≡ Some step) }
{
    match sessions[s as usize].out {
        Some(k) => k == step,
        None => false,
    }
}

// So many sessions that did nothing yet.
pub fn fresh_sessions(alloc: Global, count: u32) -> Result<Vec<SessionState>, NoMemory>
    ensures { IfOk result (λ v. v.items ≡ replicate count fresh) }
{
    let mut sessions = Vec::new(alloc);
    for _session in 0..count {
        sessions.push(SessionState {
            out: None,
            done: 0,
            is_stopped: false,
        })?;
    }
    Ok(sessions)
}

// Whether each session has all its turns done, and nothing out.
pub fn all_done(job: &Job, sessions: &[SessionState]) -> bool
    requires { length sessions.now ≡ length job.now.sessions }
    ensures { IsTrue result ↔ AllDone job.now sessions.now (length job.now.sessions) }
{
    for s in 0..job.sessions() {
        let me = sessions[s as usize];
        if me.out.is_some() || u64::from(me.done) != job.turns(s).len() as u64 {
            return false;
        }
    }
    true
}
