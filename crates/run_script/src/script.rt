//! Scripts within their limits.
ghost use Rattle.std.specs.Prelude.{◌≡◌};

use crate::lists::{EditList, ItemList, PlanList, SessionList};
use mesh_base::{BoxQ, Edit, Kernel};
use std::marker::Model;

/// An edit, and the line of the script on which it stands, counted from 1.
#[derive(Clone, Copy, Debug, PartialEq, Eq)]
pub struct LinedEdit {
    pub line: u32,
    pub edit: Edit,
}

/// What makes a step of the one before it: the edits in order, and then the motion of all points at once.
#[derive(Drop)]
pub struct Plan {
    pub edits: EditList,
    pub kernel: Kernel,
}

/// What a session does.
#[derive(Clone, Copy, Debug, PartialEq, Eq)]
pub enum Item {
    /// It waits until this step is published. `line` is the line of the script, counted from 1.
    Wait { line: u32, step: u32 },
    /// It asks for the vertices inside the box.
    Ask { area: BoxQ },
    /// It holds one step for all boxes up to the next `Free`.
    Hold,
    /// It gives the held step back.
    Free,
}

/// A script: its version, a plan for each step, and its sessions.
///
/// It has version 1 or 2, at most 10,000 plans with at most 1,000,000 edits together, and at most 8 sessions with at
/// most 100,000 boxes together. Each number is in the range that the text allows for it. Holds stand in version 2
/// alone. Each hold has its free later in its session, with one box or more and nothing else between them, and each
/// free its hold.
#[derive(Drop)]
pub struct Script {
    version: u32,
    plans: PlanList,
    sessions: SessionList,
}

impl Model for Script {
    ghost use Rattle.run_script.specs.Scripts.{ScriptView, IsScript};

    ghost Value = { ScriptView };

    ghost view = { λ s. record { version = s.version; plans = s.plans; sessions = s.sessions } };

    ghost invariant = { λ s. IsScript (record { version = s.version; plans = s.plans; sessions = s.sessions }) };
}

impl Script {
    ghost use Rattle.std.specs.Prelude.{◌≡◌};
    ghost use Rattle.run_script.specs.Scripts.{IsScript};

    /// The script of these parts. They have to keep what each script keeps, as it is said above: the version is 1 or 2,
    /// the plans, edits, sessions and boxes are within the limits, each number is in its range, and each hold is
    /// closed. No plans and no sessions are a script too. It takes no memory and copies nothing.
    pub fn of(version: u32, plans: PlanList, sessions: SessionList) -> Script
        requires { IsScript (record { version = version; plans = plans; sessions = sessions }) }
        ensures { result ≡ record { version = version; plans = plans; sessions = sessions } }
    {
        Script {
            version,
            plans,
            sessions,
        }
    }

    /// The version: 1 or 2.
    pub fn version(&self) -> u32
        ensures version { result ≡ self.now.version }
        ensures valid { IsScript self.now }
    {
        self.version
    }

    /// The plans: that of step 1 first.
    pub fn plans(&self) -> &[Plan]
        ensures plans { result.now ≡ self.now.plans }
        ensures valid { IsScript self.now }
    {
        self.plans.items()
    }

    /// The sessions, by their numbers.
    pub fn sessions(&self) -> &[ItemList]
        ensures sessions { result.now ≡ self.now.sessions }
        ensures valid { IsScript self.now }
    {
        self.sessions.items()
    }

    /// The plans, as they were.
    pub(crate) fn into_plans(self) -> PlanList
        ensures { result ≡ self.plans }
    {
        let Script {
            version: _,
            plans,
            sessions: _,
        } = self;
        plans
    }

    /// The same script in version 2.
    pub fn upgraded(self) -> Script
        ensures { result ≡ record self { version = 2 } }
    {
        let Script {
            version: _,
            plans,
            sessions,
        } = self;
        Script {
            version: 2,
            plans,
            sessions,
        }
    }
}
