//! Jobs: a mesh with a script that fits it.
ghost use Rattle.std.specs.Prelude.{◌≡◌, ◌<◌, ◌≤◌, length, All, IfOk};
ghost use Rattle.std.specs.Arc.{arc_value};
ghost use Rattle.std.specs.List.{sum_by};

use crate::check::check_script;
use crate::fault::ScriptFault;
use crate::lists::PlanList;
use crate::script::{Plan, Script};
use crate::turns::all_turns;
use mesh_base::{BoxQ, Mesh};
use std::alloc::{AllocError, Global};
use std::marker::Model;
use std::sync::Arc;

/// A list of boxes.
#[derive(Drop)]
pub struct AreaList {
    items: Vec<BoxQ>,
}

impl Model for AreaList {
    ghost use Rattle.std.specs.Prelude.{List};
    ghost use Rattle.mesh_base.specs.Place.{Area};

    ghost Value = { List Area };

    ghost view = { λ l. l.items.items };
}

impl AreaList {
    /// The list of these boxes, in their order.
    pub fn of(items: Vec<BoxQ>) -> AreaList
        ensures { result ≡ items.items }
    {
        AreaList { items }
    }

    /// The boxes, in their order.
    pub fn items(&self) -> &[BoxQ]
        ensures { result.now ≡ self.now }
    {
        self.items.as_slice()
    }

    /// The boxes as a vector, in their order.
    pub fn into_items(self) -> Vec<BoxQ>
        ensures { result.items ≡ self }
    {
        let AreaList { items } = self;
        items
    }
}

/// A turn of a session: the boxes that it asks about one step, and the step that has to be published before.
#[derive(Drop)]
pub struct SessionTurn {
    pub need: u32,
    pub areas: AreaList,
}

/// The turns of one session.
#[derive(Drop)]
pub struct TurnList {
    items: Vec<SessionTurn>,
}

impl Model for TurnList {
    ghost use Rattle.std.specs.Prelude.{List};
    ghost use Rattle.run_script.specs.declared.job.SessionTurn.{SessionTurn};

    ghost Value = { List SessionTurn };

    ghost view = { λ l. l.items.items };
}

impl TurnList {
    pub fn of(items: Vec<SessionTurn>) -> TurnList
        ensures { result ≡ items.items }
    {
        TurnList { items }
    }
}

/// A mesh, and a script that fits it: each edit fits the mesh that it comes to, and no wait is for a step that never
/// comes.
#[derive(Drop)]
pub struct Job {
    mesh: Arc<Mesh>,
    plans: PlanList,
    sessions: Vec<TurnList>,
}

impl Model for Job {
    ghost use Rattle.std.specs.Arc.{arc_value};
    ghost use Rattle.run_script.specs.Jobs.{JobView, IsJob};

    ghost Value = { JobView };

    ghost view = { λ j. record { mesh = arc_value j.mesh; plans = j.plans; sessions = j.sessions.items } };

    ghost invariant = { λ j. IsJob (record { mesh = arc_value j.mesh; plans = j.plans; sessions = j.sessions.items }) };
}

impl Job {
    ghost use Rattle.std.specs.Prelude.{◌≡◌, ◌<◌, ◌≤◌, [], length, All, IfOk};
    ghost use Rattle.std.specs.Arc.{arc_value};
    ghost use Rattle.run_script.specs.Outcome.{Agrees};
    ghost use Rattle.run_script.specs.Scripts.{IsPlan};
    ghost use Rattle.run_script.specs.Jobs.{IsJob, IsTurn, EditsFit, checked, step_at, plan_at, turns_of, box_count, turn_count, all_boxes};

    /// The job of a mesh and a script, or the first fault: of the edits, each on the mesh that the ones before it
    /// leave, and then of the waits.
    ///
    /// An edit is refused where it names a point or a live cell that isn't there, where it adds a cell with a corner
    /// twice, and where the mesh would have more than 1,000,000 points or 4,000,000 cells; a wait where its step is
    /// above the number of plans. It takes a byte for each cell of the mesh while it checks, and its time is that of
    /// the edits and one look at each cell. The mesh isn't copied.
    #[tactic(auto, unfolding(crate::specs::Jobs::checked))]
    pub fn check(alloc: Global, mesh: Mesh, script: Script) -> Result<Job, ScriptFault>
        ensures { Agrees result (checked mesh script) }
    {
        check_script(alloc, &mesh, &script)?;
        let sessions = all_turns(alloc, script.sessions())?;
        let plans = script.into_plans();
        Ok(Job {
            mesh: Arc::new(alloc, mesh)?,
            plans,
            sessions,
        })
    }

    /// The job of a mesh alone, without plans and sessions. Nothing is checked, and no list is copied: it takes memory
    /// for the count of those that share the mesh. After AllocError the mesh is gone.
    pub fn still(alloc: Global, mesh: Mesh) -> Result<Job, AllocError>
        ensures mesh { IfOk result (λ job. job.mesh ≡ mesh) }
        ensures plans { IfOk result (λ job. job.plans ≡ []) }
        ensures sessions { IfOk result (λ job. job.sessions ≡ []) }
    {
        Ok(Job {
            mesh: Arc::new(alloc, mesh)?,
            plans: PlanList::of(Vec::new(alloc)),
            sessions: Vec::new(alloc),
        })
    }

    /// The mesh that the run begins with.
    pub fn mesh(&self) -> &Mesh
        ensures mesh { result.now ≡ self.now.mesh }
        ensures valid { IsJob self.now }
    {
        &self.mesh
    }

    /// The same mesh, for those that share it: a clone costs one count, and the mesh never changes.
    pub fn shared_mesh(&self) -> &Arc<Mesh>
        ensures mesh { arc_value result.now ≡ self.now.mesh }
        ensures valid { IsJob self.now }
    {
        &self.mesh
    }

    /// How many steps are made: one for each plan.
    pub fn steps(&self) -> u32
        ensures steps { result ≡ length self.now.plans }
        ensures valid { IsJob self.now }
    {
        self.plans.items().len() as u32
    }

    /// The plan that makes step k + 1 of step k. Each of its edits fits the mesh that it comes to.
    pub fn plan(&self, k: u32) -> &Plan
        requires { k < length self.now.plans }
        ensures plan { result.now ≡ plan_at self.now k }
        ensures fits { EditsFit (step_at self.now k) result.now.edits }
        ensures in_range { IsPlan result.now }
    {
        &self.plans.items()[k as usize]
    }

    /// How many sessions there are.
    pub fn sessions(&self) -> u32
        ensures sessions { result ≡ length self.now.sessions }
        ensures valid { IsJob self.now }
    {
        self.sessions.len() as u32
    }

    /// The turns of session s, in order. Each has a box or more, and needs no step that never comes.
    pub fn turns(&self, s: u32) -> &[SessionTurn]
        requires { s < length self.now.sessions }
        ensures turns { result.now ≡ turns_of self.now s }
        ensures fit { All (IsTurn (length self.now.plans)) result.now }
        ensures few_boxes { box_count result.now ≤ 100000 }
    {
        self.sessions[s as usize].items.as_slice()
    }

    /// The number of turns of all sessions together. It goes once over the sessions.
    pub fn turn_count(&self) -> u32
        ensures { result ≡ turn_count self.now }
    {
        count_turns(self.sessions.as_slice())
    }

    /// The number of boxes of all sessions together. It goes once over the turns.
    pub fn box_count(&self) -> u32
        ensures { result ≡ all_boxes self.now }
    {
        count_all_boxes(self.sessions.as_slice())
    }
}

ghost use Rattle.run_script.specs.Jobs.{box_count as boxes_of};

fn count_turns(sessions: &[TurnList]) -> u32
    requires { sum_by length sessions.now ≤ 100000 }
    ensures { result ≡ sum_by length sessions.now }
{
    let mut count = 0;
    for turns in sessions {
        count += turns.items.len() as u32;
    }
    count
}

fn count_all_boxes(sessions: &[TurnList]) -> u32
    requires { sum_by boxes_of sessions.now ≤ 100000 }
    ensures { result ≡ sum_by boxes_of sessions.now }
{
    let mut count = 0;
    for turns in sessions {
        count += count_boxes(turns.items.as_slice());
    }
    count
}

/// The boxes of these turns together.
fn count_boxes(turns: &[SessionTurn]) -> u32
    requires { boxes_of turns.now ≤ 100000 }
    ensures { result ≡ boxes_of turns.now }
{
    let mut count = 0;
    for turn in turns {
        count += turn.areas.items.len() as u32;
    }
    count
}
