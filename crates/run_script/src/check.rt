//! The checks that a script fits a mesh.
ghost use Rattle.std.specs.Prelude.{◌≡◌, [], ◌∷◌, IfOk, map};
ghost use Rattle.std.specs.Option.{is_some};
ghost use Rattle.mesh_base.specs.Mesh.{MeshView, IsMesh, corners_of};
ghost use Rattle.run_script.specs.Jobs.{has_points, are_different, edits_fault, edits_of, wait_fault, items_of, script_fault};
ghost use Rattle.run_script.specs.Scripts.{IsScript};
ghost use Rattle.run_script.specs.Checking.{Matches, TakesEdits, Finds};

use crate::fault::{ScriptFault, ScriptKind};
use crate::lists::ItemList;
use crate::script::{Item, LinedEdit, Plan, Script};
use mesh_base::{Cell, Edit, MOST_CELLS, MOST_POINTS, Mesh, Point};
use std::alloc::{AllocError, Global};

/// What edits are checked against: how many points there are, and which cells are live.
#[derive(Drop)]
pub struct Tally {
    pub points: usize,
    pub live: Vec<bool>,
}

/// Whether each cell is live.
fn live_cells(alloc: Global, cells: &[Option<Cell>]) -> Result<Vec<bool>, AllocError>
    ensures { IfOk result (λ live. live.items ≡ map is_some cells.now) }
{
    cells.iter().map(|cell| cell.is_some()).collect(alloc)
}

/// Whether the corners are numbers of points.
fn are_points(points: usize, corners: [u32; 4]) -> bool
    ensures { result ≡ has_points points (corners_of corners) }
{
    let [a, b, c, d] = corners;
    (a as usize) < points && (b as usize) < points && (c as usize) < points && (d as usize) < points
}

/// Whether no two of the corners are equal.
fn are_different(corners: [u32; 4]) -> bool
    ensures { result ≡ are_different (corners_of corners) }
{
    let [a, b, c, d] = corners;
    a != b && a != c && a != d && b != c && b != d && c != d
}

fn bad<T>(kind: ScriptKind, line: u32) -> Result<T, ScriptFault>
    ensures { result ≡ Err (ScriptFault.Bad kind line) }
{
    Err(ScriptFault::Bad { kind, line })
}

impl Tally {
    ghost use Rattle.std.specs.Prelude.{◌≡◌, IfOk, slice_set, false};
    ghost use Rattle.std.specs.Option.{is_some};
    ghost use Rattle.mesh_base.specs.Mesh.{MeshView, IsMesh};
    ghost use Rattle.mesh_base.specs.Edit.{cell_at};
    ghost use Rattle.mesh_base.specs.declared.edit.Edit.TheVariants as edits;
    ghost use Rattle.run_script.specs.Checking.{Matches, TakesEdit};

    /// Before any edit.
    pub fn of(alloc: Global, mesh: &Mesh) -> Result<Tally, AllocError>
        ensures ok { IfOk result (Matches mesh.now) }
        ensures mesh { IsMesh mesh.now.points mesh.now.cells }
    {
        let points = mesh.points().len();
        let live = live_cells(alloc, mesh.cells())?;
        Ok(Tally { points, live })
    }

    /// Whether the cell is there and live.
    fn is_live(&self, cell: u32) -> bool
        ensures { (mesh : MeshView) → Matches mesh self.now → result ≡ is_some (cell_at mesh.cells cell) }
    {
        match self.live.get(cell as usize) {
            Some(live) => *live,
            None => false,
        }
    }

    /// Makes a cell absent.
    fn remove(&mut self, cell: u32)
        ensures points { self.new.points ≡ self.old.points }
        ensures live { self.new.live.items ≡ slice_set self.old.live.items cell false }
    {
        if (cell as usize) < self.live.len() {
            self.live[cell as usize] = false;
        }
    }

    /// Adds a point.
    #[tactic(auto, unfolding(crate::specs::Jobs::edit_fault))]
    fn take_point(&mut self, line: u32, at: Point) -> Result<(), ScriptFault>
        ensures { (mesh : MeshView) → Matches mesh self.old → TakesEdit mesh line (edits.Point at) result self.new }
    {
        let _ = at;
        if self.points >= MOST_POINTS {
            return bad(ScriptKind::Limit, line);
        }
        self.points += 1;
        Ok(())
    }

    /// Adds a cell.
    #[tactic(auto, unfolding(crate::specs::Jobs::edit_fault))]
    fn take_cell(&mut self, line: u32, corners: [u32; 4]) -> Result<(), ScriptFault>
        ensures { (mesh : MeshView) → Matches mesh self.old → TakesEdit mesh line (edits.Add corners) result self.new }
    {
        if !are_points(self.points, corners) {
            return bad(ScriptKind::NoPoint, line);
        }
        if !are_different(corners) {
            return bad(ScriptKind::SameVertex, line);
        }
        if self.live.len() >= MOST_CELLS {
            return bad(ScriptKind::Limit, line);
        }
        self.live.push(true)?;
        Ok(())
    }

    /// Removes a cell.
    #[tactic(auto, unfolding(crate::specs::Jobs::edit_fault))]
    fn take_removal(&mut self, line: u32, cell: u32) -> Result<(), ScriptFault>
        ensures { (mesh : MeshView) → Matches mesh self.old → TakesEdit mesh line (edits.Remove cell) result self.new }
    {
        if !self.is_live(cell) {
            return bad(ScriptKind::NoCell, line);
        }
        self.remove(cell);
        Ok(())
    }

    /// Splits a cell.
    #[tactic(auto, unfolding(crate::specs::Jobs::edit_fault))]
    fn take_split(&mut self, line: u32, cell: u32, at: Point) -> Result<(), ScriptFault>
        ensures { (mesh : MeshView) → Matches mesh self.old
            → TakesEdit mesh line (edits.Split cell at) result self.new }
    {
        let _ = at;
        if !self.is_live(cell) {
            return bad(ScriptKind::NoCell, line);
        }
        if self.points >= MOST_POINTS || self.live.len() > MOST_CELLS - 4 {
            return bad(ScriptKind::Limit, line);
        }
        self.remove(cell);
        self.points += 1;
        self.live.extend_from_slice(&[true; 4])?;
        Ok(())
    }

    /// Makes an edit, where it has no fault.
    fn take(&mut self, line: u32, edit: &Edit) -> Result<(), ScriptFault>
        ensures { (mesh : MeshView) → Matches mesh self.old → TakesEdit mesh line edit.now result self.new }
    {
        match edit {
            Edit::Point { at } => self.take_point(line, *at),
            Edit::Add { corners } => self.take_cell(line, *corners),
            Edit::Remove { cell } => self.take_removal(line, *cell),
            Edit::Split { cell, at } => self.take_split(line, *cell, *at),
        }
    }
}

/// Makes edits in order, up to the first that has a fault.
fn take_edits(tally: &mut Tally, edits: &[LinedEdit]) -> Result<(), ScriptFault>
    ensures { (mesh : MeshView) → Matches mesh tally.old → TakesEdits mesh edits.now result tally.new }
{
    for edit in edits {
        tally.take(edit.line, &edit.edit)?;
    }
    Ok(())
}

/// Makes the edits of plans in order, up to the first that has a fault.
fn take_plans(tally: &mut Tally, plans: &[Plan]) -> Result<(), ScriptFault>
    ensures { (mesh : MeshView) → Matches mesh tally.old → TakesEdits mesh (edits_of plans.now) result tally.new }
{
    for plan in plans {
        take_edits(tally, plan.edits.items())?;
    }
    Ok(())
}

/// Finds the first fault of all edits of the plans.
fn check_edits(alloc: Global, mesh: &Mesh, plans: &[Plan]) -> Result<(), ScriptFault>
    ensures finds { Finds (edits_fault mesh.now (edits_of plans.now)) result }
    ensures mesh { IsMesh mesh.now.points mesh.now.cells }
{
    let mut tally = Tally::of(alloc, mesh)?;
    take_plans(&mut tally, plans)
}

/// Finds whether an item is a wait for a step above the last.
#[tactic(auto, unfolding(crate::specs::Jobs::wait_fault))]
fn check_wait(steps: u32, item: &Item) -> Result<(), ScriptFault>
    ensures { Finds (wait_fault steps (item.now ∷ [])) result }
{
    match item {
        Item::Wait { line, step } => {
            if *step > steps {
                return bad(ScriptKind::NoStep, *line);
            }
            Ok(())
        }
        Item::Ask { area: _ } => Ok(()),
        Item::Hold => Ok(()),
        Item::Free => Ok(()),
    }
}

/// Finds the first wait of a session for a step above the last.
fn check_waits(steps: u32, items: &[Item]) -> Result<(), ScriptFault>
    ensures { Finds (wait_fault steps items.now) result }
{
    for item in items {
        check_wait(steps, item)?;
    }
    Ok(())
}

/// Finds the first wait of all sessions for a step above the last.
fn check_sessions(steps: u32, sessions: &[ItemList]) -> Result<(), ScriptFault>
    ensures { Finds (wait_fault steps (items_of sessions.now)) result }
{
    for items in sessions {
        check_waits(steps, items.items())?;
    }
    Ok(())
}

/// Finds the first fault of a script on a mesh.
pub fn check_script(alloc: Global, mesh: &Mesh, script: &Script) -> Result<(), ScriptFault>
    ensures finds { Finds (script_fault mesh.now script.now) result }
    ensures mesh { IsMesh mesh.now.points mesh.now.cells }
    ensures script { IsScript script.now }
{
    check_edits(alloc, mesh, script.plans())?;
    check_sessions(script.plans().len() as u32, script.sessions())
}
