//! What was read of a script.
ghost use Rattle.std.specs.Prelude.{◌≡◌, [], ◌∷◌, ◌++◌, OnOk};

use crate::row::{Row, Standing};
use crate::rows::row_of_line;
use mesh_base::{Edit, Kernel};
use run_script::{
    EditList, Item, ItemList, LinedEdit, Plan, PlanList, Script, ScriptFault, ScriptKind,
    SessionList,
};
use std::alloc::{AllocError, Global};
use std::mem;

/// The rows that came, gathered into plans and sessions.
#[derive(Drop)]
pub struct Reading {
    pub standing: Standing,
    pub plans: Vec<Plan>,
    /// The edits that wait for their move.
    pub edits: Vec<LinedEdit>,
    /// The items in front of the first session line, of which there are none, and those of each session but the last.
    pub groups: Vec<ItemList>,
    /// The items of the last session.
    pub items: Vec<Item>,
}

// Appends an edit.
fn push_edit(edits: &mut Vec<LinedEdit>, line: u32, edit: Edit) -> Result<(), AllocError>
    ensures { OnOk result (edits.new.items ≡ edits.old.items ++ record { line = line; edit = edit } ∷ []) }
{
    edits.push(LinedEdit { line, edit })?;
    Ok(())
}

impl Standing {
    ghost use Rattle.std.specs.Prelude.{◌≡◌, ◌+◌, [], true, false};
    ghost use Rattle.script_format.specs.Rows.{standing};
    ghost use Rattle.script_format.specs.Reading.{with_box, with_row, CountsAtMost};

    // Where no row came yet.
    fn first() -> Standing
        ensures { result ≡ standing [] }
    {
        Standing {
            in_sessions: false,
            edits_wait: false,
            hold: None,
            has_ended: false,
            steps: 0,
            edits: 0,
            sessions: 0,
            boxes: 0,
        }
    }

    // With one more box.
    fn with_box(self) -> Standing
        requires { CountsAtMost 4294967294 self }
        ensures { result ≡ with_box self }
    {
        let mut next = self;
        next.boxes += 1;
        if let Some(boxes) = self.hold {
            next.hold = Some(boxes + 1);
        }
        next
    }

    // With one more edit.
    fn with_edit(self) -> Standing
        requires { CountsAtMost 4294967294 self }
        ensures { result ≡ record self { edits_wait = true; edits = self.edits + 1 } }
    {
        let mut next = self;
        next.edits_wait = true;
        next.edits += 1;
        next
    }

    // With one more motion.
    fn with_move(self) -> Standing
        requires { CountsAtMost 4294967294 self }
        ensures { result ≡ record self { edits_wait = false; steps = self.steps + 1 } }
    {
        let mut next = self;
        next.edits_wait = false;
        next.steps += 1;
        next
    }

    // With one more session.
    fn with_session(self) -> Standing
        requires { CountsAtMost 4294967294 self }
        ensures { result ≡ record self { in_sessions = true; sessions = self.sessions + 1 } }
    {
        let mut next = self;
        next.in_sessions = true;
        next.sessions += 1;
        next
    }

    // With one more item.
    fn with_item(self, item: &Item) -> Standing
        requires { CountsAtMost 4294967294 self }
        ensures { result ≡ with_row (Row.Does item.now) self }
    {
        let mut next = self;
        match item {
            Item::Wait { line: _, step: _ } => {}
            Item::Ask { area: _ } => return self.with_box(),
            Item::Hold => next.hold = Some(0),
            Item::Free => next.hold = None,
        }
        next
    }
}

impl Reading {
    ghost use Rattle.std.specs.Prelude.{◌≡◌, ℕ, ◌+◌, true, List, [], ◌∷◌, ◌++◌, OnOk, IfErr, ◌^◌, ◌<◌};
    ghost use Rattle.script_format.specs.declared.row.Row.{Row};
    ghost use Rattle.script_format.specs.Reading.{Stands, CountsAtMost, with_row, TakesLine, outcome_read, script_read};
    ghost use Rattle.run_script.specs.Outcome.{Agrees};
    ghost use Rattle.run_script.specs.Scripts.{IsScript};

    /// Where no row came yet.
    pub fn new(alloc: Global) -> Reading
        ensures stands { Stands [] result }
        ensures few { CountsAtMost 1 result.standing }
    {
        Reading {
            standing: Standing::first(),
            plans: Vec::new(alloc),
            edits: Vec::new(alloc),
            groups: Vec::new(alloc),
            items: Vec::new(alloc),
        }
    }

    // Takes an edit.
    fn take_edit(&mut self, edit: LinedEdit) -> Result<(), ScriptFault>
        requires few { CountsAtMost 4294967294 self.old.standing }
        ensures stands { (before : List Row) → Stands before self.old
            → OnOk result (Stands (before ++ Row.Edit edit ∷ []) self.new) }
        ensures standing { OnOk result (self.new.standing ≡ with_row (Row.Edit edit) self.old.standing) }
        ensures err { IfErr result (λ e. e ≡ ScriptFault.NoMemory) }
    {
        push_edit(&mut self.edits, edit.line, edit.edit)?;
        self.standing = self.standing.with_edit();
        Ok(())
    }

    // Takes a motion, which ends a step.
    fn take_move(&mut self, alloc: Global, kernel: Kernel) -> Result<(), ScriptFault>
        requires few { CountsAtMost 4294967294 self.old.standing }
        ensures stands { (before : List Row) → Stands before self.old
            → OnOk result (Stands (before ++ Row.Move kernel ∷ []) self.new) }
        ensures standing { OnOk result (self.new.standing ≡ with_row (Row.Move kernel) self.old.standing) }
        ensures err { IfErr result (λ e. e ≡ ScriptFault.NoMemory) }
    {
        let edits = EditList::of(mem::replace(&mut self.edits, Vec::new(alloc)));
        self.plans.push(Plan { edits, kernel })?;
        self.standing = self.standing.with_move();
        Ok(())
    }

    // Begins a session.
    fn take_session(&mut self, alloc: Global) -> Result<(), ScriptFault>
        requires few { CountsAtMost 4294967294 self.old.standing }
        ensures stands { (before : List Row) → Stands before self.old
            → OnOk result (Stands (before ++ Row.Session ∷ []) self.new) }
        ensures standing { OnOk result (self.new.standing ≡ with_row (Row.Session) self.old.standing) }
        ensures err { IfErr result (λ e. e ≡ ScriptFault.NoMemory) }
    {
        let items = ItemList::of(mem::replace(&mut self.items, Vec::new(alloc)));
        self.groups.push(items)?;
        self.standing = self.standing.with_session();
        Ok(())
    }

    // Takes an item of the last session.
    fn take_item(&mut self, item: Item) -> Result<(), ScriptFault>
        requires few { CountsAtMost 4294967294 self.old.standing }
        ensures stands { (before : List Row) → Stands before self.old
            → OnOk result (Stands (before ++ Row.Does item ∷ []) self.new) }
        ensures standing { OnOk result (self.new.standing ≡ with_row (Row.Does item) self.old.standing) }
        ensures err { IfErr result (λ e. e ≡ ScriptFault.NoMemory) }
    {
        self.standing = self.standing.with_item(&item);
        self.items.push(item)?;
        Ok(())
    }

    // Ends the script.
    fn take_end(&mut self)
        ensures stands { (before : List Row) → Stands before self.old → Stands (before ++ Row.End ∷ []) self.new }
        ensures standing { self.new.standing ≡ with_row Row.End self.old.standing }
    {
        self.standing.has_ended = true;
    }

    // Takes one more row.
    fn take_row(&mut self, alloc: Global, row: Row) -> Result<(), ScriptFault>
        requires few { CountsAtMost 4294967294 self.old.standing }
        ensures stands { (before : List Row) → Stands before self.old
            → OnOk result (Stands (before ++ row ∷ []) self.new) }
        ensures standing { OnOk result (self.new.standing ≡ with_row (row) self.old.standing) }
        ensures err { IfErr result (λ e. e ≡ ScriptFault.NoMemory) }
    {
        match row {
            Row::Edit { edit } => self.take_edit(edit),
            Row::Move { kernel } => self.take_move(alloc, kernel),
            Row::Session => self.take_session(alloc),
            Row::Does { item } => self.take_item(item),
            Row::End => {
                self.take_end();
                Ok(())
            }
        }
    }

    /// Takes one more line, which has this number.
    pub fn take_line(
        &mut self,
        alloc: Global,
        version: u32,
        line: u32,
        text: &[u8],
    ) -> Result<(), ScriptFault>
        requires few { CountsAtMost 4294967294 self.old.standing }
        ensures takes { (before : List Row) → Stands before self.old
            → TakesLine version line before text.now result self.new }
        ensures few { (n : ℕ) → CountsAtMost n self.old.standing
            → OnOk result (CountsAtMost (n + 1) self.new.standing) }
    {
        match row_of_line(version, line, &self.standing, text) {
            Ok(None) => Ok(()),
            Ok(Some(row)) => self.take_row(alloc, row),
            Err(kind) => Err(ScriptFault::Bad { kind, line }),
        }
    }

    /// The script, where all lines came; there are so many.
    pub fn finish(self, version: u32, count: u32) -> Result<Script, ScriptFault>
        requires { self.standing.has_ended ≡ true → IsScript (script_read version self) }
        ensures { Agrees result (outcome_read version count self) }
    {
        let Reading {
            standing,
            plans,
            edits: _,
            mut groups,
            items,
        } = self;
        if !standing.has_ended {
            let kind = ScriptKind::Truncated;
            let line = count;
            return Err(ScriptFault::Bad { kind, line });
        }
        groups.push(ItemList::of(items))?;
        groups.remove(0);
        Ok(Script::of(version, PlanList::of(plans), SessionList::of(groups)))
    }
}
