//! The turns of sessions.
ghost use Rattle.std.specs.Prelude.{◌≡◌, IfOk, map};
ghost use Rattle.run_script.specs.Jobs.{turns};

use crate::job::{AreaList, SessionTurn, TurnList};
use crate::lists::ItemList;
use crate::script::Item;
use mesh_base::BoxQ;
use std::alloc::{AllocError, Global};

/// The turns of a session so far.
#[derive(Drop)]
pub struct Turning {
    /// The greatest wait.
    pub need: u32,
    /// The boxes of the hold that is open.
    pub hold: Option<Vec<BoxQ>>,
    pub turns: Vec<SessionTurn>,
}

impl Turning {
    ghost use Rattle.std.specs.Prelude.{◌≡◌, List, [], ◌∷◌, ◌++◌, OnOk, None};
    ghost use Rattle.run_script.specs.declared.script.Item.{Item};
    ghost use Rattle.run_script.specs.declared.script.Item.TheVariants as items;
    ghost use Rattle.run_script.specs.Jobs.{turn};
    ghost use Rattle.run_script.specs.Turns.{turns_with};

    /// Ends a turn.
    fn push(&mut self, areas: Vec<BoxQ>) -> Result<(), AllocError>
        ensures turns { OnOk result (self.new.turns.items
            ≡ self.old.turns.items ++ turn self.old.need areas.items ∷ []) }
        ensures need { self.new.need ≡ self.old.need }
        ensures hold { self.new.hold ≡ self.old.hold }
    {
        let need = self.need;
        let areas = AreaList::of(areas);
        self.turns.push(SessionTurn { need, areas })?;
        Ok(())
    }

    /// Takes a box.
    fn ask(&mut self, alloc: Global, area: BoxQ) -> Result<(), AllocError>
        ensures { (rest : List Item) → OnOk result
            (turns_with self.new rest ≡ turns_with self.old (items.Ask area ∷ rest)) }
    {
        match self.hold.take() {
            None => {
                let mut areas = Vec::new(alloc);
                areas.push(area)?;
                self.push(areas)
            }
            Some(held) => {
                let mut areas = held;
                areas.push(area)?;
                self.hold = Some(areas);
                Ok(())
            }
        }
    }

    /// Ends a hold.
    fn free(&mut self) -> Result<(), AllocError>
        ensures { (rest : List Item) → OnOk result
            (turns_with self.new rest ≡ turns_with self.old (items.Free ∷ rest)) }
    {
        match self.hold.take() {
            None => Ok(()),
            Some(areas) => self.push(areas),
        }
    }

    /// Takes one more item.
    fn take(&mut self, alloc: Global, item: &Item) -> Result<(), AllocError>
        ensures { (rest : List Item) → OnOk result (turns_with self.new rest ≡ turns_with self.old (item.now ∷ rest)) }
    {
        match item {
            Item::Wait { line: _, step } => {
                self.need = self.need.max(*step);
                Ok(())
            }
            Item::Ask { area } => self.ask(alloc, *area),
            Item::Hold => {
                self.hold = Some(Vec::new(alloc));
                Ok(())
            }
            Item::Free => self.free(),
        }
    }
}

/// The turns of a session with these items.
fn turns_of(alloc: Global, items: &[Item]) -> Result<TurnList, AllocError>
    ensures { IfOk result (λ list. list ≡ turns items.now) }
{
    let mut turning = Turning {
        need: 0,
        hold: None,
        turns: Vec::new(alloc),
    };
    for item in items {
        turning.take(alloc, item)?;
    }
    let Turning {
        need: _,
        hold: _,
        turns,
    } = turning;
    Ok(TurnList::of(turns))
}

/// The turns of each session.
pub fn all_turns(alloc: Global, sessions: &[ItemList]) -> Result<Vec<TurnList>, AllocError>
    ensures { IfOk result (λ lists. lists.items ≡ map turns sessions.now) }
{
    let mut lists = Vec::new(alloc);
    for session in sessions {
        lists.push(turns_of(alloc, session.items())?)?;
    }
    Ok(lists)
}
