//! Lists of what a script has. Their calls take no memory and copy nothing.
ghost use Rattle.std.specs.Prelude.{◌≡◌};

use crate::script::{Item, LinedEdit, Plan};
use std::marker::Model;

/// A list of edits, each with its line.
#[derive(Drop)]
pub struct EditList {
    items: Vec<LinedEdit>,
}

impl Model for EditList {
    ghost use Rattle.std.specs.Prelude.{List};
    ghost use Rattle.run_script.specs.declared.script.LinedEdit.{LinedEdit};

    ghost Value = { List LinedEdit };

    ghost view = { λ l. l.items.items };
}

impl EditList {
    /// The list of these edits, in their order.
    pub fn of(items: Vec<LinedEdit>) -> EditList
        ensures { result ≡ items.items }
    {
        EditList { items }
    }

    /// The edits, in their order.
    pub fn items(&self) -> &[LinedEdit]
        ensures { result.now ≡ self.now }
    {
        self.items.as_slice()
    }

    /// The edits as a vector, in their order.
    pub fn into_items(self) -> Vec<LinedEdit>
        ensures { result.items ≡ self }
    {
        let EditList { items } = self;
        items
    }
}

/// A list of plans: one for each step.
#[derive(Drop)]
pub struct PlanList {
    items: Vec<Plan>,
}

impl Model for PlanList {
    ghost use Rattle.std.specs.Prelude.{List};
    ghost use Rattle.run_script.specs.declared.script.Plan.{Plan};

    ghost Value = { List Plan };

    ghost view = { λ l. l.items.items };
}

impl PlanList {
    /// The list of these plans, in their order.
    pub fn of(items: Vec<Plan>) -> PlanList
        ensures { result ≡ items.items }
    {
        PlanList { items }
    }

    /// The plans, in their order.
    pub fn items(&self) -> &[Plan]
        ensures { result.now ≡ self.now }
    {
        self.items.as_slice()
    }

    /// The plans as a vector, in their order.
    pub fn into_items(self) -> Vec<Plan>
        ensures { result.items ≡ self }
    {
        let PlanList { items } = self;
        items
    }
}

/// What one session does, in order.
#[derive(Drop)]
pub struct ItemList {
    items: Vec<Item>,
}

impl Model for ItemList {
    ghost use Rattle.std.specs.Prelude.{List};
    ghost use Rattle.run_script.specs.declared.script.Item.{Item};

    ghost Value = { List Item };

    ghost view = { λ l. l.items.items };
}

impl ItemList {
    /// The list of these items, in their order.
    pub fn of(items: Vec<Item>) -> ItemList
        ensures { result ≡ items.items }
    {
        ItemList { items }
    }

    /// The items, in their order.
    pub fn items(&self) -> &[Item]
        ensures { result.now ≡ self.now }
    {
        self.items.as_slice()
    }

    /// The items as a vector, in their order.
    pub fn into_items(self) -> Vec<Item>
        ensures { result.items ≡ self }
    {
        let ItemList { items } = self;
        items
    }
}

/// A list of sessions.
#[derive(Drop)]
pub struct SessionList {
    items: Vec<ItemList>,
}

impl Model for SessionList {
    ghost use Rattle.std.specs.Prelude.{List};
    ghost use Rattle.run_script.specs.declared.script.Item.{Item};

    ghost Value = { List (List Item) };

    ghost view = { λ l. l.items.items };
}

impl SessionList {
    /// The list of these sessions, in their order.
    pub fn of(items: Vec<ItemList>) -> SessionList
        ensures { result ≡ items.items }
    {
        SessionList { items }
    }

    /// The sessions, in their order.
    pub fn items(&self) -> &[ItemList]
        ensures { result.now ≡ self.now }
    {
        self.items.as_slice()
    }

    /// The sessions as a vector, in their order.
    pub fn into_items(self) -> Vec<ItemList>
        ensures { result.items ≡ self }
    {
        let SessionList { items } = self;
        items
    }
}
