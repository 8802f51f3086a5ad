//! Lists of cell numbers.
ghost use Rattle.std.specs.Prelude.{◌≡◌};

use std::marker::Model;

/// A list of cell numbers. Its calls take no memory and copy nothing.
#[derive(Drop)]
pub struct CellNumbers {
    items: Vec<u32>,
}

impl Model for CellNumbers {
    ghost use Rattle.std.specs.Prelude.{List, ℕ};

    ghost Value = { List ℕ };

    ghost view = { λ l. l.items.items };
}

impl CellNumbers {
    /// The list of these numbers, in their order.
    pub fn of(items: Vec<u32>) -> CellNumbers
        ensures { result ≡ items.items }
    {
        CellNumbers { items }
    }

    /// The numbers, in their order.
    pub fn items(&self) -> &[u32]
        ensures { result.now ≡ self.now }
    {
        self.items.as_slice()
    }

    /// The numbers as a vector, in their order.
    pub fn into_items(self) -> Vec<u32>
        ensures { result.items ≡ self }
    {
        let CellNumbers { items } = self;
        items
    }
}
