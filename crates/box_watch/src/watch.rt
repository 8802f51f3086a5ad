//! Watches, and lists of them.
ghost use Rattle.std.specs.Prelude.{◌≡◌};

use mesh_base::VertexList;
use std::marker::Model;

/// What entered and what left a box since its session last asked a box with equal corners.
#[derive(Drop)]
pub struct Watch {
    /// The number of the session, from 0.
    pub session: u32,
    /// The number of the box in its session, from 0.
    pub query: u32,
    /// The number of the step that the box was asked of.
    pub step: u32,
    /// The number of the last box before with equal corners, if there is one.
    pub prior: Option<u32>,
    /// The vertices of this box that the one before didn't have, ascending; all of them where there is none before.
    pub entered: VertexList,
    /// The vertices of the box before that this one doesn't have, ascending.
    pub left: VertexList,
}

/// A list of watches.
#[derive(Drop)]
pub struct WatchList {
    items: Vec<Watch>,
}

impl Model for WatchList {
    ghost use Rattle.std.specs.Prelude.{List};
    ghost use Rattle.box_watch.specs.declared.watch.Watch.{Watch};

    ghost Value = { List Watch };

    ghost view = { λ l. l.items.items };
}

impl WatchList {
    /// The list of these watches, in their order.
    pub fn of(items: Vec<Watch>) -> WatchList
        ensures { result ≡ items.items }
    {
        WatchList { items }
    }

    /// The watches, in their order.
    pub fn items(&self) -> &[Watch]
        ensures { result.now ≡ self.now }
    {
        self.items.as_slice()
    }

    /// The watches as a vector, in their order.
    pub fn into_items(self) -> Vec<Watch>
        ensures { result.items ≡ self }
    {
        let WatchList { items } = self;
        items
    }
}
