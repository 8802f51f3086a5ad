//! The watches of a run.
ghost use Rattle.std.specs.Prelude.{◌≡◌, ◌++◌, ◌<◌, length, IfOk, OnOk};
ghost use Rattle.step_registry.specs.Core.{IsWhole};
ghost use Rattle.box_watch.specs.Watches.{session_watches, watches_of};
ghost use Rattle.box_watch.specs.Replay.{IsWatchList};

use crate::NoMemory;
use crate::session::list_session;
use crate::watch::{Watch, WatchList};
use std::alloc::Global;
use step_registry::Registry;

/// The watches of one session of a run whose journal is whole.
pub(crate) fn session_list(
    alloc: Global,
    registry: &Registry,
    session: u32,
) -> Result<Vec<Watch>, NoMemory>
    requires whole { IsWhole registry.now.job registry.now.journal }
    requires there { session < length registry.now.job.sessions }
    ensures { IfOk result (λ list. list.items ≡ session_watches registry.now.job registry.now.journal session) }
{
    list_session(alloc, registry.job(), registry.answers(), session)
}

/// One watch for each box of a run whose journal is whole, by session and then by box.
///
/// For each session it goes once over all answers. It finds the box before by one look-up for each box, and compares
/// the two in one pass over both lists. `replay` may be called on the list, and gives each box its answer's vertices.
pub fn watches(alloc: Global, registry: &Registry) -> Result<WatchList, NoMemory>
    requires { IsWhole registry.now.job registry.now.journal }
    ensures watches { IfOk result (λ list. list ≡ watches_of registry.now.job registry.now.journal) }
    ensures replayed { IfOk result IsWatchList }
{
    let mut list = Vec::with_capacity(alloc, registry.answers().len())?;
    for session in 0..registry.job().sessions() {
        let mut own = session_list(alloc, registry, session)?;
        list.append(&mut own)?;
    }
    Ok(WatchList::of(list))
}
