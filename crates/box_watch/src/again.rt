//! The vertices of a box again, from watches alone.
ghost use Rattle.std.specs.Prelude.{◌≡◌, ◌<◌, ◌⊎◌, ◌∷◌, ◌++◌, [], ◌-◌, ℕ, List, length, slice_index, All, IfOk, OnOk, Contains, if◌then◌else◌};
ghost use Rattle.std.specs.List.Sorted.{IsStrictlyIncreasing};
ghost use Rattle.mesh_base.specs.Numbers.{IsListOf};
ghost use Rattle.box_watch.specs.Replay.{watch_at, IsAfter, IsWatchList, Follows};
ghost use Rattle.box_watch.specs.Chain.{is_wanted, chain_below, IsMadeBy};

use crate::NoMemory;
use crate::difference::difference;
use crate::watch::Watch;
use mesh_base::VertexList;
use std::alloc::Global;

// Sorts the numbers, and keeps each once.
fn sort_once(numbers: &mut Vec<u32>)
    ensures ascending { IsStrictlyIncreasing numbers.new.items }
    ensures every { (v : ℕ) → Contains numbers.old.items v → Contains numbers.new.items v }
    ensures only { (v : ℕ) → Contains numbers.new.items v → Contains numbers.old.items v }
{
    numbers.sort_unstable();
    numbers.dedup();
}

// The ascending list of those that are in one of two lists.
fn union(mut numbers: Vec<u32>, others: &[u32]) -> Result<Vec<u32>, NoMemory>
    ensures { IfOk result (λ list. IsListOf (λ v. Contains numbers.items v ⊎ Contains others.now v) list.items) }
{
    numbers.extend_from_slice(others)?;
    sort_once(&mut numbers);
    Ok(numbers)
}

// What a watch makes of the vertices before.
fn vertices_after(alloc: Global, before: &[u32], watch: &Watch) -> Result<Vec<u32>, NoMemory>
    requires before { IsStrictlyIncreasing before.now }
    requires left { IsStrictlyIncreasing watch.now.left }
    ensures { IfOk result (λ list. IsAfter before.now watch.now list.items) }
{
    let stayed = difference(alloc, before, watch.left.items())?;
    union(stayed, watch.entered.items())
}

// Whether the watch is of the box that is wanted, where one is.
fn is_wanted_here(session: u32, wanted: Option<u32>, watch: &Watch) -> bool
    ensures { result ≡ is_wanted session wanted watch.now }
{
    match wanted {
        Some(query) => watch.session == session && query == watch.query,
        None => false,
    }
}

// Appends the place of the watch, if it is wanted, and gives what is wanted then.
fn follow(
    chain: &mut Vec<usize>,
    session: u32,
    wanted: Option<u32>,
    watch: &Watch,
    place: usize,
) -> Result<Option<u32>, NoMemory>
    ensures chain { OnOk result (chain.new.items ≡ chain.old.items
        ++ (if is_wanted session wanted watch.now then place ∷ [] else [])) }
    ensures wanted { IfOk result (λ next. next ≡ (if is_wanted session wanted watch.now then watch.now.prior
        else wanted)) }
{
    if is_wanted_here(session, wanted, watch) {
        chain.push(place)?;
        Ok(watch.prior)
    } else {
        Ok(wanted)
    }
}

// The places of a watch and of the watches before it that lead to it, from the last to the first.
fn list_chain(alloc: Global, all: &[Watch], at: usize) -> Result<Vec<usize>, NoMemory>
    requires { at < length all.now }
    ensures { IfOk result (λ chain. chain.items ≡ at
        ∷ chain_below all.now at (watch_at all.now at).session (watch_at all.now at).prior) }
{
    let session = all[at].session;
    let mut wanted = all[at].prior;
    let mut chain = Vec::new(alloc);
    chain.push(at)?;
    for back in 0..at {
        let place = at - 1 - back;
        wanted = follow(&mut chain, session, wanted, &all[place], place)?;
    }
    Ok(chain)
}

// The watch of a chain that comes after so many, from the first on.
fn watch_after<'a>(all: &'a [Watch], chain: &[usize], done: usize) -> &'a Watch
    requires there { done < length chain.now }
    requires below { All (λ place. place < length all.now) chain.now }
    ensures { result.now ≡ watch_at all.now (slice_index chain.now (length chain.now - 1 - done)) }
{
    &all[chain[chain.len() - 1 - done]]
}

// What the watches of a chain make together.
fn replay_chain(alloc: Global, all: &[Watch], chain: &[usize]) -> Result<Vec<u32>, NoMemory>
    requires below { All (λ place. place < length all.now) chain.now }
    requires left { All (λ w. IsStrictlyIncreasing w.left) all.now }
    ensures { IfOk result (λ vertices. IsMadeBy all.now chain.now vertices.items) }
{
    let mut vertices = Vec::new(alloc);
    for done in 0..chain.len() {
        vertices = vertices_after(alloc, &vertices, watch_after(all, chain, done))?;
    }
    Ok(vertices)
}

/// The vertices of the box that the watch at a place is of, ascending, from the watches alone.
///
/// It goes back once over the watches before that place, and then once over what entered and left in each watch that
/// leads to it. A table that gives each watched box what its watch makes of the box before has these vertices for it.
/// So from the watches of a run it gives the vertices of the box's answer.
pub fn replay(alloc: Global, all: &[Watch], at: usize) -> Result<VertexList, NoMemory>
    requires there { at < length all.now }
    requires list { IsWatchList all.now }
    ensures made { IfOk result (λ vertices. IsMadeBy all.now
        (at ∷ chain_below all.now at (watch_at all.now at).session (watch_at all.now at).prior) vertices) }
    ensures follows { IfOk result (λ vertices. (table : ℕ → ℕ → List ℕ) → Follows all.now table
        → vertices ≡ table (watch_at all.now at).session (watch_at all.now at).query) }
{
    let chain = list_chain(alloc, all, at)?;
    let vertices = replay_chain(alloc, all, &chain)?;
    Ok(VertexList::of(vertices))
}
