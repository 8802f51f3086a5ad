//! The list of a crawl beside its marks.
ghost use Rattle.std.specs.Prelude.{◌≡◌, ℕ, ◌<◌, ◌↔◌, [], ◌∷◌, ◌++◌, true, false, length, replicate, Contains, OnOk};
ghost use Rattle.box_crawl.specs.Marked.{is_marked};
ghost use Rattle.box_crawl.specs.Found.{IsTally};

use crate::marks::Marks;
use mesh_base::NoMemory;

// Puts v in.
pub(crate) fn put(found: &mut Vec<u32>, marks: &mut Marks, v: u32) -> Result<(), NoMemory>
    requires point { v < length marks.old }
    requires fresh { is_marked marks.old v ≡ false }
    requires tally { IsTally found.old.items marks.old }
    ensures len { length marks.new ≡ length marks.old }
    ensures tally { OnOk result (IsTally found.new.items marks.new) }
    ensures items { OnOk result (found.new.items ≡ found.old.items ++ v ∷ []) }
{
    found.push(v)?;
    marks.mark(v);
    Ok(())
}

// Puts v in, unless it is there.
pub(crate) fn put_once(found: &mut Vec<u32>, marks: &mut Marks, v: u32) -> Result<(), NoMemory>
    requires point { v < length marks.old }
    requires tally { IsTally found.old.items marks.old }
    ensures len { length marks.new ≡ length marks.old }
    ensures tally { OnOk result (IsTally found.new.items marks.new) }
    ensures same { OnOk result ((w : ℕ) → Contains found.new.items w ↔ Contains (found.old.items ++ v ∷ []) w) }
{
    if !marks.is_marked(v) {
        put(found, marks, v)?;
    }
    Ok(())
}

// Puts all seeds in.
pub(crate) fn put_all(
    found: &mut Vec<u32>,
    marks: &mut Marks,
    seeds: &[u32],
) -> Result<(), NoMemory>
    requires empty { found.old.items ≡ [] }
    requires clear { marks.old ≡ replicate (length marks.old) false }
    requires points { (s : ℕ) → Contains seeds.now s → s < length marks.old }
    ensures len { length marks.new ≡ length marks.old }
    ensures tally { OnOk result (IsTally found.new.items marks.new) }
    ensures same { OnOk result ((w : ℕ) → Contains found.new.items w ↔ Contains seeds.now w) }
{
    for s in seeds {
        put_once(found, marks, *s)?;
    }
    Ok(())
}
