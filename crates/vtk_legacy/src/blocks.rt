//! Blocks that are passed over.
ghost use Rattle.std.specs.Prelude.{◌≡◌};
ghost use Rattle.oct_text.specs.Rest.{Left};
ghost use Rattle.oct_text.specs.Taken.{token_taken};
ghost use Rattle.vtk_legacy.specs.Kept.{Parts};
ghost use Rattle.vtk_legacy.specs.Machine.{Moves, goes_on, taking_block, in_arrays, in_values, then_section};

use crate::fault::{MeshFault, MeshKind};
use crate::stage::{Block, Section, Stage};
use crate::values::{COUNT_MAX, count_at, numeric_at};

/// Where so many arrays are left.
#[tactic(auto, unfolding(crate::specs::Machine::goes_on, crate::specs::Machine::in_between), using(crate::proofs::StepLemmas::in_arrays_none, crate::proofs::StepLemmas::in_arrays_more))]
fn arrays_left(section: Section, count: u32) -> Stage
    ensures { (got : Parts) (l : Left) → goes_on result got l ≡ then_section section got (in_arrays count l) }
{
    if count == 0 {
        Stage::Between { section }
    } else {
        let block = Block::ArrayName { after: count - 1 };
        Stage::Within { section, block }
    }
}

/// Where so many values of an array are left.
#[tactic(auto, unfolding(crate::specs::Machine::goes_on), using(crate::proofs::StepLemmas::in_values_none))]
fn values_left(section: Section, after: u32, values: u64) -> Stage
    ensures { (got : Parts) (l : Left) → goes_on result got l ≡ then_section section got (in_values after values l) }
{
    if values == 0 {
        arrays_left(section, after)
    } else {
        let more = values - 1;
        let block = Block::ArrayValues { after, more };
        Stage::Within { section, block }
    }
}

/// Within a block.
#[tactic(auto, unfolding(crate::specs::Machine::goes_on))]
pub fn block_step(
    section: Section,
    block: Block,
    place: u64,
    text: &[u8],
) -> Result<Stage, MeshFault>
    ensures { (got : Parts) → Moves (λ after. then_section section got
        (taking_block block (token_taken place text.now, after))) result got }
{
    match block {
        Block::Name => {
            let block = Block::Count;
            Ok(Stage::Within { section, block })
        }
        Block::Count => {
            let arrays = count_at(place, text, COUNT_MAX)?;
            Ok(arrays_left(section, arrays as u32))
        }
        Block::ArrayName { after } => {
            let block = Block::ArrayComponents { after };
            Ok(Stage::Within { section, block })
        }
        Block::ArrayComponents { after } => {
            let components = count_at(place, text, COUNT_MAX)? as u32;
            let block = Block::ArrayTuples { after, components };
            Ok(Stage::Within { section, block })
        }
        Block::ArrayTuples { after, components } => {
            let tuples = count_at(place, text, COUNT_MAX)?;
            let values = u64::from(components) * tuples;
            let block = Block::ArrayType { after, values };
            Ok(Stage::Within { section, block })
        }
        Block::ArrayType { after, values } => {
            numeric_at(place, text, MeshKind::Field)?;
            Ok(values_left(section, after, values))
        }
        Block::ArrayValues { after, more } => Ok(values_left(section, after, more)),
    }
}
