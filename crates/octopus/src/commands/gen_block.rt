//! The command `gen`.
ghost use Rattle.std.specs.Prelude.{◌≡◌, IfOk};
ghost use Rattle.vtk_legacy.specs.Written.{mesh_spelling};
ghost use Rattle.sample_meshes.specs.Block.{block};

use mesh_base::NoMemory;
use sample_meshes::{Side, block_mesh};
use std::alloc::Global;
use vtk_legacy::write_mesh;

/// The text of the block of so many cubes a side.
pub fn block_text(alloc: Global, side: Side) -> Result<Vec<u8>, NoMemory>
    ensures { IfOk result (λ text. text.items ≡ mesh_spelling (block side)) }
{
    let mesh = block_mesh(alloc, side.cubes())?;
    let mut text = Vec::new(alloc);
    write_mesh(alloc, &mesh, &mut text)?;
    Ok(text)
}
