//! The surface of a shape.
ghost use Rattle.std.specs.Prelude.{◌≡◌, IfOk};
ghost use Rattle.std.specs.Arc.{arc_value};

use mesh_base::NoMemory;
use std::alloc::Global;
use std::marker::Model;
use std::sync::Arc;

/// The vertices of a surface.
#[derive(Drop)]
pub struct SurfaceList {
    vertices: Vec<u32>,
}

impl Model for SurfaceList {
    ghost use Rattle.std.specs.Prelude.{ℕ, List};

    ghost Value = { List ℕ };

    ghost view = { λ s. s.vertices.items };
}

impl SurfaceList {
    /// The vertices.
    pub fn list(&self) -> &[u32]
        ensures { result.now ≡ self.now }
    {
        self.vertices.as_slice()
    }
}

/// The list of these: the kept one, if it has them, and else a new one, which is kept from now on.
pub fn surface_list(
    alloc: Global,
    kept: &mut Option<Arc<SurfaceList>>,
    surface: &[u32],
) -> Result<Arc<SurfaceList>, NoMemory>
    ensures { IfOk result (λ list. arc_value list ≡ surface.now) }
{
    if let Some(list) = kept {
        if list.list() == surface {
            return Ok(list.clone()?);
        }
    }
    let vertices = surface.to_vec(alloc)?;
    let list = Arc::new(alloc, SurfaceList { vertices })?;
    *kept = Some(list.clone()?);
    Ok(list)
}
