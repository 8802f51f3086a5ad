//! That meshes are made where there is memory.
use super::*;
use std::test::Fail;

#[test]
fn meshes_are_made(rt: HostRuntime) -> Result<(), Fail> {
    let alloc = rt.alloc();
    assert_eq!(rt; one_cell(alloc)?.cells().len(), 1);
    assert_eq!(rt; block_mesh(alloc, 16)?.cells().len(), 24_576);
    let split = mesh_of(alloc, &SPLIT_PLACES, &SPLIT_CELLS)?.ok_or("split")?;
    assert_eq!(rt; split.cells().len(), 7);
    assert!(rt; mesh_of(alloc, &[], &SPLIT_CELLS)?.is_none());
    Ok(())
}
