use crate::make_demo;
use sample_meshes::Side;
use std::test::Fail;

// The cubes along a side, and how many points and cells the block has.
const SIZES: [(u32, usize, usize); 3] = [(1, 8, 6), (2, 27, 48), (5, 216, 750)];

#[test]
fn demos_of_small_blocks(rt: HostRuntime) -> Result<(), Fail> {
    for (cubes, points, cells) in SIZES {
        let side = Side::new(cubes).expect(&rt, "a side");
        let job = make_demo(rt.alloc(), side, 7)?;
        assert_eq!(rt; job.mesh().points().len(), points, "{cubes} cubes");
        assert_eq!(rt; job.mesh().cells().len(), cells, "{cubes} cubes");
        assert_eq!(rt; job.steps(), 8, "{cubes} cubes");
        assert_eq!(rt; job.sessions(), 4, "{cubes} cubes");
        assert_eq!(rt; job.box_count(), 12, "{cubes} cubes");
    }
    Ok(())
}
