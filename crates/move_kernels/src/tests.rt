//! The motions of small meshes beside places that were worked out by hand, and of a block alone and in threads.
use crate::{moved, moved_par};
use mesh_base::{Axis, CellList, Kernel, Mesh, Point, PointList};
use sample_meshes::{block_mesh, mesh_of};
use std::alloc::Global;
use std::sync::Arc;
use std::test::Fail;
use std::thread::Threads;
use topo::{Positions, Shape, Topo};

// The places and the shape of a mesh.
#[derive(Drop)]
struct Scene {
    old: Arc<Positions>,
    shape: Arc<Shape>,
}

fn point(at: [i32; 3]) -> Result<Point, Fail> {
    let [x, y, z] = at;
    Ok(Point::new(x, y, z).ok_or("place")?)
}

fn points(alloc: Global, places: &[[i32; 3]]) -> Result<Vec<Point>, Fail> {
    let mut list = Vec::new(alloc);
    for at in places {
        list.push(point(*at)?)?;
    }
    Ok(list)
}

fn scene_of(alloc: Global, mesh: &Mesh) -> Result<Scene, Fail> {
    let count = mesh.points().len() as u32;
    let cells = CellList::of(mesh.cells().to_vec(alloc)?);
    Ok(Scene {
        shape: Topo::build(alloc, count, cells)?.freeze(alloc)?,
        old: Positions::copied(alloc, mesh.points())?,
    })
}

// The tetrahedron between the first four of these places.
fn one_cell(alloc: Global, places: &[[i32; 3]]) -> Result<Scene, Fail> {
    let mesh = mesh_of(alloc, places, &[[0, 1, 2, 3]])?.ok_or("mesh")?;
    scene_of(alloc, &mesh)
}

// Where the kernel puts the points in the first step.
fn after(alloc: Global, scene: &Scene, kernel: &Kernel) -> Result<PointList, Fail> {
    let (old, shape): (&Positions, &Shape) = (&scene.old, &scene.shape);
    if old.len() != shape.points() {
        return Err(Fail::new("points"));
    }
    if let Kernel::Pull { den, .. } = *kernel
        && den <= 0
    {
        return Err(Fail::new("divisor"));
    }
    Ok(moved(alloc, kernel, 1, old, shape)?)
}

// The same, in threads.
fn after_par(
    rt: &(impl Threads + Sync),
    alloc: Global,
    scene: &Scene,
    kernel: &Kernel,
) -> Result<PointList, Fail> {
    let (old, shape): (&Positions, &Shape) = (&scene.old, &scene.shape);
    if old.len() != shape.points() {
        return Err(Fail::new("points"));
    }
    if let Kernel::Pull { den, .. } = *kernel
        && den <= 0
    {
        return Err(Fail::new("divisor"));
    }
    Ok(moved_par(rt, alloc, kernel, 1, old, shape)?)
}

const SAMPLE: [[i32; 3]; 4] = [[0, 0, 0], [4, 0, 0], [0, 4, 0], [0, 0, 4]];

const FAR: i32 = 1 << 30;

#[test]
fn points_go_where_the_kernels_say(rt: HostRuntime) -> Result<(), Fail> {
    let alloc = rt.alloc();
    let to = point([10, 0, 0])?;
    for (places, kernel, wanted) in [
        (SAMPLE, Kernel::Stay, SAMPLE),
        (
            SAMPLE,
            Kernel::Pull { to, num: 1, den: 3 },
            [[3, 0, 0], [6, 0, 0], [3, 2, 0], [3, 0, 2]],
        ),
        (
            SAMPLE,
            Kernel::Turn { axis: Axis::X },
            [[0, 0, 0], [4, 0, 0], [0, 0, 4], [0, -4, 0]],
        ),
        (
            SAMPLE,
            Kernel::Turn { axis: Axis::Y },
            [[0, 0, 0], [0, 0, -4], [0, 4, 0], [4, 0, 0]],
        ),
        (
            SAMPLE,
            Kernel::Turn { axis: Axis::Z },
            [[0, 0, 0], [0, 4, 0], [-4, 0, 0], [0, 0, 4]],
        ),
        (
            SAMPLE,
            Kernel::Relax,
            [[1, 1, 1], [0, 1, 1], [1, 0, 1], [1, 1, 0]],
        ),
        (
            SAMPLE,
            Kernel::Shake { seed: 7, amp: 3 },
            [[0, -3, 0], [2, -1, 1], [-2, 2, -3], [-2, 2, 4]],
        ),
        // means of negative numbers go towards the smaller number
        (
            [[0, 0, 0], [-4, 0, 0], [0, -4, 0], [0, 0, -4]],
            Kernel::Relax,
            [[-2, -2, -2], [0, -2, -2], [-2, 0, -2], [-2, -2, 0]],
        ),
        // a place is held in range
        (
            [[FAR, 0, 0], [0, -FAR, 0], [0, 1, 0], [0, 0, 1]],
            Kernel::Shift {
                dx: 1,
                dy: -1,
                dz: 1,
            },
            [[FAR, -1, 1], [1, -FAR, 1], [1, 0, 1], [1, -1, 2]],
        ),
    ] {
        let scene = one_cell(alloc, &places)?;
        let wanted = points(alloc, &wanted)?;
        let list = after(alloc, &scene, &kernel)?;
        assert_eq!(rt; list.items(), wanted.as_slice(), "{kernel:?}");
        let par = after_par(&rt, alloc, &scene, &kernel)?;
        assert_eq!(rt; par.items(), wanted.as_slice(), "{kernel:?} in threads");
    }
    Ok(())
}

// A point that no cell has stays.
#[test]
fn spare_points_do_not_relax(rt: HostRuntime) -> Result<(), Fail> {
    let alloc = rt.alloc();
    let places = [[0, 0, 0], [4, 0, 0], [0, 4, 0], [0, 0, 4], [9, 9, 9]];
    let scene = one_cell(alloc, &places)?;
    let wanted = points(
        alloc,
        &[[1, 1, 1], [0, 1, 1], [1, 0, 1], [1, 1, 0], [9, 9, 9]],
    )?;
    assert_eq!(rt;
        after(alloc, &scene, &Kernel::Relax)?.items(),
        wanted.as_slice()
    );
    Ok(())
}

#[test]
fn threads_give_the_same_places(rt: HostRuntime) -> Result<(), Fail> {
    let alloc = rt.alloc();
    let scene = scene_of(alloc, &block_mesh(alloc, 10)?)?;
    let to = point([7, -5, 1000])?;
    for kernel in [
        Kernel::Stay,
        Kernel::Shift {
            dx: 3,
            dy: -FAR,
            dz: FAR,
        },
        Kernel::Pull {
            to,
            num: -7,
            den: 5,
        },
        Kernel::Shake {
            seed: 65_535,
            amp: 1_000,
        },
        Kernel::Relax,
        Kernel::Turn { axis: Axis::Y },
    ] {
        let list = after(alloc, &scene, &kernel)?;
        assert_eq!(rt; list.items().len(), 1_331);
        assert_eq!(rt;
            after_par(&rt, alloc, &scene, &kernel)?.items(),
            list.items(),
            "{kernel:?}"
        );
    }
    Ok(())
}
