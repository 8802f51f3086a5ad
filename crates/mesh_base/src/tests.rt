//! Values at their limits, the scan of a small mesh, and what it is for a box to be covered, worked out.
ghost use Rattle.std.specs.Prelude.{◌≡◌, List, [], ◌∷◌, Contains};
ghost use Rattle.mesh_base.specs.Mesh.{surface};
ghost use Rattle.mesh_base.specs.Scan.{scan};
ghost use Rattle.mesh_base.specs.Paths.{Joined, JoinedToOne};
ghost use Rattle.mesh_base.specs.Parts.{IsCovered};
ghost use Rattle.mesh_base.specs.Samples.{at, box, split_twice, empty};

use crate::{
    Answer, AnswerList, BoxQ, Cell, CellList, Face, Mesh, Point, PointList, Route, VertexList,
    place_of, scan_mesh,
};
use std::alloc::Global;
use std::test::Fail;

const MOST: i32 = 1_073_741_824;

#[test]
fn coordinates_have_limits(rt: HostRuntime) {
    for (x, y, z, is_point) in [
        (MOST, -MOST, 0, true),
        (MOST + 1, 0, 0, false),
        (0, -MOST - 1, 0, false),
        (0, 0, MOST + 1, false),
    ] {
        assert_eq!(rt; Point::new(x, y, z).is_some(), is_point, "at {x} {y} {z}");
    }
}

#[test]
fn boxes_have_their_sides(rt: HostRuntime) -> Result<(), Fail> {
    let near = Point::new(-MOST, -MOST, -MOST).ok_or("range")?;
    let far = Point::new(MOST, MOST, MOST).ok_or("range")?;
    assert_eq!(rt; BoxQ::new(far, near), None);
    let corner = BoxQ::new(far, far).ok_or("order")?;
    assert_eq!(rt; corner.dist2(near), 13_835_058_055_282_163_712);
    assert!(rt; corner.has(far));
    assert_eq!(rt;
        (corner.lo().x(), corner.hi().y(), near.z()),
        (MOST, MOST, -MOST)
    );
    Ok(())
}

#[test]
fn cells_have_four_faces(rt: HostRuntime) -> Result<(), Fail> {
    for corners in [
        [5, 5, 1, 2],
        [5, 1, 5, 2],
        [5, 1, 2, 5],
        [1, 5, 5, 2],
        [1, 5, 2, 5],
        [1, 2, 5, 5],
    ] {
        assert_eq!(rt; Cell::new(corners), None, "at {corners:?}");
    }
    let cell = Cell::new([7, 2, 9, 4]).ok_or("twice")?;
    assert_eq!(rt; cell.corners(), [7, 2, 9, 4]);
    let [without_7, without_2, without_9, without_4] = cell.faces();
    assert_eq!(rt; without_7.numbers(), [2, 4, 9]);
    assert_eq!(rt; without_2, Face::new(9, 4, 7));
    assert_eq!(rt; without_9.numbers(), [2, 4, 7]);
    assert_eq!(rt; without_4.numbers(), [2, 7, 9]);
    Ok(())
}

// One cell, an absent one, and a point that no cell has.
fn sample(alloc: Global) -> Result<Mesh, Fail> {
    let mut points = Vec::new(alloc);
    for (x, y, z) in [(0, 0, 0), (4, 0, 0), (0, 4, 0), (0, 0, 4), (1, 0, 0)] {
        points.push(Point::new(x, y, z).ok_or("range")?)?;
    }
    let mut cells = Vec::new(alloc);
    cells.push(Cell::new([0, 1, 2, 3]))?;
    cells.push(None)?;
    let mesh = Mesh::new(PointList::of(points), CellList::of(cells)).ok_or("mesh")?;
    Ok(mesh)
}

#[test]
fn scans_take_vertices_in_the_box(rt: HostRuntime) -> Result<(), Fail> {
    let mesh = sample(rt.alloc())?;
    assert_eq!(rt; (mesh.points().len(), mesh.cells().len()), (5, 2));
    let lo = Point::new(0, 0, 0).ok_or("range")?;
    let hi = Point::new(4, 0, 0).ok_or("range")?;
    let area = BoxQ::new(lo, hi).ok_or("order")?;
    let found = scan_mesh(rt.alloc(), &mesh, &area)?;
    assert_eq!(rt; found.items(), [0, 1].as_slice());
    Ok(())
}

#[test]
fn answers_go_into_lists(rt: HostRuntime) -> Result<(), Fail> {
    let vertices = VertexList::of([0, 1].to_vec(rt.alloc())?);
    let answer = Answer {
        session: 0,
        query: 2,
        step: 1,
        route: Route::Probe,
        vertices,
    };
    let mut answers = Vec::new(rt.alloc());
    answers.push(answer)?;
    let list = AnswerList::of(answers);
    for answer in list.items() {
        assert_eq!(rt; answer.route, Route::Probe);
        assert_eq!(rt; answer.vertices.items().len(), 2);
    }
    assert_eq!(rt; list.into_items().len(), 1);
    Ok(())
}

#[test]
fn places_are_found(rt: HostRuntime) {
    let numbers = [3, 5, 9];
    for (v, place) in [(5, Ok(1)), (6, Err(2)), (10, Err(3))] {
        assert_eq!(rt; place_of(&numbers, v), place, "of {v}");
    }
}

// In this box of a cell that was split twice lie 4 and 5 and no vertex of the surface: it is covered since both are
// joined to each other. A box with nothing inside is covered, and so is each box of the empty mesh.
fn sample_covers()
    ensures inside { scan split_twice (box (at 2 4 3) (at 4 6 4)) ≡ 4 ∷ 5 ∷ [] }
    ensures apart { ¬ JoinedToOne split_twice (box (at 2 4 3) (at 4 6 4)) (surface split_twice) 4 }
    ensures joined { Joined split_twice (box (at 2 4 3) (at 4 6 4)) 4 5 }
    ensures covered { IsCovered split_twice (box (at 2 4 3) (at 4 6 4)) }
    ensures outside { IsCovered split_twice (box (at 20 20 20) (at 21 21 21)) }
    ensures none { IsCovered empty (box (at 0 0 0) (at 9 9 9)) }
{}

#[test]
fn covers_are_worked_out() {
    sample_covers();
}
