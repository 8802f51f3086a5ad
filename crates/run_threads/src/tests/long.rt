//! Eight sessions beside a publisher, over a block of cells that is split and moved.
use super::checks::is_whole;
use super::jobs::job_of;
use crate::run_job;
use box_crawl::Marks;
use box_query::answer_plain;
use job_steps::{first_step, mesh_of};
use mesh_base::{Answer, BoxQ, Mesh, VertexList, scan_mesh};
use oct_edge::NoGate;
use run_script::Job;
use std::alloc::{AllocError, Global};
use std::test::Fail;
use step_registry::Registry;
use step_view::Step;

// Cubes a side.
const SIDE: u32 = 4;

const STEPS: u32 = 100;

const BOXES: u32 = 1000;

// The corners of the six cells of a cube whose first corner is p.
fn cube(p: u32) -> [[u32; 4]; 6] {
    let y = SIDE.wrapping_add(1);
    let z = y.wrapping_mul(y);
    let at = |dx: u32, dy: u32, dz: u32| {
        p.wrapping_add(dx)
            .wrapping_add(dy.wrapping_mul(y))
            .wrapping_add(dz.wrapping_mul(z))
    };
    [
        [p, at(1, 0, 0), at(1, 1, 0), at(1, 1, 1)],
        [p, at(1, 0, 0), at(1, 0, 1), at(1, 1, 1)],
        [p, at(0, 1, 0), at(1, 1, 0), at(1, 1, 1)],
        [p, at(0, 1, 0), at(0, 1, 1), at(1, 1, 1)],
        [p, at(0, 0, 1), at(1, 0, 1), at(1, 1, 1)],
        [p, at(0, 0, 1), at(0, 1, 1), at(1, 1, 1)],
    ]
}

fn push_place(places: &mut Vec<[i32; 3]>, i: i32, j: i32, k: i32) -> Result<(), AllocError> {
    Ok(places.push([i.wrapping_mul(16), j.wrapping_mul(16), k.wrapping_mul(16)])?)
}

// The points of a block of cubes, 16 apart.
fn places(alloc: Global) -> Result<Vec<[i32; 3]>, AllocError> {
    let mut places = Vec::new(alloc);
    for k in 0..5 {
        for j in 0..5 {
            for i in 0..5 {
                push_place(&mut places, i, j, k)?;
            }
        }
    }
    Ok(places)
}

// The corners of its cells, six a cube.
fn corners(alloc: Global) -> Result<Vec<[u32; 4]>, AllocError> {
    let mut corners = Vec::new(alloc);
    for p in 0..125u32 {
        if p % 5 < SIDE && p / 5 % 5 < SIDE && p / 25 < SIDE {
            corners.extend_from_slice(&cube(p))?;
        }
    }
    Ok(corners)
}

// The motions that the steps go through.
const MOTIONS: [&str; 8] = [
    "stay",
    "shift 1 -1 2",
    "pull 16 16 16 -1 8",
    "shake 7 3",
    "relax",
    "turn x",
    "turn y",
    "turn z",
];

// The next number of a sequence that looks random.
fn next(seed: &mut u32) -> i32 {
    *seed = seed.wrapping_mul(1664525).wrapping_add(1013904223);
    (*seed >> 16) as i32
}

fn push_box(text: &mut String, seed: &mut u32) -> Result<(), Fail> {
    let low = [next(seed) % 144, next(seed) % 144, next(seed) % 144];
    let size = [next(seed) % 64, next(seed) % 64, next(seed) % 64];
    let [x, y, z] = low.map(|c| c.wrapping_sub(80));
    let [a, b, c] = size;
    writeln!(
        text,
        "box {x} {y} {z} {} {} {}",
        x.wrapping_add(a),
        y.wrapping_add(b),
        z.wrapping_add(c)
    )?;
    Ok(())
}

// A session that waits every hundred boxes for ten steps more.
fn push_session(text: &mut String, seed: &mut u32) -> Result<(), Fail> {
    text.push_str("session\n")?;
    for query in 0..BOXES {
        if query % 100 == 0 {
            writeln!(text, "wait {}", query / 10)?;
        }
        push_box(text, seed)?;
    }
    Ok(())
}

// Each step splits one more cell, and then moves the points.
fn script(alloc: Global) -> Result<String, Fail> {
    let mut text = String::new(alloc);
    text.push_str("octopus script 1\n")?;
    for step in 0..STEPS {
        writeln!(text, "split {} {} 5 6", step.wrapping_mul(3), step)?;
        writeln!(text, "{}", MOTIONS[step as usize % 8])?;
    }
    let mut seed = 1;
    for _ in 0..8 {
        push_session(&mut text, &mut seed)?;
    }
    text.push_str("end\n")?;
    Ok(text)
}

// The box that an answer is of. Each turn has one box.
fn area_of(job: &Job, answer: &Answer) -> Option<BoxQ> {
    if answer.session >= job.sessions() {
        return None;
    }
    let turn = job.turns(answer.session).get(answer.query as usize)?;
    turn.areas.items().first().copied()
}

// Whether each vertex of a list is in another one.
fn is_within(list: &VertexList, all: &VertexList) -> bool {
    list.items().iter().all(|v| all.items().contains(v))
}

// Whether the answer is what is answered when one thread asks alone, and has vertices of the full scan only.
fn is_right(
    alloc: Global,
    step: &Step,
    mesh: &Mesh,
    area: &BoxQ,
    answer: &Answer,
) -> Result<bool, AllocError> {
    let mut marks = Marks::new(alloc, step.points())?;
    let (route, vertices) = answer_plain(alloc, step, area, &mut marks)?;
    let all = scan_mesh(alloc, mesh, area)?;
    Ok(
        route == answer.route
            && vertices.items() == answer.vertices.items()
            && is_within(&answer.vertices, &all),
    )
}

// How many answers are about this step. All of them have to be right.
fn count_right(alloc: Global, registry: &Registry, step: &Step) -> Result<usize, Fail> {
    let mesh = mesh_of(alloc, step)?;
    let mut count: usize = 0;
    for answer in registry.answers() {
        if answer.step == step.number() {
            let area = area_of(registry.job(), answer).ok_or("box")?;
            if !is_right(alloc, step, &mesh, &area, answer)? {
                return Err(Fail::new("answer"));
            }
            count = count.wrapping_add(1);
        }
    }
    Ok(count)
}

// How many answers there are, each compared on its step, which one thread makes again.
fn count_all(alloc: Global, registry: &Registry) -> Result<usize, Fail> {
    let job = registry.job();
    let (step, mut maker) = first_step(alloc, job.clone()?)?;
    let mut count = count_right(alloc, registry, &step)?;
    for k in 0..job.steps() {
        if maker.made() != k {
            return Err(Fail::new(k));
        }
        let step = maker.next_plain(alloc)?;
        count = count.wrapping_add(count_right(alloc, registry, &step)?);
    }
    Ok(count)
}

// Eight sessions ask 1,000 boxes each, while 100 steps are made.
#[test]
fn many_boxes_are_answered(rt: HostRuntime) -> Result<(), Fail> {
    let alloc = rt.alloc();
    let text = script(alloc)?;
    let job = job_of(alloc, &places(alloc)?, &corners(alloc)?, text.as_str())?;
    let registry = run_job(&rt, alloc, job, &NoGate)?;
    assert!(rt; registry.is_whole());
    assert!(rt; is_whole(registry.job(), registry.journal()));
    assert_eq!(rt; count_all(alloc, &registry)?, 8000);
    Ok(())
}
