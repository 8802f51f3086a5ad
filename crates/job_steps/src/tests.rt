//! Steps of small jobs beside meshes that were worked out by hand.
use crate::{Maker, first_step, mesh_of};
use mesh_base::{Mesh, Point};
use run_script::Job;
use sample_meshes::block_mesh;
use script_format::read_script;
use std::alloc::Global;
use std::sync::Arc;
use std::test::Fail;
use std::thread::Threads;
use step_view::{Shares, Step};

// The job of a tetrahedron between four places and of a script, and its last step.
struct Case {
    places: &'static [[i32; 3]],
    script: &'static str,
    moved: &'static [[i32; 3]],
    cells: &'static [[u32; 4]],
    surface: &'static [u32],
    near: &'static [&'static [u32]],
}

const SAMPLE: &[[i32; 3]] = &[[0, 0, 0], [4, 0, 0], [0, 4, 0], [0, 0, 4]];

const ONE_CELL: &[[u32; 4]] = &[[0, 1, 2, 3]];

const ALL: &[u32] = &[0, 1, 2, 3];

const OTHERS: &[&[u32]] = &[&[1, 2, 3], &[0, 2, 3], &[0, 1, 3], &[0, 1, 2]];

const FAR: i32 = 1 << 30;

// The four zeros stand for an absent cell.
const ABSENT: [u32; 4] = [0; 4];

const CASES: &[Case] = &[
    Case {
        places: SAMPLE,
        script: "octopus script 1\nend\n",
        moved: SAMPLE,
        cells: ONE_CELL,
        surface: ALL,
        near: OTHERS,
    },
    Case {
        places: SAMPLE,
        script: "octopus script 1\nshift 1 0 0\nshift 1 0 0\nshift 1 0 0\nend\n",
        moved: &[[3, 0, 0], [7, 0, 0], [3, 4, 0], [3, 0, 4]],
        cells: ONE_CELL,
        surface: ALL,
        near: OTHERS,
    },
    // a place is held in range
    Case {
        places: &[[FAR, 0, 0], [0, 0, 0], [0, 1, 0], [0, 0, 1]],
        script: "octopus script 1\nshift 1 1 1\nend\n",
        moved: &[[FAR, 1, 1], [1, 1, 1], [1, 2, 1], [1, 1, 2]],
        cells: ONE_CELL,
        surface: ALL,
        near: OTHERS,
    },
    // the motion has the number of the step that is made
    Case {
        places: SAMPLE,
        script: "octopus script 1\nshake 7 3\nend\n",
        moved: &[[0, -3, 0], [2, -1, 1], [-2, 2, -3], [-2, 2, 4]],
        cells: ONE_CELL,
        surface: ALL,
        near: OTHERS,
    },
    // two splits, the second of a part of the first
    Case {
        places: &[[0, 0, 0], [16, 0, 0], [0, 16, 0], [0, 0, 16]],
        script: "octopus script 1\nsplit 0 4 4 4\nsplit 2 2 6 3\nstay\nsession\nbox 4 4 4 4 4 4\nend\n",
        moved: &[
            [0, 0, 0],
            [16, 0, 0],
            [0, 16, 0],
            [0, 0, 16],
            [4, 4, 4],
            [2, 6, 3],
        ],
        cells: &[
            ABSENT,
            [4, 1, 2, 3],
            ABSENT,
            [0, 1, 4, 3],
            [0, 1, 2, 4],
            [5, 4, 2, 3],
            [0, 5, 2, 3],
            [0, 4, 5, 3],
            [0, 4, 2, 5],
        ],
        surface: ALL,
        near: &[
            &[1, 2, 3, 4, 5],
            &[0, 2, 3, 4],
            &[0, 1, 3, 4, 5],
            &[0, 1, 2, 4, 5],
            &[0, 1, 2, 3, 5],
            &[0, 2, 3, 4],
        ],
    },
    // the motion of a step reads the neighbours and the places that its edits leave
    Case {
        places: SAMPLE,
        script: "octopus script 1\nsplit 0 9 9 9\nrelax\nend\n",
        moved: &[[3, 3, 3], [2, 3, 3], [3, 2, 3], [3, 3, 2], [1, 1, 1]],
        cells: &[
            ABSENT,
            [4, 1, 2, 3],
            [0, 4, 2, 3],
            [0, 1, 4, 3],
            [0, 1, 2, 4],
        ],
        surface: ALL,
        near: &[
            &[1, 2, 3, 4],
            &[0, 2, 3, 4],
            &[0, 1, 3, 4],
            &[0, 1, 2, 4],
            &[0, 1, 2, 3],
        ],
    },
    // cells that lie on each other have no surface
    Case {
        places: SAMPLE,
        script: "octopus script 1\nadd 0 1 2 3\nstay\nend\n",
        moved: SAMPLE,
        cells: &[[0, 1, 2, 3], [0, 1, 2, 3]],
        surface: &[],
        near: OTHERS,
    },
    // cells that went stay in the list as absent ones
    Case {
        places: SAMPLE,
        script: "octopus script 1\nadd 0 1 2 3\nremove 0\nstay\nremove 1\nrelax\nend\n",
        moved: SAMPLE,
        cells: &[ABSENT, ABSENT],
        surface: &[],
        near: &[&[], &[], &[], &[]],
    },
];

// The mesh with these places and cells.
fn meshed(alloc: Global, places: &[[i32; 3]], corners: &[[u32; 4]]) -> Result<Mesh, Fail> {
    Ok(sample_meshes::mesh_of(alloc, places, corners)?.ok_or("mesh")?)
}

// The job of a mesh and of a script.
fn job_of(alloc: Global, mesh: Mesh, text: &str) -> Result<Arc<Job>, Fail> {
    if text.len() > 1000 {
        return Err(Fail::new("script"));
    }
    let script = read_script(alloc, text.as_bytes())?;
    let job = Job::check(alloc, mesh, script)?;
    Ok(Arc::new(alloc, job)?)
}

// The last step of the job, made by one thread.
fn last_alone(alloc: Global, job: &Arc<Job>) -> Result<Step, Fail> {
    let (mut step, mut maker) = first_step(alloc, job.clone()?)?;
    for k in 0..job.steps() {
        if maker.made() != k {
            return Err(Fail::new(k));
        }
        step = maker.next_plain(alloc)?;
    }
    Ok(step)
}

// The same, where no other step is handed out.
fn last_passed(alloc: Global, job: &Arc<Job>) -> Result<Step, Fail> {
    let mut maker = Maker::new(alloc, job.clone()?)?;
    for k in 0..job.steps() {
        if maker.made() != k {
            return Err(Fail::new(k));
        }
        maker.pass_plain(alloc)?;
    }
    Ok(maker.last_step(alloc)?)
}

// The same, by threads.
fn last_in_threads(
    rt: &(impl Threads + Sync),
    alloc: Global,
    job: &Arc<Job>,
) -> Result<Step, Fail> {
    let (mut step, mut maker) = first_step(alloc, job.clone()?)?;
    for k in 0..job.steps() {
        if maker.made() != k {
            return Err(Fail::new(k));
        }
        step = maker.next(rt, alloc)?;
    }
    Ok(step)
}

// Whether the step's mesh has the places and cells that are wanted.
fn has_mesh(alloc: Global, step: &Step, wanted: &Case) -> Result<bool, Fail> {
    let mesh = mesh_of(alloc, step)?;
    let other = meshed(alloc, wanted.moved, wanted.cells)?;
    Ok(mesh.points() == other.points() && mesh.cells() == other.cells())
}

// Whether its points have these neighbours, and are so many.
fn has_neighbours(step: &Step, near: &[&[u32]]) -> bool {
    for v in 0..step.points() {
        match near.get(v as usize) {
            Some(row) if step.neighbours(v) == *row => {}
            _ => return false,
        }
    }
    step.points() as usize == near.len()
}

// Whether the step is what is wanted.
fn is_as_wanted(alloc: Global, step: &Step, wanted: &Case) -> Result<bool, Fail> {
    Ok(
        has_mesh(alloc, step, wanted)?
            && step.surface() == wanted.surface
            && has_neighbours(step, wanted.near),
    )
}

// Whether each way to make the last step of a job makes the one that is wanted.
fn is_made(rt: &(impl Threads + Sync), alloc: Global, wanted: &Case) -> Result<bool, Fail> {
    let mesh = meshed(alloc, wanted.places, ONE_CELL)?;
    let job = job_of(alloc, mesh, wanted.script)?;
    let alone = last_alone(alloc, &job)?;
    let passed = last_passed(alloc, &job)?;
    let other = last_in_threads(rt, alloc, &job)?;
    Ok(
        alone.number() == other.number()
            && alone.number() == passed.number()
            && is_as_wanted(alloc, &alone, wanted)?
            && is_as_wanted(alloc, &passed, wanted)?
            && is_as_wanted(alloc, &other, wanted)?,
    )
}

#[test]
fn steps_are_made_by_their_plans(rt: HostRuntime) -> Result<(), Fail> {
    let alloc = rt.alloc();
    for wanted in CASES {
        assert!(rt; is_made(&rt, alloc, wanted)?, "{}", wanted.script);
    }
    Ok(())
}

// A share for each session, and one more.
#[test]
fn steps_have_their_shares(rt: HostRuntime) -> Result<(), Fail> {
    let alloc = rt.alloc();
    let text = "octopus script 1\nsession\nsession\nend\n";
    let job = job_of(alloc, meshed(alloc, SAMPLE, ONE_CELL)?, text)?;
    let (step, _maker) = first_step(alloc, job)?;
    let mut shares = Shares::make(alloc, step)?;
    assert_eq!(rt; shares.count(), 3);
    let share = shares.take();
    assert_eq!(rt; shares.count(), 2);
    shares.put(share);
    assert_eq!(rt; shares.count(), 3);
    assert_eq!(rt; shares.step().points(), 4);
    Ok(())
}

// How many live cells the step has, and the place of its last point.
fn seen_of(alloc: Global, step: &Step) -> Result<(usize, Option<Point>), Fail> {
    let mesh = mesh_of(alloc, step)?;
    let live = mesh.cells().iter().filter(|cell| cell.is_some()).count();
    Ok((live, mesh.points().get(4_912).copied()))
}

// Step 0 of the job, and the one after it, both by one maker.
fn first_two(alloc: Global, job: Arc<Job>) -> Result<(Step, Step), Fail> {
    if job.steps() == 0 {
        return Err(Fail::new("no plan"));
    }
    let (held, mut maker) = first_step(alloc, job)?;
    let next = maker.next_plain(alloc)?;
    Ok((held, next))
}

// A step that is held stays as it is while the next one is made, with which it shares chunks: the block of 16 cubes a
// side has 4,913 points in two of them, and 24,576 cells.
#[test]
fn held_steps_stay(rt: HostRuntime) -> Result<(), Fail> {
    let alloc = rt.alloc();
    let text = "octopus script 1\nremove 0\nstay\nend\n";
    let job = job_of(alloc, block_mesh(alloc, 16)?, text)?;
    let (held, next) = first_two(alloc, job)?;
    let last = Point::new(256, 256, 256);
    assert_eq!(rt; seen_of(alloc, &held)?, (24_576, last));
    assert_eq!(rt; seen_of(alloc, &next)?, (24_575, last));
    Ok(())
}

fn may_be_sent<T: Send>() {}

// The thread that publishes steps takes the maker with it.
#[test]
fn makers_may_be_sent(_rt: HostRuntime) {
    may_be_sent::<Maker>();
}
