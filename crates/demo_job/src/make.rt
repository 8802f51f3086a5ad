//! The job that `demo` plays.
ghost use Rattle.std.specs.Prelude.{◌≡◌, ◌≤◌, ◌*◌, ◌/◌, ℤ, pos, neg_ℤ, IfOk, replicate};
ghost use Rattle.mesh_base.specs.Place.{Place, IsPlace, IsArea};
ghost use Rattle.demo_job.specs.Demo.{between, edge, middle, whole_box, half_box, middle_box, demo_plan, demo_items, demo_script, demo_job, demo_steps, demo_sessions};

use mesh_base::{BoxQ, Kernel, NoMemory, Point};
use run_script::{EditList, Item, ItemList, Job, Plan, PlanList, Script, ScriptFault, SessionList};
use sample_meshes::{Side, block_mesh};
use std::alloc::{AllocError, Global};

// How many steps there are.
const STEPS: u32 = 8;

// How many sessions there are.
const SESSIONS: u32 = 4;

// The coordinate of so many cubes.
fn cubes_away(cubes: u32) -> i32
    requires { cubes ≤ 87 }
    ensures { result ≡ pos (16 * cubes) }
{
    (16 * cubes) as i32
}

// The point at a place within the range.
fn point_at(x: i32, y: i32, z: i32) -> Point
    requires { IsPlace (x, y, z) }
    ensures { result ≡ (x, y, z) }
{
    match Point::new(x, y, z) {
        Some(point) => point,
        None => unreachable!(),
    }
}

// The box between two corners.
fn box_between(lo: Point, hi: Point) -> BoxQ
    requires { IsArea lo hi }
    ensures { result ≡ between lo hi }
{
    match BoxQ::new(lo, hi) {
        Some(area) => area,
        None => unreachable!(),
    }
}

// The box around the whole block.
fn around_all(n: u32) -> BoxQ
    requires { n ≤ 87 }
    ensures { result ≡ whole_box n }
{
    let far = cubes_away(n) + 8;
    box_between(point_at(-8, -8, -8), point_at(far, far, far))
}

// The box around the half of low x.
fn around_half(n: u32) -> BoxQ
    requires { n ≤ 87 }
    ensures { result ≡ half_box n }
{
    let far = cubes_away(n) + 8;
    let half = cubes_away(n / 2) + 8;
    box_between(point_at(-8, -8, -8), point_at(half, far, far))
}

// The box around the point in the middle.
fn around_middle(n: u32) -> BoxQ
    requires { n ≤ 87 }
    ensures { result ≡ middle_box n }
{
    let middle = cubes_away(n / 2);
    let low = point_at(middle - 8, middle - 8, middle - 8);
    box_between(low, point_at(middle + 8, middle + 8, middle + 8))
}

// What each session does.
fn session_items(alloc: Global, n: u32) -> Result<ItemList, NoMemory>
    requires { n ≤ 87 }
    ensures { IfOk result (λ items. items ≡ demo_items n) }
{
    let wait = Item::Wait {
        line: 0,
        step: STEPS,
    };
    let all = Item::Ask {
        area: around_all(n),
    };
    let half = Item::Ask {
        area: around_half(n),
    };
    let middle = Item::Ask {
        area: around_middle(n),
    };
    Ok(ItemList::of(vec![in alloc; wait, all, half, middle]?))
}

// What makes each step.
fn shaking_plan(alloc: Global, seed: u16) -> Plan
    ensures { result ≡ demo_plan seed }
{
    Plan {
        edits: EditList::of(Vec::new(alloc)),
        kernel: Kernel::Shake {
            seed: u32::from(seed),
            amp: 1,
        },
    }
}

fn all_plans(alloc: Global, seed: u16) -> Result<PlanList, NoMemory>
    ensures { IfOk result (λ plans. plans ≡ replicate demo_steps (demo_plan seed)) }
{
    let mut plans = Vec::with_capacity(alloc, STEPS as usize)?;
    for _ in 0..STEPS {
        plans.push(shaking_plan(alloc, seed))?;
    }
    Ok(PlanList::of(plans))
}

fn all_sessions(alloc: Global, n: u32) -> Result<SessionList, NoMemory>
    requires { n ≤ 87 }
    ensures { IfOk result (λ sessions. sessions ≡ replicate demo_sessions (demo_items n)) }
{
    let mut sessions = Vec::with_capacity(alloc, SESSIONS as usize)?;
    for _ in 0..SESSIONS {
        sessions.push(session_items(alloc, n)?)?;
    }
    Ok(SessionList::of(sessions))
}

fn make_script(alloc: Global, n: u32, seed: u16) -> Result<Script, NoMemory>
    requires { n ≤ 87 }
    ensures { IfOk result (λ script. script ≡ demo_script n seed) }
{
    let plans = all_plans(alloc, seed)?;
    let sessions = all_sessions(alloc, n)?;
    Ok(Script::of(1, plans, sessions))
}

/// The job that `demo` plays on the block of so many cubes a side: eight steps, each of which shakes all points, and
/// four sessions, each of which asks three boxes about the last step. Its time and its memory are those of the block.
pub fn make_demo(alloc: Global, side: Side, seed: u16) -> Result<Job, NoMemory>
    ensures { IfOk result (λ job. job ≡ demo_job side seed) }
{
    let n = side.cubes();
    let mesh = block_mesh(alloc, n)?;
    let script = make_script(alloc, n, seed)?;
    match Job::check(alloc, mesh, script) {
        Ok(job) => Ok(job),
        Err(ScriptFault::NoMemory) => Err(AllocError),
        Err(ScriptFault::Bad { kind: _, line: _ }) => unreachable!(),
    }
}
