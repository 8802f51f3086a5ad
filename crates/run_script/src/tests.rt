use super::*;
use sample_meshes::one_cell;
use std::alloc::Global;
use std::test::Fail;

fn may_be_shared<T: Send + Sync>() {}

// Threads may share a job.
#[test]
fn threads_may_share_a_job(_rt: HostRuntime) -> Result<(), Fail> {
    may_be_shared::<Job>();
    Ok(())
}

#[test]
fn an_empty_script_makes_a_job(rt: HostRuntime) -> Result<(), Fail> {
    let alloc = rt.alloc();
    let plans = PlanList::of(Vec::new(alloc));
    let sessions = SessionList::of(Vec::new(alloc));
    let script = Script::of(1, plans, sessions);
    let job = Job::check(alloc, one_cell(alloc)?, script)?;
    assert_eq!(rt; job.steps(), 0);
    assert_eq!(rt; job.sessions(), 0);
    assert_eq!(rt; job.turn_count(), 0);
    assert_eq!(rt; job.box_count(), 0);
    assert_eq!(rt; job.mesh().cells().len(), 1);
    Ok(())
}

// A caller that prints a fault says the line and what is wrong there.
#[test]
fn a_fault_is_told_in_words(rt: HostRuntime) -> Result<(), Fail> {
    let alloc = rt.alloc();
    let fault = ScriptFault::Bad {
        kind: ScriptKind::Box,
        line: 7,
    };
    let told = format!(in alloc; "{fault}")?;
    assert_eq!(rt;
        told.as_str(),
        "line 7: a box whose low corner has a coordinate above that of the high one"
    );
    let told = format!(in alloc; "{}", ScriptFault::NoMemory)?;
    assert_eq!(rt; told.as_str(), "out of memory");
    Ok(())
}

#[test]
fn a_job_of_a_mesh_alone_has_no_step_and_no_session(rt: HostRuntime) -> Result<(), Fail> {
    let alloc = rt.alloc();
    let job = Job::still(alloc, one_cell(alloc)?)?;
    assert_eq!(rt; job.steps(), 0);
    assert_eq!(rt; job.sessions(), 0);
    assert_eq!(rt; job.mesh().cells().len(), 1);
    Ok(())
}
