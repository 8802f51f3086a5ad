//! Watches of small runs on one tetrahedron, beside texts written by hand.
use super::*;
use run_script::Job;
use sample_meshes::one_cell;
use script_format::read_script;
use std::alloc::Global;
use std::sync::Arc;
use std::test::Fail;
use step_registry::{CoreEnd, CoreStop, Event, PlainWork, Registry, core_run};

fn job_of(alloc: Global, script: &str) -> Result<Arc<Job>, Fail> {
    let text = script.as_bytes();
    if text.len() > 1000 {
        return Err(Fail::new("script"));
    }
    let script = read_script(alloc, text)?;
    let job = Job::check(alloc, one_cell(alloc)?, script)?;
    Ok(Arc::new(alloc, job)?)
}

const PUBLISH: Event = Event::Publish { step: 1 };

const PIN_OLD: Event = Event::Pin {
    session: 0,
    step: 0,
};

const PIN_NEW: Event = Event::Pin {
    session: 0,
    step: 1,
};

const UNPIN_OLD: Event = Event::Unpin {
    session: 0,
    step: 0,
    answered: true,
};

const UNPIN_NEW: Event = Event::Unpin {
    session: 0,
    step: 1,
    answered: true,
};

// A script, a run over a list of events, its text, and what the last watch gives again.
struct Case {
    script: &'static str,
    events: &'static [Event],
    text: &'static str,
    last: &'static [u32],
}

const CASES: [Case; 2] = [
    Case {
        script: "octopus script 1
shift 4 0 0
session
box 4 0 0 4 0 0
box 0 0 0 9 9 9
box 4 0 0 4 0 0
end
",
        events: &[
            PIN_OLD,
            UNPIN_OLD,
            PUBLISH,
            PIN_NEW,
            UNPIN_NEW,
            PIN_NEW,
            UNPIN_NEW,
            Event::Close,
        ],
        text: "octopus watch 1
steps 1
sessions 1
session 0 boxes 3
box 0 step 0 from - entered 1 left 0
1
box 1 step 1 from - entered 4 left 0
0 1 2 3
box 2 step 1 from 0 entered 1 left 1
0
1
journal 8
pin 0 0
unpin 0 0
publish 1
pin 0 1
unpin 0 1
pin 0 1
unpin 0 1
close
end
",
        last: &[0],
    },
    Case {
        script: "octopus script 1
shift 1 0 0
session
wait 1
box 1 0 0 5 0 0
box 1 0 0 5 0 0
end
",
        events: &[
            PUBLISH,
            Event::Close,
            PIN_NEW,
            UNPIN_NEW,
            PIN_NEW,
            UNPIN_NEW,
        ],
        text: "octopus watch 1
steps 1
sessions 1
session 0 boxes 2
box 0 step 1 from - entered 2 left 0
0 1
box 1 step 1 from 0 entered 0 left 0
journal 6
publish 1
close
pin 0 1
unpin 0 1
pin 0 1
unpin 0 1
end
",
        last: &[0, 1],
    },
];

// The registry of a run over these events.
fn registry_of(alloc: Global, case: &Case) -> Result<Registry, Fail> {
    let (shares, mut work) = PlainWork::new(alloc, job_of(alloc, case.script)?)?;
    let CoreEnd {
        mut registry,
        pins,
        stop,
    } = core_run(alloc, Registry::new(alloc, shares)?, &mut work, case.events);
    registry.give_up(pins);
    if stop != CoreStop::All {
        return Err(Fail::new("events"));
    }
    Ok(registry)
}

#[test]
fn watches_are_printed_and_replayed(rt: HostRuntime) -> Result<(), Fail> {
    let alloc = rt.alloc();
    for case in &CASES {
        let registry = registry_of(alloc, case)?;
        assert!(rt; registry.is_whole());
        let mut text = vec![in alloc; b'x']?;
        watch_text(alloc, &registry, &mut text)?;
        assert!(rt; &text[1..] == case.text.as_bytes());
        let list = watches(alloc, &registry)?;
        let count = list.items().len();
        assert!(rt; count > 0);
        let last = replay(alloc, list.items(), count - 1)?;
        assert!(rt; last.items() == case.last);
    }
    Ok(())
}
