//! Small cores on one tetrahedron.

use crate::drive::{CoreEnd, core_run};
use crate::event::Event;
use crate::pins::StepPin;
use crate::plain::PlainWork;
use crate::registry::Registry;
use crate::stop::CoreStop;
use crate::work::Work;
use mesh_base::{Answer, NoMemory};
use run_script::Job;
use sample_meshes::one_cell;
use script_format::read_script;
use std::alloc::{AllocError, Global};
use std::sync::Arc;
use std::test::Fail;
use step_view::Shares;

fn job_of(alloc: Global, script: &str) -> Result<Arc<Job>, Fail> {
    let text = script.as_bytes();
    if text.len() > 1000 {
        return Err(Fail::new("script"));
    }
    let script = read_script(alloc, text)?;
    let job = Job::check(alloc, one_cell(alloc)?, script)?;
    Ok(Arc::new(alloc, job)?)
}

// Named by kind, session and step.
const PUBLISH_1: Event = Event::Publish { step: 1 };

const PUBLISH_2: Event = Event::Publish { step: 2 };

const PUBLISH_3: Event = Event::Publish { step: 3 };

const PIN_0_0: Event = Event::Pin {
    session: 0,
    step: 0,
};

const PIN_1_1: Event = Event::Pin {
    session: 1,
    step: 1,
};

const PIN_0_3: Event = Event::Pin {
    session: 0,
    step: 3,
};

const UNPIN_0_0: Event = Event::Unpin {
    session: 0,
    step: 0,
    answered: true,
};

const UNPIN_0_3: Event = Event::Unpin {
    session: 0,
    step: 3,
    answered: true,
};

const GIVE_UP_0_0: Event = Event::Unpin {
    session: 0,
    step: 0,
    answered: false,
};

const GIVE_UP_1_1: Event = Event::Unpin {
    session: 1,
    step: 1,
    answered: false,
};

const TWO_SESSIONS: &str = "octopus script 1
stay
session
box 0 0 0 4 0 0
session
box 0 0 0 0 0 0
end
";

const ONE_HOLD: &str = "octopus script 2
session
hold
box 0 0 0 4 0 0
box 0 4 0 0 4 0
free
end
";

const THREE_STEPS: &str = "octopus script 1
shift 1 0 0
shift 1 0 0
shift 1 0 0
session
wait 3
box 3 0 0 7 0 0
end
";

// A script, a run over a list of events, and what it ends with: why, with how many events and answers, and which steps
// are held.
struct Case {
    script: &'static str,
    events: &'static [Event],
    stop: CoreStop,
    journal: usize,
    answers: usize,
    held: &'static [u32],
}

const CASES: [Case; 6] = [
    Case {
        script: TWO_SESSIONS,
        events: &[PIN_0_0],
        stop: CoreStop::All,
        journal: 1,
        answers: 0,
        held: &[0],
    },
    Case {
        script: TWO_SESSIONS,
        events: &[PIN_0_0, PUBLISH_1],
        stop: CoreStop::All,
        journal: 2,
        answers: 0,
        held: &[0, 1],
    },
    Case {
        script: TWO_SESSIONS,
        events: &[PIN_0_0, PUBLISH_1, PIN_1_1],
        stop: CoreStop::All,
        journal: 3,
        answers: 0,
        held: &[0, 1],
    },
    Case {
        script: TWO_SESSIONS,
        events: &[PIN_0_0, PUBLISH_1, PIN_1_1, UNPIN_0_0],
        stop: CoreStop::All,
        journal: 4,
        answers: 1,
        held: &[1],
    },
    Case {
        script: TWO_SESSIONS,
        events: &[PIN_0_0, UNPIN_0_0, UNPIN_0_0],
        stop: CoreStop::NotEnabled { place: 2 },
        journal: 2,
        answers: 1,
        held: &[0],
    },
    Case {
        script: ONE_HOLD,
        events: &[PIN_0_0, UNPIN_0_0],
        stop: CoreStop::All,
        journal: 2,
        answers: 2,
        held: &[0],
    },
];

// Whether the run ends so.
fn ends_so(alloc: Global, case: &Case) -> Result<bool, Fail> {
    let (shares, mut work) = PlainWork::new(alloc, job_of(alloc, case.script)?)?;
    let registry = Registry::new(alloc, shares)?;
    let CoreEnd {
        mut registry,
        pins,
        stop,
    } = core_run(alloc, registry, &mut work, case.events);
    let held = registry.held();
    let answers = registry.answers();
    let numbered = answers
        .iter()
        .enumerate()
        .all(|(i, answer)| answer.query as usize == i);
    let good = stop == case.stop
        && registry.journal().len() == case.journal
        && answers.len() == case.answers
        && held.as_slice() == case.held
        && numbered;
    registry.give_up(pins);
    Ok(good)
}

#[test]
fn runs_end_as_their_events_say(rt: HostRuntime) -> Result<(), Fail> {
    for case in &CASES {
        assert!(rt; ends_so(rt.alloc(), case)?);
    }
    Ok(())
}

// The journals of three steps and one session of one box that waits for the last of them.
const WHOLE: [[Event; 6]; 3] = [
    [
        PUBLISH_1,
        PUBLISH_2,
        PUBLISH_3,
        Event::Close,
        PIN_0_3,
        UNPIN_0_3,
    ],
    [
        PUBLISH_1,
        PUBLISH_2,
        PUBLISH_3,
        PIN_0_3,
        Event::Close,
        UNPIN_0_3,
    ],
    [
        PUBLISH_1,
        PUBLISH_2,
        PUBLISH_3,
        PIN_0_3,
        UNPIN_0_3,
        Event::Close,
    ],
];

// Whether all events happen, and their journal is whole.
fn is_whole(alloc: Global, events: &[Event]) -> Result<bool, Fail> {
    let (shares, mut work) = PlainWork::new(alloc, job_of(alloc, THREE_STEPS)?)?;
    let registry = Registry::new(alloc, shares)?;
    let CoreEnd {
        mut registry,
        pins,
        stop,
    } = core_run(alloc, registry, &mut work, events);
    let whole = stop == CoreStop::All && registry.is_whole();
    registry.give_up(pins);
    Ok(whole)
}

#[test]
fn a_whole_journal_lacks_no_event(rt: HostRuntime) -> Result<(), Fail> {
    let alloc = rt.alloc();
    for events in &WHOLE {
        assert!(rt; is_whole(alloc, events)?);
        for place in 0..events.len() {
            let mut fewer = events.to_vec(alloc)?;
            let _event = fewer.remove(place);
            assert!(rt; !is_whole(alloc, fewer.as_slice())?);
        }
    }
    Ok(())
}

// Work that makes steps, and has no memory for answers.
#[derive(Drop)]
struct NoAnswers {
    work: PlainWork,
}

impl Work for NoAnswers {
    ghost job = { λ w. w.work.job };

    ghost next = { λ w. w.work.next };

    fn upcoming(&self) -> u32 {
        self.work.upcoming()
    }

    fn make(&mut self, alloc: Global) -> Result<Shares, NoMemory> {
        self.work.make(alloc)
    }

    fn answer(&mut self, _alloc: Global, _pin: &StepPin, _query: u32) -> Result<Answer, NoMemory> {
        Err(AllocError)
    }
}

#[test]
fn refused_answers_stop_a_core(rt: HostRuntime) -> Result<(), Fail> {
    let alloc = rt.alloc();
    let (shares, work) = PlainWork::new(alloc, job_of(alloc, TWO_SESSIONS)?)?;
    let mut work = NoAnswers { work };
    let registry = Registry::new(alloc, shares)?;
    let events = [PIN_0_0, PUBLISH_1, PIN_1_1, UNPIN_0_0];
    let CoreEnd {
        mut registry,
        pins,
        stop,
    } = core_run(alloc, registry, &mut work, &events);
    let out = pins.items().len();
    registry.give_up(pins);
    assert!(rt; stop == CoreStop::NoMemory { place: 3 });
    assert_eq!(rt; out, 2);
    assert!(rt; &registry.journal()[3..] == [GIVE_UP_0_0, GIVE_UP_1_1].as_slice());
    assert!(rt; registry.held().as_slice() == [1].as_slice());
    assert!(rt; registry.answers().is_empty() && !registry.is_whole());
    Ok(())
}
