//! The watches of one session.
ghost use Rattle.std.specs.Prelude.{◌≡◌, ◌≤◌, ◌<◌, ℕ, length, IfOk, IfSome, All};
ghost use Rattle.std.specs.List.Sorted.{IsStrictlyIncreasing};
ghost use Rattle.box_watch.specs.Own.{own_places, own_answers, prior_at, watches_since};
ghost use Rattle.box_watch.specs.Watches.{boxes_of, watch_since, watches_by};

use crate::NoMemory;
use crate::corners::{list_boxes, list_priors};
use crate::difference::difference;
use crate::own::{list_places, own_answer, own_vertices};
use crate::watch::Watch;
use mesh_base::{Answer, VertexList};
use run_script::Job;
use std::alloc::Global;

// The watch of box q of a session, where this box was asked before.
fn watch_at(
    alloc: Global,
    answers: &[Answer],
    places: &[usize],
    session: u32,
    q: u32,
    prior: Option<u32>,
) -> Result<Watch, NoMemory>
    requires places { places.now ≡ own_places session answers.now (length answers.now) }
    requires ascending { All (λ a. IsStrictlyIncreasing a.vertices) answers.now }
    requires there { q < length (own_answers session answers.now) }
    requires before { IfSome prior (λ p. p < length (own_answers session answers.now)) }
    ensures { IfOk result (λ watch. watch ≡ watch_since session (own_answers session answers.now) q prior) }
{
    let answer = own_answer(answers, places, session, q as usize);
    let now = answer.vertices.items();
    let before = own_vertices(answers, places, session, prior);
    let entered = difference(alloc, now, before)?;
    let left = difference(alloc, before, now)?;
    Ok(Watch {
        session,
        query: q,
        step: answer.step,
        prior,
        entered: VertexList::of(entered),
        left: VertexList::of(left),
    })
}

// The watches of a session, where each box was asked before by this list.
fn list_since(
    alloc: Global,
    answers: &[Answer],
    places: &[usize],
    session: u32,
    priors: &[Option<u32>],
) -> Result<Vec<Watch>, NoMemory>
    requires places { places.now ≡ own_places session answers.now (length answers.now) }
    requires ascending { All (λ a. IsStrictlyIncreasing a.vertices) answers.now }
    requires few { length priors.now ≤ 100000 }
    requires answered { length priors.now ≡ length (own_answers session answers.now) }
    requires before { (q : ℕ) → q < length priors.now
        → IfSome (prior_at priors.now q) (λ p. p < length (own_answers session answers.now)) }
    ensures { IfOk result (λ list. list.items ≡ watches_since session (own_answers session answers.now) priors.now) }
{
    let mut list = Vec::with_capacity(alloc, priors.len())?;
    for q in 0..priors.len() {
        let watch = watch_at(alloc, answers, places, session, q as u32, priors[q])?;
        list.push(watch)?;
    }
    Ok(list)
}

/// The watches of a session, box by box, by all answers of a run.
///
/// It goes over all answers once, looks each box up once, and goes once over the vertices of each box and of the one
/// before it with equal corners.
pub fn list_session(
    alloc: Global,
    job: &Job,
    answers: &[Answer],
    session: u32,
) -> Result<Vec<Watch>, NoMemory>
    requires there { session < length job.now.sessions }
    requires ascending { All (λ a. IsStrictlyIncreasing a.vertices) answers.now }
    requires answered { length (own_answers session answers.now) ≡ length (boxes_of job.now session) }
    ensures { IfOk result (λ list. list.items ≡ watches_by session (boxes_of job.now session)
        (own_answers session answers.now)) }
{
    let boxes = list_boxes(alloc, job.turns(session))?;
    let priors = list_priors(alloc, &boxes)?;
    let places = list_places(alloc, answers, session)?;
    list_since(alloc, answers, &places, session, &priors)
}
