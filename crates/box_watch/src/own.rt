//! The answers of one session among all.
ghost use Rattle.std.specs.Prelude.{◌≡◌, ◌==◌, ◌<◌, ◌++◌, ◌∷◌, [], length, slice_index, All, IfOk, IfSome, OnOk, if◌then◌else◌};
ghost use Rattle.std.specs.List.Sorted.{IsStrictlyIncreasing};
ghost use Rattle.box_watch.specs.Own.{own_places, own_answers};
ghost use Rattle.box_watch.specs.Watches.{answer_at, vertices_before};

use crate::NoMemory;
use mesh_base::Answer;
use std::alloc::Global;

// Appends the place of an answer, if it is of the session.
fn push_if_own(
    places: &mut Vec<usize>,
    answer: &Answer,
    session: u32,
    place: usize,
) -> Result<(), NoMemory>
    ensures { OnOk result (places.new.items ≡ places.old.items
        ++ (if answer.now.session == session then place ∷ [] else [])) }
{
    if answer.session == session {
        places.push(place)?;
    }
    Ok(())
}

/// Where the answers of a session stand. It goes once over all answers.
pub fn list_places(alloc: Global, answers: &[Answer], session: u32) -> Result<Vec<usize>, NoMemory>
    ensures { IfOk result (λ list. list.items ≡ own_places session answers.now (length answers.now)) }
{
    let mut places = Vec::new(alloc);
    for place in 0..answers.len() {
        push_if_own(&mut places, &answers[place], session, place)?;
    }
    Ok(places)
}

// The answer whose place stands at q.
fn placed_answer<'a>(answers: &'a [Answer], places: &[usize], q: usize) -> &'a Answer
    requires there { q < length places.now }
    requires below { slice_index places.now q < length answers.now }
    ensures { result.now ≡ answer_at answers.now (slice_index places.now q) }
{
    &answers[places[q]]
}

/// Answer q of a session, whose vertices ascend.
pub fn own_answer<'a>(answers: &'a [Answer], places: &[usize], session: u32, q: usize) -> &'a Answer
    requires places { places.now ≡ own_places session answers.now (length answers.now) }
    requires ascending { All (λ a. IsStrictlyIncreasing a.vertices) answers.now }
    requires there { q < length (own_answers session answers.now) }
    ensures answer { result.now ≡ answer_at (own_answers session answers.now) q }
    ensures ascending { IsStrictlyIncreasing result.now.vertices }
{
    let _ = session;
    placed_answer(answers, places, q)
}

/// The vertices of an answer of a session, ascending, and none where no answer is named.
pub fn own_vertices<'a>(
    answers: &'a [Answer],
    places: &[usize],
    session: u32,
    prior: Option<u32>,
) -> &'a [u32]
    requires places { places.now ≡ own_places session answers.now (length answers.now) }
    requires ascending { All (λ a. IsStrictlyIncreasing a.vertices) answers.now }
    requires there { IfSome prior (λ q. q < length (own_answers session answers.now)) }
    ensures vertices { result.now ≡ vertices_before (own_answers session answers.now) prior }
    ensures ascending { IsStrictlyIncreasing result.now }
{
    match prior {
        Some(q) => own_answer(answers, places, session, q as usize)
            .vertices
            .items(),
        None => &[],
    }
}
