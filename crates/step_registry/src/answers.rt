//! Answers that a session hands in.
ghost use Rattle.std.specs.Prelude.{◌≡◌, ◌+◌, ◌≤◌, ◌++◌, length, vec_capacity};
ghost use Rattle.std.specs.Option.{is_some};
ghost use Rattle.step_registry.specs.Laws.{answers_in};

use mesh_base::{Answer, AnswerList};

// Appends the answers, if there are any. There is room.
pub fn keep_answers(kept: &mut Vec<Answer>, answers: Option<AnswerList>) -> bool
    requires room { length kept.old.items + length (answers_in answers) ≤ vec_capacity kept.old }
    ensures value { result ≡ is_some answers }
    ensures items { kept.new.items ≡ kept.old.items ++ answers_in answers }
    ensures capacity { vec_capacity kept.old ≤ vec_capacity kept.new }
{
    match answers {
        None => false,
        Some(list) => {
            append_reserved(kept, list.into_items());
            true
        }
    }
}

fn append_reserved(kept: &mut Vec<Answer>, mut more: Vec<Answer>)
    requires room { length kept.old.items + length more.items ≤ vec_capacity kept.old }
    ensures items { kept.new.items ≡ kept.old.items ++ more.items }
    ensures capacity { vec_capacity kept.old ≤ vec_capacity kept.new }
{
    let _ = kept.append(&mut more);
}
