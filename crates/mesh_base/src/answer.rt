//! What a query of a box gives.
ghost use Rattle.std.specs.Prelude.{◌≡◌};

use crate::lists::VertexList;
use std::marker::Model;

/// How an answer was found.
#[derive(Clone, Copy, Debug, PartialEq, Eq)]
pub enum Route {
    /// From the surface vertices inside the box, over neighbours inside.
    Probe,
    /// From the end of a walk from the surface into the box, over neighbours inside.
    Walk,
    /// By looking at every vertex.
    Scan,
}

/// The answer of one box on one step.
#[derive(Drop)]
pub struct Answer {
    /// The number of the session that asked, from 0.
    pub session: u32,
    /// The number of the box in its session, from 0.
    pub query: u32,
    /// The number of the step that the box was asked of; step 0 is the mesh as it was read.
    pub step: u32,
    /// How the answer was found.
    pub route: Route,
    /// The vertices, ascending, each once.
    pub vertices: VertexList,
}

/// A list of answers.
#[derive(Drop)]
pub struct AnswerList {
    items: Vec<Answer>,
}

impl Model for AnswerList {
    ghost use Rattle.std.specs.Prelude.{List};
    ghost use Rattle.mesh_base.specs.declared.answer.Answer.{Answer};

    ghost Value = { List Answer };

    ghost view = { λ l. l.items.items };
}

impl AnswerList {
    /// The list of these answers.
    pub fn of(items: Vec<Answer>) -> AnswerList
        ensures { result ≡ items.items }
    {
        AnswerList { items }
    }

    /// The answers, in their order.
    pub fn items(&self) -> &[Answer]
        ensures { result.now ≡ self.now }
    {
        self.items.as_slice()
    }

    /// The answers as a vector, in their order.
    pub fn into_items(self) -> Vec<Answer>
        ensures { result.items ≡ self }
    {
        let AnswerList { items } = self;
        items
    }
}
