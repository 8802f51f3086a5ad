//! The registry of steps.
ghost use Rattle.std.specs.Prelude.{◌≡◌, ℕ, ◌+◌, ◌<◌, ◌≤◌, List, [], ◌∷◌, ◌++◌, length, IfOk, Option, Some, None, Bool, true, false, IsTrue, ◌↔◌};
ghost use Rattle.run_script.specs.Jobs.{JobView};
ghost use Rattle.step_view.specs.StepView.{StepView, step_of};
ghost use Rattle.step_view.specs.Rows.{SharesView, all_shares};
ghost use Rattle.step_registry.specs.declared.event.Event.TheVariants.{Publish, Pin, Unpin, Close};

use crate::answers::keep_answers;
use crate::event::{Event, SessionState};
use crate::pins::StepPin;
use crate::rows::{give_back, held_numbers, keep_former};
use crate::session::{all_done, can_pin, fresh_sessions, has_pinned, pin_session, unpin_session};
use arrayvec::ArrayVec;
use mesh_base::{Answer, AnswerList, NoMemory};
use run_script::Job;
use std::alloc::Global;
use std::marker::Model;
use std::mem;
use std::sync::Arc;
use step_view::{Shares, Step};

/// The registry of the steps of one job.
///
/// Contracts see the job and the journal, the list of all events so far. All else is a function of these: which step is
/// newest, which session has which step out, how many turns each has done, which steps are held, and what was answered.
///
/// Each call takes constant time but for a search among at most nine rows, where it says nothing else, and none but
/// `new` takes memory.
#[derive(Drop)]
pub struct Registry {
    job: Arc<Job>,
    newest: u32,
    is_closed: bool,
    sessions: Vec<SessionState>,
    // The shares at home of the newest step, and of the older ones that are held, ascending.
    latest: Shares,
    older: Vec<Shares>,
    journal: Vec<Event>,
    answers: Vec<Answer>,
}

impl Model for Registry {
    ghost use Rattle.std.specs.Prelude.{◌≡◌, ◌+◌, ◌≤◌, length, vec_capacity};
    ghost use Rattle.std.specs.Arc.{arc_value};
    ghost use Rattle.step_registry.specs.Laws.{RegistryView, IsKept};

    ghost Value = { RegistryView };

    ghost view = { λ r. record { job = arc_value r.job; journal = r.journal.items } };

    ghost invariant = { λ r. IsKept (arc_value r.job) r.journal.items
        (record {
          newest = r.newest;
          closed = r.is_closed;
          sessions = r.sessions.items;
        }) r.latest r.older.items r.answers.items (vec_capacity r.journal)
        (vec_capacity r.answers) (vec_capacity r.older) };
}

impl Registry {
    ghost use Rattle.std.specs.Prelude.{map};
    ghost use Rattle.std.specs.Option.{option_to_list, is_some, IfSome};
    ghost use Rattle.std.specs.Arc.{arc_value};
    ghost use Rattle.step_registry.specs.Laws.{RegistryView, IsKept};
    ghost use Rattle.step_registry.specs.Core.{after, CanHappen, IsLegal, freed_by, held, turn_answers, session_of, row_of, answers_of, IsWhole};

    /// A registry with nothing in its journal, whose newest step is step 0. After NoMemory the shares are gone.
    ///
    /// It takes all room that any history of the job needs: for an event of each step, two of each turn and one more,
    /// and for an answer of each box. It goes once over the job's turns.
    pub fn new(alloc: Global, shares: Shares) -> Result<Registry, NoMemory>
        requires { shares ≡ all_shares shares.step.job 0 }
        ensures { IfOk result (λ r. (r.job ≡ shares.step.job) × (r.journal ≡ [])) }
    {
        let job = shares.step().job().clone()?;
        let sessions = fresh_sessions(alloc, job.sessions())?;
        let most = job.steps() as usize + 2 * job.turn_count() as usize + 1;
        let journal = Vec::with_capacity(alloc, most)?;
        let answers = Vec::with_capacity(alloc, job.box_count() as usize)?;
        let older = Vec::with_capacity(alloc, job.sessions() as usize + 1)?;
        Ok(Registry {
            job,
            newest: 0,
            is_closed: false,
            sessions,
            latest: shares,
            older,
            journal,
            answers,
        })
    }

    /// Publishes the next step, and hands out all shares of the former newest one where no session has it out.
    pub fn publish(&mut self, shares: Shares) -> Option<Shares>
        requires can { CanHappen self.old.job (after self.old.job self.old.journal) (Publish shares.step.number) }
        requires all { shares ≡ all_shares self.old.job shares.step.number }
        ensures job { self.new.job ≡ self.old.job }
        ensures journal { self.new.journal ≡ self.old.journal ++ Publish shares.step.number ∷ [] }
        ensures freed { option_to_list result ≡ map (all_shares self.old.job)
            (freed_by (after self.old.job self.old.journal) (Publish shares.step.number)) }
    {
        let number = shares.step().number();
        let all = shares.count();
        let former = mem::replace(&mut self.latest, shares);
        self.newest = number;
        self.journal.push_reserved(Event::Publish { step: number });
        keep_former(&mut self.older, former, all)
    }

    /// Gives session s the newest step.
    pub fn pin(&mut self, s: u32) -> StepPin
        requires can { CanHappen self.old.job (after self.old.job self.old.journal)
            (Pin s (after self.old.job self.old.journal).newest) }
        ensures job { self.new.job ≡ self.old.job }
        ensures journal { self.new.journal ≡ self.old.journal
            ++ Pin s (after self.old.job self.old.journal).newest ∷ [] }
        ensures session { result.session ≡ s }
        ensures step { result.step ≡ step_of self.old.job (after self.old.job self.old.journal).newest }
    {
        let number = self.newest;
        let step = self.latest.take();
        pin_session(&mut self.sessions, s, number);
        self.journal.push_reserved(Event::Pin {
            session: s,
            step: number,
        });
        StepPin::of(s, step)
    }

    /// Takes a pin back: with the answers of the session's turn, or without, and then the session stops. Hands out all
    /// shares of the step where it isn't the newest one and no other session has it out.
    pub fn unpin(&mut self, pin: StepPin, answers: Option<AnswerList>) -> Option<Shares>
        requires job { pin.step.job ≡ self.old.job }
        requires can { CanHappen self.old.job (after self.old.job self.old.journal)
            (Unpin pin.session pin.step.number (is_some answers)) }
        requires answers { IfSome answers (λ list.
            list ≡ turn_answers self.old.job pin.session
            (session_of (after self.old.job self.old.journal) pin.session).done pin.step.number) }
        ensures job { self.new.job ≡ self.old.job }
        ensures journal { self.new.journal ≡ self.old.journal
            ++ Unpin pin.session pin.step.number (is_some answers) ∷ [] }
        ensures freed { option_to_list result ≡ map (all_shares self.old.job)
            (freed_by (after self.old.job self.old.journal) (Unpin pin.session pin.step.number (is_some answers))) }
    {
        let (session, step) = pin.into_parts();
        self.take_back(session, step, answers)
    }

    // Takes a share back from a session.
    fn take_back(&mut self, session: u32, step: Step, answers: Option<AnswerList>) -> Option<Shares>
        requires own { step ≡ step_of self.old.job step.number }
        requires can { CanHappen self.old.job (after self.old.job self.old.journal)
            (Unpin session step.number (is_some answers)) }
        requires answers { IfSome answers (λ list.
            list ≡ turn_answers self.old.job session
            (session_of (after self.old.job self.old.journal) session).done step.number) }
        ensures job { self.new.job ≡ self.old.job }
        ensures journal { self.new.journal ≡ self.old.journal ++ Unpin session step.number (is_some answers) ∷ [] }
        ensures freed { option_to_list result ≡ map (all_shares self.old.job)
            (freed_by (after self.old.job self.old.journal) (Unpin session step.number (is_some answers))) }
    {
        let number = step.number();
        let all = self.sessions.len() as u32 + 1;
        let answered = keep_answers(&mut self.answers, answers);
        unpin_session(&mut self.sessions, session, answered);
        self.journal.push_reserved(Event::Unpin {
            session,
            step: number,
            answered,
        });
        give_back(&mut self.latest, &mut self.older, step, self.newest, all)
    }

    /// Closes the plan: no step is published after it.
    pub fn close(&mut self)
        requires can { CanHappen self.old.job (after self.old.job self.old.journal) Close }
        ensures job { self.new.job ≡ self.old.job }
        ensures journal { self.new.journal ≡ self.old.journal ++ Close ∷ [] }
    {
        self.is_closed = true;
        self.journal.push_reserved(Event::Close);
    }

    /// Whether the event may happen next.
    pub fn enabled(&self, event: &Event) -> bool
        ensures { IsTrue result ↔ CanHappen self.now.job (after self.now.job self.now.journal) event.now }
    {
        match *event {
            Event::Publish { step } => {
                !self.is_closed
                    && step > self.newest
                    && step - self.newest == 1
                    && step <= self.job.steps()
            }
            Event::Pin { session, step } => {
                session < self.job.sessions()
                    && step == self.newest
                    && can_pin(&self.job, self.sessions.as_slice(), session, self.newest)
            }
            Event::Unpin { session, step, .. } => {
                session < self.job.sessions() && has_pinned(self.sessions.as_slice(), session, step)
            }
            Event::Close => !self.is_closed,
        }
    }

    /// The number of the newest step.
    pub fn newest(&self) -> u32
        ensures value { result ≡ (after self.now.job self.now.journal).newest }
    {
        self.newest
    }

    /// Whether the plan is closed.
    pub fn closed(&self) -> bool
        ensures value { result ≡ (after self.now.job self.now.journal).closed }
    {
        self.is_closed
    }

    /// How many of its turns session s has done.
    pub fn done(&self, s: u32) -> u32
        requires { s < length self.now.job.sessions }
        ensures { result ≡ (session_of (after self.now.job self.now.journal) s).done }
    {
        self.sessions[s as usize].done
    }

    /// The job.
    pub fn job(&self) -> &Arc<Job>
        ensures { arc_value result.now ≡ self.now.job }
    {
        &self.job
    }

    /// All events, in their order.
    pub fn journal(&self) -> &[Event]
        ensures value { result.now ≡ self.now.journal }
        ensures legal { IsLegal self.now.job self.now.journal }
    {
        self.journal.as_slice()
    }

    /// All answers, in the order of the events that brought them.
    pub fn answers(&self) -> &[Answer]
        ensures value { result.now ≡ answers_of self.now.job self.now.journal }
    {
        self.answers.as_slice()
    }

    /// The steps that are held, ascending: the newest one, and each that a session has out.
    pub fn held(&self) -> ArrayVec<u32, 9>
        ensures held { result.items ≡ held (after self.now.job self.now.journal) }
        ensures few { length result.items ≤ length self.now.job.sessions + 1 }
    {
        held_numbers(self.older.as_slice(), self.newest)
    }

    /// Whether all steps were published, the plan is closed, and each session has done all its turns and has no step
    /// out. It goes once over the sessions.
    pub fn is_whole(&self) -> bool
        ensures { IsTrue result ↔ IsWhole self.now.job self.now.journal }
    {
        self.is_closed
            && self.newest == self.job.steps()
            && all_done(&self.job, self.sessions.as_slice())
    }
}
