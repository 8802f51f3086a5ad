//! A core that a list of events drives.
ghost use Rattle.std.specs.Prelude.{◌≡◌, ℕ, ◌+◌, ◌≤◌, ◌<◌, List, [], ◌∷◌, ◌++◌, length, map, take, IfOk, OnOk, OnErr, false, true, cond, Some, None, slice_index_or, slice_set, ◌*◌};
ghost use Rattle.std.specs.Option.{is_some, IfSome};
ghost use Rattle.run_script.specs.Jobs.{JobView, turns_of, box_count};
ghost use Rattle.step_registry.specs.declared.event.Event.TheVariants.{Publish, Pin, Unpin, Close};
ghost use Rattle.step_registry.specs.Pins.{PinView, pin_of};
ghost use Rattle.step_registry.specs.Core.{after, IsLegal, CanHappen, effect, session_of, turn_at, first_query, turn_answers};
ghost use Rattle.step_registry.specs.Runs.{CanGiveUp, give_event, EndsAs, pins_of};
ghost use Rattle.step_registry.specs.Slots.{IsReady, slots_of};

use crate::event::Event;
use crate::pins::{Pins, StepPin};
use crate::registry::Registry;
use crate::slots::{Slot, collect, make_room, put_slot, take_slot};
use crate::stop::CoreStop;
use crate::work::Work;
use mesh_base::{AnswerList, NoMemory};
use run_script::Job;
use std::alloc::Global;
use step_view::Shares;

impl Registry {
    /// Takes each pin back unanswered, in the order of the pins, and drops the steps that are then held by nobody. It
    /// takes no memory.
    pub fn give_up(&mut self, pins: Pins)
        requires { CanGiveUp self.old.job (after self.old.job self.old.journal) pins }
        ensures job { self.new.job ≡ self.old.job }
        ensures journal { self.new.journal ≡ self.old.journal ++ map give_event pins }
    {
        let mut items = pins.into_items();
        while !items.is_empty() {
            let pin = items.remove(0);
            let_go(self.unpin(pin, None));
        }
        items.destroy_empty();
    }
}

// Drops a step that nobody holds.
fn let_go(shares: Option<Shares>) {
    let _ = shares;
}

/// Where a run over a list of events ended, and what is then out.
pub struct CoreEnd {
    pub registry: Registry,
    pub pins: Pins,
    pub stop: CoreStop,
}

// How many boxes turn t of session s has.
fn boxes_at(job: &Job, s: u32, t: u32) -> u32
    requires session { s < length job.now.sessions }
    requires turn { t < length (turns_of job.now s) }
    ensures count { result ≡ length (turn_at job.now s t).areas }
    ensures few { first_query (turns_of job.now s) t + result ≤ 100000 }
{
    job.turns(s)[t as usize].areas.items().len() as u32
}

// How many boxes of a turn were asked when its step is given back: all, or none.
fn boxes_asked(job: &Job, s: u32, t: u32, answered: bool) -> u32
    requires session { s < length job.now.sessions }
    requires turn { t < length (turns_of job.now s) }
    ensures count { result ≡ cond answered (length (turn_at job.now s t).areas) 0 }
    ensures few { first_query (turns_of job.now s) t + result ≤ 100000 }
{
    let count = boxes_at(job, s, t);
    if answered { count } else { 0 }
}

// The answers of one turn, in order; `first` boxes came before it in its session.
fn answer_turn<W: Work>(
    alloc: Global,
    work: &mut W,
    pin: &StepPin,
    turn: u32,
    first: u32,
) -> Result<AnswerList, NoMemory>
    requires of_job { pin.now.step.job ≡ W.job work.old }
    requires session { pin.now.session < length (W.job work.old).sessions }
    requires turn { turn < length (turns_of (W.job work.old) pin.now.session) }
    requires first { first ≡ first_query (turns_of (W.job work.old) pin.now.session) turn }
    ensures answers { IfOk result (λ list. list ≡ turn_answers
        (W.job work.old) pin.now.session turn pin.now.step.number) }
    ensures same { W.job work.new ≡ W.job work.old }
    ensures stays { W.next work.new ≡ W.next work.old }
{
    let count = boxes_at(pin.step().job(), pin.session(), turn);
    let mut list = Vec::new(alloc);
    for i in 0..count {
        list.push(work.answer(alloc, pin, first + i)?)?;
    }
    Ok(AnswerList::of(list))
}

// Makes and publishes the next step.
fn drive_publish<W: Work>(
    alloc: Global,
    registry: &mut Registry,
    work: &mut W,
) -> Result<(), NoMemory>
    requires job { W.job work.old ≡ registry.old.job }
    requires can { CanHappen registry.old.job (after registry.old.job registry.old.journal)
        (Publish (W.next work.old)) }
    ensures job { registry.new.job ≡ registry.old.job }
    ensures done { OnOk result (registry.new.journal ≡ registry.old.journal ++ Publish (W.next work.old) ∷ []) }
    ensures refused { OnErr result (registry.new ≡ registry.old) }
    ensures same { W.job work.new ≡ W.job work.old }
    ensures made { OnOk result (W.next work.new ≡ W.next work.old + 1) }
{
    let shares = work.make(alloc)?;
    let_go(registry.publish(shares));
    Ok(())
}

// What a session asks on the step in its slot.
fn ask<W: Work>(
    alloc: Global,
    work: &mut W,
    slot: &Slot,
    turn: u32,
    answered: bool,
) -> Result<Option<AnswerList>, NoMemory>
    requires full { (pin : PinView) × (slot.now.pin ≡ Some pin) × (pin.step.job ≡ W.job work.old)
        × (pin.session < length (W.job work.old).sessions) × (turn < length (turns_of (W.job work.old) pin.session))
        × (slot.now.asked ≡ first_query (turns_of (W.job work.old) pin.session) turn) }
    ensures answers { (pin : PinView) → slot.now.pin ≡ Some pin
        → IfOk result (λ answers. (is_some answers ≡ answered)
        × IfSome answers (λ list. list ≡ turn_answers (W.job work.old) pin.session turn pin.step.number)) }
    ensures same { W.job work.new ≡ W.job work.old }
    ensures stays { W.next work.new ≡ W.next work.old }
{
    if !answered {
        return Ok(None);
    }
    match &slot.pin {
        Some(pin) => {
            let list = answer_turn(alloc, work, pin, turn, slot.asked)?;
            Ok(Some(list))
        }
        None => unreachable!(),
    }
}

// Answers what a session has out, and gives it back.
fn drive_unpin<W: Work>(
    alloc: Global,
    registry: &mut Registry,
    work: &mut W,
    slots: &mut Vec<Slot>,
    session: u32,
    answered: bool,
) -> Result<(), NoMemory>
    requires out { (k : ℕ) × CanHappen registry.old.job (after registry.old.job registry.old.journal)
        (Unpin session k answered) }
    requires ready { IsReady registry.old (W.job work.old) (W.next work.old) slots.old.items }
    ensures job { registry.new.job ≡ registry.old.job }
    ensures done { OnOk result ((k : ℕ) → CanHappen registry.old.job (after registry.old.job registry.old.journal)
        (Unpin session k answered) → (registry.new.journal ≡ registry.old.journal ++ Unpin session k answered ∷ [])
        × (slots.new.items ≡ slots_of registry.old.job
        (effect (after registry.old.job registry.old.journal) (Unpin session k answered)))) }
    ensures refused { OnErr result ((registry.new ≡ registry.old) × (slots.new.items ≡ slots.old.items)) }
    ensures same { W.job work.new ≡ W.job work.old }
    ensures stays { W.next work.new ≡ W.next work.old }
{
    let turn = registry.done(session);
    let more = boxes_asked(registry.job(), session, turn, answered);
    let answers = ask(alloc, work, &slots[session as usize], turn, answered)?;
    let pin = take_slot(slots, session, more);
    let_go(registry.unpin(pin, answers));
    Ok(())
}

// Does one event that may happen.
fn drive_one<W: Work>(
    alloc: Global,
    registry: &mut Registry,
    work: &mut W,
    slots: &mut Vec<Slot>,
    event: Event,
) -> Result<(), NoMemory>
    requires can { CanHappen registry.old.job (after registry.old.job registry.old.journal) event }
    requires ready { IsReady registry.old (W.job work.old) (W.next work.old) slots.old.items }
    ensures job { registry.new.job ≡ registry.old.job }
    ensures done { OnOk result (registry.new.journal ≡ registry.old.journal ++ event ∷ []) }
    ensures ready { OnOk result (IsReady registry.new (W.job work.new) (W.next work.new) slots.new.items) }
    ensures refused { OnErr result ((registry.new ≡ registry.old) × (slots.new.items ≡ slots.old.items)) }
{
    match event {
        Event::Publish { .. } => drive_publish(alloc, registry, work),
        Event::Pin { session, .. } => {
            let pin = registry.pin(session);
            put_slot(slots, session, pin);
            Ok(())
        }
        Event::Unpin {
            session,
            answered,
            ..
        } => drive_unpin(alloc, registry, work, slots, session, answered),
        Event::Close => {
            registry.close();
            Ok(())
        }
    }
}

// Does the events in turn, up to the first that may not happen or that is refused memory.
fn drive_all<W: Work>(
    alloc: Global,
    registry: &mut Registry,
    work: &mut W,
    slots: &mut Vec<Slot>,
    events: &[Event],
) -> CoreStop
    requires empty { registry.old.journal ≡ [] }
    requires ready { IsReady registry.old (W.job work.old) (W.next work.old) slots.old.items }
    ensures job { registry.new.job ≡ registry.old.job }
    ensures ends { EndsAs registry.new.job events.now registry.new.journal result }
    ensures legal { IsLegal registry.new.job registry.new.journal }
    ensures slots { slots.new.items ≡ slots_of registry.new.job (after registry.new.job registry.new.journal) }
{
    let mut place = 0;
    for event in events {
        if !registry.enabled(event) {
            return CoreStop::NotEnabled { place };
        }
        if drive_one(alloc, registry, work, slots, *event).is_err() {
            return CoreStop::NoMemory { place };
        }
        place += 1;
    }
    CoreStop::All
}

/// Plays the events on a new registry, each with what `work` makes for it, and drops the steps that are then held by
/// nobody.
///
/// It stops at the first event that may not happen after the ones before it, and at one for which memory is refused.
/// The pins are those that sessions then have out; `Registry::give_up` takes them back. Beside what `work` does, each
/// event costs what the registry's call costs.
pub fn core_run<W: Work>(
    alloc: Global,
    registry: Registry,
    work: &mut W,
    events: &[Event],
) -> CoreEnd
    requires job { W.job work.old ≡ registry.job }
    requires empty { registry.journal ≡ [] }
    requires next { W.next work.old ≡ 1 }
    ensures job { result.registry.job ≡ registry.job }
    ensures ends { EndsAs registry.job events.now result.registry.journal result.stop }
    ensures legal { IsLegal result.registry.job result.registry.journal }
    ensures pins { result.pins ≡ pins_of result.registry.job (after result.registry.job result.registry.journal) }
    ensures can_give_up { CanGiveUp result.registry.job
        (after result.registry.job result.registry.journal) result.pins }
{
    let mut registry = registry;
    let count = registry.job().sessions();
    match make_room(alloc, count) {
        Ok((mut slots, room)) => {
            let stop = drive_all(alloc, &mut registry, work, &mut slots, events);
            CoreEnd {
                registry,
                pins: collect(slots, room),
                stop,
            }
        }
        Err(_) => CoreEnd {
            registry,
            pins: Pins::of(Vec::new(alloc)),
            stop: CoreStop::NoMemory { place: 0 },
        },
    }
}
