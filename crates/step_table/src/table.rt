//! The table and its calls.
ghost use Rattle.std.specs.Prelude.{◌≡◌, ℕ, ◌+◌, ◌*◌, ◌/◌, ◌<◌, ◌≤◌, List, [], ◌∷◌, ◌++◌, length, map, IfOk, Some, None, true, false, vec_capacity};
ghost use Rattle.std.specs.Option.{option_to_list, is_some, IfSome};
ghost use Rattle.run_script.specs.Jobs.{JobView, turns_of};
ghost use Rattle.step_view.specs.Rows.{all_shares};
ghost use Rattle.turn_table.specs.Seats.{table_of, IsNew, EachSeat};
ghost use Rattle.turn_table.specs.declared.seats.KeptSeat.{KeptSeat};
ghost use Rattle.step_registry.specs.declared.event.Event.{Event};
ghost use Rattle.step_registry.specs.declared.event.Event.TheVariants.{Publish, Pin, Unpin, Close};
ghost use Rattle.step_registry.specs.Core.{after, session_of, pinned, unpinned, IsLegal, freed_by, turn_answers};
ghost use Rattle.step_registry.specs.Laws.{RegistryView};
ghost use Rattle.step_registry.specs.Pins.{pin_of};
ghost use Rattle.step_table.specs.Seats.{EachSession, ReachedKnown, Told, new_session};
ghost use Rattle.step_table.specs.Seating.{AreSeatsOf};

use crate::reached::Reached;
use crate::seats::{PublisherSeat, SessionSeat, SessionSeats};
use mesh_base::{AnswerList, NoMemory};
use std::alloc::Global;
use std::marker::Model;
use std::snapshot::Snapshot;
use std::sync::Wait;
use step_registry::{Registry, StepPin};
use step_view::Shares;
use turn_table::{SeatList, TurnSeat, Turns};

/// A registry of steps under a lock of turns. Threads share it by reference, each with a seat of its own.
///
/// Contracts see which lock it is, and how many sessions have a seat. No call but `new` takes memory.
#[derive(Drop)]
pub struct StepTable {
    turns: Turns<Registry>,
    sessions: u32,
}

impl Model for StepTable {
    ghost use Rattle.std.specs.Prelude.{◌≡◌, ◌+◌};
    ghost use Rattle.turn_table.specs.Seats.{table_of};
    ghost use Rattle.step_table.specs.Seats.{TableView};

    ghost Value = { TableView };

    ghost view = { λ t. record { lock = table_of t.turns; sessions = t.sessions } };

    ghost invariant = { λ t. t.turns.seats ≡ t.sessions + 1 };
}

impl StepTable {
    ghost use Rattle.step_table.specs.Seats.{TableView, PublisherView, SessionView, published_of, closed_of, state_of, next_turn, new_publisher, earlier, Follows, Adds, Tells};

    /// A table over a registry in whose journal nothing stands yet, with a seat for the publisher and one for each
    /// session. The seats have seen nothing and know no word. After `NoMemory` the registry is gone.
    ///
    /// It takes all memory that the table will need: some words for each seat.
    pub fn new(
        alloc: Global,
        registry: Registry,
    ) -> Result<(StepTable, PublisherSeat, SessionSeats), NoMemory>
        requires { registry.journal ≡ [] }
        ensures count { IfOk result (λ made. (made.0.sessions ≡ length registry.job.sessions)
            × (length made.2 ≡ length registry.job.sessions)) }
        ensures publisher { IfOk result (λ made. made.1 ≡ new_publisher made.0.lock registry.job) }
        ensures sessions { IfOk result (λ made. EachSession
            (λ s v. v ≡ new_session made.0.lock registry.job s) made.2) }
    {
        let sessions = registry.job().sessions();
        let shadow = Snapshot::of(&registry);
        let mut items = Vec::with_capacity(alloc, sessions as usize)?;
        let (turns, seats) = Turns::make(alloc, registry, sessions + 1)?;
        let mut room = seats.into_items();
        // Seat 0 of the lock is the publisher's, and session s has seat s + 1.
        let seat = room.remove(0);
        deal(&turns, &mut room, &mut items, sessions, &shadow);
        let publisher = PublisherSeat {
            seat,
            published: 0,
            room,
        };
        Ok((
            StepTable { turns, sessions },
            publisher,
            SessionSeats { items },
        ))
    }

    /// Publishes the step after the newest one, of which these are all shares, and wakes those that wait for it.
    ///
    /// It hands out all shares of the former newest step, where no session has that step out. They are handed out when
    /// the turn is over, so that the caller gives a step's memory back while no lock is held.
    ///
    /// It may wait for its turn, and takes no memory.
    pub fn publish<R: Wait>(
        &self,
        rt: &R,
        seat: &mut PublisherSeat,
        shares: Shares,
    ) -> Option<Shares>
        requires table { seat.old.table ≡ self.now.lock }
        requires open { closed_of seat.old ≡ false }
        requires all { shares ≡ all_shares seat.old.job (published_of seat.old + 1) }
        ensures event { Adds seat.old.job 0 seat.old.seen seat.old.words
            (Publish (published_of seat.old + 1)) seat.new.seen }
        ensures seat { seat.new ≡ record seat.old { seen = seat.new.seen } }
        ensures published { published_of seat.new ≡ published_of seat.old + 1 }
        ensures open { closed_of seat.new ≡ false }
        ensures freed { option_to_list result ≡ map (all_shares seat.old.job)
            (freed_by (after seat.old.job (earlier seat.new.seen)) (Publish (published_of seat.old + 1))) }
    {
        let number = shares.step().number();
        let (mut registry, turn) = self.turns.take(rt, &mut seat.seat);
        let freed = registry.publish(shares);
        self.turns.give(&mut seat.seat, turn, registry);
        seat.published = number;
        self.turns.show(&mut seat.seat, 2 * u64::from(number));
        freed
    }

    /// Closes the plan: no further step will be published. It wakes those that wait.
    ///
    /// It may wait for its turn, and takes no memory.
    pub fn close_plan<R: Wait>(&self, rt: &R, seat: &mut PublisherSeat)
        requires table { seat.old.table ≡ self.now.lock }
        requires open { closed_of seat.old ≡ false }
        ensures event { Adds seat.old.job 0 seat.old.seen seat.old.words Close seat.new.seen }
        ensures seat { seat.new ≡ record seat.old { seen = seat.new.seen } }
        ensures published { published_of seat.new ≡ published_of seat.old }
        ensures closed { closed_of seat.new ≡ true }
    {
        let (mut registry, turn) = self.turns.take(rt, &mut seat.seat);
        registry.close();
        self.turns.give(&mut seat.seat, turn, registry);
        self.turns
            .show(&mut seat.seat, 2 * u64::from(seat.published) + 1);
    }

    /// A share of the newest step, for the session's next turn. The step is at least `known`, and so at least each step
    /// that this session pinned before; `known` is then this step.
    ///
    /// It may wait for its turn, and takes no memory.
    pub fn pin<R: Wait>(&self, rt: &R, seat: &mut SessionSeat) -> StepPin
        requires table { seat.old.table ≡ self.now.lock }
        requires none_out { (state_of seat.old).out ≡ None }
        requires goes { (state_of seat.old).is_stopped ≡ false }
        requires left { (state_of seat.old).done < length (turns_of seat.old.job seat.old.session) }
        requires need { (next_turn seat.old).need ≤ seat.old.known }
        ensures event { Adds seat.old.job (seat.old.session + 1) seat.old.seen seat.old.words
            (Pin seat.old.session result.step.number) seat.new.seen }
        ensures pin { result ≡ pin_of seat.old.job seat.old.session (after seat.old.job seat.new.seen).newest }
        ensures fresh { seat.old.known ≤ result.step.number }
        ensures seat { seat.new ≡ record seat.old { seen = seat.new.seen; known = result.step.number } }
        ensures state { state_of seat.new ≡ pinned result.step.number (state_of seat.old) }
    {
        let (mut registry, turn) = self.turns.take(rt, &mut seat.seat);
        let pin = registry.pin(seat.session);
        self.turns.give(&mut seat.seat, turn, registry);
        seat.known = pin.number();
        pin
    }

    /// Gives a share back, with the answers of the turn, or with none: then the session is stopped.
    ///
    /// It hands out all shares of the step, where a newer one is published and no session has this one out any more.
    /// They are handed out when the turn is over, so that the caller gives a step's memory back while no lock is held.
    ///
    /// It may wait for its turn, and takes no memory.
    pub fn unpin<R: Wait>(
        &self,
        rt: &R,
        seat: &mut SessionSeat,
        pin: StepPin,
        answers: Option<AnswerList>,
    ) -> Option<Shares>
        requires table { seat.old.table ≡ self.now.lock }
        requires job { pin.step.job ≡ seat.old.job }
        requires session { pin.session ≡ seat.old.session }
        requires out { (state_of seat.old).out ≡ Some pin.step.number }
        requires answers { IfSome answers (λ list.
            list ≡ turn_answers seat.old.job seat.old.session (state_of seat.old).done pin.step.number) }
        ensures event { Adds seat.old.job (seat.old.session + 1) seat.old.seen seat.old.words
            (Unpin seat.old.session pin.step.number (is_some answers)) seat.new.seen }
        ensures seat { seat.new ≡ record seat.old { seen = seat.new.seen } }
        ensures state { state_of seat.new ≡ unpinned (is_some answers) (state_of seat.old) }
        ensures freed { option_to_list result ≡ map (all_shares seat.old.job)
            (freed_by (after seat.old.job (earlier seat.new.seen))
            (Unpin seat.old.session pin.step.number (is_some answers))) }
    {
        let (mut registry, turn) = self.turns.take(rt, &mut seat.seat);
        let freed = registry.unpin(pin, answers);
        let done = registry.done(seat.session);
        self.turns.give(&mut seat.seat, turn, registry);
        seat.done = done;
        freed
    }

    /// Waits until step k is published, or the plan is closed below it. Where it answers `Ended`, the last word that it
    /// loaded says so.
    ///
    /// It takes no turn and no memory: it loads one word, and sleeps while that tells too little.
    pub fn wait_for<R: Wait>(&self, rt: &R, seat: &mut SessionSeat, k: u32) -> Reached
        requires table { seat.old.table ≡ self.now.lock }
        ensures told { Tells k result seat.old.words seat.new.words }
        ensures seat { seat.new ≡ record seat.old { words = seat.new.words; known = seat.new.known } }
        ensures known { seat.old.known ≤ seat.new.known }
        ensures reached { ReachedKnown result seat.new.known }
    {
        for _ in rt.forever() {
            match self.look(seat, k) {
                (_, Some(reached)) => return reached,
                (word, None) => self.turns.rest(rt, word),
            }
        }
        unreachable!()
    }

    // One look at the shown word: the word, and what it tells of step k.
    fn look(&self, seat: &mut SessionSeat, k: u32) -> (u64, Option<Reached>)
        requires table { seat.old.table ≡ self.now.lock }
        ensures word { seat.new.words ≡ result.0 ∷ seat.old.words }
        ensures seat { seat.new ≡ record seat.old { words = seat.new.words; known = seat.new.known } }
        ensures known { seat.old.known ≤ seat.new.known }
        ensures told { IfSome result.1 (λ r. Told k r result.0 × ReachedKnown r seat.new.known) }
    {
        let word = self.turns.peek(&mut seat.seat);
        match newest_in(word) {
            Some(newest) => {
                seat.known = seat.known.max(newest);
                (word, told_by(word, newest, k))
            }
            // A word that is too large for a step is never shown.
            None => (word, None),
        }
    }

    /// Ends the table, and gives its registry. It takes all its seats, the sessions' in the order of their numbers.
    ///
    /// The journal goes on from what each seat has seen, has no further event of any of them, and each word that one of
    /// them knows is true of it. So newest and closed are what the publisher's seat knows, and a session's state is
    /// what its seat knows.
    ///
    /// It never waits, and takes no memory.
    pub fn finish(self, publisher: PublisherSeat, sessions: SessionSeats) -> Registry
        requires count { (length sessions ≡ self.sessions) × (length publisher.job.sessions ≡ self.sessions) }
        requires publisher { publisher.table ≡ self.lock }
        requires sessions { EachSession (λ s v. (v.table ≡ self.lock) × (v.session ≡ s)) sessions }
        ensures job { result.job ≡ publisher.job }
        ensures jobs { EachSession (λ s v. v.job ≡ result.job) sessions }
        ensures legal { IsLegal result.job result.journal }
        ensures publisher { Follows 0 publisher.seen publisher.words result.journal }
        ensures sessions { EachSession (λ s v. Follows (s + 1) v.seen v.words result.journal) sessions }
        ensures front { ((after result.job result.journal).newest ≡ published_of publisher)
            × ((after result.job result.journal).closed ≡ closed_of publisher) }
        ensures states { EachSession (λ s v. session_of (after result.job result.journal) s ≡ state_of v) sessions }
    {
        let StepTable { turns, sessions: _ } = self;
        let PublisherSeat {
            seat,
            published: _,
            mut room,
        } = publisher;
        room.push_reserved(seat);
        gather(&mut room, sessions.into_items());
        turns.close(SeatList::<Registry>::of(room))
    }
}

// The step of a shown word, where it is small enough for one.
fn newest_in(word: u64) -> Option<u32>
    ensures { IfSome result (λ newest. newest ≡ word / 2) }
{
    match u32::try_from(word / 2) {
        Ok(newest) => Some(newest),
        Err(_) => None,
    }
}

// What a word tells of step k, if it tells anything yet.
fn told_by(word: u64, newest: u32, k: u32) -> Option<Reached>
    requires { newest ≡ word / 2 }
    ensures { IfSome result (λ r. Told k r word × ReachedKnown r newest) }
{
    if newest >= k {
        Some(Reached::At { newest })
    } else if word % 2 == 1 {
        Some(Reached::Ended { newest })
    } else {
        None
    }
}

// Makes the sessions' seats of the lock's seats after the first.
fn deal(
    turns: &Turns<Registry>,
    room: &mut Vec<TurnSeat<Registry>>,
    items: &mut Vec<SessionSeat>,
    sessions: u32,
    _registry: &Snapshot<Registry>,
)
    requires count { (length room.old.items ≡ sessions) × (length _registry.now.value.job.sessions ≡ sessions) }
    requires new { EachSeat (λ s seat. IsNew (table_of turns.now) _registry.now.value.job (s + 1) seat) room.old.items }
    requires items { (items.old.items ≡ []) × (sessions ≤ vec_capacity items.old) }
    ensures room { (room.new.items ≡ []) × (vec_capacity room.new ≡ vec_capacity room.old) }
    ensures count { length items.new.items ≡ sessions }
    ensures new { EachSession (λ s v. v ≡ new_session (table_of turns.now) _registry.now.value.job s) items.new.items }
{
    for session in 0..sessions {
        let seat = room.remove(0);
        items.push_reserved(SessionSeat {
            seat,
            session,
            known: 0,
            done: 0,
        });
    }
}

// Takes the sessions' seats apart, and puts those of the lock behind the publisher's.
fn gather(room: &mut Vec<TurnSeat<Registry>>, mut items: Vec<SessionSeat>)
    requires room { length room.old.items + length items.items ≤ vec_capacity room.old }
    ensures { (seats : List (KeptSeat RegistryView JobView Event)) × (room.new.items ≡ room.old.items ++ seats)
        × AreSeatsOf seats items.items }
{
    for _ in 0..items.len() {
        let SessionSeat {
            seat,
            session: _,
            known: _,
            done: _,
        } = items.remove(0);
        room.push_reserved(seat);
    }
}
