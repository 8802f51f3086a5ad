// The lock.
ghost use Rattle.std.specs.Prelude.{◌≡◌, ℕ, ◌+◌, ◌<◌, ◌≤◌, true, false, [], ◌∷◌, ◌++◌, Some, None, IfOk, is_some, length, map, vec_capacity};
ghost use Rattle.turn_table.specs.Views.{Finds, own_of, noted, staged, passed, dealt, fresh, newcomer, is_served, slots_of, first_of_pair};
ghost use Rattle.turn_table.specs.Plays.{HasAll, Settles};
ghost use Rattle.turn_table.specs.Shows.{IsLatest};
ghost use Rattle.turn_table.specs.declared.view.Stage.TheVariants.{Idle, Waiting, Served};

use crate::kept::Kept;
use crate::plays::{Deal, Draw, Gather, InOrder, Look, Opening, Pass, Peek, Show};
use crate::seats::{KeptSeat, KeptSeats, LockSeat, SeatList, Turn, TurnSeat, seated};
use crate::view::ViewOf;
use atomic_table::{Refused, Table};
use crossbeam_utils::Backoff;
use std::alloc::{AllocError, Global};
use std::snapshot::Snapshot;
use std::sync::Wait;

/// There was no memory.
pub type NoMemory = AllocError;

type LockTable<T> = Table<Option<T>, ViewOf<T>, Opening<T>, InOrder, Global>;

// The words of the table.
const TICKET: usize = 0;

const SERVING: usize = 1;

const SHOWN: usize = 2;

/// A value that goes from one seat to the next, in the order of the tickets that the seats drew.
#[derive(Drop)]
pub struct Turns<T: Kept> {
    table: LockTable<T>,
    /// How many seats it has.
    pub seats: u32,
    ghost sized: { (table.shared.table_id.words ≡ 3) × (table.shared.table_id.slots ≡ 1) },
    ghost counted: { table.shared.key.seats ≡ seats },
    ghost some_seat: { 0 < seats },
}

impl<T: Kept> Turns<T> {
    ghost use Rattle.turn_table.specs.Seats.{standing, is_out, table_of, IsNew, EachSeat, IsBack, GoesOn};

    /// A lock of this value, and its seats, numbered from 0. Their theme is the value's. After `NoMemory` the value is
    /// gone. It takes the memory of all later calls: a few words and a place for each seat.
    pub fn make(alloc: Global, value: T, seats: u32) -> Result<(Turns<T>, SeatList<T>), NoMemory>
        requires seats { 0 < seats }
        requires empty { T.history value ≡ [] }
        requires allowed { T.fits (T.theme value) (T.history value) }
        ensures count { IfOk result (λ made. (made.0.seats ≡ seats) × (length made.1 ≡ seats)) }
        ensures new { IfOk result (λ made. EachSeat (IsNew (table_of made.0) (T.theme value)) made.1) }
    {
        let mut slots = Vec::with_capacity(alloc, 1)?;
        let mut items = Vec::with_capacity(alloc, seats as usize)?;
        let shadow = Snapshot::of(&value);
        let about = Opening {
            value: Snapshot::of(&value),
            seats,
        };
        slots.push_reserved(Some(value));
        match Table::new(alloc, &[0, 0, 0], slots, &about) {
            Ok((table, first)) => {
                Turns::deal_all(&table, first, &mut items, seats, &shadow);
                Ok((Turns { table, seats }, KeptSeats { items }))
            }
            Err(Refused { slots: _ }) => Err(AllocError),
        }
    }

    /// Draws a ticket, waits until it is served, and takes the value.
    ///
    /// The call may wait. Once 2^64 - 1 tickets were drawn it waits for good. Alone at the lock it takes a load, a
    /// compare and exchange and another load, and no memory.
    pub fn take<R: Wait>(&self, rt: &R, seat: &mut TurnSeat<T>) -> (T, Turn)
        requires table { (standing seat.old).table ≡ table_of self.now }
        requires rests { is_out seat.old ≡ false }
        ensures out { standing seat.new ≡ record (standing seat.old) {
          out = Some result.1;
          taken = T.history result.0;
        } }
        ensures fits { T.fits (T.theme result.0) (T.history result.0) }
        ensures value { GoesOn T.Kept (standing seat.old) result.0 }
    {
        let ticket = self.draw(rt, &mut seat.seat);
        let value = self.wait_turn(rt, &mut seat.seat, ticket);
        (value, Turn { ticket })
    }

    /// Puts the value back with one entry more, ends the turn and wakes those that wait for theirs.
    ///
    /// It never waits and takes no memory: one atomic addition, and a wake for each seat.
    pub fn give(&self, seat: &mut TurnSeat<T>, turn: Turn, value: T)
        requires table { (standing seat.old).table ≡ table_of self.now }
        requires turn { (standing seat.old).out ≡ Some turn }
        requires theme { T.theme value ≡ (standing seat.old).theme }
        requires entry { (e : T.Entry) × (T.history value ≡ (standing seat.old).taken ++ e ∷ [])
            × (T.maker e ≡ (standing seat.old).number) }
        requires allowed { T.fits (T.theme value) (T.history value) }
        ensures { standing seat.new ≡ record (standing seat.old) { seen = T.history value; out = None; taken = [] } }
    {
        let Turn { ticket: _ } = turn;
        self.pass(&mut seat.seat, value);
        self.wake(SERVING);
    }

    /// Stores a word that is true of what the seat has seen, and wakes those that rest.
    ///
    /// It never waits and takes no memory: one atomic store, and a wake for each seat.
    pub fn show(&self, seat: &mut TurnSeat<T>, word: u64)
        requires table { (standing seat.old).table ≡ table_of self.now }
        requires word { T.says (standing seat.old).seen word }
        ensures { standing seat.new ≡ record (standing seat.old) { shown = word ∷ (standing seat.old).shown } }
    {
        self.table.shared.store::<Show>(&mut seat.seat, SHOWN, word);
        self.wake(SHOWN);
    }

    /// The word that was shown last, by any seat, and 0 before any was. The seat knows it from now on.
    ///
    /// It never waits and takes no memory: one atomic load.
    pub fn peek(&self, seat: &mut TurnSeat<T>) -> u64
        requires table { (standing seat.old).table ≡ table_of self.now }
        ensures seat { standing seat.new ≡ record (standing seat.old) { known = result ∷ (standing seat.old).known } }
        ensures latest { IsLatest (standing seat.old).number (standing seat.old).shown result }
    {
        self.table.shared.load::<Peek>(&mut seat.seat, SHOWN)
    }

    /// Waits while the shown word is this one, by its low 32 bits. It may return at any time, and promises nothing.
    ///
    /// It needs no seat and takes no memory. `show` wakes as many threads as there are seats.
    pub fn rest<R: Wait>(&self, rt: &R, word: u64) {
        self.table
            .shared
            .park(rt, SHOWN, (word & 0xffff_ffff) as u32);
    }

    /// Ends the lock, and gives its value. It takes all its seats, in their order. One load a seat, and no memory.
    pub fn close(self, seats: SeatList<T>) -> T
        requires all { length seats ≡ self.seats }
        requires back { EachSeat (IsBack (table_of self)) seats }
        ensures fits { T.fits (T.theme result) (T.history result) }
        ensures seats { EachSeat (λ n seat. GoesOn T.Kept (standing seat) result) seats }
        ensures others { (n : ℕ) → self.seats ≤ n → own_of T.maker n (T.history result) ≡ [] }
    {
        self.close_all(seats.into_items())
    }

    // The seat that gives out numbers.
    fn deal(table: &LockTable<T>, first: &mut LockSeat<T>, number: u32) -> TurnSeat<T>
        requires table { (first.old.table_id ≡ table.now.shared.table_id) × (table.now.shared.table_id.words ≡ 3) }
        requires first { (is_some first.old.me.0.theme ≡ true) × (first.old.me.0.number ≡ 0)
            × (first.old.me.0.given ≡ number) × (number < table.now.shared.key.seats) }
        ensures first { (first.new.table_id ≡ first.old.table_id)
            × (first.new.me ≡ (dealt first.old.me.0, first.old.me.1)) }
        ensures new { (result.seat.table_id ≡ first.old.table_id) × (result.seat.me ≡ (newcomer first.old.me.0, [])) }
    {
        seated(table.shared.split_seat::<Deal>(first), number)
    }

    fn deal_all(
        table: &LockTable<T>,
        mut first: LockSeat<T>,
        items: &mut Vec<TurnSeat<T>>,
        seats: u32,
        _value: &Snapshot<T>,
    )
        requires table { (first.table_id ≡ table.now.shared.table_id) × (table.now.shared.table_id.words ≡ 3)
            × (table.now.shared.key.seats ≡ seats) × (0 < seats) }
        requires first { first.me ≡ (fresh (Some (T.theme _value.now.value)) 0 1, []) }
        requires room { (items.old.items ≡ []) × (seats ≤ vec_capacity items.old) }
        ensures { (length items.new.items ≡ seats)
            × EachSeat (IsNew table.now.shared.table_id (T.theme _value.now.value)) items.new.items }
    {
        for number in 1..seats {
            let seat = Turns::deal(table, &mut first, number);
            items.push_reserved(seat);
        }
        let _ = items.insert(0, seated(first, 0));
    }

    // Draws a ticket. Once 2^64 - 1 were drawn it waits for good.
    fn draw<R: Wait>(&self, rt: &R, seat: &mut LockSeat<T>) -> u64
        requires table { seat.old.table_id ≡ self.now.table.shared.table_id }
        requires idle { (is_some seat.old.me.0.theme ≡ true) × (seat.old.me.0.stage ≡ Idle) × (seat.old.me.1 ≡ []) }
        ensures { (seat.new.table_id ≡ seat.old.table_id)
            × (seat.new.me ≡ (staged seat.old.me.0 (Waiting result), [])) }
    {
        let shared = &self.table.shared;
        let backoff = Backoff::new();
        for _ in rt.forever() {
            let ticket = shared.peek(TICKET);
            if ticket == u64::MAX {
                shared.park(rt, TICKET, u32::MAX);
                continue;
            }
            if shared.compare_exchange::<Draw>(seat, TICKET, ticket, ticket + 1) == ticket {
                return ticket;
            }
            backoff.spin();
        }
        unreachable!()
    }

    // Waits until the ticket is served, and takes the value.
    fn wait_turn<R: Wait>(&self, rt: &R, seat: &mut LockSeat<T>, ticket: u64) -> T
        requires table { seat.old.table_id ≡ self.now.table.shared.table_id }
        requires waits { (is_some seat.old.me.0.theme ≡ true) × (seat.old.me.0.stage ≡ Waiting ticket)
            × (seat.old.me.1 ≡ []) }
        ensures seat { (seat.new.table_id ≡ seat.old.table_id)
            × (seat.new.me ≡ (staged seat.old.me.0 (Served ticket (T.history result)), (0, None) ∷ [])) }
        ensures value { Finds T.Kept seat.old.me.0 result }
    {
        let shared = &self.table.shared;
        for _ in rt.forever() {
            let serving = shared.load::<Look>(seat, SERVING);
            if serving == ticket {
                return shared.exchange(seat, 0, None).unwrap();
            }
            shared.park(rt, SERVING, (serving & 0xffff_ffff) as u32);
        }
        unreachable!()
    }

    // Puts the value back, and ends the turn.
    fn pass(&self, seat: &mut LockSeat<T>, value: T)
        requires table { seat.old.table_id ≡ self.now.table.shared.table_id }
        requires holds { (is_served seat.old.me.0.stage ≡ true) × (map first_of_pair seat.old.me.1 ≡ 0 ∷ [])
            × (seat.old.me.0.others ≡ []) }
        requires theme { seat.old.me.0.theme ≡ Some (T.theme value) }
        requires entry { (e : T.Entry) × (T.history value ≡ noted seat.old.me.0.stage ++ e ∷ [])
            × (T.maker e ≡ seat.old.me.0.number) }
        requires fits { T.fits (T.theme value) (T.history value) }
        ensures { (seat.new.table_id ≡ seat.old.table_id)
            × (seat.new.me ≡ (passed seat.old.me.0 (T.history value), [])) }
    {
        let shared = &self.table.shared;
        let _empty = shared.exchange(seat, 0, Some(value));
        shared.fetch_add::<Pass>(seat, SERVING, 1);
    }

    // Wakes as many threads as may wait on the word.
    fn wake(&self, word: usize)
        requires { word < 3 }
    {
        for _ in 0..self.seats {
            self.table.shared.wake_one(word);
        }
    }

    fn close_all(self, mut items: Vec<TurnSeat<T>>) -> T
        requires all { length items.items ≡ self.seats }
        requires back { EachSeat (IsBack self.table.shared.table_id) items.items }
        ensures fits { T.fits (T.theme result) (T.history result) }
        ensures seats { EachSeat (λ n seat. GoesOn T.Kept (standing seat) result) items.items }
        ensures others { (n : ℕ) → self.seats ≤ n → own_of T.maker n (T.history result) ≡ [] }
    {
        let KeptSeat {
            seat: mut first,
            number: _,
        } = items.remove(0);
        while let Some(KeptSeat { seat, number: _ }) = items.pop() {
            self.table.shared.join_seat::<Gather>(&mut first, seat);
        }
        self.open(first)
    }

    // The value of a lock that no thread shares any more, once its first seat has taken in the others.
    fn open(self, first: LockSeat<T>) -> T
        requires first { (first.table_id ≡ self.table.shared.table_id) × (is_some first.me.0.theme ≡ true)
            × (first.me.0.stage ≡ Idle) }
        requires all { HasAll self.seats first.me.0 }
        ensures { Settles T.Kept self.seats first.me.0 result }
    {
        let Turns { table, seats: _ } = self;
        let mut closed = table.close_with(first);
        let value = closed.take(0);
        closed.free();
        value.unwrap()
    }
}
