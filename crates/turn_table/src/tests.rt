// A list of entries under the lock, with seats in one thread and in several.
ghost use Rattle.std.specs.Prelude.{◌≡◌, ℕ, ◌<◌, ◌≤◌, ◌∷◌, ◌++◌, [], length, IfOk};
ghost use Rattle.std.proofs.Common.{arith, length-append};
ghost use Rattle.turn_table.specs.Seats.{table_of, standing, IsBack, EachSeat};
ghost use Rattle.turn_table.specs.Views.{own_of};
ghost use Rattle.turn_table.specs.declared.tests.Entry.{Entry};

use crate::{Kept, SeatList, TurnSeat, Turns};
use std::alloc::{AllocError, Global};
use std::process::Abort;
use std::sync::Wait;
use std::test::Fail;
use std::thread::{Threads, for_each_mut, join, yield_now};

#[derive(Clone, Copy)]
struct Entry {
    maker: u64,
    number: u64,
}

// All histories of it fit. The word w says that there are at least w entries.
#[derive(Drop)]
struct Tally {
    entries: Vec<Entry>,
}

impl Kept for Tally {
    type Theme = ();

    type Entry = Entry;

    ghost theme = { λ _. tt };

    ghost history = { λ t. t.entries.items };

    ghost maker = { λ e. e.maker };

    ghost fits = { λ _ _. Unit {0} };

    ghost says = { λ h word. word ≤ length h };

    ghost says_nothing = { λ t h fit. Prim.omega arith };

    ghost says_longer = { λ t h more word fit true_of. Prim.omega (arith, length-append h more) };
}

impl Tally {
    fn add<R: Abort>(&mut self, rt: &R, maker: u64, number: u64)
        ensures { self.new.entries.items ≡ self.old.entries.items ++ record { maker = maker; number = number } ∷ [] }
    {
        self.entries.reserve(1).expect(rt, "memory");
        self.entries.push_reserved(Entry { maker, number });
    }
}

// One turn, and what it found: the last entry, and how many there were.
fn turn<R: Wait + Abort>(
    rt: &R,
    turns: &Turns<Tally>,
    seat: &mut TurnSeat<Tally>,
    maker: u64,
    number: u64,
) -> (Option<Entry>, usize)
    requires { IsBack (table_of turns.now) maker seat.old }
    ensures back { IsBack (table_of turns.now) maker seat.new }
    ensures seen { 1 ≤ length (standing seat.new).seen }
{
    let (mut tally, turn) = turns.take(rt, seat);
    let found = (tally.entries.last().copied(), tally.entries.len());
    tally.add(rt, maker, number);
    turns.give(seat, turn, tally);
    found
}

// A turn of the seat 1, and what the seat 0 peeks before and after the word 1 is shown.
fn show_one<R: Wait + Abort>(
    rt: &R,
    turns: &Turns<Tally>,
    first: &mut TurnSeat<Tally>,
    second: &mut TurnSeat<Tally>,
) -> (u64, u64)
    requires first { (standing first.old).table ≡ table_of turns.now }
    requires second { IsBack (table_of turns.now) 1 second.old }
{
    let before = turns.peek(first);
    turn(rt, turns, second, 1, 7);
    turns.show(second, 1);
    (before, turns.peek(first))
}

#[test]
fn a_turn_and_a_word_are_handed_on(rt: HostRuntime) -> Result<(), Fail> {
    let entries = Vec::new(rt.alloc());
    let (turns, mut seats) = Turns::make(rt.alloc(), Tally { entries }, 3)?;
    assert!(rt; seats.items()[1].number() == 1);
    let (left, right) = seats.items_mut().split_at_mut(1);
    let (before, after) = show_one(&rt, &turns, &mut left[0], &mut right[0]);
    let (last, count) = turn(&rt, &turns, &mut right[1], 2, 8);
    assert!(rt; before == 0 && after == 1 && count == 1);
    assert!(rt; last.is_some_and(|e| e.maker == 1 && e.number == 7));
    Ok(())
}

// Turns of one seat.
fn many<R: Wait + Abort>(
    rt: &R,
    turns: &Turns<Tally>,
    seat: &mut TurnSeat<Tally>,
    maker: u64,
    count: u64,
)
    requires { IsBack (table_of turns.now) maker seat.old }
    ensures { IsBack (table_of turns.now) maker seat.new }
{
    for number in 0..count {
        turn(rt, turns, seat, maker, number);
    }
}

// Turns of each seat, in threads of their own.
fn all_turn<R: Threads + Wait + Abort + Sync>(
    rt: &R,
    turns: &Turns<Tally>,
    seats: &mut [TurnSeat<Tally>],
    count: u64,
)
    requires { EachSeat (IsBack (table_of turns.now)) seats.old }
    ensures { EachSeat (IsBack (table_of turns.now)) seats.new }
{
    for_each_mut(
        rt,
        seats,
        2,
        &|i, seat: &mut TurnSeat<Tally>| { many(rt, turns, seat, i as u64, count) },
    );
}

// Each seat makes `count` turns.
fn play<R: Threads + Wait + Abort + Sync>(
    rt: &R,
    alloc: Global,
    seats: u32,
    count: u64,
) -> Result<Tally, AllocError>
    requires { 0 < seats }
    ensures { IfOk result (λ t. (k : ℕ) → seats ≤ k → own_of (λ (e : Entry). e.maker) k t.entries.items ≡ []) }
{
    let entries = Vec::new(alloc);
    let (turns, mut seats) = Turns::make(alloc, Tally { entries }, seats)?;
    all_turn(rt, &turns, seats.items_mut(), count);
    Ok(turns.close(seats))
}

#[test]
fn two_threads_make_all_their_turns(rt: HostRuntime) -> Result<(), Fail> {
    let tally = play(&rt, rt.alloc(), 2, 1000)?;
    for maker in 0..2 {
        let own = tally.entries.iter().filter(|e| e.maker == maker);
        assert!(rt; own.enumerate().all(|(i, e)| e.number == i as u64));
    }
    let first = tally.entries.iter().filter(|e| e.maker == 0).count();
    assert!(rt; tally.entries.len() == 2000 && first == 1000);
    Ok(())
}

// Holds a second turn while the word 1 is shown, and for some time.
fn hold<R: Wait + Abort>(rt: &R, turns: &Turns<Tally>, mut seat: TurnSeat<Tally>) -> TurnSeat<Tally>
    requires { IsBack (table_of turns.now) 0 seat }
    ensures { IsBack (table_of turns.now) 0 result }
{
    turn(rt, turns, &mut seat, 0, 0);
    let (mut tally, turn) = turns.take(rt, &mut seat);
    turns.show(&mut seat, 1);
    for _ in 0..2000 {
        yield_now();
    }
    tally.add(rt, 0, 1);
    turns.give(&mut seat, turn, tally);
    seat
}

// Rests until a word is shown, and takes a turn then. What it found.
fn follow<R: Wait + Abort>(
    rt: &R,
    turns: &Turns<Tally>,
    mut seat: TurnSeat<Tally>,
) -> (TurnSeat<Tally>, usize)
    requires { IsBack (table_of turns.now) 1 seat }
    ensures { IsBack (table_of turns.now) 1 result.0 }
{
    for _ in rt.forever() {
        let word = turns.peek(&mut seat);
        if word == 1 {
            break;
        }
        turns.rest(rt, word);
    }
    let (_, count) = turn(rt, turns, &mut seat, 1, 0);
    (seat, count)
}

// How many entries the seat 1 finds in the turn for which it waits.
fn hold_and_follow<R: Threads + Wait + Abort + Sync>(
    rt: &R,
    turns: &Turns<Tally>,
    first: TurnSeat<Tally>,
    second: TurnSeat<Tally>,
) -> (TurnSeat<Tally>, TurnSeat<Tally>, usize)
    requires first { IsBack (table_of turns.now) 0 first }
    requires second { IsBack (table_of turns.now) 1 second }
    ensures first { IsBack (table_of turns.now) 0 result.0 }
    ensures second { IsBack (table_of turns.now) 1 result.1 }
{
    let (first, (second, count)) = join(
        rt,
        || -> TurnSeat<Tally>
            requires { IsBack (table_of turns.now) 0 first }
            ensures { IsBack (table_of turns.entry.now) 0 result }
        { hold(rt, turns, first) },
        || -> (TurnSeat<Tally>, usize)
            requires { IsBack (table_of turns.now) 1 second }
            ensures { IsBack (table_of turns.entry.now) 1 result.0 }
        { follow(rt, turns, second) },
    );
    (first, second, count)
}

#[test]
fn waiting_and_resting_end(rt: HostRuntime) -> Result<(), Fail> {
    let entries = Vec::new(rt.alloc());
    let (turns, seats) = Turns::make(rt.alloc(), Tally { entries }, 2)?;
    let mut items = seats.into_items();
    let second = items.remove(1);
    let first = items.remove(0);
    let (first, second, count) = hold_and_follow(&rt, &turns, first, second);
    items.push(first)?;
    items.push(second)?;
    let tally = turns.close(SeatList::<Tally>::of(items));
    assert!(rt; count == 2 && tally.entries.len() == 3);
    Ok(())
}
