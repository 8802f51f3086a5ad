//! Rows of shares at home: where a step stands, and a share that comes back.
ghost use Rattle.std.specs.Prelude.{◌≡◌, ◌≢◌, ℕ, ◌+◌, ◌<◌, ◌≤◌, List, [], ◌∷◌, ◌++◌, length, slice_index_or, slice_set, Option, Some, None, vec_capacity, vec_len};
ghost use Rattle.std.specs.List.{remove};
ghost use Rattle.step_view.specs.StepView.{StepView, step_of};
ghost use Rattle.step_view.specs.Rows.{SharesView};
ghost use Rattle.step_registry.specs.Rows.{number_at, row_back, IsBackAt, numbers};

use arrayvec::ArrayVec;
use step_view::{Shares, Step};

// Where the row of this step stands.
pub fn place_of(rows: &[Shares], number: u32) -> usize
    requires there { (i : ℕ) × (i < length rows.now) × (number_at rows.now i ≡ number) }
    ensures within { result < length rows.now }
    ensures here { number_at rows.now result ≡ number }
{
    for i in 0..rows.len() {
        if rows[i].step().number() == number {
            return i;
        }
    }
    unreachable!()
}

// Puts a share into the row at `place`, and hands the row out where it then has all shares.
pub fn put_back(rows: &mut Vec<Shares>, place: usize, share: Step, all: u32) -> Option<Shares>
    requires within { place < length rows.old.items }
    requires same { (row_back rows.old.items place).step ≡ share }
    requires room { (row_back rows.old.items place).count < all }
    requires few { all ≤ 9 }
    ensures full { (row_back rows.old.items place).count + 1 ≡ all
        → (rows.new.items ≡ remove rows.old.items place) × (result ≡ Some (record { step = share; count = all })) }
    ensures partly { (row_back rows.old.items place).count + 1 < all
        → (rows.new.items ≡ slice_set rows.old.items place
        (record { step = share; count = (row_back rows.old.items place).count + 1 })) × (result ≡ None) }
    ensures capacity { vec_capacity rows.new ≡ vec_capacity rows.old }
{
    let row = &mut rows[place];
    row.put(share);
    if row.count() == all {
        Some(rows.remove(place))
    } else {
        None
    }
}

// Keeps the row of the former newest step, or hands it out where it has all shares.
pub fn keep_former(rows: &mut Vec<Shares>, former: Shares, all: u32) -> Option<Shares>
    requires room { length rows.old.items < vec_capacity rows.old }
    ensures full { former.count ≡ all → (rows.new.items ≡ rows.old.items) × (result ≡ Some former) }
    ensures partly { former.count < all → (rows.new.items ≡ rows.old.items ++ former ∷ []) × (result ≡ None) }
    ensures capacity { vec_capacity rows.new ≡ vec_capacity rows.old }
{
    if former.count() == all {
        Some(former)
    } else {
        rows.push_reserved(former);
        None
    }
}

// Puts a share back, to the newest step's row or to an older one, and hands an older row out where it then has all
// shares.
pub fn give_back(
    latest: &mut Shares,
    rows: &mut Vec<Shares>,
    share: Step,
    newest: u32,
    all: u32,
) -> Option<Shares>
    requires few { all ≤ 9 }
    requires latest { share.number ≡ newest → (share ≡ latest.old.step) × (latest.old.count < all) }
    requires there { share.number ≢ newest → (i : ℕ) × (i < length rows.old.items)
        × (number_at rows.old.items i ≡ share.number) }
    requires row { share.number ≢ newest → (i : ℕ) → i < length rows.old.items
        → number_at rows.old.items i ≡ share.number
        → ((row_back rows.old.items i).step ≡ share) × ((row_back rows.old.items i).count < all) }
    ensures newest { share.number ≡ newest → (latest.new.step ≡ latest.old.step)
        × (latest.new.count ≡ latest.old.count + 1) × (rows.new.items ≡ rows.old.items) × (result ≡ None) }
    ensures older { share.number ≢ newest → (latest.new ≡ latest.old)
        × ((place : ℕ) × IsBackAt rows.old.items rows.new.items share all result place) }
    ensures capacity { vec_capacity rows.new ≡ vec_capacity rows.old }
{
    let number = share.number();
    if number == newest {
        latest.put(share);
        None
    } else {
        let place = place_of(rows.as_slice(), number);
        put_back(rows, place, share, all)
    }
}

// The numbers of the rows, and newest behind them.
pub fn held_numbers(rows: &[Shares], newest: u32) -> ArrayVec<u32, 9>
    requires { length rows.now ≤ 8 }
    ensures { result.items ≡ numbers rows.now ++ newest ∷ [] }
{
    let mut held = ArrayVec::new();
    for row in rows {
        held.push(row.step().number());
    }
    held.push(newest);
    held
}
