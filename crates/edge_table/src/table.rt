//! The rows of all points.
ghost use Rattle.std.specs.Prelude.{◌≡◌, ◌≢◌, ℕ, ◌+◌, ◌<◌, ◌≤◌, vec_len, vec_capacity, OnOk, if◌then◌else◌, nat_eq};
ghost use Rattle.mesh_base.specs.Edit.{quarters};
ghost use Rattle.mesh_base.specs.Mesh.{IsWithin};
ghost use Rattle.edge_table.specs.Pairs.{pair_count, pair_share, cell_pairs};
ghost use Rattle.edge_table.specs.Rows.{shown, AreRows, HasRoomAt, HaveRoom};

use crate::row::{Row, add_three, drop_three, reserve_more, split_three};
use mesh_base::{Cell, MOST_CELLS, NoMemory};

// Makes room for so many more neighbours of v.
fn reserve_at(rows: &mut Vec<Row>, v: u32, more: usize) -> Result<(), NoMemory>
    requires within { v < vec_len rows.old }
    ensures shown { shown rows.new.items ≡ shown rows.old.items }
    ensures len { vec_len rows.new ≡ vec_len rows.old }
    ensures room { OnOk result (HasRoomAt more rows.new.items v) }
    ensures keeps { (u : ℕ) → HasRoomAt more rows.old.items u → HasRoomAt more rows.new.items u }
{
    reserve_more(&mut rows[v as usize], more)
}

/// Makes room for so many more neighbours of each corner. What the rows show stays the same.
pub fn reserve_pairs(rows: &mut Vec<Row>, cell: &Cell, more: usize) -> Result<(), NoMemory>
    requires within { IsWithin (vec_len rows.old) cell.now }
    ensures shown { shown rows.new.items ≡ shown rows.old.items }
    ensures len { vec_len rows.new ≡ vec_len rows.old }
    ensures room { OnOk result (HaveRoom more rows.new.items cell.now) }
{
    let [a, b, c, d] = cell.corners();
    reserve_at(rows, a, more)?;
    reserve_at(rows, b, more)?;
    reserve_at(rows, c, more)?;
    reserve_at(rows, d, more)
}

// One cell more has x, y and z beside v.
fn add_at(rows: &mut Vec<Row>, v: u32, x: u32, y: u32, z: u32)
    requires within { v < vec_len rows.old }
    requires rows { AreRows (shown rows.old.items) }
    requires room { HasRoomAt 3 rows.old.items v }
    requires fits { (u : ℕ) → pair_count (shown rows.old.items) v u < MOST_CELLS }
    ensures rows { AreRows (shown rows.new.items) }
    ensures len { vec_len rows.new ≡ vec_len rows.old }
    ensures here { (u : ℕ) → pair_count (shown rows.new.items) v u
        ≡ pair_count (shown rows.old.items) v u
        + (if nat_eq x u then 1 else 0) + (if nat_eq y u then 1 else 0) + (if nat_eq z u then 1 else 0) }
    ensures others { (w u : ℕ) → w ≢ v
        → pair_count (shown rows.new.items) w u ≡ pair_count (shown rows.old.items) w u }
    ensures keeps { (w : ℕ) → w ≢ v → HasRoomAt 3 rows.old.items w → HasRoomAt 3 rows.new.items w }
{
    add_three(&mut rows[v as usize], x, y, z);
}

// One cell less has x, y and z beside v.
fn drop_at(rows: &mut Vec<Row>, v: u32, x: u32, y: u32, z: u32)
    requires within { v < vec_len rows.old }
    requires rows { AreRows (shown rows.old.items) }
    requires there { (u : ℕ) → (if nat_eq x u then 1 else 0) + (if nat_eq y u then 1 else 0)
        + (if nat_eq z u then 1 else 0)
        ≤ pair_count (shown rows.old.items) v u }
    ensures rows { AreRows (shown rows.new.items) }
    ensures len { vec_len rows.new ≡ vec_len rows.old }
    ensures here { (u : ℕ) → pair_count (shown rows.new.items) v u
        + (if nat_eq x u then 1 else 0) + (if nat_eq y u then 1 else 0) + (if nat_eq z u then 1 else 0)
        ≡ pair_count (shown rows.old.items) v u }
    ensures others { (w u : ℕ) → w ≢ v
        → pair_count (shown rows.new.items) w u ≡ pair_count (shown rows.old.items) w u }
{
    drop_three(&mut rows[v as usize], x, y, z);
}

/// One cell more has the pairs of its corners.
pub fn put_pairs(rows: &mut Vec<Row>, cell: &Cell)
    requires within { IsWithin (vec_len rows.old) cell.now }
    requires rows { AreRows (shown rows.old.items) }
    requires room { HaveRoom 3 rows.old.items cell.now }
    requires fits { (v u : ℕ) → pair_count (shown rows.old.items) v u < MOST_CELLS }
    ensures rows { AreRows (shown rows.new.items) }
    ensures len { vec_len rows.new ≡ vec_len rows.old }
    ensures pairs { (v u : ℕ) → pair_count (shown rows.new.items) v u
        ≡ pair_count (shown rows.old.items) v u + pair_share cell.now v u }
{
    let [a, b, c, d] = cell.corners();
    add_at(rows, a, b, c, d);
    add_at(rows, b, a, c, d);
    add_at(rows, c, a, b, d);
    add_at(rows, d, a, b, c);
}

/// One cell less has them.
pub fn take_pairs(rows: &mut Vec<Row>, cell: &Cell)
    requires rows { AreRows (shown rows.old.items) }
    requires there { (v u : ℕ) → pair_share cell.now v u ≤ pair_count (shown rows.old.items) v u }
    ensures rows { AreRows (shown rows.new.items) }
    ensures len { vec_len rows.new ≡ vec_len rows.old }
    ensures pairs { (v u : ℕ) → pair_count (shown rows.new.items) v u + pair_share cell.now v u
        ≡ pair_count (shown rows.old.items) v u }
{
    let [a, b, c, d] = cell.corners();
    drop_at(rows, a, b, c, d);
    drop_at(rows, b, a, c, d);
    drop_at(rows, c, a, b, d);
    drop_at(rows, d, a, b, c);
}

// The cell of v, x, y and z is split round w, which is greater than each neighbour of v.
fn split_at(rows: &mut Vec<Row>, v: u32, x: u32, y: u32, z: u32, w: u32)
    requires within { v < vec_len rows.old }
    requires rows { AreRows (shown rows.old.items) }
    requires there { (u : ℕ) → (if nat_eq x u then 1 else 0) + (if nat_eq y u then 1 else 0)
        + (if nat_eq z u then 1 else 0)
        ≤ pair_count (shown rows.old.items) v u }
    requires last { (u : ℕ) → 0 < pair_count (shown rows.old.items) v u → u < w }
    requires room { HasRoomAt 1 rows.old.items v }
    requires fits { (u : ℕ) → pair_count (shown rows.old.items) v u < MOST_CELLS }
    ensures rows { AreRows (shown rows.new.items) }
    ensures len { vec_len rows.new ≡ vec_len rows.old }
    ensures capacity { vec_capacity rows.new ≡ vec_capacity rows.old }
    ensures here { (u : ℕ) → pair_count (shown rows.new.items) v u
        ≡ pair_count (shown rows.old.items) v u
        + (if nat_eq x u then 1 else 0) + (if nat_eq y u then 1 else 0) + (if nat_eq z u then 1 else 0)
        + (if nat_eq w u then 3 else 0) }
    ensures others { (t u : ℕ) → t ≢ v
        → pair_count (shown rows.new.items) t u ≡ pair_count (shown rows.old.items) t u }
    ensures keeps { (t : ℕ) → t ≢ v → HasRoomAt 1 rows.old.items t → HasRoomAt 1 rows.new.items t }
{
    split_three(&mut rows[v as usize], x, y, z, w);
}

/// The cell is split round a point, the next, whose own row is still to come.
pub fn split_pairs(rows: &mut Vec<Row>, point: u32, cell: &Cell)
    requires next { point ≡ vec_len rows.old }
    requires rows { AreRows (shown rows.old.items) }
    requires there { (v u : ℕ) → pair_share cell.now v u ≤ pair_count (shown rows.old.items) v u }
    requires last { (v u : ℕ) → 0 < pair_count (shown rows.old.items) v u → u < point }
    requires room { HaveRoom 1 rows.old.items cell.now }
    requires fits { (v u : ℕ) → pair_count (shown rows.old.items) v u < MOST_CELLS }
    ensures rows { AreRows (shown rows.new.items) }
    ensures len { vec_len rows.new ≡ vec_len rows.old }
    ensures capacity { vec_capacity rows.new ≡ vec_capacity rows.old }
    ensures pairs { (v u : ℕ) → v ≢ point → pair_count (shown rows.new.items) v u + pair_share cell.now v u
        ≡ pair_count (shown rows.old.items) v u + cell_pairs (quarters point cell.now) v u }
{
    let [a, b, c, d] = cell.corners();
    split_at(rows, a, b, c, d, point);
    split_at(rows, b, a, c, d, point);
    split_at(rows, c, a, b, d, point);
    split_at(rows, d, a, b, c, point);
}
