// "One record stands beside each cell, in a lent slice of structs": receive, take, drop, save and restore over such a slice, and the few
// functions that touch it; the other calls are offered here too. The cores of the five work on rows.
// (The calls are functions and no methods: a method stands in the crate of its struct, and a must-fail edit costs a check of its whole
// crate, so the calls have crates of their own. The queue, the records and the store are lent one by one, as other languages hold them
// apart.)

#![tactic(auto)]

ghost use Rattle.std.specs.Prelude.{◌≡◌, ◌<◌, ◌≤◌, ◌-◌, ◌⊎◌, Bool, false, length, map, drop};
ghost use Rattle.std.specs.Fn.{FnReturnsAt};
ghost use Rattle.base.specs.Limits.{max_cells};
ghost use Rattle.base.specs.Lists.{every};
ghost use Rattle.cells.specs.declared.CellRecord.{CellRecord};
ghost use Rattle.recv_prefix.specs.First.{is_unused};
ghost use Rattle.recv_prefix.specs.Needs.{last_used, take_needs};
ghost use Rattle.recv_queue.specs.Records.{Converted, record_left_by};

use rows::Row;

pub mod dropping;
pub mod receiving;
pub mod restoring;
pub mod saving;
pub mod taking;

pub use base::Refusal;
pub use cells::CellRecord;
pub use dropping::drop_unfinished;
pub use receiver::RecvQueue;
pub use receiving::receive;
pub use recv_acks::{write_missing, write_unsent};
pub use recv_body::body;
pub use recv_new::{make_new, new_queue, unused};
pub use recv_steps::Received;
pub use recv_take::{Body, Taken};
pub use reliability::Profile;
pub use restoring::restore;
pub use saving::save;
pub use taking::take;

// A call works on the records that it may need, and has rows for them from an array: of six sizes, the last for as many records as a
// receiver may have.
const FEW_CELLS: usize = 8;

const SOME_CELLS: usize = 16;

const SMALL_CELLS: usize = 32;

const MIDDLE_CELLS: usize = 256;

const MANY_CELLS: usize = 1024;

// ---- the records as rows, and back

// Each of `to` is made of the one at its place. (By the place: of `iter_mut().zip(..)` a proof learns nothing of the elements.)
#[tactic(auto, using(crate::proofs::Copied::copied_more, crate::proofs::Copied::copied_all))]
fn convert<A: Copy, B: Copy + From<A>>(from: &[A], to: &mut [B])
    requires { length to.old ≡ length from.now }
    ensures { Converted B.from_gives from.now to.new }
{
    for (i, x) in from.iter().enumerate() {
        to[i] = (*x).into();
    }
}

// ---- which are in use

// The records that pass become unused.
fn free_where<F: Fn(&CellRecord) -> bool>(records: &mut [CellRecord], test: F)
    requires { F.IsAlwaysCallable test }
    ensures { (p : CellRecord → Bool) → ((c : CellRecord) (b : Bool) → FnReturnsAt F.Fn test c b → b ≡ p c)
        → records.new ≡ map (record_left_by p) records.old }
{
    for r in records.iter_mut() {
        if test(r) {
            *r = recv_new::unused();
        }
    }
}

// Is none of them in use? All uses are looked at, without a branch for each: `all` takes longer.
fn all_unused(records: &[CellRecord]) -> bool
    ensures { result ≡ every is_unused records.now }
{
    records
        .iter()
        .fold(true, |all, r| all & (r.used == cells::UNUSED))
}

// The records up to the last N of which one is in use, or up to fewer than N: those after them are unused. (std's `any`, `rchunks` and
// `rposition` take two to six times as long.)
#[tactic(auto, using(crate::proofs::LastUsed::last_passed))]
fn up_to_used<const N: usize>(records: &[CellRecord]) -> &[CellRecord]
    requires some { 0 < N }
    requires few { N ≤ 8 }
    ensures same { last_used result.now ≡ last_used records.now }
    ensures end { (length result.now < N) ⊎ (every is_unused (drop (length result.now - N) result.now) ≡ false) }
{
    let mut left = records;
    while let Some((rest, last)) = left.split_last_chunk::<N>() {
        if !all_unused(last) {
            return left;
        }
        left = rest;
    }
    left
}

// How many records there are up to the last used one: those after it are unused. Eight at a time are passed over.
#[tactic(auto, using(crate::proofs::LastUsed::last_found))]
fn last_used(records: &[CellRecord]) -> usize
    ensures { result ≡ last_used records.now }
{
    up_to_used::<1>(up_to_used::<8>(records)).len()
}

// How many records a take or a drop works on: none where the lengths do not fit, which the cores, open functions, test and refuse by
// themselves.
#[tactic(auto, using(crate::proofs::Enough::enough_fit, crate::proofs::Enough::enough_none))]
fn needed(records: &[CellRecord], store: &[u8]) -> usize
    ensures { result ≡ take_needs (last_used records.now) (length records.now) (length store.now) }
{
    if sound_call::lengths_fit(records.len(), store.len()) {
        return last_used(records).max(1);
    }
    0
}

// ---- rows to work on

// (Of `Row::default()`, an array of 256 rows or more is written twice: as zeros, and row by row.)
const BLANK: Row = Row {
    cell: CellRecord {
        used: 0,
        kind: 0,
        channel: 0,
        id: 0,
        index: 0,
        count: 0,
        length: 0,
        sequence: 0,
        order: 0,
        turn: 0,
        age: 0,
    },
    place: 0,
};

// f on the first k of so many blank rows. (f is lent, here and below: of an `FnMut` or `FnOnce` by value, the proof of what it leaves of
// the caller's slices did not close. That it may be called on k rows each of the three has to ask: no type of a closure says it.)
fn on_blank_rows<const CELLS: usize, R, F: FnMut(&mut [Row]) -> R>(k: usize, f: &mut F) -> R
    requires size { CELLS ≤ max_cells }
    requires few { k ≤ CELLS }
    requires callable { (rows : _) → length rows.now ≡ k → F.pre f.old rows }
    ensures { (rows : _) × (left : _) × (length rows.now ≡ k) × F.step f.old rows result left f.new }
{
    let mut rows = [BLANK; CELLS];
    f(&mut rows[..k])
}

// The same, never inlined, so that a large array stays out of the frame of every call. What f holds and what it gives then go through
// memory, which takes a call 15 ns more: few rows lie in the caller's frame.
#[inline(never)]
fn on_many_rows<const CELLS: usize, R, F: FnMut(&mut [Row]) -> R>(k: usize, f: &mut F) -> R
    requires size { CELLS ≤ max_cells }
    requires few { k ≤ CELLS }
    requires callable { (rows : _) → length rows.now ≡ k → F.pre f.old rows }
    ensures { (rows : _) × (left : _) × (length rows.now ≡ k) × F.step f.old rows result left f.new }
{
    on_blank_rows::<CELLS, R, F>(k, f)
}

// f on rows for k records.
fn with_rows<R, F: FnMut(&mut [Row]) -> R>(k: usize, f: &mut F) -> R
    requires few { k ≤ max_cells }
    requires callable { (rows : _) → length rows.now ≡ k → F.pre f.old rows }
    ensures { (rows : _) × (left : _) × (length rows.now ≡ k) × F.step f.old rows result left f.new }
{
    match k {
        ..=FEW_CELLS => on_blank_rows::<FEW_CELLS, R, F>(k, f),
        ..=SOME_CELLS => on_blank_rows::<SOME_CELLS, R, F>(k, f),
        ..=SMALL_CELLS => on_blank_rows::<SMALL_CELLS, R, F>(k, f),
        ..=MIDDLE_CELLS => on_many_rows::<MIDDLE_CELLS, R, F>(k, f),
        ..=MANY_CELLS => on_many_rows::<MANY_CELLS, R, F>(k, f),
        _ => on_many_rows::<{ base::MAX_CELLS }, R, F>(k, f),
    }
}
