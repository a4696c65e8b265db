// The cells' records are sound where their entries, sorted, pass these tests; else the test by pairs decides. So pairs are compared only of
// records that are not sound, and the call is then refused.
ghost use Rattle.std.specs.Prelude.{◌≡◌, true, ℕ, ◌<◌, ◌≤◌, length, get_or};
ghost use Rattle.base.specs.Limits.{max_cells};
ghost use Rattle.base.specs.Lists.{below};
ghost use Rattle.cells.specs.Sound.{sound_cells};
ghost use Rattle.rows.specs.Rows.{cells_in};
ghost use Rattle.receiver.specs.Queue.{next_in};
ghost use Rattle.sound_cells.specs.Sorted.{place_of, is_own, is_led, is_placed_entry, counted, tallied, due_cell, is_due, all_rise};

use super::{Place, key, prepare, row_number, upper, upper_part};
use crate::{FEW, MANY, SOME, by_pairs, is_due, is_mate, is_within, key_part};
use cells::CellRecord;
use receiver::Channel;
use row_tests::is_like;
use rows::Row;

mod tiers;

pub use tiers::{are_sound, sound_cells};

// How long lists for so many rows are: the first entry is no row's.
const FEW_ENTRIES: usize = FEW + 1;

const SOME_ENTRIES: usize = SOME + 1;

const MANY_ENTRIES: usize = MANY + 1;

const MOST_ENTRIES: usize = base::MAX_CELLS + 1;

// Is the entry at place p that of row i? (Lists are read with 0, or zeros, past their end, here and below, as the definitions read them.)
#[tactic(auto, unfolding(crate::specs::Sorted::is_own))]
fn is_own(entries: &[u64], p: usize, i: usize, c: &CellRecord) -> bool
    ensures { result ≡ is_own entries.now p i c.now }
{
    let own = entries.get(p).copied().unwrap_or(0);
    let part = upper_part(c);
    (p < entries.len()) & ((upper(own) == part) & (row_number(own) == i))
}

// Do the entries of the cell's message begin after place q, with one of a cell that is like it?
#[tactic(auto, unfolding(crate::specs::Sorted::is_led, crate::specs::Sorted::cell_at))]
fn is_led(rows: &[Row], entries: &[u64], q: usize, c: &CellRecord) -> bool
    ensures { result ≡ is_led rows.now entries.now q c.now }
{
    if q < entries.len().saturating_sub(1) {
        let before = key(entries.get(q).copied().unwrap_or(0));
        let first = entries.get(q + 1).copied().unwrap_or(0);
        let part = key_part(c);
        let d = rows::whole_row(rows, row_number(first)).cell;
        let mate = is_mate(c, &d);
        let like = is_like(c, &d);
        return (before != key(first)) & ((key(first) == part) & (mate & like));
    }
    false
}

// Does row i pass, with the places noted for it? (`as usize`, here and below: u32 has no From to it.)
#[tactic(auto, unfolding(crate::specs::Sorted::is_placed_entry, crate::specs::Sorted::cell_at))]
fn is_placed(
    rows: &[Row],
    channels: &[Channel],
    entries: &[u64],
    places: &[Place],
    i: usize,
) -> bool
    ensures { result ≡ is_placed_entry rows.now (next_in channels.now) entries.now places.now i }
{
    let c = rows::whole_row(rows, i).cell;
    if c.used == cells::UNUSED {
        return true;
    }
    if is_within(channels, &c) {
        let place = places.get(i).copied().unwrap_or_default();
        let own = is_own(entries, place.rank as usize, i, &c);
        let led = is_led(rows, entries, place.lead as usize, &c);
        return own & led;
    }
    false
}

// (By number and not by `enumerate`: the test is of a row's number, by which the row, too, is read.)
fn all_placed(rows: &[Row], channels: &[Channel], entries: &[u64], places: &[Place]) -> bool
    ensures { result ≡ below (length rows.now) (is_placed_entry rows.now (next_in channels.now)
        entries.now places.now) }
{
    (0..rows.len()).all(|i| is_placed(rows, channels, entries, places, i))
}

#[tactic(auto, unfolding(crate::specs::Sorted::counted))]
fn count_cell(counts: &mut [u32], c: &CellRecord, q: usize)
    requires { get_or counts.old q 0 ≤ max_cells }
    ensures { counts.new ≡ counted counts.old c.now q }
{
    if c.used == cells::UNUSED {
        return;
    }
    if q < counts.len() {
        counts[q] += 1;
    }
}

// The used rows are counted at the places that they are led from.
#[tactic(auto, using(crate::proofs::EntryCases::tallying))]
fn count_rows(rows: &[Row], places: &[Place], counts: &mut [u32])
    requires { (length rows.now ≤ max_cells) × ((g : ℕ) → get_or counts.old g 0 ≡ 0) }
    ensures { counts.new ≡ tallied rows.now places.now counts.old (length rows.now) }
{
    for (i, r) in rows.iter().enumerate() {
        let place = places.get(i).copied().unwrap_or_default();
        count_cell(counts, &r.cell, place.lead as usize);
    }
}

// Is the cell's message whole or not, as it must be, where it has so many cells?
#[tactic(auto, unfolding(crate::specs::Sorted::due_cell))]
fn is_due_cell(c: &CellRecord, mates: u32) -> bool
    ensures { result ≡ due_cell c.now mates }
{
    c.used == cells::UNUSED || is_due(c.used == cells::OPEN, mates == c.count)
}

#[tactic(auto, unfolding(crate::specs::Sorted::is_due, crate::specs::Sorted::cell_at))]
fn is_due_row(rows: &[Row], places: &[Place], counts: &[u32], i: usize) -> bool
    ensures { result ≡ is_due rows.now places.now counts.now i }
{
    let c = rows::whole_row(rows, i).cell;
    let lead = places.get(i).copied().unwrap_or_default().lead as usize;
    is_due_cell(&c, counts.get(lead).copied().unwrap_or(0))
}

// (By number, as above.)
fn all_due(rows: &[Row], places: &[Place], counts: &[u32]) -> bool
    ensures { result ≡ below (length rows.now) (is_due rows.now places.now counts.now) }
{
    (0..rows.len()).all(|i| is_due_row(rows, places, counts, i))
}

// Do the entries, which ascend, pass all tests? Only then is the answer known from them.
#[tactic(auto, using(crate::proofs::EntryCases::all_tests))]
fn certified(
    rows: &[Row],
    channels: &[Channel],
    entries: &[u64],
    places: &[Place],
    counts: &mut [u32],
) -> bool
    requires { (all_rise entries.now ≡ true) × (length rows.now ≤ max_cells)
        × ((g : ℕ) → get_or counts.old g 0 ≡ 0) }
    ensures { result ≡ true → sound_cells (cells_in rows.now) (next_in channels.now) ≡ true }
{
    if counts.len() + 1 < entries.len() || !all_placed(rows, channels, entries, places) {
        return false;
    }
    count_rows(rows, places, counts);
    all_due(rows, places, counts)
}

// With lists of N: arrays, since there is no heap. A call refuses more than 4,096 cells before it asks this.
fn by_lists<const N: usize>(rows: &[Row], channels: &[Channel]) -> bool
    requires { (1 ≤ N) × (N ≤ 65536) }
    ensures { result ≡ sound_cells (cells_in rows.now) (next_in channels.now) }
{
    if base::MAX_CELLS < rows.len() {
        return by_pairs(rows, channels);
    }
    let mut entries = [0u64; N];
    let mut places = [Place::default(); N];
    let mut counts = [0u32; N];
    if let Some(used) = prepare(rows, &mut entries, &mut places)
        && certified(rows, channels, used, &places, &mut counts)
    {
        return true;
    }
    by_pairs(rows, channels)
}

// The same answer as that of the test by pairs, with large lists. (Not inlined: every call would then have them on the stack.)
#[inline(never)]
fn by_entries(rows: &[Row], channels: &[Channel]) -> bool
    ensures { result ≡ sound_cells (cells_in rows.now) (next_in channels.now) }
{
    let n = rows.len();
    if n <= SOME {
        return by_lists::<SOME_ENTRIES>(rows, channels);
    }
    if n <= MANY {
        return by_lists::<MANY_ENTRIES>(rows, channels);
    }
    by_lists::<MOST_ENTRIES>(rows, channels)
}
