// Whether the cells' records are sound (document 01, "Calls and their numbers", 9).

#![tactic(auto)]

ghost use Rattle.std.specs.Prelude.{◌≡◌, ◌<◌, cond, not, ◌&&◌};
ghost use Rattle.cells.specs.Sound.{limits, sound_cells};
ghost use Rattle.rows.specs.Rows.{cells_in};
ghost use Rattle.receiver.specs.Queue.{next_in};
ghost use Rattle.sound_cells.specs.Counted.{mate, ahead_of_next, counted_cell, mates_of};
ghost use Rattle.sound_cells.specs.Sorted.{key_part};

use cells::CellRecord;
use receiver::Channel;
use row_tests::{age_of, is_held, is_like, is_open, is_ready};
use rows::Row;

mod order;

pub use order::{are_sound, sound_cells};

const MAX_KIND: u32 = 7;

// A cell's bytes beside a row's length. (`as u32`: a const can call no TryFrom.)
const CELL_BYTES: u32 = base::CELL_BYTES as u32;

// More than the key of any row within the limits as a number. (A lent record may hold any channel: the remainder keeps its key to the 42
// bits that an entry has for it.)
const KEYS: u64 = 4398046511104;

// Up to so many rows the test by pairs is quicker than sorted entries, as measured with all rows in use; up to so many, short lists are
// enough.
const PAIRS: usize = 4;

const FEW: usize = 32;

const SOME: usize = 256;

const MANY: usize = 1024;

#[tactic(auto, unfolding(cells::specs::Sound::limits))]
fn in_limits(c: &CellRecord) -> bool
    ensures { result ≡ limits c.now }
{
    (c.used <= cells::READY)
        & ((c.kind <= MAX_KIND)
            & ((c.channel < u32::from(base::MAX_ORD_CHANS))
                & ((c.sequence < base::NUMBERS_24)
                    & ((c.order < base::NUMBERS_24)
                        & ((1 <= c.count)
                            & ((c.count <= base::MAX_FRAGS)
                                & ((c.index < c.count)
                                    & ((c.length <= CELL_BYTES)
                                        & ((c.id < base::NUMBERS_16)
                                            & (age_of(c) <= base::MAX_AGE))))))))))
}

// Is d a cell of a's message?
#[tactic(auto, unfolding(crate::specs::Counted::mate, cells::specs::Sound::key_of, cells::specs::Cell::bears))]
fn is_mate(a: &CellRecord, d: &CellRecord) -> bool
    ensures { result ≡ mate a.now d.now }
{
    match a.used {
        cells::OPEN => is_open(d, a.id),
        cells::HELD => is_held(d, a.channel, a.order),
        _ => is_ready(d, a.turn),
    }
}

// A message's key as a number: its use, and what it is known by. (An entry, which has it as a part, is a number for speed: entries.rt.)
#[tactic(auto, using(crate::proofs::EntryCases::keys))]
fn key_part(c: &CellRecord) -> u64
    ensures { (result ≡ key_part c.now) × (result < 4398046511104) }
{
    let part = match c.used {
        cells::OPEN => 4294967296 + u64::from(c.id),
        cells::HELD => 8589934592
            + (u64::from(c.channel) * u64::from(base::NUMBERS_24) + u64::from(c.order)),
        _ => 12884901888 + u64::from(c.turn),
    };
    part % KEYS
}

// How many cells are of a cell's message, how many of them have its index, and how many are not like it.
#[derive(Clone, Copy, Debug, Default, PartialEq, Eq)]
struct Tally {
    mates: usize,
    twins: usize,
    unlike: usize,
}

// (A loop: `filter` and `count` would pass over the rows once for each of the three.)
fn count_mates(rows: &[Row], a: &CellRecord) -> Tally
    ensures { result ≡ mates_of (cells_in rows.now) a.now }
{
    let mut t = Tally::default();
    for r in rows {
        let d = &r.cell;
        let mate = is_mate(a, d);
        t.mates += usize::from(mate);
        t.twins += usize::from(mate & (d.index == a.index));
        t.unlike += usize::from(mate & !is_like(a, d));
    }
    t
}

// An open message lacks an index, and a held or ready one lacks none.
fn is_due(opened: bool, whole: bool) -> bool
    ensures { result ≡ cond opened (not whole) whole }
{
    opened != whole
}

// The channel's next order number; 0 past the channels.
#[tactic(auto, unfolding(receiver::specs::Queue::next_in))]
fn next_in(channels: &[Channel], c: usize) -> u32
    ensures { result ≡ next_in channels.now c }
{
    channels.get(c).map_or(0, |channel| channel.next)
}

// What is asked of a cell alone: the limits, and of a held one that its order number exceeds its channel's next. (`as usize`, here and
// below: u32 has no From to it.)
#[tactic(auto, unfolding(crate::specs::Counted::ahead_of_next, cells::specs::Sound::limits))]
fn is_within(channels: &[Channel], c: &CellRecord) -> bool
    ensures { result ≡ (limits c.now && ahead_of_next (next_in channels.now) c.now) }
{
    if in_limits(c) {
        if c.used == cells::HELD {
            let next = next_in(channels, c.channel as usize);
            return next < c.order;
        }
        return true;
    }
    false
}

// Is this cell sound among those of the rows? Asked by counts.
#[tactic(auto, using(crate::proofs::Tests::by_counts))]
fn is_sound(rows: &[Row], channels: &[Channel], c: &CellRecord) -> bool
    ensures { result ≡ counted_cell (cells_in rows.now) (next_in channels.now) c.now }
{
    if c.used == cells::UNUSED {
        return true;
    }
    if is_within(channels, c) {
        let t = count_mates(rows, c);
        let due = is_due(c.used == cells::OPEN, t.mates == c.count as usize);
        return (t.twins == 1) & ((t.unlike == 0) & due);
    }
    false
}

// Each used row against all rows. (Rows and channels, and further on entries and places, are passed as slices: in a struct, each promise
// would name them by its fields, and a call would hand over a reference to it.)
fn by_pairs(rows: &[Row], channels: &[Channel]) -> bool
    ensures { result ≡ sound_cells (cells_in rows.now) (next_in channels.now) }
{
    rows.iter().all(|r| is_sound(rows, channels, &r.cell))
}
