// The records are sound where the rows of each message stand one after the other, by index, and no message's key occurred before: told in
// one pass, without lists. So they mostly stand in the receivers that our own calls leave; where pieces of two messages came mixed, they do
// not.
ghost use Rattle.std.specs.Prelude.{◌≡◌, true, ◌%◌, ◌<◌};
ghost use Rattle.cells.specs.Sound.{sound_cells};
ghost use Rattle.rows.specs.Rows.{cells_in};
ghost use Rattle.receiver.specs.Queue.{next_in};
ghost use Rattle.sound_cells.specs.Ordered.{has_bit, with_bit, word_of, mark_of, is_fresh, noted, message_goes_on};

use super::{CELL_BYTES, is_due, is_mate, is_within, key_part};
use receiver::Channel;
use row_tests::is_like;
use rows::Row;

mod entries;

pub use entries::{are_sound, sound_cells};

// (window tests its bits so, too, but in bytes.)
#[tactic(auto, unfolding(crate::specs::Ordered::has_bit, window::specs::Places::bit))]
fn has_bit(bits: u64, n: u64) -> bool
    ensures { result ≡ has_bit bits n }
{
    (bits >> (n % u64::from(u64::BITS))) % 2 == 1
}

fn with_bit(bits: u64, n: u64) -> u64
    ensures { result ≡ with_bit bits n }
{
    bits | 1 << (n % u64::from(u64::BITS))
}

// A key's word among those that are seen, and its bit. (`as usize`: it is below 4.)
#[tactic(auto, unfolding(crate::specs::Ordered::word_of))]
fn word_of(key: u64) -> usize
    ensures { (result ≡ word_of key) × (result < 4) }
{
    (key / 4294967296 % 4) as usize
}

#[tactic(auto, unfolding(crate::specs::Ordered::mark_of))]
fn mark(key: u64) -> u64
    ensures { result ≡ mark_of key }
{
    key % 64 + key / u64::from(base::NUMBERS_24) % 64 * 7
}

#[tactic(auto, unfolding(crate::specs::Ordered::is_fresh))]
fn is_fresh(seen: &[u64; 4], greatest: u64, key: u64) -> bool
    ensures { result ≡ is_fresh seen.now greatest key }
{
    let has = has_bit(seen[word_of(key)], mark(key));
    (greatest < key) | !has
}

#[tactic(auto, unfolding(crate::specs::Ordered::noted))]
fn note_key(seen: &mut [u64; 4], key: u64)
    ensures { seen.new ≡ noted seen.old key }
{
    let w = word_of(key);
    seen[w] = with_bit(seen[w], mark(key));
}

// Is s, which stands after r, one more row of its message? (Most messages have one cell: this is asked first.)
#[tactic(auto, unfolding(crate::specs::Ordered::message_goes_on))]
fn goes_on(r: &Row, s: &Row) -> bool
    ensures { result ≡ message_goes_on r.now.cell s.now.cell }
{
    let a = &r.cell;
    let d = &s.cell;
    if (a.count == 1) | (a.used == cells::UNUSED) {
        return false;
    }
    let mate = is_mate(a, d);
    let like = is_like(d, a);
    mate & (like
        & ((a.used != cells::UNUSED)
            & ((a.index < d.index)
                & ((d.index < d.count) & ((d.length <= CELL_BYTES) & (d.id < base::NUMBERS_16))))))
}

// Are the rows in order? Each use has a word with a bit of each key that occurred. Whether all keys were fresh is asked at the end: which
// of the two tests makes one fresh cannot be foreseen, and a branch on it would often be guessed wrong. (`as usize`: u32 has no From to
// it. No struct of the three variables: a method that notes a key would promise the three together, which a definition would first join.)
#[tactic(auto, using(crate::proofs::OrderCases::going_starts))]
fn by_order(rows: &[Row], channels: &[Channel]) -> bool
    ensures { result ≡ true → sound_cells (cells_in rows.now) (next_in channels.now) ≡ true }
{
    let mut seen = [0u64; 4];
    let mut greatest: u64 = 0;
    let mut fresh = true;
    for message in rows.chunk_by(goes_on) {
        let c = &message[0].cell;
        if c.used != cells::UNUSED {
            if !is_within(channels, c) {
                return false;
            }
            if !is_due(c.used == cells::OPEN, message.len() == c.count as usize) {
                return false;
            }
            let key = key_part(c);
            let new = is_fresh(&seen, greatest, key);
            fresh &= new;
            note_key(&mut seen, key);
            greatest = greatest.max(key);
        }
    }
    fresh
}
