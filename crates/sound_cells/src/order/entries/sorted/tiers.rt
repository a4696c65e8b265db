// The tests one after the other: the order of the rows, then their sorted entries, or each two where they are few.
ghost use Rattle.std.specs.Prelude.{◌≡◌};
ghost use Rattle.cells.specs.Sound.{sound_cells};
ghost use Rattle.rows.specs.Rows.{cells_in};
ghost use Rattle.receiver.specs.Queue.{next_in};
ghost use Rattle.recv_parts.specs.Parts.{next_at};

use super::{FEW_ENTRIES, by_entries, by_lists};
use crate::order::by_order;
use crate::{FEW, PAIRS, by_pairs};
use receiver::Channel;
use rows::Row;

// By sorted entries, or by each two where the rows are few.
fn by_size(rows: &[Row], channels: &[Channel]) -> bool
    ensures { result ≡ sound_cells (cells_in rows.now) (next_in channels.now) }
{
    let n = rows.len();
    if n <= PAIRS {
        return by_pairs(rows, channels);
    }
    if n <= FEW {
        return by_lists::<FEW_ENTRIES>(rows, channels);
    }
    by_entries(rows, channels)
}

// Are the cells' records sound beside these channels' next order numbers? The order of the rows tells it soonest, then sorted entries of
// them. For these the slices are made anew: LLVM then keeps no copy of them in memory on the common path.
#[tactic(auto, using(crate::proofs::EntryCases::told))]
pub fn are_sound(rows: &[Row], channels: &[Channel]) -> bool
    ensures { result ≡ sound_cells (cells_in rows.now) (next_in channels.now) }
{
    if by_order(rows, channels) {
        return true;
    }
    by_size(&rows[0..], &channels[0..])
}

// The same beside the nexts as numbers, a list of any length (recv_parts): what has no number is 0.
#[tactic(auto, using(crate::proofs::ByParts::by_list))]
pub fn sound_cells(rows: &[Row], nexts: &[u32]) -> bool
    ensures { result ≡ sound_cells (cells_in rows.now) (next_at nexts.now) }
{
    are_sound(rows, &recv_parts::channels_of(nexts))
}
