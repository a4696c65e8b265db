// A drop on rows: request 4, "Unfinished unreliable joins give their cells back". (A must-fail edit costs a check of its whole crate, so
// this is a crate of its own.)

#![tactic(auto)]

ghost use Rattle.std.specs.Prelude.{◌≡◌};
ghost use Rattle.base.specs.Refusals.{answer};
ghost use Rattle.recv_drop.specs.Outcome.{drop_rows_of};

use base::Refusal;
use receiver::RecvQueue;
use rows::Row;

// A drop over rows, which are the first of so many cells' records; they are only read. It gives how many of them are dropped. Refusal: 9
// (NotSound). (`cells` stands beside the rows, and the lengths are tested, as in `recv_take::take_rows`. `as u32`: there are at most 4,096
// rows.)
#[tactic(auto, using(crate::proofs::First::ways), unfolding(cells::specs::Sound::lengths))]
pub fn drop_rows(
    queue: &RecvQueue,
    rows: &[Row],
    cells: usize,
    store: &[u8],
    n: u32,
) -> Result<u32, Refusal>
    ensures { answer result ≡ drop_rows_of queue.now cells rows.now store.now n }
{
    if !sound_call::lengths_fit(cells, store.len()) {
        return Err(Refusal::NotSound);
    }
    if cells < rows.len() {
        return Err(Refusal::NotSound);
    }
    if !sound_call::is_sound(queue, rows, &store[..base::CELL_BYTES * rows.len()]) {
        return Err(Refusal::NotSound);
    }
    Ok(row_scans::count_stale(rows, n) as u32)
}
