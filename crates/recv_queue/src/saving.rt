// Save: all records are loaded as rows, and the core writes the image of these.
ghost use Rattle.std.specs.Prelude.{◌≡◌, length};
ghost use Rattle.receiver.specs.Save.{save_of};
ghost use Rattle.recv_save.specs.Outcome.{save_result};

use base::Refusal;
use cells::CellRecord;
use receiver::RecvQueue;
use rows::Row;

// The call on rows for all records, which are lent too.
#[inline(never)]
#[tactic(auto, using(crate::proofs::Saves::saved))]
fn save_in(
    queue: &RecvQueue,
    records: &[CellRecord],
    rows: &mut [Row],
    store: &[u8],
    out: &mut [u8],
) -> Result<usize, Refusal>
    requires { length rows.old ≡ length records.now }
    ensures { save_result result out.new ≡ save_of queue.now records.now store.now out.old }
{
    super::convert(records, rows);
    recv_save::save_rows(queue, rows, store, out)
}

// (The lengths are tested here, and not by the core alone: there are rows for no more records than a receiver may have.)
#[tactic(auto, using(crate::proofs::Saves::unfit_save, crate::proofs::Saves::few_cells))]
pub fn save(
    queue: &RecvQueue,
    records: &[CellRecord],
    store: &[u8],
    out: &mut [u8],
) -> Result<usize, Refusal>
    ensures { save_result result out.new ≡ save_of queue.now records.now store.now out.old }
{
    if !sound_call::lengths_fit(records.len(), store.len()) {
        return Err(Refusal::NotSound);
    }
    let mut call = |rows: &mut [Row]| save_in(queue, records, rows, store, out);
    super::with_rows(records.len(), &mut call)
}
