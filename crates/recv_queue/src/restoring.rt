// Restore: the core fills blank rows from the image, and where it restores they become the records.
ghost use Rattle.std.specs.Prelude.{◌≡◌, length};
ghost use Rattle.receiver.specs.Restore.{restore_of};
ghost use Rattle.recv_queue.specs.Answers.{restore_result};

use base::Refusal;
use cells::CellRecord;
use receiver::RecvQueue;
use rows::Row;

// The call on rows for all records, which are lent too. A refusal leaves the records.
#[inline(never)]
#[tactic(auto, using(crate::proofs::Restores::restored_err, crate::proofs::Restores::restored_ok))]
fn restore_in(
    queue: &mut RecvQueue,
    records: &mut [CellRecord],
    rows: &mut [Row],
    store: &mut [u8],
    image: &[u8],
) -> Result<(), Refusal>
    requires { length rows.old ≡ length records.old }
    ensures { restore_result result queue.new records.new store.new
        ≡ restore_of queue.old records.old store.old image.now }
{
    recv_restore::restore_rows(queue, rows, store, image)?;
    super::convert(rows, records);
    Ok(())
}

// (The lengths are tested here, and not by the core alone: there are rows for no more records than a receiver may have.)
#[tactic(auto, using(crate::proofs::Restores::unfit_restore, crate::proofs::Saves::few_cells))]
pub fn restore(
    queue: &mut RecvQueue,
    records: &mut [CellRecord],
    store: &mut [u8],
    image: &[u8],
) -> Result<(), Refusal>
    ensures { restore_result result queue.new records.new store.new
        ≡ restore_of queue.old records.old store.old image.now }
{
    let cells = records.len();
    if !sound_call::lengths_fit(cells, store.len()) {
        return Err(Refusal::NotSound);
    }
    let mut call = |rows: &mut [Row]| restore_in(queue, records, rows, store, image);
    super::with_rows(cells, &mut call)
}
