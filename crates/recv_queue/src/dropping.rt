// Drop: the records that it may need are loaded as rows, the core reads these, and where it gives a number the stale records are freed.
ghost use Rattle.std.specs.Prelude.{◌≡◌, length};
ghost use Rattle.receiver.specs.Drop.{drop_unfinished_of};
ghost use Rattle.recv_prefix.specs.Needs.{last_used, take_needs};
ghost use Rattle.recv_drop.specs.Outcome.{drop_result};

use base::Refusal;
use cells::CellRecord;
use receiver::RecvQueue;
use rows::Row;

// The call on as many of the records as there are rows, which are lent too. A refusal frees none.
#[inline(never)]
#[tactic(auto, using(crate::proofs::Drops::drops))]
fn drop_in(
    queue: &RecvQueue,
    records: &mut [CellRecord],
    rows: &mut [Row],
    store: &[u8],
    n: u32,
) -> Result<u32, Refusal>
    requires { length rows.old ≡ take_needs (last_used records.old) (length records.old) (length store.now) }
    ensures { drop_result result records.new ≡ drop_unfinished_of queue.now records.old store.now n }
{
    let k = rows.len();
    super::convert(&records[..k], rows);
    let freed = recv_drop::drop_rows(queue, rows, records.len(), store, n)?;
    super::free_where(&mut records[..k], |c| row_tests::is_stale(c, n));
    Ok(freed)
}

#[tactic(auto, using(crate::proofs::Enough::needs_few))]
pub fn drop_unfinished(
    queue: &RecvQueue,
    records: &mut [CellRecord],
    store: &[u8],
    n: u32,
) -> Result<u32, Refusal>
    ensures { drop_result result records.new ≡ drop_unfinished_of queue.now records.old store.now n }
{
    let k = super::needed(records, store);
    let mut call = |rows: &mut [Row]| drop_in(queue, records, rows, store, n);
    super::with_rows(k, &mut call)
}
