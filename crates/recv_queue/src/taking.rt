// Take: the records that it may need are loaded as rows, the core reads these, and where it gives a message its records are freed.
ghost use Rattle.std.specs.Prelude.{◌≡◌, length};
ghost use Rattle.receiver.specs.Take.{take_of};
ghost use Rattle.recv_prefix.specs.Needs.{last_used, take_needs};
ghost use Rattle.recv_take.specs.Outcome.{take_result};

use base::Refusal;
use cells::CellRecord;
use receiver::RecvQueue;
use recv_take::Taken;
use rows::Row;

// The call on as many of the records as there are rows, which are lent too. A refusal frees none.
#[inline(never)]
#[tactic(auto, using(crate::proofs::Takes::takes))]
fn take_in(
    queue: &RecvQueue,
    records: &mut [CellRecord],
    rows: &mut [Row],
    store: &[u8],
    joined: &mut [u8],
) -> Result<Taken, Refusal>
    requires { length rows.old ≡ take_needs (last_used records.old) (length records.old) (length store.now) }
    ensures { take_result result records.new joined.new
        ≡ take_of queue.now records.old store.now joined.old }
{
    let k = rows.len();
    super::convert(&records[..k], rows);
    let given = recv_take::take_over(queue, rows, records.len(), store, joined)?;
    super::free_where(&mut records[..k], |c| row_tests::is_ready(c, given.turn));
    Ok(given.taken)
}

#[tactic(auto, using(crate::proofs::Enough::needs_few))]
pub fn take(
    queue: &RecvQueue,
    records: &mut [CellRecord],
    store: &[u8],
    joined: &mut [u8],
) -> Result<Taken, Refusal>
    ensures { take_result result records.new joined.new
        ≡ take_of queue.now records.old store.now joined.old }
{
    let k = super::needed(records, store);
    let mut call = |rows: &mut [Row]| take_in(queue, records, rows, store, joined);
    super::with_rows(k, &mut call)
}
