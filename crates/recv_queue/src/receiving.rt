// Receive: the records that it may need are loaded as rows, the core works on these, and where it accepts the datagram they are saved.
ghost use Rattle.std.specs.Prelude.{◌≡◌, ◌+◌, min, length};
ghost use Rattle.receiver.specs.Queue.{profile_in};
ghost use Rattle.receiver.specs.Receive.{receive_of};
ghost use Rattle.recv_prefix.specs.Needs.{last_used, receive_needs};
ghost use Rattle.recv_queue.specs.Answers.{received};

use base::Refusal;
use cells::CellRecord;
use receiver::RecvQueue;
use recv_steps::Received;
use rows::Row;

// How many records a call works on: none where the lengths do not fit, which the core, an open function, tests and refuses by itself.
#[tactic(auto, using(crate::proofs::Receives::enough_read, crate::proofs::Receives::enough_none))]
fn needed(queue: &RecvQueue, records: &[CellRecord], store: &[u8], datagram: &[u8]) -> usize
    ensures { result ≡ receive_needs (profile_in queue.now) (last_used records.now) (length records.now)
        (length store.now) datagram.now }
{
    let cells = records.len();
    if sound_call::lengths_fit(cells, store.len()) {
        let p = reliability::profile_of(queue.profile);
        let read = frame::read_frames(p, datagram, base::MIN_DATAGRAM);
        return with_room(super::last_used(records), read.count, cells);
    }
    0
}

// One more than used and frames together, at most cells.
fn with_room(used: usize, frames: usize, cells: usize) -> usize
    ensures { result ≡ min cells (used + frames + 1) }
{
    used.saturating_add(frames).saturating_add(1).min(cells)
}

// The call on as many of the records as there are rows, which are lent too. A refusal saves none.
#[inline(never)]
#[tactic(auto, using(crate::proofs::Receives::receives))]
fn receive_in(
    queue: &mut RecvQueue,
    records: &mut [CellRecord],
    rows: &mut [Row],
    store: &mut [u8],
    datagram: &[u8],
) -> Result<Received, Refusal>
    requires { length rows.old ≡ receive_needs (profile_in queue.old) (last_used records.old) (length records.old)
        (length store.old) datagram.now }
    ensures { received result queue.new records.new store.new
        ≡ receive_of queue.old records.old store.old datagram.now }
{
    let k = rows.len();
    super::convert(&records[..k], rows);
    let received = recv_steps::receive_over(queue, rows, records.len(), store, datagram)?;
    super::convert(rows, &mut records[..k]);
    Ok(received)
}

#[tactic(auto, using(crate::proofs::Receives::needs_few))]
pub fn receive(
    queue: &mut RecvQueue,
    records: &mut [CellRecord],
    store: &mut [u8],
    datagram: &[u8],
) -> Result<Received, Refusal>
    ensures { received result queue.new records.new store.new
        ≡ receive_of queue.old records.old store.old datagram.now }
{
    let k = needed(queue, records, store, datagram);
    let mut call = |rows: &mut [Row]| receive_in(queue, records, rows, store, datagram);
    super::with_rows(k, &mut call)
}
