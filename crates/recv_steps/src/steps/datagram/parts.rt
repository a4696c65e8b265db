// Receive on rows of a receiver that is lent by its parts, as lists of any length: the receiver is made of them, and what the datagram
// leaves of it is written back.
ghost use Rattle.std.specs.Prelude.{◌≡◌, true, false, cond, length, take, drop, List, Err};
ghost use Rattle.base.specs.Refusals.{number_of};
ghost use Rattle.ack.specs.Write.{ascending};
ghost use Rattle.rows.specs.declared.Row.{Row};
ghost use Rattle.rows.specs.Rows.{cells_in};
ghost use Rattle.receiver.specs.Queue.{unsent_of, sound_queue};
ghost use Rattle.recv_parts.specs.Parts.{many_nexts, nexts_of, queue_of};
ghost use Rattle.recv_prefix.specs.Receiving.{receive_first};
ghost use Rattle.recv_steps.specs.Outcome.{found_in_frames};
ghost use Rattle.recv_steps.specs.ByParts.{parts_passed, zeros_of, parts_outcome, receive_parts_of};

use super::receive::receive_over;
use crate::PassedRows;
use base::Refusal;
use receiver::RecvQueue;
use recv_parts::Heads;
use rows::Row;

// Receive on the first k rows, which stand for the first of so many records. Refusal 9, not sound, too, where an array is not as long as a
// receiver's. rbits, nexts and the rows are copies of the caller's: a refusal that is found while the frames are worked on leaves zeros.
#[tactic(auto, using(crate::proofs::ByParts::parts))]
pub fn receive_rows(
    h: Heads,
    dbits: &[u8],
    rbits: &mut [u8],
    nexts: &mut [u32],
    unsent: &[u32],
    rows: &mut [Row],
    k: usize,
    cells: usize,
    store: &mut [u8],
    datagram: &[u8],
) -> PassedRows
    ensures { parts_passed result rbits.new nexts.new (take k rows.new) (drop k rows.new) store.new
        ≡ receive_parts_of (queue_of h dbits.now rbits.old nexts.old unsent.now) nexts.old k cells
        rows.old store.old datagram.now }
{
    if !recv_parts::arrays_fit(dbits, rbits, nexts, unsent) {
        return refused(h.reliables, Refusal::NotSound);
    }
    let mut queue = recv_parts::queue_of(h, dbits, rbits, nexts, unsent);
    let m = k.min(rows.len());
    receive_made(
        &mut queue,
        rbits,
        nexts,
        &mut rows[..m],
        cells,
        store,
        datagram,
    )
}

// Receive of the receiver that was made of the parts: rbits are its window's, and there are as many nexts as it has. (How long rbits are is
// asked beside: of a lent receiver's array a proof learns no length.)
#[tactic(auto, using(crate::proofs::ByParts::passes))]
fn receive_made(
    queue: &mut RecvQueue,
    rbits: &mut [u8],
    nexts: &mut [u32],
    rows: &mut [Row],
    cells: usize,
    store: &mut [u8],
    datagram: &[u8],
) -> PassedRows
    requires bits { rbits.old ≡ queue.old.reliables.bits }
    requires bits_fit { length rbits.old ≡ 256 }
    requires nexts { length nexts.old ≡ many_nexts }
    ensures { (after : List Row) → parts_passed result rbits.new nexts.new rows.new after store.new
        ≡ parts_outcome queue.old nexts.old rows.old after
        (receive_first queue.old cells (cells_in rows.old) store.old datagram.now) }
{
    let low = queue.reliables.low;
    let ascending = ascends(queue);
    match receive_over(queue, rows, cells, store, datagram) {
        Ok(received) => {
            write_back(queue, rbits, nexts);
            PassedRows {
                answer: Ok(received),
                low: queue.reliables.low,
                ascending,
            }
        }
        Err(refusal) => {
            clear_worked(rbits, nexts, refusal);
            refused(low, refusal)
        }
    }
}

// A refused datagram moves no low number.
fn refused(low: u32, refusal: Refusal) -> PassedRows
    ensures { result ≡ record { answer = Err refusal; low = low; ascending = false } }
{
    PassedRows {
        answer: Err(refusal),
        low,
        ascending: false,
    }
}

// Do the unsent numbers ascend? (Of a receiver that is not sound this says nothing.)
#[tactic(auto, using(crate::proofs::ByParts::ascends_told))]
fn ascends(queue: &RecvQueue) -> bool
    ensures { sound_queue queue.now ≡ true → result ≡ ascending (unsent_of queue.now) }
{
    sound_queue::check_queue(queue).unwrap_or(false)
}

// What the receiver has comes to the lent parts. (Not by `copy_from_slice`: the archives for C would need the name `memmove` from outside.)
#[tactic(auto, using(crate::proofs::ByParts::all_put))]
fn write_back(queue: &RecvQueue, rbits: &mut [u8], nexts: &mut [u32])
    requires bits { length rbits.old ≡ 256 }
    requires nexts { length nexts.old ≡ many_nexts }
    ensures bits { rbits.new ≡ queue.now.reliables.bits }
    ensures nexts { nexts.new ≡ nexts_of queue.now }
{
    base::put_all(rbits, 0, &queue.reliables.bits);
    base::put_all(nexts, 0, &recv_channel::nexts_of(queue));
}

// A refusal that was found while the frames were worked on: nothing of that work is left in the lent parts.
#[tactic(auto, using(crate::proofs::ByParts::clears))]
fn clear_worked(rbits: &mut [u8], nexts: &mut [u32], refusal: Refusal)
    ensures bits { rbits.new ≡ cond (found_in_frames (number_of refusal)) (zeros_of rbits.old) rbits.old }
    ensures nexts { nexts.new ≡ cond (found_in_frames (number_of refusal)) (zeros_of nexts.old) nexts.old }
{
    if is_found_in_frames(refusal) {
        rbits.fill(0);
        nexts.fill(0);
    }
}

// Refusals 7 and 8.
#[tactic(auto, unfolding(crate::specs::Outcome::found_in_frames))]
fn is_found_in_frames(refusal: Refusal) -> bool
    ensures { result ≡ found_in_frames (number_of refusal) }
{
    let number = u32::from(refusal);
    number == 7 || number == 8
}
