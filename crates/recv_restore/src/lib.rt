// An image restored over rows.

#![tactic(auto)]

ghost use Rattle.std.specs.Prelude.{◌≡◌, ◌+◌, ◌*◌, ◌≤◌, ◌<◌, ◌&&◌, true, ltb, length, replicate};
ghost use Rattle.base.specs.Bytes.{be64};
ghost use Rattle.base.specs.Limits.{max_cells};
ghost use Rattle.base.specs.Lists.{below};
ghost use Rattle.cells.specs.Sound.{sound_cells};
ghost use Rattle.rows.specs.Rows.{cells_in, blank_row};
ghost use Rattle.image.specs.Image.{read_image};
ghost use Rattle.image_read.specs.Ends.{is_some};
ghost use Rattle.image_read.specs.At.{image_at};
ghost use Rattle.receiver.specs.Queue.{next_of, sound_queue};
ghost use Rattle.recv_restore.specs.Fits.{numbers32};
ghost use Rattle.recv_restore.specs.Outcome.{restored_rows, restore_rows_of, Restores};

use base::Refusal;
use receiver::RecvQueue;
use rows::Row;

mod filling;
mod front;

// A restore over rows, one for each record; their old values are not looked at. Refusals: 9 (NotSound), of the lengths alone, 21 (BadForm),
// 22 (NotRestorable). A refusal leaves receiver and store as they were, and blank rows.
pub fn restore_rows(
    queue: &mut RecvQueue,
    rows: &mut [Row],
    store: &mut [u8],
    image: &[u8],
) -> Result<(), Refusal>
    ensures { restored_rows result queue.new rows.new store.new ≡ restore_rows_of queue.old rows.old store.old image.now }
{
    clear(rows);
    if !sound_call::lengths_fit(rows.len(), store.len()) {
        return Err(Refusal::NotSound);
    }
    if !image_read::is_formed(image) {
        return Err(Refusal::BadForm);
    }
    match restored(rows, image) {
        Some(restored) => {
            row_bodies::settle(rows, store, image);
            *queue = restored;
            Ok(())
        }
        None => {
            clear(rows);
            Err(Refusal::NotRestorable)
        }
    }
}

// All rows blank.
fn clear(rows: &mut [Row])
    ensures { rows.new ≡ replicate (length rows.old) blank_row }
{
    rows.fill(rows::blank_row());
}

// The image's receiver, with the rows filled; none where no sound receiver's save writes the image, or there are too few rows.
fn restored(rows: &mut [Row], image: &[u8]) -> Option<RecvQueue>
    requires formed { is_some (read_image image.now) ≡ true }
    requires blank { rows.old ≡ replicate (length rows.old) blank_row }
    requires few { length rows.old ≤ max_cells }
    ensures { Restores (image_at image.now) image.now rows.old rows.new result }
{
    let queue = front::queue_at(image)?;
    filling::fill_cells(rows, image, front::pieces_at(image))?;
    if is_sound(&queue, rows) {
        return Some(queue);
    }
    None
}

// Are the receiver's own values and the records sound? (As `sound_call::is_sound` tells, but for the lengths.)
#[tactic(auto, using(crate::proofs::Restoring::tests))]
fn is_sound(queue: &RecvQueue, rows: &[Row]) -> bool
    ensures { result ≡ (sound_queue queue.now && sound_cells (cells_in rows.now) (next_of queue.now)) }
{
    sound_queue::check_queue(queue).is_ok() && sound_cells::are_sound(rows, &queue.channels)
}

// ---- numbers

// Is the number at p below 2^32?
fn is_narrow(s: &[u8], p: usize) -> bool
    ensures { result ≡ ltb (be64 s.now p) numbers32 }
{
    base::be64_at(s, p) < 4294967296
}

// Is each of n numbers from place p on below 2^32?
fn are_narrow(s: &[u8], p: usize, n: usize) -> bool
    requires { p + 8 * n < 4294967296 }
    ensures { result ≡ below n (λ i. ltb (be64 s.now (p + 8 * i)) numbers32) }
{
    for i in 0..n {
        if !is_narrow(s, p + 8 * i) {
            return false;
        }
    }
    true
}

// The number at p, where it is below 2^32.
fn low(s: &[u8], p: usize) -> u32
    requires { p < 4294967296 }
    ensures { be64 s.now p < numbers32 → result ≡ be64 s.now p }
{
    base::be32_at(s, p + 4)
}

// The rank of an entry: the number at p, `unit` times, and the number at q.
#[tactic(auto, using(crate::proofs::Numbers::rank_is))]
fn rank(s: &[u8], p: usize, unit: u64, q: usize) -> u64
    requires places { (p < 4294967296) × (q < 4294967296) }
    requires unit { unit ≤ 16777216 }
    ensures is { be64 s.now p < numbers32 → be64 s.now q < numbers32 → result ≡ be64 s.now p * unit + be64 s.now q }
    ensures small { result < 9223372036854775808 }
{
    u64::from(low(s, p)) * unit + u64::from(low(s, q))
}
