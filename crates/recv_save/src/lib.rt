// A receiver's image, written to a lent output: document 02, request 5. Refusals: 9 (NotSound), 12 (NoRoom).

#![tactic(auto)]

ghost use Rattle.std.specs.Prelude.{◌≡◌, true, ◌≤◌, length};
ghost use Rattle.base.specs.Bytes.{be64_bytes};
ghost use Rattle.base.specs.Limits.{max_cells};
ghost use Rattle.base.specs.Put.{Run};
ghost use Rattle.rows.specs.Rows.{cells_in};
ghost use Rattle.receiver.specs.Receive.{sound_call};
ghost use Rattle.receiver.specs.Save.{save_of};
ghost use Rattle.recv_save.specs.Outcome.{save_result};
ghost use Rattle.recv_save.specs.Slots.{ordered};

use base::Refusal;
use receiver::RecvQueue;
use rows::Row;

mod front;
mod slots;

// Lists of the used rows' entries are as long as the rows are many: arrays, since there is no heap.
const FEW: usize = 32;

const SOME: usize = 256;

const MANY: usize = 1024;

const MOST: usize = base::MAX_CELLS;

// A number of the image.
fn put_number(out: &mut [u8], to: usize, n: u32) -> usize
    ensures { Run to (be64_bytes n) out.old result out.new }
{
    base::put64(out, to, u64::from(n))
}

// The image, and its length.
pub fn save_rows(
    queue: &RecvQueue,
    rows: &[Row],
    store: &[u8],
    out: &mut [u8],
) -> Result<usize, Refusal>
    ensures { save_result result out.new ≡ save_of queue.now (cells_in rows.now) store.now out.old }
{
    if !sound_call::is_sound(queue, rows, store) {
        return Err(Refusal::NotSound);
    }
    if rows.len() <= FEW {
        return save_by::<FEW>(queue, rows, store, out);
    }
    save_many(queue, rows, store, out)
}

// With large lists. (Not inlined: every call would then have them on the stack.)
#[inline(never)]
fn save_many(
    queue: &RecvQueue,
    rows: &[Row],
    store: &[u8],
    out: &mut [u8],
) -> Result<usize, Refusal>
    requires { sound_call queue.now (cells_in rows.now) store.now ≡ true }
    ensures { save_result result out.new ≡ save_of queue.now (cells_in rows.now) store.now out.old }
{
    let n = rows.len();
    if n <= SOME {
        return save_by::<SOME>(queue, rows, store, out);
    }
    if n <= MANY {
        return save_by::<MANY>(queue, rows, store, out);
    }
    save_by::<MOST>(queue, rows, store, out)
}

// With a list of N.
fn save_by<const N: usize>(
    queue: &RecvQueue,
    rows: &[Row],
    store: &[u8],
    out: &mut [u8],
) -> Result<usize, Refusal>
    requires sound { sound_call queue.now (cells_in rows.now) store.now ≡ true }
    requires room { (length rows.now ≤ N) × (N ≤ max_cells) }
    ensures { save_result result out.new ≡ save_of queue.now (cells_in rows.now) store.now out.old }
{
    let mut entries = [0u64; N];
    let k = slots::gather(rows, &mut entries);
    let order = &mut entries[..k];
    order.sort_unstable();
    save_ordered(queue, rows, store, order, out)
}

// The image, in the entries' order, where it fits.
fn save_ordered(
    queue: &RecvQueue,
    rows: &[Row],
    store: &[u8],
    order: &[u64],
    out: &mut [u8],
) -> Result<usize, Refusal>
    requires sound { sound_call queue.now (cells_in rows.now) store.now ≡ true }
    requires ordered { order.now ≡ ordered rows.now }
    ensures { save_result result out.new ≡ save_of queue.now (cells_in rows.now) store.now out.old }
{
    let len = front::front_len(queue) + slots::cells_len(rows, store, order);
    if out.len() < len {
        return Err(Refusal::NoRoom);
    }
    let a = front::put_front(out, queue);
    slots::put_cells(out, a, rows, store, order);
    Ok(len)
}
