// Document 01's Receive on rows: its refusals in their order, then the frames, and what an accepted datagram leaves.
ghost use Rattle.std.specs.Prelude.{◌≡◌, true, length, replicate, Err};
ghost use Rattle.cells.specs.Sound.{lengths};
ghost use Rattle.rows.specs.Rows.{blank_row};
ghost use Rattle.receiver.specs.Receive.{is_datagram};
ghost use Rattle.recv_steps.specs.Outcome.{received_rows, receive_rows_of};
ghost use Rattle.recv_steps.specs.Receives.{Receives, Judged, Numbered, cells_of, head_of, fresh_of};

use crate::Received;
use base::Refusal;
use receiver::{Channel, RecvQueue};
use rows::Row;

// Receive on the rows, which stand for the first of so many records. Refusal 9, not sound: the slice lengths.
pub fn receive_over(
    queue: &mut RecvQueue,
    rows: &mut [Row],
    cells: usize,
    store: &mut [u8],
    datagram: &[u8],
) -> Result<Received, Refusal>
    ensures { received_rows result queue.new rows.new store.new ≡ receive_rows_of queue.old cells
        rows.old store.old datagram.now }
{
    if !sound_call::lengths_fit(cells, store.len()) {
        return Err(Refusal::NotSound);
    }
    let n = rows.len();
    if n == 0 || cells < n {
        return Err(Refusal::NotSound);
    }
    receive_first(queue, rows, &mut store[..base::CELL_BYTES * n], datagram)
}

// Refusal 9: the receiver's own values, and the records. (The refusals stand in two functions, and the frames in a third: after a longer
// row of `?` the compiler takes the calls for rare ones, and a datagram of one small frame takes 9 % longer.)
#[tactic(auto, using(crate::proofs::Receiving::refusals))]
fn receive_first(
    queue: &mut RecvQueue,
    rows: &mut [Row],
    store: &mut [u8],
    datagram: &[u8],
) -> Result<Received, Refusal>
    requires { lengths (length rows.old) (length store.old) ≡ true }
    ensures { Receives queue.old rows.old store.old datagram.now
        result queue.new rows.new store.new }
{
    let ascends = sound_queue::check_queue(queue)?;
    check_cells(rows, &queue.channels)?;
    receive_sound(queue, rows, store, datagram, ascends)
}

// Refusals 1 to 6: the datagram's length, first byte and number.
#[tactic(auto, using(crate::proofs::Receiving::refusals))]
fn receive_sound(
    queue: &mut RecvQueue,
    rows: &mut [Row],
    store: &mut [u8],
    datagram: &[u8],
    ascends: bool,
) -> Result<Received, Refusal>
    requires { Judged queue.old rows.old store.old ascends }
    ensures { Receives queue.old rows.old store.old datagram.now
        result queue.new rows.new store.new }
{
    check_head(datagram)?;
    let number = check_number(queue, datagram)?;
    receive_frames(queue, rows, store, datagram, number, ascends)
}

// The frames, worked on over copies: a refusal leaves the receiver as it was.
fn receive_frames(
    queue: &mut RecvQueue,
    rows: &mut [Row],
    store: &mut [u8],
    datagram: &[u8],
    number: u32,
    ascends: bool,
) -> Result<Received, Refusal>
    requires { Numbered queue.old rows.old store.old datagram.now ascends number }
    ensures { Receives queue.old rows.old store.old datagram.now
        result queue.new rows.new store.new }
{
    let mut reliables = queue.reliables;
    let mut nexts = recv_channel::copy_nexts(queue);
    let turn = super::begin(rows);
    let framed = match super::frames(rows, &mut reliables, &mut nexts, turn, datagram) {
        Ok(framed) if framed.counts.full => return refuse(rows, Refusal::CellsFull),
        Ok(framed) => framed,
        Err(refusal) => return refuse(rows, refusal),
    };
    row_bodies::settle(rows, store, datagram);
    recv_lent::settle(queue, &reliables, &nexts, number, ascends);
    Ok(Received {
        ready: framed.counts.ready,
        dropped: framed.counts.dropped,
        left: framed.left,
    })
}

// Refusal 9, not sound: the records.
#[tactic(auto, using(base::proofs::Ifs::ifs), unfolding(crate::specs::Receives::cells_of))]
fn check_cells(rows: &[Row], channels: &[Channel]) -> Result<(), Refusal>
    ensures { result ≡ cells_of rows.now channels.now }
{
    if sound_cells::are_sound(rows, channels) {
        return Ok(());
    }
    Err(Refusal::NotSound)
}

// "id 80 to 8D".
fn is_datagram(first: u8) -> bool
    ensures { result ≡ is_datagram first }
{
    (0x80..=0x8D).contains(&first)
}

// Refusals 1, 2 and 3: the datagram is cut, too long, or begins with another byte.
#[tactic(auto, using(base::proofs::Ifs::ifs), unfolding(crate::specs::Receives::head_of))]
fn check_head(datagram: &[u8]) -> Result<(), Refusal>
    ensures { result ≡ head_of datagram.now }
{
    if datagram.len() < base::MIN_DATAGRAM {
        return Err(Refusal::Cut);
    }
    if base::MAX_DATAGRAM < datagram.len() {
        return Err(Refusal::TooLong);
    }
    if is_datagram(base::byte(datagram, 0)) {
        return Ok(());
    }
    Err(Refusal::FirstByte)
}

// Refusals 4, 5 and 6: the datagram's number is old or beyond reach, or the unsent are full; else the number. (They come before the
// frames, so the window is only asked here: the number joins it once all is accepted.)
#[tactic(auto, using(crate::proofs::Receiving::number_high, base::proofs::Ifs::ifs), unfolding(crate::specs::Receives::fresh_of))]
fn check_number(queue: &RecvQueue, datagram: &[u8]) -> Result<u32, Refusal>
    ensures { result ≡ fresh_of queue.now datagram.now }
{
    let number = base::le24_at(datagram, 1);
    if queue.datagrams.accepted(number) {
        return Err(Refusal::Old);
    }
    if base::WINDOW_PLACES < number - queue.datagrams.low {
        return Err(Refusal::Beyond);
    }
    if base::MAX_UNSENT <= queue.pending {
        return Err(Refusal::UnsentFull);
    }
    Ok(number)
}

// A refusal that was found while the frames were worked on: nothing of that work is left in the rows.
fn refuse(rows: &mut [Row], refusal: Refusal) -> Result<Received, Refusal>
    ensures is { result ≡ Err refusal }
    ensures rows { rows.new ≡ replicate (length rows.old) blank_row }
{
    rows.fill(rows::blank_row());
    Err(refusal)
}
