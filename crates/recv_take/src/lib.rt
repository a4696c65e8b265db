// Take on rows: document 01, "Take, earliest ready first".

#![tactic(auto)]

ghost use Rattle.std.specs.Prelude.{◌≡◌, ◌<◌, length, take};
ghost use Rattle.cells.specs.Cell.{ready_as, at};
ghost use Rattle.cells.specs.Records.{index_of};
ghost use Rattle.rows.specs.Rows.{cell_of, cells_in, whole_row};
ghost use Rattle.receiver.specs.Take.{take_of};
ghost use Rattle.recv_parts.specs.Parts.{queue_of};
ghost use Rattle.recv_take.specs.Outcome.{taken_rows, earliest_turn, outcome_at, take_rows_of};
ghost use Rattle.recv_take.specs.Pieces.{Takeable, take_turn};

mod message;

use base::Refusal;
use cells::CellRecord;
use message::Message;
use receiver::RecvQueue;
use recv_parts::Heads;
use rows::Row;

// Where a message's bytes stand: in its cell, a part of the store, or at the front of the joining buffer.
#[derive(Clone, Copy, Debug, PartialEq, Eq)]
pub enum Body {
    InStore { start: usize, len: usize },
    Joined { len: usize },
}

// A message handed back.
#[derive(Clone, Copy, Debug, PartialEq, Eq)]
pub struct Taken {
    pub kind: u8,
    pub channel: u8,
    pub order: u32,
    pub body: Body,
}

// turn: that of the message, so that its records can be freed.
#[derive(Clone, Copy, Debug, PartialEq, Eq)]
pub struct TakenRows {
    pub taken: Taken,
    pub turn: u32,
}

// Take over the first k rows, which are the first of so many cells' records, of a receiver that is lent by its parts: arrays of any length,
// since a take asks of the receiver only whether it is sound. The refusals are those of `take_over`.
#[tactic(auto, using(crate::proofs::ByParts::parts_take))]
pub fn take_rows(
    h: Heads,
    dbits: &[u8],
    rbits: &[u8],
    nexts: &[u32],
    unsent: &[u32],
    rows: &[Row],
    k: usize,
    cells: usize,
    store: &[u8],
    joined: &mut [u8],
) -> Result<TakenRows, Refusal>
    ensures { taken_rows result joined.new
        ≡ take_rows_of (queue_of h dbits.now rbits.now nexts.now unsent.now) cells
        (take k rows.now) store.now joined.old }
{
    let queue = recv_parts::queue_of(h, dbits, rbits, nexts, unsent);
    take_over(&queue, &rows[..k.min(rows.len())], cells, store, joined)
}

// Take over rows, which are the first of so many cells' records; they are only read. Refusals: 9 (NotSound), 20 (NoneReady), 12 (NoRoom).
// (`cells` stands beside the rows, and the lengths are tested although `take` did so before it loaded rows: an open function tells itself
// what it refuses, fewer cells than rows and lengths that do not fit.)
#[tactic(auto, using(crate::proofs::First::ways), unfolding(cells::specs::Sound::lengths))]
pub fn take_over(
    queue: &RecvQueue,
    rows: &[Row],
    cells: usize,
    store: &[u8],
    joined: &mut [u8],
) -> Result<TakenRows, Refusal>
    ensures { taken_rows result joined.new ≡ take_rows_of queue.now cells rows.now store.now
        joined.old }
{
    if !sound_call::lengths_fit(cells, store.len()) {
        return Err(Refusal::NotSound);
    }
    if cells < rows.len() {
        return Err(Refusal::NotSound);
    }
    take_part(queue, rows, &store[..base::CELL_BYTES * rows.len()], joined)
}

// Take over all rows and their cells.
#[tactic(auto, using(crate::proofs::Calls::ways))]
fn take_part(
    queue: &RecvQueue,
    rows: &[Row],
    store: &[u8],
    joined: &mut [u8],
) -> Result<TakenRows, Refusal>
    ensures { taken_rows result joined.new ≡ outcome_at (earliest_turn (cells_in rows.now))
        (take_of queue.now (cells_in rows.now) store.now joined.old) }
{
    if !sound_call::is_sound(queue, rows, store) {
        return Err(Refusal::NotSound);
    }
    let i = row_scans::first_ready(rows).ok_or(Refusal::NoneReady)?;
    take_turn(rows, i, store, joined)
}

// The ready message whose first cell is i: one body stays in its cell, several are joined in the buffer. (`as usize`: u32 has no From to
// it.)
#[tactic(auto, using(crate::proofs::Turns::ways, crate::proofs::Pieces::row_fits, rows::proofs::Rows::row_here))]
fn take_turn(rows: &[Row], i: usize, store: &[u8], joined: &mut [u8]) -> Result<TakenRows, Refusal>
    requires there { i < length rows.now }
    requires takeable { Takeable (cell_of (whole_row rows.now i)).turn (cells_in rows.now) store.now }
    requires i_value { i ≡ index_of (at (ready_as (cell_of (whole_row rows.now i)).turn) 0) (cells_in rows.now) }
    ensures { taken_rows result joined.new ≡ outcome_at (cell_of (whole_row rows.now i)).turn
        (take_turn (cell_of (whole_row rows.now i)).turn (cells_in rows.now) store.now joined.old) }
{
    let first = rows[i].cell;
    if first.count == 1 {
        let start = i * base::CELL_BYTES;
        let len = first.length as usize;
        return Ok(taken_by(first, Body::InStore { start, len }));
    }
    let message = Message {
        rows,
        store,
        turn: first.turn,
        count: first.count,
    };
    let len = message.len();
    if joined.len() < len {
        return Err(Refusal::NoRoom);
    }
    message.join(joined);
    Ok(taken_by(first, Body::Joined { len }))
}

// What a message's first record says of it, and its body. (`as u8`: sound records have a kind and a channel below 256.)
fn taken_by(first: CellRecord, body: Body) -> TakenRows
    requires kind { first.kind < 256 }
    requires channel { first.channel < 256 }
    ensures { result ≡ record {
      taken = record { kind = first.kind; channel = first.channel; order = first.order; body = body };
      turn = first.turn;
    } }
{
    let taken = Taken {
        kind: first.kind as u8,
        channel: first.channel as u8,
        order: first.order,
        body,
    };
    TakenRows {
        taken,
        turn: first.turn,
    }
}
