// Rows filled from an image, one after the other: open pieces, held messages, ready messages.
ghost use Rattle.std.specs.Prelude.{◌≡◌, ◌+◌, ◌≤◌, ◌<◌, length};
ghost use Rattle.base.specs.Limits.{max_cells};
ghost use Rattle.image.specs.Slots.{piece_slot, message_slots};
ghost use Rattle.image_read.specs.At.{place_after, values_at, body_at, body_end, piece_at, piece_end, message_at, message_end};
ghost use Rattle.image_read.specs.At.{pieces_place, held_place, ready_place, section_end, image_at};
ghost use Rattle.recv_restore.specs.Fits.{Each, cells_of_each, PieceFits, PieceCan, piece_next, piece_cells};
ghost use Rattle.recv_restore.specs.Fits.{PartCan, part_next, part_with, part_cells, HeadFits, MessageFits, HeldCan, held_next, held_cells};
ghost use Rattle.recv_restore.specs.Fits.{ReadyCan, ready_next, ready_cells};
ghost use Rattle.recv_restore.specs.Filling.{Fills, TestOf, RowOf, PutRow, Cells};

use cells::CellRecord;
use rows::Row;

// How far the rows are filled: the place in the image, and how many rows are used.
#[derive(Clone, Copy, Debug, PartialEq, Eq)]
pub struct Filled {
    place: usize,
    used: usize,
}

// A message whose rows are filled: where it stands in the image, what its rows are used for, and its turn.
#[derive(Clone, Copy, Debug, PartialEq, Eq)]
struct Closed {
    place: usize,
    used: u32,
    turn: u32,
}

// ---- open pieces

// Do its values fit into a record, and its body into a cell?
fn piece_fits(s: &[u8], p: usize) -> bool
    requires near { p ≤ 67108864 }
    requires within { piece_end s.now p ≤ length s.now }
    ensures { TestOf result (PieceFits (piece_at s.now p)) }
{
    super::are_narrow(s, p, 7) && base::be64_at(s, p + 64) <= base::CELL_BYTES as u64
}

// (`as u32`: the place is at most 2^26.)
fn piece_row(s: &[u8], p: usize) -> Row
    requires near { p ≤ 67108864 }
    requires within { piece_end s.now p ≤ length s.now }
    ensures { PieceFits (piece_at s.now p) → RowOf s.now (p + 72) (piece_slot (piece_at s.now p)) result }
{
    let cell = CellRecord {
        used: cells::OPEN,
        kind: super::low(s, p + 24),
        channel: super::low(s, p + 48),
        id: super::low(s, p),
        index: super::low(s, p + 8),
        count: super::low(s, p + 16),
        length: super::low(s, p + 64),
        sequence: super::low(s, p + 32),
        order: super::low(s, p + 40),
        turn: 0,
        age: base::be64_at(s, p + 56),
    };
    Row {
        cell,
        place: p as u32 + 73,
    }
}

// A row that takes the next place; none where no row is left. Its body ends at `end` of the image.
fn put_row(rows: &mut [Row], at: Filled, row: Row, end: usize) -> Option<Filled>
    ensures { PutRow rows.old at row end rows.new result }
{
    if at.used < rows.len() {
        rows[at.used] = row;
        return Some(Filled {
            place: end,
            used: at.used + 1,
        });
    }
    None
}

// The piece at the place, where its rank is not below the least.
fn fill_piece(rows: &mut [Row], s: &[u8], at: Filled, least: u64) -> Option<Filled>
    requires near { at.place ≤ 67108864 }
    requires within { piece_end s.now at.place ≤ length s.now }
    ensures { Fills 1600 (PieceCan least (piece_at s.now at.place)) (piece_cells least (piece_at s.now at.place))
        (piece_end s.now at.place) s.now rows.old at rows.new result }
{
    let p = at.place;
    if !piece_fits(s, p) {
        return None;
    }
    if super::rank(s, p, 1024, p + 8) < least {
        return None;
    }
    let row = piece_row(s, p);
    put_row(rows, at, row, p + 72 + row.cell.length as usize)
}

// n pieces from the place on.
fn fill_pieces(rows: &mut [Row], s: &[u8], from: Filled, n: u32) -> Option<Filled>
    requires near { from.place ≤ 33554432 }
    requires rows_bound { length rows.old ≤ max_cells }
    requires room { from.used ≤ length rows.old }
    requires within { place_after (piece_end s.now) n from.place ≤ length s.now }
    ensures { let es = values_at (piece_at s.now) (piece_end s.now) n from.place in Fills 1600 (Each PieceCan piece_next 0 es)
        (cells_of_each piece_cells piece_next 0 es) (place_after (piece_end s.now) n from.place) s.now rows.old from rows.new result }
{
    let mut at = from;
    let mut least = 0;
    for _ in 0..n {
        let next = fill_piece(rows, s, at, least)?;
        least = super::rank(s, at.place, 1024, at.place + 8) + 1;
        at = next;
    }
    Some(at)
}

// ---- held and ready messages

// Do a message's values fit into records, and are its bodies 1 to 1,024?
fn head_fits(s: &[u8], p: usize) -> bool
    requires { p ≤ 67108864 }
    ensures { TestOf result (HeadFits (message_at s.now p)) }
{
    let n = base::be64_at(s, p + 24);
    super::are_narrow(s, p, 3) & (1 <= n) & (n <= u64::from(base::MAX_FRAGS))
}

// The row of the body at p, which is the message's body of this index. (`as u32`: the place is at most 2^27.)
fn part_row(s: &[u8], m: Closed, p: usize, index: u32) -> Row
    requires head { HeadFits (message_at s.now m.place) }
    requires near { (p ≤ 134217728) × (m.place ≤ 67108864) }
    requires within { body_end s.now p ≤ length s.now }
    ensures { PartCan index (body_at s.now p)
        → RowOf s.now (p + 8) (part_with m.used m.turn (message_at s.now m.place) index (body_at s.now p)) result }
{
    let cell = CellRecord {
        used: m.used,
        kind: super::low(s, m.place + 16),
        channel: super::low(s, m.place),
        id: 0,
        index,
        count: super::low(s, m.place + 24),
        length: super::low(s, p),
        sequence: 0,
        order: super::low(s, m.place + 8),
        turn: m.turn,
        age: 0,
    };
    Row {
        cell,
        place: p as u32 + 9,
    }
}

fn fill_part(rows: &mut [Row], s: &[u8], m: Closed, at: Filled, index: u32) -> Option<Filled>
    requires head { HeadFits (message_at s.now m.place) }
    requires in_use { 0 < m.used }
    requires near { (at.place ≤ 134217728) × (m.place ≤ 67108864) }
    requires within { body_end s.now at.place ≤ length s.now }
    ensures { Fills 1508 (PartCan index (body_at s.now at.place))
        (part_cells m.used m.turn (message_at s.now m.place) index (body_at s.now at.place))
        (body_end s.now at.place) s.now rows.old at rows.new result }
{
    if (base::CELL_BYTES as u64) < base::be64_at(s, at.place) {
        return None;
    }
    let row = part_row(s, m, at.place, index);
    put_row(rows, at, row, at.place + 8 + row.cell.length as usize)
}

// The message's n bodies, from the place on.
fn fill_parts(rows: &mut [Row], s: &[u8], m: Closed, from: Filled, n: u32) -> Option<Filled>
    requires head { HeadFits (message_at s.now m.place) }
    requires in_use { 0 < m.used }
    requires near { (from.place ≤ 67108896) × (m.place ≤ 67108864) }
    requires rows_bound { length rows.old ≤ max_cells }
    requires room { from.used ≤ length rows.old }
    requires within { place_after (body_end s.now) n from.place ≤ length s.now }
    ensures { let bs = values_at (body_at s.now) (body_end s.now) n from.place in Fills 1508 (Each PartCan part_next 0 bs)
        (cells_of_each (part_cells m.used m.turn (message_at s.now m.place)) part_next 0 bs)
        (place_after (body_end s.now) n from.place) s.now rows.old from rows.new result }
{
    let mut at = from;
    for index in 0..n {
        at = fill_part(rows, s, m, at, index)?;
    }
    Some(at)
}

// The message at the place.
fn fill_message(rows: &mut [Row], s: &[u8], at: Filled, used: u32, turn: u32) -> Option<Filled>
    requires in_use { 0 < used }
    requires near { at.place ≤ 67108864 }
    requires rows_bound { length rows.old ≤ max_cells }
    requires room { at.used ≤ length rows.old }
    requires within { message_end s.now at.place ≤ length s.now }
    ensures { Fills 1600 (MessageFits (message_at s.now at.place)) (message_slots used turn (message_at s.now at.place))
        (message_end s.now at.place) s.now rows.old at rows.new result }
{
    if !head_fits(s, at.place) {
        return None;
    }
    let m = Closed {
        place: at.place,
        used,
        turn,
    };
    let from = Filled {
        place: at.place + 32,
        used: at.used,
    };
    fill_parts(rows, s, m, from, super::low(s, at.place + 24))
}

// The held message at the place, where its rank is not below the least.
fn fill_one_held(rows: &mut [Row], s: &[u8], at: Filled, least: u64) -> Option<Filled>
    requires near { at.place ≤ 67108864 }
    requires rows_bound { length rows.old ≤ max_cells }
    requires room { at.used ≤ length rows.old }
    requires within { message_end s.now at.place ≤ length s.now }
    ensures { Fills 1600 (HeldCan least (message_at s.now at.place)) (held_cells least (message_at s.now at.place))
        (message_end s.now at.place) s.now rows.old at rows.new result }
{
    if super::rank(s, at.place, 16777216, at.place + 8) < least {
        return None;
    }
    fill_message(rows, s, at, cells::HELD, 0)
}

// n held messages from the place on.
fn fill_held(rows: &mut [Row], s: &[u8], from: Filled, n: u32) -> Option<Filled>
    requires near { from.place ≤ 33554432 }
    requires rows_bound { length rows.old ≤ max_cells }
    requires room { from.used ≤ length rows.old }
    requires within { place_after (message_end s.now) n from.place ≤ length s.now }
    ensures { let es = values_at (message_at s.now) (message_end s.now) n from.place in Fills 1600 (Each HeldCan held_next 0 es)
        (cells_of_each held_cells held_next 0 es) (place_after (message_end s.now) n from.place) s.now rows.old from rows.new result }
{
    let mut at = from;
    let mut least = 0;
    for _ in 0..n {
        let next = fill_one_held(rows, s, at, least)?;
        least = super::rank(s, at.place, 16777216, at.place + 8) + 1;
        at = next;
    }
    Some(at)
}

// n ready messages from the place on: the turns are 0, 1, ..
fn fill_ready(rows: &mut [Row], s: &[u8], from: Filled, n: u32) -> Option<Filled>
    requires near { from.place ≤ 33554432 }
    requires rows_bound { length rows.old ≤ max_cells }
    requires room { from.used ≤ length rows.old }
    requires within { place_after (message_end s.now) n from.place ≤ length s.now }
    ensures { let es = values_at (message_at s.now) (message_end s.now) n from.place in Fills 1600 (Each ReadyCan ready_next 0 es)
        (cells_of_each ready_cells ready_next 0 es) (place_after (message_end s.now) n from.place) s.now rows.old from rows.new result }
{
    let mut at = from;
    for turn in 0..n {
        at = fill_message(rows, s, at, cells::READY, turn)?;
    }
    Some(at)
}

// ---- all cells

// The open pieces' section stands at p.
pub(crate) fn fill_cells(rows: &mut [Row], s: &[u8], p: usize) -> Option<Filled>
    requires place { p ≡ pieces_place s.now }
    requires near { p ≤ 20000 }
    requires rows_bound { length rows.old ≤ max_cells }
    requires held { held_place s.now ≤ length s.now }
    requires ready { ready_place s.now ≤ length s.now }
    requires end { section_end s.now (message_end s.now) (ready_place s.now) ≤ length s.now }
    ensures { Cells (image_at s.now) s.now rows.old rows.new result }
{
    let pieces = Filled {
        place: p + 4,
        used: 0,
    };
    let a = fill_pieces(rows, s, pieces, base::be32_at(s, p))?;
    let held = Filled {
        place: a.place + 4,
        used: a.used,
    };
    let b = fill_held(rows, s, held, base::be32_at(s, a.place))?;
    let ready = Filled {
        place: b.place + 4,
        used: b.used,
    };
    fill_ready(rows, s, ready, base::be32_at(s, b.place))
}
