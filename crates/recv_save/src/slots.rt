// The cells: one after the other, in the order of the used rows' sorted entries.
ghost use Rattle.std.specs.Prelude.{◌≡◌, ◌+◌, ◌*◌, ◌%◌, ◌<◌, ◌≤◌, length};
ghost use Rattle.base.specs.Lists.{count_of};
ghost use Rattle.base.specs.Limits.{cell_bytes, max_cells};
ghost use Rattle.base.specs.Put.{Run};
ghost use Rattle.rows.specs.Rows.{cells_in};
ghost use Rattle.recv_save.specs.Each.{each_bytes};
ghost use Rattle.recv_save.specs.Slots.{body_bytes, four_bytes, piece_bytes, part_bytes, slot_bytes, key_rank, entry_of, own_entry};
ghost use Rattle.recv_save.specs.Slots.{entries_from, body_at, entry_bytes, begins, section_bytes, cells_bytes};

use crate::put_number;
use cells::CellRecord;
use rows::Row;

// An entry has a cell's message and index, and the number of its row. (`as u64`: a const can call no From.)
const ROWS: u64 = base::MAX_CELLS as u64;

const FRAGS: u64 = base::MAX_FRAGS as u64;

// What the keys of held messages begin with, and those of ready ones.
const HELD_KEYS: u64 = 4294967296;

const READY_KEYS: u64 = 8589934592;

// (`as usize`: it is below 4,096.)
fn row_number(entry: u64) -> usize
    ensures { result ≡ entry % max_cells }
{
    (entry % ROWS) as usize
}

// A message's key as a number. (A lent record may hold any channel and order number: the remainders keep an entry within 64 bits.)
#[tactic(auto, unfolding(crate::specs::Slots::key_rank, base::specs::If::if_eq, base::specs::If::if_true))]
fn key(c: &CellRecord) -> u64
    ensures { (result ≡ key_rank c.now) × (result < 12884901888) }
{
    if c.used == cells::OPEN {
        return u64::from(c.id);
    }
    if c.used == cells::HELD {
        let channel = u64::from(c.channel % u32::from(base::MAX_ORD_CHANS));
        let order = u64::from(c.order % base::NUMBERS_24);
        return HELD_KEYS + (channel * u64::from(base::NUMBERS_24) + order);
    }
    READY_KEYS + u64::from(c.turn)
}

// (`as u64`: usize has no From to it.)
#[tactic(auto, unfolding(crate::specs::Slots::entry_of, crate::specs::Slots::rank))]
fn entry_of(i: usize, c: &CellRecord) -> u64
    ensures { result ≡ entry_of i c.now }
{
    (key(c) * FRAGS + u64::from(c.index) % FRAGS) * ROWS + i as u64 % ROWS
}

// The entry of row i, where it is used.
fn put_own(entries: &mut [u64], to: usize, i: usize, c: &CellRecord) -> usize
    ensures { Run to (own_entry i c.now) entries.old result entries.new }
{
    if c.used == cells::UNUSED {
        return to;
    }
    base::put(entries, to, entry_of(i, c))
}

// The used rows' entries; how many there are.
pub(crate) fn gather(rows: &[Row], entries: &mut [u64]) -> usize
    ensures { Run 0 (entries_from 0 rows.now) entries.old result entries.new }
{
    let mut k: usize = 0;
    for (i, r) in rows.iter().enumerate() {
        k = put_own(entries, k, i, &r.cell);
    }
    k
}

// The body of row i, whose record is c. (Past the store's end there is nothing, as the definition reads it. `as usize`: u32 has no From
// to it.)
fn body_at<'a>(store: &'a [u8], i: usize, c: &CellRecord) -> &'a [u8]
    requires { i < max_cells }
    ensures is { result.now ≡ body_at store.now i c.now }
    ensures short { length result.now ≤ cell_bytes }
{
    let start = (i * base::CELL_BYTES).min(store.len());
    let rest = &store[start..];
    let len = (c.length as usize).min(base::CELL_BYTES).min(rest.len());
    &rest[..len]
}

fn put_body(out: &mut [u8], to: usize, body: &[u8]) -> usize
    ensures { Run to (body_bytes body.now) out.old result out.new }
{
    let a = base::put64(out, to, body.len() as u64);
    base::put_all(out, a, body)
}

fn put_four(out: &mut [u8], to: usize, a: u32, b: u32, c: u32, d: u32) -> usize
    ensures { Run to (four_bytes a b c d) out.old result out.new }
{
    let p = put_number(out, to, a);
    let q = put_number(out, p, b);
    let r = put_number(out, q, c);
    put_number(out, r, d)
}

fn put_piece(out: &mut [u8], to: usize, c: &CellRecord, body: &[u8]) -> usize
    ensures { Run to (piece_bytes c.now body.now) out.old result out.new }
{
    let a = put_four(out, to, c.id, c.index, c.count, c.kind);
    let b = put_number(out, a, c.sequence);
    let d = put_number(out, b, c.order);
    let e = put_number(out, d, c.channel);
    let f = base::put64(out, e, c.age);
    put_body(out, f, body)
}

// Before a message's first body stands what the message has but its bodies.
fn put_part(out: &mut [u8], to: usize, c: &CellRecord, body: &[u8]) -> usize
    ensures { Run to (part_bytes c.now body.now) out.old result out.new }
{
    if c.index != 0 {
        return put_body(out, to, body);
    }
    let a = put_four(out, to, c.channel, c.order, c.kind, c.count);
    put_body(out, a, body)
}

// The cell's bytes, where it has this use.
fn put_slot(out: &mut [u8], to: usize, used: u32, c: &CellRecord, body: &[u8]) -> usize
    ensures { Run to (slot_bytes used c.now body.now) out.old result out.new }
{
    if c.used != used {
        return to;
    }
    if used == cells::OPEN {
        return put_piece(out, to, c, body);
    }
    put_part(out, to, c, body)
}

fn slot_len(used: u32, c: &CellRecord, body: &[u8]) -> usize
    requires { length body.now ≤ cell_bytes }
    ensures is { result ≡ length (slot_bytes used c.now body.now) }
    ensures short { result ≤ 1572 }
{
    if c.used != used {
        return 0;
    }
    if used == cells::OPEN {
        return 72 + body.len();
    }
    if c.index != 0 {
        return 8 + body.len();
    }
    40 + body.len()
}

fn put_entry(out: &mut [u8], to: usize, used: u32, rows: &[Row], store: &[u8], entry: u64) -> usize
    ensures { Run to (entry_bytes used rows.now store.now entry) out.old result out.new }
{
    let i = row_number(entry);
    let c = rows::whole_row(rows, i).cell;
    put_slot(out, to, used, &c, body_at(store, i, &c))
}

fn entry_len(used: u32, rows: &[Row], store: &[u8], entry: u64) -> usize
    ensures is { result ≡ length (entry_bytes used rows.now store.now entry) }
    ensures short { result ≤ 1572 }
{
    let i = row_number(entry);
    let c = rows::whole_row(rows, i).cell;
    slot_len(used, &c, body_at(store, i, &c))
}

fn put_entries(
    out: &mut [u8],
    to: usize,
    used: u32,
    rows: &[Row],
    store: &[u8],
    order: &[u64],
) -> usize
    ensures { Run to (each_bytes (entry_bytes used rows.now store.now) order.now) out.old result out.new }
{
    let mut p = to;
    for entry in order {
        p = put_entry(out, p, used, rows, store, *entry);
    }
    p
}

fn entries_len(used: u32, rows: &[Row], store: &[u8], order: &[u64]) -> usize
    requires { length order.now ≤ max_cells }
    ensures is { result ≡ length (each_bytes (entry_bytes used rows.now store.now) order.now) }
    ensures short { result ≤ 1572 * max_cells }
{
    let mut n: usize = 0;
    for entry in order {
        n += entry_len(used, rows, store, *entry);
    }
    n
}

// Does an entry of the section of this use begin with this cell?
#[tactic(auto, unfolding(crate::specs::Slots::begins))]
fn begins(used: u32, c: &CellRecord) -> bool
    ensures { result ≡ begins used c.now }
{
    (c.used == used) & ((used == cells::OPEN) | (c.index == 0))
}

fn count_entries(used: u32, rows: &[Row]) -> u32
    requires { length rows.now ≤ max_cells }
    ensures { result ≡ count_of (begins used) (cells_in rows.now) }
{
    let mut n: u32 = 0;
    for r in rows {
        n += u32::from(begins(used, &r.cell));
    }
    n
}

fn put_section(
    out: &mut [u8],
    to: usize,
    used: u32,
    rows: &[Row],
    store: &[u8],
    order: &[u64],
) -> usize
    requires { length rows.now ≤ max_cells }
    ensures { Run to (section_bytes used rows.now store.now order.now) out.old result out.new }
{
    let a = base::put32(out, to, count_entries(used, rows));
    put_entries(out, a, used, rows, store, order)
}

pub(crate) fn put_cells(
    out: &mut [u8],
    to: usize,
    rows: &[Row],
    store: &[u8],
    order: &[u64],
) -> usize
    requires { length rows.now ≤ max_cells }
    ensures { Run to (cells_bytes rows.now store.now order.now) out.old result out.new }
{
    let a = put_section(out, to, cells::OPEN, rows, store, order);
    let b = put_section(out, a, cells::HELD, rows, store, order);
    put_section(out, b, cells::READY, rows, store, order)
}

pub(crate) fn cells_len(rows: &[Row], store: &[u8], order: &[u64]) -> usize
    requires { length order.now ≤ max_cells }
    ensures is { result ≡ length (cells_bytes rows.now store.now order.now) }
    ensures short { result ≤ 12 + 1572 * max_cells * 3 }
{
    12 + entries_len(cells::OPEN, rows, store, order)
        + entries_len(cells::HELD, rows, store, order)
        + entries_len(cells::READY, rows, store, order)
}
