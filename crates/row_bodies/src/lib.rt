// Bodies copied into the store from the bytes that are worked on, a datagram's or an image's, and the rows settled.

#![tactic(auto)]

ghost use Rattle.std.specs.Prelude.{◌≡◌};
ghost use Rattle.row_slots.specs.Slots.{is_placed};
ghost use Rattle.row_bodies.specs.Flush.{flushed_row, flushed_rows, stored, settled, settled_rows};

use rows::Row;

// The row's body stands in the store. A row whose body stands there already is not written.
#[tactic(auto, unfolding(crate::specs::Flush::stored))]
pub fn clear_place(r: &mut Row)
    ensures { r.new ≡ stored r.old }
{
    if r.place != 0 {
        r.place = 0;
    }
}

#[tactic(auto, unfolding(row_slots::specs::Slots::is_placed))]
fn is_placed(r: &Row) -> bool
    ensures { result ≡ is_placed r.now }
{
    (r.cell.used != cells::UNUSED) & (r.place != 0)
}

// The row's body, where it is still in the bytes, copied into cell i of the store: as far as there are bytes, and as the store goes.
// (`as usize`: u32 has no From to it.)
#[tactic(auto, using(crate::proofs::Flushing::placed_there, crate::proofs::Flushing::row_kept, crate::proofs::Flushing::row_copied))]
fn flush_row(store: &mut [u8], i: usize, r: &Row, bytes: &[u8])
    ensures { store.new ≡ flushed_row i r.now store.old bytes.now }
{
    if is_placed(r) {
        let from = bytes.len().min(r.place as usize - 1);
        let end = bytes.len().min(from + r.cell.length as usize);
        base::put_all(store, i.saturating_mul(base::CELL_BYTES), &bytes[from..end]);
    }
}

// The row's body is in the store from now on; a late join's row is free.
#[tactic(auto, using(crate::proofs::Flushing::settled_late, crate::proofs::Flushing::settled_kept))]
fn settle_row(r: &mut Row)
    ensures { r.new ≡ settled r.old }
{
    if r.cell.used == cells::RELEASED {
        *r = rows::blank_row();
    } else {
        clear_place(r);
    }
}

// Every body that stands in the bytes copied into the store, and every row settled. (A cell's bytes are found by the row's number: of
// `chunks_exact_mut` a proof learns no element.)
pub fn settle(rows: &mut [Row], store: &mut [u8], bytes: &[u8])
    ensures rows { rows.new ≡ settled_rows rows.old }
    ensures store { store.new ≡ flushed_rows 0 rows.old store.old bytes.now }
{
    for (i, r) in rows.iter_mut().enumerate() {
        flush_row(store, i, r, bytes);
        settle_row(r);
    }
}
