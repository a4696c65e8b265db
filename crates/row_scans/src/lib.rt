// Scans of the rows: the first, any or how many of the cells' records that pass a test. (A must-fail edit costs a check of its whole
// crate, so this is a crate of its own.)

#![tactic(auto)]

ghost use Rattle.std.specs.Prelude.{◌≡◌, Bool, length};
ghost use Rattle.std.specs.Fn.{FnReturnsAt};
ghost use Rattle.base.specs.Lists.{any, count_of};
ghost use Rattle.cells.specs.declared.CellRecord.{CellRecord};
ghost use Rattle.cells.specs.Ages.{is_stale};
ghost use Rattle.cells.specs.Cell.{held_as, ready_as, bears, at};
ghost use Rattle.cells.specs.Records.{unused_at, clashes, first_cell, index_of};
ghost use Rattle.rows.specs.declared.Row.{Row};
ghost use Rattle.rows.specs.Rows.{cell_of, cells_in};
ghost use Rattle.row_scans.specs.Ready.{first_ready, FoundAt};

use row_tests::{is_clash, is_first, is_held, is_ready_at, is_stale, is_used_as};
use rows::Row;

// The lowest-numbered unused cell.
pub fn first_unused(rows: &[Row]) -> Option<usize>
    ensures { FoundAt result (unused_at (cells_in rows.now)) (length rows.now) }
{
    rows.iter().position(|r| is_used_as(&r.cell, cells::UNUSED))
}

// The ready message's cell of this index.
pub fn find_ready(rows: &[Row], turn: u32, index: u32) -> Option<usize>
    ensures { FoundAt result (index_of (at (ready_as turn) index) (cells_in rows.now)) (length rows.now) }
{
    rows.iter().position(|r| is_ready_at(&r.cell, turn, index))
}

// Does any row pass? The iterator's `any` is slower: LLVM then makes a branch of each part of a test.
fn any_row<F: Fn(&Row) -> bool>(rows: &[Row], test: F) -> bool
    requires { F.IsAlwaysCallable test }
    ensures { (p : CellRecord → Bool) → ((r : Row) (b : Bool) → FnReturnsAt F.Fn test r b → b ≡ p (cell_of r))
        → result ≡ any p (cells_in rows.now) }
{
    for r in rows {
        if test(r) {
            return true;
        }
    }
    false
}

// May a not be kept beside the open pieces?
pub fn any_clash(rows: &[Row], a: &Row) -> bool
    ensures { result ≡ any (clashes (cell_of a.now)) (cells_in rows.now) }
{
    any_row(rows, |r| is_clash(&a.cell, &r.cell))
}

// Is a message held under this channel and order number?
pub fn any_held(rows: &[Row], channel: u32, order: u32) -> bool
    ensures { result ≡ any (bears (held_as channel order)) (cells_in rows.now) }
{
    any_row(rows, |r| is_held(&r.cell, channel, order))
}

// How many rows pass? (A sum of the tests, or `filter` and `count`, takes half as many instructions again: 8.7 and 8.4 a row, this 5.7.)
fn count_rows<F: Fn(&Row) -> bool>(rows: &[Row], test: F) -> usize
    requires { F.IsAlwaysCallable test }
    ensures { (p : CellRecord → Bool) → ((r : Row) (b : Bool) → FnReturnsAt F.Fn test r b → b ≡ p (cell_of r))
        → result ≡ count_of p (cells_in rows.now) }
{
    let mut n: usize = 0;
    for r in rows {
        n += usize::from(test(r));
    }
    n
}

// How many messages are ready?
pub fn count_first(rows: &[Row]) -> usize
    ensures { result ≡ count_of first_cell (cells_in rows.now) }
{
    count_rows(rows, |r| is_first(&r.cell))
}

// How many cells have the unfinished messages that are dropped, since more than n datagrams were accepted after their last kept piece?
pub fn count_stale(rows: &[Row], n: u32) -> usize
    ensures { result ≡ count_of (is_stale n) (cells_in rows.now) }
{
    count_rows(rows, |r| is_stale(&r.cell, n))
}

// The first cell of the ready message with the least turn.
pub fn first_ready(rows: &[Row]) -> Option<usize>
    ensures { FoundAt result (first_ready (cells_in rows.now)) (length rows.now) }
{
    rows.iter()
        .enumerate()
        .filter(|p| is_first(&p.1.cell))
        .min_by_key(|p| p.1.cell.turn)
        .map(|p| p.0)
}
