// Sweeps over the rows: the rows whose records pass a test are changed, and all others stay and are not written. (A must-fail edit costs a
// check of its whole crate, so this is a crate of its own.)

#![tactic(auto)]

ghost use Rattle.std.specs.Prelude.{◌≡◌, Bool};
ghost use Rattle.std.specs.Fn.{FnReturnsAt};
ghost use Rattle.base.specs.Lists.{any, count_of};
ghost use Rattle.cells.specs.declared.CellRecord.{CellRecord};
ghost use Rattle.cells.specs.Cell.{open_as, held_as, bears, ready_use};
ghost use Rattle.rows.specs.declared.Row.{Row};
ghost use Rattle.rows.specs.Rows.{cell_of, cells_in, mark_row, age_row, change_rows};

use row_tests::{is_held, is_open};
use rows::{Row, age_row, mark_row};

// The rows that pass are changed. How many are they?
fn sweep<P: Fn(&Row) -> bool, G: Fn(Row) -> Row>(rows: &mut [Row], test: P, change: G) -> usize
    requires test { P.IsAlwaysCallable test }
    requires change { G.IsAlwaysCallable change }
    ensures many { (p : CellRecord → Bool) → ((r : Row) (b : Bool) → FnReturnsAt P.Fn test r b → b ≡ p (cell_of r))
        → result ≡ count_of p (cells_in rows.old) }
    ensures is { (p : CellRecord → Bool) (g : Row → Row)
        → ((r : Row) (b : Bool) → FnReturnsAt P.Fn test r b → b ≡ p (cell_of r))
        → ((r q : Row) → G.post change r q → q ≡ g r)
        → rows.new ≡ change_rows p g rows.old }
{
    let mut n: usize = 0;
    for r in rows.iter_mut() {
        let passes = test(r);
        if passes {
            *r = change(*r);
        }
        n += usize::from(passes);
    }
    n
}

// The cells of the open message of this id get another use and turn.
pub fn turn_open(rows: &mut [Row], id: u32, used: u32, turn: u32)
    ensures { rows.new ≡ change_rows (bears (open_as id)) (mark_row used turn) rows.old }
{
    sweep(rows, |r| is_open(&r.cell, id), |r| mark_row(r, used, turn));
}

// The cells of the held message of this channel and order number become ready, with this turn. Was there one?
#[tactic(auto, using(crate::proofs::Sweeps::any_counted))]
pub fn turn_held(rows: &mut [Row], channel: u32, order: u32, turn: u32) -> bool
    ensures held { result ≡ any (bears (held_as channel order)) (cells_in rows.old) }
    ensures is { rows.new ≡ change_rows (bears (held_as channel order)) (mark_row ready_use turn) rows.old }
{
    let n = sweep(
        rows,
        |r| is_held(&r.cell, channel, order),
        |r| mark_row(r, cells::READY, turn),
    );
    n != 0
}

// The cells of the open message of this id get age 0: a piece of it is kept. How many are they?
pub fn renew_open(rows: &mut [Row], id: u32) -> usize
    ensures many { result ≡ count_of (bears (open_as id)) (cells_in rows.old) }
    ensures is { rows.new ≡ change_rows (bears (open_as id)) (age_row 0) rows.old }
{
    sweep(rows, |r| is_open(&r.cell, id), |r| age_row(r, 0))
}
