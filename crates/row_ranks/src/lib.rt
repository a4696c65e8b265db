// The ready messages' turns become 0, 1, 2, .. in their order, and their ages 0. Mostly the turns follow one another, since a take frees
// the least one, and the ages are 0: then each turn is lowered by the least, and nothing is written where that is 0. Else a rank is counted
// over the turns as they were, so these are copied first, one for each ready message. Copy and marks are local arrays for as many rows as
// document 01 has cells. More rows are left as they are: a count of them all need not fit a turn. (Arrays and no `Vec`: the receiver has no
// heap. A must-fail edit costs a check of its whole crate, so this is a crate of its own.)

#![tactic(auto)]

ghost use Rattle.std.specs.Prelude.{ℕ, ◌≡◌, true, false, ◌++◌, ◌<◌, ◌≤◌, length, drop, IfSome, MatchOption};
ghost use Rattle.base.specs.Limits.{max_cells};
ghost use Rattle.base.specs.Lists.{count_of};
ghost use Rattle.rows.specs.declared.Row.{Row};
ghost use Rattle.rows.specs.Rows.{cell_of, cells_in, mark_row, change_rows};
ghost use Rattle.row_tests.specs.Uses.{uses};
ghost use Rattle.row_ranks.specs.Renumber as Renumber;
ghost use Rattle.row_ranks.specs.Renumber.{renumbered, with_turn, is_new, marked_with, gapless, Surveyed, lowered, first_turns, is_below};
ghost use Rattle.row_ranks.specs.Renumber.{rank_row};
ghost use Rattle.cells.specs.Cell.{ready_use};

use row_tests::{is_first, is_used_as};
use rows::{Row, mark_row};
use std::mem;

// Up to so many rows few marks are enough.
const FEW_ROWS: usize = 64;

// How many first cells of ready messages there are, and of all ready cells the least and the greatest turn (the greatest is the less where
// none is ready: an `Option` of the two would be asked at each ready cell whether it is the first).
#[derive(Clone, Copy, Debug, PartialEq, Eq)]
struct Turns {
    firsts: u32,
    least: u32,
    top: u32,
}

// With one more ready cell.
#[tactic(auto, using(rows::proofs::Tests::byte_is), unfolding(crate::specs::Renumber::with_turn))]
fn with_turn(t: Turns, r: &Row) -> Turns
    requires { t.firsts ≤ max_cells }
    ensures { result ≡ with_turn t (cell_of r.now) }
{
    Turns {
        firsts: t.firsts + u32::from(r.cell.index == 0),
        least: t.least.min(r.cell.turn),
        top: t.top.max(r.cell.turn),
    }
}

// Is this a first cell of a turn whose mark is not set, or no first cell? The mark is set. Turns share a mark where their remainders are
// equal. (`as usize`: u32 has no From to it.)
#[tactic(auto, using(crate::proofs::Surveys::marking))]
fn is_new(marks: &mut [bool], r: &Row) -> bool
    requires { 0 < length marks.old }
    ensures is { result ≡ is_new marks.old (cell_of r.now) }
    ensures marks { marks.new ≡ marked_with marks.old (cell_of r.now) }
{
    if r.cell.index == 0 {
        let at = r.cell.turn as usize % marks.len();
        return !mem::replace(&mut marks[at], true);
    }
    true
}

// What is told only where the first cells' turns are known to differ, and the ready cells' ages are 0. (That the rows are few, here and
// below, `renumber` tests once: no type of a slice says it.)
fn survey(rows: &[Row], marks: &mut [bool]) -> Option<Turns>
    requires { (0 < length marks.old) × (length rows.now ≤ max_cells) }
    ensures { IfSome result (Surveyed (cells_in rows.now)) }
{
    let mut t = Turns {
        firsts: 0,
        least: u32::MAX,
        top: 0,
    };
    for r in rows {
        if is_used_as(&r.cell, cells::READY) {
            let new = is_new(marks, r);
            if new & (r.cell.age == 0) {
                t = with_turn(t, r);
            } else {
                return None;
            }
        }
    }
    Some(t)
}

// By how much each turn is above its rank, where the first cells' turns, if they differ, are all from the least to the greatest. Where none
// is ready, too.
#[tactic(auto, using(crate::proofs::Surveys::gaps))]
fn excess(t: Turns) -> Option<u32>
    ensures { MatchOption result (gapless t ≡ false) (λ by. (gapless t ≡ true) × (by ≡ Renumber.excess t)) }
{
    if t.top < t.least {
        return Some(0);
    }
    if t.firsts == 0 {
        return None;
    }
    (t.top - t.least == t.firsts - 1).then_some(t.least)
}

// Each ready cell's turn becomes what turn_of makes of it. (row_sweeps' `sweep` is this with any test, and counts; but it is private: it
// asks that its closures can be called, and a function of the receiver that is open asks nothing.)
fn turn_ready<F: Fn(u32) -> u32>(rows: &mut [Row], turn_of: F)
    requires { F.IsAlwaysCallable turn_of }
    ensures { (g : Row → Row) → ((r : Row) (turn : ℕ) → F.post turn_of r.cell.turn turn → mark_row ready_use turn r ≡ g r)
        → rows.new ≡ change_rows (uses ready_use) g rows.old }
{
    for r in rows.iter_mut() {
        if is_used_as(&r.cell, cells::READY) {
            *r = mark_row(*r, cells::READY, turn_of(r.cell.turn));
        }
    }
}

#[tactic(auto, using(base::proofs::Ifs::ifs), unfolding(crate::specs::Renumber::lowered, crate::specs::Renumber::lower_row))]
fn lower_all(rows: &mut [Row], by: u32)
    ensures { rows.new ≡ lowered by rows.old }
{
    if by != 0 {
        turn_ready(rows, |turn| turn.saturating_sub(by));
    }
}

// The turns of the first cells of ready messages go to the front of turns; how many there are. (A `zip` with `iter_mut` tells a proof how
// many turns there are, and not what they become.)
fn copy_firsts(rows: &[Row], turns: &mut [u32]) -> usize
    requires { length rows.now ≤ length turns.old }
    ensures count { result ≡ length (first_turns (cells_in rows.now)) }
    ensures few { result ≤ length rows.now }
    ensures front { turns.new ≡ first_turns (cells_in rows.now) ++ drop result turns.old }
{
    let mut m: usize = 0;
    for r in rows {
        if is_first(&r.cell) {
            turns[m] = r.cell.turn;
            m += 1;
        }
    }
    m
}

// How many of the turns are below this one.
#[tactic(auto, using(crate::proofs::Renumbering::rank_sum))]
fn rank(turns: &[u32], turn: u32) -> u32
    requires { length turns.now ≤ max_cells }
    ensures { result ≡ count_of (is_below turn) turns.now }
{
    turns.iter().map(|t| u32::from(*t < turn)).sum()
}

#[tactic(auto, unfolding(crate::specs::Renumber::rank_row))]
fn rank_all(rows: &mut [Row], turns: &[u32])
    requires { length turns.now ≤ max_cells }
    ensures { rows.new ≡ change_rows (uses ready_use) (rank_row turns.now) rows.old }
{
    turn_ready(rows, |turn| rank(turns, turn));
}

// Gapless turns are lowered, where N marks tell that they are. Were they?
fn lower_gapless<const N: usize>(rows: &mut [Row]) -> bool
    requires marks { (0 < N) × (N ≤ max_cells) }
    requires few { length rows.old ≤ max_cells }
    ensures lowered { result ≡ true → rows.new ≡ renumbered rows.old }
    ensures left { result ≡ false → rows.new ≡ rows.old }
{
    let mut marks = [false; N];
    match survey(rows, &mut marks).and_then(excess) {
        Some(by) => {
            lower_all(rows, by);
            true
        }
        None => false,
    }
}

fn renumber_many(rows: &mut [Row])
    requires { length rows.old ≤ max_cells }
    ensures { rows.new ≡ renumbered rows.old }
{
    if lower_gapless::<{ base::MAX_CELLS }>(rows) {
        return;
    }
    let mut turns = [0u32; base::MAX_CELLS];
    let m = copy_firsts(rows, &mut turns);
    rank_all(rows, &turns[..m]);
}

// A ready cell's turn becomes the number of ready messages before its own.
#[tactic(auto, using(crate::proofs::Renumbering::renumber_none))]
pub fn renumber(rows: &mut [Row])
    ensures { rows.new ≡ renumbered rows.old }
{
    if rows.len() <= FEW_ROWS {
        if lower_gapless::<FEW_ROWS>(rows) {
            return;
        }
        renumber_many(rows);
        return;
    }
    if rows.len() <= base::MAX_CELLS {
        renumber_many(rows);
    }
}
