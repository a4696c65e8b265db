// Whether what a call is lent is sound: document 01's 9 ("Calls and their numbers"), of slice lengths alone and of all. (A must-fail edit
// costs a check of its whole crate, so this is a crate of its own.)

#![tactic(auto)]

ghost use Rattle.std.specs.Prelude.{◌≡◌};
ghost use Rattle.cells.specs.Sound.{lengths};
ghost use Rattle.rows.specs.Rows.{cells_in};
ghost use Rattle.receiver.specs.Receive.{sound_call};

use receiver::RecvQueue;
use rows::Row;

// "1 to 4,096 cells of 1,500 bytes"; "the store is exactly one cell for each record".
#[tactic(auto, unfolding(cells::specs::Sound::lengths))]
pub fn lengths_fit(cells: usize, bytes: usize) -> bool
    ensures { result ≡ lengths cells bytes }
{
    1 <= cells && cells <= base::MAX_CELLS && bytes == base::CELL_BYTES * cells
}

// "9 slice lengths .. or records unsound". There is one row for each cell.
#[tactic(auto, using(crate::proofs::Tests::tests))]
pub fn is_sound(queue: &RecvQueue, rows: &[Row], store: &[u8]) -> bool
    ensures { result ≡ sound_call queue.now (cells_in rows.now) store.now }
{
    if !lengths_fit(rows.len(), store.len()) {
        return false;
    }
    sound_queue::check_queue(queue).is_ok() && sound_cells::are_sound(rows, &queue.channels)
}
