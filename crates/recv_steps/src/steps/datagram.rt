// A datagram: what its frames begin with, and the frames in order.
ghost use Rattle.std.specs.Prelude.{◌≡◌, true, map, ◌≤◌, length};
ghost use Rattle.base.specs.Limits.{max_cells};
ghost use Rattle.base.specs.Lists.{count_of};
ghost use Rattle.window.specs.Proper.{Sized};
ghost use Rattle.window.specs.Window.{insertion};
ghost use Rattle.bare.specs.Frame.{carries_reliable};
ghost use Rattle.cells.specs.Records.{first_cell};
ghost use Rattle.rows.specs.Rows.{cells_in};
ghost use Rattle.recv_steps.specs.Frames.{number_in, Begun, Ran};
ghost use Rattle.recv_steps.specs.Receives.{begun_row, begun_rows};

use crate::{Framed, Tally};
use base::Refusal;
use frame::Placed;
use receiver::Nexts;
use rows::Row;
use window::ReliableWindow;

pub mod parts;
pub mod receive;

// What the frames begin with: the ready messages' turns are 0, 1, 2, .., all bodies stand in the store, and the open rows have grown older.
// The next turn. (`as u32`: there are at most 4,096 rows, which no type of a slice says.)
#[tactic(auto, using(crate::proofs::Beginning::begins_rows, crate::proofs::Changing::count_few))]
fn begin(rows: &mut [Row]) -> u32
    requires { length rows.old ≤ max_cells }
    ensures turn { result ≡ count_of first_cell (cells_in rows.old) }
    ensures rows { rows.new ≡ begun_rows rows.old }
{
    let turn = row_scans::count_first(rows);
    row_ranks::renumber(rows);
    begin_each(rows);
    turn as u32
}

// The row's body stands in the store, and an open row is older by this datagram.
#[tactic(auto, using(crate::proofs::Beginning::begins), unfolding(crate::specs::Receives::begun_row))]
fn begin_row(r: &mut Row)
    ensures { r.new ≡ begun_row r.old }
{
    row_bodies::clear_place(r);
    if r.cell.used == cells::OPEN {
        *r = rows::older_row(*r);
    }
}

// (One loop for both: the walk is most of what either costs.)
fn begin_each(rows: &mut [Row])
    ensures { rows.new ≡ map begun_row rows.old }
{
    for r in rows.iter_mut() {
        begin_row(r);
    }
}

// The frame's reliable number, where it carries one, inserted. (By `insert_in`, and not by the window's method: the proof needs the array's
// length, which is known where the array is lent.)
#[tactic(auto, unfolding(crate::specs::Frames::number_in, bare::specs::Frame::carries_reliable))]
fn number_in(reliables: &mut ReliableWindow, placed: Placed) -> Result<(), Refusal>
    ensures is { insertion result reliables.new ≡ number_in reliables.old placed }
    ensures sized { carries_reliable placed.frame.kind ≡ true → Sized reliables.old }
{
    let f = placed.frame;
    if reliability::has_reliable(f.kind) {
        reliables.low = window::insert_in(reliables.low, &mut reliables.bits, f.reliable)?;
    }
    Ok(())
}

// All frames of the datagram, in order, until one does not fit or carries a number beyond reach.
fn frames(
    rows: &mut [Row],
    reliables: &mut ReliableWindow,
    nexts: &mut Nexts,
    turn: u32,
    datagram: &[u8],
) -> Result<Framed, Refusal>
    requires { Begun reliables.old nexts.old rows.old turn datagram.now }
    ensures { Ran reliables.old nexts.old rows.old turn datagram.now
        result reliables.new nexts.new rows.new }
{
    let profile = nexts.profile;
    // (Each count by name: with `..Tally::default()`, tried, the proof of what the frames begin with did not close.)
    let mut counts = Tally {
        turn,
        ready: 0,
        dropped: 0,
        full: false,
    };
    let mut at = base::MIN_DATAGRAM;
    // (As an iterator no plainer, as with `frame::read_frames`: a refusal ends the frames too, and where they end is asked afterwards.)
    while let Ok((placed, next)) = frame::read_frame(profile, datagram, at) {
        match number_in(reliables, placed) {
            Ok(()) => counts = super::keep_in(rows, nexts, counts, placed),
            Err(refusal) => match refusal {
                Refusal::Beyond => return Err(Refusal::ReliableBeyond),
                // "Reliable number accepted before: drop."
                _ => counts = counts.drop_one(),
            },
        }
        at = next;
    }
    Ok(Framed {
        counts,
        left: datagram.len().saturating_sub(at),
    })
}
