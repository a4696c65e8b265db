// Step 4: whole frames, and the held messages that follow. Step 3: pieces, and messages joined from them.
// (Rows and nexts are lent and the counts go by value; what is asked of the three, `MayStep`, and that the rows are at most 4,096, stands
// at each function. Tried: a struct that borrows them. Each method then has to say, beside what it leaves, that the borrows are those that
// came in, which is no plainer. Nor is a struct that owns nexts and counts: `hold`, `ready` and `turn_ready` have the counts alone, and
// would each have to say that the nexts stay.)
ghost use Rattle.std.specs.Prelude.{◌≡◌, List, ℕ, ◌+◌, ◌<◌, ◌≤◌, true, length};
ghost use Rattle.base.specs.Limits.{max_cells};
ghost use Rattle.base.specs.Lists.{count_of};
ghost use Rattle.cells.specs.Cell.{open_as, bears};
ghost use Rattle.cells.specs.Datagram.{early, due, free};
ghost use Rattle.receiver.specs.declared.Nexts.{Nexts};
ghost use Rattle.receiver.specs.Receive.{frame_in};
ghost use Rattle.rows.specs.Rows.{cells_in};
ghost use Rattle.recv_steps.specs.CountChanges.{made_one, CanCount, Rises};
ghost use Rattle.recv_steps.specs.Placing.{Stands, ReadablePlaced};
ghost use Rattle.recv_steps.specs.Moves.{MayStep, Moves, by_fate, Counted, Sane, Beside, turn_ready, limited};
ghost use Rattle.cells.specs.Datagram as Datagram;

use crate::{Course, KeptFrame, Tally};
use frame::Placed;
use receiver::Nexts;
use rows::Row;

pub mod datagram;

// The channel's next rises by one, and the held messages follow. The sweep that makes one ready finds whether it is held. (`for`: no more
// can follow than there are rows, which is how the proof knows that the turns end.)
fn follows(rows: &mut [Row], nexts: &mut Nexts, s: Tally, kept: KeptFrame) -> Tally
    requires rows_bound { length rows.old ≤ max_cells }
    requires can_count { CanCount (max_cells + 1) s }
    requires rises { Rises (max_cells + 1) nexts.old }
    ensures { (d : List ℕ) → Moves d (Datagram.follows kept.placed.frame.channel) s nexts.old rows.old
        result nexts.new rows.new }
{
    super::rise(nexts, kept);
    let mut t = s;
    for _ in 0..rows.len() {
        let next = super::next_of(nexts, kept);
        if !row_sweeps::turn_held(rows, kept.placed.frame.channel.into(), next, t.turn) {
            return t;
        }
        super::rise(nexts, kept);
        t = t.make_one();
    }
    t
}

// A whole frame of an early message is held.
fn hold(rows: &mut [Row], s: Tally, kept: KeptFrame) -> Tally
    ensures { (ns : Nexts) (d : List ℕ) → Stands d kept.placed → Moves d (Datagram.whole early (frame_in d kept.placed)) s ns
        rows.old result ns rows.new }
{
    if super::put_frame(rows, kept, cells::HELD, 0) {
        return s;
    }
    s.fill_up()
}

// A whole frame is made ready that no other follows.
fn ready(rows: &mut [Row], s: Tally, kept: KeptFrame) -> Tally
    requires { CanCount 1 s }
    ensures { (ns : Nexts) (d : List ℕ) → Stands d kept.placed → Moves d (Datagram.whole free (frame_in d kept.placed)) s ns
        rows.old result ns rows.new }
{
    if super::put_frame(rows, kept, cells::READY, s.turn) {
        return s.make_one();
    }
    s.fill_up()
}

// A whole frame of the channel's next message is made ready, and the held ones follow.
fn ready_due(rows: &mut [Row], nexts: &mut Nexts, s: Tally, kept: KeptFrame) -> Tally
    requires { MayStep rows.old nexts.old s }
    ensures { (d : List ℕ) → Stands d kept.placed → Moves d (Datagram.whole due (frame_in d kept.placed))
        s nexts.old rows.old result nexts.new rows.new }
{
    if super::put_frame(rows, kept, cells::READY, s.turn) {
        let t = s.make_one();
        return follows(rows, nexts, t, kept);
    }
    s.fill_up()
}

// A whole frame is a message at once.
fn whole(rows: &mut [Row], nexts: &mut Nexts, s: Tally, kept: KeptFrame) -> Tally
    requires { MayStep rows.old nexts.old s }
    ensures { (d : List ℕ) → Stands d kept.placed → Moves d (by_fate Datagram.whole (frame_in d kept.placed))
        s nexts.old rows.old result nexts.new rows.new }
{
    match super::fate_of(rows, nexts, kept) {
        Course::Late => s.drop_one(),
        Course::Early => hold(rows, s, kept),
        Course::Due => ready_due(rows, nexts, s, kept),
        Course::Newer => {
            let f = kept.placed.frame;
            recv_memory::remember_in(nexts, f.kind, f.channel, f.sequence);
            ready(rows, s, kept)
        }
        Course::Free => ready(rows, s, kept),
    }
}

// The cells of the open message of this id become a ready one's.
fn turn_ready(rows: &mut [Row], s: Tally, id: u32) -> Tally
    requires { CanCount 1 s }
    ensures own { result ≡ made_one s }
    ensures is { (ns : Nexts) (d : List ℕ) → Moves d (turn_ready id) s ns rows.old result ns rows.new }
{
    row_sweeps::turn_open(rows, id, cells::READY, s.turn);
    s.make_one()
}

// A joined message's cells are there already.
fn joins(rows: &mut [Row], nexts: &mut Nexts, s: Tally, kept: KeptFrame) -> Tally
    requires { MayStep rows.old nexts.old s }
    ensures { (d : List ℕ) → Moves d (by_fate Datagram.joins (frame_in d kept.placed)) s nexts.old rows.old
        result nexts.new rows.new }
{
    let id = kept.placed.frame.meta.id.into();
    match super::fate_of(rows, nexts, kept) {
        Course::Late => {
            row_sweeps::turn_open(rows, id, cells::RELEASED, 0);
            s.drop_one()
        }
        Course::Early => {
            row_sweeps::turn_open(rows, id, cells::HELD, 0);
            s
        }
        Course::Due => {
            let t = turn_ready(rows, s, id);
            follows(rows, nexts, t, kept)
        }
        Course::Newer => {
            let f = kept.placed.frame;
            recv_memory::remember_in(nexts, f.kind, f.channel, f.sequence);
            turn_ready(rows, s, id)
        }
        Course::Free => turn_ready(rows, s, id),
    }
}

// A piece was kept, and n are open under its id: where all indices are there, they are one message. (`as usize`: u32 has no From to it.)
fn piece_kept(rows: &mut [Row], nexts: &mut Nexts, s: Tally, kept: KeptFrame, n: usize) -> Tally
    requires { MayStep rows.old nexts.old s }
    ensures { (d : List ℕ) → Counted d kept.placed n rows.old → Moves d (Datagram.kept (frame_in d kept.placed))
        s nexts.old rows.old result nexts.new rows.new }
{
    if n == kept.placed.frame.meta.count as usize {
        return joins(rows, nexts, s, kept);
    }
    s
}

// A piece that may be kept beside the open ones, of which n are of its id, is put, where there is room.
fn put_piece(rows: &mut [Row], nexts: &mut Nexts, s: Tally, kept: KeptFrame, n: usize) -> Tally
    requires piece_value { kept.placed.frame.piece ≡ true }
    requires may_step { MayStep rows.old nexts.old s }
    requires others { n ≡ count_of (bears (open_as kept.placed.frame.meta.id)) (cells_in rows.old) }
    ensures { (d : List ℕ) → Stands d kept.placed → Sane d s nexts.old rows.old → Beside d kept.placed rows.old
        → Moves d (Datagram.put_piece (frame_in d kept.placed)) s nexts.old rows.old
        result nexts.new rows.new }
{
    if super::put_frame(rows, kept, cells::OPEN, 0) {
        return piece_kept(rows, nexts, s, kept, n + 1);
    }
    s.fill_up()
}

// Step 3, for a piece within the limits. (The walk that makes the id's pieces as old as this one counts them, too.)
fn piece(rows: &mut [Row], nexts: &mut Nexts, s: Tally, kept: KeptFrame) -> Tally
    requires piece_value { kept.placed.frame.piece ≡ true }
    requires may_step { MayStep rows.old nexts.old s }
    ensures { (d : List ℕ) → Stands d kept.placed → Sane d s nexts.old rows.old → Moves d (Datagram.piece (frame_in d kept.placed))
        s nexts.old rows.old result nexts.new rows.new }
{
    let row = super::row_of(kept, cells::OPEN, 0);
    if row_scans::any_clash(rows, &row) {
        return s.drop_one();
    }
    let n = row_sweeps::renew_open(rows, kept.placed.frame.meta.id.into());
    put_piece(rows, nexts, s, kept, n)
}

// Steps 2 to 4, for a frame whose reliable number was accepted.
fn keep_in(rows: &mut [Row], nexts: &mut Nexts, s: Tally, placed: Placed) -> Tally
    requires readable_placed { ReadablePlaced placed }
    requires may_step { MayStep rows.old nexts.old s }
    ensures { (d : List ℕ) → Stands d placed → Sane d s nexts.old rows.old → Moves d (limited (frame_in d placed))
        s nexts.old rows.old result nexts.new rows.new }
{
    let Some(kept) = super::in_limits(placed) else {
        return s.drop_one();
    };
    if kept.placed.frame.piece {
        return piece(rows, nexts, s, kept);
    }
    whole(rows, nexts, s, kept)
}
