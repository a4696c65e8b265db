// A datagram's frames put through the four steps, on rows.
// A module uses its parents' functions: the steps stand over the leaves here, and receive over the steps.

#![tactic(auto)]

ghost use Rattle.std.specs.Prelude.{◌≡◌, Bool, false, MatchOption, ◌+◌, ◌<◌, ◌^◌, ℕ, List};
ghost use Rattle.base.specs.Limits.{max_ord_chans};
ghost use Rattle.recv_steps.specs.declared.Tally.{Tally};
ghost use Rattle.recv_steps.specs.Work.{work_of, fate_is};
ghost use Rattle.recv_steps.specs.CountChanges.{dropped_one, filled_up, made_one, risen};
ghost use Rattle.base.specs.Lists.{any};
ghost use Rattle.bare.specs.Frame.{in_limits};
ghost use Rattle.cells.specs.Cell.{is_free, put_slot, slot_of};
ghost use Rattle.cells.specs.Datagram.{fate_of};
ghost use Rattle.row_slots.specs.Slots.{slots_in};
ghost use Rattle.receiver.specs.Receive.{frame_in};
ghost use Rattle.receiver.specs.Parts.{next_at};
ghost use Rattle.recv_steps.specs.Placing.{row_for, Stands, ReadablePlaced, Limited};
ghost use Rattle.recv_steps.specs.Moves.{Changes};

use base::Refusal;
use cells::CellRecord;
use frame::Placed;
use receiver::Nexts;
use reliability::Reliability;
use rows::Row;

mod steps;

pub use steps::datagram::parts::receive_rows;
pub use steps::datagram::receive::receive_over;

// What an accepted datagram comes to: how many messages were made ready and how many frames dropped, and the bytes left.
#[derive(Clone, Copy, Debug, PartialEq, Eq)]
pub struct Received {
    pub ready: u32,
    pub dropped: u32,
    pub left: usize,
}

// What a receive comes to whose receiver is lent by its parts: the answer; the low number of the window of reliable numbers; and whether the
// unsent numbers ascended before, which is told only where the datagram is accepted.
#[derive(Clone, Copy, Debug, PartialEq, Eq)]
pub struct PassedRows {
    pub answer: Result<Received, Refusal>,
    pub low: u32,
    pub ascending: bool,
}

// What a datagram's frames count. turn: that of the next message made ready. full: a body found no cell. (A flag, and no refusal at once: a
// later frame's reliable number beyond reach is refused before the cells that are full.)
#[derive(Clone, Copy, Debug, PartialEq, Eq)]
struct Tally {
    turn: u32,
    ready: u32,
    dropped: u32,
    full: bool,
}

impl Tally {
    #[tactic(auto, unfolding(crate::specs::CountChanges::dropped_one))]
    fn drop_one(self) -> Tally
        requires { self.dropped + 1 < 2 ^ 32 }
        ensures { result ≡ dropped_one self }
    {
        Tally {
            dropped: self.dropped + 1,
            ..self
        }
    }

    #[tactic(auto, unfolding(crate::specs::CountChanges::filled_up))]
    fn fill_up(self) -> Tally
        ensures { result ≡ filled_up self }
    {
        Tally { full: true, ..self }
    }

    #[tactic(auto, unfolding(crate::specs::CountChanges::made_one))]
    fn make_one(self) -> Tally
        requires { (self.turn + 1 < 2 ^ 32) × (self.ready + 1 < 2 ^ 32) }
        ensures { result ≡ made_one self }
    {
        Tally {
            turn: self.turn + 1,
            ready: self.ready + 1,
            ..self
        }
    }
}

// A frame that was read and is within step 2's limits: steps 3 and 4 keep it.
#[derive(Clone, Copy, Debug, PartialEq, Eq)]
struct KeptFrame {
    placed: Placed,
    ghost readable: { ReadablePlaced placed },
    ghost limited: { Limited placed },
    ghost channel: { placed.frame.channel < max_ord_chans },
}

// What the frames come to, all worked on: the counts and the bytes left.
#[derive(Clone, Copy, Debug, PartialEq, Eq)]
struct Framed {
    counts: Tally,
    left: usize,
}

// What step 4 does with a message: drop it, hold it, make it ready with the held ones that follow, make it ready and remember its sequence
// number, or make it ready.
#[derive(Clone, Copy, Debug, PartialEq, Eq)]
enum Course {
    Late,
    Early,
    Due,
    Newer,
    Free,
}

// ---- the nexts, of the frame's channel

#[tactic(auto, unfolding(receiver::specs::Parts::next_at, receiver::specs::Queue::next_in))]
fn next_of(nexts: &Nexts, kept: KeptFrame) -> u32
    ensures { result ≡ next_at nexts.now kept.placed.frame.channel }
{
    nexts.channels[usize::from(kept.placed.frame.channel)].next
}

#[tactic(auto, unfolding(receiver::specs::Parts::next_at, receiver::specs::Parts::with_next, receiver::specs::Queue::next_in))]
fn rise(nexts: &mut Nexts, kept: KeptFrame)
    requires { next_at nexts.old kept.placed.frame.channel + 1 < 2 ^ 32 }
    ensures { nexts.new ≡ risen kept.placed.frame.channel nexts.old }
{
    nexts.channels[usize::from(kept.placed.frame.channel)].next += 1;
}

// ---- a frame

#[tactic(auto, unfolding(bare::specs::Frame::in_limits, receiver::specs::Receive::frame_in))]
fn is_in_limits(placed: Placed) -> bool
    ensures { (d : List ℕ) → result ≡ in_limits (frame_in d placed) }
{
    let f = placed.frame;
    (f.channel < base::MAX_ORD_CHANS) & (!f.piece | f.meta.is_in_limits())
}

// Step 2: the frame, where it is within the limits.
#[tactic(auto, using(crate::proofs::Stepping::limits))]
fn in_limits(placed: Placed) -> Option<KeptFrame>
    requires { ReadablePlaced placed }
    ensures { MatchOption result ((d : List ℕ) → in_limits (frame_in d placed) ≡ false) (λ kept. kept.placed ≡ placed) }
{
    if is_in_limits(placed) {
        return Some(KeptFrame { placed });
    }
    None
}

// The frame's row. (`as u32`: a datagram has at most 1,500 bytes.)
#[tactic(auto, unfolding(crate::specs::Placing::row_for))]
fn row_of(kept: KeptFrame, used: u32, turn: u32) -> Row
    ensures { result ≡ row_for kept.placed used turn }
{
    let f = kept.placed.frame;
    let (index, count) = if f.piece {
        (f.meta.index, f.meta.count)
    } else {
        (0, 1)
    };
    let cell = CellRecord {
        used,
        kind: f.kind.into(),
        channel: f.channel.into(),
        id: f.meta.id.into(),
        index,
        count,
        length: kept.placed.len as u32,
        sequence: f.sequence,
        order: f.order,
        turn,
        age: 0,
    };
    Row {
        cell,
        place: kept.placed.start as u32 + 1,
    }
}

// ---- the rows

// The frame's row takes the place of the lowest-numbered unused one; false where there is none.
#[tactic(auto, using(crate::proofs::Changing::puts))]
fn put_frame(rows: &mut [Row], kept: KeptFrame, used: u32, turn: u32) -> bool
    requires { 0 < used }
    ensures room { (store d : List ℕ) → result ≡ any is_free (slots_in rows.old store d) }
    ensures put { (d : List ℕ) → Stands d kept.placed → Changes d (put_slot (slot_of (frame_in d kept.placed) used turn))
        rows.old rows.new }
{
    if let Some(i) = row_scans::first_unused(rows) {
        rows[i] = row_of(kept, used, turn);
        return true;
    }
    false
}

// Step 4: what is to be done with the frame's message.
#[tactic(auto, using(crate::proofs::Fates::fates), unfolding(crate::specs::Work::fate_is))]
fn fate_of(rows: &[Row], nexts: &Nexts, kept: KeptFrame) -> Course
    ensures { (x : Tally) (a : ℕ → Bool) (store d : List ℕ) → fate_is result
        ≡ fate_of (frame_in d kept.placed) (work_of a x nexts.now rows.now store d) }
{
    let f = kept.placed.frame;
    let Ok(kind) = Reliability::try_from(f.kind) else {
        return Course::Free;
    };
    match kind {
        Reliability::ReliableOrd | Reliability::ReliableOrdAck => {
            let next = next_of(nexts, kept);
            if f.order < next {
                return Course::Late;
            }
            if row_scans::any_held(rows, f.channel.into(), f.order) {
                return Course::Late;
            }
            if f.order == next {
                return Course::Due;
            }
            Course::Early
        }
        Reliability::UnreliableSeq | Reliability::ReliableSeq => {
            if recv_memory::is_older_in(nexts, f.kind, f.channel, f.sequence) {
                return Course::Late;
            }
            Course::Newer
        }
        _ => Course::Free,
    }
}
