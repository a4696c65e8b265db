// Tests of a cell's record. `&` and not `&&`: a test has no branch. (A must-fail edit costs a check of its whole crate, so this is a crate
// of its own.)

#![tactic(auto, unfolding(cells::specs::Cell::bears))]

ghost use Rattle.std.specs.Prelude.{◌≡◌};
ghost use Rattle.bare.specs.Frame.{carries_reliable};
ghost use Rattle.cells.specs.Ages.{is_stale};
ghost use Rattle.cells.specs.Cell.{open_as, held_as, ready_as, bears, at};
ghost use Rattle.cells.specs.Records.{clashes, first_cell};
ghost use Rattle.cells.specs.Sound.{agree, alike, age_of};
ghost use Rattle.row_tests.specs.Uses.{uses};

use cells::CellRecord;

pub fn is_used_as(c: &CellRecord, used: u32) -> bool
    ensures { result ≡ uses used c.now }
{
    c.used == used
}

// A cell of the open message of this id.
pub fn is_open(c: &CellRecord, id: u32) -> bool
    ensures { result ≡ bears (open_as id) c.now }
{
    (c.used == cells::OPEN) & (c.id == id)
}

// A cell of the held message of this channel and order number.
pub fn is_held(c: &CellRecord, channel: u32, order: u32) -> bool
    ensures { result ≡ bears (held_as channel order) c.now }
{
    (c.used == cells::HELD) & ((c.channel == channel) & (c.order == order))
}

// A cell of the ready message of this turn. (As `is_open`, of another use and field: one function for both would be given the field, and
// the definitions, which have a case for each, would have to be joined to it.)
pub fn is_ready(c: &CellRecord, turn: u32) -> bool
    ensures { result ≡ bears (ready_as turn) c.now }
{
    (c.used == cells::READY) & (c.turn == turn)
}

// The ready message's cell of this index.
#[tactic(auto, unfolding(cells::specs::Cell::at))]
pub fn is_ready_at(c: &CellRecord, turn: u32, index: u32) -> bool
    ensures { result ≡ at (ready_as turn) index c.now }
{
    (c.index == index) & is_ready(c, turn)
}

// A ready message's first cell.
#[tactic(auto, unfolding(cells::specs::Records::first_cell))]
pub fn is_first(c: &CellRecord) -> bool
    ensures { result ≡ first_cell c.now }
{
    (c.used == cells::READY) & (c.index == 0)
}

// Do two cells say the same of their message?
#[tactic(auto, unfolding(cells::specs::Sound::agree))]
pub fn agrees(a: &CellRecord, c: &CellRecord) -> bool
    ensures { result ≡ agree a.now c.now }
{
    (a.count == c.count)
        & ((a.kind == c.kind)
            & ((a.sequence == c.sequence) & ((a.order == c.order) & (a.channel == c.channel))))
}

// An open record's age; no other's is looked at, and 0 stands for it.
#[tactic(auto, unfolding(cells::specs::Sound::age_of))]
pub fn age_of(c: &CellRecord) -> u64
    ensures { result ≡ age_of c.now }
{
    if c.used == cells::OPEN { c.age } else { 0 }
}

// Do two cells say the same of their message, and of its age?
#[tactic(auto, unfolding(cells::specs::Sound::alike))]
pub fn is_like(a: &CellRecord, c: &CellRecord) -> bool
    ensures { result ≡ alike a.now c.now }
{
    agrees(a, c) & (age_of(a) == age_of(c))
}

// Does a kind carry a reliable number? (One from 256 on is no kind.)
#[tactic(auto, using(crate::proofs::Carried::carried))]
fn carries_reliable(kind: u32) -> bool
    ensures { result ≡ carries_reliable kind }
{
    u8::try_from(kind).is_ok_and(reliability::has_reliable)
}

// An open cell whose message's kind carries no reliable number, and since whose last kept piece more than n datagrams were accepted.
#[tactic(auto, unfolding(cells::specs::Ages::is_stale))]
pub fn is_stale(c: &CellRecord, n: u32) -> bool
    ensures { result ≡ is_stale n c.now }
{
    (c.used == cells::OPEN) & (!carries_reliable(c.kind) & (u64::from(n) < c.age))
}

// An open piece beside which a may not be kept: of its id, with another count, kind, sequence, order number or channel, or with its index.
#[tactic(auto, using(crate::proofs::Clash::clash_by_agreement))]
pub fn is_clash(a: &CellRecord, c: &CellRecord) -> bool
    ensures { result ≡ clashes a.now c.now }
{
    (c.used == cells::OPEN) & ((c.id == a.id) & (!agrees(c, a) | (c.index == a.index)))
}
