// The cells' records as rows: each row has its record, and says where its body stands. The receiver works on a private copy of the records
// as rows.

#![tactic(auto)]

ghost use Rattle.std.specs.Prelude.{◌≡◌};
ghost use Rattle.rows.specs.Rows.{mark_row, age_row, older_row, blank_row, whole_row, cell_of, stored_row};

use cells::CellRecord;

// place: 0 where the body stands in the store, else one more than its place in the datagram that is worked on. (A row is 56 bytes long, and
// would be with an `Option<u32>`: the record's age has 8 bytes, so that 4 are left. It stays the number that row_slots' definitions read.)
#[derive(Clone, Copy, Debug, Default, PartialEq, Eq)]
pub struct Row {
    pub cell: CellRecord,
    pub place: u32,
}

// A record's row: its body stands in the store.
impl From<CellRecord> for Row {
    ghost from_gives = { λ c r. r ≡ stored_row c };

    fn from(cell: CellRecord) -> Row {
        Row { cell, place: 0 }
    }
}

// The record that a row stands for.
impl From<Row> for CellRecord {
    ghost from_gives = { λ r c. c ≡ cell_of r };

    fn from(r: Row) -> CellRecord {
        r.cell
    }
}

// The row of an unused cell: `Row::default()`, and the promise says what that is.
#[tactic(auto, unfolding(crate::specs::Rows::blank_row, cells::specs::Cell::empty_cell))]
pub fn blank_row() -> Row
    ensures { result ≡ blank_row }
{
    Row::default()
}

// The row with another use and turn; its message is closed, so that its age is 0.
#[tactic(auto, unfolding(crate::specs::Rows::mark_row, cells::specs::Cell::mark_cell))]
pub fn mark_row(r: Row, used: u32, turn: u32) -> Row
    ensures { result ≡ mark_row used turn r }
{
    Row {
        cell: CellRecord {
            used,
            turn,
            age: 0,
            ..r.cell
        },
        ..r
    }
}

// The row with another age.
#[tactic(auto, unfolding(crate::specs::Rows::age_row, cells::specs::Ages::with_age))]
pub fn age_row(r: Row, age: u64) -> Row
    ensures { result ≡ age_row age r }
{
    Row {
        cell: CellRecord { age, ..r.cell },
        ..r
    }
}

// The row when one more datagram was accepted. (`saturating`: a lent record may hold any age.)
#[tactic(auto, unfolding(crate::specs::Rows::older_row, cells::specs::Ages::next_age))]
pub fn older_row(r: Row) -> Row
    ensures { result ≡ older_row r }
{
    age_row(r, r.cell.age.saturating_add(1).min(base::MAX_AGE))
}

// Row i; a blank row where there is none.
#[tactic(auto, unfolding(crate::specs::Rows::blank_row, cells::specs::Cell::empty_cell))]
pub fn whole_row(rows: &[Row], i: usize) -> Row
    ensures { result ≡ whole_row rows.now i }
{
    rows.get(i).copied().unwrap_or_default()
}
