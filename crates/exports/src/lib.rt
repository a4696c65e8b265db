// Windows and ACKs for programs in other languages, under plain names: the static library `exports_c` hands them on, and links into Rust
// or C. Such a function can't answer a Result. It answers document 01's refusal number, or 0 where nothing is refused, and the values
// beside it, which are 0 on a refusal. Each promise says by the called function's own definition what all the numbers are.

#![tactic(auto)]

ghost use Rattle.std.specs.Prelude.{◌≡◌, length};
ghost use Rattle.base.specs.Put.{Run};
ghost use Rattle.base.specs.Refusals.{answer};
ghost use Rattle.window.specs.Window.{new_window, insert_of};
ghost use Rattle.window.specs.Missing as Missing;
ghost use Rattle.ack.specs.Read.{read_header_of, read_record_of};
ghost use Rattle.ack.specs.Write.{write_list_of, written_of};
ghost use Rattle.exports.specs.Numbers.{number_of, insert_told, ack_told, header_told, found_told, record_told};

use ack::{AckCursor, Header, Record, Step};
use base::Refusal;
use window::ReliableWindow;

// In this struct and those below C lays out a number, 0 or the refusal's, beside the values: so they are no `Result` and no `Option`.
// Where a call answers a `Result`, a `From` makes the struct. Its `Err` arm, the number and the default, stands in each: a trait for that
// arm would need an impl for each as well.
#[repr(C)]
#[derive(Clone, Copy, Debug, PartialEq, Eq)]
pub struct WindowInsert {
    pub number: u32,
    pub window: ReliableWindow,
}

// How many bytes were written.
#[repr(C)]
#[derive(Clone, Copy, Debug, Default, PartialEq, Eq)]
pub struct AckWritten {
    pub number: u32,
    pub len: usize,
}

impl From<Result<usize, Refusal>> for AckWritten {
    ghost from_gives = { λ r x. x ≡ ack_told (answer r) };

    fn from(r: Result<usize, Refusal>) -> AckWritten {
        match r {
            Ok(len) => AckWritten { number: 0, len },
            Err(e) => AckWritten {
                number: e.into(),
                ..AckWritten::default()
            },
        }
    }
}

// The cursor stands at the first record.
#[repr(C)]
#[derive(Clone, Copy, Debug, Default, PartialEq, Eq)]
pub struct AckHeaderFound {
    pub number: u32,
    pub nack: bool,
    pub records: AckCursor,
}

impl From<Result<Header, Refusal>> for AckHeaderFound {
    ghost from_gives = { λ r x. x ≡ header_told (answer r) };

    fn from(r: Result<Header, Refusal>) -> AckHeaderFound {
        match r {
            Ok(Header { nack, records }) => AckHeaderFound {
                number: 0,
                nack,
                records,
            },
            Err(e) => AckHeaderFound {
                number: e.into(),
                ..AckHeaderFound::default()
            },
        }
    }
}

// A record and the cursor after it; nothing is found where no record is left. A Single's number is first and last.
#[repr(C)]
#[derive(Clone, Copy, Debug, Default, PartialEq, Eq)]
pub struct AckRecordFound {
    pub number: u32,
    pub found: bool,
    pub range: bool,
    pub first: u32,
    pub last: u32,
    pub records: AckCursor,
}

impl From<Step> for AckRecordFound {
    ghost from_gives = { λ s x. x ≡ found_told s.«record» s.records };

    #[tactic(auto, unfolding(ack::specs::Records::first_of, ack::specs::Records::last_of))]
    fn from(s: Step) -> AckRecordFound {
        let (range, first, last) = match s.record {
            Record::Single(x) => (false, x.sequence, x.sequence),
            Record::Range(x) => (true, x.start, x.end),
        };
        AckRecordFound {
            number: 0,
            found: true,
            range,
            first,
            last,
            records: s.records,
        }
    }
}

impl From<Result<Option<Step>, Refusal>> for AckRecordFound {
    ghost from_gives = { λ r x. x ≡ record_told (answer r) };

    fn from(r: Result<Option<Step>, Refusal>) -> AckRecordFound {
        match r {
            Ok(Some(step)) => step.into(),
            Ok(None) => AckRecordFound::default(),
            Err(e) => AckRecordFound {
                number: e.into(),
                ..AckRecordFound::default()
            },
        }
    }
}

// What a call answers that gives no values: for C, a number alone.
pub fn number_of(r: Result<(), Refusal>) -> u32
    ensures { result ≡ number_of (answer r) }
{
    r.err().map_or(0, u32::from)
}

pub fn poghduka_window_new() -> ReliableWindow
    ensures { result ≡ new_window }
{
    ReliableWindow::new()
}

pub fn poghduka_window_insert(mut w: ReliableWindow, n: u32) -> WindowInsert
    ensures { result ≡ insert_told (insert_of w n) }
{
    let number = number_of(w.insert(n));
    WindowInsert { number, window: w }
}

pub fn poghduka_window_missing(w: ReliableWindow, list: &mut [u32]) -> usize
    ensures { Run 0 (Missing.missing w) list.old result list.new }
{
    w.missing(list)
}

pub fn poghduka_write_list(out: &mut [u8], nack: bool, numbers: &[u32]) -> AckWritten
    ensures value { result ≡ ack_told (write_list_of (length out.old) nack numbers.now) }
    ensures out_after { out.new ≡ written_of out.old nack numbers.now }
{
    ack::write_list(out, nack, numbers).into()
}

pub fn poghduka_read_ack_header(s: &[u8]) -> AckHeaderFound
    ensures { result ≡ header_told (read_header_of s.now) }
{
    ack::read_header(s).into()
}

// The record that the cursor stands at.
pub fn poghduka_read_ack_record(s: &[u8], records: AckCursor) -> AckRecordFound
    ensures { result ≡ record_told (read_record_of s.now records) }
{
    ack::read_record(s, records).into()
}
