// ACK and NACK: read record by record, and written from a list of numbers. Document 01, "Bytes", "Read ACK" and "Write ACK or NACK".

#![tactic(auto)]

ghost use Rattle.std.specs.Prelude.{◌≡◌, ◌<◌, ◌≤◌, length};
ghost use Rattle.base.specs.Limits.{max_list};
ghost use Rattle.base.specs.Put.{Run, and_then};
ghost use Rattle.ack.specs.Records.{records_bytes, runs};
ghost use Rattle.base.specs.Refusals.{answer};
ghost use Rattle.ack.specs.Read.{read_header_of, read_single, read_range, read_record_of};
ghost use Rattle.ack.specs.Write.{id_of, ack_header_bytes, too_large, ascending, write_list_of, written_of};

use base::Refusal;

mod runs;

// The bytes that an ACK and a NACK begin with: the wire's numbers, read and written as they are. Which of the two is a bool,
// as C passes it and the definitions have it: it chooses nothing but this byte, and an enum would be made of it and read back at each call.
pub const ACK: u8 = 0xc0;

pub const NACK: u8 = 0xa0;

// The first byte and the record count.
const HEADER_SIZE: usize = 3;

// A record's type byte, the wire's number too, and the size of a record: the type byte and one number, or two.
const SINGLE: u8 = 0x01;

const SINGLE_SIZE: usize = 4;

const RANGE: u8 = 0x00;

const RANGE_SIZE: usize = 7;

#[derive(Clone, Copy, Debug, PartialEq, Eq)]
pub struct SingleRecord {
    pub sequence: u32,
}

// First and last, both included.
#[derive(Clone, Copy, Debug, PartialEq, Eq)]
pub struct RangeRecord {
    pub start: u32,
    pub end: u32,
}

#[derive(Clone, Copy, Debug, PartialEq, Eq)]
pub enum Record {
    Single(SingleRecord),
    Range(RangeRecord),
}

// Where the next record stands, and how many are left. No iterator over the records: C holds the cursor between two exported calls, each of
// which is given it and answers the next.
#[repr(C)]
#[derive(Clone, Copy, Debug, Default, PartialEq, Eq)]
pub struct AckCursor {
    pub at: usize,
    pub left: u32,
}

// Whether it is a NACK, and where its records stand.
#[derive(Clone, Copy, Debug, PartialEq, Eq)]
pub struct Header {
    pub nack: bool,
    pub records: AckCursor,
}

// A record, and the cursor after it.
#[derive(Clone, Copy, Debug, PartialEq, Eq)]
pub struct Step {
    pub record: Record,
    pub records: AckCursor,
}

#[tactic(auto, unfolding(crate::specs::Read::read_header_of, base::specs::If::if_lt, base::specs::If::if_eq, base::specs::If::if_true))]
pub fn read_header(s: &[u8]) -> Result<Header, Refusal>
    ensures { answer result ≡ read_header_of s.now }
{
    if s.len() < HEADER_SIZE {
        return Err(Refusal::Cut);
    }
    let nack = match s[0] {
        ACK => false,
        NACK => true,
        _ => return Err(Refusal::FirstByte),
    };
    let left = u32::from(base::be16_at(s, 1));
    Ok(Header {
        nack,
        records: AckCursor {
            at: HEADER_SIZE,
            left,
        },
    })
}

// The record that the cursor stands at, or none where none is left; it answers for every cursor.
#[tactic(auto, unfolding(crate::specs::Read::read_record_of, base::specs::If::if_eq, base::specs::If::if_le, base::specs::If::if_true))]
pub fn read_record(s: &[u8], records: AckCursor) -> Result<Option<Step>, Refusal>
    ensures { answer result ≡ read_record_of s.now records }
{
    let Some(left) = records.left.checked_sub(1) else {
        return Ok(None);
    };
    let at = records.at;
    match *s.get(at).ok_or(Refusal::Cut)? {
        SINGLE => read_single(s, at, left),
        RANGE => read_range(s, at, left),
        _ => Err(Refusal::UnknownType),
    }
}

// The Single at a place; `left` counts the records after it.
#[tactic(auto, unfolding(crate::specs::Read::read_single, base::specs::If::if_lt, base::specs::If::if_true))]
fn read_single(s: &[u8], at: usize, left: u32) -> Result<Option<Step>, Refusal>
    ensures { answer result ≡ read_single s.now at left }
{
    if s.len().saturating_sub(at) < SINGLE_SIZE {
        return Err(Refusal::Cut);
    }
    let sequence = base::le24_at(s, at + 1);
    Ok(Some(Step {
        record: Record::Single(SingleRecord { sequence }),
        records: AckCursor {
            at: at + SINGLE_SIZE,
            left,
        },
    }))
}

// The Range at a place.
#[tactic(auto, unfolding(crate::specs::Read::read_range, base::specs::If::if_lt, base::specs::If::if_true))]
fn read_range(s: &[u8], at: usize, left: u32) -> Result<Option<Step>, Refusal>
    ensures { answer result ≡ read_range s.now at left }
{
    if s.len().saturating_sub(at) < RANGE_SIZE {
        return Err(Refusal::Cut);
    }
    let start = base::le24_at(s, at + 1);
    let end = base::le24_at(s, at + 4);
    if end < start {
        return Err(Refusal::Reversed);
    }
    Ok(Some(Step {
        record: Record::Range(RangeRecord { start, end }),
        records: AckCursor {
            at: at + RANGE_SIZE,
            left,
        },
    }))
}

// Writes the numbers at the start of the output: `TooLarge` and `NotAscending` by the numbers alone, `NoRoom` before anything is written.
#[tactic(auto, using(crate::proofs::WriteCases::writes), unfolding(crate::specs::Write::write_list_of, crate::specs::Write::written_of))]
pub fn write_list(out: &mut [u8], nack: bool, numbers: &[u32]) -> Result<usize, Refusal>
    ensures result_value { answer result ≡ write_list_of (length out.old) nack numbers.now }
    ensures out_after { out.new ≡ written_of out.old nack numbers.now }
{
    if too_large(numbers) {
        return Err(Refusal::TooLarge);
    }
    if !is_ascending(numbers) {
        return Err(Refusal::NotAscending);
    }
    let t = runs::tally_runs(numbers);
    let len = HEADER_SIZE + t.bytes;
    if out.len() < len {
        return Err(Refusal::NoRoom);
    }
    put_list(out, nack, t.records, numbers);
    Ok(len)
}

// The list is too long, or some number is 2^24 or more.
#[tactic(auto, unfolding(crate::specs::Write::too_large, base::specs::If::if_lt, base::specs::If::if_true))]
fn too_large(numbers: &[u32]) -> bool
    ensures { result ≡ too_large numbers.now }
{
    base::MAX_LIST < numbers.len() || numbers.iter().any(|n| base::NUMBERS_24 <= *n)
}

// Each number is below the next.
fn is_ascending(numbers: &[u32]) -> bool
    ensures { result ≡ ascending numbers.now }
{
    numbers.is_sorted_by(|x, y| x < y)
}

#[tactic(auto, unfolding(crate::specs::Write::id_of, base::specs::If::if_true))]
fn id_of(nack: bool) -> u8
    ensures { result ≡ id_of nack }
{
    if nack { NACK } else { ACK }
}

// The header with the record count, and the records. (`as u32`: there are at most 2,048.)
fn put_list(out: &mut [u8], nack: bool, count: usize, numbers: &[u32]) -> usize
    requires { count ≤ max_list }
    ensures { Run 0 (and_then (ack_header_bytes nack count) (records_bytes (runs numbers.now))) out.old result
        out.new }
{
    let a = base::put(out, 0, id_of(nack));
    let b = base::put16(out, a, count as u32);
    runs::put_runs(out, b, numbers)
}
