// The runs of an ascending list of numbers: found, counted and written as records.
ghost use Rattle.std.specs.Prelude.{◌≡◌, ◌*◌, ◌<◌, ◌≤◌, length};
ghost use Rattle.base.specs.Put.{Run};
ghost use Rattle.ack.specs.Records.{range_size, record_bytes, records_bytes, record_size, runs};
ghost use Rattle.ack.specs.Passes.{is_next, record_of, tally_of};

use super::{RANGE, RANGE_SIZE, SINGLE, SINGLE_SIZE};

// y is one above x.
#[tactic(auto, unfolding(crate::specs::Passes::is_next))]
fn is_next(x: &u32, y: &u32) -> bool
    ensures { result ≡ is_next x.now y.now }
{
    x.checked_add(1) == Some(*y)
}

#[tactic(auto, unfolding(crate::specs::Records::record_size, base::specs::If::if_eq, base::specs::If::if_true))]
fn record_size(run: &[u32]) -> usize
    requires { 0 < length run.now }
    ensures is { result ≡ record_size (record_of run.now) }
    ensures small { result ≤ range_size }
{
    if run.len() == 1 {
        SINGLE_SIZE
    } else {
        RANGE_SIZE
    }
}

// How many records there are, and how many bytes they take.
#[derive(Clone, Copy, Debug, Default, PartialEq, Eq)]
pub(crate) struct Tally {
    pub(crate) records: usize,
    pub(crate) bytes: usize,
}

// No run is empty, and no record is longer than a Range.
pub(crate) fn tally_runs(numbers: &[u32]) -> Tally
    ensures is { result ≡ tally_of (runs numbers.now) }
    ensures small { (result.records ≤ length numbers.now) × (result.bytes ≤ range_size * length numbers.now) }
{
    // A loop: a fold would carry the same two numbers, as a pair.
    let mut records = 0;
    let mut bytes = 0;
    for run in numbers.chunk_by(is_next) {
        records += 1;
        bytes += record_size(run);
    }
    Tally { records, bytes }
}

// The record of a run: its number, or its first and its last.
fn put_record(out: &mut [u8], p: usize, run: &[u32]) -> usize
    requires { 0 < length run.now }
    ensures { Run p (record_bytes (record_of run.now)) out.old result out.new }
{
    match run {
        [] => p,
        [x] => {
            let a = base::put(out, p, SINGLE);
            base::put24(out, a, *x)
        }
        [first, .., last] => {
            let a = base::put(out, p, RANGE);
            let b = base::put24(out, a, *first);
            base::put24(out, b, *last)
        }
    }
}

// One run after another.
pub(crate) fn put_runs(out: &mut [u8], p: usize, numbers: &[u32]) -> usize
    ensures { Run p (records_bytes (runs numbers.now)) out.old result out.new }
{
    // A loop: a fold would carry the same place, and lend the output to a closure.
    let mut q = p;
    for run in numbers.chunk_by(is_next) {
        q = put_record(out, q, run);
    }
    q
}
