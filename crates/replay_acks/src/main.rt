// Replays stored items on ACKs and NACKs, read from standard input, and prints every answer.
//
// Items and lines are as crate `replay` has them, every number big-endian. An item that writes begins its payload with the length of its
// output, whose bytes are EE before; the line ends with all of the output, also after a refusal.
//
// The items and the expected output were made by tools/wire.py, which has its own reading and writing, written from document 01's sentences
// and not from this code: the two agree only where both say what document 01 says.

#![tactic(auto)]

use ack::{AckCursor, Header, Record, Step};
use std::io;

// At most so many bytes of the input are read: the stored one is shorter. (Arrays and no `Vec`: the programs here have no heap.)
const INPUT: usize = 65536;

// The list has room for one number more than a list may have.
const LIST: usize = base::MAX_LIST + 1;

// The longest output that an item may ask for: the longest ACK has 8,195 bytes.
const OUTPUT: usize = 8300;

// What an item asks for, with what its payload holds and in how many bytes.
#[derive(Clone, Copy, Debug, PartialEq, Eq)]
enum Item {
    // bytes
    Read,
    // output (2), whether it is a NACK (1), numbers (4 each)
    WriteList,
    // output (2), whether it is a NACK (1), how many numbers (2), the number before the first (4), their step (4)
    WriteRun,
}

impl TryFrom<u8> for Item {
    type Error = u8;

    fn try_from(tag: u8) -> Result<Item, u8> {
        match tag {
            1 => Ok(Item::Read),
            2 => Ok(Item::WriteList),
            3 => Ok(Item::WriteRun),
            _ => Err(tag),
        }
    }
}

// (`as u64`, here and below: usize has no From to it.)
fn show_step(rt: &impl Print, step: Step) {
    let at = step.records.at as u64;
    let left = u64::from(step.records.left);
    match step.record {
        Record::Single(r) => {
            replay::line(rt, b"single", 0, &[u64::from(r.sequence), at, left]);
        }
        Record::Range(r) => {
            let values = [u64::from(r.start), u64::from(r.end), at, left];
            replay::line(rt, b"range", 0, &values);
        }
    }
}

// Every step until one gives no record. (`for`: that each step leaves fewer only the definition of a step says, which a `while` would need
// unfolded; a 16-bit count allows no more than these.)
fn read_records(rt: &impl Print, s: &[u8], first: AckCursor) {
    let mut records = first;
    for _ in 0..=u16::MAX {
        match ack::read_record(s, records) {
            Ok(Some(step)) => {
                show_step(rt, step);
                records = step.records;
            }
            Ok(None) => {
                replay::line(rt, b"end", 0, &[]);
                return;
            }
            Err(refusal) => {
                replay::refused(rt, b"record", refusal);
                return;
            }
        }
    }
}

fn read(rt: &impl Print, s: &[u8]) {
    match ack::read_header(s) {
        Ok(Header { nack, records }) => {
            let values = [u64::from(nack), records.at as u64, u64::from(records.left)];
            replay::line(rt, b"ack", 0, &values);
            read_records(rt, s, records);
        }
        Err(refusal) => {
            replay::refused(rt, b"ack", refusal);
        }
    }
}

// Writes a list as the payload's front says, by the exported call: it answers a number beside the value, 0 where that is there.
fn write(rt: &impl Print, p: &[u8], list: &[u32]) {
    let mut space = [0xEEu8; OUTPUT];
    let room = replay::within(&space, usize::from(base::be16_at(p, 0)));
    let out = &mut space[..room];
    let written = exports::poghduka_write_list(out, base::byte(p, 2) != 0, list);
    let number = u64::from(written.number);
    replay::line_with(
        rt,
        b"list",
        number,
        replay::given(number, &[written.len as u64]),
        out,
    );
}

fn write_list(rt: &impl Print, p: &[u8]) {
    let mut list = [0u32; LIST];
    let numbers = replay::part(p, 3, p.len()).chunks(4);
    let n = replay::within(&list, numbers.len());
    for (number, bytes) in list.iter_mut().zip(numbers) {
        *number = base::be32_at(bytes, 0);
    }
    write(rt, p, &list[..n]);
}

fn write_run(rt: &impl Print, p: &[u8]) {
    let mut list = [0u32; LIST];
    let n = replay::within(&list, usize::from(base::be16_at(p, 3)));
    let mut x = base::be32_at(p, 5);
    for number in list.iter_mut() {
        x = x.wrapping_add(base::be32_at(p, 9));
        *number = x;
    }
    write(rt, p, &list[..n]);
}

// An unknown tag gives no answer.
fn replay_item(rt: &impl Print, tag: u8, p: &[u8]) {
    match Item::try_from(tag) {
        Ok(Item::Read) => read(rt, p),
        Ok(Item::WriteList) => write_list(rt, p),
        Ok(Item::WriteRun) => write_run(rt, p),
        Err(_) => {}
    }
}

// (Three programs have this `main`, each with its own items: what they share is `replay::replay`, and the buffer is the program's.)
fn main(rt: HostRuntime) -> io::Result<()> {
    let mut input = [0u8; INPUT];
    replay::replay(
        &mut rt.stdin(),
        &mut input,
        |tag, p| replay_item(&rt, tag, p),
    )?;
    Ok(())
}
