// Replays stored items on frames, a datagram's head and pieces, read from standard input, and prints every answer.
//
// Items and lines are as crate `replay` has them, every number big-endian. The output of an item that writes is as long as its payload
// says, its bytes EE before; the line ends with all of the output, also after a refusal.
//
// The items and the expected output were made by tools/wire.py, which has its own reading and writing, written from the sentences of
// document 01 and of document 02, 2/13 (the C++ profile) and 6/13 (pieces), and not from this code: the two agree only where both say what
// the documents say.

#![tactic(auto)]

use exports_frames::{FrameFound, FrameWritten};
use frame::{FragmentMeta, Frame};
use std::io;

// At most so many bytes of the input are read: the stored one is shorter. (Arrays and no `Vec`: the programs here have no heap.)
const INPUT: usize = 65536;

const DATA_SEED: u16 = 11029;

// The longest data that an item may ask for: its length has 16 bits.
const DATA: usize = 65536;

// The longest output that an item may ask for: the longest frame has 8,214 bytes.
const OUTPUT: usize = 8300;

// The same of a head, which has 4.
const HEAD_OUTPUT: usize = 8;

// What an item asks for, with what its payload holds and in how many bytes.
#[derive(Clone, Copy, Debug, PartialEq, Eq)]
enum Item {
    // profile (4), place (2), bytes: the frame at the place is read, and the frames from there on
    Read,
    // profile (4), output (2), place (2), kind (1), reliable, sequence and order number (4 each), channel (1), whether it is a piece (1),
    // count (4), id (2), index (4), length (2) and seed (2) of the body
    Write,
    // output (2), number (4)
    Head,
    // output (2), length (2) of the data, mtu (2), id (2), k (4), channel (1), order number (4), reliable number (4)
    Piece,
    // profile (4), length (2), bytes: Read, from place 0, of a pattern that long whose first bytes are the given ones
    Long,
}

impl TryFrom<u8> for Item {
    type Error = u8;

    fn try_from(tag: u8) -> Result<Item, u8> {
        match tag {
            1 => Ok(Item::Read),
            2 => Ok(Item::Write),
            3 => Ok(Item::Head),
            4 => Ok(Item::Piece),
            5 => Ok(Item::Long),
            _ => Err(tag),
        }
    }
}

// The front that is as long as the payload asks for at this place, or as there are bytes.
fn front<'a>(space: &'a mut [u8], p: &[u8], at: usize) -> &'a mut [u8] {
    let n = replay::within(space, usize::from(base::be16_at(p, at)));
    &mut space[..n]
}

// (`as u64`, here and below: usize has no From to it.)
fn show_frame(rt: &impl Print, found: FrameFound, s: &[u8]) {
    let placed = found.placed;
    let f = placed.frame;
    let values = [
        u64::from(f.kind),
        u64::from(f.reliable),
        u64::from(f.sequence),
        u64::from(f.order),
        u64::from(f.channel),
        u64::from(f.piece),
        u64::from(f.meta.count),
        u64::from(f.meta.id),
        u64::from(f.meta.index),
        placed.start as u64,
        placed.len as u64,
        found.next as u64,
    ];
    let body = replay::part(s, placed.start, found.next);
    replay::line_with(rt, b"frame", 0, &values, body);
}

// The exported call, as other languages have it: a number beside the values, 0 where they are there.
fn read_one(rt: &impl Print, profile: u32, s: &[u8], at: usize) {
    let found = exports_frames::poghduka_read_frame(profile, s, at);
    if found.number == 0 {
        show_frame(rt, found, s);
    } else {
        replay::line(rt, b"frame", u64::from(found.number), &[]);
    }
}

fn read(rt: &impl Print, profile: u32, s: &[u8], at: usize) {
    read_one(rt, profile, s, at);
    let found = exports_frames::poghduka_read_frames(profile, s, at);
    let number = u64::from(found.number);
    let values = [found.count as u64, found.left as u64];
    replay::line(rt, b"frames", number, replay::given(number, &values));
}

fn read_item(rt: &impl Print, p: &[u8]) {
    let at = usize::from(base::be16_at(p, 4));
    read(rt, base::be32_at(p, 0), replay::part(p, 6, p.len()), at);
}

fn long_item(rt: &impl Print, p: &[u8]) {
    let mut data = [0u8; DATA];
    let s = front(&mut data, p, 4);
    replay::fill(s, DATA_SEED);
    base::put_all(s, 0, replay::part(p, 6, p.len()));
    read(rt, base::be32_at(p, 0), s, 0);
}

fn frame_of(p: &[u8]) -> Frame {
    Frame {
        kind: base::byte(p, 8),
        reliable: base::be32_at(p, 9),
        sequence: base::be32_at(p, 13),
        order: base::be32_at(p, 17),
        channel: base::byte(p, 21),
        piece: base::byte(p, 22) != 0,
        meta: FragmentMeta {
            count: base::be32_at(p, 23),
            id: base::be16_at(p, 27),
            index: base::be32_at(p, 29),
        },
    }
}

fn show_written(rt: &impl Print, word: &[u8], written: FrameWritten, out: &[u8]) {
    let number = u64::from(written.number);
    let values = [written.next as u64];
    replay::line_with(rt, word, number, replay::given(number, &values), out);
}

fn write_item(rt: &impl Print, p: &[u8]) {
    let mut data = [0u8; DATA];
    let body = front(&mut data, p, 33);
    replay::fill(body, base::be16_at(p, 35));
    let mut space = [0xEEu8; OUTPUT];
    let out = front(&mut space, p, 4);
    let at = usize::from(base::be16_at(p, 6));
    let profile = base::be32_at(p, 0);
    let written = exports_frames::poghduka_write_frame(profile, out, at, frame_of(p), body);
    show_written(rt, b"write", written, out);
}

fn head_item(rt: &impl Print, p: &[u8]) {
    let mut space = [0xEEu8; HEAD_OUTPUT];
    let out = front(&mut space, p, 0);
    let number = exports_frames::poghduka_write_head(out, base::be32_at(p, 2));
    replay::line_with(rt, b"head", u64::from(number), &[], out);
}

fn piece_item(rt: &impl Print, p: &[u8]) {
    let mut bytes = [0u8; DATA];
    let data = front(&mut bytes, p, 2);
    replay::fill(data, DATA_SEED);
    let mut space = [0xEEu8; OUTPUT];
    let out = front(&mut space, p, 0);
    let written = exports_frames::poghduka_write_piece(
        data,
        base::be16_at(p, 4),
        base::be16_at(p, 6),
        base::be32_at(p, 8),
        base::byte(p, 12),
        base::be32_at(p, 13),
        base::be32_at(p, 17),
        out,
    );
    show_written(rt, b"piece", written, out);
}

// An unknown tag gives no answer.
fn replay_item(rt: &impl Print, tag: u8, p: &[u8]) {
    match Item::try_from(tag) {
        Ok(Item::Read) => read_item(rt, p),
        Ok(Item::Write) => write_item(rt, p),
        Ok(Item::Head) => head_item(rt, p),
        Ok(Item::Piece) => piece_item(rt, p),
        Ok(Item::Long) => long_item(rt, p),
        Err(_) => {}
    }
}

// (Three programs have this `main`, each with its own items: what they share is `replay::replay`, and the buffer is the program's.)
fn main(rt: HostRuntime) -> io::Result<()> {
    let mut input = [0u8; INPUT];
    replay::replay(
        &mut rt.stdin(),
        &mut input,
        |tag, p| replay_item(&rt, tag, p),
    )?;
    Ok(())
}
