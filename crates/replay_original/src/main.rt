// Holds our windows, ACK lists and splits to the original's stored answers, read from standard input, and prints how many there were and
// how many of ours were others. The answers are those of the unchanged original; oracle/driver/answers.rs made them, and the input's first
// item says how. Items are as crate `replay` has them; those with another tag are passed over.

#![tactic(auto)]

use base::Refusal;
use frame::{FragmentMeta, Frame};
use reliability::{Profile, Reliability};
use replay::Tally;
use std::io;
use window::ReliableWindow;

// At most so many bytes of the input are read: the stored one is shorter. (Arrays and no `Vec`: the programs here have no heap.)
const INPUT: usize = 65536;

// What an item holds.
#[derive(Clone, Copy, Debug, PartialEq, Eq)]
enum Item {
    // A new window, and four bytes for each answer: a number (24 bits little-endian), then 1 where its insert was accepted, 0 where it was
    // not, and 2 where the number is the window's low.
    Window,
    // How many numbers (16 bits), the numbers (24 bits little-endian), and the ACK's bytes.
    List,
    // How many bytes were split (32 bits) at which mtu (16), the pieces (16; 0 where it needs no split), the first one's length (16), the
    // last one's (16).
    Split,
}

impl TryFrom<u8> for Item {
    type Error = u8;

    fn try_from(tag: u8) -> Result<Item, u8> {
        match tag {
            b'W' => Ok(Item::Window),
            b'A' => Ok(Item::List),
            b'S' => Ok(Item::Split),
            _ => Err(tag),
        }
    }
}

// The byte of an answer that is the window's low. (No enum: every other byte is compared with 1 or 0 as it is, and one above 2 is wrong.)
const LOW: u8 = 2;

fn window_item(p: &[u8], t: &mut Tally) {
    let mut window = ReliableWindow::new();
    for answer in p.chunks_exact(4) {
        let n = base::le24_at(answer, 0);
        t.count(match base::byte(answer, 3) {
            LOW => window.low == n,
            accepted => u8::from(window.insert(n).is_ok()) == accepted,
        });
    }
}

// Room for every list's ACK, of which the longest has 8,195 bytes, and for every piece's frame.
const OUTPUT: usize = 8300;

// The numbers stand three bytes apart.
fn list_item(p: &[u8]) -> bool {
    let mut list = [0u32; base::MAX_LIST];
    let mut out = [0u8; OUTPUT];
    let n = replay::within(&list, usize::from(base::be16_at(p, 0)));
    for (number, bytes) in list[..n]
        .iter_mut()
        .zip(replay::part(p, 2, p.len()).chunks(3))
    {
        *number = base::le24_at(bytes, 0);
    }
    let ack = replay::part(p, 2 + 3 * n, p.len());
    ack::write_list(&mut out, false, &list[..n]).is_ok_and(|len| replay::part(&out, 0, len) == ack)
}

// What the sender puts into each frame, beside what the split says.
const ID: u16 = 0xABCD;

const CHANNEL: u8 = 31;

const ORDER: u32 = 0x090807;

const RELIABLE: u32 = 0x030201;

// Piece k of a message, at the start of the output.
fn write_piece(data: &[u8], mtu: u16, k: u32, out: &mut [u8]) -> Result<usize, Refusal> {
    split::write_piece(data, mtu, ID, k, CHANNEL, ORDER, RELIABLE, out)
}

// Is piece `index` of so many written as one frame, of kind 3, and this part of the data its body?
fn piece_right(data: &[u8], mtu: u16, count: u32, index: u32, part: &[u8]) -> bool {
    let mut out = [0u8; OUTPUT];
    let frame = Frame {
        kind: Reliability::ReliableOrd.into(),
        reliable: RELIABLE,
        sequence: 0,
        order: ORDER,
        channel: CHANNEL,
        piece: true,
        meta: FragmentMeta {
            count,
            id: ID,
            index,
        },
    };
    let written = write_piece(data, mtu, index, &mut out);
    frame::read_frame(Profile::Console, &out, 0).is_ok_and(|(placed, next)| {
        written == Ok(next)
            && placed.frame == frame
            && replay::part(&out, placed.start, next) == part
    })
}

// All pieces up to the last but one have the first one's length, and after the last there is none. (`as usize`: u32 has no From to it.)
fn pieces_right(data: &[u8], mtu: u16, count: u32, first: usize, last: usize) -> bool {
    (0..count).all(|index| {
        let start = first.saturating_mul(index as usize);
        let len = if index < count - 1 { first } else { last };
        let part = replay::part(data, start, start.saturating_add(len));
        piece_right(data, mtu, count, index, part)
    }) && write_piece(data, mtu, count, &mut [0u8; OUTPUT]) == Err(Refusal::BeyondLast)
}

fn split_right(data: &[u8], p: &[u8]) -> bool {
    let mtu = base::be16_at(p, 4);
    let count = u32::from(base::be16_at(p, 6));
    if count == 0 {
        return write_piece(data, mtu, 0, &mut [0u8; OUTPUT]) == Err(Refusal::FitsOneChunk);
    }
    let first = usize::from(base::be16_at(p, 8));
    let last = usize::from(base::be16_at(p, 10));
    pieces_right(data, mtu, count, first, last)
}

// The longest data that an item may ask for.
const DATA: usize = 65536;

// (`as usize`: u32 has no From to it.)
fn split_item(p: &[u8]) -> bool {
    let mut data = [0u8; DATA];
    let n = replay::within(&data, base::be32_at(p, 0) as usize);
    replay::fill(&mut data[..n], 0);
    split_right(&data[..n], p)
}

fn main(rt: HostRuntime) -> io::Result<()> {
    let mut input = [0u8; INPUT];
    let mut windows = Tally::default();
    let mut lists = Tally::default();
    let mut splits = Tally::default();
    replay::replay(
        &mut rt.stdin(),
        &mut input,
        |tag, p| match Item::try_from(tag) {
            Ok(Item::Window) => window_item(p, &mut windows),
            Ok(Item::List) => lists.count(list_item(p)),
            Ok(Item::Split) => splits.count(split_item(p)),
            Err(_) => (),
        },
    )?;
    windows.show(&rt, b"windows: ");
    lists.show(&rt, b"lists: ");
    splits.show(&rt, b"splits: ");
    Ok(())
}
