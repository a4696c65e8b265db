// Round trips of random data, read from standard input as stored items: messages are split, their pieces written into datagrams one after
// another, in whatever order the items say, each datagram is received, and what is ready is taken and compared with the data, made anew.
//
// Items and lines are as crate `replay` has them, every number big-endian. Of a receiver: `new` and the number of a refusal, or 0. Of a
// datagram: `piece` and the number for each piece that was refused; then `d`, the number or 0, how long it is and the sum of its bytes,
// and, where it is accepted, messages made ready, frames dropped and bytes left; `head` and the number alone, where that was refused. Of a
// message taken: `same`, where kind, channel, order number and all bytes are those of a message that was split, or `other`; 0, channel,
// order number, kind, length and sum.
//
// The items and the expected output were made by tools/round_trip.py, which splits, writes, receives and joins by the sentences of
// document 01 and of document 02, 6/13, and not by this code: the two agree only where both say what the documents say.

#![tactic(auto)]

mod receiving;
mod sending;

use receiving::{CELLS, Receiver, STORE};
use recv_queue::{Profile, Received, Refusal, Taken};
use reliability::Reliability;
use sending::{PIECE, Sender};
use std::io;

// At most so many bytes of the input are read: the stored one is shorter. (Arrays and no `Vec`: the programs here have no heap.)
const INPUT: usize = 150000;

// The longest data that is split: as many pieces as there may be, of the longest chunk. (`as usize`: a const can call no From.)
const DATA: usize = (base::MAX_MTU - base::RAKNET_HEADER_FRAME_OVERHEAD) as usize * CELLS;

// What an item asks for, with what its payload holds and in how many bytes.
#[derive(Clone, Copy, Debug, PartialEq, Eq)]
enum Item {
    // cells (2), profile (2): another trip, with a new receiver; the messages are forgotten
    New,
    // seed (4), length (4), mtu (2), id (2), channel (1), order number (4): one message more, its data filled
    Message,
    // number (4), then for each piece in it: which message (1), which piece (2), reliable number (4)
    Datagram,
}

impl TryFrom<u8> for Item {
    type Error = u8;

    fn try_from(tag: u8) -> Result<Item, u8> {
        match tag {
            b'N' => Ok(Item::New),
            b'M' => Ok(Item::Message),
            b'D' => Ok(Item::Datagram),
            _ => Err(tag),
        }
    }
}

// ---- a datagram's way

fn rest(out: &mut [u8], at: usize) -> &mut [u8] {
    let at = replay::within(out, at);
    &mut out[at..]
}

// The datagram that the payload asks for; how long it is. Each piece is written into the unwritten rest.
fn write(rt: &impl Print, sender: &Sender, p: &[u8], out: &mut [u8]) -> Result<usize, Refusal> {
    frame_write::write_head(out, base::be32_at(p, 0))?;
    let mut end = base::MIN_DATAGRAM;
    for piece in replay::part(p, 4, p.len()).chunks_exact(PIECE) {
        match sender.write_piece(piece, rest(out, end)) {
            Ok(n) => end = end.saturating_add(n),
            Err(refusal) => {
                replay::refused(rt, b"piece", refusal);
            }
        }
    }
    Ok(end)
}

// (`as u64`, here and below: usize has no From to it.)
fn show_received(rt: &impl Print, datagram: &[u8], answer: Result<Received, Refusal>) {
    let (len, sum) = (datagram.len() as u64, replay::sum(datagram));
    match answer {
        Ok(r) => {
            let (ready, dropped) = (u64::from(r.ready), u64::from(r.dropped));
            replay::line(rt, b"d", 0, &[len, sum, ready, dropped, r.left as u64]);
        }
        Err(refusal) => {
            replay::line(rt, b"d", u64::from(u32::from(refusal)), &[len, sum]);
        }
    }
}

fn is_same(sender: &Sender, taken: Taken, body: &[u8]) -> bool {
    let kind = u8::from(Reliability::ReliableOrd);
    let message = sender.message(taken.channel, taken.order);
    taken.kind == kind && message.is_some_and(|m| m.has_data(body))
}

fn show_taken(rt: &impl Print, sender: &Sender, taken: Taken, body: &[u8]) {
    let word: &[u8] = if is_same(sender, taken, body) {
        b"same"
    } else {
        b"other"
    };
    let values = [
        u64::from(taken.channel),
        u64::from(taken.order),
        u64::from(taken.kind),
        body.len() as u64,
        replay::sum(body),
    ];
    replay::line(rt, word, 0, &values);
}

// Takes until none is ready: there are no more messages than cells.
fn take_all(rt: &impl Print, sender: &Sender, receiver: &mut Receiver) {
    for _ in 0..CELLS {
        let Ok(taken) = receiver.take() else {
            return;
        };
        show_taken(rt, sender, taken, receiver.body(taken));
    }
}

fn send(rt: &impl Print, sender: &Sender, receiver: &mut Receiver, p: &[u8]) {
    let mut out = [0u8; base::MAX_DATAGRAM];
    match write(rt, sender, p, &mut out) {
        Ok(len) => {
            let datagram = replay::part(&out, 0, len);
            show_received(rt, datagram, receiver.receive(datagram));
            take_all(rt, sender, receiver);
            receiver.empty_unsent();
        }
        Err(refusal) => {
            replay::refused(rt, b"head", refusal);
        }
    }
}

// ---- items

fn begin(receiver: &mut Receiver, p: &[u8]) -> Result<(), Refusal> {
    let profile = Profile::try_from(u32::from(base::be16_at(p, 2)))?;
    receiver.make_new(usize::from(base::be16_at(p, 0)), profile)
}

// An unknown tag gives no answer.
fn replay_item(rt: &impl Print, sender: &mut Sender, receiver: &mut Receiver, tag: u8, p: &[u8]) {
    match Item::try_from(tag) {
        Ok(Item::New) => {
            sender.forget_all();
            let number = begin(receiver, p).map_or_else(u32::from, |()| 0);
            replay::line(rt, b"new", u64::from(number), &[]);
        }
        Ok(Item::Message) => sender.add(p),
        Ok(Item::Datagram) => send(rt, sender, receiver, p),
        Err(_) => {}
    }
}

// (A function of its own: of a parameter the proof knows how long it is, where it counts the bytes of an array that it sees made.)
fn whole<const N: usize>(bytes: &mut [u8; N]) -> &mut [u8] {
    bytes
}

fn main(rt: HostRuntime) -> io::Result<()> {
    let mut input = [0u8; INPUT];
    let mut data = [0u8; DATA];
    let mut store = [0u8; STORE];
    let mut joined = [0u8; DATA];
    let mut sender = Sender::new(whole(&mut data));
    let mut receiver = Receiver {
        queue: recv_queue::new_queue(Profile::Console),
        records: &mut [recv_queue::unused(); CELLS],
        store: whole(&mut store),
        joined: whole(&mut joined),
        cells: 0,
    };
    replay::replay(
        &mut rt.stdin(),
        &mut input,
        |tag, p| replay_item(&rt, &mut sender, &mut receiver, tag, p),
    )?;
    Ok(())
}
