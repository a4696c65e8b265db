// Holds whole receivers to the original's stored answers, read from standard input, and prints how many there were and how many of ours
// were others. The answers are those of the unchanged original; oracle/driver/stored.rs made them, and the input's first item says how.
// Items are as crate `replay` has them.

#![tactic(auto)]

use base::Refusal;
use recv_array::Receiver;
use recv_queue::Profile;
use replay::Tally;
use std::io;

// At most so many bytes of the input are read. (Arrays and no `Vec`: the programs here have no heap.)
const INPUT: usize = 300000;

const STORE: usize = base::CELL_BYTES * recv_array::HELD;

const JOINED: usize = 65536;

// What an item holds.
#[derive(Clone, Copy, Debug, PartialEq, Eq)]
enum Item {
    // A new receiver of so many cells (16 bits), 1 to 256.
    New,
    // The refusal or 0 (1 byte), how many messages were made ready (16 bits), and the datagram.
    Receive,
    // The length (32 bits) and the sum (16 bits) of the message that is handed out next.
    Take,
    // The unsent numbers as ACK.
    Unsent,
    // The missing numbers as NACK.
    Missing,
}

impl TryFrom<u8> for Item {
    type Error = u8;

    fn try_from(tag: u8) -> Result<Item, u8> {
        match tag {
            b'N' => Ok(Item::New),
            b'R' => Ok(Item::Receive),
            b'T' => Ok(Item::Take),
            b'U' => Ok(Item::Unsent),
            b'M' => Ok(Item::Missing),
            _ => Err(tag),
        }
    }
}

// Our receiver, over a front of the store that is as long as its cells are, and the stored answers so far.
#[derive(Drop)]
struct Ours {
    receiver: Receiver,
    store: [u8; STORE],
    front: usize,
    joined: [u8; JOINED],
    tally: Tally,
}

impl Ours {
    fn make_new(&mut self, cells: usize) {
        let front = base::CELL_BYTES.saturating_mul(cells);
        if let Some(store) = self.store.get(..front) {
            let (receiver, _) = Receiver::new(cells, store, Profile::Console);
            self.receiver = receiver;
            self.front = front;
        }
    }

    // Within 'References' all bytes of a datagram are read.
    fn receive(&mut self, p: &[u8]) {
        let store = &mut self.store[..];
        let n = replay::within(store, self.front);
        let datagram = replay::part(p, 3, p.len());
        let answer = self.receiver.receive(&mut store[..n], datagram);
        let number = u32::from(base::byte(p, 0));
        let ready = u32::from(base::be16_at(p, 1));
        self.tally.count(match answer {
            Ok(r) => number == 0 && r.ready == ready && r.left == 0,
            Err(refusal) => number == u32::from(refusal) && ready == 0,
        });
    }

    fn take(&mut self, p: &[u8]) {
        let n = replay::within(&self.store, self.front);
        let store = &self.store[..n];
        let answer = self.receiver.take(store, &mut self.joined);
        let body = recv_queue::body(store, &self.joined, answer);
        // `as usize`: u32 has no From to it.
        let len = base::be32_at(p, 0) as usize;
        let stored_sum = u64::from(base::be16_at(p, 4));
        self.tally.count(answer.is_ok() && body.len() == len && replay::sum(body) == stored_sum);
    }

    // Right where the output's front is what is stored.
    fn count_written(&mut self, answer: Result<usize, Refusal>, p: &[u8]) {
        let out = &self.joined;
        self.tally
            .count(answer.is_ok_and(|len| replay::part(out, 0, len) == p));
    }

    // An unknown tag gives no answer.
    fn step(&mut self, tag: u8, p: &[u8]) {
        match Item::try_from(tag) {
            Ok(Item::New) => self.make_new(usize::from(base::be16_at(p, 0))),
            Ok(Item::Receive) => self.receive(p),
            Ok(Item::Take) => self.take(p),
            Ok(Item::Unsent) => {
                let answer = self.receiver.write_unsent(&mut self.joined);
                self.count_written(answer, p);
            }
            Ok(Item::Missing) => {
                let answer = self.receiver.write_missing(&mut self.joined);
                self.count_written(answer, p);
            }
            Err(_) => {}
        }
    }
}

fn main(rt: HostRuntime) -> io::Result<()> {
    let mut input = [0u8; INPUT];
    let (receiver, _) = Receiver::new(0, &[], Profile::Console);
    let mut ours = Ours {
        receiver,
        store: [0; STORE],
        front: 0,
        joined: [0; JOINED],
        tally: Tally::default(),
    };
    replay::replay(&mut rt.stdin(), &mut input, |tag, p| ours.step(tag, p))?;
    ours.tally.show(&rt, b"receivers: ");
    Ok(())
}
