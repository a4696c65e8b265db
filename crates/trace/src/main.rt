// Document 01's program `trace`: reads datagrams from standard input, each after a 16-bit big-endian length (a cut last one is skipped),
// and after each takes all ready messages and empties the acknowledgements. Per datagram one line: its number ('-' for 9, 1, 2, 3),
// refusal or 0, ready, dropped (both 0 on a refusal); then per message '+' and its length.

#![tactic(auto)]

use base::Refusal;
use recv_array::Receiver;
use recv_queue::{Body, Profile, Received};
use std::io;
use std::io::Read;

// Arrays and no `Vec`: the programs here have no heap.
const CELLS: usize = 32;

const STORE: usize = base::CELL_BYTES * CELLS;

// A length has 16 bits.
const INPUT: usize = 65535;

// The longest ACK: three bytes, and four for each number. (`as usize`: a const can call no From.)
const OUT: usize = 3 + 4 * base::MAX_UNSENT as usize;

// "its number ('-' for 9, 1, 2, 3)"; a failed write is passed over.
fn show_name(rt: &impl Print, answer: Result<Received, Refusal>, datagram: &[u8]) {
    match answer {
        Err(Refusal::NotSound | Refusal::Cut | Refusal::TooLong | Refusal::FirstByte) => {
            let _ = rt.write_all(b"-");
        }
        _ => {
            let _ = rt.print(base::le24_at(datagram, 1));
        }
    }
}

fn show_received(rt: &impl Print, answer: Result<Received, Refusal>, datagram: &[u8]) {
    show_name(rt, answer, datagram);
    match answer {
        Ok(r) => {
            let values = [u64::from(r.ready), u64::from(r.dropped)];
            replay::line(rt, b"", 0, &values);
        }
        Err(refusal) => {
            replay::line(rt, b"", u64::from(u32::from(refusal)), &[0, 0]);
        }
    }
}

// Takes until none is ready: there are no more messages than cells. (`as u64`: usize has no From to it.)
fn take_all(rt: &impl Print, x: &mut Receiver, store: &[u8], joined: &mut [u8]) {
    for _ in 0..CELLS {
        let Ok(taken) = x.take(store, joined) else {
            return;
        };
        let (Body::InStore { len, .. } | Body::Joined { len }) = taken.body;
        replay::line(rt, b"+", len as u64, &[]);
    }
}

fn empty_unsent(x: &mut Receiver) {
    let mut out = [0u8; OUT];
    let _ = x.write_unsent(&mut out);
}

// The length of the next datagram, which goes to the front of the input; none where none is whole.
fn read_datagram<R: Read>(stdin: &mut R, input: &mut [u8]) -> io::Result<Option<usize>> {
    let mut head = [0u8; 2];
    if replay::read_full(stdin, &mut head)? < head.len() {
        return Ok(None);
    }
    let len = replay::within(input, usize::from(base::be16_at(&head, 0)));
    let n = replay::read_full(stdin, &mut input[..len])?;
    Ok((n == len).then_some(len))
}

fn main(rt: HostRuntime) -> io::Result<()> {
    let mut store = [0u8; STORE];
    let mut joined = [0u8; STORE];
    let mut input = [0u8; INPUT];
    let mut stdin = rt.stdin();
    let (mut x, _) = Receiver::new(CELLS, &store, Profile::Console);
    // (`for`: what is read has no measure by which the turns end. These are far more than any input has: a turn takes two bytes or more.)
    for _ in 0..u64::MAX {
        let Some(len) = read_datagram(&mut stdin, &mut input)? else {
            return Ok(());
        };
        let datagram = replay::part(&input, 0, len);
        let answer = x.receive(&mut store, datagram);
        show_received(&rt, answer, datagram);
        take_all(&rt, &mut x, &store, &mut joined);
        empty_unsent(&mut x);
    }
    Ok(())
}
