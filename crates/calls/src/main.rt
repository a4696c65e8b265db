// Replays a list of calls, read from standard input, and prints every answer.
//
// Input: the number of cells, 16 bits big-endian, 1 to 256 (else `- 9` is printed and nothing else); then per call one byte and 16 bits n
// big-endian: 0 receive, followed by n bytes; 1 take with a joining buffer of n bytes; 2 write the unsent, 3 write the missing, each into
// an output of n bytes; 4 a new receiver over the same cells, of profile n (0 console, 1 C++; above 1 ends the list); 5 drop unfinished
// joins, followed by two bytes, the lower half of a number whose upper half is n; 6 save into an output of 64 n bytes, at most 1,048,576:
// the image written is kept; 7 restore the image kept (empty where none is) into n cells, with which the list goes on; 8 restore into n
// cells an image that follows after its length, 32 bits big-endian (above 1,048,576 ends the list). The first receiver is a console's. A
// cut call ends the input, as does another first byte. A refused restore changes nothing; a restored receiver's store begins as zeros.
// Output, one line a call: `r 0 READY DROPPED LEFT`, `t 0 LENGTH SUM KIND CHANNEL ORDER`, `u 0 LENGTH SUM`, `m 0 LENGTH SUM`, `n 0`,
// `x 0 FREED`, `s 0 LENGTH SUM`, `i 0`; on a refusal the letter and document 01's number. SUM is over the bytes handed out: from 1 on, for
// each byte h = (31 h + byte) mod 65521.

#![tactic(auto)]

use base::Refusal;
use recv_array::Receiver;
use recv_queue::{Profile, Received, Taken};
use std::io;
use std::io::Read;

// Arrays and no `Vec`: the programs here have no heap.
const STORE: usize = base::CELL_BYTES * recv_array::HELD;

// The longest image that is saved or read. (A call's number has 16 bits, so that a joining buffer, an output or a datagram is shorter.)
const IMAGE: usize = 1_048_576;

// A save's number counts so many bytes of its output.
const SAVE_UNIT: usize = 64;

// ---- the input

#[derive(Clone, Copy, Debug, PartialEq, Eq)]
enum Call {
    Receive,
    Take,
    WriteUnsent,
    WriteMissing,
    New(Profile),
    // The upper half of its number.
    DropUnfinished(u16),
    Save(u16),
    // So many cells.
    RestoreKept(u16),
    Restore(u16),
}

// What a call's first byte and its number ask for; nothing where they end the list.
fn call_of(first: u8, number: u16) -> Option<Call> {
    match first {
        0 => Some(Call::Receive),
        1 => Some(Call::Take),
        2 => Some(Call::WriteUnsent),
        3 => Some(Call::WriteMissing),
        4 => Profile::try_from(u32::from(number)).ok().map(Call::New),
        5 => Some(Call::DropUnfinished(number)),
        6 => Some(Call::Save(number)),
        7 => Some(Call::RestoreKept(number)),
        8 => Some(Call::Restore(number)),
        _ => None,
    }
}

// Reads so many bytes to the buffer's front; none where the input is cut.
fn read_front<R: Read>(stdin: &mut R, buffer: &mut [u8], n: usize) -> io::Result<Option<usize>> {
    let n = replay::within(buffer, n);
    let read = replay::read_full(stdin, &mut buffer[..n])?;
    Ok((read == n).then_some(n))
}

// Reads an image after its length; none where the input is cut or the image too long.
fn read_image<R: Read>(stdin: &mut R, buffer: &mut [u8]) -> io::Result<Option<usize>> {
    let mut head = [0u8; 4];
    if replay::read_full(stdin, &mut head)? < head.len() {
        return Ok(None);
    }
    let n = base::be32_at(&head, 0) as usize;
    if IMAGE < n {
        return Ok(None);
    }
    read_front(stdin, buffer, n)
}

// The next call, and how many bytes of the buffer are its own; none where the input ends. A datagram follows its call, an image a restore,
// and two bytes a drop; the other calls write over what stands there.
fn read_call<R: Read>(stdin: &mut R, buffer: &mut [u8]) -> io::Result<Option<(Call, usize)>> {
    let mut head = [0u8; 3];
    if replay::read_full(stdin, &mut head)? < head.len() {
        return Ok(None);
    }
    let number = base::be16_at(&head, 1);
    let Some(call) = call_of(head[0], number) else {
        return Ok(None);
    };
    let n = match call {
        Call::Receive => read_front(stdin, buffer, usize::from(number))?,
        Call::DropUnfinished(_) => read_front(stdin, buffer, 2)?,
        Call::Restore(_) => read_image(stdin, buffer)?,
        _ => Some(usize::from(number)),
    };
    Ok(n.map(|n| (call, n)))
}

// The number of cells, if the input has one.
fn read_cells<R: Read>(stdin: &mut R) -> io::Result<Option<u16>> {
    let mut head = [0u8; 2];
    let n = replay::read_full(stdin, &mut head)?;
    Ok((n == head.len()).then_some(base::be16_at(&head, 0)))
}

// ---- the calls

// (`as u64`, here and below: usize has no From to it.)
fn received_values(r: Received) -> [u64; 3] {
    [u64::from(r.ready), u64::from(r.dropped), r.left as u64]
}

fn taken_values(taken: Taken, body: &[u8]) -> [u64; 5] {
    [
        body.len() as u64,
        replay::sum(body),
        u64::from(taken.kind),
        u64::from(taken.channel),
        u64::from(taken.order),
    ]
}

fn written_values(len: usize, out: &[u8]) -> [u64; 2] {
    [len as u64, replay::sum(replay::part(out, 0, len))]
}

// A line of an answer: 0 and its values, or a refusal's number.
fn answered<const N: usize>(rt: &impl Print, word: &[u8], answer: Result<[u64; N], Refusal>) {
    match answer {
        Ok(values) => {
            replay::line(rt, word, 0, &values);
        }
        Err(refusal) => {
            replay::refused(rt, word, refusal);
        }
    }
}

fn take(x: &mut Receiver, store: &[u8], joined: &mut [u8]) -> Result<[u64; 5], Refusal> {
    let answer = x.take(store, joined);
    let body = recv_queue::body(store, joined, answer);
    answer.map(|taken| taken_values(taken, body))
}

fn make_new(x: &mut Receiver, store: &[u8], profile: Profile) -> Result<[u64; 0], Refusal> {
    let (made, answer) = Receiver::new(x.cells, store, profile);
    *x = made;
    answer.map(|()| [])
}

fn drop_unfinished(x: &mut Receiver, store: &[u8], n: u32) -> Result<[u64; 1], Refusal> {
    let freed = x.drop_unfinished(store, n)?;
    Ok([u64::from(freed)])
}

// ---- images

// The image that the last save wrote: the front of these bytes.
#[derive(Drop)]
struct Kept {
    bytes: [u8; IMAGE],
    len: usize,
}

impl Kept {
    fn image(&self) -> &[u8] {
        replay::part(&self.bytes, 0, self.len)
    }
}

// A refused save leaves the image that is kept.
fn save(x: &Receiver, store: &[u8], number: u16, kept: &mut Kept) -> Result<[u64; 2], Refusal> {
    let room = replay::within(&kept.bytes, SAVE_UNIT * usize::from(number));
    let len = x.save(store, &mut kept.bytes[..room])?;
    kept.len = len;
    Ok(written_values(len, kept.image()))
}

// The image is restored into another receiver, over a store of zeros; the list goes on with it where that is not refused. (A function of
// its own, and never inlined: it needs as large a store again.)
#[inline(never)]
fn restore(
    x: &mut Receiver,
    whole: &mut [u8; STORE],
    cells: u16,
    image: &[u8],
) -> Result<[u64; 0], Refusal> {
    let cells = usize::from(cells);
    let mut zeros = [0u8; STORE];
    let store = zeros
        .get_mut(..base::CELL_BYTES * cells)
        .ok_or(Refusal::NotSound)?;
    let (mut restored, made) = Receiver::new(cells, store, Profile::Console);
    made?;
    restored.restore(store, image)?;
    *x = restored;
    *whole = zeros;
    Ok([])
}

// ---- the list

// One call, over its own bytes and, of the store, the part that the receiver's cells have.
fn replay_call(
    rt: &impl Print,
    x: &mut Receiver,
    whole: &mut [u8; STORE],
    kept: &mut Kept,
    call: Call,
    bytes: &mut [u8],
) {
    let n = replay::within(whole, base::CELL_BYTES.saturating_mul(x.cells));
    let store = &mut whole[..n];
    match call {
        Call::Receive => answered(rt, b"r", x.receive(store, bytes).map(received_values)),
        Call::Take => answered(rt, b"t", take(x, store, bytes)),
        Call::WriteUnsent => {
            let answer = x.write_unsent(bytes);
            answered(rt, b"u", answer.map(|len| written_values(len, bytes)));
        }
        Call::WriteMissing => {
            let answer = x.write_missing(bytes);
            answered(rt, b"m", answer.map(|len| written_values(len, bytes)));
        }
        Call::New(profile) => answered(rt, b"n", make_new(x, store, profile)),
        Call::DropUnfinished(high) => {
            let n = u32::from(high) * 65536 + u32::from(base::be16_at(bytes, 0));
            answered(rt, b"x", drop_unfinished(x, store, n));
        }
        Call::Save(number) => answered(rt, b"s", save(x, store, number, kept)),
        Call::RestoreKept(cells) => answered(rt, b"i", restore(x, whole, cells, kept.image())),
        Call::Restore(cells) => answered(rt, b"i", restore(x, whole, cells, bytes)),
    }
}

// The calls of the input.
fn replay<R: Read>(
    rt: &impl Print,
    stdin: &mut R,
    x: &mut Receiver,
    store: &mut [u8; STORE],
    kept: &mut Kept,
    buffer: &mut [u8; IMAGE],
) -> io::Result<()> {
    // (`for`: what is read has no measure by which the turns end. These are far more than any input has: a call takes three bytes or more.)
    for _ in 0..u64::MAX {
        let Some((call, n)) = read_call(stdin, buffer)? else {
            return Ok(());
        };
        let n = replay::within(buffer, n);
        replay_call(rt, x, store, kept, call, &mut buffer[..n]);
    }
    Ok(())
}

// A console's receiver, over a store of just so many cells.
fn begin(cells: usize, store: &[u8; STORE]) -> Result<Receiver, Refusal> {
    let store = store
        .get(..base::CELL_BYTES.saturating_mul(cells))
        .ok_or(Refusal::NotSound)?;
    let (x, made) = Receiver::new(cells, store, Profile::Console);
    made.map(|()| x)
}

fn main(rt: HostRuntime) -> io::Result<()> {
    let mut store = [0u8; STORE];
    let mut buffer = [0u8; IMAGE];
    let mut kept = Kept {
        bytes: [0u8; IMAGE],
        len: 0,
    };
    let mut stdin = rt.stdin();
    let cells = read_cells(&mut stdin)?.unwrap_or(0);
    match begin(usize::from(cells), &store) {
        Ok(mut x) => replay(&rt, &mut stdin, &mut x, &mut store, &mut kept, &mut buffer),
        Err(refusal) => {
            replay::refused(&rt, b"-", refusal);
            Ok(())
        }
    }
}
