// Runs both forms of the missing list, by words and number by number, on windows read from standard input, sound and unsound ones and bits
// of other lengths than 256, and prints for each how many numbers were stored, 1 where the two agree in all, and the list's checksum.
//
// Items are as crate `replay` has them, every number big-endian. The items and the expected output were made by tools/wire.py, which has
// its own missing list, written from document 01's sentences.

#![tactic(auto)]

use std::io;

// At most so many bytes of the input are read: the stored one is shorter. (Arrays and no `Vec`: the programs here have no heap.)
const INPUT: usize = 65536;

// The one kind of item, and so no enum: low (4), length of the bits (2), length of the list (2), shape (1), place (2), seed (4)
const WINDOW: u8 = 1;

// The largest bits and lists that an item may ask for.
const BITS: usize = 512;

const LIST: usize = 2100;

// What the bits are made of. An unknown shape has no place set.
#[derive(Clone, Copy, Debug, PartialEq, Eq)]
enum Shape {
    Clear,
    Full,
    Drawn,
    Sparse,
    Dense,
    MostlyFull,
    MostlyClear,
    EverySecond,
    // all clear but the item's place
    OneSet,
    // all set but the item's place
    OneClear,
}

impl From<u8> for Shape {
    fn from(shape: u8) -> Shape {
        match shape {
            1 => Shape::Full,
            2 => Shape::Drawn,
            3 => Shape::Sparse,
            4 => Shape::Dense,
            5 => Shape::MostlyFull,
            6 => Shape::MostlyClear,
            7 => Shape::EverySecond,
            8 => Shape::OneSet,
            9 => Shape::OneClear,
            _ => Shape::Clear,
        }
    }
}

// The next number that is drawn; its top 8 bits are the byte.
fn drawn(x: u32) -> u32 {
    x.wrapping_mul(1664525).wrapping_add(1013904223)
}

fn top_byte(x: u32) -> u8 {
    let [top, _, _, _] = x.to_be_bytes();
    top
}

// Mostly x: where a is small it is y.
fn mostly(a: u8, x: u8, y: u8) -> u8 {
    if a < 16 { y } else { x }
}

// A byte of this shape, of three bytes that were drawn for it.
fn shaped(shape: Shape, a: u8, b: u8, c: u8) -> u8 {
    match shape {
        Shape::Clear | Shape::OneSet => 0,
        Shape::Full | Shape::OneClear => 255,
        Shape::Drawn => a,
        Shape::Sparse => a & b & c,
        Shape::Dense => a | b | c,
        Shape::MostlyFull => mostly(a, 255, b),
        Shape::MostlyClear => mostly(a, 0, b),
        Shape::EverySecond => 85,
    }
}

fn fill(bits: &mut [u8], shape: Shape, seed: u32) {
    let mut x = seed;
    for byte in bits.iter_mut() {
        let a = drawn(x);
        let b = drawn(a);
        x = drawn(b);
        *byte = shaped(shape, top_byte(a), top_byte(b), top_byte(x));
    }
}

fn flip(bits: &mut [u8], place: u16) {
    if let Some(byte) = bits.get_mut(usize::from(place / 8)) {
        *byte ^= 1 << (place % 8);
    }
}

fn make(bits: &mut [u8], shape: Shape, place: u16, seed: u32) {
    fill(bits, shape, seed);
    if matches!(shape, Shape::OneSet | Shape::OneClear) {
        flip(bits, place);
    }
}

// Both forms on one window, each into a list of its own. (`as u64`: usize has no From to it.)
fn compare(rt: &impl Print, low: u32, bits: &[u8], by_words: &mut [u32], plain: &mut [u32]) {
    let count = window::missing_in(low, bits, by_words);
    let other = missing_plain::missing_in(low, bits, plain);
    let agree = count == other && &*by_words == &*plain;
    let sum = replay::checksum(by_words);
    replay::line(rt, b"missing", 0, &[count as u64, u64::from(agree), sum]);
}

// The fronts that the item asks for.
fn window_item(rt: &impl Print, p: &[u8]) {
    let mut bits = [0u8; BITS];
    let n = replay::within(&bits, usize::from(base::be16_at(p, 4)));
    let shape = Shape::from(base::byte(p, 8));
    make(
        &mut bits[..n],
        shape,
        base::be16_at(p, 9),
        base::be32_at(p, 11),
    );
    let mut by_words = [base::NUMBERS_24; LIST];
    let mut plain = by_words;
    let room = replay::within(&plain, usize::from(base::be16_at(p, 6)));
    compare(
        rt,
        base::be32_at(p, 0),
        &bits[..n],
        &mut by_words[..room],
        &mut plain[..room],
    );
}

// An unknown tag gives no answer.
fn replay_item(rt: &impl Print, tag: u8, p: &[u8]) {
    if tag == WINDOW {
        window_item(rt, p);
    }
}

// (Three programs have this `main`, each with its own items: what they share is `replay::replay`, and the buffer is the program's.)
fn main(rt: HostRuntime) -> io::Result<()> {
    let mut input = [0u8; INPUT];
    replay::replay(
        &mut rt.stdin(),
        &mut input,
        |tag, p| replay_item(&rt, tag, p),
    )?;
    Ok(())
}
