// Replays stored items on the window, read from standard input, and prints every answer.
//
// Items and lines are as crate `replay` has them, every number big-endian. The window goes from item to item.
//
// The items and the expected output were made by tools/wire.py, which has its own window, written from document 01's sentences and not from
// this code: the two agree only where both say what document 01 says.

#![tactic(auto)]

use std::io;
use window::ReliableWindow;

// At most so many bytes of the input are read: the stored one is shorter. (Arrays and no `Vec`: the programs here have no heap.)
const INPUT: usize = 65536;

// What an item asks for, with what its payload holds and in how many bytes.
#[derive(Clone, Copy, Debug, PartialEq, Eq)]
enum Item {
    New,
    // low (4), of a window with no place set
    At,
    // first number (4), how many (2): all are inserted, and the last one's answer is printed
    Insert,
    Missing,
}

impl TryFrom<u8> for Item {
    type Error = u8;

    fn try_from(tag: u8) -> Result<Item, u8> {
        match tag {
            1 => Ok(Item::New),
            2 => Ok(Item::At),
            3 => Ok(Item::Insert),
            4 => Ok(Item::Missing),
            _ => Err(tag),
        }
    }
}

// The answer and low.
fn show_low(rt: &impl Print, word: &[u8], number: u32, low: u32) {
    replay::line(rt, word, u64::from(number), &[u64::from(low)]);
}

fn new_window(rt: &impl Print, w: &mut ReliableWindow) {
    *w = ReliableWindow::new();
    show_low(rt, b"new", 0, w.low);
}

fn window_at(rt: &impl Print, w: &mut ReliableWindow, low: u32) {
    *w = ReliableWindow {
        low,
        bits: [0; 256],
    };
    show_low(rt, b"at", 0, low);
}

fn insert_run(rt: &impl Print, w: &mut ReliableWindow, first: u32, count: u16) {
    let mut number = 0;
    for i in 0..count {
        let inserted = exports::poghduka_window_insert(*w, first.wrapping_add(u32::from(i)));
        *w = inserted.window;
        number = inserted.number;
    }
    show_low(rt, b"insert", number, w.low);
}

// The whole list is printed, so that a number stored past the missing ones shows. (`as u64`: usize has no From to it.)
fn missing(rt: &impl Print, w: &ReliableWindow) {
    let mut list = [base::NUMBERS_24; base::MAX_LIST];
    let count = w.missing(&mut list);
    replay::line_list(rt, b"missing", 0, &[count as u64], &list);
}

// An unknown tag gives no answer.
fn replay_item(rt: &impl Print, w: &mut ReliableWindow, tag: u8, p: &[u8]) {
    match Item::try_from(tag) {
        Ok(Item::New) => new_window(rt, w),
        Ok(Item::At) => window_at(rt, w, base::be32_at(p, 0)),
        Ok(Item::Insert) => insert_run(rt, w, base::be32_at(p, 0), base::be16_at(p, 4)),
        Ok(Item::Missing) => missing(rt, w),
        Err(_) => {}
    }
}

fn main(rt: HostRuntime) -> io::Result<()> {
    let mut input = [0u8; INPUT];
    let mut window = ReliableWindow::new();
    replay::replay(
        &mut rt.stdin(),
        &mut input,
        |tag, p| replay_item(&rt, &mut window, tag, p),
    )?;
    Ok(())
}
