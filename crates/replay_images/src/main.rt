// Replays stored images, read from standard input: restores them, saves what they restored to, and restores damaged ones, made from the
// image of the item before. After each refusal all must be as it was; what restores must be what is saved again. How often it was not
// stands at the lines' end: 0.
//
// Items and lines are as crate `replay` has them, every number big-endian. What is lent goes from item to item.
//
// The items and the expected output were made by tools/images.py, which writes and judges images by the sentences on their form, and not by
// this code: the two agree only where both say what those say.

#![tactic(auto)]

mod damages;
mod lent;

use damages::{Change, Trials};
use lent::{CELLS, FEW, FEW_STORE, IMAGE, JOINED, Kept, Lent, STORE};
use recv_queue::{Profile, Refusal};
use std::io;

// At most so many bytes of the input are read: the stored one is shorter. (Arrays and no `Vec`: the programs here have no heap.)
const INPUT: usize = 200000;

// What an item asks for, with what its payload holds and in how many bytes. "Lent" is how many records (2), and of the store how many bytes
// (4).
#[derive(Clone, Copy, Debug, PartialEq, Eq)]
enum Item {
    // cells (2), profile (2)
    New,
    // a datagram
    Receive,
    Take,
    Unsent,
    // the number (4)
    Drop,
    // the image that is saved
    Save,
    // lent, an image; the one before, where there is none
    Restore,
    // lent; the image is cut at each place
    Cuts,
    // lent, numbers (8); each is put at each place of the image
    Sweep,
    // lent; changes: place (4), how many bytes go (2), how many come (2), these
    Changes,
}

impl TryFrom<u8> for Item {
    type Error = u8;

    fn try_from(tag: u8) -> Result<Item, u8> {
        match tag {
            b'N' => Ok(Item::New),
            b'D' => Ok(Item::Receive),
            b'T' => Ok(Item::Take),
            b'U' => Ok(Item::Unsent),
            b'X' => Ok(Item::Drop),
            b'S' => Ok(Item::Save),
            b'R' => Ok(Item::Restore),
            b'C' => Ok(Item::Cuts),
            b'W' => Ok(Item::Sweep),
            b'B' => Ok(Item::Changes),
            _ => Err(tag),
        }
    }
}

// After the records and the store that are lent.
const LENT: usize = 6;

// The trials, the image of the last item that had one, and room for a damaged one.
#[derive(Drop)]
struct Images<'a> {
    trials: Trials<'a>,
    image: [u8; IMAGE],
    len: usize,
    damaged: [u8; IMAGE],
}

impl<'a> Images<'a> {
    // An image longer than there is room for is cut.
    fn set_image(&mut self, image: &[u8]) {
        self.len = base::put_all(&mut self.image, 0, image);
    }

    fn make_new(&mut self, cells: u16, profile: u16) -> Result<(), Refusal> {
        let cells = usize::from(cells);
        self.trials.lend(cells, base::CELL_BYTES * cells);
        let profile = Profile::try_from(u32::from(profile))?;
        self.trials.lent.make_new(profile)
    }

    // (`as usize`: u32 has no From to it.)
    fn begin(&mut self, p: &[u8]) {
        let cells = usize::from(base::be16_at(p, 0));
        self.trials.begin(cells, base::be32_at(p, 2) as usize);
    }

    fn cuts(&mut self) {
        for n in 0..self.len {
            self.trials.run(replay::part(&self.image, 0, n));
        }
    }

    // The image with a change.
    fn run_changed(&mut self, change: Change, new: &[u8]) {
        let image = replay::part(&self.image, 0, self.len);
        let damaged = &mut self.damaged;
        let a = base::put_all(damaged, 0, replay::part(image, 0, change.place));
        let b = base::put_all(damaged, a, new);
        let rest = replay::part(image, change.place.saturating_add(change.gone), image.len());
        let n = base::put_all(damaged, b, rest);
        self.trials.run(replay::part(damaged, 0, n));
    }

    fn sweep_with(&mut self, number: &[u8]) {
        for place in 0..self.len {
            self.run_changed(Change::over(place, number), number);
        }
    }

    fn sweep(&mut self, p: &[u8]) {
        for number in replay::part(p, LENT, p.len()).chunks_exact(8) {
            self.sweep_with(number);
        }
    }

    // (`for`: each change takes eight bytes or more.)
    fn changes(&mut self, p: &[u8]) {
        let mut at = LENT;
        for _ in 0..p.len() {
            let Some(change) = Change::at(p, at) else {
                return;
            };
            self.run_changed(change, replay::part(p, change.start, change.end));
            at = change.end;
        }
    }
}

// A line of an answer: 0 and its values, or a refusal's number.
fn answered<const N: usize>(rt: &impl Print, word: &[u8], answer: Result<[u64; N], Refusal>) {
    match answer {
        Ok(values) => {
            replay::line(rt, word, 0, &values);
        }
        Err(refusal) => {
            replay::refused(rt, word, refusal);
        }
    }
}

fn save(rt: &impl Print, images: &mut Images, p: &[u8]) {
    images.set_image(p);
    let lent = &images.trials.lent;
    let wrong = u64::from(!lent.saves(p))
        + u64::from(!lent.finds_no_room(p.len().saturating_sub(1)));
    replay::line(rt, b"save", 0, &[p.len() as u64, wrong]);
}

fn restore(rt: &impl Print, images: &mut Images, p: &[u8]) {
    if LENT < p.len() {
        images.set_image(replay::part(p, LENT, p.len()));
    }
    images.begin(p);
    let answer = images
        .trials
        .restore(replay::part(&images.image, 0, images.len));
    let number = answer.map_or_else(u32::from, |()| 0);
    replay::line(
        rt,
        b"restore",
        u64::from(number),
        &[u64::from(images.trials.seen.wrong)],
    );
}

// An unknown tag gives no answer. (`as u64`: usize has no From to it.)
fn replay_item(rt: &impl Print, images: &mut Images, tag: u8, p: &[u8]) {
    match Item::try_from(tag) {
        Ok(Item::New) => {
            let answer = images.make_new(base::be16_at(p, 0), base::be16_at(p, 2));
            answered(rt, b"new", answer.map(|()| []));
        }
        Ok(Item::Receive) => {
            let answer = images.trials.lent.receive(p);
            answered(
                rt,
                b"receive",
                answer.map(|r| [u64::from(r.ready), u64::from(r.dropped), r.left as u64]),
            );
        }
        Ok(Item::Take) => {
            let answer = images.trials.lent.take();
            answered(rt, b"take", answer.map(|len| [len as u64]));
        }
        Ok(Item::Unsent) => {
            let answer = images.trials.lent.write_unsent();
            answered(rt, b"unsent", answer.map(|_| []));
        }
        Ok(Item::Drop) => {
            let answer = images.trials.lent.drop_unfinished(base::be32_at(p, 0));
            answered(rt, b"drop", answer.map(|freed| [u64::from(freed)]));
        }
        Ok(Item::Save) => save(rt, images, p),
        Ok(Item::Restore) => restore(rt, images, p),
        Ok(Item::Cuts) => {
            images.begin(p);
            images.cuts();
            images.trials.show(rt, b"cuts");
        }
        Ok(Item::Sweep) => {
            images.begin(p);
            images.sweep(p);
            images.trials.show(rt, b"sweep");
        }
        Ok(Item::Changes) => {
            images.begin(p);
            images.changes(p);
            images.trials.show(rt, b"changes");
        }
        Err(_) => {}
    }
}

// (A function of its own: of a parameter the proof knows how long it is, where it counts the bytes of an array that it sees made.)
fn whole(store: &mut [u8; STORE]) -> &mut [u8] {
    store
}

fn main(rt: HostRuntime) -> io::Result<()> {
    let mut input = [0u8; INPUT];
    let queue = recv_queue::new_queue(Profile::Console);
    let mut store = [0u8; STORE];
    let lent = Lent {
        queue,
        records: &mut [recv_queue::unused(); CELLS],
        store: whole(&mut store),
        joined: &mut [0; JOINED],
        cells: 0,
        front: 0,
    };
    let kept = Kept {
        queue,
        records: &mut [recv_queue::unused(); FEW],
        store: &mut [0; FEW_STORE],
    };
    let mut images = Images {
        trials: Trials::new(lent, kept),
        image: [0; IMAGE],
        len: 0,
        damaged: [0; IMAGE],
    };
    replay::replay(
        &mut rt.stdin(),
        &mut input,
        |tag, p| replay_item(&rt, &mut images, tag, p),
    )?;
    Ok(())
}
