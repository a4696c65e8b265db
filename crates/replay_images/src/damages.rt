// Images restored over what is lent, one after another, and what was answered.

use crate::lent::{Kept, Lent};
use recv_queue::Refusal;

// ---- a change of an image

// `gone` bytes at a place go; those of its item from `start` to `end` come.
#[derive(Clone, Copy, Debug, PartialEq, Eq)]
pub struct Change {
    pub place: usize,
    pub gone: usize,
    pub start: usize,
    pub end: usize,
}

// The bytes before those that come.
const CHANGE: usize = 8;

impl Change {
    // As many bytes go as come.
    pub fn over(place: usize, new: &[u8]) -> Change {
        Change {
            place,
            gone: new.len(),
            start: 0,
            end: new.len(),
        }
    }

    // The change at this place of an item; none where it is cut. (`as usize`: u32 has no From to it.)
    pub fn at(p: &[u8], at: usize) -> Option<Change> {
        p.get(at)?;
        let start = at + CHANGE;
        let end = start + usize::from(base::be16_at(p, at + 6));
        let change = Change {
            place: base::be32_at(p, at) as usize,
            gone: usize::from(base::be16_at(p, at + 4)),
            start,
            end,
        };
        (end <= p.len()).then_some(change)
    }
}

// ---- trials

// How many answers of each number, a checksum of them all, and how many left something else than they should.
#[derive(Clone, Copy, Debug, Default, PartialEq, Eq)]
pub struct Seen {
    done: u32,
    not_sound: u32,
    bad_form: u32,
    not_restorable: u32,
    sum: u64,
    pub wrong: u32,
}

impl Seen {
    fn none() -> Seen {
        Seen {
            sum: 1,
            ..Seen::default()
        }
    }

    fn count(&mut self, number: u32, right: bool) {
        let of = match number {
            0 => &mut self.done,
            9 => &mut self.not_sound,
            21 => &mut self.bad_form,
            _ => &mut self.not_restorable,
        };
        *of = of.wrapping_add(1);
        self.sum = (self.sum % 65521 * 31 + u64::from(number)) % 65521;
        self.wrong = self.wrong.wrapping_add(u32::from(!right));
    }
}

#[derive(Drop)]
pub struct Trials<'a> {
    pub lent: Lent<'a>,
    pub seen: Seen,
    kept: Kept<'a>,
    // What was lent before the trials.
    cells: usize,
    front: usize,
}

impl<'a> Trials<'a> {
    pub fn new(lent: Lent<'a>, kept: Kept<'a>) -> Trials<'a> {
        Trials {
            lent,
            seen: Seen::none(),
            kept,
            cells: 0,
            front: 0,
        }
    }

    pub fn lend(&mut self, cells: usize, front: usize) {
        self.lent.cells = cells;
        self.lent.front = front;
    }

    // Other cells and bytes are lent, as they stand; they are kept.
    pub fn begin(&mut self, cells: usize, front: usize) {
        self.seen = Seen::none();
        self.cells = self.lent.cells;
        self.front = self.lent.front;
        self.lend(cells, front);
        self.lent.keep(&mut self.kept);
    }

    // Its answer, counted: what restores is what is saved again, and a refusal leaves all as it was.
    fn outcome(&mut self, image: &[u8]) -> Result<(), Refusal> {
        let answer = self.lent.restore(image);
        let right = match answer {
            Ok(()) => self.lent.saves(image),
            Err(_) => self.lent.is_as(&self.kept),
        };
        self.seen
            .count(answer.map_or_else(u32::from, |()| 0), right);
        answer
    }

    // What is restored stays; where it is refused, all is lent as before.
    pub fn restore(&mut self, image: &[u8]) -> Result<(), Refusal> {
        let answer = self.outcome(image);
        if answer.is_err() {
            self.lend(self.cells, self.front);
        }
        answer
    }

    // What is restored goes: what was lent is put back.
    pub fn run(&mut self, image: &[u8]) {
        if self.outcome(image).is_ok() {
            self.lent.put_back(&self.kept);
        }
    }

    // The end of the trials: all is lent as before.
    pub fn show(&mut self, rt: &impl Print, word: &[u8]) {
        self.lend(self.cells, self.front);
        let seen = self.seen;
        let counts = [seen.not_sound, seen.bad_form, seen.not_restorable].map(u64::from);
        let [not_sound, bad_form, not_restorable] = counts;
        replay::line(
            rt,
            word,
            u64::from(seen.done),
            &[
                not_sound,
                bad_form,
                not_restorable,
                seen.sum,
                u64::from(seen.wrong),
            ],
        );
    }
}
