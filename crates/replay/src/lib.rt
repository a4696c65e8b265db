// What the replaying programs share: items read one after another, a tally of stored answers, checksums, and lines of output.
// No promise can say which bytes are read or written: a function that writes says what it returns. A failed read is an `Err`, and a failed
// write is passed over.

#![tactic(auto)]

ghost use Rattle.std.specs.Prelude.{◌≡◌, min, length, ◌==◌};
ghost use Rattle.base.specs.Refusals.{number_of};
ghost use Rattle.replay.specs.Fronts.{IsPrefixLen};
ghost use Rattle.replay.specs.Patterns.{pattern_from};
ghost use Rattle.replay.specs.Sums.{mixed_with, checksum_of, summed_with, sum_of};
ghost use Rattle.replay.specs.Lines.{given_beside};
ghost use Rattle.replay.specs.Tallies.{counted_in};

use base::Refusal;
pub use input::read_full;
pub use replaying::{each_item, replay};
pub use stored::{Item, Items, item_at, part};

mod input;
mod replaying;
mod stored;

// n, or as many as there are: the front that long can be lent. (A number, and not the front: callers lend it as `&` or as `&mut`, and
// `replay_original` counts on from it.)
pub fn within<T>(s: &[T], n: usize) -> usize
    ensures prefix_len { IsPrefixLen result s.now }
    ensures value { result ≡ min n (length s.now) }
{
    n.min(s.len())
}

// ---- a pattern

// A pattern whose bytes repeat only after 65,536, so that it is seen where a body, or a part of some data, is from.
pub fn fill(out: &mut [u8], seed: u16)
    ensures { out.new ≡ pattern_from (length out.old) seed }
{
    let mut x = seed;
    for byte in out.iter_mut() {
        x = x.wrapping_mul(5).wrapping_add(1);
        let [high, _] = x.to_be_bytes();
        *byte = high;
    }
}

// ---- the tally

// How many stored answers were compared, and how many of ours were others.
#[derive(Clone, Copy, Debug, Default, PartialEq, Eq)]
pub struct Tally {
    pub answers: u32,
    pub wrong: u32,
}

impl Tally {
    #[tactic(auto, unfolding(crate::specs::Tallies::counted_in, base::specs::If::if_true))]
    pub fn count(&mut self, right: bool)
        ensures { self.new ≡ counted_in self.old right }
    {
        self.answers = self.answers.wrapping_add(1);
        self.wrong = self.wrong.wrapping_add(u32::from(!right));
    }

    // Prints it; is all right?
    pub fn show(&self, rt: &impl Print, word: &[u8]) -> bool
        ensures { result ≡ (self.now.wrong == 0) }
    {
        let answers = self.answers;
        let wrong = self.wrong;
        let _ = rt.write_all(word);
        let _ = print!(rt; "{answers} answers, wrong {wrong}\n");
        wrong == 0
    }
}

// ---- checksums (specs/Sums.antt)

const MODULUS: u64 = 4294967291;

const SUM_MODULUS: u64 = 65521;

fn mixed(h: u64, x: u32) -> u64
    ensures { result ≡ mixed_with h x }
{
    (h % MODULUS * 257 + u64::from(x) + 1) % MODULUS
}

fn summed(h: u64, x: u8) -> u64
    ensures { result ≡ summed_with h x }
{
    (h % SUM_MODULUS * 31 + u64::from(x)) % SUM_MODULUS
}

pub fn sum(s: &[u8]) -> u64
    ensures { result ≡ sum_of s.now }
{
    s.iter().fold(1, |h, x| summed(h, *x))
}

// The checksum of a list that is not printed: `fold` again, with another step.
pub fn checksum(list: &[u32]) -> u64
    ensures { result ≡ checksum_of list.now }
{
    list.iter().fold(0, |h, x| mixed(h, *x))
}

// ---- lines: a word, document 01's number or 0 where nothing is refused, and the values

// How many bytes are printed, and how many numbers of a list.
const SHOWN: usize = 64;

const SHOWN_LIST: usize = 16;

// The values beside a number: none beside a refusal's. (A number, and no `Result`: programs replay the exported calls, which answer so.)
#[tactic(auto, unfolding(crate::specs::Lines::given_beside, base::specs::If::if_eq, base::specs::If::if_true))]
pub fn given(number: u64, values: &[u64]) -> &[u64]
    ensures { result.now ≡ given_beside number values.now }
{
    if number == 0 { values } else { &[] }
}

// The line's front; how many values there are.
fn begin(rt: &impl Print, word: &[u8], number: u64, values: &[u64]) -> usize
    ensures { result ≡ length values.now }
{
    let _ = rt.write_all(word);
    let _ = print!(rt; " {number}");
    for value in values {
        let _ = print!(rt; " {value}");
    }
    values.len()
}

// A line that says no more.
pub fn line(rt: &impl Print, word: &[u8], number: u64, values: &[u64]) -> usize
    ensures { result ≡ length values.now }
{
    let n = begin(rt, word, number, values);
    let _ = print!(rt; "\n");
    n
}

// A line of a refusal: its number, which it returns, and no more.
pub fn refused(rt: &impl Print, word: &[u8], refusal: Refusal) -> u64
    ensures { result ≡ number_of refusal }
{
    let number = u64::from(u32::from(refusal));
    line(rt, word, number, &[]);
    number
}

// A line that ends with bytes, of which the first 64 are printed in hexadecimal, and the checksum of them all, which it returns.
pub fn line_with(rt: &impl Print, word: &[u8], number: u64, values: &[u64], s: &[u8]) -> u64
    ensures { result ≡ checksum_of s.now }
{
    begin(rt, word, number, values);
    let _ = print!(rt; " ");
    for x in s.iter().take(SHOWN) {
        let _ = print!(rt; "{x:02x}");
    }
    let h = s.iter().fold(0, |h, x| mixed(h, u32::from(*x)));
    let _ = print!(rt; " {h}\n");
    h
}

// A line that ends with a list, of which the first 16 numbers are printed, and the checksum of them all, which it returns.
pub fn line_list(rt: &impl Print, word: &[u8], number: u64, values: &[u64], list: &[u32]) -> u64
    ensures { result ≡ checksum_of list.now }
{
    begin(rt, word, number, values);
    for x in list.iter().take(SHOWN_LIST) {
        let _ = print!(rt; " {x}");
    }
    let h = checksum(list);
    let _ = print!(rt; " {h}\n");
    h
}
