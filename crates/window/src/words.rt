// The missing list by words of the window, 64 places each: eight bytes of the bits. Where a word stands is worked out once for the word;
// one in which nothing is missing costs one test, and only the missing numbers are stored. The plain form is crate `missing_plain`.
ghost use Rattle.std.specs.Prelude.{◌≡◌, ◌<◌, ◌≤◌, ◌+◌, ◌-◌, ◌*◌, ◌%◌, ◌^◌, min};
ghost use Rattle.base.specs.Limits.{numbers24, window_places};
ghost use Rattle.base.specs.Put.{Run};
ghost use Rattle.window.specs.Window.{window_of};
ghost use Rattle.window.specs.Missing as Missing;
ghost use Rattle.window.specs.Words.{word_places, places_from, ones_from, clear_of};

const WORD_PLACES: u32 = u64::BITS;

pub fn missing_in(low: u32, bits: &[u8], list: &mut [u32]) -> usize
    ensures { Run 0 (Missing.missing (window_of low bits.now)) list.old result list.new }
{
    if base::NUMBERS_24 <= low {
        return 0;
    }
    let limit = base::NUMBERS_24 - low;
    let end = highest(low, bits).min(limit);
    if end == 0 {
        return 0;
    }
    let p = base::put(list, 0, low);
    put_above(low, bits, list, p, end)
}

// Of the first `end` numbers from low on, those never accepted but low itself, which has no place: its bit is that of low + 2,048.
fn put_above(low: u32, bits: &[u8], list: &mut [u32], p: usize, end: u32) -> usize
    requires end_nonzero { 0 < end }
    requires end_bound { low + end ≤ numbers24 }
    ensures { Run p (clear_of bits.now (low + 1) (end - 1)) list.old result list.new }
{
    let from = low + 1;
    let to = low + end;
    let mut q = p;
    // A loop over the words' numbers, from which their places come: the bits go round, so that `chunks` of them don't come in this order.
    for j in from / WORD_PLACES..to.div_ceil(WORD_PLACES) {
        let n = j * WORD_PLACES;
        let clear = between(n, from, to) & !word(bits, n);
        q = put_ones(list, q, n, clear);
    }
    q
}

// How far above low the highest accepted number stands; 0 where no place is set.
fn highest(low: u32, bits: &[u8]) -> u32
    requires { low < numbers24 }
    ensures { result ≡ Missing.highest (window_of low bits.now) window_places }
{
    let first = low + 1;
    let end = first + base::WINDOW_PLACES;
    // A loop, where `find_map` would do: std has lemmas for a range taken forwards and a slice backwards, but for no range backwards.
    for j in (first / WORD_PLACES..end.div_ceil(WORD_PLACES)).rev() {
        let n = j * WORD_PLACES;
        let set = between(n, first, end) & word(bits, n);
        if let Some(top) = set.checked_ilog2() {
            return n + top - low;
        }
    }
    0
}

// The numbers from n on whose bits are 1, the lowest first: one turn for each of them.
// (`while`: std has no iterator over the bits of a number that are 1, and which turn is the last the number itself says.)
fn put_ones(list: &mut [u32], p: usize, n: u32, ones: u64) -> usize
    requires { n < numbers24 }
    ensures { Run p (ones_from n word_places ones) list.old result list.new }
{
    let mut q = p;
    let mut x = ones;
    while 0 < x {
        q = base::put(list, q, n + x.trailing_zeros());
        x &= x - 1;
    }
    q
}

// In the word whose first number is n, the bits of the numbers from `from` on that are below `to`.
#[tactic(auto, using(crate::proofs::WordBits::mask_is))]
fn between(n: u32, from: u32, to: u32) -> u64
    requires from_in_word { from < n + word_places }
    requires to_in_word { n < to }
    requires from_le_to { from ≤ to }
    requires n_bound { n + word_places < 2 ^ 32 }
    ensures { result ≡ 2 ^ min word_places (to - n) - 2 ^ (from - n) }
{
    let below = from.saturating_sub(n);
    let above = (n + WORD_PLACES).saturating_sub(to);
    (u64::MAX << below) & (u64::MAX >> above)
}

// The word whose first number is n, a whole one by one read of its bytes. A byte past the end of the bits is 0: only there are they put
// one after another. (base's readers go byte by byte at every place.)
fn word(bits: &[u8], n: u32) -> u64
    requires { n % word_places ≡ 0 }
    ensures { result ≡ places_from bits.now n word_places }
{
    let at = super::place_byte(n);
    let mut bytes = [0; 8];
    if let Some(part) = bits.get(at..at + 8) {
        bytes.copy_from_slice(part);
    } else {
        base::put_all(&mut bytes, 0, &bits[at.min(bits.len())..]);
    }
    u64::from_le_bytes(bytes)
}
