// The window of accepted numbers: low, the smallest number never accepted, and 2,048 places above it. A number's place is a bit of the
// bytes; places go round, so that none moves when low does. The window's methods are those to call. Beside them the open functions on a low
// number and lent bits promise the same for bits of every length, which is more than a method of the struct, whose array has one, can say.

#![tactic(auto)]

ghost use Rattle.std.specs.Prelude.{◌≡◌, true, false, ◌<◌, ◌≤◌, ◌+◌, ◌^◌};
ghost use Rattle.base.specs.Limits.{numbers24, window_places};
ghost use Rattle.base.specs.Put.{Run};
ghost use Rattle.base.specs.Numbers as Numbers;
ghost use Rattle.window.specs.Places.{place_byte, place_set, set_place, clear_place};
ghost use Rattle.window.specs.Window.{window_of, new_window, advance, insert_of, insertion, inserted_in};
ghost use Rattle.window.specs.Window as Window;
ghost use Rattle.window.specs.Missing as Missing;

use base::Refusal;
pub use words::missing_in;

mod words;

// A bit for each place. (`as usize`: a const can call no From.)
const BYTES: usize = base::WINDOW_PLACES as usize / 8;

#[repr(C)]
#[derive(Clone, Copy, Debug, PartialEq, Eq)]
pub struct ReliableWindow {
    pub low: u32,
    pub bits: [u8; BYTES],
}

impl ReliableWindow {
    #[tactic(auto, unfolding(crate::specs::Window::new_window))]
    pub fn new() -> Self
        ensures { result ≡ new_window }
    {
        ReliableWindow {
            low: 0,
            bits: [0u8; BYTES],
        }
    }

    // Where n is refused, the window stays as it was.
    pub fn insert(&mut self, n: u32) -> Result<(), Refusal>
        ensures { insertion result self.new ≡ insert_of self.old n }
    {
        self.low = insert_in(self.low, &mut self.bits, n)?;
        Ok(())
    }

    // Whether n was accepted before.
    pub fn accepted(&self, n: u32) -> bool
        ensures { result ≡ Window.accepted self.now n }
    {
        accepted_in(self.low, &self.bits, n)
    }

    // The missing numbers, ascending, into the list as far as it goes; how many were stored.
    pub fn missing(&self, list: &mut [u32]) -> usize
        ensures { Run 0 (Missing.missing self.now) list.old result list.new }
    {
        missing_in(self.low, &self.bits, list)
    }
}

// The window's low number afterwards; a refused number moves nothing. A place past the end of the bits is clear and stays so.
#[tactic(auto, unfolding(crate::specs::Window::insert_of, base::specs::If::if_lt, base::specs::If::if_le, base::specs::If::if_true))]
pub fn insert_in(low: u32, bits: &mut [u8], n: u32) -> Result<u32, Refusal>
    ensures { inserted_in low result bits.new ≡ insert_of (window_of low bits.old) n }
{
    if base::NUMBERS_24 <= n {
        return Err(Refusal::TooLarge);
    }
    if accepted_in(low, bits, n) {
        return Err(Refusal::Old);
    }
    if base::WINDOW_PLACES < n - low {
        return Err(Refusal::Beyond);
    }
    Ok(accept(low, bits, n))
}

#[tactic(auto, unfolding(crate::specs::Window::accepted, base::specs::If::if_true, base::specs::If::if_eq, base::specs::If::if_le))]
pub fn accepted_in(low: u32, bits: &[u8], n: u32) -> bool
    ensures { result ≡ Window.accepted (window_of low bits.now) n }
{
    if n < low {
        return true;
    }
    if n == low {
        return false;
    }
    if n - low <= base::WINDOW_PLACES {
        return place_set(bits, n);
    }
    false
}

// n, not accepted before and within reach, accepted; the new low.
#[tactic(auto, using(crate::proofs::Accepted::place_clear, crate::proofs::Steps::accept_low, crate::proofs::Steps::accept_above))]
fn accept(low: u32, bits: &mut [u8], n: u32) -> u32
    requires n_lt_numbers24 { n < numbers24 }
    requires n_value { Window.accepted (window_of low bits.old) n ≡ false }
    requires n_bound { Numbers.distance low n ≤ window_places }
    ensures { window_of result bits.new ≡ Window.accept (window_of low bits.old) n }
{
    if n == low {
        return advanced(n + 1, bits);
    }
    turn_place(bits, n);
    low
}

// Low moved past all accepted numbers from it on, whose places are cleared; the new low.
fn advanced(low: u32, bits: &mut [u8]) -> u32
    requires { low ≤ numbers24 }
    ensures { window_of result bits.new ≡ advance window_places (window_of low bits.old) }
{
    let end = low + base::WINDOW_PLACES;
    // A loop: each place is tested and cleared in one turn, where `find` and a sweep over the found ones would go twice.
    for n in low..end {
        if !place_set(bits, n) {
            return n;
        }
        turn_place(bits, n);
    }
    end
}

// Whether the place of n is set, whatever low is.
#[tactic(auto, unfolding(crate::specs::Places::place_set, crate::specs::Places::bit))]
pub fn place_set(bits: &[u8], n: u32) -> bool
    ensures { result ≡ place_set bits.now n }
{
    let b = base::byte(bits, place_byte(n));
    (b >> (n % 8)) % 2 == 1
}

// The place of n turned: a clear one is set, a set one cleared. One past the end of the bits is clear and stays so.
#[tactic(auto, using(crate::proofs::Places::set_past, crate::proofs::Places::clear_past))]
fn turn_place(bits: &mut [u8], n: u32)
    ensures sets { place_set bits.old n ≡ false → bits.new ≡ set_place bits.old n }
    ensures clears { place_set bits.old n ≡ true → bits.new ≡ clear_place bits.old n }
{
    let at = place_byte(n);
    if at < bits.len() {
        bits[at] ^= 1 << (n % 8);
    }
}

// The byte that has the place of n. (`as usize`: u32 has no From to it.)
fn place_byte(n: u32) -> usize
    ensures { result ≡ place_byte n }
{
    (n % base::WINDOW_PLACES / 8) as usize
}
