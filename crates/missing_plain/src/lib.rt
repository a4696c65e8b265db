// The missing list number by number, as its definition is written: for each number it is found anew which byte and bit hold its place.
// No part of the receiver uses it. `speed/` times it beside the list by words, and the program `replay_missing` runs both.

#![tactic(auto)]

ghost use Rattle.std.specs.Prelude.{◌≡◌, ◌<◌};
ghost use Rattle.base.specs.Limits.{numbers24, window_places};
ghost use Rattle.base.specs.Put.{Run};
ghost use Rattle.window.specs.Window.{window_of};
ghost use Rattle.window.specs.Missing as Missing;

use window::ReliableWindow;

// For the benchmark, which is in another language: the static library `missing_plain_c` hands it on.
pub fn poghduka_missing_plain(w: ReliableWindow, list: &mut [u32]) -> usize
    ensures { Run 0 (Missing.missing w) list.old result list.new }
{
    missing_in(w.low, &w.bits, list)
}

pub fn missing_in(low: u32, bits: &[u8], list: &mut [u32]) -> usize
    ensures { Run 0 (Missing.missing (window_of low bits.now)) list.old result list.new }
{
    if base::NUMBERS_24 <= low {
        return 0;
    }
    let end = highest(low, bits).min(base::NUMBERS_24 - low);
    let mut p = 0;
    // A loop: a fold over the missing numbers would carry the same place, and lend the list to a closure.
    for k in 0..end {
        let n = low + k;
        if !window::accepted_in(low, bits, n) {
            p = base::put(list, p, n);
        }
    }
    p
}

// How far above low the highest accepted number stands; 0 where no place is set.
fn highest(low: u32, bits: &[u8]) -> u32
    requires { low < numbers24 }
    ensures { result ≡ Missing.highest (window_of low bits.now) window_places }
{
    // A loop, where `find` would do: std has lemmas for a range taken forwards and a slice backwards, but for no range backwards.
    for k in (1..=base::WINDOW_PLACES).rev() {
        if window::place_set(bits, low + k) {
            return k;
        }
    }
    0
}
