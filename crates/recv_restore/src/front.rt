// The receiver's own values read from an image: profile, windows, channels and unsent numbers. They stand at fixed places where there are
// as many of them as a receiver has.
ghost use Rattle.std.specs.Prelude.{◌≡◌, ◌+◌, ◌*◌, ◌≤◌, ◌<◌, ◌^◌, cond, length, ltb, true, MatchOption};
ghost use Rattle.base.specs.Bytes.{be32, be64};
ghost use Rattle.base.specs.Lists.{below};
ghost use Rattle.window.specs.Places.{place_set};
ghost use Rattle.image.specs.Windows.{eight, window_from};
ghost use Rattle.image_read.specs.At.{window_at, pieces_place};
ghost use Rattle.recv_restore.specs.Fits.{numbers32};
ghost use Rattle.recv_restore.specs.Filling.{TestOf};
ghost use Rattle.recv_restore.specs.Front.{Counts, Narrow, Queue, Unsent, channels_from};

use receiver::{Channel, RecvQueue};
use window::ReliableWindow;

// Where the counts of the first four sections stand, and what follows them.
const PROFILE: usize = 4;

const WINDOWS: usize = 12;

const DATAGRAMS: usize = 16;

const RELIABLES: usize = 280;

const CHANNELS: usize = 544;

const NEXTS: usize = 548;

const OWN_NEXT: usize = 1060;

const OWN_MEMORY: usize = 1068;

const UNSENT: usize = 1076;

const NUMBERS: usize = 1080;

// The bit of n's place in its byte.
fn bit(bits: &[u8], n: u32, value: u8) -> u8
    ensures is { result ≡ cond (place_set bits.now n) value 0 }
    ensures small { result ≤ value }
{
    if window::place_set(bits, n) { value } else { 0 }
}

// The places of eight numbers from n on.
#[tactic(auto, unfolding(image::specs::Windows::eight))]
fn byte(bits: &[u8], n: u32) -> u8
    requires { n + 8 < 2 ^ 32 }
    ensures { result ≡ eight (place_set bits.now) n }
{
    bit(bits, n, 1)
        + bit(bits, n + 1, 2)
        + bit(bits, n + 2, 4)
        + bit(bits, n + 3, 8)
        + bit(bits, n + 4, 16)
        + bit(bits, n + 5, 32)
        + bit(bits, n + 6, 64)
        + bit(bits, n + 7, 128)
}

// The window whose entry stands at p. (`as u32`: k is below 256.)
fn window_at(s: &[u8], p: usize) -> ReliableWindow
    requires narrow { be64 s.now p < numbers32 }
    requires within { (p + 264 ≤ length s.now) × (p < 4096) }
    ensures { result ≡ window_from (window_at s.now p) }
{
    let low = super::low(s, p);
    let places = &s[p + 8..p + 264];
    let from = base::WINDOW_PLACES - (low % base::WINDOW_PLACES + 1) % base::WINDOW_PLACES;
    let mut bits = [0; 256];
    for k in 0..256 {
        bits[k] = byte(places, from + 8 * k as u32);
    }
    ReliableWindow { low, bits }
}

// The channels that stand from place 548 on.
fn channels_at(s: &[u8]) -> [Channel; base::MAX_ORD_CHANS as usize]
    requires { below 66 (λ i. ltb (be64 s.now (548 + 8 * i)) numbers32) ≡ true }
    ensures { result ≡ channels_from s.now 32 }
{
    let mut channels = [Channel { next: 0, newest: 0 }; base::MAX_ORD_CHANS as usize];
    for c in 0..base::MAX_ORD_CHANS as usize {
        channels[c] = Channel {
            next: super::low(s, NEXTS + 16 * c),
            newest: super::low(s, NEXTS + 8 + 16 * c),
        };
    }
    channels
}

// The n unsent numbers that stand from place 1,080 on, where they are below 2^32 and rise.
fn unsent_at(s: &[u8], n: u32) -> Option<[u32; base::MAX_UNSENT as usize]>
    requires { n ≤ 1024 }
    ensures { Unsent s.now n result }
{
    let mut unsent = [0; base::MAX_UNSENT as usize];
    let mut least = 0;
    for i in 0..n as usize {
        let number = base::be64_at(s, NUMBERS + 8 * i);
        if number < least {
            return None;
        }
        if !super::is_narrow(s, NUMBERS + 8 * i) {
            return None;
        }
        unsent[i] = super::low(s, NUMBERS + 8 * i);
        least = number + 1;
    }
    Some(unsent)
}

// One profile, two windows, 33 channel entries, at most 1,024 unsent numbers?
fn counts_fit(s: &[u8]) -> bool
    ensures { TestOf result (Counts s.now) }
{
    (base::be32_at(s, 0) == 1)
        & (base::be32_at(s, WINDOWS) == 2)
        & (base::be32_at(s, CHANNELS) == 33)
        & (base::be32_at(s, UNSENT) <= base::MAX_UNSENT)
}

// Do the values fit into a receiver?
fn values_fit(s: &[u8]) -> bool
    ensures { TestOf result (Narrow s.now) }
{
    super::is_narrow(s, PROFILE)
        & super::is_narrow(s, DATAGRAMS)
        & super::is_narrow(s, RELIABLES)
        & super::are_narrow(s, NEXTS, 66)
        & (base::be64_at(s, OWN_NEXT) == 0)
}

// Where the open pieces' section stands then. (`as usize`: u32 has no From to it.)
pub(crate) fn pieces_at(s: &[u8]) -> usize
    ensures { result ≡ 1080 + 8 * be32 s.now 1076 }
{
    NUMBERS + 8 * base::be32_at(s, UNSENT) as usize
}

// The receiver's own values.
pub(crate) fn queue_at(s: &[u8]) -> Option<RecvQueue>
    requires { pieces_place s.now ≤ length s.now }
    ensures { Queue s.now result }
{
    if !counts_fit(s) {
        return None;
    }
    if !values_fit(s) {
        return None;
    }
    let pending = base::be32_at(s, UNSENT);
    let unsent = unsent_at(s, pending)?;
    Some(RecvQueue {
        datagrams: window_at(s, DATAGRAMS),
        reliables: window_at(s, RELIABLES),
        channels: channels_at(s),
        unsent,
        pending,
        newest: super::low(s, OWN_MEMORY),
        profile: super::low(s, PROFILE),
    })
}
