// A receiver by its parts: its own numbers, and its arrays lent one by one as lists of any length. What step 4 goes by is one list of
// numbers here: each channel's next and memory, the receiver's own memory, the profile. The functions that are lent a receiver so
// (`recv_steps::receive_rows` and those below it) answer for every length.

#![tactic(auto)]

ghost use Rattle.std.specs.Prelude.{◌≡◌, get_or, take};
ghost use Rattle.base.specs.Limits.{max_unsent};
ghost use Rattle.window.specs.Window.{window_of};
ghost use Rattle.recv_parts.specs.declared.Heads.{Heads};
ghost use Rattle.recv_parts.specs.Parts.{many_nexts, channels_of, queue_of, arrays_fit};
ghost use Rattle.recv_parts.specs.Fitted.{sized, sized_window, sized_pending, fitted};

use receiver::{Channel, RecvQueue};
use window::ReliableWindow;

// How many numbers step 4 goes by.
pub const NEXTS: usize = 66;

// Among them the profile stands last, after the nexts and the memories.
pub const PROFILE_PLACE: usize = 65;

// The receiver's own memory stands before it.
pub const OWN_PLACE: usize = 64;

// How many bytes a window's places are.
const WINDOW_BYTES: usize = 256;

// A receiver's own numbers: the lows of both windows, and how many numbers are unsent.
#[derive(Clone, Copy, Debug, Default, PartialEq, Eq)]
pub struct Heads {
    pub datagrams: u32,
    pub reliables: u32,
    pub pending: u32,
}

fn number_in(nexts: &[u32], place: usize) -> u32
    ensures { result ≡ get_or nexts.now place 0 }
{
    nexts.get(place).copied().unwrap_or(0)
}

// The number at a place; 0 past the last.
pub fn number_at(nexts: &[u32], place: usize) -> u32
    ensures { result ≡ get_or (take many_nexts nexts.now) place 0 }
{
    if place < NEXTS {
        return number_in(nexts, place);
    }
    0
}

// The channels' records at these numbers.
pub fn channels_of(nexts: &[u32]) -> [Channel; base::MAX_ORD_CHANS as usize]
    ensures { result ≡ channels_of nexts.now }
{
    let mut channels = [Channel::default(); base::MAX_ORD_CHANS as usize];
    for c in 0..channels.len() {
        channels[c] = Channel {
            next: number_at(nexts, 2 * c),
            newest: number_at(nexts, 2 * c + 1),
        };
    }
    channels
}

// A window whose bits are as long as the type's.
#[tactic(auto, unfolding(crate::specs::Fitted::sized_window, crate::specs::Fitted::sized))]
fn window_of(low: u32, bits: &[u8]) -> ReliableWindow
    ensures { result ≡ sized_window (window_of low bits.now) }
{
    let mut all = [0; WINDOW_BYTES];
    base::put_all(&mut all, 0, bits);
    ReliableWindow { low, bits: all }
}

#[tactic(auto, unfolding(crate::specs::Fitted::sized))]
fn unsent_of(unsent: &[u32]) -> [u32; base::MAX_UNSENT as usize]
    ensures { result ≡ sized max_unsent unsent.now }
{
    let mut all = [0; base::MAX_UNSENT as usize];
    base::put_all(&mut all, 0, unsent);
    all
}

#[tactic(auto, using(base::proofs::Ifs::ifs), unfolding(crate::specs::Fitted::sized_pending))]
fn pending_of(pending: u32, unsent: usize) -> u32
    ensures { result ≡ sized_pending pending unsent }
{
    if pending <= base::MAX_UNSENT {
        return unsent.min(pending as usize) as u32;
    }
    pending
}

// The receiver of these parts, its arrays as long as the type's: it is sound where the parts are, and has their nexts.
#[tactic(auto, using(crate::proofs::Laws::places), unfolding(crate::specs::Fitted::fitted, crate::specs::Parts::queue_of))]
pub fn queue_of(h: Heads, dbits: &[u8], rbits: &[u8], nexts: &[u32], unsent: &[u32]) -> RecvQueue
    ensures { result ≡ fitted (queue_of h dbits.now rbits.now nexts.now unsent.now) }
{
    RecvQueue {
        datagrams: window_of(h.datagrams, dbits),
        reliables: window_of(h.reliables, rbits),
        channels: channels_of(nexts),
        unsent: unsent_of(unsent),
        pending: pending_of(h.pending, unsent.len()),
        newest: number_at(nexts, OWN_PLACE),
        profile: number_at(nexts, PROFILE_PLACE),
    }
}

// The arrays are as long as a receiver's.
#[tactic(auto, unfolding(crate::specs::Parts::arrays_fit, crate::specs::Parts::queue_of))]
pub fn arrays_fit(dbits: &[u8], rbits: &[u8], nexts: &[u32], unsent: &[u32]) -> bool
    ensures { (h : Heads) → result ≡ arrays_fit (queue_of h dbits.now rbits.now nexts.now
        unsent.now) nexts.now }
{
    dbits.len() == WINDOW_BYTES
        && rbits.len() == WINDOW_BYTES
        && nexts.len() == NEXTS
        && unsent.len() == base::MAX_UNSENT as usize
}
