// The receiver: what it keeps beside the cells.

#![tactic(auto)]

use reliability::Profile;
use window::ReliableWindow;

// A channel: the order number that is made ready next; and one more than the newest sequence number made ready by kind 1, and by kind 4 in
// the C++ profile, 0 for none. (A number and no `Option`: other languages lay it out in memory, and may lend any number.)
#[repr(C)]
#[derive(Clone, Copy, Debug, Default, PartialEq, Eq)]
pub struct Channel {
    pub next: u32,
    pub newest: u32,
}

// datagrams: the datagram numbers accepted. reliables: the reliable numbers accepted. unsent: the first pending are the numbers
// of datagrams not yet acknowledged. newest: one more than the newest sequence number made ready by kind 4 in the console profile, 0 for
// none. profile: 0 console, 1 C++; no other number is sound.
// Numbers stand in place of an enum and an `Option`, and an array beside how much of it is filled: other languages lay it out in memory and
// may lend any numbers, of which those that are not sound are refused (`NotSound`); and it lives in fixed memory, without a heap.
// (`as usize`, here and below: a const can call no From.)
#[repr(C)]
#[derive(Clone, Copy, Debug, PartialEq, Eq)]
pub struct RecvQueue {
    pub datagrams: ReliableWindow,
    pub reliables: ReliableWindow,
    pub channels: [Channel; base::MAX_ORD_CHANS as usize],
    pub unsent: [u32; base::MAX_UNSENT as usize],
    pub pending: u32,
    pub newest: u32,
    pub profile: u32,
}

// What step 4 goes by: each channel's next and memory, the receiver's own memory, and the profile.
#[derive(Clone, Copy, Debug, PartialEq, Eq)]
pub struct Nexts {
    pub channels: [Channel; base::MAX_ORD_CHANS as usize],
    pub newest: u32,
    pub profile: Profile,
}
