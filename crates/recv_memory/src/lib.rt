// The memories of newest sequence numbers among the nexts, by which step 4 drops a sequenced message that comes late (docs/DIFFERENCES.md's
// request 1). Each is the newest number plus 1, and 0 for none: a number and no `Option`, since the channels' are copied from the receiver,
// which other languages lay out, and the definitions count the receiver's own in the same way.

#![tactic(auto)]

ghost use Rattle.std.specs.Prelude.{◌≡◌};
ghost use Rattle.bare.specs.Bare.{memory_of, older};
ghost use Rattle.receiver.specs.Parts.{newest_at, with_newest};
ghost use Rattle.recv_memory.specs.Remembered.{memory_number, remembered};

mod lists;

pub use lists::{is_older, profile_for, remember};
use receiver::{Channel, Nexts};
use reliability::{Profile, Reliability};

// A channel's memory, or the receiver's own. (The definitions count the memories: the receiver's own is number 32. The open functions take
// any channel, so a channel 32, which no frame has, names it too: `Own | Of(MAX_ORD_CHANS)`.)
#[derive(Clone, Copy, Debug, PartialEq, Eq)]
enum Memory {
    Of(u8),
    Own,
}

// "at or below it": is the sequence number no newer than what its memory holds?
#[tactic(auto, unfolding(bare::specs::Bare::older))]
pub fn is_older_in(nexts: &Nexts, kind: u8, channel: u8, sequence: u32) -> bool
    ensures { result ≡ older (newest_at nexts.now) (memory_of nexts.now.profile kind channel) sequence }
{
    sequence < newest_at(nexts, memory_of(nexts.profile, kind, channel))
}

// Its memory holds the sequence number from now on. One of 2^24 or more is none, and a memory past the last is not there.
#[tactic(auto, unfolding(crate::specs::Remembered::remembered, base::specs::If::if_lt, base::specs::If::if_true))]
pub fn remember_in(nexts: &mut Nexts, kind: u8, channel: u8, sequence: u32)
    ensures { nexts.new ≡ remembered (memory_of nexts.old.profile kind channel) sequence nexts.old }
{
    let memory = memory_of(nexts.profile, kind, channel);
    if sequence < base::NUMBERS_24 {
        set_newest(nexts, memory, sequence + 1);
    }
}

// Kind 1 goes by its channel's memory, kind 4 by the receiver's own, or in the C++ profile by its channel's. (The kind is a frame's number:
// the open functions answer for any kind, and a `Reliability` would ask more of their callers.)
#[tactic(auto, unfolding(bare::specs::Bare::memory_of))]
fn memory_of(profile: Profile, kind: u8, channel: u8) -> Memory
    ensures { memory_number result ≡ memory_of profile kind channel }
{
    if kind == u8::from(Reliability::UnreliableSeq) {
        return Memory::Of(channel);
    }
    match profile {
        Profile::Console => Memory::Own,
        Profile::Cpp => Memory::Of(channel),
    }
}

// The newest number plus 1; 0 where the memory is not there. (`channels` as a slice tells the proof how many they are.)
#[tactic(auto, using(crate::proofs::Laws::newest_channel, crate::proofs::Laws::newest_own, crate::proofs::Laws::newest_none))]
fn newest_at(nexts: &Nexts, memory: Memory) -> u32
    ensures { result ≡ newest_at nexts.now (memory_number memory) }
{
    let channels: &[Channel] = &nexts.channels;
    match memory {
        Memory::Own | Memory::Of(base::MAX_ORD_CHANS) => nexts.newest,
        Memory::Of(c) => channels
            .get(usize::from(c))
            .map_or(0, |channel| channel.newest),
    }
}

#[tactic(auto, unfolding(receiver::specs::Parts::with_newest))]
fn set_newest(nexts: &mut Nexts, memory: Memory, newest: u32)
    ensures { nexts.new ≡ with_newest (memory_number memory) newest nexts.old }
{
    match memory {
        Memory::Own | Memory::Of(base::MAX_ORD_CHANS) => nexts.newest = newest,
        Memory::Of(c) if c < base::MAX_ORD_CHANS => {
            nexts.channels[usize::from(c)].newest = newest;
        }
        Memory::Of(_) => {}
    }
}
