// The same memories in a list of numbers of any length: each channel's next and memory, the receiver's own memory, and the profile's number
// (`recv_parts`). A number that is not there is 0.
ghost use Rattle.std.specs.Prelude.{◌≡◌};
ghost use Rattle.bare.specs.Bare.{memory_of, older};
ghost use Rattle.recv_parts.specs.Parts.{memory_place, newest_at, profile_for};
ghost use Rattle.recv_memory.specs.Remembered.{memory_number, remembered_at};

use super::{Memory, memory_of};
use reliability::Profile;

// "at or below it": is the sequence number no newer than what its memory holds?
#[tactic(auto, using(crate::proofs::Places::older_told))]
pub fn is_older(nexts: &[u32], kind: u8, channel: u8, sequence: u32) -> bool
    ensures { result ≡ older (newest_at nexts.now) (memory_of (profile_for nexts.now) kind channel) sequence }
{
    let memory = memory_of(profile_for(nexts), kind, channel);
    sequence < recv_parts::number_at(nexts, place_of(memory))
}

// Its memory holds the sequence number from now on. One of 2^24 or more is none, and a memory past the list's end is not there.
#[tactic(auto, using(crate::proofs::Places::stored, crate::proofs::Places::past_the_end, crate::proofs::Places::too_large))]
pub fn remember(nexts: &mut [u32], kind: u8, channel: u8, sequence: u32)
    ensures { nexts.new ≡ remembered_at (memory_of (profile_for nexts.old) kind channel) sequence nexts.old }
{
    let place = place_of(memory_of(profile_for(nexts), kind, channel));
    if sequence < base::NUMBERS_24 && place < nexts.len() {
        nexts[place] = sequence + 1;
    }
}

// The profile of these numbers.
#[tactic(auto, unfolding(recv_parts::specs::Parts::profile_for, recv_parts::specs::Parts::profile_at))]
pub fn profile_for(nexts: &[u32]) -> Profile
    ensures { result ≡ profile_for nexts.now }
{
    reliability::profile_of(recv_parts::number_at(nexts, recv_parts::PROFILE_PLACE))
}

// A channel's memory stands after its next, the receiver's own after them all.
#[tactic(auto, using(crate::proofs::Places::place_below, crate::proofs::Places::place_above))]
fn place_of(memory: Memory) -> usize
    ensures { result ≡ memory_place (memory_number memory) }
{
    match memory {
        Memory::Own => 2 * usize::from(base::MAX_ORD_CHANS),
        Memory::Of(c) if c < base::MAX_ORD_CHANS => 2 * usize::from(c) + 1,
        Memory::Of(c) => 2 * usize::from(c),
    }
}
