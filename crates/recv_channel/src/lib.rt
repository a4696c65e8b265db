// A channel's record, advanced in place. Document 01: "thin function on a channel record lent by &mut: next order number moved past ready
// messages, after the by-value core". Receive works on a copy of the nexts and memories (`copy_nexts`); the records are then moved to those
// that it comes to.

#![tactic(auto)]

ghost use Rattle.std.specs.Prelude.{◌≡◌};
ghost use Rattle.receiver.specs.Parts.{channel_with, nexts_of};
ghost use Rattle.recv_channel.specs.Advance.{advanced_all};

mod lists;

pub use lists::{advance_all, nexts_of};
use receiver::{Channel, Nexts, RecvQueue};

// The copy. (A `From` could stand only in `receiver`, away from `advance_to`, which takes the copy back: the two are read together.)
#[tactic(auto, unfolding(receiver::specs::Parts::nexts_of, receiver::specs::Queue::profile_in))]
pub fn copy_nexts(queue: &RecvQueue) -> Nexts
    ensures { result ≡ nexts_of queue.now }
{
    Nexts {
        channels: queue.channels,
        newest: queue.newest,
        profile: reliability::profile_of(queue.profile),
    }
}

// "A channel's record is advanced in place": the record is lent, and its next is moved past the ready messages, its memory to the newest.
pub fn advance(channel: &mut Channel, next: u32, newest: u32)
    ensures { channel.new ≡ channel_with next newest }
{
    *channel = advanced(*channel, next, newest);
}

// The by-value core: the record with its next and its memory moved.
fn advanced(mut channel: Channel, next: u32, newest: u32) -> Channel
    ensures { result ≡ channel_with next newest }
{
    channel.next = next;
    channel.newest = newest;
    channel
}

// Every record is moved to the numbers of the one at its place: each where it stands, as document 01 asks, so the array is not copied. (The
// numbers are read by their place: of `iter_mut().zip(..)` a proof learns nothing of the records. `as usize`: a const can call no From.)
#[tactic(auto, using(crate::proofs::Laws::one_more))]
fn advance_each(
    channels: &mut [Channel; base::MAX_ORD_CHANS as usize],
    numbers: &[Channel; base::MAX_ORD_CHANS as usize],
)
    ensures { channels.new ≡ numbers.now }
{
    for (c, channel) in channels.iter_mut().enumerate() {
        advance(channel, numbers[c].next, numbers[c].newest);
    }
}

// Every record of the receiver, and its own memory. It keeps its profile.
#[tactic(auto, unfolding(crate::specs::Advance::advanced_all))]
pub fn advance_to(queue: &mut RecvQueue, nexts: &Nexts)
    ensures { queue.new ≡ advanced_all queue.old nexts.now }
{
    advance_each(&mut queue.channels, &nexts.channels);
    queue.newest = nexts.newest;
}
