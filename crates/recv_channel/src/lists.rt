// A receiver's nexts and memories as a list of numbers: each channel's next and memory, the receiver's own memory, and the profile's number
// (`recv_parts`); and its records, moved to the numbers of such a list, of any length.
ghost use Rattle.std.specs.Prelude.{◌≡◌};
ghost use Rattle.recv_parts.specs.Parts.{nexts_of};
ghost use Rattle.recv_channel.specs.Advance.{advanced_by};

use super::advance_each;
use receiver::RecvQueue;

// Each channel's next and memory, as its record has them, then the receiver's own memory and its profile.
#[tactic(auto, using(crate::proofs::Copied::fill_more, crate::proofs::Copied::filled_all), unfolding(recv_parts::specs::Parts::nexts_of))]
pub fn nexts_of(queue: &RecvQueue) -> [u32; recv_parts::NEXTS]
    ensures { result ≡ nexts_of queue.now }
{
    let mut nexts = [0; recv_parts::NEXTS];
    for (c, channel) in queue.channels.iter().enumerate() {
        nexts[2 * c] = channel.next;
        nexts[2 * c + 1] = channel.newest;
    }
    nexts[recv_parts::OWN_PLACE] = queue.newest;
    nexts[recv_parts::PROFILE_PLACE] = queue.profile;
    nexts
}

// Every record of the receiver, and its own memory; what has no number goes to 0. It keeps its profile.
#[tactic(auto, unfolding(crate::specs::Advance::advanced_by, recv_parts::specs::Parts::newest_at, recv_parts::specs::Parts::memory_place))]
pub fn advance_all(queue: &mut RecvQueue, nexts: &[u32])
    ensures { queue.new ≡ advanced_by queue.old nexts.now }
{
    advance_each(&mut queue.channels, &recv_parts::channels_of(nexts));
    queue.newest = recv_parts::number_at(nexts, recv_parts::OWN_PLACE);
}
