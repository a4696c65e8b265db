// What an accepted datagram leaves of the receiver. Receive works on copies of the reliable numbers' window and of the channels' nexts;
// where it accepts the datagram they are written back here, each where it lies, and the datagram's number joins the accepted and the
// unsent. A refused datagram does not come here, so the receiver is as it was.

#![tactic(auto)]

ghost use Rattle.std.specs.Prelude.{◌≡◌};
ghost use Rattle.recv_channel.specs.Advance.{advanced_all};
ghost use Rattle.recv_lent.specs.Settled.{next_pending, with_number};

use receiver::{Nexts, RecvQueue};
use window::ReliableWindow;

// One more number is unsent; no more than 1,024 are. (`join_number` asks the same: each of the two promises what it leaves for any count.)
#[tactic(auto, unfolding(crate::specs::Settled::next_pending, base::specs::If::if_lt, base::specs::If::if_true))]
fn next_pending(k: u32) -> u32
    ensures { result ≡ next_pending k }
{
    if k < base::MAX_UNSENT { k + 1 } else { k }
}

// The reliable numbers' window as the frames left it, and the datagram's number among the accepted and the unsent. (Receive has found
// before the frames that the number is neither old nor beyond reach, so the insertion's own answer tells nothing more.)
#[tactic(auto, unfolding(crate::specs::Settled::with_number))]
fn accept(queue: &mut RecvQueue, reliables: &ReliableWindow, number: u32, ascending: bool)
    ensures { queue.new ≡ with_number queue.old reliables.now number ascending }
{
    queue.reliables = *reliables;
    let _ = queue.datagrams.insert(number);
    let pending = queue.pending;
    recv_unsent::join_number(&mut queue.unsent, pending, number, ascending);
    queue.pending = next_pending(pending);
}

// What the frames left goes into the receiver: the channels' nexts and memories, and the reliable numbers' window; and the datagram's own
// number.
pub fn settle(
    queue: &mut RecvQueue,
    reliables: &ReliableWindow,
    nexts: &Nexts,
    number: u32,
    ascending: bool,
)
    ensures { queue.new ≡ with_number (advanced_all queue.old nexts.now) reliables.now number ascending }
{
    recv_channel::advance_to(queue, nexts);
    accept(queue, reliables, number, ascending);
}
