// Make new: a receiver over lent records and a lent store.

#![tactic(auto)]

ghost use Rattle.std.specs.Prelude.{◌≡◌};
ghost use Rattle.row_slots.specs.First.{blank};
ghost use Rattle.receiver.specs.Queue.{new_queue};
ghost use Rattle.recv_new.specs.New.{made_new, make_new_of};

use base::Refusal;
use cells::CellRecord;
use receiver::{Channel, RecvQueue};
use reliability::Profile;
use window::ReliableWindow;

// "old records aren't looked at, all become unused". Refusal: 9 (NotSound).
#[tactic(auto, using(crate::proofs::Cases::makes_none, crate::proofs::Cases::makes_some))]
pub fn make_new(
    queue: &mut RecvQueue,
    records: &mut [CellRecord],
    store: &[u8],
    profile: Profile,
) -> Result<(), Refusal>
    ensures { made_new result queue.new records.new
        ≡ make_new_of profile queue.old records.old store.now }
{
    if !sound_call::lengths_fit(records.len(), store.len()) {
        return Err(Refusal::NotSound);
    }
    records.fill(unused());
    *queue = new_queue(profile);
    Ok(())
}

// "At first each next is 0 and all else is empty." A caller has such a receiver to lend. (`as usize`: a const can call no From.)
#[tactic(auto, unfolding(receiver::specs::Queue::new_queue))]
pub fn new_queue(profile: Profile) -> RecvQueue
    ensures { result ≡ new_queue profile }
{
    RecvQueue {
        datagrams: ReliableWindow::new(),
        reliables: ReliableWindow::new(),
        channels: [Channel::default(); base::MAX_ORD_CHANS as usize],
        unsent: [0; base::MAX_UNSENT as usize],
        pending: 0,
        newest: 0,
        profile: u32::from(profile),
    }
}

// The record of an unused cell: all its numbers are 0. (Beside `default`, as the name says what they mean: callers fill an array with it.)
pub fn unused() -> CellRecord
    ensures { result ≡ blank }
{
    CellRecord::default()
}
