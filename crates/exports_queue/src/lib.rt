// The receiver's calls for programs in other languages, as `exports_c` has the others: a static library (`rt lib` here). The caller keeps
// the receiver, its records and its store, and lends them for each call. Each promise says by the call's own definition what is returned,
// all of it, and what is left of everything lent. A profile is a number here, 0 console and 1 C++; every other is refused with 9.

#![tactic(auto)]

ghost use Rattle.std.specs.Prelude.{◌≡◌};
ghost use Rattle.receiver.specs.Receive.{receive_of};
ghost use Rattle.receiver.specs.Take.{take_of};
ghost use Rattle.receiver.specs.Drop.{drop_unfinished_of};
ghost use Rattle.receiver.specs.Write.{write_unsent_of, write_missing_of};
ghost use Rattle.receiver.specs.Save.{save_of};
ghost use Rattle.receiver.specs.Restore.{restore_of};
ghost use Rattle.recv_new.specs.New.{made_new};
ghost use Rattle.exports_queue.specs.Receiver.{make_numbered_of, new_numbers, new_numbers_of, receive_numbers, receive_numbers_of};
ghost use Rattle.exports_queue.specs.Receiver.{take_numbers, take_numbers_of, drop_numbers, drop_numbers_of};
ghost use Rattle.exports_queue.specs.Receiver.{write_numbers, write_numbers_of};
ghost use Rattle.exports_queue.specs.Receiver.{save_numbers, save_numbers_of, restore_numbers, restore_numbers_of};

use base::Refusal;
use exports::AckWritten;
use recv_answers::{QueueDropped, QueueReceived, QueueSaved, QueueTaken};
use recv_queue::{CellRecord, Profile, RecvQueue};

// Make new, for the profile of a number.
#[tactic(auto, using(crate::proofs::Numbered::ways), unfolding(recv_new::specs::New::made_new))]
fn make_numbered(
    queue: &mut RecvQueue,
    records: &mut [CellRecord],
    store: &[u8],
    profile: u32,
) -> Result<(), Refusal>
    ensures { made_new result queue.new records.new
        ≡ make_numbered_of profile queue.old records.old store.now }
{
    let p = Profile::try_from(profile)?;
    recv_queue::make_new(queue, records, store, p)
}

#[tactic(auto, unfolding(recv_new::specs::New::made_new, crate::specs::Receiver::new_numbers_of))]
#[unsafe(no_mangle)]
pub extern "C" fn poghduka_make_new(
    queue: &mut RecvQueue,
    records: &mut [CellRecord],
    store: &[u8],
    profile: u32,
) -> u32
    ensures { new_numbers result queue.new records.new
        ≡ new_numbers_of (make_numbered_of profile queue.old records.old store.now) }
{
    recv_answers::new_number(make_numbered(queue, records, store, profile))
}

#[tactic(auto, unfolding(recv_queue::specs::Answers::received, crate::specs::Receiver::receive_numbers_of))]
#[unsafe(no_mangle)]
pub extern "C" fn poghduka_receive(
    queue: &mut RecvQueue,
    records: &mut [CellRecord],
    store: &mut [u8],
    datagram: &[u8],
) -> QueueReceived
    ensures { receive_numbers result queue.new records.new store.new
        ≡ receive_numbers_of (receive_of queue.old records.old store.old datagram.now) }
{
    recv_queue::receive(queue, records, store, datagram).into()
}

#[tactic(auto, unfolding(recv_take::specs::Outcome::take_result, crate::specs::Receiver::take_numbers_of))]
#[unsafe(no_mangle)]
pub extern "C" fn poghduka_take(
    queue: &RecvQueue,
    records: &mut [CellRecord],
    store: &[u8],
    joined: &mut [u8],
) -> QueueTaken
    ensures { take_numbers result records.new joined.new
        ≡ take_numbers_of (take_of queue.now records.old store.now joined.old) }
{
    recv_queue::take(queue, records, store, joined).into()
}

#[tactic(auto, unfolding(recv_drop::specs::Outcome::drop_result, crate::specs::Receiver::drop_numbers_of))]
#[unsafe(no_mangle)]
pub extern "C" fn poghduka_drop_unfinished(
    queue: &RecvQueue,
    records: &mut [CellRecord],
    store: &[u8],
    n: u32,
) -> QueueDropped
    ensures { drop_numbers result records.new
        ≡ drop_numbers_of (drop_unfinished_of queue.now records.old store.now n) }
{
    recv_queue::drop_unfinished(queue, records, store, n).into()
}

#[tactic(auto, unfolding(recv_acks::specs::Wrote::wrote, crate::specs::Receiver::write_numbers_of))]
#[unsafe(no_mangle)]
pub extern "C" fn poghduka_write_unsent(queue: &mut RecvQueue, out: &mut [u8]) -> AckWritten
    ensures { write_numbers result queue.new out.new
        ≡ write_numbers_of (write_unsent_of queue.old out.old) }
{
    recv_queue::write_unsent(queue, out).into()
}

#[tactic(auto, unfolding(recv_acks::specs::Wrote::wrote, crate::specs::Receiver::write_numbers_of))]
#[unsafe(no_mangle)]
pub extern "C" fn poghduka_write_missing(queue: &RecvQueue, out: &mut [u8]) -> AckWritten
    ensures { write_numbers result queue.now out.new
        ≡ write_numbers_of (write_missing_of queue.now out.old) }
{
    recv_queue::write_missing(queue, out).into()
}

#[tactic(auto, unfolding(recv_save::specs::Outcome::save_result, crate::specs::Receiver::save_numbers_of))]
#[unsafe(no_mangle)]
pub extern "C" fn poghduka_save(
    queue: &RecvQueue,
    records: &[CellRecord],
    store: &[u8],
    out: &mut [u8],
) -> QueueSaved
    ensures { save_numbers result out.new
        ≡ save_numbers_of (save_of queue.now records.now store.now out.old) }
{
    recv_queue::save(queue, records, store, out).into()
}

#[tactic(auto, unfolding(recv_queue::specs::Answers::restore_result, crate::specs::Receiver::restore_numbers_of))]
#[unsafe(no_mangle)]
pub extern "C" fn poghduka_restore(
    queue: &mut RecvQueue,
    records: &mut [CellRecord],
    store: &mut [u8],
    image: &[u8],
) -> u32
    ensures { restore_numbers result queue.new records.new store.new
        ≡ restore_numbers_of (restore_of queue.old records.old store.old image.now) }
{
    exports::number_of(recv_queue::restore(queue, records, store, image))
}
