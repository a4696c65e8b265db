// ACK and NACK written from the receiver: document 01, "Write ACK or NACK". Refused are `NotSound` (9) and
// `NoRoom` (12).

#![tactic(auto)]

ghost use Rattle.std.specs.Prelude.{◌≡◌, true, false, ◌≤◌, length};
ghost use Rattle.base.specs.Limits.{max_unsent};
ghost use Rattle.base.specs.Refusals.{answer};
ghost use Rattle.ack.specs.Write.{ascending, write_list_of, written_of};
ghost use Rattle.receiver.specs.Write.{sorted, write_unsent_of, write_missing_of};
ghost use Rattle.recv_acks.specs.Wrote.{wrote};

use base::Refusal;
use receiver::RecvQueue;

// The unsent as ACK. "Sending the unsent empties them." (`as usize`, here and below: u32 has no From to it.)
#[tactic(auto, using(crate::proofs::WriteCases::unsents))]
pub fn write_unsent(queue: &mut RecvQueue, out: &mut [u8]) -> Result<usize, Refusal>
    ensures { wrote result queue.new out.new ≡ write_unsent_of queue.old out.old }
{
    let ascending = sound_queue::check_queue(queue)?;
    let len = write_numbers(out, &queue.unsent[..queue.pending as usize], ascending)?;
    queue.pending = 0;
    Ok(len)
}

// The missing as NACK.
#[tactic(auto, using(crate::proofs::WriteCases::missing_unsound))]
pub fn write_missing(queue: &RecvQueue, out: &mut [u8]) -> Result<usize, Refusal>
    ensures { wrote result queue.now out.new ≡ write_missing_of queue.now out.old }
{
    sound_queue::check_queue(queue)?;
    // (An array, as there is no heap: a window has no more places.)
    let mut list = [0u32; base::MAX_LIST];
    let m = queue.datagrams.missing(&mut list);
    ack::write_list(out, true, &list[..m])
}

// Numbers as ACK: straight from their place where they ascend, as those that receive keeps do.
#[tactic(auto, using(crate::proofs::Sorted::sorted_same))]
fn write_numbers(out: &mut [u8], numbers: &[u32], rising: bool) -> Result<usize, Refusal>
    requires few { length numbers.now ≤ max_unsent }
    requires rising { rising ≡ ascending numbers.now }
    ensures result_value { answer result ≡ write_list_of (length out.old) false (sorted numbers.now) }
    ensures out_after { out.new ≡ written_of out.old false (sorted numbers.now) }
{
    if rising {
        ack::write_list(out, false, numbers)
    } else {
        write_sorted(out, numbers)
    }
}

// The numbers, sorted in a copy, as ACK. The copy is an array, as there is no heap; it is made here alone, so that a call which needs none
// makes none.
#[inline(never)]
fn write_sorted(out: &mut [u8], numbers: &[u32]) -> Result<usize, Refusal>
    requires { length numbers.now ≤ max_unsent }
    ensures result_value { answer result ≡ write_list_of (length out.old) false (sorted numbers.now) }
    ensures out_after { out.new ≡ written_of out.old false (sorted numbers.now) }
{
    let mut copy = [0u32; base::MAX_UNSENT as usize];
    let list = &mut copy[..numbers.len()];
    list.copy_from_slice(numbers);
    list.sort_unstable();
    ack::write_list(out, false, list)
}
