// A receiver for a program that holds it with its records: each call is over the first `cells` records (all, where that is more than there
// are).

#![tactic(auto)]

ghost use Rattle.std.specs.Prelude.{◌≡◌, take, drop};
ghost use Rattle.receiver.specs.Queue.{new_queue};
ghost use Rattle.receiver.specs.Receive.{receive_of};
ghost use Rattle.receiver.specs.Take.{take_of};
ghost use Rattle.receiver.specs.Drop.{drop_unfinished_of};
ghost use Rattle.receiver.specs.Write.{write_unsent_of, write_missing_of};
ghost use Rattle.receiver.specs.Save.{save_of};
ghost use Rattle.receiver.specs.Restore.{restore_of};
ghost use Rattle.recv_acks.specs.Wrote.{wrote};
ghost use Rattle.recv_take.specs.Outcome.{take_result};
ghost use Rattle.recv_drop.specs.Outcome.{drop_result};
ghost use Rattle.recv_save.specs.Outcome.{save_result};
ghost use Rattle.recv_new.specs.New.{made_new, make_new_of};
ghost use Rattle.recv_queue.specs.Answers.{received, restore_result};
ghost use Rattle.recv_array.specs.Held.{unused_cells, in_use, IsSameBeyond};

use base::Refusal;
use recv_queue::{CellRecord, Profile, Received, RecvQueue, Taken};

// How many records a program holds, in use or not.
pub const HELD: usize = 256;

// The records are an array and `cells` says how many are in use: there is no heap, and a program may use fewer than there are.
#[derive(Clone, Copy, Debug, PartialEq, Eq)]
pub struct Receiver {
    pub queue: RecvQueue,
    pub records: [CellRecord; HELD],
    pub cells: usize,
}

impl Receiver {
    // Make new for a profile, over so many unused records. (A pair: `Result<Receiver, _>` would promise less, as the receiver beside a
    // refusal is determined too.)
    #[tactic(auto, unfolding(crate::specs::Held::unused_cells, cells::specs::Cell::empty_cell))]
    pub fn new(cells: usize, store: &[u8], profile: Profile) -> (Receiver, Result<(), Refusal>)
        ensures made { made_new result.1 result.0.queue (in_use result.0)
            ≡ make_new_of profile (new_queue profile) (take cells unused_cells) store.now }
        ensures beyond { drop cells result.0.records ≡ drop cells unused_cells }
        ensures over { result.0.cells ≡ cells }
    {
        let mut queue = recv_queue::new_queue(profile);
        let mut records = [recv_queue::unused(); HELD];
        let made = make_first(&mut queue, &mut records, cells, store, profile);
        let receiver = Receiver {
            queue,
            records,
            cells,
        };
        (receiver, made)
    }

    pub fn receive(&mut self, store: &mut [u8], datagram: &[u8]) -> Result<Received, Refusal>
        ensures value { received result self.new.queue (in_use self.new) store.new
            ≡ receive_of self.old.queue (in_use self.old) store.old datagram.now }
        ensures beyond { IsSameBeyond self.old self.new }
    {
        let n = self.cells;
        receive_first(&mut self.queue, &mut self.records, n, store, datagram)
    }

    pub fn take(&mut self, store: &[u8], joined: &mut [u8]) -> Result<Taken, Refusal>
        ensures value { take_result result (in_use self.new) joined.new
            ≡ take_of self.old.queue (in_use self.old) store.now joined.old }
        ensures beyond { IsSameBeyond self.old self.new }
        ensures queue { self.new.queue ≡ self.old.queue }
    {
        let n = self.cells;
        take_first(&self.queue, &mut self.records, n, store, joined)
    }

    pub fn drop_unfinished(&mut self, store: &[u8], n: u32) -> Result<u32, Refusal>
        ensures value { drop_result result (in_use self.new)
            ≡ drop_unfinished_of self.old.queue (in_use self.old) store.now n }
        ensures beyond { IsSameBeyond self.old self.new }
        ensures queue { self.new.queue ≡ self.old.queue }
    {
        let cells = self.cells;
        drop_first(&self.queue, &mut self.records, cells, store, n)
    }

    pub fn write_unsent(&mut self, out: &mut [u8]) -> Result<usize, Refusal>
        ensures value { wrote result self.new.queue out.new ≡ write_unsent_of self.old.queue out.old }
        ensures records { self.new ≡ record self.old { queue = self.new.queue } }
    {
        recv_queue::write_unsent(&mut self.queue, out)
    }

    pub fn write_missing(&self, out: &mut [u8]) -> Result<usize, Refusal>
        ensures { wrote result self.now.queue out.new ≡ write_missing_of self.now.queue out.old }
    {
        recv_queue::write_missing(&self.queue, out)
    }

    pub fn save(&self, store: &[u8], out: &mut [u8]) -> Result<usize, Refusal>
        ensures { save_result result out.new ≡ save_of self.now.queue (in_use self.now) store.now out.old }
    {
        save_first(&self.queue, &self.records, self.cells, store, out)
    }

    // Over the same cells: how many they are is the receiver's, and no image's.
    pub fn restore(&mut self, store: &mut [u8], image: &[u8]) -> Result<(), Refusal>
        ensures value { restore_result result self.new.queue (in_use self.new) store.new
            ≡ restore_of self.old.queue (in_use self.old) store.old image.now }
        ensures beyond { IsSameBeyond self.old self.new }
    {
        let n = self.cells;
        restore_first(&mut self.queue, &mut self.records, n, store, image)
    }
}

// ---- over the first n records, or all of them (functions of their own: a proof knows how long the array is only where it is lent; each
// cuts them itself, as of a function that lends the front of a slice the proof that the rest stays did not close)

fn make_first(
    queue: &mut RecvQueue,
    records: &mut [CellRecord],
    n: usize,
    store: &[u8],
    profile: Profile,
) -> Result<(), Refusal>
    ensures value { made_new result queue.new (take n records.new)
        ≡ make_new_of profile queue.old (take n records.old) store.now }
    ensures beyond { drop n records.new ≡ drop n records.old }
{
    let m = n.min(records.len());
    recv_queue::make_new(queue, &mut records[..m], store, profile)
}

fn receive_first(
    queue: &mut RecvQueue,
    records: &mut [CellRecord],
    n: usize,
    store: &mut [u8],
    datagram: &[u8],
) -> Result<Received, Refusal>
    ensures value { received result queue.new (take n records.new) store.new
        ≡ receive_of queue.old (take n records.old) store.old datagram.now }
    ensures beyond { drop n records.new ≡ drop n records.old }
{
    let m = n.min(records.len());
    recv_queue::receive(queue, &mut records[..m], store, datagram)
}

fn take_first(
    queue: &RecvQueue,
    records: &mut [CellRecord],
    n: usize,
    store: &[u8],
    joined: &mut [u8],
) -> Result<Taken, Refusal>
    ensures value { take_result result (take n records.new) joined.new
        ≡ take_of queue.now (take n records.old) store.now joined.old }
    ensures beyond { drop n records.new ≡ drop n records.old }
{
    let m = n.min(records.len());
    recv_queue::take(queue, &mut records[..m], store, joined)
}

fn drop_first(
    queue: &RecvQueue,
    records: &mut [CellRecord],
    cells: usize,
    store: &[u8],
    n: u32,
) -> Result<u32, Refusal>
    ensures value { drop_result result (take cells records.new)
        ≡ drop_unfinished_of queue.now (take cells records.old) store.now n }
    ensures beyond { drop cells records.new ≡ drop cells records.old }
{
    let m = cells.min(records.len());
    recv_queue::drop_unfinished(queue, &mut records[..m], store, n)
}

fn save_first(
    queue: &RecvQueue,
    records: &[CellRecord],
    n: usize,
    store: &[u8],
    out: &mut [u8],
) -> Result<usize, Refusal>
    ensures { save_result result out.new ≡ save_of queue.now (take n records.now) store.now out.old }
{
    let m = n.min(records.len());
    recv_queue::save(queue, &records[..m], store, out)
}

fn restore_first(
    queue: &mut RecvQueue,
    records: &mut [CellRecord],
    n: usize,
    store: &mut [u8],
    image: &[u8],
) -> Result<(), Refusal>
    ensures value { restore_result result queue.new (take n records.new) store.new
        ≡ restore_of queue.old (take n records.old) store.old image.now }
    ensures beyond { drop n records.new ≡ drop n records.old }
{
    let m = n.min(records.len());
    recv_queue::restore(queue, &mut records[..m], store, image)
}
