// The receiver, over the first so many of the records and cells that it is lent.

use recv_queue::{CellRecord, Profile, Received, RecvQueue, Refusal, Taken};

// So many that the most pieces that a message may have find room. (`as usize`: a const can call no From.)
pub const CELLS: usize = base::MAX_FRAGS as usize;

pub const STORE: usize = base::CELL_BYTES * CELLS;

// An ACK of one number: after each datagram the unsent are emptied.
const ACK: usize = 7;

// (`main` has the arrays: the stack has no room for them twice.)
#[derive(Drop)]
pub struct Receiver<'a> {
    pub queue: RecvQueue,
    pub records: &'a mut [CellRecord],
    pub store: &'a mut [u8],
    pub joined: &'a mut [u8],
    pub cells: usize,
}

fn first_mut<T>(s: &mut [T], n: usize) -> &mut [T] {
    let n = replay::within(s, n);
    &mut s[..n]
}

impl<'a> Receiver<'a> {
    fn front(&self) -> usize {
        base::CELL_BYTES.saturating_mul(self.cells)
    }

    // Over so many cells; a refusal leaves all as it was, but for their number.
    pub fn make_new(&mut self, cells: usize, profile: Profile) -> Result<(), Refusal> {
        self.cells = cells;
        let front = self.front();
        let records = first_mut(self.records, cells);
        recv_queue::make_new(
            &mut self.queue,
            records,
            first_mut(self.store, front),
            profile,
        )
    }

    pub fn receive(&mut self, datagram: &[u8]) -> Result<Received, Refusal> {
        let (cells, front) = (self.cells, self.front());
        let records = first_mut(self.records, cells);
        recv_queue::receive(
            &mut self.queue,
            records,
            first_mut(self.store, front),
            datagram,
        )
    }

    pub fn take(&mut self) -> Result<Taken, Refusal> {
        let (queue, cells, front) = (self.queue, self.cells, self.front());
        let records = first_mut(self.records, cells);
        recv_queue::take(&queue, records, first_mut(self.store, front), self.joined)
    }

    // The bytes of the message that a take gave.
    pub fn body(&self, taken: Taken) -> &[u8] {
        recv_queue::body(self.store, self.joined, Ok(taken))
    }

    pub fn empty_unsent(&mut self) {
        let mut out = [0u8; ACK];
        let _ = recv_queue::write_unsent(&mut self.queue, &mut out);
    }
}
