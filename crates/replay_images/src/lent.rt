// What the calls are lent: a receiver, and the first so many records and bytes of a store.

use recv_queue::{Body, CellRecord, Profile, Received, RecvQueue, Refusal};

// So many that a message of the most pieces that there may be finds room.
pub const CELLS: usize = 1040;

pub const STORE: usize = base::CELL_BYTES * CELLS;

pub const JOINED: usize = 4096;

// What is kept of it, to be put back: of no more records.
pub const FEW: usize = 64;

pub const FEW_STORE: usize = base::CELL_BYTES * FEW;

// An image has fewer bytes.
pub const IMAGE: usize = 16384;

// What an output holds where nothing is written.
const FILL: u8 = 0xA5;

// (`main` has the arrays: a value that holds them is written where it is made, and again where it is kept, and the stack has no room for
// that.)
#[derive(Drop)]
pub struct Lent<'a> {
    pub queue: RecvQueue,
    pub records: &'a mut [CellRecord],
    pub store: &'a mut [u8],
    pub joined: &'a mut [u8],
    pub cells: usize,
    pub front: usize,
}

#[derive(Drop)]
pub struct Kept<'a> {
    pub queue: RecvQueue,
    pub records: &'a mut [CellRecord],
    pub store: &'a mut [u8],
}

// The first n, or as many as there are.
fn first<T>(s: &[T], n: usize) -> &[T] {
    &s[..replay::within(s, n)]
}

fn first_mut<T>(s: &mut [T], n: usize) -> &mut [T] {
    let n = replay::within(s, n);
    &mut s[..n]
}

impl<'a> Lent<'a> {
    pub fn make_new(&mut self, profile: Profile) -> Result<(), Refusal> {
        let (cells, front) = (self.cells, self.front);
        let records = first_mut(self.records, cells);
        recv_queue::make_new(
            &mut self.queue,
            records,
            first_mut(self.store, front),
            profile,
        )
    }

    pub fn receive(&mut self, datagram: &[u8]) -> Result<Received, Refusal> {
        let (cells, front) = (self.cells, self.front);
        let records = first_mut(self.records, cells);
        recv_queue::receive(
            &mut self.queue,
            records,
            first_mut(self.store, front),
            datagram,
        )
    }

    // How long the message is that is handed out.
    pub fn take(&mut self) -> Result<usize, Refusal> {
        let (queue, cells, front) = (self.queue, self.cells, self.front);
        let records = first_mut(self.records, cells);
        let taken = recv_queue::take(&queue, records, first_mut(self.store, front), self.joined)?;
        Ok(match taken.body {
            Body::InStore { len, .. } | Body::Joined { len } => len,
        })
    }

    pub fn write_unsent(&mut self) -> Result<usize, Refusal> {
        recv_queue::write_unsent(&mut self.queue, self.joined)
    }

    pub fn drop_unfinished(&mut self, n: u32) -> Result<u32, Refusal> {
        let (queue, cells, front) = (self.queue, self.cells, self.front);
        let records = first_mut(self.records, cells);
        recv_queue::drop_unfinished(&queue, records, first_mut(self.store, front), n)
    }

    pub fn restore(&mut self, image: &[u8]) -> Result<(), Refusal> {
        let (cells, front) = (self.cells, self.front);
        let records = first_mut(self.records, cells);
        recv_queue::restore(
            &mut self.queue,
            records,
            first_mut(self.store, front),
            image,
        )
    }

    fn save(&self, out: &mut [u8]) -> Result<usize, Refusal> {
        let (records, store) = (
            first(self.records, self.cells),
            first(self.store, self.front),
        );
        recv_queue::save(&self.queue, records, store, out)
    }

    // Is this what it saves, and nothing is written after it?
    pub fn saves(&self, image: &[u8]) -> bool {
        let mut out = [FILL; IMAGE];
        let answer = self.save(&mut out);
        answer == Ok(image.len())
            && replay::part(&out, 0, image.len()) == image
            && out.iter().skip(image.len()).all(|x| *x == FILL)
    }

    // Is it refused an output of fewer bytes, with nothing written?
    pub fn finds_no_room(&self, len: usize) -> bool {
        let mut out = [FILL; IMAGE];
        self.save(first_mut(&mut out, len)) == Err(Refusal::NoRoom)
            && out.iter().all(|x| *x == FILL)
    }

    // The records and the bytes of the store that are lent, as far as they are kept.
    fn lent_records(&self) -> &[CellRecord] {
        first(self.records, self.cells.min(FEW))
    }

    fn lent_store(&self) -> &[u8] {
        first(self.store, self.front.min(FEW_STORE))
    }

    pub fn keep(&self, kept: &mut Kept) {
        kept.queue = self.queue;
        base::put_all(kept.records, 0, self.lent_records());
        base::put_all(kept.store, 0, self.lent_store());
    }

    pub fn put_back(&mut self, kept: &Kept) {
        self.queue = kept.queue;
        base::put_all(self.records, 0, kept.records_of(self.cells));
        base::put_all(self.store, 0, kept.store_of(self.front));
    }

    pub fn is_as(&self, kept: &Kept) -> bool {
        self.queue == kept.queue
            && self.lent_records() == kept.records_of(self.cells)
            && self.lent_store() == kept.store_of(self.front)
    }
}

impl<'a> Kept<'a> {
    fn records_of(&self, cells: usize) -> &[CellRecord] {
        first(self.records, cells)
    }

    fn store_of(&self, front: usize) -> &[u8] {
        first(self.store, front)
    }
}
