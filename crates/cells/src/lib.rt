// The receiver with cells: a cell's record; definitions (specs/) and the theorems that they refine document 01's bare receiver (proofs/).

#![tactic(auto)]

// What a cell is used for: for nothing, for a piece of an open, a held or a ready message, or, only while a datagram is worked on, for a
// joined message that was dropped late and frees its cells afterwards. Numbers and no enum: a lent record may hold any number there, which
// soundness refuses (9).
pub const UNUSED: u32 = 0;

pub const OPEN: u32 = 1;

pub const HELD: u32 = 2;

pub const READY: u32 = 3;

pub const RELEASED: u32 = 4;

// One record stands beside each cell. age: how many datagrams were accepted after the one that carried the last kept piece of its open
// message (request 4), up to 2^32, which is why it alone has 64 bits. Other languages lay the record out in memory, and lend it.
#[repr(C)]
#[derive(Clone, Copy, Debug, Default, PartialEq, Eq)]
pub struct CellRecord {
    pub used: u32,
    pub kind: u32,
    pub channel: u32,
    pub id: u32,
    pub index: u32,
    pub count: u32,
    pub length: u32,
    pub sequence: u32,
    pub order: u32,
    pub turn: u32,
    pub age: u64,
}
