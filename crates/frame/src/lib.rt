// Frames, as document 01's "Bytes" has them, read from a slice under a profile of document 02, 2/13; `frame_write` writes them.

#![tactic(auto)]

ghost use Rattle.std.specs.Prelude.{◌≡◌, ◌+◌, ◌<◌, ◌≤◌, length};
ghost use Rattle.base.specs.Bytes.{be16, be32, le24};
ghost use Rattle.reliability.specs.Kinds.{fields_of};
ghost use Rattle.frame.specs.Read.{header_size, body_length, longest_body, span_of, piece_in_limits};

use reliability::Profile;

mod frames;
mod read;

pub use frames::read_frames;
pub use read::read_frame;

// Flags and length: the least that a frame takes.
const START_SIZE: usize = 3;

// The bytes of a piece's count, id and index.
pub const META_SIZE: usize = 10;

// What a byte of flags is made of: the kind, in its top three bits, and whether the frame is a piece.
pub const KIND_UNIT: u8 = 32;

pub const PIECE_UNIT: u8 = 16;

// Where a piece stands in its message. The Rust's field `size` is document 01's count.
#[repr(C)]
#[derive(Clone, Copy, Debug, Default, PartialEq, Eq)]
pub struct FragmentMeta {
    pub count: u32,
    pub id: u16,
    pub index: u32,
}

impl FragmentMeta {
    // Is the count 1 to 1,024, and the index below it? (`&`: without a branch for each test.)
    pub fn is_in_limits(&self) -> bool
        ensures { result ≡ piece_in_limits self.now }
    {
        (1 <= self.count) & (self.count <= base::MAX_FRAGS) & (self.index < self.count)
    }
}

// What a frame's header says; a field that the kind, or a frame that is no piece, lacks is 0.
// Other languages lay this struct out: so the kind is a number, and `piece` stands beside `meta`.
#[repr(C)]
#[derive(Clone, Copy, Debug, Default, PartialEq, Eq)]
pub struct Frame {
    pub kind: u8,
    pub reliable: u32,
    pub sequence: u32,
    pub order: u32,
    pub channel: u8,
    pub piece: bool,
    pub meta: FragmentMeta,
}

// A frame, and where its body stands in the slice.
#[repr(C)]
#[derive(Clone, Copy, Debug, Default, PartialEq, Eq)]
pub struct Placed {
    pub frame: Frame,
    pub start: usize,
    pub len: usize,
}

// How many frames were read, and the bytes left from the first that does not fit.
#[derive(Clone, Copy, Debug, Default, PartialEq, Eq)]
pub struct FramesRead {
    pub count: usize,
    pub left: usize,
}

// Where the body of a frame starts, and the place after the frame.
#[derive(Clone, Copy, Debug, PartialEq, Eq)]
struct Span {
    start: usize,
    next: usize,
}

// ---- numbers that are known to stand in the slice, read without a test for each byte: it is among what brought most
// (docs/DECISIONS.md, 'Speed')

#[tactic(auto, unfolding(base::specs::Bytes::be16))]
fn read16(s: &[u8], at: usize) -> u16
    requires { at + 2 ≤ length s.now }
    ensures { result ≡ be16 s.now at }
{
    u16::from_be_bytes([s[at], s[at + 1]])
}

#[tactic(auto, unfolding(base::specs::Bytes::be32, base::specs::Bytes::be16))]
fn read32(s: &[u8], at: usize) -> u32
    requires { at + 4 ≤ length s.now }
    ensures { result ≡ be32 s.now at }
{
    u32::from_be_bytes([s[at], s[at + 1], s[at + 2], s[at + 3]])
}

#[tactic(auto, unfolding(base::specs::Bytes::le24))]
fn read24(s: &[u8], at: usize) -> u32
    requires { at + 3 ≤ length s.now }
    ensures { result ≡ le24 s.now at }
{
    u32::from_le_bytes([s[at], s[at + 1], s[at + 2], 0])
}

// ---- how far a frame reaches: flags and length alone say it

// The header's bytes: those of the kind's row, and a piece's ten; they go by the flag alone, so it is taken without its `FragmentMeta`.
// (Bounds such as this say only that no sum wraps.)
#[tactic(auto, using(crate::proofs::ReadCases::piece_size, crate::proofs::ReadCases::whole_size))]
pub fn header_size(p: Profile, kind: u8, piece: bool) -> usize
    ensures is { result ≡ header_size piece (fields_of p kind).header }
    ensures small { result < 110 }
{
    let header = reliability::fields(p, kind).header;
    if piece { header + META_SIZE } else { header }
}

// The span of the frame whose flags stand at `at`; none where it does not fit.
#[tactic(auto, using(crate::proofs::ReadCases::spans), unfolding(crate::specs::Read::span_of))]
fn span_at(p: Profile, s: &[u8], at: usize) -> Option<Span>
    ensures { result ≡ span_of p s.now at }
{
    let room = s.len().checked_sub(at)?;
    if room < START_SIZE {
        return None;
    }
    let flags = s[at];
    let start = at + header_size(p, flags / KIND_UNIT, flags / PIECE_UNIT % 2 == 1);
    let next = start + body_len(p, read16(s, at + 1));
    if next <= s.len() {
        return Some(Span { start, next });
    }
    None
}

// The bytes of a body whose length in bits is given.
// `div_ceil` was tried: `read_frames` takes 8 % more time by it.
#[tactic(auto, unfolding(crate::specs::Read::body_length))]
fn body_len(p: Profile, bits: u16) -> usize
    ensures is { result ≡ body_length p bits }
    ensures small { result ≤ longest_body }
{
    match p {
        Profile::Console => usize::from(bits) / 8,
        Profile::Cpp => (usize::from(bits) + 7) / 8,
    }
}
