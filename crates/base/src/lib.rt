// What the other crates share: document 01's limits and refusals, and numbers read from bytes and written as bytes.

#![tactic(auto)]

ghost use Rattle.std.specs.Prelude.{◌≡◌, ◌≤◌, ◌∷◌, [], length, take, get_or};
ghost use Rattle.base.specs.Bytes.{be16, be32, be64, le24, be16_bytes, be32_bytes, be64_bytes, le24_bytes};
ghost use Rattle.base.specs.Put.{Run};

pub use refusal::Refusal;

mod refusal;

// Document 01's limits. The definitions' own are in specs/Limits.antt.
pub const NUMBERS_24: u32 = 16777216;

pub const NUMBERS_16: u32 = 65536;

pub const MAX_ORD_CHANS: u8 = 32;

pub const PROFILES: u32 = 2;

pub const MAX_FRAGS: u32 = 1024;

pub const WINDOW_PLACES: u32 = 2048;

pub const MAX_LIST: usize = 2048;

pub const MAX_BODY: usize = 8191;

pub const MIN_MTU: u16 = 61;

pub const MAX_MTU: u16 = 1500;

pub const RAKNET_HEADER_FRAME_OVERHEAD: u16 = 60;

pub const MAX_CELLS: usize = 4096;

pub const CELL_BYTES: usize = 1500;

pub const MIN_DATAGRAM: usize = 4;

pub const MAX_DATAGRAM: usize = 1500;

pub const MAX_UNSENT: u32 = 1024;

pub const MAX_AGE: u64 = 4294967296;

// Reading is total: a byte past the end is 0. The readers below, the places of a window and the programs that replay files read by it.
pub fn byte(s: &[u8], p: usize) -> u8
    ensures { result ≡ get_or s.now p 0 }
{
    s.get(p).copied().unwrap_or(0)
}

// No generic reader of N bytes: it would have to ask at each byte whether the place wraps, and `le24_at` would still add its 0.
// p may be any number: only where it is in the slice does the place after it surely not wrap, and past the end all is 0.
#[tactic(auto, unfolding(crate::specs::Bytes::be16))]
pub fn be16_at(s: &[u8], p: usize) -> u16
    ensures { result ≡ be16 s.now p }
{
    if p < s.len() {
        return u16::from_be_bytes([byte(s, p), byte(s, p + 1)]);
    }
    0
}

#[tactic(auto, unfolding(crate::specs::Bytes::be32, crate::specs::Bytes::be16))]
pub fn be32_at(s: &[u8], p: usize) -> u32
    ensures { result ≡ be32 s.now p }
{
    if p < s.len() {
        return u32::from_be_bytes([byte(s, p), byte(s, p + 1), byte(s, p + 2), byte(s, p + 3)]);
    }
    0
}

#[tactic(auto, unfolding(crate::specs::Bytes::be64, crate::specs::Bytes::be32, crate::specs::Bytes::be16))]
pub fn be64_at(s: &[u8], p: usize) -> u64
    ensures { result ≡ be64 s.now p }
{
    if p < s.len() {
        return u64::from(be32_at(s, p)) * 4294967296 + u64::from(be32_at(s, p.saturating_add(4)));
    }
    0
}

#[tactic(auto, unfolding(crate::specs::Bytes::le24))]
pub fn le24_at(s: &[u8], p: usize) -> u32
    ensures { result ≡ le24 s.now p }
{
    if p < s.len() {
        return u32::from_le_bytes([byte(s, p), byte(s, p + 1), byte(s, p + 2), 0]);
    }
    0
}

// Each writer stores its elements from place p on, as far as the slice goes, and returns the place after them. No struct holds both: one
// that borrows `out` would have to promise at each method that its borrow is the one that came in, and no call would be plainer.
pub fn put_all<T: Copy>(out: &mut [T], p: usize, xs: &[T]) -> usize
    ensures { Run p xs.now out.old result out.new }
{
    if out.len() <= p {
        return p;
    }
    // Where all fits the copy is as long as the caller's array: a few moves, where that length is known when it is compiled.
    let room = out.len() - p;
    if xs.len() <= room {
        copy_all(&mut out[p..p + xs.len()], xs);
        return p + xs.len();
    }
    copy_front(&mut out[p..p + room], xs);
    p + room
}

// One slice over another of its length. A loop without a branch, as this one, is compiled to moves of many bytes at a time. (Not by std's
// `copy_from_slice`: it is compiled to a call of `memmove`, and the archives for C would need that name from outside.)
fn copy_all<T: Copy>(to: &mut [T], from: &[T])
    requires { length to.old ≡ length from.now }
    ensures { to.new ≡ from.now }
{
    for (i, x) in from.iter().enumerate() {
        to[i] = *x;
    }
}

// As many as there is room for. (Never inlined: of a caller's own array the loop would be a call of `memcpy`, and the archive of frames
// needs no name from outside. It is rare.)
#[inline(never)]
fn copy_front<T: Copy>(to: &mut [T], from: &[T])
    requires { length to.old ≤ length from.now }
    ensures { to.new ≡ take (length to.old) from.now }
{
    copy_all(to, &from[..to.len()]);
}

#[tactic(auto, unfolding(crate::specs::Put::put, crate::specs::Put::after, crate::specs::If::if_lt, crate::specs::If::if_true))]
pub fn put<T: Copy>(out: &mut [T], p: usize, x: T) -> usize
    ensures { Run p (x ∷ []) out.old result out.new }
{
    if p < out.len() {
        out[p] = x;
        return p + 1;
    }
    p
}

// Two or three bytes go one by one: as a slice for `put_all` they are copied by a call, and an ACK, which is made of them, takes up to
// three times as long. (A frame has three such numbers at most, and `frame_write` puts them by `put_all`.)
pub fn put16(out: &mut [u8], p: usize, x: u32) -> usize
    ensures { Run p (be16_bytes x) out.old result out.new }
{
    let [_, _, high, low] = x.to_be_bytes();
    let a = put(out, p, high);
    put(out, a, low)
}

pub fn put24(out: &mut [u8], p: usize, x: u32) -> usize
    ensures { Run p (le24_bytes x) out.old result out.new }
{
    let [low, middle, high, _] = x.to_le_bytes();
    let a = put(out, p, low);
    let b = put(out, a, middle);
    put(out, b, high)
}

#[tactic(auto, unfolding(crate::specs::Bytes::be32_bytes, crate::specs::Put::and_then, crate::specs::Bytes::be16_bytes))]
pub fn put32(out: &mut [u8], p: usize, x: u32) -> usize
    ensures { Run p (be32_bytes x) out.old result out.new }
{
    put_all(out, p, &x.to_be_bytes())
}

pub fn put64(out: &mut [u8], p: usize, x: u64) -> usize
    ensures { Run p (be64_bytes x) out.old result out.new }
{
    let bytes = x.to_be_bytes();
    put_all(out, p, &bytes)
}
