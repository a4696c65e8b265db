// Are bytes an image's at all? Read at places, and nothing is kept. (Where each value stands: specs/At.)

#![tactic(auto)]

ghost use Rattle.std.specs.Prelude.{◌≡◌, ◌≤◌, ◌*◌, ◌<◌};
ghost use Rattle.image.specs.Format.{exactly, many, section, body};
ghost use Rattle.image.specs.Image.{piece_format, message_format, image_format, read_image};
ghost use Rattle.image_read.specs.Ends.{Ends, is_some};

// The bytes of a section's count; of a number; of a window's entry, and of a channel's; of a piece's numbers before its body, and of a
// message's before its count.
const COUNT: u64 = 4;

const NUMBER: u64 = 8;

const WINDOW: u64 = 264;

const CHANNEL: u64 = 16;

const PIECE: u64 = 64;

const MESSAGE: u64 = 24;

// ---- where values end

// The place after n bytes. (A length of 64 bits is compared with the bytes left, and only then added. `as`: usize has 64 bits.)
#[tactic(auto, using(crate::proofs::Ending::ends))]
fn skip(s: &[u8], p: usize, n: u64) -> Option<usize>
    ensures { Ends (exactly n) s.now p result }
{
    let room = s.len().saturating_sub(p);
    if n <= room as u64 {
        return Some(p + n as usize);
    }
    None
}

#[tactic(auto, using(crate::proofs::Ending::ends))]
fn skip_body(s: &[u8], p: usize) -> Option<usize>
    ensures { Ends body s.now p result }
{
    let q = skip(s, p, NUMBER)?;
    skip(s, q, base::be64_at(s, p))
}

// (Each body takes eight bytes or more: an absurd count ends at the cut.)
#[tactic(auto, using(crate::proofs::Ending::goings))]
fn skip_bodies(s: &[u8], p: usize, n: u64) -> Option<usize>
    ensures { Ends (many body n) s.now p result }
{
    let mut at = p;
    for _ in 0..n {
        at = skip_body(s, at)?;
    }
    Some(at)
}

#[tactic(auto, using(crate::proofs::Ending::ends))]
fn skip_piece(s: &[u8], p: usize) -> Option<usize>
    ensures { Ends piece_format s.now p result }
{
    let q = skip(s, p, PIECE)?;
    skip_body(s, q)
}

#[tactic(auto, using(crate::proofs::Ending::goings))]
fn skip_pieces(s: &[u8], p: usize, n: u32) -> Option<usize>
    ensures { Ends (many piece_format n) s.now p result }
{
    let mut at = p;
    for _ in 0..n {
        at = skip_piece(s, at)?;
    }
    Some(at)
}

#[tactic(auto, using(crate::proofs::Ending::ends))]
fn skip_message(s: &[u8], p: usize) -> Option<usize>
    ensures { Ends message_format s.now p result }
{
    let q = skip(s, p, MESSAGE)?;
    let r = skip(s, q, NUMBER)?;
    skip_bodies(s, r, base::be64_at(s, q))
}

#[tactic(auto, using(crate::proofs::Ending::goings))]
fn skip_messages(s: &[u8], p: usize, n: u32) -> Option<usize>
    ensures { Ends (many message_format n) s.now p result }
{
    let mut at = p;
    for _ in 0..n {
        at = skip_message(s, at)?;
    }
    Some(at)
}

// ---- sections

// A section of entries of `size` bytes each.
#[tactic(auto, using(crate::proofs::Ending::ends))]
fn skip_numbers(s: &[u8], p: usize, size: u64) -> Option<usize>
    requires { size ≤ 264 }
    ensures { Ends (section (exactly size)) s.now p result }
{
    let q = skip(s, p, COUNT)?;
    skip(s, q, u64::from(base::be32_at(s, p)) * size)
}

#[tactic(auto, using(crate::proofs::Ending::ends))]
fn skip_open(s: &[u8], p: usize) -> Option<usize>
    ensures { Ends (section piece_format) s.now p result }
{
    let q = skip(s, p, COUNT)?;
    skip_pieces(s, q, base::be32_at(s, p))
}

#[tactic(auto, using(crate::proofs::Ending::ends))]
fn skip_closed(s: &[u8], p: usize) -> Option<usize>
    ensures { Ends (section message_format) s.now p result }
{
    let q = skip(s, p, COUNT)?;
    skip_messages(s, q, base::be32_at(s, p))
}

// The seven sections.
#[tactic(auto, using(crate::proofs::Ending::sections))]
fn skip_image(s: &[u8]) -> Option<usize>
    ensures { Ends image_format s.now 0 result }
{
    let p = skip_numbers(s, 0, NUMBER)?;
    let p = skip_numbers(s, p, WINDOW)?;
    let p = skip_numbers(s, p, CHANNEL)?;
    let p = skip_numbers(s, p, NUMBER)?;
    let p = skip_open(s, p)?;
    let p = skip_closed(s, p)?;
    skip_closed(s, p)
}

// Is it an image? It is not where it is cut, and where bytes are left.
#[tactic(auto, using(crate::proofs::Ending::forms))]
pub fn is_formed(s: &[u8]) -> bool
    ensures { result ≡ is_some (read_image s.now) }
{
    skip_image(s) == Some(s.len())
}
