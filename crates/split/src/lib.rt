// Data of more than mtu - 60 bytes is split into pieces of so many, the last one as long as what is left: `FragmentQueue::split` of the
// Rust's queue/mod.rs, asked for one piece at a time, and each piece is written as the frame that carries it.

#![tactic(auto)]

ghost use Rattle.std.specs.Prelude.{◌≡◌, ◌≤◌, ◌*◌, length};
ghost use Rattle.base.specs.Limits.{frame_overhead};
ghost use Rattle.base.specs.Refusals.{answer};
ghost use Rattle.split.specs.Split.{chunk, part_of, split_of, write_piece_of, piece_written_of};

use base::Refusal;
use frame::{FragmentMeta, Frame};
use reliability::{Profile, Reliability};

// Writes piece k of the split of the buffer at this mtu, k counted from 0, as a frame of kind 3 at the start of the output, and returns how
// many bytes the frame takes. (The parameters are the request's, in its order. Frames of kind 3 are the same in both profiles.)
#[tactic(auto, using(crate::proofs::Cases::pieces))]
pub fn write_piece(
    buffer: &[u8],
    mtu: u16,
    id: u16,
    k: u32,
    channel: u8,
    order: u32,
    reliable: u32,
    out: &mut [u8],
) -> Result<usize, Refusal>
    ensures answer { answer result ≡ write_piece_of (length out.old) (length buffer.now) mtu id k channel order reliable }
    ensures output { out.new ≡ piece_written_of out.old buffer.now mtu id k channel order reliable }
{
    let count = count_pieces(buffer.len(), mtu, k)?;
    let frame = Frame {
        kind: Reliability::ReliableOrd.into(),
        reliable,
        sequence: 0,
        order,
        channel,
        piece: true,
        meta: FragmentMeta {
            count,
            id,
            index: k,
        },
    };
    frame_write::write_frame(Profile::Console, out, 0, frame, part(buffer, mtu, k))
}

// How many pieces n bytes make at this mtu, where they are split and there is a piece k.
#[tactic(auto, unfolding(crate::specs::Split::split_of, base::specs::If::if_lt, base::specs::If::if_le, base::specs::If::if_true))]
fn count_pieces(n: usize, mtu: u16, k: u32) -> Result<u32, Refusal>
    ensures { answer result ≡ split_of n mtu k }
{
    if !(base::MIN_MTU..=base::MAX_MTU).contains(&mtu) {
        return Err(Refusal::BadMtu);
    }
    let chunk = chunk(mtu);
    if n <= chunk {
        return Err(Refusal::FitsOneChunk);
    }
    let count = match u32::try_from(n.div_ceil(chunk)) {
        Ok(count) if count <= base::MAX_FRAGS => count,
        _ => return Err(Refusal::TooManyPieces),
    };
    if count <= k {
        return Err(Refusal::BeyondLast);
    }
    Ok(count)
}

// How many bytes each piece takes, the last one at most so many.
fn chunk(mtu: u16) -> usize
    requires { frame_overhead ≤ mtu }
    ensures { result ≡ chunk mtu }
{
    usize::from(mtu - base::RAKNET_HEADER_FRAME_OVERHEAD)
}

// The bytes of piece k, uncopied. (`as usize`: u32 has no From to it.)
#[tactic(auto, unfolding(crate::specs::Split::part_of))]
fn part(buffer: &[u8], mtu: u16, k: u32) -> &[u8]
    requires { (frame_overhead ≤ mtu) × (k * chunk mtu ≤ length buffer.now) }
    ensures { result.now ≡ part_of buffer.now mtu k }
{
    let chunk = chunk(mtu);
    let rest = &buffer[k as usize * chunk..];
    &rest[..rest.len().min(chunk)]
}
