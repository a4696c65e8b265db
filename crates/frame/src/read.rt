// A frame read from a slice: first whether it fits, then the fields of its header, which are read without a test.
ghost use Rattle.std.specs.Prelude.{◌≡◌, true, ◌+◌, ◌^◌, ◌<◌, ◌≤◌, length};
ghost use Rattle.base.specs.Refusals.{answer};
ghost use Rattle.frame.specs.Read.{meta_at, meta_size, frame_at, placed_at, read_frame_of};

use super::{FragmentMeta, Frame, Placed, Span};
use base::Refusal;
use reliability::Profile;

// The frame at `at` and the place after it, or Cut where it does not fit.
#[tactic(auto, using(crate::proofs::ReadCases::reads))]
pub fn read_frame(p: Profile, s: &[u8], at: usize) -> Result<(Placed, usize), Refusal>
    ensures { answer result ≡ read_frame_of p s.now at }
{
    let Span { start, next } = super::span_at(p, s, at).ok_or(Refusal::Cut)?;
    let frame = frame_at(p, s, at);
    let placed = Placed {
        frame,
        start,
        len: next - start,
    };
    Ok((placed, next))
}

// The header whose flags stand at `at`. It fits. A field that the kind lacks is 0.
#[tactic(auto, using(crate::proofs::ReadCases::header_parts))]
fn frame_at(p: Profile, s: &[u8], at: usize) -> Frame
    requires { (at < length s.now) × ((placed_at p s.now at).start ≤ length s.now) }
    ensures { result ≡ frame_at p s.now at }
{
    let flags = s[at];
    let kind = flags / super::KIND_UNIT;
    let piece = flags / super::PIECE_UNIT % 2 == 1;
    let k = reliability::fields(p, kind);
    Frame {
        kind,
        reliable: k.reliable.map_or(0, |n| super::read24(s, at + n)),
        sequence: k.sequence.map_or(0, |n| super::read24(s, at + n)),
        order: k.order.map_or(0, |n| super::read24(s, at + n)),
        channel: k.channel.map_or(0, |n| s[at + n]),
        piece,
        meta: meta_at(piece, s, at + k.header),
    }
}

// Count, id and index of a piece, from `at` on. (No `Option`: `Frame` is laid out by other languages with the flag beside the three, so it
// would be taken apart again where it is made.)
#[tactic(auto, unfolding(base::specs::If::if_true))]
fn meta_at(piece: bool, s: &[u8], at: usize) -> FragmentMeta
    requires { piece ≡ true → at + meta_size ≤ length s.now }
    ensures { result ≡ meta_at piece s.now at }
{
    if piece {
        return FragmentMeta {
            count: super::read32(s, at),
            id: super::read16(s, at + 4),
            index: super::read32(s, at + 6),
        };
    }
    FragmentMeta::default()
}
