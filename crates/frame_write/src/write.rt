// A frame written into the unwritten rest of the lent output.
ghost use Rattle.std.specs.Prelude.{◌≡◌, ◌<◌, ◌≤◌, ◌+◌, length, [], eqb, ltb};
ghost use Rattle.base.specs.Limits.{max_body};
ghost use Rattle.base.specs.Put.{Run};
ghost use Rattle.base.specs.Refusals.{answer};
ghost use Rattle.reliability.specs.Kinds.{on_place};
ghost use Rattle.frame.specs.Read.{max_kind};
ghost use Rattle.frame_write.specs.Write.{flags_of, start_bytes, field_bytes, meta_bytes, header_bytes, frame_bytes};
ghost use Rattle.frame_write.specs.Valid.{fields_ok, meta_ok, within_limits, size_of, write_frame_of, frame_written_of};

use base::Refusal;
use frame::{FragmentMeta, Frame};
use reliability::{KindFields, Profile, Reliability};

// Writes a frame into the output from `at` on, and returns the place after it.
#[tactic(auto, using(crate::proofs::WriteCases::writes))]
pub fn write_frame(
    p: Profile,
    out: &mut [u8],
    at: usize,
    frame: Frame,
    body: &[u8],
) -> Result<usize, Refusal>
    ensures answer { answer result ≡ write_frame_of p (length out.old) at frame (length body.now) }
    ensures output { out.new ≡ frame_written_of p out.old at frame body.now }
{
    if !within_limits(p, frame, body.len()) {
        return Err(Refusal::OverLimit);
    }
    let size = frame::header_size(p, frame.kind, frame.piece) + body.len();
    let room = out.len().checked_sub(at).ok_or(Refusal::NoRoom)?;
    if room < size {
        return Err(Refusal::NoRoom);
    }
    put_frame(p, &mut out[at..], frame, body);
    Ok(at + size)
}

// A field is below its limit, and 0 where the kind lacks it.
fn field_ok(place: Option<usize>, x: u32, limit: u32) -> bool
    ensures { result ≡ on_place place (eqb x 0) (λ _. ltb x limit) }
{
    if place.is_some() { x < limit } else { x == 0 }
}

#[tactic(auto, unfolding(crate::specs::Valid::fields_ok, crate::specs::Valid::number_ok, crate::specs::Valid::channel_ok))]
fn fields_ok(k: KindFields, frame: Frame) -> bool
    ensures { result ≡ fields_ok k frame }
{
    field_ok(k.reliable, frame.reliable, base::NUMBERS_24)
        & field_ok(k.sequence, frame.sequence, base::NUMBERS_24)
        & field_ok(k.order, frame.order, base::NUMBERS_24)
        & field_ok(
            k.channel,
            u32::from(frame.channel),
            u32::from(base::MAX_ORD_CHANS),
        )
}

// A piece's count and index are within their limits; a frame that is no piece has none of the three. (Flag and value, and no
// `Option`: of such a frame the value is tested too.)
#[tactic(auto, unfolding(crate::specs::Valid::meta_ok, base::specs::If::if_true))]
fn meta_ok(piece: bool, meta: FragmentMeta) -> bool
    ensures { result ≡ meta_ok piece meta }
{
    if piece {
        return meta.is_in_limits();
    }
    meta == FragmentMeta::default()
}

#[tactic(auto, using(crate::proofs::WriteCases::is_kind), unfolding(crate::specs::Valid::within_limits))]
fn within_limits(p: Profile, frame: Frame, n: usize) -> bool
    ensures { result ≡ within_limits p frame n }
{
    Reliability::try_from(frame.kind).is_ok()
        & (n <= base::MAX_BODY)
        & fields_ok(reliability::fields(p, frame.kind), frame)
        & meta_ok(frame.piece, frame.meta)
}

#[tactic(auto, unfolding(crate::specs::Write::flags_of, base::specs::If::if_true))]
fn flags_of(kind: u8, piece: bool) -> u8
    requires { kind ≤ max_kind }
    ensures { result ≡ flags_of kind piece }
{
    let flags = kind * frame::KIND_UNIT;
    if piece {
        flags + frame::PIECE_UNIT
    } else {
        flags
    }
}

// Flags, and the length of a body of n bytes. (The flag alone: of a piece's three numbers nothing stands here.)
fn put_start(out: &mut [u8], to: usize, kind: u8, piece: bool, n: u32) -> usize
    requires { (kind ≤ max_kind) × (n ≤ max_body) }
    ensures { Run to (start_bytes kind piece n) out.old result out.new }
{
    let a = base::put(out, to, flags_of(kind, piece));
    base::put16(out, a, n * 8)
}

// A field's bytes, where the kind has it. (By `put_all`: one function for the numbers' three bytes and the channel's one.)
fn put_field(out: &mut [u8], to: usize, place: Option<usize>, bytes: &[u8]) -> usize
    ensures { Run to (on_place place [] (λ _. bytes.now)) out.old result out.new }
{
    match place {
        Some(_) => base::put_all(out, to, bytes),
        None => to,
    }
}

// The numbers and the channel that the kind has.
fn put_fields(out: &mut [u8], to: usize, k: KindFields, frame: Frame) -> usize
    ensures { Run to (field_bytes k frame) out.old result out.new }
{
    let a = put_field(out, to, k.reliable, &frame.reliable.to_le_bytes()[..3]);
    let b = put_field(out, a, k.sequence, &frame.sequence.to_le_bytes()[..3]);
    let c = put_field(out, b, k.order, &frame.order.to_le_bytes()[..3]);
    put_field(out, c, k.channel, &[frame.channel])
}

// Count, id and index of a piece. (Flag and value, as `Frame` has them for other languages.)
fn put_meta(out: &mut [u8], to: usize, piece: bool, meta: FragmentMeta) -> usize
    ensures { Run to (meta_bytes piece meta) out.old result out.new }
{
    if !piece {
        return to;
    }
    let a = base::put32(out, to, meta.count);
    let b = base::put16(out, a, u32::from(meta.id));
    base::put32(out, b, meta.index)
}

// The header of a frame with a body of n bytes.
fn put_header(p: Profile, out: &mut [u8], to: usize, frame: Frame, n: u32) -> usize
    requires { (frame.kind ≤ max_kind) × (n ≤ max_body) }
    ensures { Run to (header_bytes p frame n) out.old result out.new }
{
    let k = reliability::fields(p, frame.kind);
    let a = put_start(out, to, frame.kind, frame.piece, n);
    let b = put_fields(out, a, k, frame);
    put_meta(out, b, frame.piece, frame.meta)
}

// The whole frame, at the start of the output's rest. (`as u32`: no body is longer than 8,191.)
fn put_frame(p: Profile, out: &mut [u8], frame: Frame, body: &[u8]) -> usize
    requires { (frame.kind ≤ max_kind) × (length body.now ≤ max_body) }
    ensures { Run 0 (frame_bytes p frame body.now) out.old result out.new }
{
    let a = put_header(p, out, 0, frame, body.len() as u32);
    base::put_all(out, a, body)
}
