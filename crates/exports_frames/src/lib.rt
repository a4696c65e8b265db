// Frames, a datagram's head and a split's pieces for programs in other languages, as `exports` has windows and ACKs: the static library
// `exports_frames_c` hands them on. Each promise says by the called function's own definition what all the numbers are, and what is left of
// the output. A profile is a number here, 0 console and 1 C++; every other is refused with 9.

#![tactic(auto)]

ghost use Rattle.std.specs.Prelude.{◌≡◌, length};
ghost use Rattle.base.specs.Answer.{gives};
ghost use Rattle.base.specs.If.{if_lt};
ghost use Rattle.base.specs.Limits.{profiles};
ghost use Rattle.base.specs.Refusals.{answer};
ghost use Rattle.reliability.specs.Profiles.{profile_of};
ghost use Rattle.frame.specs.Frames.{read_frames_of};
ghost use Rattle.frame.specs.Read.{read_frame_of};
ghost use Rattle.frame_write.specs.Valid.{write_frame_of, frame_written_of};
ghost use Rattle.frame_write.specs.Head.{write_head_of, head_written_of};
ghost use Rattle.split.specs.Split.{write_piece_of, piece_written_of};
ghost use Rattle.exports.specs.Numbers.{number_of};
ghost use Rattle.exports_frames.specs.Frames.{under_profile, frame_told, frames_told, written_told};

use base::Refusal;
use frame::{Frame, FramesRead, Placed};
use reliability::Profile;

// The frame and where its body stands, and the place after it. As in `exports`, C lays out a number beside the values, here and in
// the structs below, and no `Result`.
#[repr(C)]
#[derive(Clone, Copy, Debug, Default, PartialEq, Eq)]
pub struct FrameFound {
    pub number: u32,
    pub placed: Placed,
    pub next: usize,
}

impl From<Result<(Placed, usize), Refusal>> for FrameFound {
    ghost from_gives = { λ r x. x ≡ frame_told (answer r) };

    fn from(r: Result<(Placed, usize), Refusal>) -> FrameFound {
        match r {
            Ok((placed, next)) => FrameFound {
                number: 0,
                placed,
                next,
            },
            Err(e) => FrameFound {
                number: e.into(),
                ..FrameFound::default()
            },
        }
    }
}

// How many frames there are, and the bytes left from the first that does not fit.
#[repr(C)]
#[derive(Clone, Copy, Debug, Default, PartialEq, Eq)]
pub struct FramesFound {
    pub number: u32,
    pub count: usize,
    pub left: usize,
}

impl From<Result<FramesRead, Refusal>> for FramesFound {
    ghost from_gives = { λ r x. x ≡ frames_told (answer r) };

    fn from(r: Result<FramesRead, Refusal>) -> FramesFound {
        match r {
            Ok(FramesRead { count, left }) => FramesFound {
                number: 0,
                count,
                left,
            },
            Err(e) => FramesFound {
                number: e.into(),
                ..FramesFound::default()
            },
        }
    }
}

// The place after the frame.
#[repr(C)]
#[derive(Clone, Copy, Debug, Default, PartialEq, Eq)]
pub struct FrameWritten {
    pub number: u32,
    pub next: usize,
}

impl From<Result<usize, Refusal>> for FrameWritten {
    ghost from_gives = { λ r x. x ≡ written_told (answer r) };

    fn from(r: Result<usize, Refusal>) -> FrameWritten {
        match r {
            Ok(next) => FrameWritten { number: 0, next },
            Err(e) => FrameWritten {
                number: e.into(),
                ..FrameWritten::default()
            },
        }
    }
}

// The frames from place `at` on.
pub fn poghduka_read_frames(profile: u32, s: &[u8], at: usize) -> FramesFound
    ensures { result ≡ frames_told (under_profile profile (gives (read_frames_of (profile_of profile) s.now at))) }
{
    let read = |p| frame::read_frames(p, s, at);
    Profile::try_from(profile).map(read).into()
}

// The frame at place `at`.
pub fn poghduka_read_frame(profile: u32, s: &[u8], at: usize) -> FrameFound
    ensures { result ≡ frame_told (under_profile profile (read_frame_of (profile_of profile) s.now at)) }
{
    let read = |p| frame::read_frame(p, s, at);
    Profile::try_from(profile).and_then(read).into()
}

// Writes the frame into the output from place `at` on. (A `match`: of a closure that borrows the output a proof does not learn that, where
// it is not called, the output is as it was.)
pub fn poghduka_write_frame(
    profile: u32,
    out: &mut [u8],
    at: usize,
    frame: Frame,
    body: &[u8],
) -> FrameWritten
    ensures value { result ≡ written_told (under_profile profile
        (write_frame_of (profile_of profile) (length out.old) at frame (length body.now))) }
    ensures out_after { out.new
        ≡ if_lt profile profiles (frame_written_of (profile_of profile) out.old at frame body.now) out.old }
{
    match Profile::try_from(profile) {
        Ok(p) => frame_write::write_frame(p, out, at, frame, body).into(),
        Err(e) => FrameWritten::from(Err(e)),
    }
}

// Writes 84 and the number at the start of the output.
pub fn poghduka_write_head(out: &mut [u8], number: u32) -> u32
    ensures value { result ≡ number_of (write_head_of (length out.old) number) }
    ensures out_after { out.new ≡ head_written_of out.old number }
{
    exports::number_of(frame_write::write_head(out, number))
}

// Writes piece k of the split of the buffer at the start of the output: a frame of kind 3, the same in both profiles.
pub fn poghduka_write_piece(
    buffer: &[u8],
    mtu: u16,
    id: u16,
    k: u32,
    channel: u8,
    order: u32,
    reliable: u32,
    out: &mut [u8],
) -> FrameWritten
    ensures value { result ≡ written_told (write_piece_of (length out.old) (length buffer.now) mtu id k channel order reliable) }
    ensures out_after { out.new ≡ piece_written_of out.old buffer.now mtu id k channel order reliable }
{
    split::write_piece(buffer, mtu, id, k, channel, order, reliable, out).into()
}
