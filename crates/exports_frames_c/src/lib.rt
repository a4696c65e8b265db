// The functions of `exports_frames` as C functions, as `exports_c` has those of `exports` (`rt lib` here). Each calls that of
// `exports_frames`, and makes its promise.

#![tactic(auto)]

ghost use Rattle.std.specs.Prelude.{◌≡◌, length};
ghost use Rattle.base.specs.Answer.{gives};
ghost use Rattle.base.specs.If.{if_lt};
ghost use Rattle.base.specs.Limits.{profiles};
ghost use Rattle.reliability.specs.Profiles.{profile_of};
ghost use Rattle.frame.specs.Frames.{read_frames_of};
ghost use Rattle.frame.specs.Read.{read_frame_of};
ghost use Rattle.frame_write.specs.Valid.{write_frame_of, frame_written_of};
ghost use Rattle.frame_write.specs.Head.{write_head_of, head_written_of};
ghost use Rattle.split.specs.Split.{write_piece_of, piece_written_of};
ghost use Rattle.exports.specs.Numbers.{number_of};
ghost use Rattle.exports_frames.specs.Frames.{under_profile, frame_told, frames_told, written_told};

use exports_frames::{FrameFound, FrameWritten, FramesFound};
use frame::Frame;

// The frames from place `at` on.
#[unsafe(no_mangle)]
pub extern "C" fn poghduka_read_frames(profile: u32, s: &[u8], at: usize) -> FramesFound
    ensures { result ≡ frames_told (under_profile profile (gives (read_frames_of (profile_of profile) s.now at))) }
{
    exports_frames::poghduka_read_frames(profile, s, at)
}

// The frame at place `at`.
#[unsafe(no_mangle)]
pub extern "C" fn poghduka_read_frame(profile: u32, s: &[u8], at: usize) -> FrameFound
    ensures { result ≡ frame_told (under_profile profile (read_frame_of (profile_of profile) s.now at)) }
{
    exports_frames::poghduka_read_frame(profile, s, at)
}

// Writes the frame into the output from place `at` on.
#[unsafe(no_mangle)]
pub extern "C" fn poghduka_write_frame(
    profile: u32,
    out: &mut [u8],
    at: usize,
    frame: Frame,
    body: &[u8],
) -> FrameWritten
    ensures value { result ≡ written_told (under_profile profile
        (write_frame_of (profile_of profile) (length out.old) at frame (length body.now))) }
    ensures out_after { out.new
        ≡ if_lt profile profiles (frame_written_of (profile_of profile) out.old at frame body.now) out.old }
{
    exports_frames::poghduka_write_frame(profile, out, at, frame, body)
}

// Writes 84 and the number at the start of the output.
#[unsafe(no_mangle)]
pub extern "C" fn poghduka_write_head(out: &mut [u8], number: u32) -> u32
    ensures value { result ≡ number_of (write_head_of (length out.old) number) }
    ensures out_after { out.new ≡ head_written_of out.old number }
{
    exports_frames::poghduka_write_head(out, number)
}

// Writes piece k of the split of the buffer at the start of the output.
#[unsafe(no_mangle)]
pub extern "C" fn poghduka_write_piece(
    buffer: &[u8],
    mtu: u16,
    id: u16,
    k: u32,
    channel: u8,
    order: u32,
    reliable: u32,
    out: &mut [u8],
) -> FrameWritten
    ensures value { result ≡ written_told (write_piece_of (length out.old) (length buffer.now) mtu id k channel order reliable) }
    ensures out_after { out.new ≡ piece_written_of out.old buffer.now mtu id k channel order reliable }
{
    exports_frames::poghduka_write_piece(buffer, mtu, id, k, channel, order, reliable, out)
}
