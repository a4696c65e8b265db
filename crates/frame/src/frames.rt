// Frame after frame, until one does not fit.
ghost use Rattle.std.specs.Prelude.{◌≡◌};
ghost use Rattle.frame.specs.Frames.{read_frames_of};

use super::FramesRead;
use reliability::Profile;

// How many frames stand one after the other from `at` on, and the bytes left from the first that does not fit. No header is read.
pub fn read_frames(p: Profile, s: &[u8], at: usize) -> FramesRead
    ensures { result ≡ read_frames_of p s.now at }
{
    let mut place = at;
    let mut count = 0;
    // As an iterator it would be no plainer: the answer is how many frames and where they end, of which a chain tells one, and a `for` over
    // an iterator by reference, whose field then tells the other, is this loop with a type more.
    while let Some(span) = super::span_at(p, s, place) {
        place = span.next;
        count += 1;
    }
    FramesRead {
        count,
        left: s.len().saturating_sub(place),
    }
}
