// A whole replay: the input is read, and a program's step runs at each of its items.

ghost use Rattle.std.specs.Prelude.{take, IfOk};
ghost use Rattle.replay.specs.Fronts.{IsPrefixLen};
ghost use Rattle.replay.specs.Items.{items_of};
ghost use Rattle.replay.specs.Replays.{RanAtEach};

use crate::input::read_full;
use crate::stored::Items;
use std::io;
use std::io::Read;

// Runs `step` at the tag and the payload of each item, one after another.
pub fn each_item<F: FnMut(u8, &[u8])>(bytes: &[u8], mut step: F)
    requires { F.IsAlwaysCallable step }
    ensures { RanAtEach F.FnMut step (items_of bytes.now) }
{
    for (tag, payload) in Items::of(bytes) {
        step(tag, payload);
    }
}

// The same for the items of the input, of which as much is read as `buf` has room for; how many bytes that is. Each program's `main` lends
// it `buf`: of an array of its own this could not say which bytes were read.
pub fn replay<R: Read, F: FnMut(u8, &[u8])>(
    input: &mut R,
    buf: &mut [u8],
    step: F,
) -> io::Result<usize>
    requires { F.IsAlwaysCallable step }
    ensures { IfOk result (λ n. IsPrefixLen n buf.new
        × RanAtEach F.FnMut step (items_of (take n buf.new))) }
{
    let n = read_full(input, buf)?;
    each_item(&buf[..n], step);
    Ok(n)
}
