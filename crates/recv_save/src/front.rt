// The receiver's own values: profile, windows, channels and unsent numbers.
ghost use Rattle.std.specs.Prelude.{◌≡◌, ◌+◌, ◌*◌, ◌≤◌, cond, length};
ghost use Rattle.base.specs.Bytes.{be64_bytes};
ghost use Rattle.base.specs.Limits.{numbers24, max_unsent};
ghost use Rattle.base.specs.Put.{Run};
ghost use Rattle.window.specs.Places.{place_set};
ghost use Rattle.image.specs.Windows.{eight};
ghost use Rattle.recv_save.specs.Each.{each_bytes};
ghost use Rattle.recv_save.specs.Front.{place_bytes, window_bytes, pair_bytes, channel_bytes, profile_bytes, windows_bytes};
ghost use Rattle.recv_save.specs.Front.{channels_bytes, unsent_bytes, front_bytes};

use crate::put_number;
use receiver::{Channel, RecvQueue};
use window::ReliableWindow;

// The bit of n's place in its byte.
fn bit(bits: &[u8], n: u32, value: u8) -> u8
    ensures { (result ≡ cond (place_set bits.now n) value 0) × (result ≤ value) }
{
    if window::place_set(bits, n) { value } else { 0 }
}

// Byte k of the places above low.
fn byte(bits: &[u8], low: u32, k: u32) -> u8
    requires { (low ≤ numbers24) × (k ≤ 256) }
    ensures { result ≡ eight (λ j. place_set bits.now (low + 1 + j)) (8 * k) }
{
    let n = low + 1 + 8 * k;
    bit(bits, n, 1)
        + bit(bits, n + 1, 2)
        + bit(bits, n + 2, 4)
        + bit(bits, n + 3, 8)
        + bit(bits, n + 4, 16)
        + bit(bits, n + 5, 32)
        + bit(bits, n + 6, 64)
        + bit(bits, n + 7, 128)
}

fn put_places(out: &mut [u8], to: usize, w: &ReliableWindow) -> usize
    requires { w.now.low ≤ numbers24 }
    ensures { Run to (place_bytes w.now 256) out.old result out.new }
{
    let mut p = to;
    for k in 0..256 {
        p = base::put(out, p, byte(&w.bits, w.low, k));
    }
    p
}

fn put_window(out: &mut [u8], to: usize, w: &ReliableWindow) -> usize
    requires { w.now.low ≤ numbers24 }
    ensures { Run to (window_bytes w.now) out.old result out.new }
{
    let a = put_number(out, to, w.low);
    put_places(out, a, w)
}

fn put_pair(out: &mut [u8], to: usize, a: u32, b: u32) -> usize
    ensures { Run to (pair_bytes a b) out.old result out.new }
{
    let p = put_number(out, to, a);
    put_number(out, p, b)
}

fn put_channels(out: &mut [u8], to: usize, channels: &[Channel]) -> usize
    ensures { Run to (each_bytes channel_bytes channels.now) out.old result out.new }
{
    let mut p = to;
    for c in channels {
        p = put_pair(out, p, c.next, c.newest);
    }
    p
}

fn put_numbers(out: &mut [u8], to: usize, numbers: &[u32]) -> usize
    ensures { Run to (each_bytes be64_bytes numbers.now) out.old result out.new }
{
    let mut p = to;
    for n in numbers {
        p = put_number(out, p, *n);
    }
    p
}

fn put_profile(out: &mut [u8], to: usize, queue: &RecvQueue) -> usize
    ensures { Run to (profile_bytes queue.now) out.old result out.new }
{
    let a = base::put32(out, to, 1);
    put_number(out, a, queue.profile)
}

fn put_windows(out: &mut [u8], to: usize, queue: &RecvQueue) -> usize
    requires { (queue.now.datagrams.low ≤ numbers24) × (queue.now.reliables.low ≤ numbers24) }
    ensures { Run to (windows_bytes queue.now) out.old result out.new }
{
    let a = base::put32(out, to, 2);
    let b = put_window(out, a, &queue.datagrams);
    put_window(out, b, &queue.reliables)
}

// The receiver's own memory stands as one channel more. (`as u32`: there are 32 channels.)
fn put_all_channels(out: &mut [u8], to: usize, queue: &RecvQueue) -> usize
    ensures { Run to (channels_bytes queue.now) out.old result out.new }
{
    let channels: &[Channel] = &queue.channels;
    let a = base::put32(out, to, channels.len() as u32 + 1);
    let b = put_channels(out, a, channels);
    put_pair(out, b, 0, queue.newest)
}

// (A copy is sorted, since the receiver is only read. `as`, here and below: u32 has no From to usize, and there are at most 1,024 numbers.)
fn put_unsent(out: &mut [u8], to: usize, queue: &RecvQueue) -> usize
    requires { queue.now.pending ≤ max_unsent }
    ensures { Run to (unsent_bytes queue.now) out.old result out.new }
{
    let mut copy = queue.unsent;
    let list = &mut copy[..queue.pending as usize];
    list.sort_unstable();
    let a = base::put32(out, to, list.len() as u32);
    put_numbers(out, a, list)
}

pub(crate) fn put_front(out: &mut [u8], queue: &RecvQueue) -> usize
    requires windows { (queue.now.datagrams.low ≤ numbers24) × (queue.now.reliables.low ≤ numbers24) }
    requires few { queue.now.pending ≤ max_unsent }
    ensures { Run 0 (front_bytes queue.now) out.old result out.new }
{
    let a = put_profile(out, 0, queue);
    let b = put_windows(out, a, queue);
    let c = put_all_channels(out, b, queue);
    put_unsent(out, c, queue)
}

// How many bytes these are.
pub(crate) fn front_len(queue: &RecvQueue) -> usize
    requires { queue.now.pending ≤ max_unsent }
    ensures is { result ≡ length (front_bytes queue.now) }
    ensures short { result ≤ 9272 }
{
    let channels: &[Channel] = &queue.channels;
    568 + 16 * channels.len() + 8 * queue.pending as usize
}
