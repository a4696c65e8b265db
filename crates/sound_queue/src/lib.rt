// The rules on the receiver's own values: document 01, 9, "Sound".

#![tactic(auto)]

ghost use Rattle.std.specs.Prelude.{◌≡◌, true, not, ◌&&◌, ◌||◌, ◌+◌, ◌<◌, ◌≤◌, ltb};
ghost use Rattle.base.specs.Limits.{numbers24, window_places};
ghost use Rattle.base.specs.Lists.{every};
ghost use Rattle.window.specs.Places.{place_set};
ghost use Rattle.ack.specs.Write.{ascending};
ghost use Rattle.cells.specs.Sound.{sound_nexts, sound_memories};
ghost use Rattle.recv_parts.specs.Parts.{queue_of};
ghost use Rattle.receiver.specs.Queue.{next_of, newest_of, differ, places_within, sound_window};
ghost use Rattle.sound_queue.specs.Sound.{queue_sound_of, sound_values, nexts_within, joined};
ghost use Rattle.sound_queue.specs.Sound.{sound_number, sound_numbers, numbers_sound_of};

use base::Refusal;
use receiver::{Channel, RecvQueue};
use recv_parts::Heads;
use window::ReliableWindow;

// `NotSound`, or whether the unsent numbers ascend, as they do wherever they joined one by one. (`as usize`: u32 has no From to it.)
#[tactic(auto, using(crate::proofs::Rules::whole))]
pub fn check_queue(queue: &RecvQueue) -> Result<bool, Refusal>
    ensures { result ≡ queue_sound_of queue.now }
{
    if !sound_values(queue) {
        return Err(Refusal::NotSound);
    }
    sound_numbers(&queue.datagrams, &queue.unsent[..queue.pending as usize])
}

// The same of a receiver that is lent by its parts, arrays of every length.
#[tactic(auto, using(crate::proofs::ByParts::by_parts))]
pub fn sound_queue(
    h: Heads,
    dbits: &[u8],
    rbits: &[u8],
    nexts: &[u32],
    unsent: &[u32],
) -> Result<bool, Refusal>
    ensures { result ≡ queue_sound_of (queue_of h dbits.now rbits.now nexts.now unsent.now) }
{
    check_queue(&recv_parts::queue_of(h, dbits, rbits, nexts, unsent))
}

// All rules but those on the unsent numbers themselves.
#[tactic(auto, unfolding(crate::specs::Sound::sound_values, receiver::specs::Queue::sound_profile))]
fn sound_values(queue: &RecvQueue) -> bool
    ensures { result ≡ sound_values queue.now }
{
    sound_window(&queue.datagrams)
        && sound_window(&queue.reliables)
        && sound_nexts(queue)
        && queue.profile < base::PROFILES
        && queue.pending <= base::MAX_UNSENT
}

// Each channel's next and each memory is at most 2^24.
#[tactic(auto, using(crate::proofs::Rules::nexts_by_parts))]
fn sound_nexts(queue: &RecvQueue) -> bool
    ensures { result ≡ (sound_nexts (next_of queue.now) && sound_memories (newest_of queue.now)) }
{
    nexts_within(&queue.channels) && queue.newest <= base::NUMBERS_24
}

// Where low + 2,048 is below 2^24, so is every place's number.
#[tactic(auto, using(crate::proofs::Rules::window_small, crate::proofs::Rules::window_by_places, crate::proofs::Rules::window_over))]
fn sound_window(window: &ReliableWindow) -> bool
    ensures { result ≡ sound_window window.now }
{
    window.low <= base::NUMBERS_24
        && (window.low + base::WINDOW_PLACES < base::NUMBERS_24 || places_within(window))
}

// (Low is at most 2^24, or low + k + 1 might wrap.)
fn places_within(window: &ReliableWindow) -> bool
    requires { window.now.low ≤ numbers24 }
    ensures { result ≡ places_within window.now window_places }
{
    (0..base::WINDOW_PLACES).all(|k| place_within(window, window.low + k + 1))
}

// The number n, which has a place, is below 2^24 or was never accepted.
#[tactic(auto, using(crate::proofs::Rules::place_over))]
fn place_within(window: &ReliableWindow, n: u32) -> bool
    requires low_lt_n { window.now.low < n }
    requires n_bound { n ≤ window.now.low + window_places }
    ensures { result ≡ (ltb n numbers24 || not (place_set window.now.bits n)) }
{
    n < base::NUMBERS_24 || !window.accepted(n)
}

// Each channel's next and memory is at most 2^24. None is above the number that all join to by their bits: where that one is within, so
// are they, and none is looked at by itself. The join takes one instruction for four numbers.
#[tactic(auto, using(crate::proofs::Rules::joined_within))]
fn nexts_within(channels: &[Channel]) -> bool
    ensures { result ≡ nexts_within channels.now }
{
    join(channels) <= base::NUMBERS_24 || each_within(channels)
}

fn join(channels: &[Channel]) -> u32
    ensures { result ≡ joined channels.now }
{
    channels.iter().fold(0, |bits, c| bits | c.next | c.newest)
}

// (Seldom called. Never inlined: timed together with `is_ascending`, as that one is, it spares 8 to 22 % of the stream with 1,024 unsent
// numbers.)
#[inline(never)]
fn each_within(channels: &[Channel]) -> bool
    ensures { result ≡ nexts_within channels.now }
{
    channels.iter().all(|c| c.next <= base::NUMBERS_24 && c.newest <= base::NUMBERS_24)
}

// The rules on unsent numbers. Numbers that ascend differ. (Low is at most 2^24, which `sound_values` tests: so a number below low, which
// is accepted, is below 2^24 too. A struct for a window so tested would serve two functions.)
#[tactic(auto, using(crate::proofs::Rules::rising_told, crate::proofs::Rules::mixed_told))]
fn sound_numbers(window: &ReliableWindow, numbers: &[u32]) -> Result<bool, Refusal>
    requires { window.now.low ≤ numbers24 }
    ensures { result ≡ numbers_sound_of window.now numbers.now }
{
    let ascending = is_ascending(numbers);
    let sound = if ascending {
        sound_rising(window, numbers)
    } else {
        sound_mixed(window, numbers)
    };
    sound.then_some(ascending).ok_or(Refusal::NotSound)
}

// Without a branch the loop is done several numbers at a time: 512 numbers take 87 ns, by `all &= numbers[i - 1] < numbers[i]` 97, by a
// fold over `windows` 112, and by `is_sorted_by` four times as long as here. It is never inlined: there the compiler does not align the
// loop, and where the loop's last branch lies across a multiple of 32 bytes a call takes half as long again.
#[inline(never)]
#[tactic(auto, using(crate::proofs::Ascending::pair_turn))]
fn is_ascending(numbers: &[u32]) -> bool
    ensures { result ≡ ascending numbers.now }
{
    let mut falls = false;
    for i in 1..numbers.len() {
        falls |= numbers[i] <= numbers[i - 1];
    }
    !falls
}

// Those below low are accepted, and all before one of them are below low.
fn sound_rising(window: &ReliableWindow, numbers: &[u32]) -> bool
    requires low_bound { window.now.low ≤ numbers24 }
    requires rising { ascending numbers.now ≡ true }
    ensures { result ≡ every (sound_number window.now) numbers.now }
{
    numbers
        .iter()
        .rev()
        .take_while(|n| window.low <= **n)
        .all(|n| sound_number(window, *n))
}

#[tactic(auto, unfolding(crate::specs::Sound::sound_numbers))]
fn sound_mixed(window: &ReliableWindow, numbers: &[u32]) -> bool
    ensures { result ≡ sound_numbers window.now numbers.now }
{
    each_sound(window, numbers) && each_differs(numbers)
}

fn each_sound(window: &ReliableWindow, numbers: &[u32]) -> bool
    ensures { result ≡ every (sound_number window.now) numbers.now }
{
    numbers.iter().all(|n| sound_number(window, *n))
}

#[tactic(auto, unfolding(crate::specs::Sound::sound_number))]
fn sound_number(window: &ReliableWindow, n: u32) -> bool
    ensures { result ≡ sound_number window.now n }
{
    n < base::NUMBERS_24 && window.accepted(n)
}

// No number stands among those after it.
fn each_differs(numbers: &[u32]) -> bool
    ensures { result ≡ differ numbers.now }
{
    numbers
        .iter()
        .enumerate()
        .all(|(i, n)| !numbers[i + 1..].contains(n))
}
