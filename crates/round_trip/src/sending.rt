// The sender: messages, whose data is a pattern, and the datagrams that their pieces are written into.

use base::Refusal;

// The most messages of a trip.
const MESSAGES: usize = 8;

// ---- data

fn next(x: u32) -> u32 {
    x.wrapping_mul(1664525).wrapping_add(1013904223)
}

// A pattern whose numbers repeat only after 2^32: of each the highest byte.
fn pattern(x: u32) -> u8 {
    let [high, _, _, _] = x.to_be_bytes();
    high
}

fn fill(out: &mut [u8], seed: u32) {
    let mut x = seed;
    for byte in out.iter_mut() {
        x = next(x);
        *byte = pattern(x);
    }
}

// Are these the bytes that `fill` makes of the seed? They are made anew.
fn is_filled(bytes: &[u8], seed: u32) -> bool {
    let mut x = seed;
    for byte in bytes {
        x = next(x);
        if *byte != pattern(x) {
            return false;
        }
    }
    true
}

// ---- messages

// Its data stands from `start` to `end`.
#[derive(Clone, Copy, Debug, Default, PartialEq, Eq)]
pub struct Message {
    seed: u32,
    start: usize,
    end: usize,
    mtu: u16,
    id: u16,
    channel: u8,
    order: u32,
}

impl Message {
    // The message of a payload: seed (4), length (4), mtu (2), id (2), channel (1), order number (4). (`as usize`: u32 has no From to it.)
    fn of(p: &[u8], start: usize) -> Message {
        Message {
            seed: base::be32_at(p, 0),
            start,
            end: start.saturating_add(base::be32_at(p, 4) as usize),
            mtu: base::be16_at(p, 8),
            id: base::be16_at(p, 10),
            channel: base::byte(p, 12),
            order: base::be32_at(p, 13),
        }
    }

    fn len(&self) -> usize {
        self.end.saturating_sub(self.start)
    }

    pub fn has_data(&self, body: &[u8]) -> bool {
        body.len() == self.len() && is_filled(body, self.seed)
    }
}

#[derive(Drop)]
pub struct Sender<'a> {
    data: &'a mut [u8],
    messages: [Message; MESSAGES],
    count: usize,
    // The bytes of all messages, one after another, end here.
    end: usize,
}

// The part of a payload that names a piece: which message (1), which piece (2), reliable number (4).
pub const PIECE: usize = 7;

impl<'a> Sender<'a> {
    pub fn new(data: &'a mut [u8]) -> Sender<'a> {
        Sender {
            data,
            messages: [Message::default(); MESSAGES],
            count: 0,
            end: 0,
        }
    }

    pub fn forget_all(&mut self) {
        self.messages = [Message::default(); MESSAGES];
        self.count = 0;
        self.end = 0;
    }

    // One message more; none where there is no room for it.
    pub fn add(&mut self, p: &[u8]) {
        let message = Message::of(p, self.end);
        if let Some(data) = self.data.get_mut(message.start..message.end) {
            fill(data, message.seed);
            self.end = message.end;
            self.count = base::put(&mut self.messages, self.count, message);
        }
    }

    // The message of this channel and order number.
    pub fn message(&self, channel: u8, order: u32) -> Option<Message> {
        let messages = self.messages.iter().take(self.count);
        messages
            .copied()
            .find(|m| m.channel == channel && m.order == order)
    }

    // Writes the piece that is named as the frame that the output begins with, and returns how many bytes the frame takes.
    pub fn write_piece(&self, p: &[u8], out: &mut [u8]) -> Result<usize, Refusal> {
        let i = usize::from(base::byte(p, 0));
        let m = self.messages.get(i).copied().unwrap_or_default();
        let data = replay::part(self.data, m.start, m.end);
        let k = u32::from(base::be16_at(p, 1));
        let reliable = base::be32_at(p, 3);
        split::write_piece(data, m.mtu, m.id, k, m.channel, m.order, reliable, out)
    }
}
