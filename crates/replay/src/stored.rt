// The stored input: items one after another.

ghost use Rattle.std.specs.Prelude.{◌≡◌, ◌<◌, ◌≤◌, length, unwrap_or, IfSome};
ghost use Rattle.replay.specs.Items.{part_of, item_in, item_of, no_item, items_of, items_left};

// An item is a tag (1 byte), a length (16 bits big-endian) and a payload, from `start` to `end`; the next item stands at `end`. The tag is
// the byte as it stands: each program has an enum of its own items, and reads it by `TryFrom`.
#[derive(Clone, Copy, Debug, PartialEq, Eq)]
pub struct Item {
    pub tag: u8,
    pub start: usize,
    pub end: usize,
}

// The bytes of a tag and a length.
const START_SIZE: usize = 3;

// The item at this place; none where it is cut. After an item less is left.
#[tactic(auto, unfolding(crate::specs::Items::item_in, crate::specs::Items::item_of, base::specs::If::if_le, base::specs::If::if_true))]
pub fn item_at(s: &[u8], at: usize) -> Option<Item>
    ensures item { result ≡ item_in s.now at }
    ensures value { unwrap_or result (no_item s.now) ≡ item_of s.now at }
    ensures end_in_bounds { IfSome result (λ i. (at < i.end) × (i.end ≤ length s.now)) }
{
    let tag = *s.get(at)?;
    let start = at + START_SIZE;
    let end = start + usize::from(base::be16_at(s, at + 1));
    (end <= s.len()).then_some(Item { tag, start, end })
}

// The part from start to end; nothing where there is none.
#[tactic(auto, unfolding(crate::specs::Items::part_of, base::specs::If::if_le, base::specs::If::if_true))]
pub fn part(s: &[u8], start: usize, end: usize) -> &[u8]
    ensures { result.now ≡ part_of s.now start end }
{
    s.get(start..end).unwrap_or(&[])
}

// The items of some bytes from a place on: the tag and the payload of each. A cut item ends them.
#[derive(Clone, Debug, Drop)]
pub struct Items<'a> {
    bytes: &'a [u8],
    at: usize,
}

impl<'a> Items<'a> {
    pub fn of(bytes: &'a [u8]) -> Items<'a>
        ensures { items_left result ≡ items_of bytes.now }
    {
        Items { bytes, at: 0 }
    }
}

impl<'a> Iterator for Items<'a> {
    ghost use Rattle.std.specs.Iterator.{YieldsFirstBy, item_count};
    ghost use Rattle.replay.specs.Items.{tag_and_bytes, items_left};

    type Item = (u8, &'a [u8]);

    ghost next_gives = { YieldsFirstBy tag_and_bytes items_left };

    ghost remaining = { item_count items_left };

    #[tactic(auto, using(crate::proofs::Left::lefts))]
    fn next(&mut self) -> Option<(u8, &'a [u8])> {
        let item = item_at(self.bytes, self.at)?;
        self.at = item.end;
        Some((item.tag, part(self.bytes, item.start, item.end)))
    }
}
