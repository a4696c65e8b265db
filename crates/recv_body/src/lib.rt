// The bytes of the message that a take gave. (A must-fail edit costs a check of its whole crate, so this is a crate of its own.)

#![tactic(auto)]

ghost use Rattle.std.specs.Prelude.{◌≡◌, take, drop};
ghost use Rattle.recv_body.specs.Body.{taken_body};

use base::Refusal;
use recv_take::{Body, Taken};

// "handed back as part of the store or of the joining buffer, uncopied": the bytes of the message that a take gave; none where it gave
// none.
#[tactic(auto, unfolding(crate::specs::Body::taken_body, recv_take::specs::Outcome::handed_of, receiver::specs::Calls::bytes_at))]
pub fn body<'a>(store: &'a [u8], joined: &'a [u8], taken: Result<Taken, Refusal>) -> &'a [u8]
    ensures { result.now ≡ taken_body store.now joined.now taken }
{
    match taken.map(|t| t.body) {
        Ok(Body::InStore { start, len }) => part(store, start, len),
        Ok(Body::Joined { len }) => part(joined, 0, len),
        Err(_) => &[],
    }
}

// The len bytes from start on, as far as the slice has them.
#[tactic(auto, using(std::proofs::lemmas::List::drop_min, std::proofs::lemmas::List::take_min))]
fn part(bytes: &[u8], start: usize, len: usize) -> &[u8]
    ensures { result.now ≡ take len (drop start bytes.now) }
{
    let rest = &bytes[start.min(bytes.len())..];
    &rest[..len.min(rest.len())]
}
