// The receiver's answers in document 01's numbers: a refusal's, or 0 and the values, which are all 0 beside a refusal. The exported calls
// tell them; what a writing answers is told by `exports::AckWritten`.

#![tactic(auto)]

ghost use Rattle.std.specs.Prelude.{◌≡◌};
ghost use Rattle.base.specs.Refusals.{answer, answer_by};
ghost use Rattle.recv_steps.specs.Outcome.{report_of};
ghost use Rattle.recv_take.specs.Outcome.{handed_of};
ghost use Rattle.exports.specs.Numbers.{number_of};
ghost use Rattle.recv_answers.specs.Told.{receive_told, take_told, drop_told, save_told};

use base::Refusal;
use recv_steps::Received;
use recv_take::{Body, Taken};

// C lays these structs out: a number, 0 or the refusal's, and a flag stand beside the values, in place of a `Result` and an enum.
#[repr(C)]
#[derive(Clone, Copy, Debug, Default, PartialEq, Eq)]
pub struct QueueReceived {
    pub number: u32,
    pub ready: u32,
    pub dropped: u32,
    pub left: usize,
}

impl From<Result<Received, Refusal>> for QueueReceived {
    ghost from_gives = { λ r x. x ≡ receive_told (answer_by report_of r) };

    #[tactic(auto, unfolding(recv_steps::specs::Outcome::report_of))]
    fn from(r: Result<Received, Refusal>) -> QueueReceived {
        match r {
            Ok(r) => QueueReceived {
                number: 0,
                ready: r.ready,
                dropped: r.dropped,
                left: r.left,
            },
            Err(e) => QueueReceived {
                number: e.into(),
                ..QueueReceived::default()
            },
        }
    }
}

// The message's bytes are the first `len` of the joining buffer where it is joined, else `len` of the store from `start` on.
#[repr(C)]
#[derive(Clone, Copy, Debug, Default, PartialEq, Eq)]
pub struct QueueTaken {
    pub number: u32,
    pub kind: u8,
    pub channel: u8,
    pub order: u32,
    pub joined: bool,
    pub start: usize,
    pub len: usize,
}

impl From<Result<Taken, Refusal>> for QueueTaken {
    ghost from_gives = { λ r x. x ≡ take_told (answer_by handed_of r) };

    #[tactic(auto, unfolding(recv_take::specs::Outcome::handed_of))]
    fn from(r: Result<Taken, Refusal>) -> QueueTaken {
        match r {
            Ok(t) => {
                let (joined, start, len) = match t.body {
                    Body::InStore { start, len } => (false, start, len),
                    Body::Joined { len } => (true, 0, len),
                };
                QueueTaken {
                    number: 0,
                    kind: t.kind,
                    channel: t.channel,
                    order: t.order,
                    joined,
                    start,
                    len,
                }
            }
            Err(e) => QueueTaken {
                number: e.into(),
                ..QueueTaken::default()
            },
        }
    }
}

// How many cells were freed.
#[repr(C)]
#[derive(Clone, Copy, Debug, Default, PartialEq, Eq)]
pub struct QueueDropped {
    pub number: u32,
    pub freed: u32,
}

impl From<Result<u32, Refusal>> for QueueDropped {
    ghost from_gives = { λ r x. x ≡ drop_told (answer r) };

    fn from(r: Result<u32, Refusal>) -> QueueDropped {
        match r {
            Ok(freed) => QueueDropped { number: 0, freed },
            Err(e) => QueueDropped {
                number: e.into(),
                ..QueueDropped::default()
            },
        }
    }
}

// How many bytes the image has.
#[repr(C)]
#[derive(Clone, Copy, Debug, Default, PartialEq, Eq)]
pub struct QueueSaved {
    pub number: u32,
    pub len: usize,
}

impl From<Result<usize, Refusal>> for QueueSaved {
    ghost from_gives = { λ r x. x ≡ save_told (answer r) };

    fn from(r: Result<usize, Refusal>) -> QueueSaved {
        match r {
            Ok(len) => QueueSaved { number: 0, len },
            Err(e) => QueueSaved {
                number: e.into(),
                ..QueueSaved::default()
            },
        }
    }
}

// What make new answers, which gives no values: for C, a number alone. (Beside `exports::number_of`, as an open function keeps its name.)
pub fn new_number(made: Result<(), Refusal>) -> u32
    ensures { result ≡ number_of (answer made) }
{
    exports::number_of(made)
}
