// The eight kinds of frames, and each kind's fields, from a table of eight rows for each profile.

#![tactic(auto)]

ghost use Rattle.std.specs.Prelude.{◌≡◌};
ghost use Rattle.base.specs.Refusals.{answer};
ghost use Rattle.reliability.specs.Kinds.{kind_number, kind_named, fields_of, has_reliable, Small};
ghost use Rattle.reliability.specs.Profiles.{profile_of, profile_number, profile_named};
ghost use Rattle.reliability.specs.declared.Profile.TheVariants.{Console, Cpp};

use base::Refusal;

// The kinds, by the names that the Rust has for them. A frame has its kind's number; frames are laid out by other languages too.
#[derive(Clone, Copy, Debug, PartialEq, Eq)]
pub enum Reliability {
    Unreliable = 0,
    UnreliableSeq = 1,
    Reliable = 2,
    ReliableOrd = 3,
    ReliableSeq = 4,
    UnreliableAck = 5,
    ReliableAck = 6,
    ReliableOrdAck = 7,
}

// Whose frames these are: the consoles', as document 01 has them, or those of hosts on RakNet's own C++: the profiles of
// document 02, 2/13.
#[derive(Clone, Copy, Debug, PartialEq, Eq)]
pub enum Profile {
    Console = 0,
    Cpp = 1,
}

// What a frame of a kind carries: for each field that the kind has the place in the header, counted from the frame's first byte; and how
// many bytes the header takes, without a piece's.
#[derive(Clone, Copy, Debug, PartialEq, Eq)]
pub struct KindFields {
    pub reliable: Option<usize>,
    pub sequence: Option<usize>,
    pub order: Option<usize>,
    pub channel: Option<usize>,
    pub header: usize,
}

// The rows that the tables below are made of: what a kind has, in the order of the header.
const NO_FIELD: KindFields = KindFields {
    reliable: None,
    sequence: None,
    order: None,
    channel: None,
    header: 3,
};

const RELIABLE: KindFields = KindFields {
    reliable: Some(3),
    sequence: None,
    order: None,
    channel: None,
    header: 6,
};

const SEQUENCE_ORDER: KindFields = KindFields {
    reliable: None,
    sequence: Some(3),
    order: Some(6),
    channel: Some(9),
    header: 10,
};

const RELIABLE_ORDER: KindFields = KindFields {
    reliable: Some(3),
    sequence: None,
    order: Some(6),
    channel: Some(9),
    header: 10,
};

const RELIABLE_SEQUENCE: KindFields = KindFields {
    reliable: Some(3),
    sequence: Some(6),
    order: None, // RakNet's C++ gives kind 4 an order number
    channel: None,
    header: 9,
};

const ALL_FIELDS: KindFields = KindFields {
    reliable: Some(3),
    sequence: Some(6),
    order: Some(9),
    channel: Some(12),
    header: 13,
};

// Each profile's eight rows, in the order of `Reliability`.
static CONSOLE: [KindFields; 8] = [
    NO_FIELD, // 0, Unreliable
    SEQUENCE_ORDER, // 1, UnreliableSeq
    RELIABLE, // 2, Reliable
    RELIABLE_ORDER, // 3, ReliableOrd
    RELIABLE_SEQUENCE, // 4, ReliableSeq
    NO_FIELD, // 5, UnreliableAck
    NO_FIELD, // 6, ReliableAck: it has no reliable number
    RELIABLE_ORDER, // 7, ReliableOrdAck
];

static CPP: [KindFields; 8] = [
    NO_FIELD, // 0, Unreliable
    SEQUENCE_ORDER, // 1, UnreliableSeq
    RELIABLE, // 2, Reliable
    RELIABLE_ORDER, // 3, ReliableOrd
    ALL_FIELDS, // 4, ReliableSeq
    NO_FIELD, // 5, UnreliableAck
    NO_FIELD, // 6, ReliableAck
    RELIABLE_ORDER, // 7, ReliableOrdAck
];

// The row of kind `k`, taken modulo 8. (A number, and no `Reliability`: this is open, and answers for every number.)
pub fn fields(p: Profile, k: u8) -> KindFields
    ensures is { result ≡ fields_of p k }
    ensures small { Small result }
{
    let rows = match p {
        Profile::Console => &CONSOLE,
        Profile::Cpp => &CPP,
    };
    rows[usize::from(k % 8)]
}

impl Reliability {
    // Has a frame of this kind a reliable number? The profiles do not differ in it.
    fn has_reliable(self) -> bool
        ensures { result ≡ has_reliable (kind_number self) }
    {
        matches!(
            self,
            Reliability::Reliable
                | Reliability::ReliableOrd
                | Reliability::ReliableSeq
                | Reliability::ReliableOrdAck
        )
    }
}

// Has a frame of kind `k` a reliable number? None has where `k` is no kind. (A number for the same reason as above.)
#[tactic(auto, using(crate::proofs::Named::reliable_told, crate::proofs::Named::none_reliable))]
pub fn has_reliable(k: u8) -> bool
    ensures { result ≡ has_reliable k }
{
    Reliability::try_from(k).is_ok_and(Reliability::has_reliable)
}

// A kind's number, as frames have it. (`as`, here and below: an enum's own number.)
impl From<Reliability> for u8 {
    ghost from_gives = { λ k n. n ≡ kind_number k };

    fn from(k: Reliability) -> u8 {
        k as u8
    }
}

impl TryFrom<u8> for Reliability {
    type Error = Refusal;

    ghost try_from_gives = { λ n r. answer r ≡ kind_named n };

    #[tactic(auto, unfolding(crate::specs::Kinds::kind_named, base::specs::If::if_eq, base::specs::If::if_true))]
    fn try_from(n: u8) -> Result<Reliability, Refusal> {
        match n {
            0 => Ok(Reliability::Unreliable),
            1 => Ok(Reliability::UnreliableSeq),
            2 => Ok(Reliability::Reliable),
            3 => Ok(Reliability::ReliableOrd),
            4 => Ok(Reliability::ReliableSeq),
            5 => Ok(Reliability::UnreliableAck),
            6 => Ok(Reliability::ReliableAck),
            7 => Ok(Reliability::ReliableOrdAck),
            _ => Err(Refusal::OverLimit),
        }
    }
}

// A profile as other languages name it: a number.
impl From<Profile> for u32 {
    ghost from_gives = { λ p n. n ≡ profile_number p };

    fn from(p: Profile) -> u32 {
        p as u32
    }
}

impl TryFrom<u32> for Profile {
    type Error = Refusal;

    ghost try_from_gives = { λ n r. answer r ≡ profile_named n };

    #[tactic(auto, using(crate::proofs::Laws::named_console, crate::proofs::Laws::named_cpp, crate::proofs::Laws::named_none))]
    fn try_from(n: u32) -> Result<Profile, Refusal> {
        match n {
            0 => Ok(Profile::Console),
            1 => Ok(Profile::Cpp),
            _ => Err(Refusal::NotSound),
        }
    }
}

// A receiver keeps its profile as a number, as the C interface lays it out. Every number but 1 stands for the console profile here; a
// receiver that has 2 or more is unsound.
#[tactic(auto, using(crate::proofs::Laws::read_named))]
pub fn profile_of(n: u32) -> Profile
    ensures { result ≡ profile_of n }
{
    Profile::try_from(n).unwrap_or(Profile::Console)
}
