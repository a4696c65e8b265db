// Document 01's refusals: every call that can refuse answers a `Result` with one of them.
ghost use Rattle.std.specs.Prelude.{◌≡◌};
ghost use Rattle.base.specs.Refusals.{number_of};

#[derive(Clone, Copy, Debug, PartialEq, Eq)]
pub enum Refusal {
    Cut = 1,
    TooLong,
    FirstByte,
    Old,
    Beyond,
    UnsentFull,
    ReliableBeyond,
    CellsFull,
    NotSound,
    UnknownType,
    Reversed,
    NoRoom,
    TooLarge,
    NotAscending,
    OverLimit,
    BadMtu,
    FitsOneChunk,
    TooManyPieces,
    BeyondLast,
    NoneReady,
    BadForm,
    NotRestorable,
}

impl From<Refusal> for u32 {
    ghost from_gives = { λ r n. n ≡ number_of r };

    // (`as`: an enum's own number.)
    fn from(r: Refusal) -> u32 {
        r as u32
    }
}
